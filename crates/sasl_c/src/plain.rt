//! The message of PLAIN, over texts (RFC 4616, section 2).

ghost use Rattle.std.specs.Prelude.{◌↔◌, ◌≡◌, ◌≢◌, ◌≤◌, ◌∷◌, ◌++◌, ℕ, List, [], IfErr, IfOk, IsTrue, MatchOption, MatchResult, Err, Ok};
ghost use Rattle.fe2o3_scram.specs.Readings.{IsFirst, NoneHolds};
ghost use Rattle.fe2o3_scram.specs.Texts.{Without};
ghost use Rattle.fe2o3_sasl_core.specs.PlainWords.{ArePlainWords};
ghost use Rattle.sasl_c.specs.Client.{CanBeNamed};
ghost use Rattle.sasl_c.specs.Plain.{ClaimsPlainIdentity, ClaimsPlainUser, WritesPlain, word_tests};
ghost use Rattle.sasl_c.specs.Status.{AnswersText, AsksText, AsksWhere, Fills};
ghost use Rattle.sasl_c.specs.declared.status.Status.TheVariants.{OutOfMemory as StatusOutOfMemory};

use crate::arrays::{put, write};
use crate::identity::IDENTITY_MOST;
use crate::status::{Status, WriteError, text, text_number};
use crate::zeros::has_no_zero;
use fe2o3_sasl_core::plain_server::{plain_identity, plain_user};
use std::alloc::{AllocError, Global};

/// The words of a message of PLAIN as texts. The identity is empty if the user acts for itself.
#[derive(Drop)]
pub struct PlainWords<'a> {
    /// The identity that the user acts for.
    pub acts_for: &'a str,

    /// The user name.
    pub username: &'a str,

    /// The password.
    pub password: &'a str,
}

/// Returns the words of a message as texts. `NotUtf8`, `NamesNoUser`, `EmptyPassword`, `ProhibitedCharacter` and
/// `TooLong`.
#[tactic(auto, using(crate::proofs::PlainLemmas::words))]
pub fn words_of<'a>(
    acts_for: &'a [u8],
    username: &'a [u8],
    password: &'a [u8],
) -> Result<PlainWords<'a>, Status>
    ensures tested { MatchResult result
        (λ words. NoneHolds (word_tests acts_for.now username.now password.now) × (words.acts_for.now ≡ acts_for.now)
        × (words.username.now ≡ username.now) × (words.password.now ≡ password.now))
        (λ status. IsFirst (word_tests acts_for.now username.now password.now) status) }
    ensures words { IfOk result (λ _. ArePlainWords username.now password.now) }
    ensures identity { IfOk result (λ _. CanBeNamed acts_for.now) }
    ensures memory { IfErr result (λ status. status ≢ StatusOutOfMemory) }
{
    let acts_for = text(acts_for)?;
    let username = text(username)?;
    let password = text(password)?;
    if username.is_empty() {
        return Err(Status::NamesNoUser);
    }
    if password.is_empty() {
        return Err(Status::EmptyPassword);
    }
    if !has_no_zero(acts_for) || !has_no_zero(username) || !has_no_zero(password) {
        return Err(Status::ProhibitedCharacter);
    }
    if acts_for.len() > IDENTITY_MOST {
        return Err(Status::TooLong);
    }
    Ok(PlainWords {
        acts_for,
        username,
        password,
    })
}

/// Returns the words with a zero byte between them.
fn joined(alloc: Global, words: &PlainWords<'_>) -> Result<Vec<u8>, AllocError>
    ensures { IfOk result (λ message. message.items
        ≡ words.now.acts_for.now ++ 0 ∷ (words.now.username.now ++ 0 ∷ words.now.password.now)) }
{
    let room = words
        .acts_for
        .len()
        .saturating_add(words.username.len())
        .saturating_add(words.password.len())
        .saturating_add(2);
    let mut message = Vec::with_capacity(alloc, room)?;
    message.extend_from_slice(words.acts_for.as_bytes())?;
    message.push(0)?;
    message.extend_from_slice(words.username.as_bytes())?;
    message.push(0)?;
    message.extend_from_slice(words.password.as_bytes())?;
    Ok(message)
}

/// Returns the message of a user with a password, who acts for an identity.
fn compute_message(
    alloc: Global,
    acts_for: &[u8],
    username: &[u8],
    password: &[u8],
) -> Result<Vec<u8>, Status>
    ensures ok { IfOk result (λ message. WritesPlain acts_for.now username.now password.now (Ok message.items)) }
    ensures err { IfErr result (λ status. status ≢ StatusOutOfMemory
        → WritesPlain acts_for.now username.now password.now (Err status)) }
    ensures memory { AsksWhere (NoneHolds (word_tests acts_for.now username.now password.now)) result }
{
    let words = words_of(acts_for, username, password)?;
    Ok(joined(alloc, &words)?)
}

/// Writes the message by which a client logs in with PLAIN (RFC 4616, section 2): the identity that the client acts for,
/// which is empty if it acts for itself, the user name and the password, with a zero byte between them. The message has
/// the password in clear, so send it over TLS only. Prepare a non-ASCII password first (`fe2o3_saslprep`).
///
/// Returns, in this order, FE2O3_NOT_UTF8 if a word is not UTF-8, FE2O3_NAMES_NO_USER if the user name is empty,
/// FE2O3_EMPTY_PASSWORD if the password is, FE2O3_PROHIBITED_CHARACTER if a word contains a zero byte, and
/// FE2O3_TOO_LONG if the identity has more than 256 bytes.
#[unsafe(no_mangle)]
#[tactic(auto, using(crate::proofs::StatusLemmas::written))]
pub extern "C" fn fe2o3_plain_message(
    alloc: Global,
    acts_for: &[u8],
    username: &[u8],
    password: &[u8],
    out: &mut [u8],
    out_len: &mut usize,
) -> u32
    ensures { AnswersText result (λ answer. Fills (WritesPlain acts_for.now username.now password.now)
        (record { bytes = out.old; len = out_len.old }) (record { bytes = out.new; len = out_len.new }) answer
        × AsksText (NoneHolds (word_tests acts_for.now username.now password.now)) answer) }
{
    text_number(write(
        compute_message(alloc, acts_for, username, password),
        out,
        out_len,
    ))
}

/// Returns the user name that a message claims.
fn claimed_user(message: &[u8]) -> Result<&[u8], Status>
    ensures ok { IfOk result (λ name. ClaimsPlainUser message.now (Ok name.now)) }
    ensures err { IfErr result (λ status. status ≢ StatusOutOfMemory → ClaimsPlainUser message.now (Err status)) }
    ensures memory { AsksWhere ⊥ result }
{
    match plain_user(message) {
        Some(user) => Ok(user.as_bytes()),
        None => Err(Status::NamesNoUser),
    }
}

/// Writes the user name that a message of PLAIN claims (RFC 4616, section 2). Nobody is authenticated yet: use it only
/// to look up the record for `fe2o3_plain_verify`.
///
/// Returns FE2O3_NAMES_NO_USER for a message that `fe2o3_plain_verify` rejects whatever its other arguments are: one that
/// is not UTF-8 in three parts, whose user name is empty, or whose password does not have 1 to 1024 bytes.
#[unsafe(no_mangle)]
#[tactic(auto, using(crate::proofs::StatusLemmas::written))]
pub extern "C" fn fe2o3_plain_claimed_user(
    message: &[u8],
    out: &mut [u8],
    out_len: &mut usize,
) -> u32
    ensures { AnswersText result (λ answer. Fills (ClaimsPlainUser message.now)
        (record { bytes = out.old; len = out_len.old }) (record { bytes = out.new; len = out_len.new }) answer
        × AsksText ⊥ answer) }
{
    text_number(write(claimed_user(message), out, out_len))
}

/// Returns the identity that a message asks to act for, or no bytes if its user acts for itself.
#[tactic(auto, using(crate::proofs::PlainLemmas::claims))]
fn claimed_identity(message: &[u8]) -> Result<&[u8], Status>
    ensures ok { IfOk result (λ name. ClaimsPlainIdentity message.now (Ok name.now)) }
    ensures err { IfErr result (λ status. status ≢ StatusOutOfMemory → ClaimsPlainIdentity message.now (Err status)) }
    ensures memory { AsksWhere ⊥ result }
{
    match plain_identity(message) {
        Some(identity) => Ok(identity.as_bytes()),
        None => match plain_user(message) {
            Some(_) => Ok(&[]),
            None => Err(Status::NamesNoUser),
        },
    }
}

/// Writes the identity that a message of PLAIN asks to act for (RFC 4616, section 2), or 0 bytes if its user acts for
/// itself. It is only claimed, like the user's name: use it only to look up whether the user may act for it. The errors are
/// those of `fe2o3_plain_claimed_user`.
#[unsafe(no_mangle)]
#[tactic(auto, using(crate::proofs::StatusLemmas::written))]
pub extern "C" fn fe2o3_plain_claimed_identity(
    message: &[u8],
    out: &mut [u8],
    out_len: &mut usize,
) -> u32
    ensures { AnswersText result (λ answer. Fills (ClaimsPlainIdentity message.now)
        (record { bytes = out.old; len = out_len.old }) (record { bytes = out.new; len = out_len.new }) answer
        × AsksText ⊥ answer) }
{
    text_number(write(claimed_identity(message), out, out_len))
}
