//! Reads the server-first message.

ghost use Rattle.std.specs.Prelude.{◌≡◌, ◌≢◌, ◌≤◌, ◌↔◌, ◌++◌, ℕ, List, IfOk, IfErr, IsTrue, MatchResult, T, codes, false};
ghost use Rattle.fe2o3_scram.specs.private.Tests.{salt_tests, count_tests, text_grammar_tests};
ghost use Rattle.fe2o3_scram.specs.Readings.{Gives, IsFirst, NoneHolds};
ghost use Rattle.fe2o3_scram.specs.ServerFirst.{ReachesSalt, ReadsServerFirst, client_of, server_first_values, AddsNoNonce, HasCount, HasPlainCount, nonce_tests};
ghost use Rattle.fe2o3_scram.specs.ChannelBinding.{plain_header};
ghost use Rattle.fe2o3_scram.specs.ClientSecret.{Password as ByPassword, secret_of, up_to};
ghost use Rattle.fe2o3_scram.specs.Passwords.{IsNormal, Typed, password_of};
ghost use Rattle.fe2o3_scram.specs.Texts.{Part, HasBase64};
ghost use Rattle.fe2o3_scram.specs.private.Serving.{Serves, ServesNot};

use crate::client_secret::{ClientSecret, IterationLimits};
use crate::passwords::Password;
use crate::scram_messages::attributes::{ITERATION_COUNT_KEY, NONCE_KEY, RESERVED_MEXT, SALT_KEY};
use crate::scram_messages::client_header::ClientHeader;
use crate::scram_messages::error::ScramErrorKind;
use crate::scram_messages::grammar::{is_misplaced, is_nonce};
use crate::texts::{after, attribute, bytes_of, count_of, part, plain_count_of};
use std::alloc::Global;

/// What a server-first message names (RFC 5802, section 7).
#[derive(Debug, Drop)]
pub struct ServerFirst<'a> {
    /// The nonce of both sides.
    pub nonce: &'a str,

    /// The salt, of any length.
    pub salt: Vec<u8>,

    /// The iteration count, which is not 0.
    pub iterations: u32,
}

impl<'a> ServerFirst<'a> {
    /// Reads a server-first message (RFC 5802, sections 5.1 and 7) for a client that has sent this nonce, and accepts
    /// no iteration count above the limit. The nonce is that of the client-first message, as it was sent. The password
    /// is only tested (RFC 4013, section 2).
    ///
    /// The errors are, in this order: `InsufficientParts`, `ExtensionNotSupported`, `NonceNotFound`,
    /// `ClientNonceMismatch`, `SaltNotFound`, `Base64DecodeError`, `IterationCountNotFound`,
    /// `IterationCountParseError`, `IterationCountTooLarge`, and `NormalizeError` for the password. Parts after the
    /// count are ignored. Only the salt is allocated: `OutOfMemory` is returned only if none of the first five errors
    /// applies.
    pub fn parse(
        alloc: Global,
        client_nonce: &str,
        password: &str,
        limit: u32,
        text: &'a str,
    ) -> Result<Self, ScramErrorKind>
        ensures reads { Gives ScramErrorKind.OutOfMemory (ReachesSalt client_nonce.now text.now)
            server_first_values result
            (ReadsServerFirst
            (client_of client_nonce.now (ByPassword (Typed password.now)) (up_to limit) plain_header false) text.now) }
        ensures count { IfOk result (λ first. (1 ≤ first.iterations) × (first.iterations ≤ limit)) }
    {
        let limits = IterationLimits::up_to(limit);
        let first = ServerFirst::read(
            alloc,
            client_nonce,
            ClientSecret::Password(Password::Typed(password)),
            limits,
            &ClientHeader::plain(),
            false,
            text,
        )?;
        Ok(first)
    }

    /// Reads a server-first message like `parse`, for a client with this header and this secret, which accepts the
    /// counts within these limits. A client that has a channel or sends an authorization identity tests extensions like
    /// a strict one.
    ///
    /// The errors are, in this order: those of `parse` up to `IterationCountParseError`; `IterationCountTooSmall` and
    /// `IterationCountTooLarge`; of a strict client `ClientNonceMismatch` if the server's part of the nonce is empty or
    /// not printable, and `IterationCountParseError` if the count has a sign or leading zeros; `MisplacedAttribute` of
    /// a client that is strict, has a channel or sends an authorization identity if a part after the count is no
    /// extension (RFC 5802, section 7); `NormalizeError` if a typed password is needed and is not printable ASCII, or
    /// `StaleKeys` if the secret is only keys and the message names another salt or count than theirs. Only the salt is
    /// allocated: `OutOfMemory` is returned only if none of the first five errors applies.
    pub fn parse_with_header(
        alloc: Global,
        header: &ClientHeader<'_>,
        strict: bool,
        client_nonce: &str,
        secret: ClientSecret<'_>,
        limits: IterationLimits,
        text: &'a str,
    ) -> Result<Self, ScramErrorKind>
        ensures reads { Gives ScramErrorKind.OutOfMemory (ReachesSalt client_nonce.now text.now)
            server_first_values result
            (ReadsServerFirst (client_of client_nonce.now (secret_of secret.entry) limits header.now strict) text.now) }
        ensures count { IfOk result (λ first. (1 ≤ first.iterations) × (first.iterations ≤ limits.max_iterations)) }
    {
        let first = ServerFirst::read(alloc, client_nonce, secret, limits, header, strict, text)?;
        Ok(first)
    }

    /// Reads a server-first message like `parse_with_header`, and states that its values serve the secret.
    pub(super) fn read(
        alloc: Global,
        client_nonce: &str,
        secret: ClientSecret<'_>,
        limits: IterationLimits,
        header: &ClientHeader<'_>,
        strict: bool,
        text: &'a str,
    ) -> Result<Self, ScramErrorKind>
        ensures reads { Gives ScramErrorKind.OutOfMemory (ReachesSalt client_nonce.now text.now)
            server_first_values result
            (ReadsServerFirst (client_of client_nonce.now (secret_of secret.entry) limits header.now strict) text.now) }
        ensures count { IfOk result (λ first. (1 ≤ first.iterations) × (first.iterations ≤ limits.max_iterations)) }
        ensures serves { IfOk result (λ first. Serves (secret_of secret.entry) (server_first_values first)) }
    {
        let nonce = read_nonce(client_nonce, text)?;
        let salt = read_salt(alloc, text)?;
        let iterations = read_count(limits, text)?;
        test_grammar(strict, header.is_strict(strict), client_nonce, text)?;
        let first = ServerFirst {
            nonce,
            salt,
            iterations,
        };
        test_secret(secret, &first)?;
        Ok(first)
    }
}

/// Returns the nonce of both sides.
#[tactic(auto, using(crate::proofs::lemmas::messages::ServerFirstLemmas::nonces))]
fn read_nonce<'a>(client_nonce: &str, server_first: &'a str) -> Result<&'a str, ScramErrorKind>
    ensures tested { IfOk result (λ _. NoneHolds (nonce_tests client_nonce.now server_first.now)) }
    ensures named { IfOk result (λ nonce. Part server_first.now 0 (codes "r=" ++ nonce.now)) }
    ensures err { IfErr result (IsFirst (nonce_tests client_nonce.now server_first.now)) }
{
    let Some(_) = part(server_first, 2) else {
        return Err(ScramErrorKind::InsufficientParts);
    };
    if let Some(_) = attribute(server_first, 0, RESERVED_MEXT) {
        return Err(ScramErrorKind::ExtensionNotSupported);
    }
    let Some(nonce) = attribute(server_first, 0, NONCE_KEY) else {
        return Err(ScramErrorKind::NonceNotFound);
    };
    let Some(_) = after(nonce, client_nonce) else {
        return Err(ScramErrorKind::ClientNonceMismatch);
    };
    Ok(nonce)
}

/// Returns the salt.
#[tactic(auto, using(crate::proofs::lemmas::messages::ServerFirstLemmas::salts))]
fn read_salt(alloc: Global, server_first: &str) -> Result<Vec<u8>, ScramErrorKind>
    ensures tested { IfOk result (λ _. NoneHolds (salt_tests server_first.now)) }
    ensures named { IfOk result (λ salt. HasBase64 server_first.now 1 (codes "s=") salt.items) }
    ensures memory { IfErr result (λ kind. kind ≡ ScramErrorKind.OutOfMemory
        → (rest : List ℕ) × Part server_first.now 1 (codes "s=" ++ rest)) }
    ensures err { IfErr result (λ kind. kind ≢ ScramErrorKind.OutOfMemory
        → IsFirst (salt_tests server_first.now) kind) }
{
    let Some(base64_salt) = attribute(server_first, 1, SALT_KEY) else {
        return Err(ScramErrorKind::SaltNotFound);
    };
    let Some(salt) = bytes_of(alloc, base64_salt)? else {
        return Err(ScramErrorKind::Base64DecodeError);
    };
    Ok(salt)
}

/// Returns the iteration count, from 1 on and within the limits.
#[tactic(auto, using(crate::proofs::lemmas::messages::ServerFirstLemmas::counts))]
fn read_count(limits: IterationLimits, server_first: &str) -> Result<u32, ScramErrorKind>
    ensures tested { IfOk result (λ _. NoneHolds (count_tests limits server_first.now)) }
    ensures named { IfOk result (HasCount server_first.now) }
    ensures within { IfOk result (λ count. (1 ≤ count) × (count ≤ limits.max_iterations)) }
    ensures err { IfErr result (IsFirst (count_tests limits server_first.now)) }
{
    let Some(iter_count_str) = attribute(server_first, 2, ITERATION_COUNT_KEY) else {
        return Err(ScramErrorKind::IterationCountNotFound);
    };
    let Some(iterations) = count_of(iter_count_str) else {
        return Err(ScramErrorKind::IterationCountParseError);
    };
    if iterations < limits.min_iterations {
        return Err(ScramErrorKind::IterationCountTooSmall);
    }
    if iterations > limits.max_iterations {
        return Err(ScramErrorKind::IterationCountTooLarge);
    }
    Ok(iterations)
}

/// Tests what the grammar says: if the client is `strict`, of the server's part of the nonce and of how the count is
/// spelled, and if it `rejects_misplaced` of the parts after the count.
fn test_grammar(
    strict: bool,
    rejects_misplaced: bool,
    client_nonce: &str,
    server_first: &str,
) -> Result<(), ScramErrorKind>
    ensures { MatchResult result
        (λ _. NoneHolds (text_grammar_tests strict rejects_misplaced client_nonce.now server_first.now))
        (IsFirst (text_grammar_tests strict rejects_misplaced client_nonce.now server_first.now)) }
{
    if breaks_nonce(strict, client_nonce, server_first) {
        return Err(ScramErrorKind::ClientNonceMismatch);
    }
    if breaks_count(strict, server_first) {
        return Err(ScramErrorKind::IterationCountParseError);
    }
    if is_misplaced(rejects_misplaced, server_first, 3) {
        return Err(ScramErrorKind::MisplacedAttribute);
    }
    Ok(())
}

/// Returns whether a `strict` client rejects the message, since what follows the client's nonce is empty or not printable.
fn breaks_nonce(strict: bool, client_nonce: &str, server_first: &str) -> bool
    ensures { IsTrue result ↔ (T strict × AddsNoNonce client_nonce.now server_first.now) }
{
    strict && adds_no_nonce(client_nonce, server_first)
}

fn adds_no_nonce(client_nonce: &str, server_first: &str) -> bool
    ensures { IsTrue result ↔ AddsNoNonce client_nonce.now server_first.now }
{
    let Some(nonce) = attribute(server_first, 0, NONCE_KEY) else {
        return false;
    };
    let Some(added) = after(nonce, client_nonce) else {
        return false;
    };
    !is_nonce(added.as_bytes())
}

/// Returns whether a `strict` client rejects the message, since its iteration count has a sign or leading zeros.
fn breaks_count(strict: bool, server_first: &str) -> bool
    ensures { IsTrue result ↔ (T strict × ((count : ℕ) → ¬ HasPlainCount server_first.now count)) }
{
    strict && has_no_plain_count(server_first)
}

fn has_no_plain_count(server_first: &str) -> bool
    ensures { IsTrue result ↔ ((count : ℕ) → ¬ HasPlainCount server_first.now count) }
{
    let Some(digits) = attribute(server_first, 2, ITERATION_COUNT_KEY) else {
        return true;
    };
    plain_count_of(digits).is_none()
}

/// Tests the secret against the message's values: a password that is needed, or keys without a password.
fn test_secret(secret: ClientSecret<'_>, first: &ServerFirst<'_>) -> Result<(), ScramErrorKind>
    ensures { MatchResult result (λ _. Serves (secret_of secret.entry) (server_first_values first.now))
        (ServesNot (secret_of secret.entry) (server_first_values first.now)) }
{
    match secret {
        ClientSecret::Password(password) => test_password(password),
        ClientSecret::Keys(keys) => {
            if keys.are_of(&first.salt, first.iterations) {
                Ok(())
            } else {
                Err(ScramErrorKind::StaleKeys)
            }
        }
        ClientSecret::PasswordAndKeys { password, keys } => {
            if keys.are_of(&first.salt, first.iterations) {
                Ok(())
            } else {
                test_password(password)
            }
        }
    }
}

/// Tests a password that is needed (RFC 4013, section 2).
fn test_password(password: Password<'_>) -> Result<(), ScramErrorKind>
    ensures { MatchResult result (λ _. IsNormal (password_of password.entry))
        (λ kind. ¬ IsNormal (password_of password.entry) × (kind ≡ ScramErrorKind.NormalizeError)) }
{
    match password.normalized() {
        Ok(_) => Ok(()),
        Err(_) => Err(ScramErrorKind::NormalizeError),
    }
}
