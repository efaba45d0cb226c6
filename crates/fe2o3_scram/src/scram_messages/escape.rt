//! Escapes and unescapes user names (RFC 5802, section 5.1).

ghost use Rattle.std.specs.Prelude.{◌≡◌, ◌≢◌, ◌↔◌, ◌⊎◌, ◌++◌, ◌∷◌, IfOk, IfErr, OnOk, MatchOption, IsTrue, ℕ, List, string_bytes};
ghost use Rattle.std.specs.Cow.{cow_str_bytes, IsBorrowedStr};
ghost use Rattle.fe2o3_scram.specs.Texts.{NoComma};
ghost use Rattle.fe2o3_scram.specs.Escape.{escaped, NoEquals, SpellsName};
ghost use Rattle.fe2o3_scram.specs.declared.scram_messages.escape.UnescapeError.TheVariants.{OutOfMemory as OutOfMemoryError};

use crate::OutOfMemory;
use crate::texts::after;
use std::alloc::{AllocError, Global};
use std::borrow::CowStr;
use thiserror::Error;

/// Why a text is not an escaped user name.
#[derive(Debug, Clone, Copy, PartialEq, Eq, Error)]
pub enum UnescapeError {
    /// The text has a comma, or an equals sign that neither `2C` nor `3D` follows.
    #[error("Invalid")]
    Invalid,

    /// An allocation failed.
    #[error("OutOfMemory")]
    OutOfMemory,
}

impl From<AllocError> for UnescapeError {
    ghost from_gives = { λ _ error. error ≡ OutOfMemoryError };

    fn from(_error: AllocError) -> Self {
        UnescapeError::OutOfMemory
    }
}

/// Escapes the user name: each comma as `=2C` and each equals sign as `=3D` (RFC 5802, section 5.1, `saslname`). The
/// name is any list of bytes: it is not prepared, and need not be UTF-8.
///
/// The only error is `OutOfMemory`.
pub fn escape_username(alloc: Global, username: &[u8]) -> Result<Vec<u8>, OutOfMemory>
    ensures { IfOk result (λ text. text.items ≡ escaped username.now) }
{
    let mut text = Vec::with_capacity(alloc, escaped_len(username))?;
    push_escaped(&mut text, username)?;
    Ok(text)
}

/// Appends the escaped user name to the text.
#[tactic(auto, using(crate::proofs::lemmas::texts::EscapingLemmas::escaping))]
pub(crate) fn push_escaped(text: &mut Vec<u8>, username: &[u8]) -> Result<(), OutOfMemory>
    ensures { OnOk result (text.new.items ≡ text.old.items ++ escaped username.now) }
{
    for byte in username {
        match *byte {
            b',' => text.extend_from_slice(b"=2C")?,
            b'=' => text.extend_from_slice(b"=3D")?,
            other => text.push(other)?,
        }
    }
    Ok(())
}

/// Returns the length of the escaped user name. It only sizes a buffer: no contract rests on it.
pub(crate) fn escaped_len(username: &[u8]) -> usize {
    let mut len = username.len();
    for byte in username {
        if *byte == b',' || *byte == b'=' {
            len = len.saturating_add(2);
        }
    }
    len
}

/// Returns the user name that the text spells (RFC 5802, section 5.1, `saslname`), borrowed if the text has no equals
/// sign. The text is what follows `n=` in a client-first message.
///
/// The errors are
/// - `Invalid`, for a text with a comma, or with an equals sign that neither `2C` nor `3D` follows in these very
///   letters (`=2c` is invalid);
/// - `OutOfMemory`, only for a text that spells a name and has an equals sign.
#[tactic(auto, using(crate::proofs::lemmas::texts::EscapingLemmas::names))]
pub fn unescape_username(alloc: Global, text: &str) -> Result<CowStr<'_>, UnescapeError>
    ensures ok { IfOk result (λ name. escaped (cow_str_bytes name) ≡ text.now) }
    ensures borrowed { IfOk result (λ name. IsBorrowedStr name ↔ NoEquals text.now) }

    // A text without an equals sign allocates nothing.
    ensures err { IfErr result (λ error. ((error ≡ UnescapeError.Invalid) × ((name : List ℕ) → escaped name ≢ text.now))
        ⊎ ((error ≡ UnescapeError.OutOfMemory) × ¬ NoEquals text.now)) }

    // A text with a comma, or with an equals sign that begins no escape, allocates nothing either.
    ensures memory { IfErr result (λ error. error ≡ UnescapeError.OutOfMemory → NoComma text.now) }
    ensures spells { IfErr result (λ error. error ≡ UnescapeError.OutOfMemory → SpellsName text.now) }
{
    if text.contains(',') {
        return Err(UnescapeError::Invalid);
    }
    if text.contains('=') {
        if spells_name(text) {
            return Ok(CowStr::Owned(unescape(alloc, text)?));
        }
        return Err(UnescapeError::Invalid);
    }
    Ok(CowStr::Borrowed(text))
}

/// Returns whether a text without commas spells a name. It allocates nothing, so that an invalid text never fails with
/// `OutOfMemory`.
#[tactic(auto, using(crate::proofs::lemmas::texts::EscapingLemmas::unescaping))]
fn spells_name(text: &str) -> bool
    requires { NoComma text.now }
    ensures { IsTrue result ↔ SpellsName text.now }
{
    let mut rest = text;
    while let Some((_, escape)) = at_equals(rest) {
        if let Some(more) = after(escape, "2C") {
            rest = more;
        } else if let Some(more) = after(escape, "3D") {
            rest = more;
        } else {
            return false;
        }
    }
    true
}

/// Unescapes a text without commas that spells a name.
#[tactic(auto, using(crate::proofs::lemmas::texts::EscapingLemmas::unescaping))]
fn unescape(alloc: Global, text: &str) -> Result<String, UnescapeError>
    requires { NoComma text.now }
    ensures ok { IfOk result (λ name. escaped (string_bytes name) ≡ text.now) }
    ensures err { IfErr result (λ error. error ≢ UnescapeError.OutOfMemory
        → (error ≡ UnescapeError.Invalid) × ((name : List ℕ) → escaped name ≢ text.now)) }
{
    let mut name = String::new(alloc);
    let mut rest = text;
    while let Some((before, escape)) = at_equals(rest) {
        name.push_str(before)?;
        if let Some(more) = after(escape, "2C") {
            name.push_str(",")?;
            rest = more;
        } else if let Some(more) = after(escape, "3D") {
            name.push_str("=")?;
            rest = more;
        } else {
            return Err(UnescapeError::Invalid);
        }
    }
    name.push_str(rest)?;
    Ok(name)
}

/// Splits the text at its first equals sign.
fn at_equals(text: &str) -> Option<(&str, &str)>
    ensures { MatchOption result (NoEquals text.now) (λ both. NoEquals both.0.now
        × (text.now ≡ both.0.now ++ (61 ∷ both.1.now))) }
{
    text.split_once('=')
}
