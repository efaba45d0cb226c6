//! SASLprep (RFC 4013): prepares a user name or a password before it is compared or hashed. Characters are mapped and
//! the text is normalized with form KC. The result is rejected if it has what the RFC prohibits, if it mixes
//! directions, and, if the caller says so, for a code point that Unicode 3.2 does not assign. The tables are those of
//! RFC 3454, of Unicode 3.2; the normalization is that of `unicode_normalization`, of a later Unicode, and `README.md`
//! lists where the two differ.
#![tactic(auto)]

ghost use Rattle.std.specs.Prelude.{◌≡◌, ◌≢◌, ◌++◌, chars, string_bytes, encode_utf8_all, false, MatchResult, IfOk, IfErr, Some, None};
ghost use Rattle.std.specs.List.{find, filter_map, list_any};
ghost use Rattle.std.specs.Option.{option_map_or};
ghost use Rattle.std.specs.Str.{IsAscii};
ghost use Rattle.std.specs.Cow.{cow_str_bytes, IsBorrowedStr};
ghost use Rattle.saslprep.specs.Saslprep.{mapping, prepared, refusal, refusal_of, has_one_direction, first_unassigned, is_prohibited, is_right_to_left, is_left_to_right, is_unassigned, IsPrintableText};

pub use crate::error::SaslprepError;
use std::alloc::{AllocError, Global};
use std::borrow::CowStr;
use unicode_normalization::slice;

mod error;
pub mod laws;
mod table_runs;
mod tables;

/// Whether a text may have code points that Unicode 3.2 does not assign.
#[derive(Clone, Copy, Debug, PartialEq, Eq)]
pub enum Unassigned {
    /// Accepts them, as in a query: a text that is only compared with stored ones.
    Allowed,
    /// Rejects them, as in a stored text.
    Refused,
}

/// Returns the text as SASLprep prepares it, or the first rule of the RFC that rejects it. ASCII text is borrowed,
/// without an allocation.
pub fn saslprep(
    alloc: Global,
    text: &str,
    unassigned: Unassigned,
) -> Result<CowStr<'_>, SaslprepError>
    ensures value { IfOk result (λ out. cow_str_bytes out ≡ encode_utf8_all (prepared (chars text.now))) }
    ensures accepted { IfOk result (λ _. refusal unassigned (chars text.now) ≡ None) }
    ensures refused { IfErr result (λ error.
        error ≢ SaslprepError.OutOfMemory → refusal unassigned (chars text.now) ≡ Some error) }

    // Printable ASCII is borrowed unchanged, and other ASCII rejected, neither with an allocation.
    ensures ascii { IsAscii text.now → MatchResult result
        (λ out. IsPrintableText text.now × IsBorrowedStr out × (cow_str_bytes out ≡ text.now))
        (λ error. ¬ IsPrintableText text.now × (error ≢ SaslprepError.OutOfMemory)) }
{
    if text.is_ascii() {
        return match prohibited_of_text(text) {
            Some(c) => Err(SaslprepError::ProhibitedCharacter(c)),
            None => Ok(CowStr::Borrowed(text)),
        };
    }
    let out = prepare(alloc, text).map_err(|_| SaslprepError::OutOfMemory)?;
    check(text, &out, unassigned)?;
    let out = text_of(alloc, &out).map_err(|_| SaslprepError::OutOfMemory)?;
    Ok(CowStr::Owned(out))
}

/// Maps and normalizes the text.
#[tactic(auto, unfolding(crate::specs::Saslprep::prepared))]
fn prepare(alloc: Global, text: &str) -> Result<Vec<char>, AllocError>
    ensures { IfOk result (λ out. out.items ≡ prepared (chars text.now)) }
{
    let mapped = map(alloc, text)?;
    let mut out = Vec::new(alloc);
    slice::extend_nfkc(&mut out, &mapped)?;
    Ok(out)
}

fn map(alloc: Global, text: &str) -> Result<Vec<char>, AllocError>
    ensures { IfOk result (λ mapped. mapped.items ≡ filter_map mapping (chars text.now)) }
{
    text.chars().filter_map(tables::mapped).collect(alloc)
}

fn text_of(alloc: Global, out: &[char]) -> Result<String, AllocError>
    ensures { IfOk result (λ text. string_bytes text ≡ encode_utf8_all out.now) }
{
    out.iter().copied().collect(alloc)
}

/// Tests the rules on `text`, which is prepared to `out`.
#[tactic(auto, unfolding(crate::specs::Saslprep::refusal_of))]
fn check(text: &str, out: &[char], unassigned: Unassigned) -> Result<(), SaslprepError>
    ensures { MatchResult result
        (λ _. refusal_of unassigned (chars text.now) out.now ≡ None)
        (λ error. refusal_of unassigned (chars text.now) out.now ≡ Some error) }
{
    if let Some(c) = first_prohibited(out) {
        return Err(SaslprepError::ProhibitedCharacter(c));
    }
    if !has_one_direction(out) {
        return Err(SaslprepError::MixedDirections);
    }
    match first_unassigned(text, out, unassigned) {
        Some(c) => Err(SaslprepError::UnassignedCodePoint(c)),
        None => Ok(()),
    }
}

fn prohibited_of_text(text: &str) -> Option<char>
    ensures { result ≡ find is_prohibited (chars text.now) }
{
    text.chars().find(|c| tables::is_prohibited(*c))
}

fn first_prohibited(out: &[char]) -> Option<char>
    ensures { result ≡ find is_prohibited out.now }
{
    out.iter().copied().find(|c| tables::is_prohibited(*c))
}

/// Returns the first code point of the text or of its prepared form that is rejected as unassigned.
#[tactic(auto, using(crate::proofs::lemmas::ListLemmas::find_either))]
fn first_unassigned(text: &str, out: &[char], unassigned: Unassigned) -> Option<char>
    ensures { result ≡ first_unassigned unassigned (chars text.now ++ out.now) }
{
    match unassigned {
        Unassigned::Allowed => None,
        Unassigned::Refused => unassigned_of_text(text).or(unassigned_of(out)),
    }
}

fn unassigned_of_text(text: &str) -> Option<char>
    ensures { result ≡ find is_unassigned (chars text.now) }
{
    text.chars().find(|c| tables::is_unassigned(*c))
}

fn unassigned_of(out: &[char]) -> Option<char>
    ensures { result ≡ find is_unassigned out.now }
{
    out.iter().copied().find(|c| tables::is_unassigned(*c))
}

/// Returns whether the text has no right-to-left character, or no left-to-right one and right-to-left ones at both its
/// ends.
#[tactic(auto, unfolding(crate::specs::Saslprep::has_one_direction))]
fn has_one_direction(text: &[char]) -> bool
    ensures { result ≡ has_one_direction text.now }
{
    if !has_right_to_left(text) {
        return true;
    }
    if has_left_to_right(text) {
        return false;
    }
    is_right_to_left(text.first().copied()) && is_right_to_left(text.last().copied())
}

fn has_right_to_left(text: &[char]) -> bool
    ensures { result ≡ list_any is_right_to_left text.now }
{
    text.iter().any(|c| tables::is_right_to_left(*c))
}

fn has_left_to_right(text: &[char]) -> bool
    ensures { result ≡ list_any is_left_to_right text.now }
{
    text.iter().any(|c| tables::is_left_to_right(*c))
}

fn is_right_to_left(end: Option<char>) -> bool
    ensures { result ≡ option_map_or is_right_to_left end false }
{
    end.is_some_and(tables::is_right_to_left)
}
