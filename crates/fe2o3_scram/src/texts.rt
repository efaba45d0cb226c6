//! The pieces of SCRAM messages: parts between commas, attributes, base64 and counts.

ghost use Rattle.std.specs.Prelude.{◌≡◌, ◌<◌, ◌++◌, ℕ, List, IfOk, OnOk, MatchOption, string_bytes};
ghost use Rattle.fe2o3_scram.specs.Texts.{StartsWith, Cut, Part, LastPart, IsBase64, base64_text, IsCount, IsPlainCount};

use crate::OutOfMemory;
use base64::DecodeAllocError;
use base64::engine::general_purpose::STANDARD;
use std::alloc::Global;

/// Returns the part at index `k`, from 0.
pub(crate) fn part(text: &str, k: usize) -> Option<&str>
    ensures { MatchOption result ((part : List ℕ) → ¬ Part text.now k part) (λ part. Part text.now k part.now) }
{
    text.split(',').nth(k)
}

/// Returns what follows the key in the part at index `k`, if that part begins with the key.
pub(crate) fn attribute<'a>(text: &'a str, k: usize, key: &str) -> Option<&'a str>
    ensures { MatchOption result ((rest : List ℕ) → ¬ Part text.now k (key.now ++ rest))
        (λ rest. Part text.now k (key.now ++ rest.now)) }
{
    after(part(text, k)?, key)
}

/// Returns the last of several parts, and the text before its comma.
pub(crate) fn last_part(text: &str) -> Option<(&str, &str)>
    ensures { MatchOption result ((before part : List ℕ) → ¬ LastPart text.now before part)
        (λ both. LastPart text.now both.0.now both.1.now) }
{
    text.rsplit_once(',')
}

/// Returns what follows the prefix.
pub(crate) fn after<'a>(text: &'a str, prefix: &str) -> Option<&'a str>
    ensures { MatchOption result (¬ StartsWith text.now prefix.now) (λ rest. text.now ≡ prefix.now ++ rest.now) }
{
    text.strip_prefix(prefix)
}

/// Writes a nonce of 32 bytes in base64 into the 44 bytes of `room`, and returns the text: the part that a side adds to
/// the nonce of both. The call allocates nothing.
pub fn base64_of_nonce<'a>(nonce: &[u8; 32], room: &'a mut [u8; 44]) -> &'a str
    ensures { result.now ≡ base64_text nonce.now }
{
    // 32 bytes take 44 symbols, so neither can fail.
    let _ = STANDARD.encode_slice(nonce, room);
    match str::from_utf8(room) {
        Ok(text) => text,
        Err(_) => unreachable!(),
    }
}

/// Decodes the base64 text, or returns `None` if it is none.
pub(crate) fn bytes_of(alloc: Global, text: &str) -> Result<Option<Vec<u8>>, OutOfMemory>
    ensures { IfOk result (λ read. MatchOption read ((bytes : List ℕ) → ¬ IsBase64 text.now bytes)
        (λ bytes. IsBase64 text.now bytes.items)) }
{
    match STANDARD.decode(alloc, text.as_bytes()) {
        Ok(bytes) => Ok(Some(bytes)),
        Err(DecodeAllocError::DecodeError(_)) => Ok(None),
        Err(DecodeAllocError::OutOfMemory) => Err(OutOfMemory),
    }
}

/// Returns the iteration count that the text spells, or `None` if it spells none, or 0.
pub(crate) fn count_of(text: &str) -> Option<u32>
    ensures { MatchOption result ((count : ℕ) → ¬ IsCount text.now count) (λ count. IsCount text.now count) }
{
    match text.parse::<u32>() {
        Ok(0) => None,
        Ok(count) => Some(count),
        Err(_) => None,
    }
}

/// Appends the base64 text of the bytes to the text.
pub(crate) fn push_base64(text: &mut String, bytes: &[u8]) -> Result<(), OutOfMemory>
    ensures { OnOk result (string_bytes text.new ≡ string_bytes text.old ++ base64_text bytes.now) }
{
    STANDARD.encode_string(bytes, text)
}

/// Returns the length of the base64 text of that many bytes. It only sizes a buffer: no contract rests on it.
pub(crate) fn base64_len(len: usize) -> usize {
    len.div_ceil(3).saturating_mul(4)
}

/// Returns the iteration count that the text spells without a sign or a leading zero, or `None` if it spells none, or
/// 0.
#[tactic(auto, using(crate::proofs::lemmas::texts::CountLemmas::plain_counts))]
pub(crate) fn plain_count_of(text: &str) -> Option<u32>
    ensures { MatchOption result ((count : ℕ) → ¬ IsPlainCount text.now count)
        (λ count. IsPlainCount text.now count) }
{
    if let Some(_) = after(text, "+") {
        return None;
    }
    if let Some(_) = after(text, "0") {
        return None;
    }
    count_of(text)
}

/// Splits the text at its first separator, which is ASCII.
pub(crate) fn cut(text: &str, separator: char) -> Option<(&str, &str)>
    requires { separator < 128 }
    ensures { MatchOption result ((before rest : List ℕ) → ¬ Cut separator text.now before rest)
        (λ both. Cut separator text.now both.0.now both.1.now) }
{
    text.split_once(separator)
}
