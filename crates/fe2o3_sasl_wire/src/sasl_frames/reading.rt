//! Reads one encoding from the front of a slice: its value and the bytes after it. Nothing here allocates.

ghost use Rattle.std.specs.Prelude.{◌≡◌, Some, None, option_map, if◌then◌else◌, IfSome, IsAscii};
ghost use Rattle.std.specs.Str.{is_utf8};
ghost use Rattle.fe2o3_sasl_wire.specs.private.Reading.{byte_at, four_at, eight_at, number_at, content_at, form_at, variable_at, element_at, symbol_at, string_at, binary_at, code_at, is_ascii};

use crate::amqp_types::SaslCode;
use crate::sasl_frames::forms::{
    BINARY_8, BINARY_32, Form, STRING_8, STRING_32, SYMBOL_8, SYMBOL_32, UBYTE,
};

/// Reads one byte.
pub(crate) fn byte_at(bytes: &[u8]) -> Option<(u8, &[u8])>
    ensures { option_map (λ x. (x.0, x.1.now)) result ≡ byte_at bytes.now }
{
    match bytes {
        [] => None,
        [byte, rest @ ..] => Some((*byte, rest)),
    }
}

/// Reads a number of four bytes.
pub(crate) fn u32_at(bytes: &[u8]) -> Option<(u32, &[u8])>
    ensures { option_map (λ x. (x.0, x.1.now)) result ≡ four_at bytes.now }
{
    let (front, rest) = bytes.split_first_chunk::<4>()?;
    let number = u32::from_be_bytes(*front);
    Some((number, rest))
}

/// Reads a number of eight bytes.
pub(crate) fn u64_at(bytes: &[u8]) -> Option<(u64, &[u8])>
    ensures { option_map (λ x. (x.0, x.1.now)) result ≡ eight_at bytes.now }
{
    let (front, rest) = bytes.split_first_chunk::<8>()?;
    let number = u64::from_be_bytes(*front);
    Some((number, rest))
}

/// Reads a size, a length or a count.
pub(crate) fn number_at(form: Form, bytes: &[u8]) -> Option<(u32, &[u8])>
    ensures { option_map (λ x. (x.0, x.1.now)) result ≡ number_at form bytes.now }
{
    match form {
        Form::Eight => {
            let (number, rest) = byte_at(bytes)?;
            Some((u32::from(number), rest))
        }
        Form::ThirtyTwo => u32_at(bytes),
    }
}

/// Reads a length, and that many bytes.
#[tactic(auto, unfolding(crate::specs::private::Reading::content_at))]
pub(crate) fn content_at(form: Form, bytes: &[u8]) -> Option<(&[u8], &[u8])>
    ensures { option_map (λ x. (x.0.now, x.1.now)) result ≡ content_at form bytes.now }
{
    let (len, rest) = number_at(form, bytes)?;
    let len = len as usize;
    if rest.len() < len {
        return None;
    }
    Some(rest.split_at(len))
}

/// Returns the form of a constructor.
pub(crate) fn form_at(short: u8, long: u8, constructor: u8) -> Option<Form>
    ensures { result ≡ form_at short long constructor }
{
    if constructor == short {
        Some(Form::Eight)
    } else if constructor == long {
        Some(Form::ThirtyTwo)
    } else {
        None
    }
}

/// Reads a constructor of either form, a length, and that many bytes.
#[inline(always)]
#[tactic(auto, unfolding(crate::specs::private::Reading::variable_at))]
pub(crate) fn variable_at(short: u8, long: u8, bytes: &[u8]) -> Option<(&[u8], &[u8])>
    ensures { option_map (λ x. (x.0.now, x.1.now)) result ≡ variable_at short long bytes.now }
{
    let (constructor, rest) = byte_at(bytes)?;
    let form = form_at(short, long, constructor)?;
    content_at(form, rest)
}

/// Reads a binary.
#[inline(always)]
#[tactic(auto, unfolding(crate::specs::private::Reading::binary_at))]
pub(crate) fn binary_at(bytes: &[u8]) -> Option<(&[u8], &[u8])>
    ensures { option_map (λ x. (x.0.now, x.1.now)) result ≡ binary_at bytes.now }
{
    variable_at(BINARY_8, BINARY_32, bytes)
}

/// Reads an outcome's code, as a ubyte.
#[inline(always)]
#[tactic(auto, using(crate::proofs::lemmas::CodeLemmas::no_code), unfolding(crate::specs::private::Reading::code_at))]
pub(crate) fn code_at(bytes: &[u8]) -> Option<(SaslCode, &[u8])>
    ensures { option_map (λ x. (x.0, x.1.now)) result ≡ code_at bytes.now }
{
    let (constructor, rest) = byte_at(bytes)?;
    let (number, rest) = byte_at(rest)?;
    let code = SaslCode::try_from(number).ok()?;
    if constructor != UBYTE {
        return None;
    }
    Some((code, rest))
}

/// Returns whether bytes are ASCII.
fn is_ascii(bytes: &[u8]) -> bool
    ensures { result ≡ is_ascii bytes.now }
{
    bytes.is_ascii()
}

/// Returns the text of ASCII bytes.
#[inline(always)]
pub(crate) fn ascii_text(bytes: &[u8]) -> Option<&str>
    ensures ascii { IfSome result (λ text. IsAscii text.now) }
    ensures value { option_map (λ x. x.now) result ≡ (if is_ascii bytes.now then Some bytes.now else None) }
{
    if !bytes.is_ascii() {
        return None;
    }
    str::from_utf8(bytes).ok()
}

/// Returns the text of UTF-8 bytes.
#[inline(always)]
pub(crate) fn utf8_text(bytes: &[u8]) -> Option<&str>
    ensures { option_map (λ x. x.now) result ≡ (if is_utf8 bytes.now then Some bytes.now else None) }
{
    str::from_utf8(bytes).ok()
}

/// Returns the bytes after a symbol without its constructor.
#[inline(always)]
#[tactic(auto, unfolding(crate::specs::private::Reading::element_at))]
pub(crate) fn element_rest(form: Form, bytes: &[u8]) -> Option<&[u8]>
    ensures { option_map (λ x. x.now) result ≡ option_map (λ x. x.1) (element_at form bytes.now) }
{
    let (content, rest) = content_at(form, bytes)?;
    if !is_ascii(content) {
        return None;
    }
    Some(rest)
}

/// Reads a symbol without its constructor, like an element of an array.
#[inline(always)]
#[tactic(auto, unfolding(crate::specs::private::Reading::element_at))]
pub(crate) fn element_at(form: Form, bytes: &[u8]) -> Option<(&str, &[u8])>
    ensures ascii { IfSome result (λ x. IsAscii x.0.now) }
    ensures value { option_map (λ x. (x.0.now, x.1.now)) result ≡ element_at form bytes.now }
{
    let (content, rest) = content_at(form, bytes)?;
    let text = ascii_text(content)?;
    Some((text, rest))
}

/// Reads a symbol.
#[inline(always)]
#[tactic(auto, unfolding(crate::specs::private::Reading::symbol_at))]
pub(crate) fn symbol_at(bytes: &[u8]) -> Option<(&str, &[u8])>
    ensures { option_map (λ x. (x.0.now, x.1.now)) result ≡ symbol_at bytes.now }
{
    let (constructor, rest) = byte_at(bytes)?;
    let form = form_at(SYMBOL_8, SYMBOL_32, constructor)?;
    element_at(form, rest)
}

/// Reads a string.
#[inline(always)]
#[tactic(auto, unfolding(crate::specs::private::Reading::string_at))]
pub(crate) fn string_at(bytes: &[u8]) -> Option<(&str, &[u8])>
    ensures { option_map (λ x. (x.0.now, x.1.now)) result ≡ string_at bytes.now }
{
    let (content, rest) = variable_at(STRING_8, STRING_32, bytes)?;
    let text = utf8_text(content)?;
    Some((text, rest))
}
