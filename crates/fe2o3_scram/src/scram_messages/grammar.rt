//! Tests by the grammar of messages (RFC 5802, section 7).

ghost use Rattle.std.specs.Prelude.{◌≡◌, ◌↔◌, IsTrue, T};
ghost use Rattle.fe2o3_scram.specs.Grammar.{HasMisplacedFrom, is_extension, is_free_letter, is_nonce, is_printable, is_value};

/// The letters of the attributes that RFC 5802 defines (section 5.1).
const LETTERS: &[u8; 10] = b"anmrcsipve";

/// Returns whether the bytes are a value, if they are of a text without commas: one or more, none of which is NUL.
pub(super) fn is_value(bytes: &[u8]) -> bool
    ensures { result ≡ is_value bytes.now }
{
    !bytes.is_empty() && !bytes.contains(&0)
}

/// Returns whether the bytes are one or more printable ASCII characters without a comma.
pub(super) fn is_nonce(bytes: &[u8]) -> bool
    ensures { result ≡ is_nonce bytes.now }
{
    !bytes.is_empty() && bytes.iter().all(|byte| is_printable(*byte))
}

/// Returns whether the byte is printable ASCII, and no comma.
fn is_printable(byte: u8) -> bool
    ensures { result ≡ is_printable byte }
{
    byte.is_ascii_graphic() && byte != b','
}

/// Returns whether RFC 5802 defines no attribute by this letter.
fn is_free_letter(letter: u8) -> bool
    ensures { result ≡ is_free_letter letter }
{
    letter.is_ascii_alphabetic() && !LETTERS.contains(&letter)
}

/// Returns whether the part is an attribute that RFC 5802 does not define.
fn is_extension(part: &str) -> bool
    ensures { result ≡ is_extension part.now }
{
    match part.as_bytes() {
        [letter, sign, value @ ..] => *sign == b'=' && (is_free_letter(*letter) && is_value(value)),
        _ => false,
    }
}

/// Returns whether a side that is `strict` rejects the text for a part at index `from`, from 0, or later, that is no
/// extension. The text is read at most once, and nothing is allocated.
pub(super) fn is_misplaced(strict: bool, text: &str, from: usize) -> bool
    ensures { IsTrue result ↔ (T strict × HasMisplacedFrom from text.now) }
{
    strict && has_misplaced_from(text, from)
}

/// Returns whether the part at index `from`, from 0, or a later one is no extension.
fn has_misplaced_from(text: &str, from: usize) -> bool
    ensures { IsTrue result ↔ HasMisplacedFrom from text.now }
{
    text.split(',').skip(from).any(|part| !is_extension(part))
}
