//! Passwords of printable ASCII, which SASLprep (RFC 4013) leaves unchanged.

ghost use Rattle.std.specs.Prelude.{◌≡◌, ◌↔◌, MatchResult, IsTrue};
ghost use Rattle.fe2o3_scram.specs.SaslprepAscii.{IsPrintable};

use thiserror::Error;

/// The text has a byte that is not printable ASCII.
#[derive(Debug, Clone, Copy, PartialEq, Eq, Error)]
#[error("NormalizeError")]
pub struct NormalizeError;

/// Returns the text itself if each byte is printable ASCII (0x20 to 0x7E), also for the empty text.
pub fn saslprep(text: &str) -> Result<&str, NormalizeError>
    ensures { MatchResult result (λ same. IsPrintable text.now × (same.now ≡ text.now)) (λ _. ¬ IsPrintable text.now) }
{
    if is_printable(text.as_bytes()) {
        Ok(text)
    } else {
        Err(NormalizeError)
    }
}

fn is_printable(text: &[u8]) -> bool
    ensures { IsTrue result ↔ IsPrintable text.now }
{
    text.iter().all(|byte| (0x20..=0x7e).contains(byte))
}
