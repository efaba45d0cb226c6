//! Why a text is rejected.

use std::alloc::AllocError;
use thiserror::Error;

/// Why SASLprep rejects a text.
#[derive(Debug, Clone, Copy, PartialEq, Eq, Error)]
pub enum SaslprepError {
    /// The prepared text has this character, which RFC 4013, section 2.3, prohibits.
    #[error("U+{:04X} is prohibited", u32::from(*.0))]
    ProhibitedCharacter(char),
    /// The prepared text has a character of a right-to-left script, and a left-to-right one too or another at its start
    /// or end (RFC 3454, section 6).
    #[error("right-to-left and left-to-right characters are mixed")]
    MixedDirections,
    /// This code point, of the text or of its prepared form, is not assigned in Unicode 3.2.
    #[error("U+{:04X} is not assigned in Unicode 3.2", u32::from(*.0))]
    UnassignedCodePoint(char),
    /// Memory ran out.
    #[error("out of memory")]
    OutOfMemory,
}
