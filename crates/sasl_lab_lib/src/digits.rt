//! Bytes in hexadecimal.

use hex::FromHex;
use std::alloc::{AllocError, Global};

/// Decodes 32 bytes in hexadecimal digits of either case.
pub fn bytes_of(word: &str) -> Option<[u8; 32]> {
    <[u8; 32] as FromHex>::from_hex(word).ok()
}

/// Encodes bytes in lower-case hexadecimal digits, or as `-` if there are none.
pub fn digits_of(alloc: Global, bytes: &[u8]) -> Result<String, AllocError> {
    if bytes.is_empty() {
        return String::from_str(alloc, "-");
    }
    hex::encode(alloc, bytes)
}
