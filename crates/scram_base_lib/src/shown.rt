//! Names of users and of files as the program prints them.

ghost use Rattle.std.specs.Prelude.{◌≡◌, ◌++◌, IfOk, OnOk, flat_map};
ghost use Rattle.std.specs.List.{list_all};
ghost use Rattle.scram_base_lib.specs.Shown.{is_bare, quoted_byte, shown_as};

use std::alloc::{AllocError, Global};

/// Returns a name as one word that a shell takes back. Bytes that are no printable ASCII are escaped.
pub fn shown(alloc: Global, name: &[u8]) -> Result<Vec<u8>, AllocError>
    ensures { IfOk result (λ text. text.items ≡ shown_as name.now) }
{
    if !name.is_empty() && are_bare(name) {
        return name.to_vec(alloc);
    }
    let mut text = Vec::new(alloc);
    text.extend_from_slice(b"$'")?;
    push_quoted(&mut text, name)?;
    text.push(b'\'')?;
    Ok(text)
}

/// Returns whether a shell takes each byte of a name as it is.
fn are_bare(name: &[u8]) -> bool
    ensures { result ≡ list_all is_bare name.now }
{
    name.iter().all(|byte| is_bare(*byte))
}

/// Returns whether a shell takes a byte as it is.
fn is_bare(byte: u8) -> bool
    ensures { result ≡ is_bare byte }
{
    byte.is_ascii_alphanumeric() || (byte >= b'-' && byte <= b'/') || byte == b'@' || byte == b'_'
}

/// Appends each byte of a name, quoted.
fn push_quoted(text: &mut Vec<u8>, name: &[u8]) -> Result<(), AllocError>
    ensures { OnOk result (text.new.items ≡ text.old.items ++ flat_map quoted_byte name.now) }
{
    for byte in name {
        push_byte(text, *byte)?;
    }
    Ok(())
}

/// Appends a byte, quoted.
fn push_byte(text: &mut Vec<u8>, byte: u8) -> Result<(), AllocError>
    ensures { OnOk result (text.new.items ≡ text.old.items ++ quoted_byte byte) }
{
    if byte >= 32 && byte <= 126 && byte != 39 && byte != 92 {
        text.push(byte)?;
        return Ok(());
    }
    let digits = [92, 48 + byte / 64, 48 + byte / 8 % 8, 48 + byte % 8];
    text.extend_from_slice(&digits)
}
