//! Bytes in arrays of C, and in buffers of the caller.

ghost use Rattle.std.specs.Prelude.{◌≡◌, ◌<◌, ◌≤◌, length, take, IfOk, IfErr, MatchOption};
ghost use Rattle.fe2o3_scram.specs.Hmac.{zero_filled};
ghost use Rattle.sasl_c.specs.Status.{Stores, WritesText, with_written};
ghost use Rattle.sasl_c.specs.declared.status.WriteError.TheVariants.{RoomTooSmall};

use crate::status::{Status, WriteError};
use std::convert::AsSlice;

/// Returns an array that begins with these bytes and ends with zeros; `None` if they do not fit.
pub fn padded<const N: usize>(bytes: &[u8]) -> Option<[u8; N]>
    ensures { MatchOption result (N < length bytes.now) (λ array. array ≡ zero_filled N bytes.now) }
{
    let mut array = [0; N];
    if bytes.len() > N {
        return None;
    }
    array[..bytes.len()].copy_from_slice(bytes);
    Some(array)
}

/// Replaces an array by these bytes, and zeros after them.
pub fn fill<const N: usize>(array: &mut [u8; N], bytes: &[u8])
    requires { length bytes.now ≤ N }
    ensures { array.new ≡ zero_filled N bytes.now }
{
    array.fill(0);
    array[..bytes.len()].copy_from_slice(bytes);
}

/// Returns the first bytes of an array, `len` of them, and zeros after them.
pub fn cleared<const N: usize>(array: &[u8; N], len: u32) -> [u8; N]
    requires { len ≤ N }
    ensures { result ≡ zero_filled N (take len array.now) }
{
    let mut kept = [0; N];
    kept[..len as usize].copy_from_slice(&array[..len as usize]);
    kept
}

/// Returns the first `len` bytes of an array, or `None` if it has fewer.
pub fn head(array: &[u8], len: u32) -> Option<&[u8]>
    ensures { MatchOption result (length array.now < len)
        (λ bytes. (bytes.now ≡ take len array.now) × (len ≤ length array.now)) }
{
    array.get(..len as usize)
}

/// Writes the bytes to the beginning of `out`, and their number to `out_len`. If `out` is too small, writes only the
/// number, and returns `RoomTooSmall`.
pub fn put(bytes: &[u8], out: &mut [u8], out_len: &mut usize) -> Result<(), WriteError>
    ensures len { out_len.new ≡ length bytes.now }
    ensures ok { IfOk result (λ _. (length bytes.now ≤ length out.old) × (out.new ≡ with_written bytes.now out.old)) }
    ensures err { IfErr result (λ status. (status ≡ RoomTooSmall) × (length out.old < length bytes.now)
        × (out.new ≡ out.old)) }
{
    *out_len = bytes.len();
    if bytes.len() > out.len() {
        return Err(WriteError::RoomTooSmall);
    }
    out[..bytes.len()].copy_from_slice(bytes);
    Ok(())
}

/// Writes a text to the beginning of `out`, and its length to `out_len`, or returns why there is none.
pub fn write<T: AsSlice<u8> + Drop>(
    text: Result<T, Status>,
    out: &mut [u8],
    out_len: &mut usize,
) -> Result<(), WriteError>
    ensures { WritesText T.items text (record { bytes = out.old; len = out_len.old })
        (record { bytes = out.new; len = out_len.new }) result }
{
    match text {
        Ok(text) => put(text.as_slice(), out, out_len),
        Err(status) => Err(WriteError::Other(status)),
    }
}

/// Writes a struct, or returns why there is none.
pub fn store<T: Drop>(made: Result<T, Status>, into: &mut T) -> Result<(), Status>
    ensures { Stores made into.old into.new result }
{
    match made {
        Ok(made) => {
            *into = made;
            Ok(())
        }
        Err(status) => Err(status),
    }
}
