//! Lines of the input, of which the first has the password.

ghost use Rattle.std.specs.Prelude.{◌≡◌, IfOk, None, chars, encode_utf8_all};
ghost use Rattle.saslprep.specs.Saslprep.{prepared, refusal};

use crate::stop::Stop;
use fe2o3_scram::secrets::SecretText;
use saslprep::{SaslprepError, Unassigned, saslprep};
use std::alloc::Global;
use std::io::{BufRead, Read};

/// The length of the longest line, in bytes.
const LONGEST: usize = 65536;

/// The room for a line, in bytes. A longer line is copied while it is read.
const ROOM: usize = 256;

/// Reads the next line of the input, and returns it without its line feed, or `None` at the end of the input.
pub fn next_line<I: BufRead>(alloc: Global, input: &mut I) -> Result<Option<String>, Stop> {
    let mut line = Vec::with_capacity(alloc, ROOM)?;
    input
        .by_ref()
        .take(LONGEST as u64 + 1)
        .read_until(b'\n', &mut line)
        .map_err(Stop::of_input)?;
    if line.is_empty() {
        return Ok(None);
    }
    if line.last() == Some(&b'\n') {
        let _ = line.pop();
    } else if line.len() > LONGEST {
        return Err(Stop::LongLine);
    }
    match String::from_utf8(line) {
        Ok(line) => Ok(Some(line)),
        Err(_) => Err(Stop::NotText),
    }
}

/// Reads the password, which is the first line of the input, and prepares it. An empty line is the error `NoPassword`. The
/// bytes of the line and of the returned text are overwritten before their memory is freed. Those in the buffer of the
/// input are not, nor what SASLprep makes of a password that is not ASCII.
pub fn password<I: BufRead>(
    alloc: Global,
    input: &mut I,
    unassigned: Unassigned,
) -> Result<SecretText, Stop> {
    match next_line(alloc, input)?.map(SecretText::new) {
        Some(line) if !line.as_str().is_empty() => prepared(alloc, line.as_str(), unassigned),
        _ => Err(Stop::NoPassword),
    }
}

/// Prepares a password by SASLprep (RFC 4013; RFC 5802, section 2.2): one to store, or one to compare.
pub fn prepared(alloc: Global, typed: &str, unassigned: Unassigned) -> Result<SecretText, Stop>
    ensures accepted { IfOk result (λ _. refusal unassigned (chars typed.now) ≡ None) }
    ensures value { IfOk result (λ text. text ≡ encode_utf8_all (prepared (chars typed.now))) }
{
    if typed.ends_with('\r') {
        return Err(Stop::CarriageReturn);
    }
    match saslprep(alloc, typed, unassigned) {
        Ok(text) => Ok(SecretText::new(text.into_owned(alloc)?)),
        Err(SaslprepError::OutOfMemory) => Err(Stop::OutOfMemory),
        Err(_) => Err(Stop::WrongPassword),
    }
}
