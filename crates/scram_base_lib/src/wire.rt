//! Messages as lines in base64, and bytes in hexadecimal.

ghost use Rattle.std.specs.Prelude.{◌≡◌, ◌≢◌, ◌⊎◌, ℕ, List, Ok, IfOk, IfErr};
ghost use Rattle.hex.specs.Hex.{decode_of};

use crate::input::next_line;
use crate::stop::Stop;
use base64::DecodeAllocError;
use base64::engine::general_purpose::STANDARD;
use std::alloc::Global;
use std::io::{BufRead, Result as Written, Write};

/// Sends a message.
pub fn send<O: Write>(alloc: Global, output: &mut O, message: &[u8]) -> Result<(), Stop> {
    let line = STANDARD.encode(alloc, message)?;
    print(output, &line).map_err(Stop::of_output)
}

/// Writes a line, and flushes the output.
fn print<O: Write>(output: &mut O, line: &str) -> Written<()> {
    writeln!(output, "{line}")?;
    output.flush()
}

/// Receives a message. The end of the input is the error `Ended`.
pub fn receive<I: BufRead>(alloc: Global, input: &mut I) -> Result<Vec<u8>, Stop> {
    bytes_of(alloc, &line(alloc, input)?)
}

/// Receives a message, after a line with the name of this mechanism, if there is one. The name of another SCRAM mechanism
/// is the error `OtherHash`.
pub fn receive_first<I: BufRead>(
    alloc: Global,
    mechanism: &str,
    input: &mut I,
) -> Result<Vec<u8>, Stop> {
    let line = line(alloc, input)?;
    if line.as_str() == mechanism {
        return receive_named(alloc, input);
    }
    if line.starts_with("SCRAM-") {
        return Err(Stop::OtherHash);
    }
    bytes_of(alloc, &line)
}

/// Receives the message after the name of the mechanism. An empty line may come before it: a server that waits for the
/// client's first message sends an empty challenge (RFC 4422, section 3).
fn receive_named<I: BufRead>(alloc: Global, input: &mut I) -> Result<Vec<u8>, Stop> {
    let line = line(alloc, input)?;
    if line.is_empty() {
        return receive(alloc, input);
    }
    bytes_of(alloc, &line)
}

/// Receives a line. The end of the input is the error `Ended`.
fn line<I: BufRead>(alloc: Global, input: &mut I) -> Result<String, Stop> {
    next_line(alloc, input)?.ok_or(Stop::Ended)
}

/// Decodes a line in base64.
pub fn bytes_of(alloc: Global, line: &str) -> Result<Vec<u8>, Stop> {
    match STANDARD.decode(alloc, line.as_bytes()) {
        Ok(bytes) => Ok(bytes),
        Err(DecodeAllocError::OutOfMemory) => Err(Stop::OutOfMemory),
        Err(_) => Err(Stop::NotBase64),
    }
}

/// Decodes digits in hexadecimal. The error at another text is `otherwise`.
pub fn hex_bytes(alloc: Global, digits: &str, otherwise: Stop) -> Result<Vec<u8>, Stop>
    ensures ok { IfOk result (λ bytes. decode_of digits.now ≡ Ok bytes.items) }
    ensures err { IfErr result (λ stop. (stop ≡ Stop.OutOfMemory) ⊎ ((stop ≡ otherwise)
        × ((bytes : List ℕ) → decode_of digits.now ≢ Ok bytes))) }
{
    match hex::decode(alloc, digits) {
        Ok(bytes) => Ok(bytes),
        Err(hex::FromHexError::OutOfMemory) => Err(Stop::OutOfMemory),
        Err(_) => Err(otherwise),
    }
}
