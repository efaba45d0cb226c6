//! The commands of the program `sasl_lab`, over any reader and writer: `client-final` makes a SCRAM
//! message, `login` plays a whole login, and `audit` compares the transcripts of two sides. `sides` is
//! the command `explain --audit` of the program `scram`, which compares what two sides received.
#![tactic(auto)]

pub mod audit;
pub mod client_final;
pub mod command;
pub mod digits;
pub mod login;
pub mod sides;
pub mod stop;
pub mod transcript;

use crate::command::Command;
use crate::stop::Stop;
use std::alloc::Global;
use std::io::{Read, Write};

/// The usage of the program.
pub static USAGE: &str = "\
usage: sasl_lab client-final VERSION USER PASSWORD CLIENT-NONCE SERVER-FIRST [LIMIT]
       sasl_lab login VERSION USER PASSWORD SALT-HEX CLIENT-NONCE-HEX SERVER-NONCE-HEX
       sasl_lab audit VERSION USER PASSWORD SALT-HEX
client-final prints the client-final message, and the server-final message that the client accepts.
login prints the five frame bodies of a login. audit reads lines 'c NONCE-HEX BODY-HEX' of a client
and 's NONCE-HEX BODY-HEX' of a server, and prints what the logins of both have in common.
VERSION: SCRAM-SHA-1, SCRAM-SHA-256 or SCRAM-SHA-512
LIMIT: the largest iteration count that the client accepts, at most 4294967295
SALT-HEX, and the nonces of login and audit: 64 hexadecimal digits
status: 0 done, 1 refused, 2 wrong words or a wrong line
";

/// Runs the command of the arguments, and returns the exit status.
///
/// - 0: done.
/// - 1: refused, or a read or a write failed.
/// - 2: the arguments are not those of a command, or a line of the input is not an event.
///
/// `errors` gets only the usage, and only after `wrong words`.
pub fn run<R: Read, W: Write, E: Write>(
    alloc: Global,
    words: &[String],
    input: &mut R,
    output: &mut W,
    errors: &mut E,
) -> u8 {
    let Some(command) = Command::from_words(words) else {
        return refuse_words(output, errors);
    };
    match command.run(alloc, input, output) {
        Ok(()) => 0,
        Err(stop) => stop.end(output),
    }
}

/// Prints `wrong words`, and then the usage to the errors. After a failed write there is no usage.
fn refuse_words<W: Write, E: Write>(output: &mut W, errors: &mut E) -> u8 {
    let stop = Stop::WrongWords;
    if stop.print(output).is_err() {
        return Stop::Output.status();
    }
    // The status is the same whether or not the usage can be written.
    let _ = errors.write_all(USAGE.as_bytes());
    stop.status()
}
