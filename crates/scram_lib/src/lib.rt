//! The program `scram` as a library, over any runtime, reader and writers: `record` makes the record of a password,
//! `users` keeps a file of records, `client` and `server` play a login, and `explain` says what its messages say. The
//! caller supplies the audit of `explain --audit` and the databases of `--db`.
#![tactic(auto)]

ghost use Rattle.std.specs.Prelude.{◌≡◌, ◌≤◌, ◌↔◌, IfErr, IsOk, IsErr, MatchResult, Some, true, false};
ghost use Rattle.scram_base_lib.specs.Stop.{status_of};

pub mod client;
pub mod done;
pub mod form;
pub mod frames;
pub mod gsasl;
pub mod keys;
pub mod man;
pub mod manual;
pub mod nonces;
pub mod record;
pub mod rights;
pub mod server;
pub mod task;
pub mod users;
pub mod words;

use crate::done::Done;
use crate::manual::manual;
use crate::task::{Process, Task, ask, echo_of};
use clap::error::ErrorKind;
use scram_base_lib::backend::Backend;
use scram_base_lib::shown::shown;
use scram_base_lib::stop::Stop;
use scram_base_lib::store;
use scram_base_lib::store::System;
use std::io::{BufRead, Write};
use std::rt::Files;

/// Does what the words ask, of which the first is the name of the program, and returns the exit status. The statuses are in
/// [`NOTES`](crate::manual::NOTES).
pub fn run<R: System, I: BufRead, O: Write, E: Write, B: Backend<R>>(
    words: &[String],
    process: &mut Process<'_, R, I, O, E, B>,
) -> u8
    ensures { result ≤ 4 }
{
    let parsed = match manual(process.rt.alloc()) {
        Ok(manual) => manual.try_get_matches_from(words),
        Err(_) => return tell(Stop::OutOfMemory, &mut process.errors),
    };
    let matches = match parsed {
        Ok(matches) => matches,
        Err(error) => return show(&error, &mut process.output, &mut process.errors),
    };
    let task = Task::of(&matches);
    if let Err(stop) = prompt(process.is_terminal, echo_of(&matches), &mut process.errors) {
        return tell(stop, &mut process.errors);
    }
    let done = process.run(&task);
    end(process.rt, done, task.file(), &mut process.errors)
}

/// Returns the exit status of a command, which is 0 exactly if it is done, and prints why it stops otherwise.
fn end<R: Files + AllocGlobal, E: Write>(
    rt: &R,
    done: Result<Done, Stop>,
    file: &str,
    errors: &mut E,
) -> u8
    ensures exactly { MatchResult done (λ _. result ≡ 0) (λ stop. result ≡ status_of stop) }
    ensures done { (result ≡ 0) ↔ IsOk done }
    ensures within { result ≤ 4 }
{
    match done {
        Ok(_) => 0,
        Err(stop) => tell_of(rt, stop, file, errors),
    }
}

/// Asks for a password at a terminal, which is an error unless `--echo` is given. `echo` is `None` for a command that
/// reads no password.
fn prompt<E: Write>(is_terminal: bool, echo: Option<bool>, errors: &mut E) -> Result<(), Stop>
    ensures done { IsErr result ↔ ((is_terminal ≡ true) × (echo ≡ Some false)) }
    ensures err { IfErr result (λ stop. stop ≡ Stop.Terminal) }
{
    match echo {
        Some(true) if is_terminal => {
            ask("Password: ", errors);
            Ok(())
        }
        Some(false) if is_terminal => Err(Stop::Terminal),
        _ => Ok(()),
    }
}

/// Prints help or the version, which were asked for, to the output, and a mistake in the words to the errors. Returns the
/// exit status.
fn show<O: Write, E: Write>(error: &clap::Error, output: &mut O, errors: &mut E) -> u8
    ensures { result ≤ 4 }
{
    if error.kind() == ErrorKind::OutOfMemory {
        return tell(Stop::OutOfMemory, errors);
    }
    if error.use_stderr() {
        // The words are rejected, whether or not that can be written.
        let _ = write!(errors, "{error}");
        return 2;
    }
    match write!(output, "{error}") {
        Ok(()) => 0,
        Err(error) => tell(Stop::of_output(error), errors),
    }
}

/// Prints why the program stops, and returns the exit status. A server has printed itself that it rejects a login.
pub fn tell<E: Write>(stop: Stop, errors: &mut E) -> u8
    ensures exactly { result ≡ status_of stop }
    ensures within { (1 ≤ result) × (result ≤ 4) }
{
    if !matches!(stop, Stop::Rejected(_)) {
        // The program stops, whether or not that can be written.
        let _ = writeln!(errors, "scram: {stop}");
    }
    stop.status()
}

/// Prints why a command stops, with the name of the file at fault, if any, and returns the exit status.
fn tell_of<R: Files + AllocGlobal, E: Write>(rt: &R, stop: Stop, file: &str, errors: &mut E) -> u8
    ensures exactly { result ≡ status_of stop }
    ensures within { (1 ≤ result) × (result ≤ 4) }
{
    if let Some(suffix) = stop.suffix() {
        // Without memory for the name, the reason is printed alone.
        if let Ok(name) = name_of(rt, file, suffix) {
            let _ = errors.write_all(&name);
            let _ = writeln!(errors, ": {stop}");
            return stop.status();
        }
    }
    tell(stop, errors)
}

/// Returns the name of a file at fault, as it is printed. A file with a suffix is beside the one that a link leads to.
fn name_of<R: Files + AllocGlobal>(rt: &R, file: &str, suffix: &str) -> Result<Vec<u8>, Stop> {
    let alloc = rt.alloc();
    let mut name = match store::target_of(rt, file) {
        Ok(target) if !suffix.is_empty() => target,
        _ => file.to_string(alloc)?,
    };
    name.push_str(suffix)?;
    let mut text = b"scram: ".to_vec(alloc)?;
    text.extend_from_slice(&shown(alloc, name.as_bytes())?)?;
    Ok(text)
}
