//! The program `scram`: `scram_lib` over the process's arguments and streams.
#![tactic(auto)]

mod database;

use crate::database::Supplied;
use scram_base_lib::stop::Stop;
use scram_lib::task::Process;
use std::cell::Cell;
use std::io::{BufReader, IsTerminal};
use std::process::ExitCode;
use std::{env, io};

/// Runs the program.
fn run(rt: &HostRuntime) -> Result<u8, Stop> {
    let words: Vec<String> = env::args(rt).map_err(Stop::of_words)?.collect(rt.alloc())?;
    let supplied = Supplied {
        has_wrong_rows: Cell::new(false),
    };
    let mut process = Process {
        rt,
        backend: &supplied,
        is_terminal: rt.stdin().is_terminal(),
        input: BufReader::new(rt.alloc(), rt.reader()).map_err(Stop::of_input)?,
        output: io::writer(rt),
        errors: rt.stderr(),
    };
    let status = scram_lib::run(&words, &mut process);
    let wrong = supplied.has_wrong_rows.get() && status == 0;
    Ok(if wrong { 4 } else { status })
}

fn main(rt: HostRuntime) -> ExitCode {
    match run(&rt) {
        Ok(status) => ExitCode::from(status),
        Err(stop) => ExitCode::from(scram_lib::tell(stop, &mut rt.stderr())),
    }
}
