//! The program `sasl_lab`: `sasl_lab_lib` over the process's arguments and streams.
#![tactic(auto)]

use sasl_lab_lib::stop::Stop;
use std::process::ExitCode;
use std::rt::Env;
use std::{env, io};

/// Returns the program's arguments, without its own name.
fn words<R: Env + AllocGlobal>(rt: &R) -> Result<Vec<String>, Stop> {
    let mut words = Vec::new(rt.alloc());
    for word in env::args(rt).map_err(Stop::of_reading)?.skip(1) {
        words.push(word)?;
    }
    Ok(words)
}

fn main(rt: HostRuntime) -> ExitCode {
    let mut output = io::writer(&rt);
    let status = match words(&rt) {
        Ok(words) => {
            let (mut input, mut errors) = (rt.reader(), rt.stderr());
            sasl_lab_lib::run(rt.alloc(), &words, &mut input, &mut output, &mut errors)
        }
        Err(stop) => stop.end(&mut output),
    };
    ExitCode::from(status)
}
