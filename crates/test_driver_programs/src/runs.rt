//! Runs of a program, and what each prints.

use crate::disk::Disk;
use crate::no_database::NoDatabase;
use crate::paragraphs::{Run, read};
use crate::streams::{End, Output, tell_lines};
use example_broker_lib::log_in;
use scram_lib::task::Process;
use std::fs::Metadata;
use std::io::{BufRead, BufReader, Read, Result, Write};
use std::mem::replace;
use test_rows::Row;

/// Answers the run of a paragraph. If it says so, each call fails in turn: the status must be 4, the files unchanged.
pub fn answer(row: &mut Row<'_>, text: &str, private: &Metadata) -> Result<()> {
    let mut run = read(row.alloc, text, private, 0)?;
    let mut before = String::from_str(row.alloc, "= 4\n")?;
    run.disk.tell(&mut before)?;
    if run.is_binary {
        for piece in [1, 7] {
            answer_pieces(row, &mut read(row.alloc, text, private, 0)?, piece)?;
        }
    }
    answer_pieces(row, &mut run, 4096)?;
    let calls = if run.fails { run.disk.calls() } else { 0 };
    if run.fails && calls == 0 {
        row.refuse("no call");
    }
    for failing in 1..=calls {
        let told = play(&mut read(row.alloc, text, private, failing)?, 4096)?;
        if !told.ends_with(before.as_str()) && !tells_change(&run, &told)? {
            row.say("call");
            row.say(failing);
            row.say("fails:");
            row.say(told);
        }
    }
    Ok(())
}

/// Answers a run with an input in pieces of this length.
fn answer_pieces(row: &mut Row<'_>, run: &mut Run, piece: usize) -> Result<()> {
    let told = play(run, piece)?;
    row.say(told);
    row.agree(&run.wanted);
    Ok(())
}

/// Returns whether a result has status 4 and the files of the run that does not fail, and the errors say so.
fn tells_change(run: &Run, told: &str) -> Result<bool> {
    let (_, files) = run.wanted.split_once("= 0\n").unwrap_or(("", ""));
    let after = format!(in run.disk.alloc(); "= 4\n{files}")?;
    Ok(told.contains("The file is changed, but") && told.ends_with(after.as_str()))
}

/// Runs the program with an input in pieces of this length, and returns output, errors, status and files as lines.
fn play(run: &mut Run, piece: usize) -> Result<String> {
    let alloc = run.disk.alloc();
    let input = run.input.clone()?;
    let input = input.as_slice().chain(End(run.fault));
    let status = run_program(run, BufReader::with_capacity(alloc, piece, input)?)?;
    let mut told = String::new(alloc);
    if run.is_binary {
        let digits = hex::encode(alloc, run.output.written.as_slice())?;
        write!(told, "X {digits}\n")?;
    } else {
        tell_lines(&mut told, ">", &run.output.written)?;
    }
    let rejected = run.output.rejected.saturating_add(run.errors.rejected);
    if rejected != 0 {
        write!(told, "| {rejected}\n")?;
    }
    if run.errors.written.as_slice() == sasl_lab_lib::USAGE.as_bytes() {
        told.push_str("! the usage\n")?;
    } else {
        tell_lines(&mut told, "!", &run.errors.written)?;
    }
    write!(told, "= {status}\n")?;
    run.disk.tell(&mut told)?;
    Ok(told)
}

/// Runs the program that the first word names, and returns its status.
fn run_program<I: BufRead + Drop>(run: &mut Run, mut input: I) -> Result<u8> {
    let (name, words) = match run.words.as_slice() {
        [name, words @ ..] => (name.as_str(), words),
        [] => return Ok(0),
    };
    let (output, errors) = (&mut run.output, &mut run.errors);
    match name {
        "example_broker" => {
            let records = words.first().map_or("", |word| word.as_str());
            match log_in(&run.disk, records, words.len() > 1, &mut input, output) {
                Ok((user, wrong)) => {
                    writeln!(errors, "{user:?} logged in, after {wrong} wrong logins")?;
                    Ok(0)
                }
                Err(_) => Ok(1),
            }
        }
        "sasl_lab" => Ok(sasl_lab_lib::run(run.disk.alloc(), words, &mut input, output, errors)),
        _ => {
            let alloc = run.disk.alloc();
            let output = replace(output, Output::new(alloc));
            let errors = replace(errors, Output::new(alloc));
            let (disk, tty) = (&run.disk, run.is_terminal);
            let (status, output, errors) = run_scram(disk, &run.words, tty, input, output, errors);
            run.output = output;
            run.errors = errors;
            Ok(status)
        }
    }
}

/// Runs `scram` over streams of its own. Returns its status, and what it has written.
fn run_scram<I: BufRead + Drop>(
    disk: &Disk,
    words: &[String],
    is_terminal: bool,
    input: I,
    output: Output,
    errors: Output,
) -> (u8, Output, Output) {
    let mut process = Process {
        rt: disk,
        backend: &NoDatabase,
        is_terminal,
        input,
        output,
        errors,
    };
    let status = scram_lib::run(words, &mut process);
    let Process { output, errors, .. } = process;
    (status, output, errors)
}
