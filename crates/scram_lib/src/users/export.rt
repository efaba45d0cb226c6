//! `users list` and `users export`: the records of a file, which are read and printed one after another.

use crate::gsasl::gsasl_text;
use crate::task::Process;
use fe2o3_scram::ScramRecord;
use scram_base_lib::backend::{Backend, Named};
use scram_base_lib::lines;
use scram_base_lib::lines::UserLine;
use scram_base_lib::stop::Stop;
use scram_base_lib::store::System;
use std::alloc::Global;
use std::fs;
use std::io::{BufRead, BufReader, Write};

/// The number of bytes that are printed at once.
const PIECE: usize = 32768;

/// How a record is printed.
#[derive(Clone, Copy)]
pub enum Printed {
    /// The mechanism, the iteration count and the name, quoted for a shell.
    Name,
    /// Its line.
    Line,
    /// Its line with the record as `gsasl --mkpasswd` writes it.
    Gsasl,
}

impl<R: System, I: BufRead, O: Write, E: Write, B: Backend<R>> Process<'_, R, I, O, E, B> {
    /// Prints each record of a file, and the number of exported ones on the errors.
    pub(crate) fn print_records(&mut self, named: &Named<'_>, how: Printed) -> Result<(), Stop> {
        let alloc = self.rt.alloc();
        let count = if named.is_db {
            let text = self.backend.lines(self.rt, named)?;
            print_lines(alloc, &mut text.as_bytes(), how, &mut self.output)?
        } else {
            let file = fs::open(self.rt, named.file).map_err(Stop::of_reading)?;
            let mut input = BufReader::new(alloc, file).map_err(Stop::of_reading)?;
            print_lines(alloc, &mut input, how, &mut self.output)?
        };
        if !matches!(how, Printed::Name) {
            // The records are printed, whether or not that can be written.
            let _ = writeln!(self.errors, "scram: {count} exported");
        }
        Ok(())
    }
}

/// Prints the record of each line, and returns their number.
fn print_lines<I: BufRead, O: Write>(
    alloc: Global,
    input: &mut I,
    how: Printed,
    output: &mut O,
) -> Result<usize, Stop> {
    let (mut line, mut printed) = (Vec::new(alloc), Vec::new(alloc));
    let mut count = 0usize;
    for _ in 0..u64::MAX {
        let Some(text) = lines::next(alloc, input, count.saturating_add(1), &mut line)? else {
            break;
        };
        count = count.saturating_add(1);
        push(alloc, text, how, &mut printed)?;
        if printed.len() > PIECE {
            output.write_all(&printed).map_err(Stop::of_output)?;
            printed.clear();
        }
    }
    output.write_all(&printed).map_err(Stop::of_output)?;
    Ok(count)
}

/// Appends the record of a valid line, as it is printed.
fn push(alloc: Global, line: &str, how: Printed, printed: &mut Vec<u8>) -> Result<(), Stop> {
    match how {
        Printed::Name => lines::push_shown(alloc, &UserLine::of(line), printed),
        Printed::Line => Ok(printed.extend_from_slice(line.as_bytes())?),
        Printed::Gsasl => push_gsasl(alloc, line, printed),
    }
}

/// Appends a valid line with the record as `gsasl --mkpasswd` writes it.
fn push_gsasl(alloc: Global, line: &str, printed: &mut Vec<u8>) -> Result<(), Stop> {
    let (name, record) = line
        .trim_end_matches('\n')
        .rsplit_once(' ')
        .unwrap_or(("", ""));
    // Cannot happen: the line is valid.
    let Ok(record) = ScramRecord::parse(alloc, record) else {
        return Err(Stop::OutOfMemory);
    };
    printed.extend_from_slice(name.as_bytes())?;
    printed.push(b' ')?;
    printed.extend_from_slice(gsasl_text(alloc, &record)?.as_bytes())?;
    Ok(printed.push(b'\n')?)
}
