//! Paragraphs, each of which describes a run: a mark and a text in each line, as the heads of the files say.

use crate::disk::{Disk, FOLDER};
use crate::streams::Output;
use std::alloc::Global;
use std::fs::Metadata;
use std::io::{ErrorKind, Result, Write};

/// A run.
#[derive(Drop)]
pub struct Run {
    /// The system with the files before the run.
    pub disk: Disk,

    /// The name of the program and its arguments.
    pub words: Vec<String>,

    /// The input, and how it fails after that.
    pub input: Vec<u8>,
    pub fault: Option<ErrorKind>,

    /// Whether the input comes in pieces of several lengths, and whether the output is told as bytes.
    pub is_binary: bool,

    /// Whether the input counts as a terminal.
    pub is_terminal: bool,

    pub output: Output,
    pub errors: Output,

    /// The expected result: all other lines.
    pub wanted: String,

    /// Whether to repeat the run with each call of files and of random bytes failing in turn.
    pub fails: bool,
}

/// Parses a paragraph, for a run whose call of this number fails.
pub fn read(alloc: Global, text: &str, private: &Metadata, failing: u32) -> Result<Run> {
    let mut run = Run {
        disk: Disk::new(alloc, failing, private)?,
        words: Vec::new(alloc),
        input: Vec::new(alloc),
        fault: None,
        is_binary: false,
        is_terminal: false,
        output: Output::new(alloc),
        errors: Output::new(alloc),
        wanted: String::new(alloc),
        fails: false,
    };
    for line in text.lines() {
        let (mark, text) = line.split_once(' ').unwrap_or((line, ""));
        read_line(alloc, &mut run, mark, text)?;
    }
    Ok(run)
}

/// Parses a line.
fn read_line(alloc: Global, run: &mut Run, mark: &str, text: &str) -> Result<()> {
    let mut plain = unescaped(alloc, text)?;
    if matches!(mark, "<" | "-") {
        plain.push('\n')?;
    }
    match mark {
        "#" => {}
        "$" => {
            for word in text.split(' ') {
                run.words.push(unescaped(alloc, word)?)?;
            }
        }
        "<" | "<-" => run.input.extend_from_slice(plain.as_bytes())?,
        "x" => {
            run.is_binary = true;
            run.input = hex::decode(alloc, text).unwrap_or(Vec::new(alloc));
        }
        "e" if text == "OutOfMemory" => run.fault = Some(ErrorKind::OutOfMemory),
        "e" if text == "BrokenPipe" => run.fault = Some(ErrorKind::BrokenPipe),
        "e" => run.fault = Some(ErrorKind::Other),
        "o" => {
            run.is_binary = true;
            run.output.room = text.parse::<usize>().unwrap_or(0);
        }
        "O" => run.errors.room = text.parse::<usize>().unwrap_or(0),
        "r" => run.disk.random = hex::decode(alloc, text).unwrap_or(Vec::new(alloc)),
        "f" => store(&run.disk, text, 0)?,
        "d" => store(&run.disk, text, FOLDER)?,
        "-" | "~" => run.disk.append(plain.as_bytes())?,
        "?" => run.fails = true,
        "t" => run.is_terminal = true,
        _ => write!(run.wanted, "{mark} {text}\n")?,
    }
    Ok(())
}

/// Stores an empty file by its name and its mode in octal, which is 644 by default.
fn store(disk: &Disk, text: &str, kind: u32) -> Result<()> {
    let (name, mode) = text.split_once(' ').unwrap_or((text, "644"));
    drop(disk.insert(name, kind | u32::from_str_radix(mode, 8).unwrap_or(0))?);
    Ok(())
}

/// Replaces the escapes of line feeds, tabs, carriage returns, spaces and nothing.
fn unescaped(alloc: Global, text: &str) -> Result<String> {
    let text = text
        .replace(alloc, "\\n", "\n")?
        .replace(alloc, "\\t", "\t")?;
    let text = text.replace(alloc, "\\r", "\r")?.replace(alloc, "\\e", "")?;
    Ok(text.replace(alloc, "\\s", " ")?)
}
