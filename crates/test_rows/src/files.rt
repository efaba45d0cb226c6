//! Answers the rows of files, and prints those whose answer differs, and how many there are.
//!
//! A file has a row on each line, `WORDS => ANSWER`, or in each paragraph. Lines that begin with `#` are comments. A line
//! `call WORDS` has the first words of all rows after it, and `given WORDS` words between these and the row's own. After
//! `paragraphs WORDS`, each paragraph is one row, with these words as its first line.

use crate::rows::Row;
use std::alloc::Global;
use std::io::{self, Write};
use std::process::ExitCode;
use std::{env, fs};

/// A type that answers rows.
pub trait Answers {
    /// Reads the words of a row on a line, of which the first names the call, and says the answer.
    fn answer(&mut self, row: &mut Row<'_>);

    /// Reads the words of a paragraph after the first words, says the answers, and compares each.
    fn answer_paragraph(&mut self, words: &str, row: &mut Row<'_>);
}

/// How many rows were answered, and how many otherwise than they say.
#[derive(Clone, Copy)]
struct Counts {
    rows: u64,
    differ: u64,
}

impl Counts {
    /// Adds the counts of other rows.
    fn add(&mut self, rows: u64, differ: bool) {
        self.rows = self.rows.saturating_add(rows);
        self.differ = self.differ.saturating_add(u64::from(differ));
    }
}

/// A file of rows.
#[derive(Clone, Copy)]
struct File<'a> {
    alloc: Global,
    name: &'a str,
    text: &'a str,
}

/// Prints which calls of a row ran out of memory, and a wrong answer, and returns whether there is one.
fn differs<W: Write>(row: &Row<'_>, name: &str, text: &str, output: &mut W) -> io::Result<bool> {
    for call in row.calls_without_memory().lines() {
        writeln!(output, "{name}: ran out of memory: {call}")?;
    }
    if let Some(answer) = row.fault() {
        writeln!(output, "{name}: {text}: but {answer}")?;
        return Ok(true);
    }
    Ok(false)
}

/// Answers a row on a line, again if a call ran out of memory.
fn answer_line<A: Answers, W: Write>(
    answers: &mut A,
    file: File<'_>,
    first: (&str, &str),
    line: &str,
    output: &mut W,
) -> io::Result<bool> {
    let (asked, wanted) = line.split_once(" => ").unwrap_or((line, ""));
    let (call, given) = first;
    let words = format!(in file.alloc; "{call} {given} {asked}")?;
    let mut row = Row::new(file.alloc, &words);
    answers.answer(&mut row);
    if row.ran_out() {
        row.turn_to(&words);
        answers.answer(&mut row);
    }
    row.agree(wanted);
    differs(&row, file.name, line, output)
}

/// Answers the rows of a file, one on a line.
fn replay_lines<A: Answers, W: Write>(
    answers: &mut A,
    file: File<'_>,
    output: &mut W,
) -> io::Result<Counts> {
    let (mut counts, mut call, mut given) = (Counts { rows: 0, differ: 0 }, "", "");
    for line in file.text.lines() {
        if let Some(words) = line.strip_prefix("call ") {
            (call, given) = (words, "");
        } else if let Some(words) = line.strip_prefix("given ") {
            given = words;
        } else if !line.is_empty() && !line.starts_with('#') {
            let differs = answer_line(answers, file, (call, given), line, output)?;
            counts.add(1, differs);
        }
    }
    Ok(counts)
}

/// Answers the rows of a file, one in a paragraph.
fn replay_paragraphs<A: Answers, W: Write>(
    answers: &mut A,
    file: File<'_>,
    words: &str,
    output: &mut W,
) -> io::Result<Counts> {
    let mut counts = Counts { rows: 0, differ: 0 };
    for text in file.text.split("\n\n").skip(1) {
        let mut row = Row::new(file.alloc, text);
        answers.answer_paragraph(words, &mut row);
        let differs = differs(&row, file.name, text, output)?;
        counts.add(row.compared(), differs);
    }
    Ok(counts)
}

/// Answers the rows of a file, and prints how many there are.
fn replay_file<A: Answers, W: Write>(
    answers: &mut A,
    file: File<'_>,
    output: &mut W,
) -> io::Result<Counts> {
    let head = file
        .text
        .lines()
        .find_map(|line| line.strip_prefix("paragraphs "));
    let counts = match head {
        Some(words) => replay_paragraphs(answers, file, words, output)?,
        None => replay_lines(answers, file, output)?,
    };
    let Counts { rows, differ } = counts;
    writeln!(output, "{}: {rows} rows, {differ} differ", file.name)?;
    Ok(counts)
}

/// Answers the rows of the files of the arguments, prints those that differ and their number, and succeeds if none does.
fn replay_all<A: Answers>(rt: &HostRuntime, answers: &mut A) -> io::Result<bool> {
    let (mut output, mut differ, alloc) = (io::writer(rt), 0u64, rt.alloc());
    for name in env::args(rt)?.skip(1) {
        let text = fs::read_to_string(rt, name.as_str())?;
        let file = File {
            alloc,
            name: &name,
            text: &text,
        };
        differ = differ.saturating_add(replay_file(answers, file, &mut output)?.differ);
    }
    Ok(differ == 0)
}

/// Answers the rows of the files that the program's arguments name. Prints the rows whose answer differs, and how many rows
/// each file has, and succeeds if no answer differs.
pub fn replay<A: Answers>(rt: &HostRuntime, answers: &mut A) -> ExitCode {
    match replay_all(rt, answers) {
        Ok(true) => ExitCode::SUCCESS,
        _ => ExitCode::FAILURE,
    }
}
