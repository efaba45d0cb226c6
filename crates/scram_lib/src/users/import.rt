//! `users import`: records of other programs, or of another file.

ghost use Rattle.std.specs.Prelude.{◌≡◌, ◌∷◌, [], ℕ, List, IfOk, string_bytes};
ghost use Rattle.fe2o3_scram.specs.Credentials.{VersionedRecord};
ghost use Rattle.fe2o3_scram.specs.MultiRecordLines.{mixed_text};
ghost use Rattle.scram_lib.specs.Gsasl.{NamesBoth};

use crate::gsasl::record_of;
use crate::task::Process;
use fe2o3_scram::{
    ReadLinesError, ReadLinesErrorKind, RecordTextError, UnescapeError, unescape_username,
};
use scram_base_lib::backend::{Backend, Named};
use scram_base_lib::stop::Stop;
use scram_base_lib::store::{Rewrite, System};
use scram_base_lib::{input, lines, store};
use std::alloc::Global;
use std::io::{BufRead, ErrorKind, Write};
use std::random::RandomSource;

impl<R: System, I: BufRead, O: Write, E: Write, B: Backend<R>> Process<'_, R, I, O, E, B> {
    /// Adds the records of the input to a file, or replaces those of the same names and mechanisms. A dry run prints what
    /// that would do.
    pub(crate) fn import(&mut self, named: &Named<'_>, dry_run: bool) -> Result<(), Stop> {
        let rt = self.rt;
        let text = lines_in(rt.alloc(), &mut self.input)?;
        lines::test_once(rt.alloc(), &text)?;
        let added = Added { lines: &text };
        if dry_run {
            let (_, report) = added.rewrite(rt, &self.old_lines(named)?)?;
            self.output.write_all(&report).map_err(Stop::of_output)?;
            let (added, replaced) = counts(&report);
            return writeln!(self.output, "{added} to add, {replaced} to replace").map_err(
                Stop::of_output,
            );
        }
        let report = if named.is_db {
            self.backend.import(rt, named, &text)?
        } else {
            store::make_change(rt, named.file, named.seconds(), &added)?
        };
        let (added, replaced) = counts(&report);
        writeln!(self.output, "{added} added, {replaced} replaced").map_err(Stop::of_report)
    }

    /// Returns the lines of a file before an import, which makes a missing one.
    fn old_lines(&self, named: &Named<'_>) -> Result<String, Stop> {
        match self.lines(named) {
            Err(Stop::Unreadable(ErrorKind::NotFound)) => Ok(String::new(self.rt.alloc())),
            found => found,
        }
    }
}

/// Returns the number of records that a report says are added, and that of replaced ones.
fn counts(report: &[u8]) -> (usize, usize) {
    let (mut added, mut replaced) = (0usize, 0usize);
    for line in report.split(|byte| *byte == b'\n') {
        if line.starts_with(b"add ") {
            added = added.saturating_add(1);
        } else if line.starts_with(b"replace ") {
            replaced = replaced.saturating_add(1);
        }
    }
    (added, replaced)
}

/// Returns the lines of the records in the input.
fn lines_in<I: BufRead>(alloc: Global, input: &mut I) -> Result<String, Stop> {
    let mut lines = String::new(alloc);
    for line in 1..usize::MAX {
        let Some(text) = input::next_line(alloc, input)? else {
            break;
        };
        match line_of(alloc, &text) {
            Ok(text) => lines.push_str(&text)?,
            Err(kind) => return Err(Stop::NotImported(ReadLinesError { line, kind })),
        }
    }
    Ok(lines)
}

/// Returns the line of a file for a line of the input.
fn line_of(alloc: Global, line: &str) -> Result<String, ReadLinesErrorKind>
    ensures { IfOk result (λ text. (name : List ℕ) × (kept : VersionedRecord) × NamesBoth line.now name kept
        × (string_bytes text ≡ mixed_text ((name, kept) ∷ []))) }
{
    let Some((name, record)) = line.rsplit_once(' ') else {
        return Err(ReadLinesErrorKind::SpaceMissing);
    };
    let name = match unescape_username(alloc, name) {
        Ok(name) => name.into_owned(alloc)?,
        Err(UnescapeError::OutOfMemory) => return Err(ReadLinesErrorKind::OutOfMemory),
        Err(UnescapeError::Invalid) => return Err(ReadLinesErrorKind::InvalidName),
    };
    let record = match record_of(alloc, record) {
        Ok(record) => record,
        Err(RecordTextError::OutOfMemory) => return Err(ReadLinesErrorKind::OutOfMemory),
        Err(fault) => return Err(ReadLinesErrorKind::InvalidRecord(fault)),
    };
    match lines::line_of(alloc, &name, record) {
        Ok(line) => Ok(line),
        Err(_) => Err(ReadLinesErrorKind::OutOfMemory),
    }
}

/// Lines that are added to a file, or replace those for the same names and mechanisms.
#[derive(Clone, Copy)]
struct Added<'a> {
    lines: &'a str,
}

impl Rewrite for Added<'_> {
    type Done = Vec<u8>;

    fn rewrite<R: RandomSource + AllocGlobal>(
        &self,
        rt: &R,
        old: &str,
    ) -> Result<(String, Vec<u8>), Stop> {
        drop(lines::parse(rt.alloc(), old)?);
        let mut report = Vec::new(rt.alloc());
        let text = lines::merge(rt.alloc(), old, None, self.lines, &mut report)?;
        Ok((text, report))
    }
}
