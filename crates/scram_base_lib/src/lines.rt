//! The lines of a file of records.

ghost use Rattle.std.specs.Prelude.{◌≡◌, ◌≢◌, ◌∷◌, ℕ, List, [], IfErr, IfOk};
ghost use Rattle.std.specs.String.{string_bytes};
ghost use Rattle.fe2o3_scram.specs.Escape.{escaped};
ghost use Rattle.fe2o3_scram.specs.MultiRecordLines.{SpellsMixed, mixed_text};

use crate::backend::Named;
use crate::shown::shown;
use crate::stop::Stop;
use crate::store;
use crate::store::{Change, Changed, Rewrite, System};
use fe2o3_scram::{
    MultiRecordStore, ReadLinesError, ReadLinesErrorKind, ScramRecord, UnescapeError,
    WriteLinesError, escape_username, unescape_username,
};
use std::alloc::Global;
use std::collections::{BTreeMap, BTreeSet};
use std::io::BufRead;
use std::random::RandomSource;
use std::rt::Files;

/// The parts of a valid line.
#[derive(Clone, Copy)]
pub struct UserLine<'a> {
    /// The name, escaped.
    pub name: &'a str,
    pub mechanism: &'a str,
    pub iterations: &'a str,
    /// The salt, in base64.
    pub salt: &'a str,
}

impl<'a> UserLine<'a> {
    /// Splits a line into its parts. They are empty if the line is not valid.
    pub fn of(line: &'a str) -> UserLine<'a> {
        let (name, record) = line.rsplit_once(' ').unwrap_or(("", ""));
        let (mechanism, rest) = record.split_once('$').unwrap_or(("", ""));
        let (iterations, rest) = rest.split_once(':').unwrap_or(("", ""));
        let (salt, _) = rest.split_once('$').unwrap_or(("", ""));
        UserLine {
            name,
            mechanism,
            iterations,
            salt,
        }
    }
}

/// Reads the users of a file.
pub fn users<R: Files + AllocGlobal>(rt: &R, file: &str) -> Result<MultiRecordStore, Stop> {
    parse(rt.alloc(), &store::read(rt, file)?)
}

/// Reads the users of a text.
pub fn parse(alloc: Global, text: &str) -> Result<MultiRecordStore, Stop>
    ensures { IfOk result (SpellsMixed text.now) }
{
    match MultiRecordStore::parse_lines(alloc, text) {
        Ok(users) => Ok(users),
        Err(fault) => {
            let line = text.split('\n').nth(fault.line.saturating_sub(1));
            Err(stop_of(line.unwrap_or(""), fault))
        }
    }
}

/// Checks a line of a file. Lines are counted from 1.
pub fn check(alloc: Global, line: &str, number: usize) -> Result<(), Stop> {
    match MultiRecordStore::parse_lines(alloc, line) {
        Ok(_) => Ok(()),
        Err(ReadLinesError { kind, .. }) => {
            let fault = ReadLinesError { line: number, kind };
            Err(stop_of(line.trim_end_matches('\n'), fault))
        }
    }
}

/// Converts the error of a line.
fn stop_of(line: &str, fault: ReadLinesError) -> Stop {
    let what = match line {
        _ if fault.kind == ReadLinesErrorKind::OutOfMemory => return Stop::OutOfMemory,
        "" => "is empty. Remove it",
        _ if line.ends_with('\r') => "ends with a carriage return. Save the file with line feeds",
        _ if line.starts_with('#') => "is a comment. Remove it",
        _ => return Stop::Line(fault),
    };
    Stop::NoRecord(fault.line, what)
}

/// Reads the next line of a file, and returns it with its line feed, or `None` at the end of the file. Lines are counted
/// from 1.
pub fn next<'a, I: BufRead>(
    alloc: Global,
    input: &mut I,
    number: usize,
    line: &'a mut Vec<u8>,
) -> Result<Option<&'a str>, Stop> {
    line.clear();
    input.read_until(b'\n', line).map_err(Stop::of_reading)?;
    let Ok(text) = str::from_utf8(line) else {
        return Err(Stop::NotUtf8);
    };
    if text.is_empty() {
        return Ok(None);
    }
    if number == 1 {
        store::unmarked(text)?;
    }
    check(alloc, text, number)?;
    Ok(Some(text))
}

/// Appends the mechanism, the iteration count and the name of a valid line. The name is as `remove` takes it in a shell.
pub fn push_shown(alloc: Global, line: &UserLine<'_>, text: &mut Vec<u8>) -> Result<(), Stop> {
    let name = unescaped(alloc, line.name)?;
    text.extend_from_slice(line.mechanism.as_bytes())?;
    text.push(b' ')?;
    text.extend_from_slice(line.iterations.as_bytes())?;
    text.push(b' ')?;
    text.extend_from_slice(&shown(alloc, name.as_bytes())?)?;
    Ok(text.push(b'\n')?)
}

/// A change of the lines of a user, whose name is not escaped, in a file.
#[derive(Drop)]
struct InFile<'a, C> {
    name: &'a str,
    change: &'a C,
}

impl<C: Change> Rewrite for InFile<'_, C> {
    type Done = Changed;

    fn makes_files(&self) -> bool {
        self.change.makes_files()
    }

    fn rewrite<R: RandomSource + AllocGlobal>(
        &self,
        rt: &R,
        old: &str,
    ) -> Result<(String, Changed), Stop> {
        let alloc = rt.alloc();
        let name = escaped(alloc, self.name)?;
        let (mut own, mut firsts) = (String::new(alloc), String::new(alloc));
        find(alloc, old, &name, &mut own, &mut firsts)?;
        let changed = self.change.apply(rt, &own, &firsts)?;
        let text = merge(alloc, old, Some(&name), &changed.text, &mut Vec::new(alloc))?;
        Ok((text, changed))
    }
}

/// Changes the lines of the user in a file. The other lines stay byte for byte.
pub fn make_change<R: System, C: Change>(
    rt: &R,
    named: &Named<'_>,
    change: &C,
) -> Result<Changed, Stop> {
    let name = named.name;
    store::make_change(rt, named.file, named.seconds(), &InFile { name, change })
}

/// Checks each line of a text, and appends those of a name, which is escaped, and the first for each mechanism.
fn find(
    alloc: Global,
    text: &str,
    name: &str,
    own: &mut String,
    firsts: &mut String,
) -> Result<(), Stop> {
    let mut seen = Vec::new(alloc);
    for (before, line) in text.split_inclusive('\n').enumerate() {
        check(alloc, line, before.saturating_add(1))?;
        let parts = UserLine::of(line);
        if parts.name == name {
            own.push_str(line)?;
        }
        if !seen.contains(&parts.mechanism) {
            seen.push(parts.mechanism)?;
            firsts.push_str(line)?;
        }
    }
    Ok(())
}

/// Returns a text in which each of these lines takes the place of that for its name and its mechanism, or is added at the
/// end. Other lines of the user of this name, which is escaped, are left out. The report gets a line for each.
pub fn merge(
    alloc: Global,
    text: &str,
    name: Option<&str>,
    lines: &str,
    report: &mut Vec<u8>,
) -> Result<String, Stop> {
    let (added, mut replaced) = (by_key(alloc, lines)?, BTreeSet::new(alloc));
    let mut merged = String::with_capacity(alloc, text.len().saturating_add(lines.len()))?;
    for line in text.split_inclusive('\n') {
        let key = key_of(line);
        match added.get(key) {
            None if name.is_some_and(|name| UserLine::of(line).name == name) => {}
            None => merged.push_str(line)?,
            Some(line) if replaced.insert(key)? => {
                merged.push_str(line)?;
                push_report(alloc, line, true, report)?;
            }
            // Only the first record of a name and a mechanism counts.
            Some(_) => {}
        }
    }
    for line in lines.split_inclusive('\n') {
        if !replaced.contains(key_of(line)) {
            merged.push_str(line)?;
            push_report(alloc, line, false, report)?;
        }
    }
    Ok(merged)
}

/// Appends what an import does with a line.
pub fn push_report(
    alloc: Global,
    line: &str,
    replaces: bool,
    report: &mut Vec<u8>,
) -> Result<(), Stop> {
    report.extend_from_slice(if replaces { b"replace " } else { b"add " })?;
    push_shown(alloc, &UserLine::of(line), report)
}

/// Returns lines by their keys. Of two with one key the first counts.
fn by_key<'a>(alloc: Global, lines: &'a str) -> Result<BTreeMap<&'a str, &'a str>, Stop> {
    let mut keys = BTreeMap::new(alloc);
    for line in lines.split_inclusive('\n') {
        if !keys.contains_key(key_of(line)) {
            let _ = keys.insert(key_of(line), line)?;
        }
    }
    Ok(keys)
}

/// Checks that no two lines have one name and one mechanism.
pub fn test_once(alloc: Global, lines: &str) -> Result<(), Stop> {
    let mut keys = BTreeSet::new(alloc);
    for (before, line) in lines.lines().enumerate() {
        if !keys.insert(key_of(line))? {
            return Err(Stop::Repeated(before.saturating_add(1)));
        }
    }
    Ok(())
}

/// Returns the name, escaped, and the mechanism of a valid line.
fn key_of(line: &str) -> &str {
    let parts = UserLine::of(line);
    let len = parts.name.len().saturating_add(parts.mechanism.len());
    line.get(..len.saturating_add(1)).unwrap_or("")
}

/// Returns the lines of a user in a text. The name is not escaped.
pub fn of_user(alloc: Global, text: &str, name: &str) -> Result<String, Stop> {
    let name = escaped(alloc, name)?;
    let mut own = String::new(alloc);
    for line in text.split_inclusive('\n') {
        // The first test is quick, and fails for most lines.
        if line.starts_with(name.as_str()) && UserLine::of(line).name == name.as_str() {
            own.push_str(line)?;
        }
    }
    Ok(own)
}

/// Returns the name that a text spells, not escaped (RFC 5802, section 5.1). The errors are `WrongName`, if it spells none,
/// and `OutOfMemory`.
pub fn unescaped(alloc: Global, name: &str) -> Result<String, Stop>
    ensures ok { IfOk result (λ plain. escaped (string_bytes plain) ≡ name.now) }
    ensures err { IfErr result (λ stop. stop ≢ Stop.OutOfMemory
        → (stop ≡ Stop.WrongName) × ((plain : List ℕ) → escaped plain ≢ name.now)) }
{
    match unescape_username(alloc, name) {
        Ok(plain) => Ok(plain.into_owned(alloc)?),
        Err(UnescapeError::OutOfMemory) => Err(Stop::OutOfMemory),
        Err(UnescapeError::Invalid) => Err(Stop::WrongName),
    }
}

/// Returns the name as it is in lines, escaped (RFC 5802, section 5.1).
pub fn escaped(alloc: Global, name: &str) -> Result<String, Stop> {
    match String::from_utf8(escape_username(alloc, name.as_bytes())?) {
        Ok(escaped) => Ok(escaped),
        Err(_) => Err(Stop::WrongName),
    }
}

/// Returns the line of a user, with its line feed.
pub fn line_of(alloc: Global, name: &str, kept: ScramRecord) -> Result<String, Stop>
    ensures { IfOk result (λ line. string_bytes line ≡ mixed_text ((name.now, kept) ∷ [])) }
{
    let name = name.to_string(alloc)?;
    let mut users = MultiRecordStore::new(alloc);
    users.add(name, kept)?;
    text_of(alloc, &users)
}

/// Returns the lines of users.
fn text_of(alloc: Global, users: &MultiRecordStore) -> Result<String, Stop>
    ensures { IfOk result (λ text. string_bytes text ≡ mixed_text users.now) }
{
    let lines = match users.to_lines(alloc) {
        Ok(lines) => lines,
        Err(WriteLinesError::UserNotWritable) => return Err(Stop::WrongName),
        Err(WriteLinesError::OutOfMemory) => return Err(Stop::OutOfMemory),
    };
    match String::from_utf8(lines) {
        Ok(text) => Ok(text),
        Err(_) => Err(Stop::WrongName),
    }
}
