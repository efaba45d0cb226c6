//! Whether the records of a file look alike: `users check` without a name, and `users list --hashes`.

use crate::form::Form;
use crate::task::Process;
use fe2o3_scram::{MultiRecordStore, ScramVersion};
use scram_base_lib::backend::{Backend, Named, VERSIONS};
use scram_base_lib::lines;
use scram_base_lib::lines::UserLine;
use scram_base_lib::shown::shown;
use scram_base_lib::stop::Stop;
use scram_base_lib::store::System;
use std::alloc::Global;
use std::collections::BTreeSet;
use std::io::{BufRead, Write};

impl<R: System, I: BufRead, O: Write, E: Write, B: Backend<R>> Process<'_, R, I, O, E, B> {
    /// Prints each record that has another form than the first for its mechanism, and each user without a record for a
    /// mechanism that others have. Returns an error if there is one.
    pub(crate) fn check_file(&mut self, named: &Named<'_>) -> Result<(), Stop> {
        let text = self.lines(named)?;
        let users = lines::parse(self.rt.alloc(), &text)?;
        if are_alike(self.rt.alloc(), &users, &text, &mut self.output)? {
            return Ok(());
        }
        Err(Stop::NotAlike)
    }

    /// Prints the mechanisms for which each user of a file has a record. Of a file without users, none is printed.
    pub(crate) fn list_hashes(&mut self, named: &Named<'_>) -> Result<(), Stop> {
        let users = lines::parse(self.rt.alloc(), &self.lines(named)?)?;
        for version in &VERSIONS {
            let own = users.for_version(*version);
            if own.first_stored_password().is_some() && users.all_have(*version) {
                writeln!(self.output, "{}", version.mechanism()).map_err(Stop::of_output)?;
            }
        }
        Ok(())
    }
}

/// Returns whether the records of a text look alike, and prints which do not.
fn are_alike<O: Write>(
    alloc: Global,
    users: &MultiRecordStore,
    text: &str,
    output: &mut O,
) -> Result<bool, Stop> {
    let (mut names, mut is_alike) = (BTreeSet::new(alloc), true);
    for line in text.lines() {
        let line = UserLine::of(line);
        is_alike &= check_form(alloc, users, &line, output)?;
        if names.insert(line.name)? {
            is_alike &= check_hashes(alloc, users, line.name, output)?;
        }
    }
    Ok(is_alike)
}

/// Returns whether a line has the form of the first record for its mechanism, and prints it otherwise.
fn check_form<O: Write>(
    alloc: Global,
    users: &MultiRecordStore,
    line: &UserLine<'_>,
    output: &mut O,
) -> Result<bool, Stop> {
    let Some(version) = ScramVersion::from_mechanism(line.mechanism) else {
        return Ok(true);
    };
    let (form, first) = (
        Form::of_line(line),
        Form::of_first(users.for_version(version)),
    );
    if form == first {
        return Ok(true);
    }
    let said = format!(in alloc;
        "a salt of {} bytes and {} iterations, the first record has {} and {}",
        form.salt_len, form.iterations, first.salt_len, first.iterations
    )?;
    print(alloc, version, line.name, &said, output)?;
    Ok(false)
}

/// Returns whether a user has a record for each mechanism that others have, and prints it otherwise. The name is escaped.
fn check_hashes<O: Write>(
    alloc: Global,
    users: &MultiRecordStore,
    name: &str,
    output: &mut O,
) -> Result<bool, Stop> {
    let plain = lines::unescaped(alloc, name)?;
    let mut has_all = true;
    for version in &VERSIONS {
        let own = users.for_version(*version);
        if own.first_stored_password().is_some() && own.record(&plain).is_none() {
            print(alloc, *version, name, "no record", output)?;
            has_all = false;
        }
    }
    Ok(has_all)
}

/// Prints what is said of a user for a mechanism. The name is escaped.
fn print<O: Write>(
    alloc: Global,
    version: ScramVersion,
    name: &str,
    said: &str,
    output: &mut O,
) -> Result<(), Stop> {
    let name = lines::unescaped(alloc, name)?;
    let mut line = format!(in alloc; "{} ", version.mechanism())?.into_bytes();
    line.extend_from_slice(&shown(alloc, name.as_bytes())?)?;
    line.extend_from_slice(b": ")?;
    line.extend_from_slice(said.as_bytes())?;
    line.push(b'\n')?;
    output.write_all(&line).map_err(Stop::of_output)
}
