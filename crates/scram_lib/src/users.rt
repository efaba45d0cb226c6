//! `users`: a file of records. Each line has the user name, escaped (RFC 5802, section 5.1), a space, and the record
//! (RFC 5803, section 2).

ghost use Rattle.std.specs.Prelude.{◌↔◌, true, false, Some, [], ◌∷◌, IfOk, IsTrue, OnOk};
ghost use Rattle.std.specs.List.{Contains};
ghost use Rattle.fe2o3_scram.specs.declared.hmac.ScramVersion.TheVariants.{Sha1, Sha256, Sha512};
ghost use Rattle.scram_lib.specs.Done.{HasChecked, HasItsPassword};
ghost use Rattle.scram_lib.specs.private.Passwords.{IsAsked, Tells, TellsEach};

pub mod alike;
pub mod changes;
pub mod export;
pub mod import;
pub mod source;

use crate::done::Done;
use crate::record::NewRecord;
use crate::task::Process;
use crate::users::changes::{Put, Taken};
use fe2o3_scram::{Meter, MultiRecordStore, Password, ScramCredentialProvider, ScramVersion};
use saslprep::Unassigned;
use scram_base_lib::backend::{Backend, Named, VERSIONS};
use scram_base_lib::stop::Stop;
use scram_base_lib::store::System;
use scram_base_lib::{input, store};
use std::alloc::Global;
use std::io::{BufRead, Write};

impl<R: System, I: BufRead, O: Write, E: Write, B: Backend<R>> Process<'_, R, I, O, E, B> {
    /// Reads a password, makes new records of a user, and prints what the change did. The errors get what to look at. Records
    /// for the same mechanisms are replaced; `must_exist` says that there has to be one.
    pub(crate) fn put(
        &mut self,
        named: &Named<'_>,
        must_exist: bool,
        record: &NewRecord<'_>,
    ) -> Result<(), Stop> {
        let password = self.new_password()?;
        let put = Put {
            name: named.name,
            version: named.version,
            must_exist,
            password: password.as_str(),
            asked: *record,
        };
        let changed = self.make_change(named, &put)?;
        report(changed.done, &mut self.output)?;
        // The file is changed, whether or not that can be written.
        let _ = self.errors.write_all(changed.notes.as_bytes());
        tell_others(
            self.rt.alloc(),
            &changed.text,
            named.name,
            put.password,
            &mut self.errors,
        )
    }

    /// Removes a user's records.
    pub(crate) fn remove(&mut self, named: &Named<'_>) -> Result<(), Stop> {
        let taken = Taken {
            version: named.version,
        };
        let changed = self.make_change(named, &taken)?;
        report(changed.done, &mut self.output)
    }

    /// Reads a password, checks it against the first record of the user for each mechanism, and prints the answers.
    pub(crate) fn check(&mut self, named: &Named<'_>) -> Result<Done, Stop>
        ensures { IfOk result (λ done. HasChecked named.now done) }
    {
        let (rt, backend) = (self.rt, self.backend);
        let password = input::password(rt.alloc(), &mut self.input, Unassigned::Allowed)?;
        let text = if named.is_db {
            backend.lines_of(rt, named)?
        } else {
            store::read(rt, named.file)?
        };
        let output = &mut self.output;
        check_text(rt.alloc(), &text, named, password.as_str(), output)?;
        Ok(Done::Check(text, password))
    }
}

/// Prints what a change did.
fn report<O: Write>(done: &str, output: &mut O) -> Result<(), Stop> {
    writeln!(output, "{done}").map_err(Stop::of_report)
}

/// Prints, on the errors, which records of a user have another password.
fn tell_others<E: Write>(
    alloc: Global,
    text: &str,
    name: &str,
    password: &str,
    errors: &mut E,
) -> Result<(), Stop> {
    let users = MultiRecordStore::parse_lines(alloc, text)?;
    for version in &VERSIONS {
        if answer(&users, None, name, password, *version) == Some(false) {
            let mechanism = version.mechanism();
            // The file is changed, whether or not that can be written.
            let _ = writeln!(
                errors,
                "scram: the record for {mechanism} keeps another password; passwd changes it"
            );
        }
    }
    Ok(())
}

/// Checks the password against the first record of the user in a text for each mechanism, and prints the answers.
fn check_text<O: Write>(
    alloc: Global,
    text: &str,
    named: &Named<'_>,
    password: &str,
    output: &mut O,
) -> Result<(), Stop>
    ensures { OnOk result (HasItsPassword named.now text.now password.now) }
{
    let users = MultiRecordStore::parse_lines(alloc, text)?;
    conclude(&answers(&users, named, password), output)
}

/// Returns, for each version, whether the password is that of the user's record. See [`answer`].
fn answers(users: &MultiRecordStore, named: &Named<'_>, password: &str) -> [Option<bool>; 3]
    ensures { TellsEach users.now named.now.version named.now.name.now password.now
        (Sha1 ∷ Sha256 ∷ Sha512 ∷ []) result }
{
    let (asked, name) = (named.version, named.name);
    [
        answer(users, asked, name, password, ScramVersion::Sha1),
        answer(users, asked, name, password, ScramVersion::Sha256),
        answer(users, asked, name, password, ScramVersion::Sha512),
    ]
}

/// Returns whether the password is that of the user's record for a version, or `None` if there is no such record or the
/// version is not asked for.
fn answer(
    users: &MultiRecordStore,
    asked: Option<ScramVersion>,
    name: &str,
    password: &str,
    version: ScramVersion,
) -> Option<bool>
    ensures { Tells users.now asked name.now password.now version result }
{
    if !is_asked(asked, version) {
        return None;
    }
    let kept = users.for_version(version).get_stored_password(name)?;
    Some(kept.verify_password(version, Password::Prepared(password), &mut Meter::new()))
}

/// Returns whether a version is asked for. `None` asks for all.
fn is_asked(asked: Option<ScramVersion>, version: ScramVersion) -> bool
    ensures { IsTrue result ↔ IsAsked asked version }
{
    match asked {
        Some(asked) => asked == version,
        None => true,
    }
}

/// Prints the answers. Returns an error unless there is an answer and all answers are yes.
fn conclude<O: Write>(answers: &[Option<bool>; 3], output: &mut O) -> Result<(), Stop>
    ensures { OnOk result (¬ Contains answers.now (Some false) × Contains answers.now (Some true)) }
{
    for (version, answer) in VERSIONS.iter().zip(answers) {
        if let Some(is_right) = answer {
            let (mechanism, word) = (version.mechanism(), if *is_right { "yes" } else { "no" });
            writeln!(output, "{mechanism} {word}").map_err(Stop::of_output)?;
        }
    }
    if answers.contains(&Some(false)) {
        return Err(Stop::OtherPassword);
    }
    if !answers.contains(&Some(true)) {
        return Err(Stop::NoSuchRecord);
    }
    Ok(())
}
