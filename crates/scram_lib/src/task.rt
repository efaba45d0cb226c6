//! The task that the arguments ask for.

ghost use Rattle.std.specs.Prelude.{◌≡◌, ℕ, List, true, false, Some, None, IfErr, IfOk, IsOk, codes, is_some, map, option_map};
ghost use Rattle.clap.specs.Matches.{first_value, found_of, matched_of, one_text, raw_values};
ghost use Rattle.scram_lib.specs.Counts.{IsCountOf};
ghost use Rattle.scram_lib.specs.Done.{IsDone};

use crate::client::Login;
use crate::done::Done;
use crate::man;
use crate::record::NewRecord;
use crate::server::Service;
use crate::users::export::Printed;
use clap::ArgMatches;
use fe2o3_scram::secrets::SecretText;
use fe2o3_scram::{DEFAULT_SCRAM_ITERATIONS, ScramVersion};
use saslprep::Unassigned;
use scram_base_lib::backend::{Backend, Named};
use scram_base_lib::explain::explain;
use scram_base_lib::input;
use scram_base_lib::stop::Stop;
use scram_base_lib::store::System;
use std::io::{BufRead, Write};

/// The process that runs a command.
#[derive(Drop)]
pub struct Process<'a, R, I, O, E, B> {
    pub rt: &'a R,
    /// What other crates supply.
    pub backend: &'a B,
    /// Whether the input is a terminal.
    pub is_terminal: bool,
    pub input: I,
    pub output: O,
    pub errors: E,
}

/// A task of this library.
#[derive(Clone, Copy)]
pub enum Task<'a, 'm> {
    /// Prints a record.
    Record(ScramVersion, NewRecord<'a>),
    /// Adds a user's records to a file. The flag says that the name may be empty or have spaces at its ends.
    Add(Named<'a>, NewRecord<'a>, bool),
    /// Changes a user's password in a file.
    ChangePassword(Named<'a>, NewRecord<'a>),
    /// Removes a user's records from a file.
    Remove(Named<'a>),
    /// Lists or exports the records of a file.
    List(Named<'a>, Printed),
    /// Adds the records of the input to a file. The flag asks for a dry run.
    Import(Named<'a>, bool),
    /// Lists the mechanisms for which all users of a file have records.
    ListHashes(Named<'a>),
    /// Checks a password.
    Check(Named<'a>),
    /// Checks whether the records of a file look alike.
    CheckFile(Named<'a>),
    /// Logs in.
    Client(Login<'a>),
    /// Serves a login.
    Server(Service<'a, 'm>),
    /// Explains messages. The flag says that the lines are frame bodies.
    Explain(bool),
    /// Audits a login against this file, for a client that accepts this many iterations.
    Audit(&'a str, u32),
    /// Prints the manual page.
    Man,
}

impl<'a, 'm> Task<'a, 'm> {
    /// Returns the task of the parsed arguments.
    pub fn of(matches: &'m ArgMatches<'a>) -> Task<'a, 'm> {
        // The other tasks borrow nothing of the parsed arguments.
        if let Some(("server", found)) = matches.subcommand() {
            return Task::Server(service(found));
        }
        match matches.subcommand() {
            Some(("users", found)) => Task::of_users(found),
            Some(("client", found)) => Task::Client(login(found)),
            Some(("explain", found)) => Task::of_explain(found),
            Some(("man", _)) => Task::Man,
            Some((_, found)) => Task::of_record(found),
            None => Task::of_record(matches),
        }
    }

    /// Returns the task of the parsed arguments of `record`.
    fn of_record(matches: &ArgMatches<'a>) -> Task<'a, 'm> {
        let version = version_of(matches, "mechanism").unwrap_or(ScramVersion::Sha256);
        Task::Record(version, new_record(matches))
    }

    /// Returns the task of the parsed arguments of `explain`.
    fn of_explain(matches: &ArgMatches<'a>) -> Task<'a, 'm> {
        match matches.get_str("audit") {
            Some(file) => Task::Audit(file, max_iterations(matches)),
            None => Task::Explain(matches.get_flag("frames")),
        }
    }

    /// Returns the task of the parsed arguments of `users`.
    fn of_users(matches: &ArgMatches<'a>) -> Task<'a, 'm> {
        match matches.subcommand() {
            Some(("add", found)) => {
                Task::Add(named(found), new_record(found), found.get_flag("force"))
            }
            Some(("passwd", found)) => Task::ChangePassword(password_of(found), new_record(found)),
            Some(("remove", found)) => Task::Remove(named(found)),
            Some(("check", found)) if found.contains_id("NAME") => Task::Check(named(found)),
            Some(("check", found)) => Task::CheckFile(named(found)),
            Some(("import", found)) => Task::Import(named(found), found.get_flag("dry-run")),
            Some(("export", found)) if found.get_flag("gsasl") => {
                Task::List(named(found), Printed::Gsasl)
            }
            Some(("export", found)) => Task::List(named(found), Printed::Line),
            Some((_, found)) if found.get_flag("hashes") => Task::ListHashes(named(found)),
            Some((_, found)) => Task::List(named(found), Printed::Name),
            None => Task::List(named(matches), Printed::Name),
        }
    }

    /// Returns the file of the task, or an empty text if it has none.
    pub fn file(&self) -> &'a str {
        match self {
            Task::Add(named, _, _)
            | Task::ChangePassword(named, _)
            | Task::Remove(named)
            | Task::Import(named, _)
            | Task::List(named, _)
            | Task::ListHashes(named)
            | Task::CheckFile(named)
            | Task::Check(named) => named.file,
            Task::Client(login) => login.keys.unwrap_or(""),
            Task::Server(service) => service.file,
            Task::Audit(file, _) => file,
            Task::Record(_, _) | Task::Explain(_) | Task::Man => "",
        }
    }
}

impl<R: System, I: BufRead, O: Write, E: Write, B: Backend<R>> Process<'_, R, I, O, E, B> {
    /// Does a task.
    pub fn run(&mut self, task: &Task<'_, '_>) -> Result<Done, Stop>
        ensures { IfOk result (λ done. IsDone task.now done) }
    {
        match task {
            Task::Client(login) => self.log_in(login),
            Task::Server(service) => self.serve(service),
            Task::Check(named) => self.check(named),
            other => {
                self.run_other(other)?;
                Ok(Done::Other)
            }
        }
    }

    /// Does a task that is no login and no check.
    fn run_other(&mut self, task: &Task<'_, '_>) -> Result<(), Stop> {
        match task {
            Task::Record(version, record) => self.print_record(*version, record),
            Task::Add(named, record, force) => {
                test_name(named.name, *force)?;
                self.put(named, false, record)
            }
            Task::ChangePassword(named, record) => self.put(named, true, record),
            Task::Remove(named) => self.remove(named),
            Task::List(named, how) => self.print_records(named, *how),
            Task::Import(named, dry_run) => self.import(named, *dry_run),
            Task::ListHashes(named) => self.list_hashes(named),
            Task::CheckFile(named) => self.check_file(named),
            Task::Explain(frames) => {
                let (input, output) = (&mut self.input, &mut self.output);
                explain(self.rt.alloc(), *frames, input, output)
            }
            Task::Audit(file, limit) => {
                self.backend
                    .audit(self.rt, file, *limit, &mut self.input, &mut self.output)
            }
            Task::Man => man::print(&mut self.output).map_err(Stop::of_output),
            Task::Client(_) | Task::Server(_) | Task::Check(_) => Ok(()),
        }
    }

    /// Reads a password to store. At a terminal it is asked for twice.
    pub(crate) fn new_password(&mut self) -> Result<SecretText, Stop> {
        let alloc = self.rt.alloc();
        let password = input::password(alloc, &mut self.input, Unassigned::Refused)?;
        if self.is_terminal {
            ask("The same password again: ", &mut self.errors);
            let again = input::password(alloc, &mut self.input, Unassigned::Refused)?;
            if again.as_str() != password.as_str() {
                return Err(Stop::OtherPasswords);
            }
        }
        Ok(password)
    }
}

/// Asks for a line at a terminal. The program reads on, whether or not that can be written.
pub(crate) fn ask<E: Write>(question: &str, errors: &mut E) {
    let _ = errors.write_all(question.as_bytes());
    let _ = errors.flush();
}

/// Checks that a name is not empty and has no spaces at its ends, unless `force` is set.
fn test_name(name: &str, force: bool) -> Result<(), Stop>
    ensures forced { force ≡ true → IsOk result }
    ensures err { IfErr result (λ stop. stop ≡ Stop.OddName) }
{
    if !force && (name.is_empty() || name.trim().len() != name.len()) {
        return Err(Stop::OddName);
    }
    Ok(())
}

/// Returns the arguments of `client`.
fn login<'a>(matches: &ArgMatches<'a>) -> Login<'a>
    ensures channel { option_map (λ word. word.now) result.channel
        ≡ first_value (found_of matches.now) (codes "channel") }
    ensures acts_for { option_map (λ word. word.now) result.acts_for
        ≡ first_value (found_of matches.now) (codes "acts-for") }
    ensures not_offered { (one_text (found_of matches.now) (codes "channel-not-offered") ≡ Some (codes "true"))
        → result.channel_not_offered ≡ true }
    ensures strict { (one_text (found_of matches.now) (codes "strict") ≡ Some (codes "true"))
        → result.strict ≡ true }
    ensures default_min { one_text (found_of matches.now) (codes "min-iterations") ≡ None → result.min_iterations ≡ 4096 }
    ensures typed_min { (text : List ℕ) → one_text (found_of matches.now) (codes "min-iterations") ≡ Some text
        → IsCountOf text 4096 result.min_iterations }
{
    Login {
        version: version_of(matches, "M").unwrap_or(ScramVersion::Sha256),
        user: text(matches, "USER"),
        acts_for: matches.get_str("acts-for"),
        min_iterations: count_of(matches, "min-iterations", DEFAULT_SCRAM_ITERATIONS),
        max_iterations: max_iterations(matches),
        keys: matches.get_str("keys"),
        channel: matches.get_str("channel"),
        channel_not_offered: matches.get_flag("channel-not-offered"),
        strict: matches.get_flag("strict"),
        nonce: matches.get_str("nonce"),
        frames: matches.get_flag("frames"),
    }
}

/// Returns the maximum iteration count, or its default.
fn max_iterations(matches: &ArgMatches<'_>) -> u32 {
    count_of(matches, "max-iterations", 1_000_000)
}

/// Returns the number of an option, or this one if the option is absent.
fn count_of(matches: &ArgMatches<'_>, id: &str, otherwise: u32) -> u32
    ensures absent { one_text (found_of matches.now) id.now ≡ None → result ≡ otherwise }
    ensures typed { (text : List ℕ) → one_text (found_of matches.now) id.now ≡ Some text → IsCountOf text otherwise result }
{
    matches.get_one::<u32>(id).unwrap_or(otherwise)
}

/// Returns the arguments of `server`.
fn service<'a, 'm>(matches: &'m ArgMatches<'a>) -> Service<'a, 'm>
    ensures channel { option_map (λ word. word.now) result.channel
        ≡ first_value (found_of matches.now) (codes "channel") }
    ensures saslprep { (one_text (found_of matches.now) (codes "saslprep") ≡ Some (codes "true"))
        → result.saslprep ≡ true }
    ensures no_y { (one_text (found_of matches.now) (codes "accept-y") ≡ Some (codes "false"))
        → result.accept_y ≡ false }
    ensures rights { option_map (λ words. map (λ word. word.now) words.now) result.may_act
        ≡ option_map raw_values (matched_of (found_of matches.now) (codes "may-act")) }
    ensures misplaced { (one_text (found_of matches.now) (codes "reject-misplaced") ≡ Some (codes "true"))
        → result.reject_misplaced ≡ true }
    ensures no_authzid { (one_text (found_of matches.now) (codes "accept-authzid") ≡ Some (codes "false"))
        → is_some (matched_of (found_of matches.now) (codes "may-act")) ≡ false → result.accept_authzid ≡ false }
    ensures authzid { is_some (matched_of (found_of matches.now) (codes "may-act")) ≡ true
        → result.accept_authzid ≡ true }
    ensures strict { (one_text (found_of matches.now) (codes "strict") ≡ Some (codes "true"))
        → result.strict ≡ true }
{
    Service {
        version: version_of(matches, "M").unwrap_or(ScramVersion::Sha256),
        file: text(matches, "FILE"),
        is_db: matches.get_flag("db"),
        wait: matches.get_one::<u32>("wait"),
        saslprep: matches.get_flag("saslprep"),
        tells_unknown_users: matches.get_flag("tell-unknown-users"),
        channel: matches.get_str("channel"),
        accept_y: matches.get_flag("accept-y"),
        reject_misplaced: matches.get_flag("reject-misplaced"),
        accept_authzid: matches.get_flag("accept-authzid") || matches.contains_id("may-act"),
        may_act: matches.get_strs("may-act"),
        strict: matches.get_flag("strict"),
        nonce: matches.get_str("nonce"),
        frames: matches.get_flag("frames"),
    }
}

/// Returns the arguments of a new record.
fn new_record<'a>(matches: &ArgMatches<'a>) -> NewRecord<'a> {
    NewRecord {
        salt_len: matches
            .get_one::<u32>("salt-length")
            .map(|len| len as usize),
        iterations: matches.get_one::<u32>("iterations"),
        salt: matches.get_str("salt"),
    }
}

/// Returns the file, the user name and the mechanism, if any.
fn named<'a>(matches: &ArgMatches<'a>) -> Named<'a>
    ensures { first_value (found_of matches.now) (codes "mechanism") ≡ None → result.version ≡ None }
{
    Named {
        file: text(matches, "FILE"),
        is_db: matches.get_flag("db"),
        name: text(matches, "NAME"),
        version: version_of(matches, "mechanism"),
        wait: matches.get_one::<u32>("wait"),
    }
}

/// Returns the file, the user name and the mechanism of a new password, if any. With `--all` there is none.
fn password_of<'a>(matches: &ArgMatches<'a>) -> Named<'a>
    ensures all { (one_text (found_of matches.now) (codes "all") ≡ Some (codes "true"))
        → result.version ≡ None }
    ensures every { first_value (found_of matches.now) (codes "mechanism") ≡ None → result.version ≡ None }
{
    let mut named = named(matches);
    if matches.get_flag("all") {
        named.version = None;
    }
    named
}

/// Returns whether `--echo` is given, or `None` for a command that reads no password.
pub fn echo_of(matches: &ArgMatches<'_>) -> Option<bool> {
    let found = match matches.subcommand() {
        Some(("users", found)) => found.subcommand(),
        found => found,
    };
    match found? {
        ("check", found) if !found.contains_id("NAME") => None,
        ("explain", found) if found.get_str("audit").is_none() => None,
        ("record" | "client" | "explain" | "add" | "passwd" | "check", found) => {
            Some(found.get_flag("echo"))
        }
        _ => None,
    }
}

/// Returns the version of a mechanism argument, if any.
fn version_of(matches: &ArgMatches<'_>, id: &str) -> Option<ScramVersion>
    ensures { first_value (found_of matches.now) id.now ≡ None → result ≡ None }
{
    ScramVersion::from_mechanism(matches.get_str(id)?)
}

/// Returns the text of a required argument.
fn text<'a>(matches: &ArgMatches<'a>, id: &str) -> &'a str {
    matches.get_str(id).unwrap_or("")
}
