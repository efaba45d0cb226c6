//! The commands of the program, with their help: one table, from which the parser is made.

use crate::words::{COMMANDS, Kind, USERS_COMMANDS, Word, Words};
use clap::builder::ValueParser;
use clap::{Arg, ArgAction, Command};
use std::alloc::{AllocError, Global};

/// The mechanisms that have records.
static MECHANISMS: [&str; 3] = ["SCRAM-SHA-1", "SCRAM-SHA-256", "SCRAM-SHA-512"];

/// What the program does.
pub static ABOUT: &str =
    "Makes, stores and checks SCRAM records, and runs SCRAM logins (RFC 5802, RFC 7677)";

/// What applies to every command.
pub static NOTES: &str = "\
A password is the first line of standard input, never an argument; scram man shows how to type one without an echo. Exit
status: 0 success, 1 the other side rejects the login or closes, 2 wrong arguments, 3 this side rejects the login, an audit
finds no complete login, or a user or a password is not that of a record, 4 the input cannot be read or audited, or a file,
the output, memory or the random source fails.";

/// What `users` does.
pub static USERS: &str = "Manages a file of records, each on a line: NAME RECORD";

impl Word {
    /// Returns the word for the parser.
    fn arg<'a>(&self, alloc: Global) -> Result<Arg<'a>, AllocError> {
        let arg = self.plain(alloc);
        Ok(match self.kind {
            Kind::Place => arg.required(true),
            Kind::OptionalPlace => arg,
            Kind::MechanismPlace => mechanism(arg.required(true)),
            Kind::Flag => self.flag(arg),
            Kind::FlagWithout(other) => return self.flag(arg).conflicts_with(other),
            Kind::FlagOf(other) => return self.flag(arg).requires_arg(other),
            Kind::Text => self.option(arg),
            Kind::Texts => self.option(arg).action(ArgAction::Append),
            Kind::Mechanism => mechanism(self.option(arg)),
            // A mock record can have no longer salt.
            Kind::SaltLen => self.number(arg, 1, 64),
            Kind::Count => self.number(arg, 1, 4294967295),
            Kind::Seconds => self.number(arg, 0, 86400),
            Kind::CountOf(other) => return self.number(arg, 1, 4294967295).requires_arg(other),
        })
    }

    /// Returns a word with a value.
    fn plain<'a>(&self, alloc: Global) -> Arg<'a> {
        Arg::new(alloc, self.name)
            .action(ArgAction::Set)
            .help(self.help)
    }

    /// Returns the word as an option without a value.
    fn flag<'a>(&self, arg: Arg<'a>) -> Arg<'a> {
        arg.long(self.name).action(ArgAction::SetTrue)
    }

    /// Returns the word as an option.
    fn option<'a>(&self, arg: Arg<'a>) -> Arg<'a> {
        arg.long(self.name).value_name(self.value)
    }

    /// Returns the word as an option with a number within these bounds.
    fn number<'a>(&self, arg: Arg<'a>, min: u64, max: u64) -> Arg<'a> {
        self.option(arg)
            .value_parser(ValueParser::unsigned(min, max))
    }
}

/// Returns a word whose value is the name of a mechanism.
fn mechanism<'a>(arg: Arg<'a>) -> Arg<'a> {
    arg.value_parser(MECHANISMS.as_slice())
}

impl Words {
    /// Returns the command for the parser.
    fn command<'a>(&self, alloc: Global) -> Result<Command<'a>, AllocError> {
        let mut args = Vec::new(alloc);
        for word in self.words {
            args.push(word.arg(alloc)?)?;
        }
        Command::new(alloc, self.name).about(self.about).args(args)
    }
}

/// Returns the commands of a table for the parser.
fn commands<'a>(alloc: Global, table: &[Words]) -> Result<Vec<Command<'a>>, AllocError> {
    let mut commands = Vec::new(alloc);
    for words in table {
        commands.push(words.command(alloc)?)?;
    }
    Ok(commands)
}

/// Returns a command that requires a subcommand.
fn above<'a>(alloc: Global, name: &'static str, about: &'static str) -> Command<'a> {
    Command::new(alloc, name)
        .about(about)
        .subcommand_required(true)
        .arg_required_else_help(true)
        .disable_help_subcommand(true)
}

/// Returns the command `users` for the parser.
fn users<'a>(alloc: Global) -> Result<Command<'a>, AllocError> {
    let commands = commands(alloc, &USERS_COMMANDS)?;
    above(alloc, "users", USERS).subcommands(commands)
}

/// Returns all words for the parser.
pub fn manual<'a>(alloc: Global) -> Result<Command<'a>, AllocError> {
    let mut commands = commands(alloc, &COMMANDS)?;
    commands.push(users(alloc)?)?;
    above(alloc, "scram", ABOUT)
        .version("0.5.0-dev")
        .after_help(NOTES)
        .subcommands(commands)
}
