//! The commands of the program.

use crate::audit::Audit;
use crate::client_final::ClientFinal;
use crate::login::Login;
use crate::stop::Stop;
use std::alloc::Global;
use std::io::{Read, Write};

/// The command that the arguments ask for.
#[derive(Drop)]
pub enum Command<'a> {
    /// The client's answer to a server-first message.
    ClientFinal(ClientFinal<'a>),

    /// The bodies of a login.
    Login(Login<'a>),

    /// The audit of two transcripts.
    Audit(Audit<'a>),
}

impl<'a> Command<'a> {
    /// Parses the arguments, or returns `None` if they are not those of a command.
    pub fn from_words(words: &'a [String]) -> Option<Command<'a>> {
        let (first, rest) = words.split_first()?;
        match first.as_str() {
            "client-final" => Some(Command::ClientFinal(ClientFinal::from_words(rest)?)),
            "login" => Some(Command::Login(Login::from_words(rest)?)),
            "audit" => Some(Command::Audit(Audit::from_words(rest)?)),
            _ => None,
        }
    }

    /// Runs the command, and prints its output. Only an audit reads the input.
    pub fn run<R: Read, W: Write>(
        &self,
        alloc: Global,
        input: &mut R,
        output: &mut W,
    ) -> Result<(), Stop> {
        match self {
            Command::ClientFinal(client_final) => client_final.run(alloc, output),
            Command::Login(login) => login.run(alloc, output),
            Command::Audit(audit) => audit.run(alloc, input, output),
        }
    }
}
