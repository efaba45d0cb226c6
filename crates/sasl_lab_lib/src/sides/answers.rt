//! The answers of the replayed sides of an audit, compared with those of the real ones.

use crate::sides::half::{Given, Half, text_of};
use fe2o3_sasl::{ClientReply, ProfileError, ServerReply};
use fe2o3_sasl_wire::{Error, SaslCode, view_frame};
use scram_base_lib::stop::Stop;
use std::io::{Result as Written, Write};

/// The answer of a replayed side to a body.
#[derive(Clone, Copy)]
pub struct Answer<'a> {
    /// The message that continues the login, or ends it with `Ok`.
    text: Option<&'a [u8]>,

    /// Whether the answer is a challenge.
    is_challenge: bool,

    /// Whether the answer ends the login with `Ok`, which the client reports or the server sends.
    is_ok: bool,
}

/// The reply of a replayed side to a body.
pub trait Reply {
    /// Returns the answer. The only error is `OutOfMemory`.
    fn answer(&self) -> Result<Answer<'_>, Stop>;
}

impl Reply for Result<ClientReply, ProfileError> {
    fn answer(&self) -> Result<Answer<'_>, Stop> {
        match self {
            Ok(ClientReply::Init { body }) | Ok(ClientReply::Response { body }) => {
                Ok(Answer::of_body(body, false, false))
            }
            Ok(ClientReply::Outcome(outcome)) => {
                Ok(Answer::of_body(b"", false, outcome.code == SaslCode::Ok))
            }
            Err(ProfileError::OutOfMemory) => Err(Stop::OutOfMemory),
            Err(_) => Ok(Answer::of_body(b"", false, false)),
        }
    }
}

impl Reply for Result<ServerReply, Error> {
    fn answer(&self) -> Result<Answer<'_>, Stop> {
        match self {
            Ok(ServerReply::Challenge { body }) => Ok(Answer::of_body(body, true, false)),
            Ok(ServerReply::Outcome { code, body }) => {
                Ok(Answer::of_body(body, false, *code == SaslCode::Ok))
            }
            Err(Error::OutOfMemory) => Err(Stop::OutOfMemory),
            Err(_) => Ok(Answer::of_body(b"", false, false)),
        }
    }
}

impl<'a> Answer<'a> {
    /// Returns the answer of this body, which is empty if the side sends none.
    fn of_body(body: &'a [u8], is_challenge: bool, is_ok: bool) -> Answer<'a> {
        let text = match view_frame(body) {
            Ok((view, _)) => text_of(&view),
            Err(_) => None,
        };
        Answer {
            text,
            is_challenge,
            is_ok,
        }
    }

    /// Returns whether the real side sent this answer.
    fn is_that_of(&self, given: &Given) -> bool {
        match (self.text, &given.answer) {
            (Some(text), Some(answer)) => text == answer.as_slice(),
            (None, None) => true,
            _ => false,
        }
    }
}

/// Prints whether the client authenticates a server in its replay, or which users the server accepts.
pub fn print_answers<T: Reply, O: Write>(
    half: &Half,
    replies: &[T],
    output: &mut O,
) -> Result<(), Stop> {
    let (mut challenged, mut is_ok) = (None, false);
    for (given, reply) in half.given.iter().zip(replies) {
        let answer = reply.answer()?;
        is_ok |= answer.is_ok;
        if answer.is_challenge {
            challenged = Some(given);
        }
        let printed = print(half.is_client, given, challenged, &answer, output);
        printed.map_err(Stop::of_output)?;
    }
    let none = if half.is_client {
        "the client authenticates no server"
    } else {
        "the server accepts no client"
    };
    if !is_ok {
        writeln!(output, "audit: {none}").map_err(Stop::of_output)?;
    }
    Ok(())
}

/// Prints whether the answer differs from that of the replay, and whether the client authenticates the server, or the
/// server accepts the user of the last body that it answered with a challenge.
fn print<O: Write>(
    is_client: bool,
    given: &Given,
    challenged: Option<&Given>,
    answer: &Answer<'_>,
    output: &mut O,
) -> Written<()> {
    let line = given.line;
    if !answer.is_that_of(given) {
        let differs = if is_client {
            "client's answer does not match this password"
        } else {
            "server's answer does not match these records"
        };
        writeln!(output, "audit: line {line}: the {differs}")?;
    }
    match (answer.is_ok, challenged) {
        (true, Some(challenged)) => {
            let user = challenged.user.as_str();
            writeln!(
                output,
                "audit: line {line}: the server accepts the user {user:?}"
            )
        }
        (true, None) if is_client => writeln!(
            output,
            "audit: line {line}: the client authenticates the server"
        ),
        _ => Ok(()),
    }
}
