//! What each side of a run answers, in the words of the files.

use crate::frames::say_frame;
use fe2o3_sasl::{ClientReply, ProfileError, ServerReply};
use fe2o3_sasl_wire::{Error, Frame, SaslCode, SaslOutcome};
use std::fmt::Debug;
use test_rows::Row;

/// A type that a row can say.
pub trait Reply {
    /// Says the value.
    fn say(&self, row: &mut Row<'_>);
}

impl Reply for Result<ServerReply, Error> {
    fn say(&self, row: &mut Row<'_>) {
        match self {
            Ok(ServerReply::Challenge { body }) => say_named(row, "Challenge", body),
            Ok(ServerReply::Outcome { code, body }) => {
                let name = outcome_name(row, code);
                say_named(row, &name, body);
            }
            Err(fault) => row.show(fault),
        }
    }
}

impl Reply for Result<ClientReply, ProfileError> {
    fn say(&self, row: &mut Row<'_>) {
        match self {
            Ok(ClientReply::Init { body }) => say_named(row, "Init", body),
            Ok(ClientReply::Response { body }) => say_named(row, "Response", body),
            Ok(ClientReply::Outcome(outcome)) => match outcome.clone() {
                Ok(outcome) => say_outcome(row, outcome),
                Err(error) => row.refuse(error),
            },
            Err(fault) => row.show(fault),
        }
    }
}

/// Says a name and bytes.
pub fn say_named(row: &mut Row<'_>, name: &str, bytes: &[u8]) {
    row.say(name);
    row.say_digits(bytes);
}

/// Returns the name of an outcome of this code.
fn outcome_name(row: &mut Row<'_>, code: &SaslCode) -> String {
    let name = format!(in row.alloc; "Outcome:{code:?}");
    row.made(name, String::new(row.alloc))
}

/// Says an outcome, by its code and its canonical body.
pub fn say_outcome(row: &mut Row<'_>, outcome: SaslOutcome) {
    let name = outcome_name(row, &outcome.code);
    say_frame(row, &name, Frame::Outcome(outcome));
}

/// Says replies in order, or why there are none.
pub fn say_all<R: Reply + Drop, E: Debug + Drop>(row: &mut Row<'_>, replies: Result<Vec<R>, E>) {
    if let Some(replies) = row.get(replies) {
        for reply in &replies {
            reply.say(row);
        }
    }
}
