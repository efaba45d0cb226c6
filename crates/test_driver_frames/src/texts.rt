//! Texts of errors, and `Debug` texts of values, which show no password, no key and no message.

use fe2o3_sasl::*;
use fe2o3_sasl_wire::{Binary, Error, NegotiationError, SaslCode, SaslOutcome, SymbolError};
use std::fmt::{Debug, Display};
use test_rows::Row;

/// Says the text of each of these errors of a type.
macro_rules! say_each {
    ($row:ident, $type:ident: $($kind:ident$(($of:expr))?)*) => {
        say_texts($row, &[$($type::$kind$(($of))?),*])
    };
}

/// Says the text of each error of a list.
fn say_texts<T: Debug + Display>(row: &mut Row<'_>, errors: &[T]) {
    for error in errors {
        let text = format!(in row.alloc; "{error:?}: {error};");
        let text = row.made(text, String::new(row.alloc));
        row.say(text);
    }
}

/// Says the text of each error of a type.
pub fn errors(row: &mut Row<'_>) {
    match row.word() {
        "Error" => say_each!(row, Error: DecodeError NotImplemented TooLarge OutOfMemory),
        "SymbolError" => say_each!(row, SymbolError: NotAscii OutOfMemory),
        "Rejection" => say_each!(row, Rejection: MechanismNotOffered NoInitialResponse
            InvalidMessage Scram(ServerScramErrorKind::AuthenticationFailed) Channel UnknownUser
            NoRecordForHash NoRight WrongProof WrongPassword OtherIdentity UnexpectedInit
            UnexpectedResponse Other),
        "ProfileError" => say_each!(row, ProfileError: NotImplemented
            Scram(ScramErrorKind::Utf8Error) StaleKeys Frame(Error::DecodeError) OutOfMemory),
        "UrlError" => say_each!(row, UrlError: NoCredentials OutOfMemory),
        "EventError" => say_each!(row, EventError: Invalid OutOfMemory),
        "ChoiceError" => say_each!(row, ChoiceError: NoAcceptableMechanism OutOfMemory),
        _ => {
            say_each!(row, NegotiationError: ProtocolHeaderMismatch(*b"AMQP\x01\x01\x00\x00"));
            say_each!(row, AuditError: OutOfMemory);
        }
    }
}

/// Says the `Debug` text of a reply, a finding, acceptors or a verdict with these bytes.
pub fn shown(row: &mut Row<'_>) {
    let (kind, body, other) = (row.word(), row.bytes(), row.bytes());
    match kind {
        "init" => show(row, ClientReply::Init { body }),
        "response" => show(row, ClientReply::Response { body }),
        "outcome" => row.show(&ClientReply::Outcome(SaslOutcome {
            code: SaslCode::Auth,
            additional_data: Some(Binary(body)),
        })),
        "sent" => {
            let code = SaslCode::Sys;
            show(row, ServerReply::Outcome { code, body });
        }
        "other-key" => row.show(&Finding {
            kind: FindingKind::Proof,
            client: 1,
            server: 2,
            verdict: Verdict::OtherKey,
        }),
        "acceptors" => {
            let plain = SaslPlainMechanism::new(row.text(), row.text());
            show(row, plain);
            row.show(&SaslAnonymousMechanism::new());
        }
        _ => {
            let verdict = verdict_of(row, kind, body, other);
            show(row, verdict);
        }
    }
}

fn show<T: Debug + Drop>(row: &mut Row<'_>, value: T) {
    row.show(&value);
}

/// Returns a verdict of a kind with these bytes.
fn verdict_of(row: &mut Row<'_>, kind: &str, client_key: Vec<u8>, other: Vec<u8>) -> Verdict {
    match kind {
        "same-mac" => Verdict::SameMac {
            client_key,
            client_text: other,
            server_key: row.bytes(),
            server_text: row.bytes(),
        },
        "same-hash" => Verdict::SameHash {
            client_key,
            recovered_key: other,
        },
        _ => Verdict::Agreed {
            username: row.text(),
            client_nonce: row.text(),
            parameters: Some(Parameters {
                full_nonce: row.text(),
                salt: row.digits(),
                iterations: row.number(),
            }),
        },
    }
}
