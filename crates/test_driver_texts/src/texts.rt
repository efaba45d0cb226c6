//! The texts of errors, the `Debug` texts of values with secrets, and their clones.

use crate::options::{record_of, single_of, user_of, users_of};
use crate::words::keys_of;
use fe2o3_scram::secrets::{SecretBytes, SecretText};
use fe2o3_scram::*;
use saslprep::SaslprepError;
use std::fmt::{Debug, Display};
use test_rows::{Row, call};

/// Says the text of the kind of an error that has this name.
macro_rules! say_kind {
    ($row:ident, $type:ident: $($kind:ident)*) => {
        say_one_of($row, &[$($type::$kind),*])
    };
}

/// Says the text of the kind that the next word names.
fn say_one_of<T: Debug + Display>(row: &mut Row<'_>, kinds: &[T]) {
    let name = row.word();
    for kind in kinds {
        row.show(kind);
        if row.take_answer().as_str() == name {
            return row.say(format_args!("{kind}"));
        }
    }
    row.refuse(name);
}

/// Says the text of an error: `TYPE KIND`, or `TYPE` of one without kinds.
pub fn text(row: &mut Row<'_>) {
    match row.word() {
        "ScramErrorKind" =>
            say_kind!(row, ScramErrorKind: Utf8Error InsufficientParts ExtensionNotSupported
            NonceNotFound ClientNonceMismatch SaltNotFound Base64DecodeError IterationCountNotFound
            IterationCountParseError IterationCountTooSmall IterationCountTooLarge MisplacedAttribute NormalizeError
            StaleKeys HmacErrorInvalidLength XorLengthMismatch IllegalClientState ServerSignatureMismatch OutOfMemory),
        "ServerScramErrorKind" =>
            say_kind!(row, ServerScramErrorKind: Utf8Error CannotParseGs2Header
            CannotParseUsername CannotParseClientNonce HmacErrorInvalidLength XorLengthMismatch NormalizeError
            CannotParseClientFinalMessage InvalidChannelBinding Base64DecodeError IncorrectClientFinalNonce
            ProofNotFoundInClientFinal MisplacedAttribute AuthenticationFailed IllegalAuthenticatorState OutOfMemory),
        "RecordTextError" => say_kind!(row, RecordTextError: PartsMismatch UnknownMechanism
            IterationCountParseError Base64DecodeError KeyLengthMismatch OutOfMemory),
        "RecordError" => say_kind!(row, RecordError: NormalizeError ZeroIterations OutOfMemory),
        "KeyError" => say_kind!(row, KeyError: NormalizeError OutOfMemory),
        "UnescapeError" => say_kind!(row, UnescapeError: Invalid OutOfMemory),
        "AddRecordError" => say_kind!(row, AddRecordError: VersionMismatch OutOfMemory),
        "WriteLinesError" => say_kind!(row, WriteLinesError: UserNotWritable OutOfMemory),
        "ClientSecretError" => say_kind!(row, ClientSecretError: VersionMismatch OutOfMemory),
        "SaslprepError" => say_kind!(row, SaslprepError: MixedDirections OutOfMemory),
        "Prohibited" => row.say(SaslprepError::ProhibitedCharacter('\u{7}')),
        "Unassigned" => row.say(SaslprepError::UnassignedCodePoint('\u{1D7CA}')),
        "ChannelDataLength" => row.say(ChannelDataLength),
        "NormalizeError" => row.say(NormalizeError),
        "SaltTooLong" => row.say(SaltTooLong),
        "UnknownMechanism" => row.say(UnknownMechanism),
        "XorLengthMismatch" => row.say(XorLengthMismatch),
        "lines" => {
            let users = MultiRecordStore::parse_lines(row.alloc, &row.text());
            if let Err(error) = &users {
                row.say(format_args!("{error}"));
            }
            drop(users);
        }
        word => row.refuse(word),
    }
}

/// Clones a value, if it was made, and says the `Debug` text of the clone.
fn show_clone<T: Clone + Debug + Drop>(value: Option<T>, row: &mut Row<'_>, call: &'static str) {
    if let Some(value) = value {
        let copy = call!(row: call => value.clone());
        row.show_made(&copy);
    }
}

/// Says the `Debug` text of a clone, without keys and passwords, or the clone of a secret: `KIND` and the words of the value.
pub fn clone(row: &mut Row<'_>) {
    match row.word() {
        "record" => show_clone(Some(record_of(row)), row, "ScramRecord::clone"),
        "user" => show_clone(Some(user_of(row)), row, "UserRecord::clone"),
        "users" => show_clone(Some(users_of(row)), row, "RecordStore::clone"),
        "one" => show_clone(single_of(row), row, "SingleScramCredential::clone"),
        "keys" => show_clone(keys_of(row), row, "CachedKeys::clone"),
        "secret-text" => secret_text(row),
        "secret-bytes" => secret_bytes(row),
        "stored" => {
            let record = record_of(row);
            row.show(&record.as_stored_password());
        }
        "versions" => {
            let users = MultiRecordStore::parse_lines(row.alloc, &row.text());
            if let Ok(users) = &users {
                row.show(users);
            }
            drop(users);
        }
        word => row.refuse(word),
    }
}

/// Says the clone of a secret text: `TEXT`.
fn secret_text(row: &mut Row<'_>) {
    let (alloc, text) = (row.alloc, row.text());
    let secret = call!(row: "SecretText::from_str" => SecretText::from_str(alloc, &text));
    if let Some(secret) = row.get(secret) {
        let copy = call!(row: "SecretText::clone" => secret.clone());
        if let Some(copy) = row.get(copy) {
            row.say(copy.as_str());
        }
    }
}

/// Says the clone of secret bytes: `BYTES`, in hexadecimal digits.
fn secret_bytes(row: &mut Row<'_>) {
    let (alloc, bytes) = (row.alloc, row.digits());
    let secret = call!(row: "SecretBytes::from_slice" => SecretBytes::from_slice(alloc, &bytes));
    if let Some(secret) = row.get(secret) {
        let copy = call!(row: "SecretBytes::clone" => secret.clone());
        if let Some(copy) = row.get(copy) {
            row.say_digits(copy.as_slice());
        }
    }
}
