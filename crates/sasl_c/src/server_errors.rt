//! The errors that a server sends in the place of a message (RFC 5802, section 7).

ghost use Rattle.std.specs.Prelude.{◌≡◌, ◌≢◌, ◌++◌, ◌∷◌, [], Err, IfErr, IfOk, MatchOption, Ok};
ghost use Rattle.fe2o3_scram.specs.ServerErrors.{error_name};
ghost use Rattle.fe2o3_scram.specs.declared.scram_messages.error.ServerScramErrorKind.{ServerScramErrorKind as Kinds};
ghost use Rattle.fe2o3_scram.specs.declared.scram_messages.server_error.ServerError.{ServerError as Errors};
ghost use Rattle.sasl_c.specs.ServerErrors.{IsErrorText, IsNumberOf, Reports, SpellsReport, error_number};
ghost use Rattle.sasl_c.specs.Status.{AnswersText, AsksText, AsksWhere, Fills, server_number};
ghost use Rattle.sasl_c.specs.declared.status.Status.TheVariants.{OutOfMemory as StatusOutOfMemory};

use crate::arrays::write;
use crate::status::{Status, text_number};
use crate::texts::Text;
use fe2o3_scram::{ServerError, ServerScramErrorKind};

/// Returns the number of an error.
fn error_number(error: ServerError) -> u32
    ensures { result ≡ error_number error }
{
    match error {
        ServerError::InvalidEncoding => 1,
        ServerError::ExtensionsNotSupported => 2,
        ServerError::InvalidProof => 3,
        ServerError::ChannelBindingsDontMatch => 4,
        ServerError::ServerDoesSupportChannelBinding => 5,
        ServerError::ChannelBindingNotSupported => 6,
        ServerError::UnsupportedChannelBindingType => 7,
        ServerError::UnknownUser => 8,
        ServerError::InvalidUsernameEncoding => 9,
        ServerError::NoResources => 10,
        ServerError::OtherError => 11,
    }
}

/// Returns the error of a number.
fn error_of(number: u32) -> Option<ServerError>
    ensures { MatchOption result ((error : Errors) → error_number error ≢ number)
        (λ error. error_number error ≡ number) }
{
    match number {
        1 => Some(ServerError::InvalidEncoding),
        2 => Some(ServerError::ExtensionsNotSupported),
        3 => Some(ServerError::InvalidProof),
        4 => Some(ServerError::ChannelBindingsDontMatch),
        5 => Some(ServerError::ServerDoesSupportChannelBinding),
        6 => Some(ServerError::ChannelBindingNotSupported),
        7 => Some(ServerError::UnsupportedChannelBindingType),
        8 => Some(ServerError::UnknownUser),
        9 => Some(ServerError::InvalidUsernameEncoding),
        10 => Some(ServerError::NoResources),
        11 => Some(ServerError::OtherError),
        _ => None,
    }
}

/// Returns the number of the error that a message is, or 0.
fn number_in(message: &[u8]) -> u32
    ensures { IsNumberOf message.now result }
{
    match ServerError::parse(message) {
        Some(error) => error_number(error),
        None => 0,
    }
}

/// Returns which error of the server a message is, or 0 (FE2O3_SERVER_ERROR_NONE) if it is none. The result is one of
/// enum fe2o3_server_error.
///
/// A server may send an error in the place of any message, such as `e=invalid-proof` after a wrong password (RFC 5802,
/// section 7). A value that RFC 5802 does not name is FE2O3_SERVER_ERROR_OTHER_ERROR. The message is not authenticated:
/// anyone who can alter the connection can write it.
#[unsafe(no_mangle)]
pub extern "C" fn fe2o3_scram_server_error(message: &[u8]) -> u32
    ensures { IsNumberOf message.now result }
{
    number_in(message)
}

/// Returns the name of an error, and a zero byte.
fn text_of_error(error: ServerError) -> &'static [u8]
    ensures { result.now ≡ error_name error ++ (0 ∷ []) }
{
    match error {
        ServerError::InvalidEncoding => b"invalid-encoding\0",
        ServerError::ExtensionsNotSupported => b"extensions-not-supported\0",
        ServerError::InvalidProof => b"invalid-proof\0",
        ServerError::ChannelBindingsDontMatch => b"channel-bindings-dont-match\0",
        ServerError::ServerDoesSupportChannelBinding => b"server-does-support-channel-binding\0",
        ServerError::ChannelBindingNotSupported => b"channel-binding-not-supported\0",
        ServerError::UnsupportedChannelBindingType => b"unsupported-channel-binding-type\0",
        ServerError::UnknownUser => b"unknown-user\0",
        ServerError::InvalidUsernameEncoding => b"invalid-username-encoding\0",
        ServerError::NoResources => b"no-resources\0",
        ServerError::OtherError => b"other-error\0",
    }
}

/// Returns the text of a number.
fn error_text(number: u32) -> &'static [u8]
    ensures { IsErrorText number result.now }
{
    match error_of(number) {
        Some(error) => text_of_error(error),
        None => b"No server error\0",
    }
}

/// Writes the name of a server's error to `text`, as RFC 5802 spells it. `error` is one of enum fe2o3_server_error. The
/// text ends with a zero byte and stays valid for as long as the library is loaded.
#[unsafe(no_mangle)]
pub extern "C" fn fe2o3_scram_server_error_text(error: u32, text: &mut Text<'static>)
    ensures { IsErrorText error text.new.bytes.now }
{
    text.bytes = error_text(error);
}

/// Returns the kind of a server's error, of its status.
fn kind_of(status: u32) -> Option<ServerScramErrorKind>
    ensures { MatchOption result ((kind : Kinds) → server_number kind ≢ status)
        (λ kind. server_number kind ≡ status) }
{
    match status {
        1 => Some(ServerScramErrorKind::OutOfMemory),
        40 => Some(ServerScramErrorKind::Utf8Error),
        41 => Some(ServerScramErrorKind::CannotParseGs2Header),
        42 => Some(ServerScramErrorKind::CannotParseUsername),
        43 => Some(ServerScramErrorKind::CannotParseClientNonce),
        44 => Some(ServerScramErrorKind::HmacErrorInvalidLength),
        45 => Some(ServerScramErrorKind::XorLengthMismatch),
        46 => Some(ServerScramErrorKind::NormalizeError),
        47 => Some(ServerScramErrorKind::CannotParseClientFinalMessage),
        48 => Some(ServerScramErrorKind::InvalidChannelBinding),
        49 => Some(ServerScramErrorKind::Base64DecodeError),
        50 => Some(ServerScramErrorKind::IncorrectClientFinalNonce),
        51 => Some(ServerScramErrorKind::ProofNotFoundInClientFinal),
        52 => Some(ServerScramErrorKind::AuthenticationFailed),
        53 => Some(ServerScramErrorKind::IllegalAuthenticatorState),
        54 => Some(ServerScramErrorKind::MisplacedAttribute),
        _ => None,
    }
}

/// Returns the error by which a server reports a status.
fn reported(status: u32) -> ServerError
    ensures { Reports status result }
{
    match kind_of(status) {
        Some(kind) => ServerError::of(kind),
        None if status == 68 => ServerError::of_unknown_user(),
        None => ServerError::OtherError,
    }
}

/// Returns the message by which a server reports a status.
fn message_of(status: u32) -> Result<&'static [u8], Status>
    ensures ok { IfOk result (λ message. SpellsReport status (Ok message.now)) }
    ensures err { IfErr result (λ why. why ≢ StatusOutOfMemory → SpellsReport status (Err why)) }
    ensures memory { AsksWhere ⊥ result }
{
    Ok(reported(status).message().as_bytes())
}

/// Writes the message by which a server reports to its client why a call failed with this status: `e=` and a name (RFC
/// 5802, section 7). The status is one that a call of the server over messages returned, or FE2O3_NO_SUCH_USER.
///
/// An unknown user, a mock record and a wrong proof have one message, `e=invalid-proof`. A status that no name of RFC 5802
/// describes has `e=other-error`. `unknown-user`, `extensions-not-supported`, and the errors of channel binding
/// other than `channel-bindings-dont-match` are never written.
#[unsafe(no_mangle)]
#[tactic(auto, using(crate::proofs::StatusLemmas::written))]
pub extern "C" fn fe2o3_scram_server_error_message(
    status: u32,
    out: &mut [u8],
    out_len: &mut usize,
) -> u32
    ensures { AnswersText result (λ answer. Fills (SpellsReport status) (record { bytes = out.old; len = out_len.old })
        (record { bytes = out.new; len = out_len.new }) answer × AsksText ⊥ answer) }
{
    text_number(write(message_of(status), out, out_len))
}
