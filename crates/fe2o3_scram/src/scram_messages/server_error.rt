//! The error that a server sends in the place of a message (RFC 5802, section 7, `server-error`).

ghost use Rattle.std.specs.Prelude.{◌≡◌, ◌≢◌, MatchOption};
ghost use Rattle.fe2o3_scram.specs.ServerErrors.{IsErrorValue, NamesServerError, error_message, error_name, kind_error};
ghost use Rattle.fe2o3_scram.specs.declared.scram_messages.error.ServerScramErrorKind.TheVariants.{AuthenticationFailed};
ghost use Rattle.fe2o3_scram.specs.declared.scram_messages.server_error.ServerError.{ServerError as Error};

use crate::scram_messages::attributes::ERROR_KEY;
use crate::scram_messages::error::ServerScramErrorKind;
use crate::texts::attribute;
use std::fmt;

/// Why a server ends an exchange, as it reports it in the place of a message (RFC 5802, section 7). The report is not
/// authenticated: anyone who can alter the connection can write it.
#[derive(Debug, Clone, Copy, PartialEq, Eq)]
pub enum ServerError {
    /// `invalid-encoding`
    InvalidEncoding,

    /// `extensions-not-supported`: the server does not support a mandatory extension.
    ExtensionsNotSupported,

    /// `invalid-proof`: the password is wrong, or the user is unknown.
    InvalidProof,

    /// `channel-bindings-dont-match`
    ChannelBindingsDontMatch,

    /// `server-does-support-channel-binding`: the client assumed that the server does not.
    ServerDoesSupportChannelBinding,

    /// `channel-binding-not-supported`
    ChannelBindingNotSupported,

    /// `unsupported-channel-binding-type`
    UnsupportedChannelBindingType,

    /// `unknown-user`: other servers report it. It reveals which users exist.
    UnknownUser,

    /// `invalid-username-encoding`: the user name is not UTF-8, or SASLprep rejects it.
    InvalidUsernameEncoding,

    /// `no-resources`
    NoResources,

    /// `other-error`, and every value that RFC 5802 does not name.
    OtherError,
}

impl ServerError {
    /// Reads a server message that is an error: its first part is `e=` and a value. Parts after the first are ignored. A
    /// value that RFC 5802 does not name is `OtherError`. Returns `None` for any other text, and for a text that is not
    /// UTF-8.
    ///
    /// A client calls it where `validate_server_final` returns `ServerSignatureMismatch`, to distinguish an error of the
    /// server from a wrong signature.
    pub fn parse(text: &[u8]) -> Option<ServerError>
        ensures { MatchOption result ((error : Error) → ¬ NamesServerError text.now error)
            (λ error. NamesServerError text.now error) }
    {
        let Ok(message) = str::from_utf8(text) else {
            return None;
        };
        match attribute(message, 0, ERROR_KEY) {
            Some(value) => Some(ServerError::of_value(value)),
            None => None,
        }
    }

    /// Returns the error by which a server reports why it rejects a message.
    pub fn of(kind: ServerScramErrorKind) -> ServerError
        ensures { result ≡ kind_error kind }
    {
        match kind {
            ServerScramErrorKind::Utf8Error | ServerScramErrorKind::Base64DecodeError => {
                ServerError::InvalidEncoding
            }
            ServerScramErrorKind::CannotParseUsername => ServerError::InvalidUsernameEncoding,
            ServerScramErrorKind::InvalidChannelBinding => ServerError::ChannelBindingsDontMatch,
            ServerScramErrorKind::AuthenticationFailed | ServerScramErrorKind::XorLengthMismatch =>
                ServerError::InvalidProof,
            ServerScramErrorKind::OutOfMemory => ServerError::NoResources,
            ServerScramErrorKind::CannotParseGs2Header
            | ServerScramErrorKind::CannotParseClientNonce
            | ServerScramErrorKind::HmacErrorInvalidLength
            | ServerScramErrorKind::NormalizeError
            | ServerScramErrorKind::CannotParseClientFinalMessage
            | ServerScramErrorKind::IncorrectClientFinalNonce
            | ServerScramErrorKind::ProofNotFoundInClientFinal
            | ServerScramErrorKind::MisplacedAttribute
            | ServerScramErrorKind::IllegalAuthenticatorState => ServerError::OtherError,
        }
    }

    /// Returns the error by which a server reports an unknown user: that of a wrong proof, so it does not reveal which
    /// users exist.
    pub fn of_unknown_user() -> ServerError
        ensures { result ≡ kind_error AuthenticationFailed }
    {
        ServerError::of(ServerScramErrorKind::AuthenticationFailed)
    }

    /// Returns the error with this name, or `None` for any other text.
    fn from_name(name: &str) -> Option<ServerError>
        ensures { MatchOption result ((error : Error) → error_name error ≢ name.now)
            (λ error. error_name error ≡ name.now) }
    {
        match name {
            "invalid-encoding" => Some(ServerError::InvalidEncoding),
            "extensions-not-supported" => Some(ServerError::ExtensionsNotSupported),
            "invalid-proof" => Some(ServerError::InvalidProof),
            "channel-bindings-dont-match" => Some(ServerError::ChannelBindingsDontMatch),
            "server-does-support-channel-binding" => {
                Some(ServerError::ServerDoesSupportChannelBinding)
            }
            "channel-binding-not-supported" => Some(ServerError::ChannelBindingNotSupported),
            "unsupported-channel-binding-type" => Some(ServerError::UnsupportedChannelBindingType),
            "unknown-user" => Some(ServerError::UnknownUser),
            "invalid-username-encoding" => Some(ServerError::InvalidUsernameEncoding),
            "no-resources" => Some(ServerError::NoResources),
            "other-error" => Some(ServerError::OtherError),
            _ => None,
        }
    }

    /// Returns the error of this value.
    fn of_value(value: &str) -> ServerError
        ensures { IsErrorValue value.now result }
    {
        match ServerError::from_name(value) {
            Some(error) => error,
            None => ServerError::OtherError,
        }
    }

    /// Returns the message: `e=` and the name.
    pub fn message(self) -> &'static str
        ensures { result.now ≡ error_message self }
    {
        match self {
            ServerError::InvalidEncoding => "e=invalid-encoding",
            ServerError::ExtensionsNotSupported => "e=extensions-not-supported",
            ServerError::InvalidProof => "e=invalid-proof",
            ServerError::ChannelBindingsDontMatch => "e=channel-bindings-dont-match",
            ServerError::ServerDoesSupportChannelBinding => {
                "e=server-does-support-channel-binding"
            }
            ServerError::ChannelBindingNotSupported => "e=channel-binding-not-supported",
            ServerError::UnsupportedChannelBindingType => "e=unsupported-channel-binding-type",
            ServerError::UnknownUser => "e=unknown-user",
            ServerError::InvalidUsernameEncoding => "e=invalid-username-encoding",
            ServerError::NoResources => "e=no-resources",
            ServerError::OtherError => "e=other-error",
        }
    }

    /// Returns the name, as RFC 5802 spells it.
    pub fn name(self) -> &'static str
        ensures { result.now ≡ error_name self }
    {
        match self {
            ServerError::InvalidEncoding => "invalid-encoding",
            ServerError::ExtensionsNotSupported => "extensions-not-supported",
            ServerError::InvalidProof => "invalid-proof",
            ServerError::ChannelBindingsDontMatch => "channel-bindings-dont-match",
            ServerError::ServerDoesSupportChannelBinding => "server-does-support-channel-binding",
            ServerError::ChannelBindingNotSupported => "channel-binding-not-supported",
            ServerError::UnsupportedChannelBindingType => "unsupported-channel-binding-type",
            ServerError::UnknownUser => "unknown-user",
            ServerError::InvalidUsernameEncoding => "invalid-username-encoding",
            ServerError::NoResources => "no-resources",
            ServerError::OtherError => "other-error",
        }
    }
}

impl fmt::Display for ServerError {
    /// Writes the name.
    fn fmt<W: fmt::Write>(&self, f: &mut fmt::Formatter<W>) -> fmt::Result {
        f.write_str(self.name())
    }
}
