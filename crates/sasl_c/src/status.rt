//! The status that a call returns.

ghost use Rattle.std.specs.Prelude.{◌≡◌, ◌≢◌, ◌≤◌, MatchOption, MatchResult};
ghost use Rattle.fe2o3_scram.specs.Hmac.{digest_len};
ghost use Rattle.sasl_c.specs.declared.status.WriteError.TheVariants.{Other as OtherError};
ghost use Rattle.sasl_c.specs.Status.{answer_number, text_answer_number, client_number, client_status, server_number, server_status, status_number, record_text_number, version_number};
ghost use Rattle.sasl_c.specs.declared.status.Status.TheVariants.{OutOfMemory as StatusOutOfMemory, NotUtf8 as StatusNotUtf8};
ghost use Rattle.std.specs.Str.{IsUtf8};
ghost use Rattle.fe2o3_scram.specs.declared.hmac.ScramVersion.{ScramVersion};

use fe2o3_scram::{RecordTextError, ScramErrorKind, ScramVersion, ServerScramErrorKind};
use std::alloc::AllocError;

/// Why a call fails.
#[derive(Clone, Copy)]
pub enum Status {
    /// An allocation failed. Nothing has changed, and you can repeat the call.
    OutOfMemory,

    /// A text is not UTF-8.
    NotUtf8,

    /// The version is none of enum fe2o3_scram_version.
    NoSuchVersion,

    /// A text is longer than the array that holds it, an identity to act for has more than 256 bytes, or the salts of mock
    /// records have more than 64.
    TooLong,

    /// The typed password is not printable ASCII.
    NotPrintable,

    /// The iteration count is 0.
    ZeroIterations,

    /// The secret is none of enum fe2o3_secret.
    NoSuchSecret,

    /// The struct holds no keys.
    NoKeys,

    /// The keys, or the record on a line, are of another version.
    OtherVersion,

    /// The password is not that of the record.
    OtherPassword,

    /// The mechanism is none of enum fe2o3_mechanism, or the offer of a server is empty or not a sum of values of enum
    /// fe2o3_offer.
    NoSuchMechanism,

    /// The connection has ended: its `progress` is not FE2O3_IN_PROGRESS.
    Ended,

    /// The struct of the connection has a value that no call writes.
    InvalidSnapshot,

    /// The message of PLAIN claims no user name, or the user name for a message of PLAIN is empty.
    NamesNoUser,

    /// The server needs the records of the user whose name is in `out`. Nothing has changed: look the user up, and repeat
    /// the call with the same bytes.
    NeedsRecords,

    /// A client rejects a message of the server.
    Client(ScramErrorKind),

    /// A server rejects a message of the client.
    Server(ServerScramErrorKind),

    /// The text cannot be parsed as a record.
    NoRecord(RecordTextError),

    /// The last line does not end with a line feed.
    LineFeedMissing,

    /// The line has no space.
    SpaceMissing,

    /// The text before the last space of the line is not an escaped user name.
    InvalidName,

    /// No line has a record of this version for this user.
    NoSuchUser,

    /// The user name contains a line feed, or the iteration count is 0.
    NotWritable,

    /// The peer sent another protocol header than that of SASL.
    ProtocolHeaderMismatch,

    /// The frame has fewer than 8 or more than 512 bytes.
    FrameSize,

    /// The peer sent another frame than the expected one.
    UnexpectedFrame,

    /// The reply does not fit into a frame of 512 bytes.
    ReplyTooLarge,

    /// The frame cannot be parsed.
    MalformedFrame,

    /// The frame has another type or data offset than a SASL frame.
    NoSaslFrame,

    /// A size inside the frame exceeds 32 bits.
    FrameTooLarge,

    /// The client cannot answer this frame, the server does not offer this mechanism, or the login names an identity to
    /// act for and its mechanism is ANONYMOUS or EXTERNAL.
    NotImplemented,

    /// The server rejected the login: the credentials are wrong.
    RefusedAuth,

    /// The server rejected the login because of a system error.
    RefusedSys,

    /// The server rejected the login because of a permanent system error.
    RefusedSysPerm,

    /// The server rejected the login because of a temporary system error.
    RefusedSysTemp,

    /// The argument `unassigned` is none of enum fe2o3_unassigned, a form none of enum fe2o3_password_form, `passwords`
    /// none of enum fe2o3_plain_passwords, or the flags of a server no sum of values of enum fe2o3_server_flag.
    NoSuchChoice,

    /// The prepared text contains a character that RFC 4013, section 2.3, prohibits, or a word for a message of PLAIN
    /// (RFC 4616, section 2) or an identity to act for (RFC 4422, section 3.4.1) contains a zero byte.
    ProhibitedCharacter,

    /// The prepared text mixes right-to-left and left-to-right characters, or does not begin and end with a
    /// right-to-left one (RFC 3454, section 6).
    MixedDirections,

    /// The text, or the prepared text, contains a code point that Unicode 3.2 does not assign.
    UnassignedCodePoint,

    /// The server sent an error in the place of its signature, such as `e=invalid-proof` for a wrong password.
    /// fe2o3_scram_server_error says which.
    ServerError,

    /// The other side ended its stream before the login was complete.
    EndOfInput,

    /// The data of a channel are empty or have more than 64 bytes (RFC 5802, section 7).
    ChannelDataLength,

    /// The use of a channel is none of enum fe2o3_channel_use, or its kind none of enum fe2o3_channel_kind.
    NoSuchChannel,

    /// The password for a message of PLAIN is empty (RFC 4616, section 2).
    EmptyPassword,
}

/// Why a call that writes a text fails.
#[derive(Clone, Copy)]
pub enum WriteError {
    /// `out` is too small. Nothing has changed, and `out_len` says how many bytes suffice.
    RoomTooSmall,

    /// There is no text.
    Other(Status),
}

impl From<Status> for WriteError {
    ghost from_gives = { λ status why. why ≡ OtherError status };

    fn from(status: Status) -> Self {
        WriteError::Other(status)
    }
}

impl From<AllocError> for Status {
    ghost from_gives = { λ _ status. status ≡ StatusOutOfMemory };

    fn from(_error: AllocError) -> Self {
        Status::OutOfMemory
    }
}

impl From<ScramErrorKind> for Status {
    ghost from_gives = { λ why status. status ≡ client_status why };

    fn from(why: ScramErrorKind) -> Self {
        match why {
            ScramErrorKind::OutOfMemory => Status::OutOfMemory,
            why => Status::Client(why),
        }
    }
}

impl From<ServerScramErrorKind> for Status {
    ghost from_gives = { λ why status. status ≡ server_status why };

    fn from(why: ServerScramErrorKind) -> Self {
        match why {
            ServerScramErrorKind::OutOfMemory => Status::OutOfMemory,
            why => Status::Server(why),
        }
    }
}

impl Status {
    /// Returns the number that a call returns for this status.
    pub fn number(self) -> u32
        ensures { result ≡ status_number self }
    {
        match self {
            Status::OutOfMemory => 1,
            Status::NotUtf8 => 3,
            Status::NoSuchVersion => 4,
            Status::TooLong => 5,
            Status::NotPrintable => 6,
            Status::ZeroIterations => 7,
            Status::NoSuchSecret => 8,
            Status::NoKeys => 9,
            Status::OtherVersion => 10,
            Status::OtherPassword => 11,
            Status::NoSuchMechanism => 12,
            Status::Ended => 13,
            Status::InvalidSnapshot => 14,
            Status::NamesNoUser => 15,
            Status::NeedsRecords => 16,
            Status::Client(why) => client_number(why),
            Status::Server(why) => server_number(why),
            Status::NoRecord(why) => record_text_number(why),
            Status::LineFeedMissing => 65,
            Status::SpaceMissing => 66,
            Status::InvalidName => 67,
            Status::NoSuchUser => 68,
            Status::NotWritable => 69,
            Status::ProtocolHeaderMismatch => 70,
            Status::FrameSize => 71,
            Status::UnexpectedFrame => 72,
            Status::ReplyTooLarge => 73,
            Status::MalformedFrame => 74,
            Status::NoSaslFrame => 75,
            Status::FrameTooLarge => 76,
            Status::NotImplemented => 77,
            Status::RefusedAuth => 81,
            Status::RefusedSys => 82,
            Status::RefusedSysPerm => 83,
            Status::RefusedSysTemp => 84,
            Status::NoSuchChoice => 85,
            Status::ProhibitedCharacter => 86,
            Status::MixedDirections => 87,
            Status::UnassignedCodePoint => 88,
            Status::ServerError => 89,
            Status::EndOfInput => 90,
            Status::ChannelDataLength => 91,
            Status::NoSuchChannel => 92,
            Status::EmptyPassword => 93,
        }
    }
}

/// Returns the number of an error of a client.
fn client_number(why: ScramErrorKind) -> u32
    ensures { result ≡ client_number why }
{
    match why {
        ScramErrorKind::Utf8Error => 20,
        ScramErrorKind::InsufficientParts => 21,
        ScramErrorKind::ExtensionNotSupported => 22,
        ScramErrorKind::NonceNotFound => 23,
        ScramErrorKind::ClientNonceMismatch => 24,
        ScramErrorKind::SaltNotFound => 25,
        ScramErrorKind::Base64DecodeError => 26,
        ScramErrorKind::IterationCountNotFound => 27,
        ScramErrorKind::IterationCountParseError => 28,
        ScramErrorKind::IterationCountTooSmall => 29,
        ScramErrorKind::IterationCountTooLarge => 30,
        ScramErrorKind::NormalizeError => 31,
        ScramErrorKind::StaleKeys => 32,
        ScramErrorKind::HmacErrorInvalidLength => 33,
        ScramErrorKind::XorLengthMismatch => 34,
        ScramErrorKind::IllegalClientState => 35,
        ScramErrorKind::ServerSignatureMismatch => 36,
        ScramErrorKind::MisplacedAttribute => 37,
        ScramErrorKind::OutOfMemory => 1,
    }
}

/// Returns the number of an error of a server.
pub fn server_number(why: ServerScramErrorKind) -> u32
    ensures { result ≡ server_number why }
{
    match why {
        ServerScramErrorKind::Utf8Error => 40,
        ServerScramErrorKind::CannotParseGs2Header => 41,
        ServerScramErrorKind::CannotParseUsername => 42,
        ServerScramErrorKind::CannotParseClientNonce => 43,
        ServerScramErrorKind::HmacErrorInvalidLength => 44,
        ServerScramErrorKind::XorLengthMismatch => 45,
        ServerScramErrorKind::NormalizeError => 46,
        ServerScramErrorKind::CannotParseClientFinalMessage => 47,
        ServerScramErrorKind::InvalidChannelBinding => 48,
        ServerScramErrorKind::Base64DecodeError => 49,
        ServerScramErrorKind::IncorrectClientFinalNonce => 50,
        ServerScramErrorKind::ProofNotFoundInClientFinal => 51,
        ServerScramErrorKind::AuthenticationFailed => 52,
        ServerScramErrorKind::IllegalAuthenticatorState => 53,
        ServerScramErrorKind::MisplacedAttribute => 54,
        ServerScramErrorKind::OutOfMemory => 1,
    }
}

/// Returns the number of an error of a record's text.
fn record_text_number(why: RecordTextError) -> u32
    ensures { result ≡ record_text_number why }
{
    match why {
        RecordTextError::PartsMismatch => 60,
        RecordTextError::UnknownMechanism => 61,
        RecordTextError::IterationCountParseError => 62,
        RecordTextError::Base64DecodeError => 63,
        RecordTextError::KeyLengthMismatch => 64,
        RecordTextError::OutOfMemory => 1,
    }
}

/// Returns the number of an answer: 0 if the call succeeded.
pub fn number(answer: Result<(), Status>) -> u32
    ensures { result ≡ answer_number answer }
{
    match answer {
        Ok(()) => 0,
        Err(status) => status.number(),
    }
}

/// Returns the number of an answer of a call that writes a text: 0 if the call succeeded.
pub fn text_number(answer: Result<(), WriteError>) -> u32
    ensures { result ≡ text_answer_number answer }
{
    match answer {
        Ok(()) => 0,
        Err(WriteError::RoomTooSmall) => 2,
        Err(WriteError::Other(status)) => status.number(),
    }
}

/// Returns the version of a number.
pub fn version_of(number: u32) -> Option<ScramVersion>
    ensures { MatchOption result ((version : ScramVersion) → version_number version ≢ number)
        (λ version. version_number version ≡ number) }
{
    match number {
        1 => Some(ScramVersion::Sha1),
        256 => Some(ScramVersion::Sha256),
        512 => Some(ScramVersion::Sha512),
        _ => None,
    }
}

/// Returns the number of a version.
pub fn number_of(version: ScramVersion) -> u32
    ensures { result ≡ version_number version }
{
    match version {
        ScramVersion::Sha1 => 1,
        ScramVersion::Sha256 => 256,
        ScramVersion::Sha512 => 512,
    }
}

/// Returns the length of a digest of the version, in bytes.
pub fn digest_len(version: ScramVersion) -> usize
    ensures len { result ≡ digest_len version }
    ensures short { result ≤ 64 }
{
    match version {
        ScramVersion::Sha1 => 20,
        ScramVersion::Sha256 => 32,
        ScramVersion::Sha512 => 64,
    }
}

/// Returns the bytes as a text.
pub fn text(bytes: &[u8]) -> Result<&str, Status>
    ensures { MatchResult result (λ text. (text.now ≡ bytes.now) × IsUtf8 bytes.now)
        (λ status. (status ≡ StatusNotUtf8) × ¬ IsUtf8 bytes.now) }
{
    match str::from_utf8(bytes) {
        Ok(text) => Ok(text),
        Err(_) => Err(Status::NotUtf8),
    }
}
