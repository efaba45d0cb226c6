//! Why the program stops early.

ghost use Rattle.std.specs.Prelude.{◌≡◌, ◌≤◌, option_map};
ghost use Rattle.scram_base_lib.specs.Stop.{at_line, status_of, suffix_of};
ghost use Rattle.scram_base_lib.specs.declared.stop.Stop.TheVariants.{OutOfMemory as StopOutOfMemory};

use fe2o3_sasl_negotiation::{CloseReason, Rejection};
use fe2o3_scram::{
    ClientSecretError, ReadLinesError, ReadLinesErrorKind, RecordError, ScramErrorKind,
    ServerScramErrorKind,
};
use mock_secret::SecretError;
use std::alloc::{AllocError, AllocFailed};
use std::io;
use std::io::ErrorKind;
use thiserror::Error;

/// Why the program stops. The text of each reason is its documentation.
#[derive(Debug, Clone, Copy, Error)]
pub enum Stop {
    #[error("An argument is not UTF-8.")]
    WrongWords,
    #[error("The value of --salt is empty or not in hexadecimal.")]
    WrongSalt,
    #[error("NAME has a line feed, so a file cannot hold it.")]
    WrongName,
    #[error("NAME is empty or has spaces at its ends. Give --force to add it.")]
    OddName,
    #[error("There is no password on the first line of standard input.")]
    NoPassword,
    #[error("The password has a character that SASLprep forbids, such as a tab, or mixes directions of writing.")]
    WrongPassword,
    #[error("The password ends with a carriage return, as in a file of Windows. Remove it, for instance with tr -d '\\r'.")]
    CarriageReturn,
    #[error("The two passwords differ.")]
    OtherPasswords,
    #[error("A line of standard input is longer than 65536 bytes.")]
    LongLine,
    #[error("A line of standard input is not UTF-8.")]
    NotText,
    #[error("Standard input is a terminal, which shows the password. Give --echo, or in bash: read -rs p; scram .. <<<\"$p\"")]
    Terminal,
    #[error("Standard input is closed.")]
    InputClosed,
    #[error("Standard input cannot be read: {}.", cause(.0))]
    Input(ErrorKind),
    #[error("Standard output is closed.")]
    OutputClosed,
    #[error("Standard output cannot be written: {}.", cause(.0))]
    Output(ErrorKind),
    #[error("The system did not return random bytes: {}.", cause(.0))]
    Random(ErrorKind),
    #[error("The file is changed, but standard output cannot be written: {}.", cause(.0))]
    Unreported(ErrorKind),
    #[error("The file is changed, but standard output is closed.")]
    UnreportedClosed,
    #[error("The file cannot be read: {}. Check its name and its mode.", cause(.0))]
    Unreadable(ErrorKind),
    #[error("The file cannot be read: it is not UTF-8. Save it as UTF-8.")]
    NotUtf8,
    #[error("The file cannot be read: it begins with a byte order mark. Save it without one.")]
    Marked,
    #[error("The file cannot be read. {0}. Correct or remove that line.")]
    Line(ReadLinesError),
    #[error("The file cannot be read: line {0} {1}.")]
    NoRecord(usize, &'static str),
    #[error("The file is not changed: it is not a regular file. Name a regular file.")]
    NotRegular,
    #[error("The file is not changed: it has another name (a hard link). Make that a symbolic link, or a copy.")]
    HardLinks,
    #[error("The file is a link to a file that does not exist. Make that file, or remove the link.")]
    DanglingLink,
    #[error("A change is under way in this new file, or it is another's. Wait with --wait, or remove it if no change runs.")]
    Busy,
    /// The old file stays.
    #[error("The file is not changed: the new one beside it cannot be written: {}. Check the folder and its space.", cause(.0))]
    Unwritten(ErrorKind),
    /// The old file stays.
    #[error("The file is not changed: its owner and group cannot be kept: {}. Run scram as its owner or as root.", cause(.0))]
    OwnerLost(ErrorKind),
    #[error("The file is changed, but its folder cannot be synced: {}. A power failure may undo the change.", cause(.0))]
    Unsynced(ErrorKind),
    #[error("The secret for mock records cannot be used: {0}. Correct its file, or remove it for a new secret.")]
    Secret(SecretError),
    #[error("The secret for mock records cannot be read: {}. Give the file to the server's user (chown).", cause(.0))]
    SecretUnreadable(ErrorKind),
    #[error("The secret for mock records cannot be made: {}. Run scram server once as root, then chown it.", cause(.0))]
    SecretUnwritten(ErrorKind),
    #[error("The rights cannot be read. Check the mode of this file, and that it is UTF-8.")]
    UnreadableRights,
    #[error("Line {0} is not USER IDENTITY, both escaped as in a file of records. A user has no space and no colon.")]
    WrongRights(usize),
    #[error("The database cannot be used: {0}.")]
    Database(&'static str),
    #[error("Standard input cannot be imported. {0}. Nothing is changed.")]
    NotImported(ReadLinesError),
    #[error("Line {0} of standard input has the name and the mechanism of an earlier one. Nothing is changed.")]
    Repeated(usize),
    #[error("The file has no such record. scram users list shows its records.")]
    NoSuchRecord,
    #[error("The records do not look alike, so clients can tell which users exist. scram users passwd mends a user's.")]
    NotAlike,
    #[error("The password does not match every record.")]
    OtherPassword,
    #[error("The value of --nonce is not 64 hexadecimal digits.")]
    WrongNonce,
    #[error("The value of --min-iterations, {0}, is above that of --max-iterations, {1}.")]
    NoIterations(u32, u32),
    #[error("The kind in --channel is not tls-unique, tls-server-end-point or tls-exporter.")]
    WrongChannelKind,
    #[error("The data in --channel are not in hexadecimal.")]
    WrongChannelData,
    #[error("The data in --channel are empty or longer than 64 bytes.")]
    WrongChannelLength,
    #[error("The value of --may-act is not a user, a colon and an identity.")]
    WrongRight,
    #[error("A line of standard input is not in hexadecimal.")]
    NotHex,
    #[error("Line {0} of standard input is not in hexadecimal.")]
    NotHexAt(u64),
    #[error("A line of standard input is not in base64.")]
    NotBase64,
    #[error("Line {0} of standard input is not in base64.")]
    NotBase64At(u64),
    #[error("Standard input has a line after the four messages.")]
    ExtraLine,
    #[error("The key file is not a line of keys. Name another, or remove it and log in with the password.")]
    WrongKeys,
    #[error("The key file is for another mechanism. Use its mechanism, or another file.")]
    OtherMechanism,
    #[error("The other side closed before the end of the login.")]
    Ended,
    /// The server sent an error.
    #[error("The server rejected the login.")]
    RefusedByServer,
    #[error("The server's message is rejected: {0}.")]
    Client(ScramErrorKind),
    /// The server has printed the user and the reason.
    #[error("The login is rejected: {0}.")]
    Rejected(Rejection),
    /// The signature has the length of another mechanism, or the client names another one.
    #[error("The other side uses another mechanism.")]
    OtherHash,
    #[error("The user has no record for the mechanism.")]
    UnknownUser,
    #[error("The connection is closed: {0}.")]
    Closed(CloseReason),
    #[error("A message is rejected.")]
    MessageRefused,
    #[error("The message in line {0} of standard input is rejected.")]
    MessageRefusedAt(u64),
    #[error("A line of standard input does not begin with client or server and a space.")]
    NoSide,
    /// The calls that replay a client prepare no password.
    #[error("The bodies cannot be audited: the password is not ASCII.")]
    NotAscii,
    /// An audit replays both sides from nonces of 32 bytes.
    #[error("The bodies cannot be audited: a nonce is not the base64 of 32 bytes.")]
    OtherNonces,
    #[error("The bodies cannot be audited: the client starts no SCRAM login.")]
    NoLogin,
    #[error("The bodies cannot be audited: the client logs in as two users or with two mechanisms.")]
    TwoLogins,
    #[error("The two sides have no login in common.")]
    NothingInCommon,
    /// The client did not receive the server's signature, or rejects it.
    #[error("The server accepted the client, but the client does not verify its signature.")]
    NotVerified,
    #[error("A proof or a signature belongs to two different logins.")]
    OneProofOfTwo,
    #[error("Out of memory.")]
    OutOfMemory,
}

/// Returns the cause of a system's error, in words of an administrator.
fn cause(kind: &ErrorKind) -> &'static str {
    match kind {
        ErrorKind::NotFound => "it does not exist",
        ErrorKind::PermissionDenied => "permission denied",
        ErrorKind::IsADirectory => "it is a folder",
        ErrorKind::NotADirectory => "a part of its path is no folder",
        ErrorKind::ReadOnlyFilesystem => "the file system is read-only",
        ErrorKind::StorageFull | ErrorKind::QuotaExceeded => "no space is left",
        ErrorKind::FileTooLarge => "it would be too large",
        ErrorKind::FilesystemLoop => "its links lead in a circle",
        ErrorKind::InvalidFilename => "its name is too long or not valid",
        ErrorKind::BrokenPipe => "its reader has ended",
        _ => "an input or output error",
    }
}

impl Stop {
    /// Converts the error of a read of the arguments.
    pub fn of_words(error: io::Error) -> Stop {
        match error.kind() {
            ErrorKind::OutOfMemory => Stop::OutOfMemory,
            _ => Stop::WrongWords,
        }
    }

    /// Converts the error of a read of the input.
    pub fn of_input(error: io::Error) -> Stop {
        match error.kind() {
            ErrorKind::OutOfMemory => Stop::OutOfMemory,
            _ if is_closed(&error) => Stop::InputClosed,
            kind => Stop::Input(kind),
        }
    }

    /// Converts the error of a write to the output.
    pub fn of_output(error: io::Error) -> Stop {
        if is_closed(&error) {
            return Stop::OutputClosed;
        }
        Stop::Output(error.kind())
    }

    /// Converts the error of a write to the output after a file was changed.
    pub fn of_report(error: io::Error) -> Stop {
        if is_closed(&error) {
            return Stop::UnreportedClosed;
        }
        Stop::Unreported(error.kind())
    }

    /// Converts the error of the random source.
    pub fn of_random(error: io::Error) -> Stop {
        Stop::Random(error.kind())
    }

    /// Converts the error of a read of a file.
    pub fn of_reading(error: io::Error) -> Stop {
        match error.kind() {
            ErrorKind::OutOfMemory => Stop::OutOfMemory,
            ErrorKind::InvalidData => Stop::NotUtf8,
            kind => Stop::Unreadable(kind),
        }
    }

    /// Converts the error of a write to a new file.
    pub fn of_writing(error: io::Error) -> Stop {
        Stop::Unwritten(error.kind())
    }

    /// Returns the error with the line of the input at which it occurred, counted from 1.
    pub fn at_line(self, line: u64) -> Stop
        ensures { result ≡ at_line self line }
    {
        match self {
            Stop::NotBase64 => Stop::NotBase64At(line),
            Stop::NotHex => Stop::NotHexAt(line),
            Stop::MessageRefused => Stop::MessageRefusedAt(line),
            other => other,
        }
    }

    /// Returns what follows the file's name in the name of the file at fault, or `None` if no file is at fault.
    pub fn suffix(self) -> Option<&'static str>
        ensures { option_map (λ suffix. suffix.now) result ≡ suffix_of self }
    {
        match self {
            Stop::Busy => Some(".new"),
            Stop::Secret(_) | Stop::SecretUnreadable(_) | Stop::SecretUnwritten(_) => {
                Some(".secret")
            }
            Stop::UnreadableRights | Stop::WrongRights(_) => Some(".rights"),
            Stop::Unreported(_)
            | Stop::UnreportedClosed
            | Stop::Unreadable(_)
            | Stop::NotUtf8
            | Stop::Marked
            | Stop::Line(_)
            | Stop::NoRecord(_, _)
            | Stop::NotRegular
            | Stop::HardLinks
            | Stop::DanglingLink
            | Stop::Unwritten(_)
            | Stop::OwnerLost(_)
            | Stop::Unsynced(_)
            | Stop::Database(_)
            | Stop::NoSuchRecord
            | Stop::NotAlike
            | Stop::WrongKeys
            | Stop::OtherMechanism => Some(""),
            _ => None,
        }
    }

    /// Returns the exit status.
    pub fn status(self) -> u8
        ensures exactly { result ≡ status_of self }
        ensures within { (1 ≤ result) × (result ≤ 4) }
    {
        match self {
            Stop::Ended | Stop::RefusedByServer => 1,
            Stop::WrongWords
            | Stop::WrongSalt
            | Stop::WrongNonce
            | Stop::WrongName
            | Stop::OddName
            | Stop::Terminal
            | Stop::NoIterations(_, _)
            | Stop::WrongChannelKind
            | Stop::WrongChannelData
            | Stop::WrongChannelLength
            | Stop::WrongRight => 2,
            Stop::NoSuchRecord
            | Stop::NotAlike
            | Stop::OtherPassword
            | Stop::Client(_)
            | Stop::Rejected(_)
            | Stop::UnknownUser
            | Stop::Closed(_)
            | Stop::OtherHash
            | Stop::MessageRefused
            | Stop::MessageRefusedAt(_)
            | Stop::NothingInCommon
            | Stop::NotVerified
            | Stop::OneProofOfTwo => 3,
            _ => 4,
        }
    }
}

/// Returns whether a stream is closed. The system's number for a descriptor that is not open (`EBADF`) is 9.
fn is_closed(error: &io::Error) -> bool {
    error.raw_os_error() == Some(9)
}

impl From<RecordError> for Stop {
    fn from(error: RecordError) -> Stop {
        match error {
            RecordError::NormalizeError => Stop::WrongPassword,
            // Cannot happen: the parser takes counts from 1.
            RecordError::ZeroIterations => Stop::WrongSalt,
            RecordError::OutOfMemory => Stop::OutOfMemory,
        }
    }
}

impl From<ClientSecretError> for Stop {
    fn from(error: ClientSecretError) -> Stop {
        match error {
            ClientSecretError::VersionMismatch => Stop::OtherMechanism,
            ClientSecretError::OutOfMemory => Stop::OutOfMemory,
        }
    }
}

impl From<SecretError> for Stop {
    fn from(error: SecretError) -> Stop {
        match error {
            SecretError::OutOfMemory => Stop::OutOfMemory,
            SecretError::Unreadable(kind) => Stop::SecretUnreadable(kind),
            SecretError::Unwritten(kind) => Stop::SecretUnwritten(kind),
            SecretError::Random(kind) => Stop::Random(kind),
            fault => Stop::Secret(fault),
        }
    }
}

impl From<ReadLinesError> for Stop {
    fn from(error: ReadLinesError) -> Stop {
        match error.kind {
            ReadLinesErrorKind::OutOfMemory => Stop::OutOfMemory,
            _ => Stop::Line(error),
        }
    }
}

impl From<ScramErrorKind> for Stop {
    fn from(error: ScramErrorKind) -> Stop {
        match error {
            ScramErrorKind::OutOfMemory => Stop::OutOfMemory,
            ScramErrorKind::XorLengthMismatch => Stop::OtherHash,
            kind => Stop::Client(kind),
        }
    }
}

impl From<ServerScramErrorKind> for Stop {
    fn from(error: ServerScramErrorKind) -> Stop {
        match error {
            ServerScramErrorKind::OutOfMemory => Stop::OutOfMemory,
            kind => Stop::Rejected(Rejection::Scram(kind)),
        }
    }
}

impl From<AllocError> for Stop {
    ghost from_gives = { λ error stop. stop ≡ StopOutOfMemory };

    fn from(_error: AllocError) -> Stop {
        Stop::OutOfMemory
    }
}

impl<T: Drop> From<AllocFailed<T>> for Stop {
    ghost from_gives = { λ error stop. stop ≡ StopOutOfMemory };

    fn from(_error: AllocFailed<T>) -> Stop {
        Stop::OutOfMemory
    }
}
