//! Why the program stops early.

use fe2o3_sasl::audit::AuditError;
use fe2o3_sasl::{ProfileError, ScramErrorKind, ServerScramErrorKind};
use fe2o3_sasl_wire::{Error as FrameError, SaslCode};
use std::alloc::{AllocError, AllocFailed};
use std::io;
use std::io::Write;
use thiserror::Error;

/// Why the program stops. The text of each reason is the last line of the output.
#[derive(Debug, Clone, Copy, Error)]
pub enum Stop {
    /// The arguments are not those of a command.
    #[error("wrong words")]
    WrongWords,
    /// This line of the input, counted from 1, is not an event.
    #[error("wrong line {0}")]
    WrongLine(usize),
    /// The arguments or the input could not be read.
    #[error("refused Input")]
    Input,
    /// The client rejected a SCRAM message.
    #[error("refused {0:?}")]
    Scram(#[from] ScramErrorKind),
    /// The keys of a client are stale: the server sent another salt or iteration count.
    #[error("refused StaleKeys")]
    StaleKeys,
    /// The server rejected a password.
    #[error("refused {0:?}")]
    Server(#[from] ServerScramErrorKind),
    /// A frame was not read, not written, or not implemented.
    #[error("refused {0:?}")]
    Frame(#[from] FrameError),
    /// The negotiation did not end with `Ok`.
    #[error("refused {0:?}")]
    Outcome(SaslCode),
    /// Out of memory.
    #[error("refused OutOfMemory")]
    OutOfMemory,
    /// A write failed. Nothing more is written.
    #[error("refused Output")]
    Output,
}

impl Stop {
    /// Converts the error of a read of the arguments or of the input.
    pub fn of_reading(error: io::Error) -> Stop {
        match error.kind() {
            io::ErrorKind::OutOfMemory => Stop::OutOfMemory,
            _ => Stop::Input,
        }
    }

    /// Prints the last line, and returns the exit status.
    pub fn end<W: Write>(&self, output: &mut W) -> u8 {
        match self.print(output) {
            Ok(()) => self.status(),
            Err(_) => Stop::Output.status(),
        }
    }

    /// Prints the last line, unless a write has failed.
    pub(crate) fn print<W: Write>(&self, output: &mut W) -> io::Result<()> {
        match self {
            Stop::Output => Ok(()),
            _ => writeln!(output, "{self}"),
        }
    }

    /// Returns the exit status.
    pub(crate) fn status(&self) -> u8 {
        match self {
            Stop::WrongWords | Stop::WrongLine(_) => 2,
            _ => 1,
        }
    }
}

impl From<ProfileError> for Stop {
    fn from(fault: ProfileError) -> Stop {
        match fault {
            ProfileError::NotImplemented => Stop::Frame(FrameError::NotImplemented),
            ProfileError::Scram(kind) => Stop::Scram(kind),
            ProfileError::StaleKeys => Stop::StaleKeys,
            ProfileError::Frame(fault) => Stop::Frame(fault),
            ProfileError::OutOfMemory => Stop::OutOfMemory,
        }
    }
}

impl From<AuditError> for Stop {
    fn from(error: AuditError) -> Stop {
        match error {
            AuditError::OutOfMemory => Stop::OutOfMemory,
        }
    }
}

impl From<AllocError> for Stop {
    fn from(_error: AllocError) -> Stop {
        Stop::OutOfMemory
    }
}

impl<T: Drop> From<AllocFailed<T>> for Stop {
    fn from(_error: AllocFailed<T>) -> Stop {
        Stop::OutOfMemory
    }
}

impl From<io::Error> for Stop {
    fn from(_error: io::Error) -> Stop {
        Stop::Output
    }
}
