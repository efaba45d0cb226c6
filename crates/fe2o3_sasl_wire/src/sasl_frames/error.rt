//! Why a frame is not read or not written. Names and texts are those of `fe2o3-amqp` 0.18.4.

ghost use Rattle.std.specs.Prelude.{◌≡◌};
ghost use Rattle.fe2o3_sasl_wire.specs.declared.sasl_frames.error.Error.TheVariants.{OutOfMemory};

use std::alloc::{AllocError, AllocFailed};

/// Why a frame is not read or not written.
#[derive(Clone, Copy, Debug, PartialEq, Eq, thiserror::Error)]
pub enum Error {
    /// The bytes begin with no frame, or there are fewer than four.
    #[error("Decode Error")]
    DecodeError,

    /// The frame's type or its data offset is not that of a SASL frame.
    #[error("AmqpError: NotImplemented")]
    NotImplemented,

    /// A size of the frame has more than 32 bits.
    #[error("Too large")]
    TooLarge,

    /// An allocation failed. The call can be repeated.
    #[error("OutOfMemory")]
    OutOfMemory,
}

impl From<AllocError> for Error {
    ghost from_gives = { λ _ error. error ≡ OutOfMemory };

    fn from(_error: AllocError) -> Self {
        Error::OutOfMemory
    }
}

impl<T: Drop> From<AllocFailed<T>> for Error {
    ghost from_gives = { λ _ error. error ≡ OutOfMemory };

    fn from(_error: AllocFailed<T>) -> Self {
        Error::OutOfMemory
    }
}
