//! Why a profile does not answer.

ghost use Rattle.std.specs.Prelude.{◌≡◌};
ghost use Rattle.fe2o3_sasl_core.specs.declared.sasl_profile.error.ProfileError.TheVariants.{OutOfMemory};
ghost use Rattle.fe2o3_sasl_core.specs.ProfileFaults.{fault_of_kind, fault_of_frame};

use fe2o3_sasl_wire::Error;
use fe2o3_scram::scram_messages::ScramErrorKind;
use std::alloc::AllocError;

/// Why a profile does not answer. A failed allocation is always `OutOfMemory`, and stale keys are always `StaleKeys`:
/// neither is inside another error.
#[derive(Clone, Copy, Debug, PartialEq, Eq, thiserror::Error)]
pub enum ProfileError {
    /// The profile does not answer this frame, or the server does not have its mechanism.
    #[error("Not implemented")]
    NotImplemented,

    /// SCRAM rejects the message.
    #[error("Scram")]
    Scram(ScramErrorKind),

    /// The server names another salt or iteration count than that of the cached keys, and the client has no password,
    /// which is needed. Nothing signs that message, so a man in the middle can cause this: keep the keys until a login
    /// by the password is verified.
    #[error("The cached keys are for another salt or iteration count")]
    StaleKeys,

    /// The body is not read, or the answer is not written.
    #[error("Frame")]
    Frame(Error),

    /// An allocation failed. The call can be repeated.
    #[error("OutOfMemory")]
    OutOfMemory,
}

impl From<ScramErrorKind> for ProfileError {
    ghost from_gives = { λ kind error. error ≡ fault_of_kind kind };

    fn from(kind: ScramErrorKind) -> Self {
        match kind {
            ScramErrorKind::OutOfMemory => ProfileError::OutOfMemory,
            ScramErrorKind::StaleKeys => ProfileError::StaleKeys,
            kind => ProfileError::Scram(kind),
        }
    }
}

impl From<Error> for ProfileError {
    ghost from_gives = { λ fault error. error ≡ fault_of_frame fault };

    fn from(fault: Error) -> Self {
        match fault {
            Error::OutOfMemory => ProfileError::OutOfMemory,
            fault => ProfileError::Frame(fault),
        }
    }
}

impl From<AllocError> for ProfileError {
    ghost from_gives = { λ _ error. error ≡ OutOfMemory };

    fn from(_error: AllocError) -> Self {
        ProfileError::OutOfMemory
    }
}

/// Why an address gives no profile.
#[derive(Clone, Copy, Debug, PartialEq, Eq, thiserror::Error)]
pub enum UrlError {
    /// The user name or the password is empty or absent.
    #[error("NoCredentials")]
    NoCredentials,

    /// An allocation failed. The call can be repeated.
    #[error("OutOfMemory")]
    OutOfMemory,
}

impl From<AllocError> for UrlError {
    ghost use Rattle.fe2o3_sasl_core.specs.declared.sasl_profile.error.UrlError.TheVariants.{OutOfMemory as NoMemory};

    ghost from_gives = { λ _ error. error ≡ NoMemory };

    fn from(_error: AllocError) -> Self {
        UrlError::OutOfMemory
    }
}
