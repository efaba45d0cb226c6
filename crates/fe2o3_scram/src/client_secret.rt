//! The secret of a client (RFC 5802, section 3), and the iteration counts that it accepts.

ghost use Rattle.std.specs.Prelude.{◌≡◌, ◌↔◌, IfOk, IsTrue};
ghost use Rattle.fe2o3_scram.specs.ClientSecret.{IsOfVersion, kept_password, kept_secret, no_limit, secret_of, up_to};
ghost use Rattle.fe2o3_scram.specs.Passwords.{password_of};
ghost use Rattle.fe2o3_scram.specs.declared.client_secret.ClientSecretError.TheVariants.{OutOfMemory as OutOfMemoryError};

use crate::OutOfMemory;
use crate::hmac::ScramVersion;
use crate::keys::CachedKeys;
use crate::passwords::Password;
use crate::secrets::SecretText;
use std::alloc::{AllocError, Global};
use thiserror::Error;

/// The secret by which a client proves who it is (RFC 5802, section 3).
#[derive(Clone, Copy)]
pub enum ClientSecret<'a> {
    /// The password.
    Password(Password<'a>),

    /// The keys of an earlier login. They serve only if the server names their salt and iteration count.
    Keys(&'a CachedKeys),

    /// Both: the keys if they serve, and otherwise the password.
    PasswordAndKeys {
        /// The password.
        password: Password<'a>,

        /// The keys of an earlier login.
        keys: &'a CachedKeys,
    },
}

/// Why a secret does not fit a client.
#[derive(Debug, Clone, Copy, PartialEq, Eq, Error)]
pub enum ClientSecretError {
    /// The keys are of another version than the client.
    #[error("Version mismatch")]
    VersionMismatch,

    /// An allocation failed.
    #[error("Out of memory")]
    OutOfMemory,
}

impl From<AllocError> for ClientSecretError {
    ghost from_gives = { λ _ error. error ≡ OutOfMemoryError };

    fn from(_error: AllocError) -> Self {
        ClientSecretError::OutOfMemory
    }
}

impl ClientSecret<'_> {
    /// Returns whether the keys, if there are any, are of this version.
    pub(crate) fn is_of_version(self, version: ScramVersion) -> bool
        ensures { IsTrue result ↔ IsOfVersion version (secret_of self.entry) }
    {
        match self {
            ClientSecret::Password(_) => true,
            ClientSecret::Keys(keys) | ClientSecret::PasswordAndKeys { keys, .. } => {
                keys.scram_version() == version
            }
        }
    }
}

/// The iteration counts that a client accepts, inclusive. Without limits they are 1 to 4294967295, all that a message
/// can name (RFC 5802, section 7).
#[derive(Debug, Clone, Copy, PartialEq, Eq)]
pub struct IterationLimits {
    /// The minimum. RFC 7677, section 4, asks for at least 4096.
    pub min_iterations: u32,

    /// The maximum.
    pub max_iterations: u32,
}

impl IterationLimits {
    /// Returns limits that accept every count from 1 to 4294967295.
    pub fn none() -> Self
        ensures { result ≡ up_to no_limit }
    {
        IterationLimits::up_to(u32::MAX)
    }

    /// Returns limits that accept the counts from 1 to this one.
    pub fn up_to(max_iterations: u32) -> Self
        ensures { result ≡ up_to max_iterations }
    {
        Self {
            min_iterations: 1,
            max_iterations,
        }
    }
}

/// An owned copy of a client's password, which is overwritten before its memory is freed.
#[derive(Drop)]
pub enum OwnedPassword {
    /// The password as the user typed it.
    Typed(SecretText),

    /// The password in its prepared form.
    Prepared(SecretText),
}

impl OwnedPassword {
    /// Copies a password.
    fn of(alloc: Global, password: Password<'_>) -> Result<Self, OutOfMemory>
        ensures { IfOk result (λ kept. kept_password kept ≡ password_of password.entry) }
    {
        Ok(match password {
            Password::Typed(text) => OwnedPassword::Typed(SecretText::from_str(alloc, text)?),
            Password::Prepared(text) => OwnedPassword::Prepared(SecretText::from_str(alloc, text)?),
        })
    }

    /// Lends the password.
    fn lent(&self) -> Password<'_>
        ensures { password_of result ≡ kept_password self.now }
    {
        match self {
            OwnedPassword::Typed(text) => Password::Typed(text.as_str()),
            OwnedPassword::Prepared(text) => Password::Prepared(text.as_str()),
        }
    }

    /// Copies the kept password.
    fn copy(&self) -> Result<Self, AllocError>
        ensures { IfOk result (λ copy. kept_password copy ≡ kept_password self.now) }
    {
        Ok(match self {
            OwnedPassword::Typed(text) => OwnedPassword::Typed(text.clone()?),
            OwnedPassword::Prepared(text) => OwnedPassword::Prepared(text.clone()?),
        })
    }
}

/// An owned copy of a client's secret ([`ClientSecret`]), which is overwritten before its memory is freed.
#[derive(Drop)]
pub enum OwnedSecret {
    /// The password.
    Password(OwnedPassword),

    /// The keys of an earlier login.
    Keys(CachedKeys),

    /// Both: the keys if they serve, and otherwise the password.
    PasswordAndKeys {
        /// The password.
        password: OwnedPassword,

        /// The keys of an earlier login.
        keys: CachedKeys,
    },
}

impl OwnedSecret {
    /// Copies a secret.
    pub fn of(alloc: Global, secret: ClientSecret<'_>) -> Result<Self, OutOfMemory>
        ensures { IfOk result (λ kept. kept_secret kept ≡ secret_of secret.entry) }
    {
        Ok(match secret {
            ClientSecret::Password(password) => {
                OwnedSecret::Password(OwnedPassword::of(alloc, password)?)
            }
            ClientSecret::Keys(keys) => OwnedSecret::Keys(keys.clone()?),
            ClientSecret::PasswordAndKeys { password, keys } => OwnedSecret::PasswordAndKeys {
                password: OwnedPassword::of(alloc, password)?,
                keys: keys.clone()?,
            },
        })
    }

    /// Lends the secret.
    pub fn lent(&self) -> ClientSecret<'_>
        ensures { secret_of result ≡ kept_secret self.now }
    {
        match self {
            OwnedSecret::Password(password) => ClientSecret::Password(password.lent()),
            OwnedSecret::Keys(keys) => ClientSecret::Keys(keys),
            OwnedSecret::PasswordAndKeys { password, keys } => ClientSecret::PasswordAndKeys {
                password: password.lent(),
                keys,
            },
        }
    }
}

impl Clone for OwnedSecret {
    ghost is_clone = { λ secret copy. kept_secret copy ≡ kept_secret secret };

    fn clone(&self) -> Result<Self, AllocError> {
        Ok(match self {
            OwnedSecret::Password(password) => OwnedSecret::Password(password.copy()?),
            OwnedSecret::Keys(keys) => OwnedSecret::Keys(keys.clone()?),
            OwnedSecret::PasswordAndKeys { password, keys } => OwnedSecret::PasswordAndKeys {
                password: password.copy()?,
                keys: keys.clone()?,
            },
        })
    }
}
