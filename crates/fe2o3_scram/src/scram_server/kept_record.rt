//! The record of an open challenge.

ghost use Rattle.std.specs.Prelude.{◌≡◌, IfOk};
ghost use Rattle.fe2o3_scram.specs.Credentials.{kept};

use crate::OutOfMemory;
use crate::provider::StoredPassword;
use crate::secrets::SecretBytes;
use std::alloc::{AllocError, Global};
use std::marker::Model;

/// An owned copy of a record. Its keys are overwritten with zeros before their memory is freed.
#[derive(Drop)]
pub(crate) struct KeptRecord {
    salt: Vec<u8>,
    iterations: u32,
    stored_key: SecretBytes,
    server_key: SecretBytes,
}

impl Model for KeptRecord {
    ghost use Rattle.fe2o3_scram.specs.Credentials.{Record};

    ghost Value = { Record };

    ghost view = { λ copied. record {
      salt = copied.salt.items;
      count = copied.iterations;
      stored_key = copied.stored_key;
      server_key = copied.server_key;
    } };
}

impl KeptRecord {
    /// Copies a record.
    pub(crate) fn of(alloc: Global, stored: &StoredPassword<'_>) -> Result<Self, OutOfMemory>
        ensures { IfOk result (λ copied. copied ≡ kept stored.now) }
    {
        Ok(Self {
            salt: stored.salt.to_vec(alloc)?,
            iterations: stored.iterations,
            stored_key: SecretBytes::from_slice(alloc, stored.stored_key)?,
            server_key: SecretBytes::from_slice(alloc, stored.server_key)?,
        })
    }

    /// Returns the record.
    pub(crate) fn as_stored_password(&self) -> StoredPassword<'_>
        ensures { kept result ≡ self.now }
    {
        StoredPassword {
            salt: &self.salt,
            iterations: self.iterations,
            stored_key: self.stored_key.as_slice(),
            server_key: self.server_key.as_slice(),
        }
    }
}

impl Clone for KeptRecord {
    ghost is_clone = { λ copied copy. copy ≡ copied };

    fn clone(&self) -> Result<Self, AllocError> {
        Ok(Self {
            salt: self.salt.clone()?,
            iterations: self.iterations,
            stored_key: self.stored_key.clone()?,
            server_key: self.server_key.clone()?,
        })
    }
}
