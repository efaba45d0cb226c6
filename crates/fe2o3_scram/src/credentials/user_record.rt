//! A provider with the record of one user.

ghost use Rattle.std.specs.Prelude.{◌≡◌, ℕ, List, [], ◌∷◌, map};
ghost use Rattle.std.specs.String.{string_bytes};
ghost use Rattle.fe2o3_scram.specs.Credentials.{Record};

use crate::credentials::scram_record::ScramRecord;
use crate::hmac::ScramVersion;
use crate::provider::{ScramCredentialProvider, StoredPassword};
use std::alloc::AllocError;
use std::fmt;
use std::marker::Model;

/// One user and the record of the user's password. A server with its own storage makes one for an exchange, once
/// `ClientFirst::parse` has returned whose record to fetch.
///
/// A server that is not to show which names it knows uses `ScramRecord::mock` for an unknown name.
#[derive(Drop)]
pub struct UserRecord {
    username: String,
    kept: ScramRecord,
}

impl Model for UserRecord {
    ghost use Rattle.std.specs.Prelude.{[], ◌∷◌};
    ghost use Rattle.std.specs.String.{string_bytes};
    ghost use Rattle.fe2o3_scram.specs.Credentials.{Store};

    ghost Value = { Store };

    ghost view = { λ credential. record {
      version = credential.kept.version;
      records = (string_bytes credential.username, credential.kept.stored) ∷ [];
    } };
}

impl UserRecord {
    /// Makes the credential of a user with this record. The user name is plain, not escaped.
    pub fn new(username: String, kept: ScramRecord) -> Self
        ensures { result ≡ record {
          version = kept.version;
          records = (string_bytes username, kept.stored) ∷ [];
        } }
    {
        Self { username, kept }
    }

    /// Returns the user name, plain, not escaped.
    pub(crate) fn username(&self) -> &str
        ensures { map (λ (entry : List ℕ × Record). entry.0) self.now.records ≡ result.now ∷ [] }
    {
        &self.username
    }

    /// Returns the iteration count of the record.
    pub(crate) fn iterations(&self) -> u32
        ensures { map (λ (entry : List ℕ × Record). entry.1.count) self.now.records ≡ result ∷ [] }
    {
        self.kept.as_stored_password().iterations
    }
}

impl fmt::Debug for UserRecord {
    /// Writes the user name, and the record's own `Debug` text.
    fn fmt<W: fmt::Write>(&self, f: &mut fmt::Formatter<W>) -> fmt::Result {
        write!(
            f,
            "UserRecord {{ username: {:?}, record: {:?} }}",
            self.username, self.kept
        )
    }
}

impl Clone for UserRecord {
    ghost is_clone = { λ credential copy. copy ≡ credential };

    fn clone(&self) -> Result<Self, AllocError> {
        Ok(Self {
            username: self.username.clone()?,
            kept: self.kept.clone()?,
        })
    }
}

impl ScramCredentialProvider for UserRecord {
    ghost meaning = { λ credential. credential };

    ghost clone_keeps = { λ provider copy same. same };

    fn scram_version(&self) -> &ScramVersion {
        self.kept.scram_version()
    }

    fn get_stored_password<'a>(&'a self, username: &str) -> Option<StoredPassword<'a>> {
        if self.username.as_str() != username {
            return None;
        }
        Some(self.kept.as_stored_password())
    }
}
