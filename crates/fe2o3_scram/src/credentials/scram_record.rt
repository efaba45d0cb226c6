//! An owned record of one password (RFC 5802, section 3).

ghost use Rattle.std.specs.Prelude.{◌≡◌, ◌≤◌, ◌^◌};
ghost use Rattle.fe2o3_scram.specs.Credentials.{MakesRecord, MakingCosts, VersionedRecord, kept, making_tests};
ghost use Rattle.fe2o3_scram.specs.Passwords.{password_of};
ghost use Rattle.fe2o3_scram.specs.Readings.{Gives, NoneHolds};

use crate::hmac::{Meter, ScramVersion};
pub use crate::keys::RecordError;
use crate::passwords::Password;
use crate::provider::StoredPassword;
use crate::secrets::SecretBytes;
use std::alloc::{AllocError, Global};
use std::fmt;
use std::marker::Model;

/// What a server stores for one password, and the version that it is for. It does not contain the password.
#[derive(Drop)]
pub struct ScramRecord {
    scram_version: ScramVersion,
    salt: Vec<u8>,
    iterations: u32,
    stored_key: SecretBytes,
    server_key: SecretBytes,
}

impl Model for ScramRecord {
    ghost use Rattle.fe2o3_scram.specs.Credentials.{VersionedRecord};

    ghost Value = { VersionedRecord };

    ghost view = { λ kept. record {
      version = kept.scram_version;
      stored = record {
        salt = kept.salt.items;
        count = kept.iterations;
        stored_key = kept.stored_key;
        server_key = kept.server_key;
      };
    } };
}

impl ScramRecord {
    /// Makes the record of a password (RFC 5802, section 3). The salt is any bytes, and has to be new for each record.
    /// Only the keys are kept, not the password. Printable ASCII has one record, typed or prepared. With another
    /// prepared password a client logs in by that very text only.
    ///
    /// The errors are, in this order: `NormalizeError` for a typed password that is not printable ASCII (RFC 4013,
    /// section 2), `ZeroIterations` if the count is 0, and `OutOfMemory`.
    ///
    /// The meter, of at most 2^63, counts the HMAC values: two more than the iterations, none if the password or the
    /// count is rejected, and at most that many if memory runs out.
    pub fn from_password(
        alloc: Global,
        scram_version: ScramVersion,
        password: Password<'_>,
        salt: &[u8],
        iterations: u32,
        meter: &mut Meter,
    ) -> Result<Self, RecordError>
        requires { meter.old ≤ 2 ^ 63 }
        ensures record { Gives RecordError.OutOfMemory (NoneHolds (making_tests (password_of password.entry) iterations))
            (λ (made : VersionedRecord). made) result
            (MakesRecord scram_version (password_of password.entry) salt.now iterations) }
        ensures cost { MakingCosts iterations result meter.old meter.new }
    {
        let Ok(text) = password.normalized() else {
            return Err(RecordError::NormalizeError);
        };
        if iterations == 0 {
            return Err(RecordError::ZeroIterations);
        }
        let salted_password = scram_version.salted_password(
            text.as_bytes(),
            salt,
            iterations,
            meter,
        );
        let (client_key, server_key) = scram_version.client_and_server_key(
            salted_password.as_slice(),
            meter,
        );
        let stored_key = scram_version.stored_key(client_key.as_slice());
        Ok(Self {
            scram_version,
            salt: salt.to_vec(alloc)?,
            iterations,
            stored_key: SecretBytes::from_slice(alloc, stored_key.as_slice())?,
            server_key: SecretBytes::from_slice(alloc, server_key.as_slice())?,
        })
    }

    /// Makes a record of these very values, of any lengths. No proof meets a stored key that is not as long as a
    /// digest, and a client rejects a count of 0.
    pub fn from_parts(
        scram_version: ScramVersion,
        salt: Vec<u8>,
        iterations: u32,
        stored_key: Vec<u8>,
        server_key: Vec<u8>,
    ) -> Self
        ensures { result ≡ record {
          version = scram_version;
          stored = record {
            salt = salt.items;
            count = iterations;
            stored_key = stored_key.items;
            server_key = server_key.items;
          };
        } }
    {
        ScramRecord::of_keys(
            scram_version,
            salt,
            iterations,
            SecretBytes::new(stored_key),
            SecretBytes::new(server_key),
        )
    }

    /// Like [`ScramRecord::from_parts`], but takes the keys as secrets.
    pub(crate) fn of_keys(
        scram_version: ScramVersion,
        salt: Vec<u8>,
        iterations: u32,
        stored_key: SecretBytes,
        server_key: SecretBytes,
    ) -> Self
        ensures { result ≡ record {
          version = scram_version;
          stored = record {
            salt = salt.items;
            count = iterations;
            stored_key = stored_key;
            server_key = server_key;
          };
        } }
    {
        Self {
            scram_version,
            salt,
            iterations,
            stored_key,
            server_key,
        }
    }

    /// Returns the version that the record is for.
    pub fn scram_version(&self) -> &ScramVersion
        ensures { result.now ≡ self.now.version }
    {
        &self.scram_version
    }

    /// Returns the record as a provider lends it.
    pub fn as_stored_password(&self) -> StoredPassword<'_>
        ensures { kept result ≡ self.now.stored }
    {
        StoredPassword {
            salt: &self.salt,
            iterations: self.iterations,
            stored_key: self.stored_key.as_slice(),
            server_key: self.server_key.as_slice(),
        }
    }
}

impl fmt::Debug for ScramRecord {
    /// Writes the version and the iteration count, and no key: with the keys anyone can impersonate the server.
    fn fmt<W: fmt::Write>(&self, f: &mut fmt::Formatter<W>) -> fmt::Result {
        write!(
            f,
            "ScramRecord {{ scram_version: {:?}, iterations: {}, .. }}",
            self.scram_version, self.iterations
        )
    }
}

impl Clone for ScramRecord {
    ghost is_clone = { λ original copy. copy ≡ original };

    fn clone(&self) -> Result<Self, AllocError> {
        Ok(Self {
            scram_version: self.scram_version,
            salt: self.salt.clone()?,
            iterations: self.iterations,
            stored_key: self.stored_key.clone()?,
            server_key: self.server_key.clone()?,
        })
    }
}
