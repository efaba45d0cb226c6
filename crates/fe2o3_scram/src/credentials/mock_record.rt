//! The mock record of a user name.

ghost use Rattle.std.specs.Prelude.{◌≡◌, ◌≤◌, ◌<◌, ◌+◌, ◌^◌, ◌++◌, IfOk, codes, take};
ghost use Rattle.fe2o3_scram.specs.Credentials.{kept, versioned};
ghost use Rattle.fe2o3_scram.specs.Hmac.{digest_bytes, hmac_of};
ghost use Rattle.fe2o3_scram.specs.MockSettings.{mock_record};

use crate::OutOfMemory;
use crate::credentials::scram_record::ScramRecord;
use crate::hmac::keyed::HmacKey;
use crate::hmac::{DigestBytes, Meter, ScramVersion};
use crate::provider::StoredPassword;
use std::alloc::Global;
use std::marker::Model;

/// The beginning of the label of a mock salt. The mechanism's name and [`SALT_LABEL_END`] follow.
const SALT_LABEL: &[u8] = b"Salt:";

/// The end of the label of a mock salt, before the user name.
const SALT_LABEL_END: &[u8] = b":";

/// The label of a mock StoredKey, before the user name.
const STORED_KEY_LABEL: &[u8] = b"StoredKey:";

/// The label of a mock ServerKey, before the user name.
const SERVER_KEY_LABEL: &[u8] = b"ServerKey:";

impl ScramRecord {
    /// Returns the mock record of a name. A server uses it for an unknown user in place of a stored record, so that the
    /// login goes on like that of a known user and fails at its proof. A name has one mock record for each mechanism
    /// and secret.
    ///
    /// - StoredKey: `HMAC(secret, "StoredKey:" + username)`, with the hash of the version.
    /// - ServerKey: `HMAC(secret, "ServerKey:" + username)`, with the hash of the version.
    /// - Salt: the first `salt_len` bytes of `HMAC(secret, "Salt:" + mechanism + ":" + username)`, with SHA-512 for
    ///   each version. A `salt_len` above 64 is taken as 64.
    ///
    /// The mechanism is the name that `ScramVersion::mechanism` returns, such as `SCRAM-SHA-256`, so that a name has
    /// another salt under each mechanism, like a user with several stored records. The user name is plain, not escaped.
    ///
    /// The secret is random, has at least 32 bytes, and may serve several mechanisms. Keep it beside the records: with
    /// another secret the salts of unknown users change and those of known users do not. Keep it to yourself: a reader
    /// of the secret can tell mock salts from stored ones. Salt length and count are those of the server's other
    /// records.
    ///
    /// The meter, of at most 2^63, counts three HMAC values, also if the call runs out of memory. The only error is
    /// `OutOfMemory`.
    pub fn mock(
        alloc: Global,
        scram_version: ScramVersion,
        secret: &[u8],
        username: &str,
        salt_len: usize,
        iterations: u32,
        meter: &mut Meter,
    ) -> Result<Self, OutOfMemory>
        requires { meter.old ≤ 2 ^ 63 }
        ensures record { IfOk result (λ made. made ≡ versioned scram_version (mock_record (record {
          version = scram_version;
          secret = secret.now;
          salt_len = salt_len;
          count = iterations;
        }) username.now)) }
        ensures counted { meter.new ≡ meter.old + 3 }
    {
        let values = MockValues::new(scram_version, secret, username, salt_len, iterations, meter);
        let stored = values.as_stored_password();
        Ok(ScramRecord::from_parts(
            scram_version,
            stored.salt.to_vec(alloc)?,
            iterations,
            stored.stored_key.to_vec(alloc)?,
            stored.server_key.to_vec(alloc)?,
        ))
    }
}

/// The values of a mock record, computed without an allocation.
#[derive(Drop)]
pub(crate) struct MockValues {
    salt: DigestBytes,
    salt_len: usize,
    iterations: u32,
    stored_key: DigestBytes,
    server_key: DigestBytes,
}

impl Model for MockValues {
    ghost use Rattle.std.specs.Prelude.{take};
    ghost use Rattle.fe2o3_scram.specs.Credentials.{Record};
    ghost use Rattle.fe2o3_scram.specs.Hmac.{digest_bytes};

    ghost Value = { Record };

    ghost view = { λ values. record {
      salt = take values.salt_len (digest_bytes values.salt);
      count = values.iterations;
      stored_key = digest_bytes values.stored_key;
      server_key = digest_bytes values.server_key;
    } };
}

impl MockValues {
    /// Computes the mock record of a name, like `ScramRecord::mock`. The meter, of at most 2^63, counts three HMAC
    /// values.
    pub(crate) fn new(
        scram_version: ScramVersion,
        secret: &[u8],
        username: &str,
        salt_len: usize,
        iterations: u32,
        meter: &mut Meter,
    ) -> Self
        requires { meter.old ≤ 2 ^ 63 }
        ensures record { result ≡ mock_record (record {
          version = scram_version;
          secret = secret.now;
          salt_len = salt_len;
          count = iterations;
        }) username.now }
        ensures counted { meter.new ≡ meter.old + 3 }
    {
        let name = username.as_bytes();
        let mechanism = scram_version.mechanism().as_bytes();
        let salt = mock_salt(secret, mechanism, name, meter);
        let key = HmacKey::new(scram_version, secret);
        let stored_key = key.mac(&[STORED_KEY_LABEL, name], meter);
        let server_key = key.mac(&[SERVER_KEY_LABEL, name], meter);
        MockValues {
            salt,
            salt_len,
            iterations,
            stored_key,
            server_key,
        }
    }

    /// Returns the record.
    pub(crate) fn as_stored_password(&self) -> StoredPassword<'_>
        ensures { kept result ≡ self.now }
    {
        StoredPassword {
            salt: first_bytes(self.salt.as_slice(), self.salt_len),
            iterations: self.iterations,
            stored_key: self.stored_key.as_slice(),
            server_key: self.server_key.as_slice(),
        }
    }
}

/// Returns the 64 bytes of which a mock salt is the prefix. Split off, since an array of slices needs one lifetime for
/// all of them.
fn mock_salt<'a>(
    secret: &[u8],
    mechanism: &'a [u8],
    username: &'a [u8],
    meter: &mut Meter,
) -> DigestBytes
    requires { meter.old + 1 < 2 ^ 64 }
    ensures value { digest_bytes result ≡ hmac_of ScramVersion.Sha512 secret.now
        (codes "Salt:" ++ (mechanism.now ++ (codes ":" ++ username.now))) }
    ensures counted { meter.new ≡ meter.old + 1 }
{
    HmacKey::new(ScramVersion::Sha512, secret).mac(
        &[SALT_LABEL, mechanism, SALT_LABEL_END, username],
        meter,
    )
}

/// Returns the first `len` bytes, or all if there are fewer.
fn first_bytes(bytes: &[u8], len: usize) -> &[u8]
    ensures { result.now ≡ take len bytes.now }
{
    if len < bytes.len() {
        &bytes[..len]
    } else {
        bytes
    }
}
