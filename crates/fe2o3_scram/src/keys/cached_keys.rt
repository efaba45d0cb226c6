//! The keys that a client keeps instead of its password (RFC 5802, section 3).

ghost use Rattle.std.specs.Prelude.{◌≡◌, ◌≤◌, ◌+◌, ◌<◌, ◌^◌, ◌&&◌, nat_eq, MatchResult};
ghost use Rattle.std.specs.Cmp.Lexicographic.{pointwise};
ghost use Rattle.fe2o3_scram.specs.ClientKeys.{AreSized, ClientKeys, MakesKeys, keys_with};
ghost use Rattle.fe2o3_scram.specs.Credentials.{MakingCosts, making_tests};
ghost use Rattle.fe2o3_scram.specs.Hmac.{digest_bytes};
ghost use Rattle.fe2o3_scram.specs.Keys.{client_key, client_proof, server_key};
ghost use Rattle.fe2o3_scram.specs.Passwords.{password_of};
ghost use Rattle.fe2o3_scram.specs.Readings.{Gives, NoneHolds};
ghost use Rattle.fe2o3_scram.specs.private.Pieces.{whole};

use crate::hmac::keyed::HmacKey;
use crate::hmac::{DigestBytes, Meter, ScramVersion, XorLengthMismatch};
use crate::keys::RecordError;
use crate::passwords::Password;
use std::alloc::{AllocError, Global};
use std::fmt;
use std::marker::Model;

/// What a client keeps of its password: the ClientKey and the ServerKey, with their version, salt and iteration count.
/// It does not contain the password. With the ClientKey anyone can log in to a server that keeps that salt and count,
/// and with the ServerKey anyone can impersonate the server.
#[derive(Drop)]
pub struct CachedKeys {
    salt: Vec<u8>,
    iterations: u32,
    client_key: DigestBytes,
    server_key: DigestBytes,
}

impl Model for CachedKeys {
    ghost use Rattle.fe2o3_scram.specs.ClientKeys.{ClientKeys, keys_with};
    ghost use Rattle.fe2o3_scram.specs.Hmac.{digest_bytes, version_of};

    ghost Value = { ClientKeys };

    ghost view = { λ keys. keys_with (version_of keys.client_key) keys.salt.items keys.iterations
        (digest_bytes keys.client_key) (digest_bytes keys.server_key) };
}

impl CachedKeys {
    /// Computes the keys of a password with this salt and this iteration count (RFC 5802, section 3). Printable ASCII
    /// has the same keys, typed or prepared.
    ///
    /// The errors are, in this order: `NormalizeError` for a typed password that is not printable ASCII (RFC 4013,
    /// section 2), `ZeroIterations` if the count is 0, and `OutOfMemory`.
    ///
    /// The meter, of at most 2^63, counts the HMAC values: two more than the iterations, none if the password or the
    /// count is rejected, and at most that many if memory runs out.
    pub fn from_password(
        alloc: Global,
        scram_version: ScramVersion,
        password: Password<'_>,
        salt: &[u8],
        iterations: u32,
        meter: &mut Meter,
    ) -> Result<Self, RecordError>
        requires { meter.old ≤ 2 ^ 63 }
        ensures keys { Gives RecordError.OutOfMemory (NoneHolds (making_tests (password_of password.entry) iterations))
            (λ (made : ClientKeys). made) result
            (MakesKeys scram_version (password_of password.entry) salt.now iterations) }
        ensures cost { MakingCosts iterations result meter.old meter.new }
    {
        let Ok(text) = password.normalized() else {
            return Err(RecordError::NormalizeError);
        };
        if iterations == 0 {
            return Err(RecordError::ZeroIterations);
        }
        let owned_salt = salt.to_vec(alloc)?;
        let salted_password = scram_version.salted_password(
            text.as_bytes(),
            salt,
            iterations,
            meter,
        );
        Ok(CachedKeys::from_salted_password(
            scram_version,
            owned_salt,
            iterations,
            salted_password.as_slice(),
            meter,
        ))
    }

    /// Computes the keys of a salted password (RFC 5802, section 3) of this salt and iteration count: two HMAC values.
    /// The salted password is any bytes, and that of a login is as long as a digest.
    pub fn from_salted_password(
        scram_version: ScramVersion,
        salt: Vec<u8>,
        iterations: u32,
        salted_password: &[u8],
        meter: &mut Meter,
    ) -> Self
        requires { meter.old + 2 < 2 ^ 64 }
        ensures keys { result ≡ keys_with scram_version salt.items iterations
            (client_key scram_version salted_password.now) (server_key scram_version salted_password.now) }
        ensures counted { meter.new ≡ meter.old + 2 }
    {
        let (client_key, server_key) = scram_version.client_and_server_key(salted_password, meter);
        Self {
            salt,
            iterations,
            client_key,
            server_key,
        }
    }

    /// Makes keys of these very values. No HMAC value is made.
    ///
    /// The only error is `XorLengthMismatch`, if the ClientKey or the ServerKey is not as long as a digest.
    pub fn from_parts(
        scram_version: ScramVersion,
        salt: Vec<u8>,
        iterations: u32,
        client_key: &[u8],
        server_key: &[u8],
    ) -> Result<Self, XorLengthMismatch>
        ensures { MatchResult result
            (λ keys. AreSized keys
            × (keys ≡ keys_with scram_version salt.items iterations client_key.now server_key.now))
            (λ _. ¬ AreSized (keys_with scram_version salt.items iterations client_key.now server_key.now)) }
    {
        Ok(Self {
            salt,
            iterations,
            client_key: DigestBytes::from_slice(scram_version, client_key)?,
            server_key: DigestBytes::from_slice(scram_version, server_key)?,
        })
    }

    /// Returns the version of the keys.
    pub fn scram_version(&self) -> ScramVersion
        ensures { result ≡ self.now.version }
    {
        self.client_key.version()
    }

    /// Returns the salt of the keys.
    pub fn salt(&self) -> &[u8]
        ensures { result.now ≡ self.now.salt }
    {
        &self.salt
    }

    /// Returns the iteration count of the keys.
    pub fn iterations(&self) -> u32
        ensures { result ≡ self.now.count }
    {
        self.iterations
    }

    /// Returns the ClientKey, a secret.
    pub fn client_key(&self) -> &[u8]
        ensures { result.now ≡ self.now.client_key }
    {
        self.client_key.as_slice()
    }

    /// Returns the ServerKey, a secret.
    pub fn server_key(&self) -> &[u8]
        ensures { result.now ≡ self.now.server_key }
    {
        self.server_key.as_slice()
    }

    /// Returns whether the keys are of this salt and this iteration count.
    pub(crate) fn are_of(&self, salt: &[u8], iterations: u32) -> bool
        ensures { result ≡ (pointwise nat_eq salt.now self.now.salt && nat_eq iterations self.now.count) }
    {
        salt == self.salt() && iterations == self.iterations()
    }

    /// Returns a copy that takes over `salt`, an equal buffer that is already allocated.
    pub(crate) fn with_salt(&self, salt: Vec<u8>) -> Self
        requires { salt.items ≡ self.now.salt }
        ensures { result ≡ self.now }
    {
        Self {
            salt,
            iterations: self.iterations,
            client_key: self.client_key,
            server_key: self.server_key,
        }
    }

    /// Computes the ClientProof of an AuthMessage in pieces: one HMAC value.
    pub(crate) fn client_proof(&self, auth_message: &[&[u8]], meter: &mut Meter) -> DigestBytes
        requires { meter.old + 1 < 2 ^ 64 }
        ensures proof { digest_bytes result
            ≡ client_proof self.now.version self.now.client_key (whole auth_message.now) }
        ensures counted { meter.new ≡ meter.old + 1 }
    {
        let version = self.scram_version();
        let stored_key = version.stored_key(self.client_key());
        let client_signature = HmacKey::new(version, stored_key.as_slice()).mac(
            auth_message,
            meter,
        );
        let mut proof = self.client_key;
        proof.xor(&client_signature);
        proof
    }
}

impl fmt::Debug for CachedKeys {
    /// Writes the version and the iteration count, and no key: with the ClientKey anyone can log in.
    fn fmt<W: fmt::Write>(&self, f: &mut fmt::Formatter<W>) -> fmt::Result {
        write!(
            f,
            "CachedKeys {{ scram_version: {:?}, iterations: {}, .. }}",
            self.scram_version(),
            self.iterations
        )
    }
}

impl Clone for CachedKeys {
    ghost is_clone = { λ keys copy. copy ≡ keys };

    fn clone(&self) -> Result<Self, AllocError> {
        Ok(Self {
            salt: self.salt.clone()?,
            iterations: self.iterations,
            client_key: self.client_key,
            server_key: self.server_key,
        })
    }
}
