//! The keys, the proof and the signature of SCRAM, under the names of RFC 5802, section 3.
//!
//! A side that keeps its keys needs no password: a client makes its proof from the ClientKey, and a server tests it
//! against the StoredKey and signs by the ServerKey.
//!
//! Keys, proofs and signatures are as long as a digest: 20 bytes of SHA-1 (RFC 5802), 32 of SHA-256 (RFC 7677), 64 of
//! SHA-512, for which no RFC names a mechanism. The methods allocate nothing. The meter counts the HMAC values that
//! each makes, and has to be below 2^64 - 1 before the call.

ghost use Rattle.std.specs.Prelude.{◌≡◌, ◌<◌, ◌+◌, ◌^◌, ◌↔◌, IsTrue, IfOk};
ghost use Rattle.fe2o3_scram.specs.Hmac.{digest_bytes, exclusive_or, version_of};
ghost use Rattle.fe2o3_scram.specs.Keys.{CostsOne, MeetsStoredKey, OkWhereSized, auth_message, client_key, client_proof, client_signature, recovered_client_key, server_key, server_signature, stored_key};
ghost use Rattle.fe2o3_scram.specs.declared.keys.RecordError.TheVariants.{OutOfMemory as OutOfMemoryError};
ghost use Rattle.fe2o3_scram.specs.private.Pieces.{whole};

mod cached_keys;

use crate::OutOfMemory;
use crate::hmac::hasher::digest_of;
use crate::hmac::keyed::HmacKey;
use crate::hmac::{DigestBytes, Meter, ScramVersion, XorLengthMismatch};
pub use crate::keys::cached_keys::CachedKeys;
use crate::same_bytes::same_bytes;
use std::alloc::{AllocError, Global};
use thiserror::Error;

/// The input of which the ClientKey is the HMAC.
const CLIENT_KEY_LABEL: &[u8] = b"Client Key";

/// The input of which the ServerKey is the HMAC.
const SERVER_KEY_LABEL: &[u8] = b"Server Key";

/// Why a password gives no keys and no record.
#[derive(Debug, Clone, Copy, PartialEq, Eq, Error)]
pub enum RecordError {
    /// The password is not printable ASCII.
    #[error("Error normalizing password")]
    NormalizeError,

    /// The iteration count is 0.
    #[error("Iteration count is zero")]
    ZeroIterations,

    /// An allocation failed.
    #[error("Out of memory")]
    OutOfMemory,
}

impl From<AllocError> for RecordError {
    ghost from_gives = { λ _ error. error ≡ OutOfMemoryError };

    fn from(_error: AllocError) -> Self {
        RecordError::OutOfMemory
    }
}

/// Concatenates the AuthMessage: the client-first message without its GS2 header, the server-first message, and the
/// client-final message up to its proof, with commas between them, each as it was sent (RFC 5802, section 3). Any bytes
/// are accepted.
///
/// The only error is `OutOfMemory`, of the one allocation.
pub fn auth_message(
    alloc: Global,
    client_first_message_bare: &[u8],
    server_first_message: &[u8],
    client_final_message_without_proof: &[u8],
) -> Result<Vec<u8>, OutOfMemory>
    ensures { IfOk result (λ text. text.items ≡ auth_message client_first_message_bare.now server_first_message.now
        client_final_message_without_proof.now) }
{
    let room = client_first_message_bare
        .len()
        .saturating_add(server_first_message.len())
        .saturating_add(client_final_message_without_proof.len())
        .saturating_add(2);
    let mut buf = Vec::with_capacity(alloc, room)?;
    buf.extend_from_slice(client_first_message_bare)?;
    buf.push(b',')?;
    buf.extend_from_slice(server_first_message)?;
    buf.push(b',')?;
    buf.extend_from_slice(client_final_message_without_proof)?;
    Ok(buf)
}

/// Returns the pieces of the AuthMessage, for calls that do not concatenate them.
pub(crate) fn auth_pieces<'a>(
    client_first_message_bare: &'a [u8],
    server_first_message: &'a [u8],
    client_final_message_without_proof: &'a [u8],
) -> [&'a [u8]; 5]
    ensures { whole result ≡ auth_message client_first_message_bare.now server_first_message.now
        client_final_message_without_proof.now }
{
    [
        client_first_message_bare,
        b",",
        server_first_message,
        b",",
        client_final_message_without_proof,
    ]
}

impl ScramVersion {
    /// Computes the two keys of a salted password: the ClientKey and the ServerKey, two HMAC values.
    pub(crate) fn client_and_server_key(
        &self,
        salted_password: &[u8],
        meter: &mut Meter,
    ) -> (DigestBytes, DigestBytes)
        requires { meter.old + 2 < 2 ^ 64 }
        ensures client { digest_bytes result.0 ≡ client_key self.now salted_password.now }
        ensures server { digest_bytes result.1 ≡ server_key self.now salted_password.now }
        ensures version { version_of result.0 ≡ self.now }
        ensures counted { meter.new ≡ meter.old + 2 }
    {
        let key = HmacKey::new(*self, salted_password);
        let client_key = key.mac(&[CLIENT_KEY_LABEL], meter);
        let server_key = key.mac(&[SERVER_KEY_LABEL], meter);
        (client_key, server_key)
    }

    /// Computes the ClientKey: `HMAC(SaltedPassword, "Client Key")`, one HMAC value. The salted password is any bytes,
    /// and that of a login is as long as a digest.
    pub fn client_key(&self, salted_password: &[u8], meter: &mut Meter) -> DigestBytes
        requires { meter.old + 1 < 2 ^ 64 }
        ensures key { digest_bytes result ≡ client_key self.now salted_password.now }
        ensures counted { meter.new ≡ meter.old + 1 }
    {
        HmacKey::new(*self, salted_password).mac(&[CLIENT_KEY_LABEL], meter)
    }

    /// Computes the StoredKey: `H(ClientKey)`, no HMAC value. The ClientKey is any bytes; one from `client_key` is as
    /// long as a digest.
    pub fn stored_key(&self, client_key: &[u8]) -> DigestBytes
        ensures { digest_bytes result ≡ stored_key self.now client_key.now }
    {
        digest_of(*self, client_key)
    }

    /// Computes the ServerKey: `HMAC(SaltedPassword, "Server Key")`, one HMAC value. The salted password is any bytes.
    pub fn server_key(&self, salted_password: &[u8], meter: &mut Meter) -> DigestBytes
        requires { meter.old + 1 < 2 ^ 64 }
        ensures key { digest_bytes result ≡ server_key self.now salted_password.now }
        ensures counted { meter.new ≡ meter.old + 1 }
    {
        HmacKey::new(*self, salted_password).mac(&[SERVER_KEY_LABEL], meter)
    }

    /// Computes the ClientProof: the ClientKey XOR the ClientSignature, which is `HMAC(H(ClientKey), AuthMessage)`. One
    /// HMAC value.
    ///
    /// The only error is `XorLengthMismatch`, if the ClientKey is not as long as a digest. Then no HMAC value is made.
    pub fn compute_client_proof(
        &self,
        client_key: &[u8],
        auth_message: &[u8],
        meter: &mut Meter,
    ) -> Result<DigestBytes, XorLengthMismatch>
        requires { meter.old + 1 < 2 ^ 64 }
        ensures proof { OkWhereSized self.now client_key.now result
            (λ proof. digest_bytes proof ≡ client_proof self.now client_key.now auth_message.now) }
        ensures cost { CostsOne result meter.old meter.new }
    {
        self.client_proof_over(client_key, &[auth_message], meter)
    }

    /// Recovers the ClientKey as a server does: the ClientProof XOR the ClientSignature, which is `HMAC(StoredKey,
    /// AuthMessage)`. One HMAC value. The result is the client's key if its digest is the StoredKey.
    ///
    /// The only error is `XorLengthMismatch`, if the proof is not as long as a digest. Then no HMAC value is made. The
    /// StoredKey is any bytes.
    pub fn recovered_client_key(
        &self,
        stored_key: &[u8],
        client_proof: &[u8],
        auth_message: &[u8],
        meter: &mut Meter,
    ) -> Result<DigestBytes, XorLengthMismatch>
        requires { meter.old + 1 < 2 ^ 64 }
        ensures key { OkWhereSized self.now client_proof.now result (λ key. digest_bytes key
            ≡ recovered_client_key self.now stored_key.now client_proof.now auth_message.now) }
        ensures cost { CostsOne result meter.old meter.new }
    {
        self.signed(client_proof, stored_key, &[auth_message], meter)
    }

    /// Returns whether the proof meets the StoredKey, that is, whether the recovered ClientKey's digest is the
    /// StoredKey. One HMAC value. Keys are compared over the whole length, whatever the bytes are. That is read in the
    /// code and not proved; no claim is made about time.
    ///
    /// The only error is `XorLengthMismatch`, if the proof is not as long as a digest. Then no HMAC value is made. The
    /// StoredKey is any bytes.
    pub fn verify_client_proof(
        &self,
        stored_key: &[u8],
        client_proof: &[u8],
        auth_message: &[u8],
        meter: &mut Meter,
    ) -> Result<bool, XorLengthMismatch>
        requires { meter.old + 1 < 2 ^ 64 }
        ensures verdict { OkWhereSized self.now client_proof.now result (λ meets. IsTrue meets
            ↔ MeetsStoredKey self.now stored_key.now client_proof.now auth_message.now) }
        ensures cost { CostsOne result meter.old meter.new }
    {
        self.meets_stored_key(stored_key, client_proof, &[auth_message], meter)
    }

    /// Computes the ServerSignature: `HMAC(ServerKey, AuthMessage)`, one HMAC value. The ServerKey is any bytes.
    pub fn compute_server_signature(
        &self,
        server_key: &[u8],
        auth_message: &[u8],
        meter: &mut Meter,
    ) -> DigestBytes
        requires { meter.old + 1 < 2 ^ 64 }
        ensures signature { digest_bytes result ≡ server_signature self.now server_key.now auth_message.now }
        ensures counted { meter.new ≡ meter.old + 1 }
    {
        self.server_signature_over(server_key, &[auth_message], meter)
    }

    /// Like `compute_client_proof`, with an AuthMessage in pieces.
    pub(crate) fn client_proof_over(
        &self,
        client_key: &[u8],
        auth_message: &[&[u8]],
        meter: &mut Meter,
    ) -> Result<DigestBytes, XorLengthMismatch>
        requires { meter.old + 1 < 2 ^ 64 }
        ensures proof { OkWhereSized self.now client_key.now result (λ proof. digest_bytes proof
            ≡ client_proof self.now client_key.now (whole auth_message.now)) }
        ensures cost { CostsOne result meter.old meter.new }
    {
        let stored_key = self.stored_key(client_key);
        self.signed(client_key, stored_key.as_slice(), auth_message, meter)
    }

    /// Like `verify_client_proof`, with an AuthMessage in pieces.
    pub(crate) fn meets_stored_key(
        &self,
        stored_key: &[u8],
        client_proof: &[u8],
        auth_message: &[&[u8]],
        meter: &mut Meter,
    ) -> Result<bool, XorLengthMismatch>
        requires { meter.old + 1 < 2 ^ 64 }
        ensures verdict { OkWhereSized self.now client_proof.now result (λ meets. IsTrue meets
            ↔ MeetsStoredKey self.now stored_key.now client_proof.now (whole auth_message.now)) }
        ensures cost { CostsOne result meter.old meter.new }
    {
        let client_key = self.signed(client_proof, stored_key, auth_message, meter)?;
        Ok(same_bytes(
            self.stored_key(client_key.as_slice()).as_slice(),
            stored_key,
        ))
    }

    /// Like `compute_server_signature`, with an AuthMessage in pieces.
    pub(crate) fn server_signature_over(
        &self,
        server_key: &[u8],
        auth_message: &[&[u8]],
        meter: &mut Meter,
    ) -> DigestBytes
        requires { meter.old + 1 < 2 ^ 64 }
        ensures signature { digest_bytes result
            ≡ server_signature self.now server_key.now (whole auth_message.now) }
        ensures counted { meter.new ≡ meter.old + 1 }
    {
        HmacKey::new(*self, server_key).mac(auth_message, meter)
    }

    /// XORs `text` with the ClientSignature: a ClientKey becomes its ClientProof, and a proof its key (RFC 5802,
    /// section 3).
    fn signed(
        &self,
        text: &[u8],
        stored_key: &[u8],
        auth_message: &[&[u8]],
        meter: &mut Meter,
    ) -> Result<DigestBytes, XorLengthMismatch>
        requires { meter.old + 1 < 2 ^ 64 }
        ensures sum { OkWhereSized self.now text.now result (λ sum. digest_bytes sum
            ≡ exclusive_or text.now (client_signature self.now stored_key.now (whole auth_message.now))) }
        ensures cost { CostsOne result meter.old meter.new }
    {
        let mut sum = DigestBytes::from_slice(*self, text)?;
        let client_signature = HmacKey::new(*self, stored_key).mac(auth_message, meter);
        sum.xor(&client_signature);
        Ok(sum)
    }
}
