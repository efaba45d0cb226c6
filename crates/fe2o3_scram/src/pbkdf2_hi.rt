//! The salted password: `Hi` of RFC 5802, section 2.2, which is PBKDF2 with one block of output.

ghost use Rattle.std.specs.Prelude.{◌≡◌, ◌≤◌, ◌+◌, ◌^◌, ◌↔◌, ℕ, List, IfOk, OnOk, OnErr};
ghost use Rattle.fe2o3_scram.specs.Hmac.{digest_bytes};
ghost use Rattle.fe2o3_scram.specs.private.Hashers.{HasPads};
ghost use Rattle.fe2o3_scram.specs.Pbkdf2Hi.{salted_of};
ghost use Rattle.fe2o3_scram.specs.SaslprepAscii.{IsPrintable};
ghost use Rattle.fe2o3_scram.specs.declared.pbkdf2_hi.KeyError.TheVariants.{NormalizeError, OutOfMemory};

use crate::OutOfMemory;
use crate::hmac::hasher::{DigestBytes, Hasher, xor};
use crate::hmac::keyed::{HmacKey, PaddedKey};
use crate::hmac::{Meter, ScramVersion};
use crate::saslprep_ascii::{self, saslprep};
use std::alloc::{AllocError, Global};
use thiserror::Error;

/// Why a password has no salted password.
#[derive(Debug, Clone, Copy, PartialEq, Eq, Error)]
pub enum KeyError {
    /// The password is not printable ASCII.
    #[error("NormalizeError")]
    NormalizeError,

    /// An allocation failed.
    #[error("OutOfMemory")]
    OutOfMemory,
}

impl From<AllocError> for KeyError {
    ghost from_gives = { λ _ error. error ≡ OutOfMemory };

    fn from(_error: AllocError) -> KeyError {
        KeyError::OutOfMemory
    }
}

impl From<saslprep_ascii::NormalizeError> for KeyError {
    ghost from_gives = { λ _ error. error ≡ NormalizeError };

    fn from(_error: saslprep_ascii::NormalizeError) -> KeyError {
        KeyError::NormalizeError
    }
}

impl ScramVersion {
    /// Computes the salted password: `Hi(password, salt, iterations)` of RFC 5802, section 2.2, which is PBKDF2 of RFC
    /// 8018, section 5.2, with one block of output. It is as long as a digest: 20 bytes of SHA-1, 32 of SHA-256, 64 of
    /// SHA-512.
    ///
    /// Password and salt are any bytes. The password is not prepared here: `compute_salted_password` does that. The
    /// iterations, which the caller ensures are not 0, are the HMAC values that are made.
    ///
    /// The only error is `OutOfMemory`, of the one allocation, which is for the result.
    pub fn h_i(
        &self,
        alloc: Global,
        password: &[u8],
        salt: &[u8],
        iterations: u32,
    ) -> Result<Vec<u8>, OutOfMemory>
        requires { 1 ≤ iterations }
        ensures { IfOk result (λ salted. salted.items ≡ salted_of self.now password.now salt.now iterations) }
    {
        self.h_i_metered(alloc, password, salt, iterations, &mut Meter::new())
    }

    /// Like `h_i`; the meter, of at most 2^63, counts the HMAC values, one for each iteration.
    ///
    /// If `OutOfMemory` is returned the meter shows from 0 to `iterations` more than before.
    pub fn h_i_metered(
        &self,
        alloc: Global,
        password: &[u8],
        salt: &[u8],
        iterations: u32,
        meter: &mut Meter,
    ) -> Result<Vec<u8>, OutOfMemory>
        requires iterations { 1 ≤ iterations }
        requires meter { meter.old ≤ 2 ^ 63 }
        ensures salted { IfOk result (λ salted. salted.items ≡ salted_of self.now password.now salt.now iterations) }
        ensures counted { OnOk result (meter.new ≡ meter.old + iterations) }
        ensures memory { OnErr result ((meter.old ≤ meter.new) × (meter.new ≤ meter.old + iterations)) }
    {
        let salted = self.salted_password(password, salt, iterations, meter);
        salted.as_slice().to_vec(alloc)
    }

    /// Prepares a password and computes its salted password (RFC 5802, section 2.2; RFC 4013). Printable ASCII is
    /// prepared to itself. Salt, iterations and length are those of `h_i`, and the iterations must not be 0.
    ///
    /// The errors are, in this order: `NormalizeError` if a byte of the password is not printable ASCII, before any
    /// HMAC value is made, and `OutOfMemory`.
    pub fn compute_salted_password(
        &self,
        alloc: Global,
        password: &str,
        salt: &[u8],
        iterations: u32,
    ) -> Result<Vec<u8>, KeyError>
        requires { 1 ≤ iterations }
        ensures ok { IfOk result (λ salted. IsPrintable password.now
            × (salted.items ≡ salted_of self.now password.now salt.now iterations)) }
        ensures not_printable { (result ≡ Err KeyError.NormalizeError) ↔ ¬ IsPrintable password.now }
    {
        let normalized_password = saslprep(password)?;
        Ok(self.h_i(alloc, normalized_password.as_bytes(), salt, iterations)?)
    }

    /// Computes `Hi` as a digest, without an allocation.
    pub(crate) fn salted_password(
        &self,
        password: &[u8],
        salt: &[u8],
        iterations: u32,
        meter: &mut Meter,
    ) -> DigestBytes
        requires iterations { 1 ≤ iterations }
        requires meter { meter.old ≤ 2 ^ 63 }
        ensures salted { digest_bytes result ≡ salted_of self.now password.now salt.now iterations }
        ensures counted { meter.new ≡ meter.old + iterations }
    {
        match HmacKey::new(*self, password) {
            HmacKey::Sha1(key) => DigestBytes::Sha1(rounds(&key, salt, iterations, meter)),
            HmacKey::Sha256(key) => DigestBytes::Sha256(rounds(&key, salt, iterations, meter)),
            HmacKey::Sha512(key) => DigestBytes::Sha512(rounds(&key, salt, iterations, meter)),
        }
    }
}

/// Computes `Hi` under a password whose pads are hashed, without an allocation.
#[tactic(auto, using(crate::proofs::lemmas::hashes::HiRoundLemmas::rounds))]
fn rounds<const N: usize, H: Hasher<N>>(
    password: &PaddedKey<N, H>,
    salt: &[u8],
    iterations: u32,
    meter: &mut Meter,
) -> [u8; N]
    requires iterations { 1 ≤ iterations }
    requires meter { meter.old ≤ 2 ^ 63 }
    ensures salted { (key : List ℕ) → HasPads H.has_taken H.hash password.now.inner password.now.outer key
        → result ≡ salted_of H.hash key salt.now iterations }
    ensures counted { meter.new ≡ meter.old + iterations }
{
    let mut round = password.mac(&[salt, &1u32.to_be_bytes()], meter);
    let mut sum = round;
    for _done in 1..iterations {
        round = password.mac_one(&round, meter);
        xor(&mut sum, &round);
    }
    sum
}
