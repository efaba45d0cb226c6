//! The three hashes as types, and their digests. Nothing here allocates.

ghost use Rattle.std.specs.Prelude.{◌≡◌, ◌≢◌, ◌++◌, ℕ, List, [], length, IfOk, MatchResult};
ghost use Rattle.fe2o3_scram.specs.declared.hmac.ScramVersion.{ScramVersion};
ghost use Rattle.fe2o3_scram.specs.Hmac.{digest, digest_len, exclusive_or, digest_bytes, version_of};
ghost use Rattle.fe2o3_scram.specs.declared.hmac.ScramVersion.TheVariants.{Sha1, Sha256 as VersionSha256, Sha512 as VersionSha512};
ghost use Rattle.sha1.specs.Sha1.{Holds};
ghost use Rattle.sha2.specs.Hashers.{Holds256, Holds512};

use crate::hmac::ScramVersion;
use sha2::{Digest, Sha256, Sha512};
use thiserror::Error;

/// The two inputs of an XOR have different lengths.
#[derive(Debug, Clone, Copy, PartialEq, Eq, Error)]
#[error("XorLengthMismatch")]
pub struct XorLengthMismatch;

/// A digest or an HMAC value of one of the three hashes. It may be a secret, so it has no `Debug` and no `==`.
#[derive(Clone, Copy)]
pub enum DigestBytes {
    /// 20 bytes of SHA-1.
    Sha1([u8; 20]),

    /// 32 bytes of SHA-256.
    Sha256([u8; 32]),

    /// 64 bytes of SHA-512.
    Sha512([u8; 64]),
}

impl DigestBytes {
    /// Returns the digest of this version with these bytes, if their number is that of the version.
    pub(crate) fn from_slice(
        version: ScramVersion,
        bytes: &[u8],
    ) -> Result<DigestBytes, XorLengthMismatch>
        ensures bytes { MatchResult result (λ digest. (length bytes.now ≡ digest_len version)
            × (digest_bytes digest ≡ bytes.now)) (λ _. length bytes.now ≢ digest_len version) }
        ensures version { IfOk result (λ digest. version_of digest ≡ version) }
    {
        let digest = match version {
            ScramVersion::Sha1 => bytes.try_into().map(DigestBytes::Sha1),
            ScramVersion::Sha256 => bytes.try_into().map(DigestBytes::Sha256),
            ScramVersion::Sha512 => bytes.try_into().map(DigestBytes::Sha512),
        };
        digest.map_err(|_| XorLengthMismatch)
    }

    /// Returns the version of the digest.
    pub(crate) fn version(&self) -> ScramVersion
        ensures { result ≡ version_of self.now }
    {
        match self {
            DigestBytes::Sha1(_) => ScramVersion::Sha1,
            DigestBytes::Sha256(_) => ScramVersion::Sha256,
            DigestBytes::Sha512(_) => ScramVersion::Sha512,
        }
    }

    /// Returns the 20, 32 or 64 bytes.
    pub fn as_slice(&self) -> &[u8]
        ensures { result.now ≡ digest_bytes self.now }
    {
        match self {
            DigestBytes::Sha1(bytes) => bytes,
            DigestBytes::Sha256(bytes) => bytes,
            DigestBytes::Sha512(bytes) => bytes,
        }
    }

    /// XORs another digest of the same version into this one.
    pub(crate) fn xor(&mut self, other: &DigestBytes)
        requires { version_of self.old ≡ version_of other.now }
        ensures bytes { digest_bytes self.new ≡ exclusive_or (digest_bytes self.old) (digest_bytes other.now) }
        ensures version { version_of self.new ≡ version_of self.old }
    {
        match (self, other) {
            (DigestBytes::Sha1(left), DigestBytes::Sha1(right)) => xor(left, right),
            (DigestBytes::Sha256(left), DigestBytes::Sha256(right)) => xor(left, right),
            (DigestBytes::Sha512(left), DigestBytes::Sha512(right)) => xor(left, right),
            _ => unreachable!(),
        }
    }
}

/// XORs `rhs` into `lhs`.
pub(crate) fn xor(lhs: &mut [u8], rhs: &[u8])
    requires { length lhs.old ≡ length rhs.now }
    ensures { lhs.new ≡ exclusive_or lhs.old rhs.now }
{
    for at in 0..lhs.len() {
        lhs[at] ^= rhs[at];
    }
}

/// A hasher of one of the three hashes, whose digest has `N` bytes.
pub(crate) trait Hasher<const N: usize>: Drop {
    // The version of the hash.
    ghost hash: { ScramVersion };

    // The hasher has absorbed this message.
    ghost has_taken: { Self → List ℕ → Type 0 };

    /// Returns the version of the hash.
    fn version() -> ScramVersion
        ensures { result ≡ hash };

    /// Returns a hasher that has absorbed nothing.
    fn start() -> Self
        ensures { has_taken result [] };

    /// Returns another hasher that has absorbed the same message.
    fn copy(&self) -> Self
        ensures { (message : List ℕ) → has_taken self.now message → has_taken result message };

    /// Absorbs the input.
    fn take_in(&mut self, input: &[u8])
        ensures { (message : List ℕ) → has_taken self.old message → has_taken self.new (message ++ input.now) };

    /// Returns the digest of the absorbed message.
    fn into_digest(self) -> [u8; N]
        ensures { (message : List ℕ) → has_taken self message → result ≡ digest hash message };
}

impl Hasher<20> for sha1::Sha1 {
    ghost hash = { Sha1 };

    ghost has_taken = { λ state message. Holds state message };

    fn version() -> ScramVersion {
        ScramVersion::Sha1
    }

    fn start() -> Self {
        sha1::Sha1::new()
    }

    fn copy(&self) -> Self {
        self.clone().unwrap()
    }

    fn take_in(&mut self, input: &[u8]) {
        self.update(input);
    }

    #[tactic(auto, unfolding(crate::specs::Hmac::digest))]
    fn into_digest(self) -> [u8; 20] {
        self.finalize()
    }
}

impl Hasher<32> for Sha256 {
    ghost hash = { VersionSha256 };

    ghost has_taken = { λ state message. Holds256 state message };

    fn version() -> ScramVersion {
        ScramVersion::Sha256
    }

    fn start() -> Self {
        Sha256::new()
    }

    fn copy(&self) -> Self {
        self.clone().unwrap()
    }

    fn take_in(&mut self, input: &[u8]) {
        self.update(input);
    }

    #[tactic(auto, unfolding(crate::specs::Hmac::digest))]
    fn into_digest(self) -> [u8; 32] {
        self.finalize()
    }
}

impl Hasher<64> for Sha512 {
    ghost hash = { VersionSha512 };

    ghost has_taken = { λ state message. Holds512 state message };

    fn version() -> ScramVersion {
        ScramVersion::Sha512
    }

    fn start() -> Self {
        Sha512::new()
    }

    fn copy(&self) -> Self {
        self.clone().unwrap()
    }

    fn take_in(&mut self, input: &[u8]) {
        self.update(input);
    }

    #[tactic(auto, unfolding(crate::specs::Hmac::digest))]
    fn into_digest(self) -> [u8; 64] {
        self.finalize()
    }
}

/// Returns the digest of the message under the hash `H`.
fn digest_by<const N: usize, H: Hasher<N>>(message: &[u8]) -> [u8; N]
    ensures { result ≡ digest H.hash message.now }
{
    let mut hasher = H::start();
    hasher.take_in(message);
    hasher.into_digest()
}

/// Returns the digest of the message.
pub(crate) fn digest_of(version: ScramVersion, message: &[u8]) -> DigestBytes
    ensures { digest_bytes result ≡ digest version message.now }
{
    match version {
        ScramVersion::Sha1 => DigestBytes::Sha1(digest_by::<20, sha1::Sha1>(message)),
        ScramVersion::Sha256 => DigestBytes::Sha256(digest_by::<32, Sha256>(message)),
        ScramVersion::Sha512 => DigestBytes::Sha512(digest_by::<64, Sha512>(message)),
    }
}
