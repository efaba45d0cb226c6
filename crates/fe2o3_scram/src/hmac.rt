//! The hashes of SCRAM and HMAC over them (RFC 2104).

ghost use Rattle.std.specs.Prelude.{◌≡◌, ◌≢◌, IfOk, MatchOption, MatchResult};
ghost use Rattle.fe2o3_scram.specs.declared.hmac.ScramVersion.{ScramVersion};
ghost use Rattle.fe2o3_scram.specs.ChannelBinding.{mechanism_of};
ghost use Rattle.fe2o3_scram.specs.Hmac.{mechanism_name, digest, digest_len, block_len, hmac_of};

pub(crate) mod hasher;
pub(crate) mod keyed;
pub(crate) mod meter;

use crate::OutOfMemory;
use crate::hmac::hasher::digest_of;
pub use crate::hmac::hasher::{DigestBytes, XorLengthMismatch};
use crate::hmac::keyed::HmacKey;
pub use crate::hmac::meter::Meter;
use std::alloc::Global;
use std::str::FromStr;
use thiserror::Error;

/// The mechanism name of SCRAM with SHA-1.
pub const SCRAM_SHA_1: &str = "SCRAM-SHA-1";

/// The mechanism name of SCRAM with SHA-256.
pub const SCRAM_SHA_256: &str = "SCRAM-SHA-256";

/// The mechanism name of SCRAM with SHA-512.
pub const SCRAM_SHA_512: &str = "SCRAM-SHA-512";

/// The mechanism name of SCRAM with SHA-1 and channel binding.
pub const SCRAM_SHA_1_PLUS: &str = "SCRAM-SHA-1-PLUS";

/// The mechanism name of SCRAM with SHA-256 and channel binding.
pub const SCRAM_SHA_256_PLUS: &str = "SCRAM-SHA-256-PLUS";

/// The mechanism name of SCRAM with SHA-512 and channel binding.
pub const SCRAM_SHA_512_PLUS: &str = "SCRAM-SHA-512-PLUS";

/// The name is not that of a known SCRAM mechanism.
#[derive(Debug, Clone, Copy, PartialEq, Eq, Error)]
#[error("Unknown SCRAM mechanism")]
pub struct UnknownMechanism;

/// The hash of a SCRAM mechanism.
#[derive(Debug, Clone, Copy, PartialEq, Eq)]
pub enum ScramVersion {
    /// SHA-1, of `SCRAM-SHA-1` (RFC 5802). New applications should use SHA-256.
    Sha1,

    /// SHA-256, of `SCRAM-SHA-256` (RFC 7677).
    Sha256,

    /// SHA-512, of `SCRAM-SHA-512`. No RFC names this mechanism: it is RFC 5802 with this hash.
    Sha512,
}

impl ScramVersion {
    /// Returns the name of the SASL mechanism: `SCRAM-SHA-1` (RFC 5802, section 4), `SCRAM-SHA-256` (RFC 7677, section
    /// 3) or `SCRAM-SHA-512`, which no RFC names.
    pub fn mechanism(&self) -> &'static str
        ensures { result.now ≡ mechanism_name self.now }
    {
        match self {
            ScramVersion::Sha1 => SCRAM_SHA_1,
            ScramVersion::Sha256 => SCRAM_SHA_256,
            ScramVersion::Sha512 => SCRAM_SHA_512,
        }
    }

    /// Returns the name of the SASL mechanism, or with `plus` that of the one with channel binding (RFC 5802, section 4).
    pub fn mechanism_with(&self, plus: bool) -> &'static str
        ensures { result.now ≡ mechanism_of self.now plus }
    {
        if !plus {
            return self.mechanism();
        }
        match self {
            ScramVersion::Sha1 => SCRAM_SHA_1_PLUS,
            ScramVersion::Sha256 => SCRAM_SHA_256_PLUS,
            ScramVersion::Sha512 => SCRAM_SHA_512_PLUS,
        }
    }

    /// Returns the version of the SASL mechanism with this name, compared byte by byte, or `None` for any other name.
    pub fn from_mechanism(name: &str) -> Option<ScramVersion>
        ensures { MatchOption result ((version : ScramVersion) → mechanism_name version ≢ name.now)
            (λ version. mechanism_name version ≡ name.now) }
    {
        match name {
            SCRAM_SHA_1 => Some(ScramVersion::Sha1),
            SCRAM_SHA_256 => Some(ScramVersion::Sha256),
            SCRAM_SHA_512 => Some(ScramVersion::Sha512),
            _ => None,
        }
    }

    /// Computes the digest of the input: `H` of RFC 5802, section 2.2. It has 20 bytes of SHA-1, 32 of SHA-256 and 64
    /// of SHA-512.
    ///
    /// The only error is `OutOfMemory`. The digest is the only allocation.
    pub fn h(&self, alloc: Global, input: &[u8]) -> Result<Vec<u8>, OutOfMemory>
        ensures { IfOk result (λ output. output.items ≡ digest self.now input.now) }
    {
        digest_of(*self, input).as_slice().to_vec(alloc)
    }

    /// Computes the HMAC of the input under a key (RFC 2104, section 2; RFC 5802, section 2.2), as long as a digest.
    /// Key and input have any length: a key longer than a block is hashed first, and zeros pad a shorter one.
    ///
    /// The only error is `OutOfMemory`. The value is the only allocation.
    pub fn hmac(&self, alloc: Global, key: &[u8], input: &[u8]) -> Result<Vec<u8>, OutOfMemory>
        ensures { IfOk result (λ output. output.items ≡ hmac_of self.now key.now input.now) }
    {
        HmacKey::new(*self, key)
            .mac(&[input], &mut Meter::new())
            .as_slice()
            .to_vec(alloc)
    }

    /// Returns the block length of the hash, in bytes.
    pub(crate) fn block_len(&self) -> usize
        ensures { result ≡ block_len self.now }
    {
        match self {
            ScramVersion::Sha1 | ScramVersion::Sha256 => 64,
            ScramVersion::Sha512 => 128,
        }
    }

    /// Returns the length of a digest, in bytes.
    pub(crate) fn digest_len(&self) -> usize
        ensures { result ≡ digest_len self.now }
    {
        match self {
            ScramVersion::Sha1 => 20,
            ScramVersion::Sha256 => 32,
            ScramVersion::Sha512 => 64,
        }
    }
}

impl FromStr for ScramVersion {
    type Err = UnknownMechanism;

    ghost from_str_gives = { λ name result. MatchResult result (λ version. mechanism_name version ≡ name)
        (λ _. (version : ScramVersion) → mechanism_name version ≢ name) };

    fn from_str(name: &str) -> Result<Self, UnknownMechanism> {
        ScramVersion::from_mechanism(name).ok_or(UnknownMechanism)
    }
}
