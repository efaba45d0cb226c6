//! HMAC whose pads are hashed once for each key (RFC 2104, section 4). Nothing here allocates.

ghost use Rattle.std.specs.Prelude.{◌≡◌, ◌≤◌, ◌<◌, ◌+◌, ◌^◌, ◌++◌, ℕ, List, length};
ghost use Rattle.fe2o3_scram.specs.declared.hmac.ScramVersion.{ScramVersion};
ghost use Rattle.fe2o3_scram.specs.Hmac.{hmac_of, block_len, key_block, masked, zero_filled, digest_bytes, version_of};
ghost use Rattle.fe2o3_scram.specs.private.Hashers.{HasPads, IsKeyOf};
ghost use Rattle.fe2o3_scram.specs.private.Pieces.{whole};

use crate::hmac::ScramVersion;
use crate::hmac::hasher::{DigestBytes, Hasher, digest_of};
use crate::hmac::meter::Meter;
use sha2::{Sha256, Sha512};

/// The longest block of the three hashes, in bytes.
const MAX_BLOCK_LEN: usize = 128;

/// The byte that fills the inner pad.
const INNER_MASK: u8 = 0x36;

/// The byte that fills the outer pad.
const OUTER_MASK: u8 = 0x5c;

/// A key of one hash, as the two hashers that have absorbed its pads.
#[derive(Drop)]
pub(crate) struct PaddedKey<const N: usize, H> {
    inner: H,
    outer: H,
}

/// Returns a hasher that has absorbed one pad: the key, padded with zeros to a block, XORed with the mask.
fn pad_taken<const N: usize, H: Hasher<N>>(key: &[u8], mask: u8) -> H
    requires { length key.now ≤ block_len H.hash }
    ensures { H.has_taken result (masked mask (zero_filled (block_len H.hash) key.now)) }
{
    let mut pad = [mask; MAX_BLOCK_LEN];
    for at in 0..key.len() {
        pad[at] = key[at] ^ mask;
    }
    let mut hasher = H::start();
    hasher.take_in(&pad[..H::version().block_len()]);
    hasher
}

impl<const N: usize, H: Hasher<N>> PaddedKey<N, H> {
    /// Prepares a key of any length. A key longer than a block is hashed first.
    #[tactic(auto, unfolding(crate::specs::Hmac::key_block))]
    fn new(key: &[u8]) -> PaddedKey<N, H>
        ensures { HasPads H.has_taken H.hash result.inner result.outer key.now }
    {
        let version = H::version();
        if key.len() > version.block_len() {
            let digest = digest_of(version, key);
            PaddedKey {
                inner: pad_taken(digest.as_slice(), INNER_MASK),
                outer: pad_taken(digest.as_slice(), OUTER_MASK),
            }
        } else {
            PaddedKey {
                inner: pad_taken(key, INNER_MASK),
                outer: pad_taken(key, OUTER_MASK),
            }
        }
    }

    /// Computes the HMAC of the concatenated pieces. The meter counts it.
    pub fn mac(&self, message: &[&[u8]], meter: &mut Meter) -> [u8; N]
        requires { meter.old + 1 < 2 ^ 64 }
        ensures value { (key : List ℕ) → HasPads H.has_taken H.hash self.now.inner self.now.outer key
            → result ≡ hmac_of H.hash key (whole message.now) }
        ensures counted { meter.new ≡ meter.old + 1 }
    {
        let mut inner = self.inner.copy();
        for piece in message {
            inner.take_in(piece);
        }
        self.close(inner, meter)
    }

    /// Computes the HMAC of a message in one piece. The meter counts it.
    pub fn mac_one(&self, message: &[u8], meter: &mut Meter) -> [u8; N]
        requires { meter.old + 1 < 2 ^ 64 }
        ensures value { (key : List ℕ) → HasPads H.has_taken H.hash self.now.inner self.now.outer key
            → result ≡ hmac_of H.hash key message.now }
        ensures counted { meter.new ≡ meter.old + 1 }
    {
        let mut inner = self.inner.copy();
        inner.take_in(message);
        self.close(inner, meter)
    }

    /// Computes the HMAC of a message that the inner hasher has absorbed after the inner pad. Every HMAC value is made
    /// here, and the meter counts it.
    #[tactic(auto, unfolding(crate::specs::Hmac::hmac_of))]
    fn close(&self, inner: H, meter: &mut Meter) -> [u8; N]
        requires { meter.old + 1 < 2 ^ 64 }
        ensures value { (key message : List ℕ) → HasPads H.has_taken H.hash self.now.inner self.now.outer key
            → H.has_taken inner (masked 0x36 (key_block H.hash key) ++ message)
            → result ≡ hmac_of H.hash key message }
        ensures counted { meter.new ≡ meter.old + 1 }
    {
        meter.add_one();
        let mut outer = self.outer.copy();
        outer.take_in(&inner.into_digest());
        outer.into_digest()
    }
}

/// A key of one of the three hashes.
#[derive(Drop)]
pub(crate) enum HmacKey {
    Sha1(PaddedKey<20, sha1::Sha1>),
    Sha256(PaddedKey<32, Sha256>),
    Sha512(PaddedKey<64, Sha512>),
}

impl HmacKey {
    /// Prepares a key of any length.
    pub fn new(version: ScramVersion, key: &[u8]) -> HmacKey
        ensures { IsKeyOf result version key.now }
    {
        match version {
            ScramVersion::Sha1 => HmacKey::Sha1(PaddedKey::new(key)),
            ScramVersion::Sha256 => HmacKey::Sha256(PaddedKey::new(key)),
            ScramVersion::Sha512 => HmacKey::Sha512(PaddedKey::new(key)),
        }
    }

    /// Computes the HMAC of the concatenated pieces. The meter counts it.
    pub fn mac(&self, message: &[&[u8]], meter: &mut Meter) -> DigestBytes
        requires { meter.old + 1 < 2 ^ 64 }
        ensures value { (version : ScramVersion) (key : List ℕ) → IsKeyOf self.now version key
            → digest_bytes result ≡ hmac_of version key (whole message.now) }
        ensures version { (version : ScramVersion) (key : List ℕ) → IsKeyOf self.now version key
            → version_of result ≡ version }
        ensures counted { meter.new ≡ meter.old + 1 }
    {
        match self {
            HmacKey::Sha1(key) => DigestBytes::Sha1(key.mac(message, meter)),
            HmacKey::Sha256(key) => DigestBytes::Sha256(key.mac(message, meter)),
            HmacKey::Sha512(key) => DigestBytes::Sha512(key.mac(message, meter)),
        }
    }
}
