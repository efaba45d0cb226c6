//! Nonces: 32 random bytes, or those of an argument, for tests.

ghost use Rattle.std.specs.Prelude.{ℕ, List, IfOk, OnOk, option_map};
ghost use Rattle.scram_lib.specs.Nonces.{IsNonceFor};

use hex::FromHex;
use scram_base_lib::stop::Stop;
use std::io;
use std::random::RandomSource;

/// A source of random bytes.
pub trait Random {
    /// Which bytes the source gives.
    ghost gives: { Self → List ℕ → Type 0 };

    /// Overwrites bytes with random ones.
    fn fill(&self, bytes: &mut [u8]) -> io::Result<()>
        ensures { OnOk result (gives self.now bytes.new) };
}

/// The system's source, of whose bytes std says nothing.
impl<R: RandomSource> Random for R {
    ghost gives = { λ source bytes. Unit {0} };

    fn fill(&self, bytes: &mut [u8]) -> io::Result<()> {
        self.fill_bytes(bytes)
    }
}

/// Returns the nonce of the argument, or a random one.
pub fn nonce<R: Random>(rt: &R, word: Option<&str>) -> Result<[u8; 32], Stop>
    ensures { IfOk result (IsNonceFor (R.gives rt.now) (option_map (λ digits. digits.now) word.entry)) }
{
    if let Some(digits) = word {
        return <[u8; 32] as FromHex>::from_hex(digits).map_err(|_| Stop::WrongNonce);
    }
    let mut bytes = [0; 32];
    rt.fill(&mut bytes).map_err(Stop::of_random)?;
    Ok(bytes)
}
