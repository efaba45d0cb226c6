//! The identity that a client acts for (RFC 4422, section 2).

ghost use Rattle.std.specs.Prelude.{◌≡◌, ◌≢◌, IfErr, MatchResult};
ghost use Rattle.fe2o3_scram.specs.Readings.{IsFirst, NoneHolds};
ghost use Rattle.sasl_c.specs.Client.{CanBeNamed, identity_tests};
ghost use Rattle.sasl_c.specs.declared.status.Status.TheVariants.{OutOfMemory as StatusOutOfMemory};

use crate::status::{Status, text};
use crate::zeros::has_no_zero;

/// The maximum number of bytes of an identity that a login names. The struct of a server has room for that many.
pub const IDENTITY_MOST: usize = 256;

/// Returns an identity as a text, which is empty if the client acts for itself. `NotUtf8`, `ProhibitedCharacter` and
/// `TooLong`.
#[tactic(auto, using(crate::proofs::LoginLemmas::identities))]
pub fn identity_in(name: &[u8]) -> Result<&str, Status>
    ensures tested { MatchResult result (λ text. (text.now ≡ name.now) × CanBeNamed name.now
        × NoneHolds (identity_tests name.now)) (λ status. IsFirst (identity_tests name.now) status) }
    ensures memory { IfErr result (λ status. status ≢ StatusOutOfMemory) }
{
    let name = text(name)?;
    if !has_no_zero(name) {
        return Err(Status::ProhibitedCharacter);
    }
    if name.len() > IDENTITY_MOST {
        return Err(Status::TooLong);
    }
    Ok(name)
}
