//! Whom a user may act for, as a text of C (RFC 4422, section 2).

ghost use Rattle.std.specs.Prelude.{◌≡◌, IfErr, IfOk, nat_eq, option_map};
ghost use Rattle.std.specs.Cmp.Lexicographic.{pointwise};
ghost use Rattle.std.specs.List.{list_any};
ghost use Rattle.fe2o3_scram.specs.ActingRights.{may_act};
ghost use Rattle.sasl_c.specs.Acting.{identities_in, rights_for};
ghost use Rattle.sasl_c.specs.declared.status.Status.TheVariants.{OutOfMemory as StatusOutOfMemory};

use crate::status::Status;
use fe2o3_scram::ActingRights;
use std::alloc::Global;

/// Returns whether a user may act for an identity: the user's own name, or one of a text, in which a zero byte is after
/// each. `None` is a client that acts for itself, which each user may.
#[tactic(auto, using(crate::proofs::ActingLemmas::by_right))]
pub fn may_act(user: &str, acts_for: Option<&str>, identities: &[u8]) -> bool
    ensures { result ≡ may_act (rights_for user.now identities.now) user.now
        (option_map (λ name. name.now) acts_for.entry) }
{
    let Some(name) = acts_for else {
        return true;
    };
    user == name || has_identity(identities, name.as_bytes())
}

/// Returns whether this name is an identity of a text, in which a zero byte is after each.
fn has_identity(identities: &[u8], name: &[u8]) -> bool
    ensures { result ≡ list_any (λ identity. pointwise nat_eq identity name.now) (identities_in identities.now) }
{
    identities
        .split(|byte| *byte == 0)
        .any(|identity| identity == name)
}

/// Returns the rights of a user to the identities of a text. `OutOfMemory` is the only error.
pub fn acting_rights(alloc: Global, user: &str, identities: &str) -> Result<ActingRights, Status>
    ensures ok { IfOk result (λ rights. rights ≡ rights_for user.now identities.now) }
    ensures err { IfErr result (λ status. status ≡ StatusOutOfMemory) }
{
    let mut rights = ActingRights::new(alloc);
    for identity in identities.split('\0') {
        rights.allow(alloc, user, identity)?;
    }
    Ok(rights)
}
