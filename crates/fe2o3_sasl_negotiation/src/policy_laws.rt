//! Laws of a client that selects its mechanism from the server's offer. The function has an empty body and states its contract,
//! which the check has proved for every list of bytes.

ghost use Rattle.fe2o3_sasl_negotiation.specs.PolicyLaws.{NothingBelowPolicy, SelectsAtOffer, WaitsForOffer};

/// States what each call of [`ConnectionSide::receive`](crate::ConnectionSide::receive) does to a client by a policy
/// (`SaslProfile::by_policy`) that has selected no profile yet.
///
/// Before the offer is complete, the call does what it does to a client of any profile. The call that completes the offer
/// selects a profile, and does what it does to a client of this profile, which the client then is. If none can be selected,
/// nothing is sent and the side fails with `Mechanism(NotImplemented)`.
///
/// In `allowed`, all that is sent before a profile is selected is an init of a mechanism that the policy allows and the
/// server offered.
pub fn policy_clients()
    ensures before { WaitsForOffer }
    ensures selects { SelectsAtOffer }
    ensures allowed { NothingBelowPolicy }
{}
