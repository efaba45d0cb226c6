//! Laws of a client that selects its mechanism from an offer. Each function has an empty body and states only its
//! contract.

ghost use Rattle.fe2o3_sasl_core.specs.ClientPolicyLaws.{OfferedChannelIsBound, RequiredChannelIsBound, SelectedScramHasChannel, SelectionKeepsChannel, UnofferedChannelIsSaid};

/// States what a client that has a channel (`channel` of [`ClientPolicy`](crate::ClientPolicy)) says of it,
/// for every offer, user, secret and policy (RFC 5802, section 6). `OffersBinding` is an offer with a mechanism with
/// `-PLUS` that the policy allows and for which the secret serves.
///
/// - `keeps`: the selected profile binds exactly this channel; or there is no such offer, and the profile says `y,,`, or
///   is of EXTERNAL, PLAIN or ANONYMOUS, which the policy allows by name.
/// - `offered`: from such an offer a profile is selected, and it binds exactly this channel.
/// - `unoffered`: from any other offer with SCRAM that the policy allows, without `must_bind`, the selected profile is of
///   SCRAM and says `y,,`.
/// - `required`: with `must_bind` a selected profile of SCRAM binds exactly the channel of the policy.
/// - `scram`: each selected profile of SCRAM binds a channel or says `y,,`, so that nobody talks it out of its channel.
pub fn selected_channels()
    ensures keeps { SelectionKeepsChannel }
    ensures offered { OfferedChannelIsBound }
    ensures unoffered { UnofferedChannelIsSaid }
    ensures required { RequiredChannelIsBound }
    ensures scram { SelectedScramHasChannel }
{}
