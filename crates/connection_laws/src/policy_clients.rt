//! What the bytes of a connection say of a client by a policy, which selects its mechanism from the server's offer
//! (`SaslProfile::by_policy`): what it does before and after it has selected one, and what it costs. The laws of every client
//! hold of it too: its division into calls in [`cuts`](crate::cuts), and its bounds in
//! [`bounds`](fe2o3_sasl_negotiation::laws::bounds).

ghost use Rattle.connection_laws.specs.PolicyClients.{JoinedPolicySidesExist, LoginsMeetPremises, OfferedClientsSelect, OneIsSelected, PolicyClientsCost, PolicyClientsRetry, ScramClientsReportSelected, SelectedClientsActAsProfile, SelectedProfilesActAsClient, UnalteredPolicyClientsLogIn, UnselectedClientsSendNothing};

/// States that a client begun with [`SaslProfile::by_policy`](fe2o3_sasl_core::SaslProfile::by_policy) that has selected a
/// profile is a client of this profile, over any bytes, in whatever calls they are passed.
///
/// - `acts`: the calls of a new client are, byte for byte, calls of a fresh
///   [`ClientNegotiation`](fe2o3_sasl_negotiation::ClientNegotiation) of the profile. With the same nonces they take and send
///   the same bytes, and leave the same progress, held bytes and profile. The bytes begin with the header of SASL and a list
///   of mechanisms. The profile is selected from this list (`IsSelected`): that of the strongest mechanism that the policy
///   allows and for which the secret serves.
/// - `reverse`: the calls of a fresh client of such a profile are calls of the client by the policy.
/// - `offered`: a client that has read a list of mechanisms from which a profile is selected has selected it.
/// - `one`: a list of mechanisms has one such profile at most.
///
/// If the init of the profile has no body, for its size has more than 32 bits, both clients close with
/// `Mechanism(Frame(TooLarge))` and send nothing, and the client by the policy has selected none (`EndAlike`). The nonce of
/// that init is that of one of the calls. All laws of a client of the profile hold of a client that has selected it.
pub fn selected()
    ensures acts { SelectedClientsActAsProfile }
    ensures reverse { SelectedProfilesActAsClient }
    ensures offered { OfferedClientsSelect }
    ensures one { OneIsSelected }
{}

/// States what a client begun with [`SaslProfile::by_policy`](fe2o3_sasl_core::SaslProfile::by_policy) does that has selected
/// no profile. Its calls send nothing. So the client has sent its header at most, and nothing of its secret. It is not
/// `Authenticated`. It has taken one of these, and nothing more (`IsUnselected`):
///
/// - less than a header, which it holds;
/// - a header that is not that of SASL, and has closed;
/// - the header of SASL and a part of a frame, which it holds;
/// - the header of SASL and a size or a frame that it does not answer, and has closed;
/// - the header of SASL and a list of mechanisms from which it selects none, and has closed with `Mechanism(NotImplemented)`;
/// - the header of SASL and a list of mechanisms from which it selects a profile whose init has no body, with the nonce of
///   one of the calls, and has closed with `Mechanism(Frame(TooLarge))`.
pub fn unselected()
    ensures { UnselectedClientsSendNothing }
{}

/// States the headline theorem for a client begun with [`SaslProfile::by_policy`](fe2o3_sasl_core::SaslProfile::by_policy)
/// that has selected a profile of SCRAM, over the bytes of a connection.
///
/// - `reports`: its calls make a connection of a SCRAM client of one login (`ClientOf`). The pieces are the bytes that each
///   call took, with its nonce. It reports Ok exactly on the signature of its open answered challenge. On each verifier that
///   it took and a server issued, both sides agree, or their own AuthMessages share one HMAC value. The login is that of the
///   selection (`IsLoginOf`).
/// - `premises`: each login of a selection meets what the laws of [`pairs`](crate::pairs) and of
///   [`server_pairs`](crate::server_pairs) ask of a login, of its secret and of its channel. So these laws hold of the client
///   too.
pub fn scram()
    ensures reports { ScramClientsReportSelected }
    ensures premises { LoginsMeetPremises }
{}

/// States that a client begun with [`SaslProfile::by_policy`](fe2o3_sasl_core::SaslProfile::by_policy) and a SCRAM server that
/// receive each other's bytes both log in, in whatever pieces their bytes arrive.
///
/// - `log_in`: the client selects the profile of a login from the server's mechanism. The other premises are those of
///   [`unaltered`](crate::unaltered::unaltered) for that login, and that sizes of frames have 32 bits. Then the two sides are
///   such as `unaltered` speaks of, with the same calls and the same bytes, so that they mean one login.
/// - `exist`: such a client and such a server exist, with all such limits, and with all calls that are enough for the bytes
///   of the login.
pub fn unaltered()
    ensures log_in { UnalteredPolicyClientsLogIn }
    ensures exist { JoinedPolicySidesExist }
{}

/// Bounds how many HMAC values a connection of a client begun with
/// [`SaslProfile::by_policy`](fe2o3_sasl_core::SaslProfile::by_policy) makes, whatever its bytes are and in whatever calls they
/// are passed. They are at most as many as the limit of its policy on iterations, and four more. The sum of `answered` is over
/// the calls that are answered. That of `retried` is over all calls, also those that run out of memory: each of these adds at
/// most as many again.
pub fn costs()
    ensures answered { PolicyClientsCost }
    ensures retried { PolicyClientsRetry }
{}
