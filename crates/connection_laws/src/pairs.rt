//! What the bytes of two connections say of both.

ghost use Rattle.connection_laws.specs.Pairs.{LoggedInClientsAgree, LoggedInServersAccept, AcceptedProofsAreJudged, LoggedInClientsBindOneChannel, AcceptedProofsBindOneChannel, RepeatedResponsesMeanOneNonce, ReplaysAreRejected, UnalteredConnectionsAgree};

/// States what the login of a SCRAM client says of a SCRAM server, each over any bytes. The client logged in on one
/// server-final message: the data of an outcome Ok, or a challenge if the login accepts the signature there. If the
/// verifier in that message is one that the server's connection issued, both agree on user name and client nonce, or
/// their own differing AuthMessages share one HMAC value.
pub fn verifiers()
    ensures { LoggedInClientsAgree }
{}

/// States what the login of a SCRAM client at a SCRAM server says of a client's connection, each over any bytes. The
/// server logged in the user of the challenge that one response answers, and names that user. If the client's
/// connection showed the proof of that response, one of four verdicts holds: both agree; the client's key is not the
/// one whose digest the server stores; two differing keys of the sides have one digest; or their own differing
/// AuthMessages share one HMAC value.
pub fn proofs()
    ensures response { LoggedInServersAccept }
    ensures judged { AcceptedProofsAreJudged }
{}

/// States what channel binding protects against, of a SCRAM client and a SCRAM server, each over any bytes: someone who has
/// one channel to the client and another to the server. The client has a channel: it binds it, or was offered no mechanism
/// with `-PLUS` and says `y,,`. The server accepts no `y,,`. Neither side needs an option.
///
/// - `verified`: if the client logged in by the message by which the server accepted, both bind one channel, of one kind and
///   with the same data, or their own differing AuthMessages share one HMAC value.
/// - `shown`: if the server accepted the proof that the client showed, and both agree on the login, both bind one channel.
///
/// Each SCRAM profile that a policy with a channel selects meets the premise (`client_policy::laws::selected_channels`), and
/// so does each SCRAM mechanism of a `Server` with channels (`server::laws::offered_scrams`).
pub fn bound_channels()
    ensures verified { LoggedInClientsBindOneChannel }
    ensures shown { AcceptedProofsBindOneChannel }
{}

/// States what a replayed response needs. If two connections of SCRAM servers, each over any provider and any bytes,
/// both log a client in on one text of a response, a call of the one and a call of the other received one nonce. So a
/// connection of whose nonces none was passed to a call of the recorded connection logs nobody in on its response.
pub fn replays()
    ensures one_nonce { RepeatedResponsesMeanOneNonce }
    ensures rejected { ReplaysAreRejected }
{}

/// States that both sides of an unaltered login mean one login. Where a SCRAM client and a SCRAM server have both
/// logged in, each over the bytes that the other sent, and the client's secret opens the server's record, their
/// AuthMessages are equal: both for the verifier that the client took and for the proof that the server accepted.
pub fn unaltered_logins()
    ensures { UnalteredConnectionsAgree }
{}
