//! What the bytes of a SCRAM client's connection and of a connection of a `Server` say of both.

ghost use Rattle.connection_laws.specs.ServerPairs.{ClientsAgreeOnAll, ClientsAgreeWithServers, ClientsBindChannelsOfServers, ProofsAtServersAreJudged, ProofsAtServersBindChannels, SignedLoginsAreAccepted, TestedOptionsReject};

/// What the login of a SCRAM client says of a [`Server`](fe2o3_sasl_core::Server), each over any bytes and with any options. The
/// client logged in on one server-final message: the data of an outcome Ok, or a challenge if the login accepts the signature
/// there. The premise is that the verifier in that message is one that the server computed for an exchange that it accepted.
///
/// - `accepted`: a server that has sent a signature accepted such an exchange, by the frames that it took.
/// - `agree`: both agree on user name and client nonce, or their own differing AuthMessages share one HMAC value.
/// - `on_all`: if one side is strict, rejects misplaced attributes or has a channel, both agree on all.
/// - `channels`: if each has a channel, both bind one channel.
pub fn verifiers()
    ensures accepted { SignedLoginsAreAccepted }
    ensures agree { ClientsAgreeWithServers }
    ensures on_all { ClientsAgreeOnAll }
    ensures channels { ClientsBindChannelsOfServers }
{}

/// What [`agrees_on_all`](fe2o3_sasl::agrees_on_all) says before a login: if it returns `true`, one side rejects misplaced
/// attributes, so both agree on all (`on_all` of [`verifiers`]).
pub fn options()
    ensures { TestedOptionsReject }
{}

/// What a proof says that a SCRAM client's connection showed and a [`Server`](fe2o3_sasl_core::Server) accepted, each over any
/// bytes and with any options, whether the client sees the server's last message or not.
///
/// - `judged`: one of four verdicts holds. Both agree; the client's key is not the one whose digest the server stores; two
///   differing keys of the sides have one digest; or their own differing AuthMessages share one HMAC value.
/// - `channels`: if each has a channel, and the verdict is that both agree, both bind one channel. So someone who has a channel
///   to each of them cannot log in by the client's proof.
pub fn proofs()
    ensures judged { ProofsAtServersAreJudged }
    ensures channels { ProofsAtServersBindChannels }
{}
