//! Laws of the definitions. Each function has an empty body and states only its contract, about every list of bytes,
//! which the check has proved.

ghost use Rattle.fe2o3_scram.specs.ScramServer.{Initial};
ghost use Rattle.fe2o3_sasl_core.specs.Profiles.{scram_profile};
ghost use Rattle.fe2o3_sasl_core.specs.Runs.{ProfileSteps};
ghost use Rattle.fe2o3_sasl_core.specs.SaslAcceptor.{ScramAcceptor, acceptor_machine, acceptor_user};
ghost use Rattle.fe2o3_sasl_negotiation.specs.ClientNegotiation.{ClientReceives};
ghost use Rattle.fe2o3_sasl_negotiation.specs.Connections.{ServersConnect, ClientsConnect, ServerConnectionsLogIn, ClientConnectionsLogIn};
ghost use Rattle.fe2o3_sasl_negotiation.specs.CostLaws.{ServersCost, ClientsCost, ServersOfAreBounded, ServersAreBounded, ClientsAreBounded};
ghost use Rattle.fe2o3_sasl_negotiation.specs.ExtendedHeaders.{ExtendedHeadersAreIgnored, ClientsIgnoreExtendedHeaders};
ghost use Rattle.fe2o3_sasl_negotiation.specs.Laws.{CutsDoNotMatter, ClientCutsDoNotMatter};
ghost use Rattle.fe2o3_sasl_negotiation.specs.ScramConnections.{ScramServersServe, ScramClientsReport};
ghost use Rattle.fe2o3_sasl_negotiation.specs.ServerNegotiation.{ServerSideAnswers, ServerReceives};

use fe2o3_sasl_core::AuthenticatedUser;

/// The division of a stream of bytes into calls does not matter: the bytes that the calls take are answered like the
/// whole, unit by unit, each with the nonce of a call, in order. Which call that is for a frame, [`server_connections`]
/// and [`client_connections`] say.
pub fn cuts<A: AuthenticatedUser>()
    ensures server { CutsDoNotMatter (ServerSideAnswers A.names A.machine) }
    ensures client { ClientCutsDoNotMatter }
{}

/// A side that accepts extended headers ([`accept_extended_headers`](crate::ConnectionSide::accept_extended_headers)) does
/// what a side does that does not, over the stream without these headers: as many calls with the same nonces send the
/// same bytes and leave the same side. So the laws of bytes, progress and names hold of it over that stream. Those of
/// costs and of unused nonces say nothing of it. Each frame has an allowed size in both streams.
pub fn extended_headers<A: AuthenticatedUser>()
    ensures server { ExtendedHeadersAreIgnored (ServerSideAnswers A.names A.machine) }
    ensures client { ClientsIgnoreExtendedHeaders }
{}

/// The headline theorem over the bytes of a server's connection, in whatever calls they are passed. A server of any
/// acceptor answers every frame up to the one that ends the negotiation, in a run over the bodies: each frame with the
/// nonce of a call, in the order of the calls. It sends its header, its list of mechanisms and the frames of its replies,
/// and ends as its last reply says. It has logged a client in exactly if that reply is an Ok that it sent. A SCRAM server
/// answers Ok exactly to a response that fits its open challenge and whose proof meets the stored key, and names
/// exactly the user of that challenge.
///
/// The last argument of `connects` is what one call does, by the contract of
/// [`ConnectionSide::receive`](crate::ConnectionSide::receive): there a frame has the nonce of the call that completes
/// it. Of several calls, each passed more than it takes, `connects` does not say which one that is; the contract of
/// [`server_connection`](crate::server_connection) does. The arguments of `scram` are the machine of a SCRAM
/// server, its state before its first frame, and the user that a state names.
pub fn server_connections<A: AuthenticatedUser>()
    ensures connects { ServersConnect A.names A.machine (ServerReceives A.names A.machine) }
    ensures logged_in { ServerConnectionsLogIn A.machine }
    ensures scram { ScramServersServe acceptor_machine (λ provider. ScramAcceptor provider Initial) acceptor_user }
{}

/// The headline theorem over the bytes of a client's connection, in whatever calls they are passed. A client of any
/// profile answers every frame up to the one that ends the negotiation, in a run over the bodies: each frame with the
/// nonce of a call, in the order of the calls. It sends the frames of its replies, and ends as its last reply says. It has
/// logged in exactly if that reply reports an Ok. A SCRAM client reports Ok exactly on the signature of its open
/// answered challenge. On each verifier that it took and a server issued, both sides agree, or their own AuthMessages
/// share one HMAC value.
///
/// The last argument of `connects` is what one call does, by the contract of
/// [`ConnectionSide::receive`](crate::ConnectionSide::receive). `ProfileSteps` is what a profile answers to a frame.
/// The last argument of `scram` is the profile that a login starts with, by the contracts of its constructors.
pub fn client_connections()
    ensures connects { ClientsConnect ProfileSteps ClientReceives }
    ensures logged_in { ClientConnectionsLogIn ProfileSteps }
    ensures scram { ScramClientsReport ProfileSteps scram_profile }
{}

/// Bounds what a connection costs, whatever its bytes are and in whatever calls they are passed. A SCRAM server makes
/// at most two HMAC values, and with mock authentication five. A SCRAM client makes at most as many as its limit of
/// iterations and four more. The sum is over the calls that are answered. The contract of a call says what it costs
/// where it runs out of memory.
pub fn costs()
    ensures server { ServersCost }
    ensures client { ClientsCost }
{}

/// Bounds what a connection sends and holds, whatever its bytes are and in whatever calls they are passed. Every frame
/// that is sent has at most 512 bytes. A server sends its header, its list of mechanisms, the challenges of its acceptor
/// and an outcome: with SCRAM, PLAIN or ANONYMOUS at most three frames. A client sends two frames after its header, and
/// three if it accepts the server's signature in a challenge. Either holds less than eight bytes, or less than its limit of
/// a frame.
///
/// In `servers` a measure of the states of an acceptor bounds its challenges. `server::laws::challenge_counts` of
/// `fe2o3_sasl_core` has one.
pub fn bounds<A: AuthenticatedUser>()
    ensures servers { ServersOfAreBounded A.names A.machine }
    ensures server { ServersAreBounded }
    ensures client { ClientsAreBounded }
{}
