//! What two divisions of one stream of bytes into calls have in common.

ghost use Rattle.fe2o3_sasl_core.specs.SaslAcceptor.{acceptor_names, acceptor_machine};
ghost use Rattle.fe2o3_sasl_core.specs.Servers.{sasl_machine};
ghost use Rattle.connection_laws.specs.CallPieces.{ClientCallsConnect, ServerCallsConnect};
ghost use Rattle.connection_laws.specs.Cuts.{IsFunction};
ghost use Rattle.connection_laws.specs.Cuts.{FunctionCallsEndEqually, ServerCallsEndEqually, ClientCallsEndEqually};
ghost use Rattle.connection_laws.specs.Cuts.{FunctionsEndEqually, ServersEndEqually, ClientsEndEqually};
ghost use Rattle.connection_laws.specs.Cuts.{FunctionsNegotiateEqually, ServersNegotiateEqually, ClientsNegotiateEqually};

use fe2o3_sasl_core::any_mechanism::HasMechanism;

/// States that the division of a stream into calls does not change the result. Two lists of calls pass one stream of
/// bytes to one fresh side, in any two divisions. The calls that complete a frame have one nonce in both. Then:
/// - where both lists go on until the side ends or the stream does, they leave the same rest of the stream;
/// - where they leave the same rest, they send the same bytes, and both sides end in the same way with the same state of
///   their machine; a side that waits holds the same part of a frame;
/// - where one list leaves more than the other, its side waits for more.
///
/// This holds of every client, and of every server whose acceptor has at most one reply to each frame. [`functions`] says
/// which acceptors do.
pub fn one_result<A: HasMechanism>()
    ensures functions { FunctionCallsEndEqually A.names A.machine }
    ensures acceptors { ServerCallsEndEqually acceptor_names acceptor_machine }
    ensures clients { ClientCallsEndEqually }
{}

/// States for connections what [`one_result`] states for calls. Two connections from one fresh side over the same bytes,
/// in any two divisions into pieces, send the same bytes and end equally, if each frame has one nonce in both.
pub fn one_connection<A: HasMechanism>()
    ensures functions { FunctionsEndEqually A.names A.machine }
    ensures acceptors { ServersEndEqually acceptor_names acceptor_machine }
    ensures clients { ClientsEndEqually }
{}

/// States that two divisions of a stream have one negotiation. Two connections from one state over the same bytes, after
/// the other side's header, answer the same frames by the same replies, if each frame has one nonce in both.
pub fn one_negotiation<A: HasMechanism>()
    ensures functions { FunctionsNegotiateEqually A.machine }
    ensures acceptors { ServersNegotiateEqually acceptor_machine }
    ensures clients { ClientsNegotiateEqually }
{}

/// States which acceptors have at most one reply to each frame and one state after it, as [`one_result`] requires. Those of
/// SCRAM, PLAIN and ANONYMOUS do, with mock authentication too, and so does a `Server` of all mechanisms. So each gives one
/// result for every division of a stream.
pub fn functions()
    ensures acceptors { IsFunction acceptor_machine }
    ensures server { IsFunction sasl_machine }
{}

/// States in which call each byte of a connection arrived, for every acceptor and every client. The calls over a stream make a
/// connection whose pieces are the bytes that each call took, with its nonce. So each frame has the nonce of the call in which
/// its last byte arrived, also where calls are passed more bytes than they take.
pub fn call_pieces<A: HasMechanism>()
    ensures servers { ServerCallsConnect A.names A.machine }
    ensures clients { ClientCallsConnect }
{}
