//! Laws of calls that use no nonce. A function with an empty body states its contract, which the check has proved for
//! every list of bytes.

ghost use Rattle.fe2o3_sasl_core.specs.SaslAcceptor.{acceptor_machine};
ghost use Rattle.fe2o3_sasl_core.specs.Servers.{sasl_machine};
ghost use Rattle.fe2o3_sasl_negotiation.specs.Nonces.{ClientsIgnoreNonces, IgnoresResponseNonce, ServersIgnoreNonces};

use fe2o3_sasl_core::AuthenticatedUser;

/// States that a call does the same with every nonce where `wants_nonce` of its side is false. There the nonce needs no
/// fresh random bytes.
///
/// In `server` the acceptor answers a response alike with every nonce. [`response_nonces`] says which acceptors do.
pub fn unused_nonces<A: AuthenticatedUser>()
    ensures server { ServersIgnoreNonces A.names A.machine }
    ensures client { ClientsIgnoreNonces }
{}

/// States which acceptors answer a response alike with every nonce: those of SCRAM, PLAIN and ANONYMOUS, and a `Server`. A
/// `Server` that asks for an initial response uses the nonce of the init.
pub fn response_nonces()
    ensures acceptors { IgnoresResponseNonce acceptor_machine }
    ensures server { IgnoresResponseNonce sasl_machine }
{}
