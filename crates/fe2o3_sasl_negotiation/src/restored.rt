//! A side that is saved and restored over an acceptor or a profile in the same state is the same side.

ghost use Rattle.std.specs.Prelude.{◌≡◌, IfErr, IfOk, option_map, string_bytes};
ghost use Rattle.fe2o3_sasl_negotiation.specs.Sides.{acceptor_in, client_side, extended_in, hostname_in, server_side};
ghost use Rattle.fe2o3_sasl_core.specs.SaslProfile.{profile_of};

use crate::client::ClientNegotiation;
use crate::server::ServerNegotiation;
use crate::snapshot::RestoreError;
use fe2o3_sasl_core::{AuthenticatedUser, SaslProfile};
use std::alloc::Global;

/// Saves a server's side, after any call, and restores it with an acceptor in the state of that side's. The result is
/// the same side, and its acceptor names the same user and the same identity.
///
/// The only error is `OutOfMemory`.
pub fn restored_server<A: AuthenticatedUser + Drop>(
    alloc: Global,
    side: &ServerNegotiation<A>,
    acceptor: A,
) -> Result<ServerNegotiation<A>, RestoreError>
    requires { A.state acceptor ≡ A.state (acceptor_in side.now) }
    ensures side { IfOk result (λ restored. server_side A.state restored ≡ server_side A.state side.now) }
    ensures extended { IfOk result (λ restored. extended_in restored ≡ extended_in side.now) }
    ensures user { IfOk result (λ restored. A.named (acceptor_in restored) ≡ A.named (acceptor_in side.now)) }
    ensures identity { IfOk result (λ restored. A.acting (acceptor_in restored) ≡ A.acting (acceptor_in side.now)) }
    ensures memory { IfErr result (λ error. error ≡ RestoreError.OutOfMemory) }
{
    ServerNegotiation::restore(alloc, acceptor, &side.snapshot())
}

/// Saves a client's side, after any call, and restores it with a profile in the state of that side's. The result is the
/// same side, with this hostname.
///
/// The only error is `OutOfMemory`.
pub fn restored_client(
    alloc: Global,
    side: &ClientNegotiation,
    profile: SaslProfile,
    hostname: Option<String>,
) -> Result<ClientNegotiation, RestoreError>
    requires { profile_of profile ≡ (client_side side.now).state }
    ensures side { IfOk result (λ restored. client_side restored ≡ client_side side.now) }
    ensures extended { IfOk result (λ restored. extended_in restored ≡ extended_in side.now) }
    ensures hostname { IfOk result (λ restored. hostname_in restored ≡ option_map string_bytes hostname) }
    ensures memory { IfErr result (λ error. error ≡ RestoreError.OutOfMemory) }
{
    ClientNegotiation::restore(alloc, profile, hostname, &side.snapshot())
}
