//! The library's server of a configuration, which keeps why its last reply rejects the login.

ghost use Rattle.std.specs.Prelude.{◌≡◌, option_map};
ghost use Rattle.std.proofs.Common.{ap, refl};
ghost use Rattle.fe2o3_sasl_core.specs.Servers.{rejection_of_server, sasl_acting, sasl_allocates, sasl_hmacs, sasl_reasons, sasl_server, sasl_user};
ghost use Rattle.sasl_c.specs.Rejections.{Logged, reason_number, rejection_number, server_machine, server_names, state_of};

use crate::status::server_number;
use fe2o3_sasl_core::{
    AuthenticatedUser, OutOfMemory, Rejection, SaslAcceptor, SaslServerFrame, Server,
};
use fe2o3_sasl_wire::{Array, SaslInit, SaslResponse, Symbol};
use fe2o3_scram::Meter;
use std::alloc::{AllocError, Global};

/// Returns the number of a reason.
fn reason_number(reason: Rejection) -> u32
    ensures { result ≡ reason_number reason }
{
    match reason {
        Rejection::MechanismNotOffered => 101,
        Rejection::NoInitialResponse => 102,
        Rejection::InvalidMessage => 103,
        Rejection::Scram(why) => server_number(why),
        Rejection::Channel => 104,
        Rejection::UnknownUser => 105,
        Rejection::NoRecordForHash => 106,
        Rejection::NoRight => 107,
        Rejection::WrongProof => 108,
        Rejection::WrongPassword => 109,
        Rejection::OtherIdentity => 110,
        Rejection::UnexpectedInit => 111,
        Rejection::UnexpectedResponse => 112,
        Rejection::Other => 113,
    }
}

/// Returns the number of the reason of a reply, 0 if it has none.
pub fn rejection_number(rejection: Option<Rejection>) -> u32
    ensures { result ≡ rejection_number rejection }
{
    match rejection {
        Some(reason) => reason_number(reason),
        None => 0,
    }
}

/// A server whose state has the reason for which its last reply rejects the login.
#[derive(Drop)]
pub struct LoggedServer<'a> {
    pub server: Server<'a>,
}

impl Clone for LoggedServer<'_> {
    ghost is_clone = { λ logged copy. state_of copy ≡ state_of logged };

    fn clone(&self) -> Result<Self, AllocError> {
        Ok(Self {
            server: self.server.clone()?,
        })
    }
}

impl SaslAcceptor for LoggedServer<'_> {
    ghost State = { Logged };

    ghost state = { state_of };

    ghost names = { server_names };

    ghost machine = { server_machine };

    ghost Known = { Unit {0} };

    ghost known = { λ _. tt };

    ghost reasons = { λ _ logged. sasl_reasons logged.server };

    ghost allocates = { λ logged. sasl_allocates logged.server };

    ghost hmacs = { λ logged. sasl_hmacs logged.server };

    ghost clone_keeps = { λ logged copy same. same };

    ghost clone_knows = { λ logged copy same. refl };

    fn mechanisms(&self, alloc: Global) -> Result<Array<Symbol>, OutOfMemory> {
        self.server.mechanisms(alloc)
    }

    fn on_init(
        &mut self,
        alloc: Global,
        init: SaslInit,
        nonce: &[u8; 32],
    ) -> Result<SaslServerFrame, OutOfMemory> {
        self.server.on_init(alloc, init, nonce)
    }

    fn on_response(
        &mut self,
        alloc: Global,
        response: SaslResponse,
    ) -> Result<SaslServerFrame, OutOfMemory> {
        self.server.on_response(alloc, response)
    }

    fn on_init_metered(
        &mut self,
        alloc: Global,
        init: SaslInit,
        nonce: &[u8; 32],
        meter: &mut Meter,
    ) -> Result<SaslServerFrame, OutOfMemory> {
        self.server.on_init_metered(alloc, init, nonce, meter)
    }

    fn on_response_metered(
        &mut self,
        alloc: Global,
        response: SaslResponse,
        meter: &mut Meter,
    ) -> Result<SaslServerFrame, OutOfMemory> {
        self.server.on_response_metered(alloc, response, meter)
    }
}

impl AuthenticatedUser for LoggedServer<'_> {
    ghost named = { λ logged. sasl_user (sasl_server logged.server) };

    ghost acting = { λ logged. sasl_acting (sasl_server logged.server) };

    ghost named_by_state = { λ logged other same. ap (λ (s : Logged). sasl_user s.server) same };

    ghost acting_by_state = { λ logged other same. ap (λ (s : Logged). sasl_acting s.server) same };

    fn authenticated_user(&self) -> Option<&str> {
        self.server.authenticated_user()
    }

    fn acts_for(&self) -> Option<&str> {
        self.server.acts_for()
    }
}
