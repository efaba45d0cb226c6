//! One server of several mechanisms: the client's init names the one that it has chosen (AMQP 1.0, part 5, section
//! 5.3.3.2).

ghost use Rattle.std.specs.Prelude.{◌≡◌, ◌≢◌, ◌≤◌, ◌^◌, ◌++◌, ℕ, List, Option, Some, None, IfOk, IfErr, OnErr, OnOk, not, filter, take};
ghost use Rattle.fe2o3_sasl_core.specs.AnyMechanism.{BothStates, has_name, both_names, part_with, any_mechanism_machine, any_mechanism_allocates, any_mechanism_hmacs, any_mechanism_reasons, part_names};
ghost use Rattle.fe2o3_sasl_core.specs.SaslAcceptor.{ends_with, sent_frame};
ghost use Rattle.fe2o3_sasl_wire.specs.declared.amqp_types.SaslCode.TheVariants.{Auth};

use crate::OutOfMemory;
use crate::mechanism::{ANONYMOUS, PLAIN};
use crate::rejection::Rejection;
use crate::sasl_acceptor::{
    AuthenticatedUser, SaslAcceptor, SaslAnonymousMechanism, SaslPlainMechanism, SaslServerFrame,
};
use fe2o3_sasl_wire::{Array, SaslInit, SaslResponse, Symbol};
use fe2o3_scram::credentials::ScramCredentialProvider;
use fe2o3_scram::hmac::Meter;
use fe2o3_scram::scram_server::ScramAuthenticator;
use std::alloc::{AllocError, Global};

/// An acceptor that reports whether it has a mechanism, without a list of its names.
pub trait HasMechanism: AuthenticatedUser {
    /// Returns whether the acceptor has a mechanism of this name.
    fn has_mechanism(&self, name: &str) -> bool
        ensures { result ≡ has_name (Self.names (Self.state self.now)) name.now };
}

impl HasMechanism for SaslPlainMechanism {
    fn has_mechanism(&self, name: &str) -> bool {
        PLAIN == name
    }
}

impl HasMechanism for SaslAnonymousMechanism {
    fn has_mechanism(&self, name: &str) -> bool {
        ANONYMOUS == name
    }
}

impl<C: ScramCredentialProvider> HasMechanism for ScramAuthenticator<C> {
    fn has_mechanism(&self, name: &str) -> bool {
        self.mechanism() == name
    }
}

/// One of the two acceptors of an `AnyMechanism`.
#[derive(Debug, Clone, Copy, PartialEq, Eq)]
pub enum Selected {
    /// The first acceptor.
    First,

    /// The second acceptor.
    Second,
}

/// One server of two acceptors, or of more if one of them is an `AnyMechanism` itself. It offers the names of the
/// first, followed by those that only the second has. An init goes to the first that has its mechanism, and a response
/// to the one that the last init went to, whatever that answered. The other is unchanged. An init of a mechanism that
/// neither has, and a response before any init, are rejected and change nothing. Everything else (user, reason of a
/// rejection, HMAC values, allocations) comes from the acceptor that answers.
#[derive(Drop)]
pub struct AnyMechanism<A, B> {
    first: A,
    second: B,
    selected: Option<Selected>,
}

impl<A: HasMechanism, B: HasMechanism> AnyMechanism<A, B> {
    ghost use Rattle.fe2o3_sasl_core.specs.AnyMechanismSides.{both_states};

    /// Makes a server of both acceptors, which has received no init.
    pub fn new(first: A, second: B) -> Self
        ensures state { both_states A.state B.state result
            ≡ record { first = A.state first; second = B.state second; selected = None } }
        ensures known { (A.known result.first ≡ A.known first) × (B.known result.second ≡ B.known second) }
    {
        Self {
            first,
            second,
            selected: None,
        }
    }

    /// Restores a server of both acceptors, of which the last init went to this one, as `selected` returned it when the
    /// server was saved between two calls. Pass each acceptor in its saved state.
    pub fn with_selected(first: A, second: B, selected: Option<Selected>) -> Self
        ensures state { both_states A.state B.state result
            ≡ record { first = A.state first; second = B.state second; selected = selected } }
        ensures known { (A.known result.first ≡ A.known first) × (B.known result.second ≡ B.known second) }
    {
        Self {
            first,
            second,
            selected,
        }
    }

    /// Returns the first acceptor.
    pub fn first(&self) -> &A
        ensures state { A.state result.now ≡ (both_states A.state B.state self.now).first }
        ensures known { A.known result.now ≡ A.known self.now.first }
    {
        &self.first
    }

    /// Returns the second acceptor.
    pub fn second(&self) -> &B
        ensures state { B.state result.now ≡ (both_states A.state B.state self.now).second }
        ensures known { B.known result.now ≡ B.known self.now.second }
    {
        &self.second
    }

    /// Returns the acceptor that the last init went to, or `None` if none went to either.
    pub fn selected(&self) -> Option<Selected>
        ensures { result ≡ (both_states A.state B.state self.now).selected }
    {
        self.selected
    }

    /// Returns the first acceptor that has this mechanism.
    fn part_with(&self, mechanism: &str) -> Option<Selected>
        ensures { result ≡ part_with (A.names (A.state self.now.first)) (B.names (B.state self.now.second))
            mechanism.now }
    {
        if self.first.has_mechanism(mechanism) {
            return Some(Selected::First);
        }
        if self.second.has_mechanism(mechanism) {
            return Some(Selected::Second);
        }
        None
    }
}

impl<A: HasMechanism, B: HasMechanism> Clone for AnyMechanism<A, B> {
    ghost is_clone = { λ both copy. (A.is_clone both.first copy.first) × (B.is_clone both.second copy.second)
        × (copy.selected ≡ both.selected) };

    fn clone(&self) -> Result<Self, AllocError> {
        Ok(Self {
            first: self.first.clone()?,
            second: self.second.clone()?,
            selected: self.selected,
        })
    }
}

impl<A: HasMechanism, B: HasMechanism> SaslAcceptor for AnyMechanism<A, B> {
    ghost use Rattle.fe2o3_sasl_core.specs.AnyMechanismSides.{both_states};

    ghost State = { BothStates A.State B.State };

    ghost state = { both_states A.state B.state };

    ghost names = { λ parts. both_names (A.names parts.first) (B.names parts.second) };

    ghost machine = { any_mechanism_machine A.names B.names A.machine B.machine };

    ghost Known = { A.Known × B.Known };

    ghost known = { λ both. (A.known both.first, B.known both.second) };

    ghost reasons = { λ known. any_mechanism_reasons A.names B.names (A.reasons known.0) (B.reasons known.1) };

    ghost allocates = { any_mechanism_allocates A.names B.names A.allocates B.allocates };

    ghost hmacs = { any_mechanism_hmacs A.names B.names A.hmacs B.hmacs };

    ghost clone_keeps = { λ both copy same i. record {
      first = A.clone_keeps both.first copy.first same.0 i;
      second = B.clone_keeps both.second copy.second same.1 i;
      selected = same.2 i;
    } };

    ghost clone_knows = { λ both copy same i.
        (A.clone_knows both.first copy.first same.0 i, B.clone_knows both.second copy.second same.1 i) };

    fn mechanisms(&self, alloc: Global) -> Result<Array<Symbol>, OutOfMemory> {
        let mut names = self.first.mechanisms(alloc)?;
        let mut others = self.second.mechanisms(alloc)?;
        others
            .0
            .retain(|name| !self.first.has_mechanism(name.as_str()));
        names.0.append(&mut others.0)?;
        Ok(names)
    }

    fn on_init(
        &mut self,
        alloc: Global,
        init: SaslInit,
        nonce: &[u8; 32],
    ) -> Result<SaslServerFrame, OutOfMemory> {
        self.on_init_metered(alloc, init, nonce, &mut Meter::new())
    }

    fn on_response(
        &mut self,
        alloc: Global,
        response: SaslResponse,
    ) -> Result<SaslServerFrame, OutOfMemory> {
        self.on_response_metered(alloc, response, &mut Meter::new())
    }

    fn on_init_metered(
        &mut self,
        alloc: Global,
        init: SaslInit,
        nonce: &[u8; 32],
        meter: &mut Meter,
    ) -> Result<SaslServerFrame, OutOfMemory> {
        let selected = self.part_with(init.mechanism.as_str());
        let reply = match selected {
            Some(Selected::First) => self.first.on_init_metered(alloc, init, nonce, meter)?,
            Some(Selected::Second) => self.second.on_init_metered(alloc, init, nonce, meter)?,
            None => return Ok(SaslServerFrame::Rejected(Rejection::MechanismNotOffered)),
        };
        self.selected = selected;
        Ok(reply)
    }

    fn on_response_metered(
        &mut self,
        alloc: Global,
        response: SaslResponse,
        meter: &mut Meter,
    ) -> Result<SaslServerFrame, OutOfMemory> {
        match self.selected {
            Some(Selected::First) => self.first.on_response_metered(alloc, response, meter),
            Some(Selected::Second) => self.second.on_response_metered(alloc, response, meter),
            None => Ok(SaslServerFrame::Rejected(Rejection::UnexpectedResponse)),
        }
    }
}

impl<A: HasMechanism, B: HasMechanism> AuthenticatedUser for AnyMechanism<A, B> {
    ghost named = { λ both. part_names both.selected (A.named both.first) (B.named both.second) };

    ghost acting = { λ both. part_names both.selected (A.acting both.first) (B.acting both.second) };

    ghost named_by_state = { λ both other same i. part_names (same i).selected
        (A.named_by_state both.first other.first (λ j. (same j).first) i)
        (B.named_by_state both.second other.second (λ j. (same j).second) i) };

    ghost acting_by_state = { λ both other same i. part_names (same i).selected
        (A.acting_by_state both.first other.first (λ j. (same j).first) i)
        (B.acting_by_state both.second other.second (λ j. (same j).second) i) };

    fn authenticated_user(&self) -> Option<&str> {
        match self.selected {
            Some(Selected::First) => self.first.authenticated_user(),
            Some(Selected::Second) => self.second.authenticated_user(),
            None => None,
        }
    }

    fn acts_for(&self) -> Option<&str> {
        match self.selected {
            Some(Selected::First) => self.first.acts_for(),
            Some(Selected::Second) => self.second.acts_for(),
            None => None,
        }
    }
}

impl<A: HasMechanism, B: HasMechanism> HasMechanism for AnyMechanism<A, B> {
    fn has_mechanism(&self, name: &str) -> bool {
        self.first.has_mechanism(name) || self.second.has_mechanism(name)
    }
}
