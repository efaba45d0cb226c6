//! The server's side of a negotiation: what it answers to an init and to a response (AMQP 1.0, part
//! 5, section 5.3.2).

ghost use Rattle.std.specs.Prelude.{◌≡◌, ◌≢◌, ◌↔◌, ◌≤◌, ◌^◌, ⊤, Some, None, ℕ, List, [], ◌∷◌, Option, false, true, refl, IfOk, IfErr, IsOk, OnErr, MatchOption, IsAscii, option_map, string_bytes};
ghost use Rattle.fe2o3_sasl_wire.specs.AmqpTypes.{init_frame, response_frame, mechanisms_frame};
ghost use Rattle.fe2o3_sasl_wire.specs.SaslFrames.{SaslFrame, Mechanisms};
ghost use Rattle.std.proofs.Common.{ap};
ghost use Rattle.fe2o3_sasl_core.specs.Costs.{acceptor_hmacs, CostsAtMost};
ghost use Rattle.fe2o3_sasl_core.specs.SaslAcceptor.{Acceptor, PlainAcceptor, AnonymousAcceptor, acceptor_names, acceptor_machine, acceptor_allocates, acceptor_user, offered, NamesPlain, PlainRejected, ZeroPart, ends_with, plain_acceptor, HasReason, acceptor_reasons, no_users, sent_frame};

use crate::OutOfMemory;
use crate::mechanism::{ANONYMOUS, PLAIN, symbol_of};
use crate::rejection::Rejection;
use fe2o3_sasl_wire::{
    Array, SaslChallenge, SaslCode, SaslInit, SaslMechanisms, SaslOutcome, SaslResponse, Symbol,
};
use fe2o3_scram::hmac::Meter;
use fe2o3_scram::secrets::SecretText;
use std::alloc::{AllocError, Global};
use std::fmt;

/// A frame that a server sends after its mechanisms.
#[derive(Debug, Drop)]
pub enum SaslServerFrame {
    /// A challenge.
    Challenge(SaslChallenge),

    /// The end of the negotiation.
    Outcome(SaslOutcome),

    /// The outcome Auth without data. The reason is for the server's log and is not sent.
    Rejected(Rejection),
}

/// The server's side of a negotiation. To write an acceptor, define:
///
/// - `State`: what its answers depend on,
/// - `state`: the state of a value,
/// - `names`: the names of its mechanisms in a state,
/// - `machine`: the reply to an init or a response, and the next state,
/// - `allocates`: at which inits and responses it allocates,
/// - `hmacs`: how many HMAC values each takes,
/// - `Known`, `known`: what it knows of users, which no call changes,
/// - `reasons`: why it rejects a frame, by the state and by what it knows of users.
///
/// A call that runs out of memory leaves the state unchanged.
///
/// Only the reason depends on what it knows of users: `machine`, `allocates` and `hmacs` do not have that as an
/// argument. So a server that answers an unknown user by a mock record may keep in its log that the user is unknown,
/// and nothing else that it does shows it.
pub trait SaslAcceptor: Clone {
    ghost use Rattle.fe2o3_sasl_core.specs.declared.rejection.Rejection.{Rejection};

    ghost State: { Type 0 };

    ghost state: { Self → State };

    ghost names: { State → List (List ℕ) };

    ghost machine: { State → List ℕ → SaslFrame → SaslFrame → State → Type 0 };

    ghost Known: { Type 0 };

    ghost known: { Self → Known };

    ghost reasons: { Known → State → SaslFrame → Rejection → Type 0 };

    ghost allocates: { State → SaslFrame → Type 0 };

    ghost hmacs: { State → SaslFrame → ℕ → Type 0 };

    /// Returns the names of the acceptor's mechanisms.
    fn mechanisms(&self, alloc: Global) -> Result<Array<Symbol>, OutOfMemory>
        ensures { IfOk result (λ array. array.0.items ≡ names (state self.now)) };

    /// Answers an init. A reply that needs a nonce uses this one, of 32 bytes.
    fn on_init(
        &mut self,
        alloc: Global,
        init: SaslInit,
        nonce: &[u8; 32],
    ) -> Result<SaslServerFrame, OutOfMemory>
        ensures ok { IfOk result (λ reply.
            machine (state self.old) nonce.now (init_frame init) (sent_frame reply) (state self.new)) }
        ensures reason { IfOk result (λ reply.
            HasReason (reasons (known self.old) (state self.old) (init_frame init)) reply) }
        ensures memory { IfErr result (λ _. allocates (state self.old) (init_frame init)) }
        ensures err { OnErr result (state self.new ≡ state self.old) }
        ensures known { known self.new ≡ known self.old };

    /// Answers a response, which needs no nonce.
    fn on_response(
        &mut self,
        alloc: Global,
        response: SaslResponse,
    ) -> Result<SaslServerFrame, OutOfMemory>
        ensures ok { IfOk result (λ reply. (nonce : List ℕ) →
            machine (state self.old) nonce (response_frame response) (sent_frame reply) (state self.new)) }
        ensures reason { IfOk result (λ reply.
            HasReason (reasons (known self.old) (state self.old) (response_frame response)) reply) }
        ensures memory { IfErr result (λ _. allocates (state self.old) (response_frame response)) }
        ensures err { OnErr result (state self.new ≡ state self.old) }
        ensures known { known self.new ≡ known self.old };

    /// Like `on_init`; the meter, of at most 2^63, counts the HMAC values, also of an error. An acceptor that makes
    /// none keeps this default.
    fn on_init_metered(
        &mut self,
        alloc: Global,
        init: SaslInit,
        nonce: &[u8; 32],
        meter: &mut Meter,
    ) -> Result<SaslServerFrame, OutOfMemory>
        requires { meter.old ≤ 2 ^ 63 }
        ensures ok { IfOk result (λ reply.
            machine (state self.old) nonce.now (init_frame init) (sent_frame reply) (state self.new)) }
        ensures reason { IfOk result (λ reply.
            HasReason (reasons (known self.old) (state self.old) (init_frame init)) reply) }
        ensures memory { IfErr result (λ _. allocates (state self.old) (init_frame init)) }
        ensures err { OnErr result (state self.new ≡ state self.old) }
        ensures known { known self.new ≡ known self.old }
        ensures cost { CostsAtMost hmacs (state self.old) (init_frame init) meter.old meter.new }
    {
        self.on_init(alloc, init, nonce)
    }

    /// Like `on_response`, with a meter like that of `on_init_metered`.
    fn on_response_metered(
        &mut self,
        alloc: Global,
        response: SaslResponse,
        meter: &mut Meter,
    ) -> Result<SaslServerFrame, OutOfMemory>
        requires { meter.old ≤ 2 ^ 63 }
        ensures ok { IfOk result (λ reply. (nonce : List ℕ) →
            machine (state self.old) nonce (response_frame response) (sent_frame reply) (state self.new)) }
        ensures reason { IfOk result (λ reply.
            HasReason (reasons (known self.old) (state self.old) (response_frame response)) reply) }
        ensures memory { IfErr result (λ _. allocates (state self.old) (response_frame response)) }
        ensures err { OnErr result (state self.new ≡ state self.old) }
        ensures known { known self.new ≡ known self.old }
        ensures cost { CostsAtMost hmacs (state self.old) (response_frame response) meter.old meter.new }
    {
        self.on_response(alloc, response)
    }

    /// A clone is in the same state.
    ghost clone_keeps: { (acceptor copy : Self) → Self.is_clone acceptor copy → state copy ≡ state acceptor };

    /// A clone knows the same of users.
    ghost clone_knows: { (acceptor copy : Self) → Self.is_clone acceptor copy → known copy ≡ known acceptor };
}

/// The frame that every acceptor offers.
pub trait SaslAcceptorExt: SaslAcceptor {
    /// Returns the frame of the acceptor's mechanisms: only ANONYMOUS if it names none.
    fn sasl_mechanisms(&self, alloc: Global) -> Result<SaslMechanisms, OutOfMemory>
        ensures { IfOk result (λ mechanisms.
            mechanisms_frame mechanisms ≡ Mechanisms (offered (Self.names (Self.state self.now)))) }
    {
        let names = self.mechanisms(alloc)?;
        if names.0.is_empty() {
            SaslMechanisms::anonymous(alloc)
        } else {
            Ok(SaslMechanisms {
                sasl_server_mechanisms: names,
            })
        }
    }
}

impl<T: SaslAcceptor> SaslAcceptorExt for T {}

/// An acceptor that names the user who has logged in, and the identity that the user acts for.
pub trait AuthenticatedUser: SaslAcceptor {
    ghost named: { Self → Option (List ℕ) };

    ghost acting: { Self → Option (List ℕ) };

    /// Returns the name of the user of the last Ok, and `None` before it, from the next challenge on, and if the
    /// mechanism names no user. An error leaves it unchanged: read it at the Ok.
    fn authenticated_user(&self) -> Option<&str>
        ensures { option_map (λ user. user.now) result ≡ named self.now };

    /// Returns the identity that the user of `authenticated_user` acts for, if the client named one (RFC 4422, section 2).
    /// `None` beside a user is a client that acts for itself. Read it where you read the user. A connection belongs to
    /// this identity, and to the user if there is none.
    fn acts_for(&self) -> Option<&str>
        ensures { option_map (λ name. name.now) result ≡ acting self.now };

    /// The user depends only on the state.
    ghost named_by_state: { (acceptor other : Self) → Self.state other ≡ Self.state acceptor
        → named other ≡ named acceptor };

    /// The identity depends only on the state.
    ghost acting_by_state: { (acceptor other : Self) → Self.state other ≡ Self.state acceptor
        → acting other ≡ acting acceptor };
}

/// Returns a list of one ASCII name.
pub(crate) fn one_name(alloc: Global, name: &str) -> Result<Array<Symbol>, OutOfMemory>
    requires { IsAscii name.now }
    ensures { IfOk result (λ array. array.0.items ≡ name.now ∷ []) }
{
    let mut names = Vec::with_capacity(alloc, 1)?;
    names.push(symbol_of(alloc, name)?)?;
    Ok(Array(names))
}

/// Returns an outcome without data.
pub(crate) fn outcome(code: SaslCode) -> SaslServerFrame
    ensures { sent_frame result ≡ ends_with code }
{
    SaslServerFrame::Outcome(SaslOutcome {
        code,
        additional_data: None,
    })
}

/// Returns the part at index `k`, from 0, of bytes that are split at each zero.
fn zero_part(bytes: &[u8], k: usize) -> Option<&[u8]>
    ensures { MatchOption result ((part : List ℕ) → ¬ ZeroPart bytes.now k part)
        (λ part. ZeroPart bytes.now k part.now) }
{
    bytes.split(|byte| *byte == 0).nth(k)
}

/// Returns whether this is the part at index `k`.
fn has_zero_part(bytes: &[u8], k: usize, wanted: &[u8]) -> bool
    ensures { result ≡ true ↔ ZeroPart bytes.now k wanted.now }
{
    match zero_part(bytes, k) {
        Some(part) => part == wanted,
        None => false,
    }
}

/// An acceptor of PLAIN for one user (RFC 4616). Its answers allocate nothing.
#[derive(Drop)]
pub struct SaslPlainMechanism {
    pub(crate) username: String,
    pub(crate) password: SecretText,
    pub(crate) accepted: bool,
}

impl SaslPlainMechanism {
    /// Makes an acceptor of this user with this password.
    pub fn new(username: String, password: String) -> Self
        ensures { plain_acceptor result ≡ PlainAcceptor (string_bytes username) (string_bytes password) false }
    {
        Self {
            username,
            password: SecretText::new(password),
            accepted: false,
        }
    }

    /// Returns this acceptor in the state after a login of its user, whom it then names. The caller vouches that the
    /// user has logged in, since no message is checked. The password is not saved: the acceptor has it.
    pub fn restore_authenticated(self) -> Self
        ensures { plain_acceptor result ≡ PlainAcceptor (string_bytes self.username) self.password true }
    {
        Self {
            username: self.username,
            password: self.password,
            accepted: true,
        }
    }

    /// Returns the user's name, once an init was answered by Ok.
    pub fn authenticated_user(&self) -> Option<&str>
        ensures { option_map (λ user. user.now) result ≡ acceptor_user (plain_acceptor self.now) }
    {
        if self.accepted {
            Some(&self.username)
        } else {
            None
        }
    }

    /// Returns whether the message names the user and the password.
    fn is_named_by(&self, message: &[u8]) -> bool
        ensures { result ≡ true
            ↔ NamesPlain (string_bytes self.now.username) self.now.password message.now }
    {
        has_zero_part(message, 1, self.username.as_bytes())
            && has_zero_part(message, 2, self.password.as_str().as_bytes())
    }

    /// Returns why the message is rejected, or `None` if it names the user and the password.
    fn rejection_of(&self, message: &[u8]) -> Option<Rejection>
        ensures named { MatchOption result
            (NamesPlain (string_bytes self.now.username) self.now.password message.now)
            (λ _. ¬ NamesPlain (string_bytes self.now.username) self.now.password message.now) }
        ensures reason { MatchOption result ⊤ (λ reason. PlainRejected (string_bytes self.now.username)
            self.now.password message.now reason) }
    {
        if self.is_named_by(message) {
            return None;
        }
        match zero_part(message, 2) {
            Some(_) => Some(Rejection::WrongPassword),
            None => Some(Rejection::InvalidMessage),
        }
    }
}

impl fmt::Debug for SaslPlainMechanism {
    /// Writes the user name, without the password.
    fn fmt<W: fmt::Write>(&self, f: &mut fmt::Formatter<W>) -> fmt::Result {
        write!(
            f,
            "SaslPlainMechanism {{ username: {:?}, .. }}",
            self.username
        )
    }
}

impl Clone for SaslPlainMechanism {
    ghost is_clone = { λ mechanism copy. plain_acceptor copy ≡ plain_acceptor mechanism };

    fn clone(&self) -> Result<Self, AllocError> {
        Ok(Self {
            username: self.username.clone()?,
            password: self.password.clone()?,
            accepted: self.accepted,
        })
    }
}

impl SaslAcceptor for SaslPlainMechanism {
    ghost State = { Acceptor };

    ghost state = { plain_acceptor };

    ghost names = { acceptor_names };

    ghost machine = { acceptor_machine };

    ghost Known = { Unit {0} };

    ghost known = { λ _. tt };

    ghost reasons = { λ _. acceptor_reasons no_users };

    ghost allocates = { acceptor_allocates };

    ghost hmacs = { acceptor_hmacs };

    ghost clone_keeps = { λ acceptor copy same. same };

    ghost clone_knows = { λ acceptor copy same. refl };

    fn mechanisms(&self, alloc: Global) -> Result<Array<Symbol>, OutOfMemory> {
        one_name(alloc, PLAIN)
    }

    fn on_init(
        &mut self,
        _alloc: Global,
        init: SaslInit,
        _nonce: &[u8; 32],
    ) -> Result<SaslServerFrame, OutOfMemory>
        ensures ok { IfOk result (λ reply. acceptor_machine (plain_acceptor self.old) _nonce.now (init_frame init)
            (sent_frame reply) (plain_acceptor self.new)) }
        ensures reason { IfOk result (λ reply.
            HasReason (acceptor_reasons no_users (plain_acceptor self.old) (init_frame init)) reply) }
        ensures always { IsOk result }
    {
        let Some(message) = &init.initial_response else {
            return Ok(SaslServerFrame::Rejected(Rejection::NoInitialResponse));
        };
        if let Some(reason) = self.rejection_of(&message.0) {
            return Ok(SaslServerFrame::Rejected(reason));
        }
        self.accepted = true;
        Ok(outcome(SaslCode::Ok))
    }

    fn on_response(
        &mut self,
        _alloc: Global,
        response: SaslResponse,
    ) -> Result<SaslServerFrame, OutOfMemory>
        ensures ok { IfOk result (λ reply. (nonce : List ℕ) → acceptor_machine (plain_acceptor self.old) nonce
            (response_frame response) (sent_frame reply) (plain_acceptor self.new)) }
        ensures reason { IfOk result (λ reply.
            HasReason (acceptor_reasons no_users (plain_acceptor self.old) (response_frame response)) reply) }
        ensures always { IsOk result }
    {
        drop(response);
        Ok(outcome(SaslCode::Sys))
    }
}

impl AuthenticatedUser for SaslPlainMechanism {
    ghost named = { λ mechanism. acceptor_user (plain_acceptor mechanism) };

    ghost acting = { λ _. None };

    ghost named_by_state = { λ acceptor other same. ap acceptor_user same };

    ghost acting_by_state = { λ acceptor other same. refl };

    fn authenticated_user(&self) -> Option<&str> {
        SaslPlainMechanism::authenticated_user(self)
    }

    fn acts_for(&self) -> Option<&str> {
        None
    }
}

/// An acceptor of ANONYMOUS, which lets everyone in (RFC 4505). Its answers allocate nothing.
#[derive(Debug, Drop)]
pub struct SaslAnonymousMechanism {}

impl SaslAnonymousMechanism {
    /// Makes an acceptor of everyone.
    pub fn new() -> Self {
        Self {}
    }
}

impl Default for SaslAnonymousMechanism {
    fn default() -> Self {
        Self::new()
    }
}

impl Clone for SaslAnonymousMechanism {
    ghost is_clone = { λ _ _. ⊤ };

    ghost is_infallible = { λ _. ⊤ };

    fn clone(&self) -> Result<Self, AllocError> {
        Ok(Self {})
    }
}

impl SaslAcceptor for SaslAnonymousMechanism {
    ghost State = { Acceptor };

    ghost state = { λ _. AnonymousAcceptor };

    ghost names = { acceptor_names };

    ghost machine = { acceptor_machine };

    ghost Known = { Unit {0} };

    ghost known = { λ _. tt };

    ghost reasons = { λ _. acceptor_reasons no_users };

    ghost allocates = { acceptor_allocates };

    ghost hmacs = { acceptor_hmacs };

    ghost clone_keeps = { λ acceptor copy same. refl };

    ghost clone_knows = { λ acceptor copy same. refl };

    fn mechanisms(&self, alloc: Global) -> Result<Array<Symbol>, OutOfMemory> {
        one_name(alloc, ANONYMOUS)
    }

    fn on_init(
        &mut self,
        _alloc: Global,
        init: SaslInit,
        _nonce: &[u8; 32],
    ) -> Result<SaslServerFrame, OutOfMemory>
        ensures ok { IfOk result (λ reply.
            acceptor_machine AnonymousAcceptor _nonce.now (init_frame init) (sent_frame reply) AnonymousAcceptor) }
        ensures reason { IfOk result (λ reply.
            HasReason (acceptor_reasons no_users AnonymousAcceptor (init_frame init)) reply) }
        ensures always { IsOk result }
    {
        drop(init);
        Ok(outcome(SaslCode::Ok))
    }

    fn on_response(
        &mut self,
        _alloc: Global,
        response: SaslResponse,
    ) -> Result<SaslServerFrame, OutOfMemory>
        ensures ok { IfOk result (λ reply. (nonce : List ℕ) →
            acceptor_machine AnonymousAcceptor nonce (response_frame response) (sent_frame reply) AnonymousAcceptor) }
        ensures reason { IfOk result (λ reply.
            HasReason (acceptor_reasons no_users AnonymousAcceptor (response_frame response)) reply) }
        ensures always { IsOk result }
    {
        drop(response);
        Ok(outcome(SaslCode::Ok))
    }
}

impl AuthenticatedUser for SaslAnonymousMechanism {
    ghost named = { λ _. None };

    ghost acting = { λ _. None };

    ghost named_by_state = { λ acceptor other same. refl };

    ghost acting_by_state = { λ acceptor other same. refl };

    fn authenticated_user(&self) -> Option<&str> {
        None
    }

    fn acts_for(&self) -> Option<&str> {
        None
    }
}
