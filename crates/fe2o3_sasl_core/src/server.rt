//! A server of SCRAM, PLAIN, ANONYMOUS and EXTERNAL over one list of records (AMQP 1.0, part 5, sections 5.3.2 and 5.3.3).

ghost use Rattle.std.specs.Prelude.{◌≡◌, ◌++◌, ◌≤◌, ◌^◌, ℕ, List, Option, None, Ok, IfErr, IfOk, OnErr, OnOk, IsAscii, option_map, string_bytes};
ghost use Rattle.std.proofs.Common.{ap, refl};
ghost use Rattle.fe2o3_sasl_wire.specs.AmqpTypes.{binary_bytes, init_frame, response_frame};
ghost use Rattle.fe2o3_sasl_wire.specs.FrameView.{shown, viewed_frame};
ghost use Rattle.fe2o3_sasl_wire.specs.SaslFrames.{Init, Response, SaslFrame};
ghost use Rattle.fe2o3_sasl_core.specs.Bodies.{SpellsBody};
ghost use Rattle.fe2o3_sasl_core.specs.Costs.{AcceptorStepCosts, CostsAtMost, CostsExactly};
ghost use Rattle.fe2o3_sasl_core.specs.LoginAttempts.{IsAttempt, LateAllocates, LateUser, attempt_of};
ghost use Rattle.fe2o3_sasl_core.specs.Runs.{AcceptorAnswers, AcceptorSteps, server_answer};
ghost use Rattle.fe2o3_sasl_core.specs.SaslAcceptor.{HasReason, reason_in, sent_frame};
ghost use Rattle.fe2o3_sasl_core.specs.Mechanisms.{mechanism_symbol};
ghost use Rattle.fe2o3_sasl_core.specs.Servers.{KeepsReason, NotStarted, StepKeepsReason, ServerAt, acting_of_login, logged_in_at, server_login, name_where_offered, is_offered_by, offers_any, rejection_of_server, sasl_allocates, sasl_hmacs, sasl_machine, sasl_reasons, sasl_acting, sasl_server, sasl_names, sasl_user, settings_with, settings_in, stage_of, user_of_login};
ghost use Rattle.fe2o3_sasl_core.specs.private.ServerMoves.{after, claimed};

mod answers;
pub mod laws;
pub mod options;
mod reasons;
pub mod saved;
mod stage;

use crate::OutOfMemory;
use crate::any_mechanism::HasMechanism;
use crate::events::ServerReply;
use crate::login_attempts::{LoginAttempt, rejection_of, response_of, with_late};
use crate::mechanism::{Mechanism, symbol_of};
use crate::rejection::Rejection;
use crate::sasl_acceptor::{AuthenticatedUser, SaslAcceptor, SaslServerFrame};
use crate::server::options::{ServerOptions, Transport};
use crate::server::stage::{LoginOf, Move, Stage};
use crate::steps::write_reply;
use fe2o3_sasl_wire::{Array, Error, FrameView, SaslInit, SaslResponse, Symbol, view_frame};
use fe2o3_scram::MultiRecordStore;
use fe2o3_scram::hmac::{Meter, ScramVersion};
use std::alloc::{AllocError, Global};
use std::mem;

/// A server of SCRAM-SHA-512, SCRAM-SHA-256 and SCRAM-SHA-1, each with `-PLUS` and without it, and of PLAIN, ANONYMOUS and
/// EXTERNAL, over records and options that its connections share. It offers those of [`Mechanisms`](options::Mechanisms)
/// that the connection admits, in this order, all SCRAM with `-PLUS` before all SCRAM without it.
///
/// A `Server` has one open exchange. An init that is accepted, whatever its mechanism, takes the place of the exchange or
/// login before it. An init that is rejected leaves that as it is, but ends the wait for an initial response. The server
/// names a user from the outcome Ok to the next init that is accepted.
///
/// ```text
/// let options = ServerOptions::new(alloc, Mechanisms::scram());
/// let transport = Transport { is_tls: false, channels: None, external: "" };
/// let mut server = Server::new(&records, &options, transport);
/// let reply = server.body_step(alloc, &body, &nonce, &mut meter)?;
/// ```
#[derive(Drop)]
pub struct Server<'a> {
    records: &'a MultiRecordStore,
    options: &'a ServerOptions,
    transport: Transport<'a>,
    stage: Stage,
    attempt: Option<LoginAttempt>,
    rejection: Option<Rejection>,
}

/// What a frame claims.
#[derive(Drop)]
enum Claimed {
    /// The claim of an init.
    ByInit(LoginAttempt),

    /// The user of a late initial response, if it names one.
    Late(Option<String>),
}

impl<'a> Server<'a> {
    /// Returns a server with these records and options at this connection, before any init.
    pub fn new(
        records: &'a MultiRecordStore,
        options: &'a ServerOptions,
        transport: Transport<'a>,
    ) -> Self
        ensures state { sasl_server result ≡ record {
          settings = settings_with records.now options.now transport.entry;
          stage = NotStarted;
          last = None;
        } }
        ensures rejection { rejection_of_server result ≡ None }
    {
        Self {
            records,
            options,
            transport,
            stage: Stage::Start,
            attempt: None,
            rejection: None,
        }
    }

    /// Returns whether the server offers a mechanism at this connection. If not, it offers ANONYMOUS by name, since a list of
    /// mechanisms is not empty (AMQP 1.0, part 5, section 5.3.3.1), and rejects it.
    pub fn offers_any(&self) -> bool
        ensures { result ≡ offers_any (settings_in self.now) }
    {
        self.offers(Mechanism::Scram(ScramVersion::Sha512, true))
            || self.offers(Mechanism::Scram(ScramVersion::Sha256, true))
            || self.offers(Mechanism::Scram(ScramVersion::Sha1, true))
            || self.offers(Mechanism::Scram(ScramVersion::Sha512, false))
            || self.offers(Mechanism::Scram(ScramVersion::Sha256, false))
            || self.offers(Mechanism::Scram(ScramVersion::Sha1, false))
            || self.offers(Mechanism::Plain)
            || self.offers(Mechanism::Anonymous)
            || self.offers(Mechanism::External)
    }

    /// Returns the mechanism by which somebody has logged in, from the outcome Ok on. By ANONYMOUS it is nobody.
    pub fn mechanism(&self) -> Option<Mechanism>
        ensures { result ≡ option_map (λ login. login.mechanism) (logged_in_at (sasl_server self.now).stage) }
    {
        match &self.stage {
            Stage::Authenticated(login) => Some(login.mechanism),
            _ => None,
        }
    }

    /// Returns what the last init claimed, or `None` before the first init. Read it after a rejection too. Nobody is
    /// authenticated by it.
    pub fn last_attempt(&self) -> Option<&LoginAttempt>
        ensures { option_map (λ attempt. attempt_of attempt.now) result ≡ (sasl_server self.now).last }
    {
        self.attempt.as_ref()
    }

    /// Returns why the last reply rejects the login, for the server's log. `None` if the last reply is a challenge or another
    /// outcome, and before the first reply. A call that fails leaves it.
    pub fn last_rejection(&self) -> Option<Rejection>
        ensures { result ≡ rejection_of_server self.now }
    {
        self.rejection
    }

    /// Returns who has logged in.
    fn login(&self) -> Option<&LoginOf>
        ensures { option_map (λ login. server_login login.now) result ≡ logged_in_at (stage_of self.now.stage) }
    {
        match &self.stage {
            Stage::Authenticated(login) => Some(login),
            _ => None,
        }
    }

    /// Answers a body. Bytes after the frame are ignored.
    ///
    /// Errors: that of a body that is not read; `NotImplemented` for a frame that is neither an init nor a response;
    /// `OutOfMemory`, only for an init or a response; and `TooLarge` if the reply has no body. An error leaves the server
    /// unchanged. The meter, of at most 2^63, counts the HMAC values, also of an error.
    pub fn body_step(
        &mut self,
        alloc: Global,
        body: &[u8],
        nonce: &[u8; 32],
        meter: &mut Meter,
    ) -> Result<ServerReply, Error>
        requires { meter.old ≤ 2 ^ 63 }
        ensures step { AcceptorSteps sasl_machine (sasl_server self.old) (record { body = body.now; nonce = nonce.now })
            (server_answer result) (sasl_server self.new) }
        ensures cost { AcceptorStepCosts sasl_hmacs (sasl_server self.old)
            (record { body = body.now; nonce = nonce.now }) meter.old meter.new }
        ensures exactly { OnOk result ((frame : SaslFrame) → SpellsBody body.now (Ok frame)
            → CostsExactly sasl_hmacs (sasl_server self.old) frame meter.old meter.new) }
        ensures reason { StepKeepsReason (sasl_server self.old) body.now (rejection_of_server self.old)
            (rejection_of_server self.new) result }
    {
        match view_frame(body) {
            Ok((view, _)) => self.frame_step(alloc, view, nonce, meter),
            Err(fault) => Err(fault),
        }
    }

    /// Like [`Server::body_step`], with a frame that `view_frame` has read from a body.
    pub fn frame_step(
        &mut self,
        alloc: Global,
        view: FrameView<'_>,
        nonce: &[u8; 32],
        meter: &mut Meter,
    ) -> Result<ServerReply, Error>
        requires { meter.old ≤ 2 ^ 63 }
        ensures step { (body : List ℕ) → SpellsBody body (Ok (viewed_frame view.entry)) → AcceptorSteps sasl_machine
            (sasl_server self.old) (record { body = body; nonce = nonce.now }) (server_answer result) (sasl_server self.new) }
        ensures cost { CostsAtMost sasl_hmacs (sasl_server self.old) (viewed_frame view.entry) meter.old meter.new }
        ensures exactly { OnOk result (CostsExactly sasl_hmacs (sasl_server self.old) (viewed_frame view.entry)
            meter.old meter.new) }
        ensures reason { KeepsReason (sasl_server self.old) (viewed_frame view.entry) (rejection_of_server self.old)
            (rejection_of_server self.new) result }
    {
        match view {
            FrameView::Init {
                mechanism,
                initial_response,
                hostname,
            } => self.init_step(alloc, mechanism, initial_response, hostname, nonce, meter),
            FrameView::Response(text) => self.response_step(alloc, text, nonce, meter),
            FrameView::Mechanisms(_) => Err(Error::NotImplemented),
            FrameView::Challenge(_) => Err(Error::NotImplemented),
            FrameView::Outcome { .. } => Err(Error::NotImplemented),
        }
    }

    /// Answers an init. The reply is written before anything changes.
    fn init_step(
        &mut self,
        alloc: Global,
        mechanism: &str,
        initial_response: Option<&[u8]>,
        hostname: Option<&str>,
        nonce: &[u8; 32],
        meter: &mut Meter,
    ) -> Result<ServerReply, Error>
        requires { meter.old ≤ 2 ^ 63 }
        ensures answer { AcceptorAnswers sasl_machine (sasl_server self.old) nonce.now
            (Init mechanism.now (shown initial_response.entry) (shown hostname.entry)) (server_answer result)
            (sasl_server self.new) }
        ensures cost { CostsAtMost sasl_hmacs (sasl_server self.old)
            (Init mechanism.now (shown initial_response.entry) (shown hostname.entry)) meter.old meter.new }
        ensures exactly { OnOk result (CostsExactly sasl_hmacs (sasl_server self.old)
            (Init mechanism.now (shown initial_response.entry) (shown hostname.entry)) meter.old meter.new) }
        ensures reason { KeepsReason (sasl_server self.old)
            (Init mechanism.now (shown initial_response.entry) (shown hostname.entry)) (rejection_of_server self.old)
            (rejection_of_server self.new) result }
    {
        let (reply, moves, claim) = self.take_init(
            alloc,
            mechanism,
            initial_response,
            hostname,
            nonce,
            meter,
        )?;
        let reason = rejection_of(&reply);
        match write_reply(alloc, reply) {
            Ok(says) => {
                self.commit(moves, claim, reason);
                Ok(says)
            }
            Err(fault) => Err(fault),
        }
    }

    /// Answers a response. The reply is written before anything changes.
    fn response_step(
        &mut self,
        alloc: Global,
        text: &[u8],
        nonce: &[u8; 32],
        meter: &mut Meter,
    ) -> Result<ServerReply, Error>
        requires { meter.old ≤ 2 ^ 63 }
        ensures answer { AcceptorAnswers sasl_machine (sasl_server self.old) nonce.now (Response text.now)
            (server_answer result) (sasl_server self.new) }
        ensures cost { CostsAtMost sasl_hmacs (sasl_server self.old) (Response text.now) meter.old meter.new }
        ensures exactly { OnOk result (CostsExactly sasl_hmacs (sasl_server self.old) (Response text.now)
            meter.old meter.new) }
        ensures reason { KeepsReason (sasl_server self.old) (Response text.now) (rejection_of_server self.old)
            (rejection_of_server self.new) result }
    {
        let (reply, moves, claim) = self.take_response(alloc, text, meter)?;
        let reason = rejection_of(&reply);
        match write_reply(alloc, reply) {
            Ok(says) => {
                self.commit(moves, claim, reason);
                Ok(says)
            }
            Err(fault) => Err(fault),
        }
    }

    /// Returns the reply to an init, and what it changes.
    fn take_init(
        &self,
        alloc: Global,
        mechanism: &str,
        initial_response: Option<&[u8]>,
        hostname: Option<&str>,
        nonce: &[u8; 32],
        meter: &mut Meter,
    ) -> Result<(SaslServerFrame, Move, Claimed), OutOfMemory>
        requires { meter.old ≤ 2 ^ 63 }
        ensures ok { IfOk result (λ made. sasl_machine (sasl_server self.now) nonce.now
            (Init mechanism.now (shown initial_response.entry) (shown hostname.entry)) (sent_frame made.0) (record {
              settings = settings_in self.now;
              stage = after (stage_of self.now.stage) made.1;
              last = claimed (sasl_server self.now).last made.2;
            })) }
        ensures reason { IfOk result (λ made. HasReason (sasl_reasons (sasl_server self.now)
            (Init mechanism.now (shown initial_response.entry) (shown hostname.entry))) made.0) }
        ensures cost { CostsAtMost sasl_hmacs (sasl_server self.now)
            (Init mechanism.now (shown initial_response.entry) (shown hostname.entry)) meter.old meter.new }
        ensures exactly { OnOk result (CostsExactly sasl_hmacs (sasl_server self.now)
            (Init mechanism.now (shown initial_response.entry) (shown hostname.entry)) meter.old meter.new) }
    {
        let attempt = LoginAttempt::of_init(alloc, mechanism, initial_response, hostname)?;
        let (reply, moves) = self.answer_init(alloc, mechanism, initial_response, nonce, meter)?;
        Ok((reply, moves, Claimed::ByInit(attempt)))
    }

    /// Returns the reply to a response, and what it changes.
    fn take_response(
        &self,
        alloc: Global,
        text: &[u8],
        meter: &mut Meter,
    ) -> Result<(SaslServerFrame, Move, Claimed), OutOfMemory>
        requires { meter.old ≤ 2 ^ 63 }
        ensures ok { IfOk result (λ made. (nonce : List ℕ) → sasl_machine (sasl_server self.now) nonce
            (Response text.now) (sent_frame made.0) (record {
              settings = settings_in self.now;
              stage = after (stage_of self.now.stage) made.1;
              last = claimed (sasl_server self.now).last made.2;
            })) }
        ensures reason { IfOk result (λ made.
            HasReason (sasl_reasons (sasl_server self.now) (Response text.now)) made.0) }
        ensures memory { IfErr result (λ _. sasl_allocates (sasl_server self.now) (Response text.now)) }
        ensures cost { CostsAtMost sasl_hmacs (sasl_server self.now) (Response text.now) meter.old meter.new }
        ensures exactly { OnOk result (CostsExactly sasl_hmacs (sasl_server self.now) (Response text.now)
            meter.old meter.new) }
    {
        let late = self.late_user(alloc, text)?;
        let (reply, moves) = self.answer_response(alloc, text, meter)?;
        Ok((reply, moves, Claimed::Late(late)))
    }

    /// Returns the user that a response claims, if the last init claims none.
    fn late_user(&self, alloc: Global, text: &[u8]) -> Result<Option<String>, OutOfMemory>
        ensures ok { IfOk result (λ user. LateUser (sasl_server self.now).last text.now (option_map string_bytes user)) }
        ensures memory { IfErr result (λ _. LateAllocates (sasl_server self.now).last (Response text.now)) }
    {
        match &self.attempt {
            Some(attempt) => attempt.late_user(alloc, text),
            None => Ok(None),
        }
    }

    /// Commits what an answer changes.
    fn commit(&mut self, moves: Move, claim: Claimed, reason: Option<Rejection>)
        ensures state { sasl_server self.new ≡ record {
          settings = settings_in self.old;
          stage = after (stage_of self.old.stage) moves;
          last = claimed (sasl_server self.old).last claim;
        } }
        ensures rejection { rejection_of_server self.new ≡ reason }
    {
        let stage = mem::replace(&mut self.stage, Stage::Start);
        self.stage = moves.after(stage);
        self.attempt = match claim {
            Claimed::ByInit(attempt) => Some(attempt),
            Claimed::Late(late) => with_late(self.attempt.take(), late),
        };
        self.rejection = reason;
    }

    /// Appends the name of a mechanism, if it is offered.
    fn offer(
        &self,
        alloc: Global,
        names: &mut Vec<Symbol>,
        mechanism: Mechanism,
    ) -> Result<(), OutOfMemory>
        ensures { OnOk result (names.new.items
            ≡ names.old.items ++ name_where_offered (is_offered_by (settings_in self.now) mechanism)
            (mechanism_symbol mechanism)) }
    {
        if self.offers(mechanism) {
            names.push(symbol_of(alloc, mechanism.name())?)?;
        }
        Ok(())
    }
}

impl Clone for Server<'_> {
    ghost is_clone = { λ server copy. (sasl_server copy ≡ sasl_server server)
        × (rejection_of_server copy ≡ rejection_of_server server) };

    fn clone(&self) -> Result<Self, AllocError> {
        Ok(Self {
            records: self.records,
            options: self.options,
            transport: self.transport,
            stage: self.stage.clone()?,
            attempt: self.attempt.clone()?,
            rejection: self.rejection,
        })
    }
}

impl SaslAcceptor for Server<'_> {
    ghost State = { ServerAt };

    ghost state = { sasl_server };

    ghost names = { λ server. sasl_names server.settings };

    ghost machine = { sasl_machine };

    ghost Known = { Unit {0} };

    ghost known = { λ _. tt };

    ghost reasons = { λ _. sasl_reasons };

    ghost allocates = { sasl_allocates };

    ghost hmacs = { sasl_hmacs };

    ghost clone_keeps = { λ server copy same. same.0 };

    ghost clone_knows = { λ server copy same. refl };

    fn mechanisms(&self, alloc: Global) -> Result<Array<Symbol>, OutOfMemory> {
        let mut names = Vec::new(alloc);
        self.offer(
            alloc,
            &mut names,
            Mechanism::Scram(ScramVersion::Sha512, true),
        )?;
        self.offer(
            alloc,
            &mut names,
            Mechanism::Scram(ScramVersion::Sha256, true),
        )?;
        self.offer(
            alloc,
            &mut names,
            Mechanism::Scram(ScramVersion::Sha1, true),
        )?;
        self.offer(
            alloc,
            &mut names,
            Mechanism::Scram(ScramVersion::Sha512, false),
        )?;
        self.offer(
            alloc,
            &mut names,
            Mechanism::Scram(ScramVersion::Sha256, false),
        )?;
        self.offer(
            alloc,
            &mut names,
            Mechanism::Scram(ScramVersion::Sha1, false),
        )?;
        self.offer(alloc, &mut names, Mechanism::Plain)?;
        self.offer(alloc, &mut names, Mechanism::Anonymous)?;
        self.offer(alloc, &mut names, Mechanism::External)?;
        Ok(Array(names))
    }

    fn on_init(
        &mut self,
        alloc: Global,
        init: SaslInit,
        nonce: &[u8; 32],
    ) -> Result<SaslServerFrame, OutOfMemory>
        ensures ok { IfOk result (λ reply. sasl_machine (sasl_server self.old) nonce.now (init_frame init)
            (sent_frame reply) (sasl_server self.new)) }
        ensures reason { IfOk result (λ reply. HasReason (sasl_reasons (sasl_server self.old) (init_frame init)) reply) }
        ensures memory { IfErr result (λ _. sasl_allocates (sasl_server self.old) (init_frame init)) }
        ensures err { OnErr result (sasl_server self.new ≡ sasl_server self.old) }
        ensures rejection { IfOk result (λ reply. rejection_of_server self.new ≡ reason_in reply) }
        ensures unchanged { OnErr result (rejection_of_server self.new ≡ rejection_of_server self.old) }
    {
        self.on_init_metered(alloc, init, nonce, &mut Meter::new())
    }

    fn on_response(
        &mut self,
        alloc: Global,
        response: SaslResponse,
    ) -> Result<SaslServerFrame, OutOfMemory>
        ensures ok { IfOk result (λ reply. (nonce : List ℕ) → sasl_machine (sasl_server self.old) nonce (response_frame response)
            (sent_frame reply) (sasl_server self.new)) }
        ensures reason { IfOk result (λ reply. HasReason (sasl_reasons (sasl_server self.old) (response_frame response)) reply) }
        ensures memory { IfErr result (λ _. sasl_allocates (sasl_server self.old) (response_frame response)) }
        ensures err { OnErr result (sasl_server self.new ≡ sasl_server self.old) }
        ensures rejection { IfOk result (λ reply. rejection_of_server self.new ≡ reason_in reply) }
        ensures unchanged { OnErr result (rejection_of_server self.new ≡ rejection_of_server self.old) }
    {
        self.on_response_metered(alloc, response, &mut Meter::new())
    }

    fn on_init_metered(
        &mut self,
        alloc: Global,
        init: SaslInit,
        nonce: &[u8; 32],
        meter: &mut Meter,
    ) -> Result<SaslServerFrame, OutOfMemory>
        requires { meter.old ≤ 2 ^ 63 }
        ensures ok { IfOk result (λ reply. sasl_machine (sasl_server self.old) nonce.now (init_frame init)
            (sent_frame reply) (sasl_server self.new)) }
        ensures reason { IfOk result (λ reply. HasReason (sasl_reasons (sasl_server self.old) (init_frame init)) reply) }
        ensures memory { IfErr result (λ _. sasl_allocates (sasl_server self.old) (init_frame init)) }
        ensures err { OnErr result (sasl_server self.new ≡ sasl_server self.old) }
        ensures cost { CostsAtMost sasl_hmacs (sasl_server self.old) (init_frame init) meter.old meter.new }
        ensures exactly { OnOk result (CostsExactly sasl_hmacs (sasl_server self.old) (init_frame init)
            meter.old meter.new) }
        ensures rejection { IfOk result (λ reply. rejection_of_server self.new ≡ reason_in reply) }
        ensures unchanged { OnErr result (rejection_of_server self.new ≡ rejection_of_server self.old) }
    {
        let name = init.mechanism.as_str();
        let hostname = init.hostname.as_deref();
        let (reply, moves, claim) = self.take_init(
            alloc,
            name,
            response_of(&init),
            hostname,
            nonce,
            meter,
        )?;
        let reason = rejection_of(&reply);
        self.commit(moves, claim, reason);
        Ok(reply)
    }

    fn on_response_metered(
        &mut self,
        alloc: Global,
        response: SaslResponse,
        meter: &mut Meter,
    ) -> Result<SaslServerFrame, OutOfMemory>
        requires { meter.old ≤ 2 ^ 63 }
        ensures ok { IfOk result (λ reply. (nonce : List ℕ) → sasl_machine (sasl_server self.old) nonce (response_frame response)
            (sent_frame reply) (sasl_server self.new)) }
        ensures reason { IfOk result (λ reply. HasReason (sasl_reasons (sasl_server self.old) (response_frame response)) reply) }
        ensures memory { IfErr result (λ _. sasl_allocates (sasl_server self.old) (response_frame response)) }
        ensures err { OnErr result (sasl_server self.new ≡ sasl_server self.old) }
        ensures cost { CostsAtMost sasl_hmacs (sasl_server self.old) (response_frame response) meter.old meter.new }
        ensures exactly { OnOk result (CostsExactly sasl_hmacs (sasl_server self.old) (response_frame response)
            meter.old meter.new) }
        ensures rejection { IfOk result (λ reply. rejection_of_server self.new ≡ reason_in reply) }
        ensures unchanged { OnErr result (rejection_of_server self.new ≡ rejection_of_server self.old) }
    {
        let (reply, moves, claim) = self.take_response(alloc, &response.response.0, meter)?;
        let reason = rejection_of(&reply);
        self.commit(moves, claim, reason);
        Ok(reply)
    }
}

impl AuthenticatedUser for Server<'_> {
    ghost named = { λ server. sasl_user (sasl_server server) };

    ghost acting = { λ server. sasl_acting (sasl_server server) };

    ghost named_by_state = { λ server other same. ap sasl_user same };

    ghost acting_by_state = { λ server other same. ap sasl_acting same };

    fn authenticated_user(&self) -> Option<&str> {
        match self.login() {
            Some(login) => login.user.as_deref(),
            None => None,
        }
    }

    fn acts_for(&self) -> Option<&str> {
        match self.login() {
            Some(login) => login.acts_for.as_deref(),
            None => None,
        }
    }
}

impl HasMechanism for Server<'_> {
    fn has_mechanism(&self, name: &str) -> bool {
        self.asked(name).is_some()
    }
}
