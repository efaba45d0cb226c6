//! What a server answers, before it changes anything.

ghost use Rattle.std.specs.Prelude.{◌≡◌, ◌≢◌, ◌↔◌, ◌≤◌, ◌^◌, ℕ, List, Option, Some, None, [], true, IfOk, IfErr, OnOk, MatchOption, option_map};
ghost use Rattle.fe2o3_sasl_wire.specs.FrameView.{shown};
ghost use Rattle.fe2o3_sasl_wire.specs.SaslFrames.{Challenge as ChallengeFrame, Init, Outcome as OutcomeFrame};
ghost use Rattle.fe2o3_sasl_wire.specs.declared.amqp_types.SaslCode.TheVariants.{Ok as OkCode};
ghost use Rattle.fe2o3_scram.specs.Credentials.{with_rights};
ghost use Rattle.fe2o3_scram.specs.ScramServer.{lent_mock};
ghost use Rattle.fe2o3_sasl_core.specs.ExternalServer.{AsksFor};
ghost use Rattle.fe2o3_sasl_core.specs.SaslAcceptor.{HasReason, ends_with, reason_in, sent_frame};
ghost use Rattle.fe2o3_sasl_core.specs.MockChoices.{count_of_unknown, mock_for};
ghost use Rattle.fe2o3_sasl_core.specs.Servers.{AsksForResponse, ExchangeOpen, FinalRejects, InitAllocates, InitAnswers, InitRejects, ServerLogin, ResponseAllocates, ResponseAnswers, ResponseRejects, InitWhere, InitWhereRejects, ServerStage, UserAuthenticated, ConfirmsSignature, asked_mechanism, init_hmacs, init_where_hmacs, is_named, is_response_asked, server_login, is_offered_by, plain_by_settings, response_hmacs, rules_by, settings_in, stage_of};
ghost use Rattle.fe2o3_sasl_core.specs.declared.rejection.Rejection.TheVariants.{NoInitialResponse};
ghost use Rattle.fe2o3_sasl_core.specs.declared.mechanism.Mechanism.TheVariants.{Scram, Plain, Anonymous, External};
ghost use Rattle.fe2o3_sasl_core.specs.private.ServerMoves.{TakesAtMost, TakesExactly, after};

use crate::OutOfMemory;
use crate::login_attempts::copied;
use crate::mechanism::Mechanism;
use crate::plain_server::{PlainMessage, PlainTest};
use crate::rejection::Rejection;
use crate::sasl_acceptor::{SaslServerFrame, outcome};
use crate::scram_acceptor::{reason_of_first, refusal};
use crate::server::Server;
use crate::server::reasons::{reason_of_final, reason_of_unread};
use crate::server::stage::{LoginOf, Move, Stage};
use fe2o3_sasl_wire::{Binary, SaslChallenge, SaslCode, SaslOutcome};
use fe2o3_scram::credentials::RecordStore;
use fe2o3_scram::hmac::{Meter, ScramVersion};
use fe2o3_scram::{MockUsers, ServerExchange, ServerRules};
use std::alloc::Global;

/// The iteration count of PLAIN for an unknown user, where none is set.
const DEFAULT_PLAIN_ITERATIONS: u32 = 4096;

impl Server<'_> {
    /// Returns whether the server offers this mechanism.
    pub(crate) fn offers(&self, mechanism: Mechanism) -> bool
        ensures { result ≡ is_offered_by (settings_in self.now) mechanism }
    {
        let mechanisms = self.options.mechanisms;
        match mechanism {
            Mechanism::Scram(version, plus) => {
                mechanisms.has_hash(version) && (!plus || self.transport.channels.is_some())
            }
            Mechanism::Plain => mechanisms.plain && self.transport.is_tls,
            Mechanism::Anonymous => mechanisms.anonymous,
            Mechanism::External => mechanisms.external && is_named(self.transport.external),
        }
    }

    /// Returns the mechanism that this name asks for, if it is offered.
    #[tactic(auto, using(crate::proofs::lemmas::machines::MechanismLemmas::asked))]
    pub(crate) fn asked(&self, name: &str) -> Option<Mechanism>
        ensures { result ≡ asked_mechanism (settings_in self.now) name.now }
    {
        let mechanism = Mechanism::of_name(name)?;
        if self.offers(mechanism) {
            Some(mechanism)
        } else {
            None
        }
    }

    /// Returns what SCRAM accepts in a client's messages, with `-PLUS` or without it.
    fn rules(&self, plus: bool) -> ServerRules
        ensures { result ≡ rules_by plus (settings_in self.now).rules }
    {
        let options = self.options;
        let channels = self.transport.channels;
        let rules = ServerRules {
            accept_cbind_flag_y: options.accept_cbind_flag_y,
            strict: options.strict,
            reject_misplaced: options.reject_misplaced,
            channels,
            accept_authzid: options.accept_authzid,
        };
        if plus {
            return rules;
        }
        ServerRules {
            accept_cbind_flag_y: rules.accept_cbind_flag_y && channels.is_none(),
            reject_misplaced: rules.reject_misplaced || channels.is_some(),
            channels: None,
            ..rules
        }
    }

    /// Lends the settings of mock records for this hash, if there are any.
    pub(crate) fn mock_users(&self, version: ScramVersion) -> Option<MockUsers<'_>>
        ensures { option_map lent_mock result ≡ option_map (mock_for version) (settings_in self.now).mock }
    {
        match &self.options.mock {
            Some(mock) => Some(mock.users(version)),
            None => None,
        }
    }

    /// Returns the iteration count by which PLAIN answers an unknown user.
    fn plain_iterations(&self) -> u32
        ensures { result ≡ (plain_by_settings (settings_in self.now)).count }
    {
        match (self.options.plain_iterations, &self.options.mock) {
            (Some(iterations), _) => iterations,
            (None, Some(mock)) => mock.iterations(),
            (None, None) => DEFAULT_PLAIN_ITERATIONS,
        }
    }

    /// Returns whether the server waits for the response that completes an init.
    fn is_response_asked(&self) -> bool
        ensures { result ≡ is_response_asked (stage_of self.now.stage) }
    {
        match self.stage {
            Stage::Asked { .. } => true,
            _ => false,
        }
    }

    /// Answers an init of SCRAM with this client-first message.
    fn answer_scram(
        &self,
        alloc: Global,
        version: ScramVersion,
        plus: bool,
        text: &[u8],
        nonce: &[u8; 32],
        meter: &mut Meter,
    ) -> Result<(SaslServerFrame, Move), OutOfMemory>
        requires { meter.old ≤ 2 ^ 63 }
        ensures ok { IfOk result (λ made. (kept : ServerStage) → InitAnswers (settings_in self.now)
            (Scram version plus) kept nonce.now (Some text.now) (sent_frame made.0) (after kept made.1)) }
        ensures reason { IfOk result (λ made.
            HasReason (InitRejects (settings_in self.now) (Scram version plus) (Some text.now)) made.0) }
        ensures memory { IfErr result (λ _.
            InitAllocates (settings_in self.now) (Scram version plus) (Some text.now)) }
        ensures cost { TakesAtMost (init_hmacs (settings_in self.now) (Scram version plus) (Some text.now))
            meter.old meter.new }
        ensures exactly { OnOk result (TakesExactly (init_hmacs (settings_in self.now) (Scram version plus)
            (Some text.now)) meter.old meter.new) }
    {
        let rules = self.rules(plus);
        let opened = ServerExchange::open(
            alloc,
            self.records.for_version(version),
            rules,
            self.mock_users(version),
            text,
            nonce,
            meter,
        );
        match opened {
            Ok(Some((message, exchange))) => {
                let stage = Stage::Open {
                    version,
                    plus,
                    exchange,
                };
                Ok((challenge(message), Move::To(stage)))
            }
            Ok(None) => {
                let reason = reason_of_unread(alloc, rules, self.records, text)?;
                Ok((SaslServerFrame::Rejected(reason), Move::Stay))
            }
            Err(kind) => {
                let reason = reason_of_first(rules, text, kind);
                Ok((refusal(kind, reason)?, Move::Stay))
            }
        }
    }

    /// Answers an init of PLAIN with this message.
    fn answer_plain(
        &self,
        alloc: Global,
        text: &[u8],
        meter: &mut Meter,
    ) -> Result<(SaslServerFrame, Move), OutOfMemory>
        requires { meter.old ≤ 2 ^ 63 }
        ensures ok { IfOk result (λ made. (kept : ServerStage) (nonce : List ℕ) → InitAnswers (settings_in self.now)
            Plain kept nonce (Some text.now) (sent_frame made.0) (after kept made.1)) }
        ensures reason { IfOk result (λ made.
            HasReason (InitRejects (settings_in self.now) Plain (Some text.now)) made.0) }
        ensures memory { IfErr result (λ _. InitAllocates (settings_in self.now) Plain (Some text.now)) }
        ensures cost { TakesAtMost (init_hmacs (settings_in self.now) Plain (Some text.now)) meter.old meter.new }
        ensures exactly { OnOk result (TakesExactly (init_hmacs (settings_in self.now) Plain (Some text.now))
            meter.old meter.new) }
    {
        let options = self.options;
        let Some(message) = PlainMessage::read_taken(options.accept_authzid, text) else {
            return Ok((
                SaslServerFrame::Rejected(Rejection::InvalidMessage),
                Move::Stay,
            ));
        };
        let test = PlainTest {
            credentials: self.records.for_version(options.plain_version),
            iterations: self.plain_iterations(),
            passwords: options.plain_passwords,
            accept_authzid: options.accept_authzid,
            rights: &options.rights,
        };
        if test.lets_in(alloc, &message, meter)? {
            let login = LoginOf {
                mechanism: Mechanism::Plain,
                user: Some(message.username.to_string(alloc)?),
                acts_for: copied(alloc, message.asked_identity())?,
            };
            Ok((accepted(), Move::To(Stage::Authenticated(login))))
        } else {
            Ok((
                SaslServerFrame::Rejected(Rejection::WrongPassword),
                Move::Stay,
            ))
        }
    }

    /// Answers an init of EXTERNAL with this initial response.
    fn answer_external(
        &self,
        alloc: Global,
        response: Option<&[u8]>,
    ) -> Result<(SaslServerFrame, Move), OutOfMemory>
        ensures ok { IfOk result (λ made. (kept : ServerStage) (nonce : List ℕ) → InitAnswers (settings_in self.now)
            External kept nonce (shown response.entry) (sent_frame made.0) (after kept made.1)) }
        ensures reason { IfOk result (λ made.
            HasReason (InitRejects (settings_in self.now) External (shown response.entry)) made.0) }
        ensures memory { IfErr result (λ _. InitAllocates (settings_in self.now) External (shown response.entry)) }
    {
        if !asks_for(self.transport.external, response) {
            return Ok((
                SaslServerFrame::Rejected(Rejection::OtherIdentity),
                Move::Stay,
            ));
        }
        let login = LoginOf {
            mechanism: Mechanism::External,
            user: Some(self.transport.external.to_string(alloc)?),
            acts_for: None,
        };
        Ok((accepted(), Move::To(Stage::Authenticated(login))))
    }

    /// Asks an init of this mechanism for its initial response, or rejects it.
    fn answer_none(
        &self,
        alloc: Global,
        mechanism: Mechanism,
        nonce: &[u8; 32],
    ) -> (SaslServerFrame, Move)
        ensures ok { (kept : ServerStage) → AsksForResponse (settings_in self.now).extra.initial_response mechanism kept
            nonce.now (sent_frame result.0) (after kept result.1) }
        ensures reason { HasReason (λ reason. reason ≡ NoInitialResponse) result.0 }
    {
        if self.options.extra_challenges.initial_response {
            let stage = Stage::Asked {
                mechanism,
                nonce: *nonce,
            };
            (challenge(Vec::new(alloc)), Move::To(stage))
        } else {
            (
                SaslServerFrame::Rejected(Rejection::NoInitialResponse),
                Move::Stay,
            )
        }
    }

    /// Answers an init of this mechanism with this initial response.
    fn answer_mechanism(
        &self,
        alloc: Global,
        mechanism: Mechanism,
        response: Option<&[u8]>,
        nonce: &[u8; 32],
        meter: &mut Meter,
    ) -> Result<(SaslServerFrame, Move), OutOfMemory>
        requires { meter.old ≤ 2 ^ 63 }
        ensures ok { IfOk result (λ made. (kept : ServerStage) → InitAnswers (settings_in self.now) mechanism kept nonce.now
            (shown response.entry) (sent_frame made.0) (after kept made.1)) }
        ensures reason { IfOk result (λ made.
            HasReason (InitRejects (settings_in self.now) mechanism (shown response.entry)) made.0) }
        ensures memory { IfErr result (λ _. InitAllocates (settings_in self.now) mechanism (shown response.entry)) }
        ensures cost { TakesAtMost (init_hmacs (settings_in self.now) mechanism (shown response.entry)) meter.old meter.new }
        ensures exactly { OnOk result (TakesExactly (init_hmacs (settings_in self.now) mechanism (shown response.entry))
            meter.old meter.new) }
    {
        match (mechanism, response) {
            (Mechanism::Anonymous, _) => {
                let login = LoginOf {
                    mechanism: Mechanism::Anonymous,
                    user: None,
                    acts_for: None,
                };
                Ok((accepted(), Move::To(Stage::Authenticated(login))))
            }
            (Mechanism::External, response) => self.answer_external(alloc, response),
            (mechanism, None) => Ok(self.answer_none(alloc, mechanism, nonce)),
            (Mechanism::Plain, Some(text)) => self.answer_plain(alloc, text, meter),
            (Mechanism::Scram(version, plus), Some(text)) => {
                self.answer_scram(alloc, version, plus, text, nonce, meter)
            }
        }
    }

    /// Answers an init.
    pub(crate) fn answer_init(
        &self,
        alloc: Global,
        name: &str,
        response: Option<&[u8]>,
        nonce: &[u8; 32],
        meter: &mut Meter,
    ) -> Result<(SaslServerFrame, Move), OutOfMemory>
        requires { meter.old ≤ 2 ^ 63 }
        ensures ok { IfOk result (λ made. InitWhere (is_response_asked (stage_of self.now.stage)) (settings_in self.now)
            (stage_of self.now.stage) nonce.now name.now (shown response.entry) (sent_frame made.0)
            (after (stage_of self.now.stage) made.1)) }
        ensures reason { IfOk result (λ made. HasReason (InitWhereRejects (is_response_asked (stage_of self.now.stage))
            (settings_in self.now) name.now (shown response.entry)) made.0) }
        ensures cost { TakesAtMost (init_where_hmacs (is_response_asked (stage_of self.now.stage)) (settings_in self.now)
            name.now (shown response.entry)) meter.old meter.new }
        ensures exactly { OnOk result (TakesExactly (init_where_hmacs (is_response_asked (stage_of self.now.stage))
            (settings_in self.now) name.now (shown response.entry)) meter.old meter.new) }
    {
        if self.is_response_asked() {
            return Ok((
                SaslServerFrame::Rejected(Rejection::UnexpectedInit),
                Move::To(Stage::Start),
            ));
        }
        match self.asked(name) {
            Some(mechanism) => self.answer_mechanism(alloc, mechanism, response, nonce, meter),
            None => Ok((
                SaslServerFrame::Rejected(Rejection::MechanismNotOffered),
                Move::Stay,
            )),
        }
    }

    /// Answers the client-final message of this exchange, which is the open one.
    fn conclude(
        &self,
        alloc: Global,
        version: ScramVersion,
        plus: bool,
        exchange: &ServerExchange,
        text: &[u8],
        meter: &mut Meter,
    ) -> Result<(SaslServerFrame, Move), OutOfMemory>
        requires { meter.old ≤ 2 ^ 63 }
        ensures ok { IfOk result (λ made. ResponseAnswers (settings_in self.now)
            (ExchangeOpen version plus exchange.now) text.now (sent_frame made.0)
            (after (ExchangeOpen version plus exchange.now) made.1)) }
        ensures reason { IfOk result (λ made. HasReason (FinalRejects (settings_in self.now) version plus exchange.now
            text.now) made.0) }
        ensures memory { IfErr result (λ _. ResponseAllocates (settings_in self.now)
            (ExchangeOpen version plus exchange.now) text.now) }
        ensures cost { TakesAtMost (response_hmacs (settings_in self.now) (ExchangeOpen version plus exchange.now)
            text.now) meter.old meter.new }
        ensures exactly { OnOk result (TakesExactly (response_hmacs (settings_in self.now)
            (ExchangeOpen version plus exchange.now) text.now) meter.old meter.new) }
    {
        let rights = &self.options.rights;
        let may_act = rights.may_act(exchange.username(), exchange.acts_for());
        let rules = self.rules(plus);
        match exchange.conclude(alloc, version, rules, may_act, text, meter) {
            Ok(message) => {
                if self.options.extra_challenges.signature {
                    Ok((challenge(message), Move::Sign))
                } else {
                    Ok((conclusion(message), Move::Authenticate))
                }
            }
            Err(kind) => {
                let reason = reason_of_final(self.records, version, rights, exchange, kind);
                Ok((refusal(kind, reason)?, Move::Stay))
            }
        }
    }

    /// Answers a response.
    pub(crate) fn answer_response(
        &self,
        alloc: Global,
        text: &[u8],
        meter: &mut Meter,
    ) -> Result<(SaslServerFrame, Move), OutOfMemory>
        requires { meter.old ≤ 2 ^ 63 }
        ensures ok { IfOk result (λ made. ResponseAnswers (settings_in self.now) (stage_of self.now.stage) text.now
            (sent_frame made.0) (after (stage_of self.now.stage) made.1)) }
        ensures reason { IfOk result (λ made. HasReason (ResponseRejects (settings_in self.now) (stage_of self.now.stage)
            text.now) made.0) }
        ensures memory { IfErr result (λ _. ResponseAllocates (settings_in self.now) (stage_of self.now.stage) text.now) }
        ensures cost { TakesAtMost (response_hmacs (settings_in self.now) (stage_of self.now.stage) text.now)
            meter.old meter.new }
        ensures exactly { OnOk result (TakesExactly (response_hmacs (settings_in self.now)
            (stage_of self.now.stage) text.now) meter.old meter.new) }
    {
        match &self.stage {
            Stage::Asked { mechanism, nonce } => {
                let (reply, moves) = self.answer_mechanism(
                    alloc,
                    *mechanism,
                    Some(text),
                    nonce,
                    meter,
                )?;
                Ok((reply, moves.or_restart()))
            }
            Stage::Open {
                version,
                plus,
                exchange,
            } => self.conclude(alloc, *version, *plus, exchange, text, meter),
            Stage::Signed(_) if text.is_empty() => Ok((accepted(), Move::Authenticate)),
            Stage::Signed(_) => Ok((
                SaslServerFrame::Rejected(Rejection::UnexpectedResponse),
                Move::To(Stage::Start),
            )),
            Stage::Start | Stage::Authenticated(_) => Ok((
                SaslServerFrame::Rejected(Rejection::UnexpectedResponse),
                Move::Stay,
            )),
        }
    }
}

/// Returns whether the name is not empty.
fn is_named(name: &str) -> bool
    ensures { result ≡ is_named name.now }
{
    !name.is_empty()
}

/// Returns whether the initial response of EXTERNAL asks for this name.
fn asks_for(name: &str, response: Option<&[u8]>) -> bool
    ensures { result ≡ true ↔ AsksFor name.now (shown response.entry) }
{
    match response {
        None => true,
        Some(identity) => identity.is_empty() || identity == name.as_bytes(),
    }
}

/// Returns a challenge.
fn challenge(message: Vec<u8>) -> SaslServerFrame
    ensures frame { sent_frame result ≡ ChallengeFrame message.items }
    ensures reason { reason_in result ≡ None }
{
    SaslServerFrame::Challenge(SaslChallenge {
        challenge: Binary(message),
    })
}

/// Returns the outcome Ok without data.
fn accepted() -> SaslServerFrame
    ensures frame { sent_frame result ≡ ends_with OkCode }
    ensures reason { reason_in result ≡ None }
{
    outcome(SaslCode::Ok)
}

/// Returns the outcome Ok with the server-final message.
fn conclusion(message: Vec<u8>) -> SaslServerFrame
    ensures frame { sent_frame result ≡ OutcomeFrame OkCode (Some message.items) }
    ensures reason { reason_in result ≡ None }
{
    SaslServerFrame::Outcome(SaslOutcome {
        code: SaslCode::Ok,
        additional_data: Some(Binary(message)),
    })
}
