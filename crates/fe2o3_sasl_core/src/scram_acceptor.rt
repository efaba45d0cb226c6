//! SCRAM as an acceptor: the frames of a server's answers, and why it rejects a message.

ghost use Rattle.std.specs.Prelude.{◌≡◌, ◌≢◌, ◌↔◌, ◌≤◌, ◌+◌, ◌^◌, ⊤, false, Ok, Some, None, ℕ, List, [], Option, IfOk, IfErr, OnOk, OnErr, MatchOption, option_map};
ghost use Rattle.std.proofs.Common.{ap};
ghost use Rattle.fe2o3_sasl_wire.specs.AmqpTypes.{init_frame, response_frame};
ghost use Rattle.fe2o3_sasl_wire.specs.SaslFrames.{Challenge, Outcome};
ghost use Rattle.fe2o3_sasl_wire.specs.declared.amqp_types.SaslCode.TheVariants.{Ok as OkCode, Auth};
ghost use Rattle.fe2o3_scram.specs.Credentials.{serving, with_rights};
ghost use Rattle.fe2o3_scram.specs.MockSettings.{mocking};
ghost use Rattle.fe2o3_scram.specs.ScramServer.{challenge_kept, logged_in, logged_in_for, provider_in, rights_in, served_by, state_in};
ghost use Rattle.fe2o3_scram.specs.declared.scram_messages.error.ServerScramErrorKind.TheVariants.{OutOfMemory as ScramOutOfMemory};
ghost use Rattle.fe2o3_sasl_core.specs.Costs.{CostsAtMost, acceptor_hmacs};
ghost use Rattle.fe2o3_sasl_core.specs.SaslAcceptor.{Acceptor, HasReason, ScramAcceptor, acceptor_acting, acceptor_allocates, acceptor_machine, acceptor_names, acceptor_reasons, acceptor_user, ends_with, reason_in, sent_frame, server_frame};
ghost use Rattle.fe2o3_sasl_core.specs.ScramRejections.{KnownUsers, has_accepted_flag, has_other_flag, known_by, reason_of_failure, reason_of_final, reason_of_first};

use crate::OutOfMemory;
use crate::rejection::Rejection;
use crate::sasl_acceptor::{AuthenticatedUser, SaslAcceptor, SaslServerFrame, one_name};
use fe2o3_sasl_wire::{
    Array, Binary, SaslChallenge, SaslCode, SaslInit, SaslOutcome, SaslResponse, Symbol,
};
use fe2o3_scram::credentials::ScramCredentialProvider;
use fe2o3_scram::hmac::Meter;
use fe2o3_scram::scram_messages::ServerScramErrorKind;
use fe2o3_scram::scram_server::ScramAuthenticator;
use fe2o3_scram::{ChannelBindings, OpenChallenge, ServerRules};
use std::alloc::Global;

/// Answers an init.
pub(crate) fn answer_init<C: ScramCredentialProvider>(
    scram: &mut ScramAuthenticator<C>,
    alloc: Global,
    init: &SaslInit,
    nonce: &[u8; 32],
    meter: &mut Meter,
) -> Result<SaslServerFrame, OutOfMemory>
    requires { meter.old ≤ 2 ^ 63 }
    ensures ok { IfOk result (λ reply. acceptor_machine
        (ScramAcceptor (served_by C.meaning scram.old) (state_in scram.old)) nonce.now (init_frame init.now)
        (sent_frame reply) (ScramAcceptor (served_by C.meaning scram.new) (state_in scram.new))) }
    ensures reason { IfOk result (λ reply. HasReason (acceptor_reasons
        (known_by (C.meaning (provider_in scram.old)))
        (ScramAcceptor (served_by C.meaning scram.old) (state_in scram.old)) (init_frame init.now)) reply) }
    ensures memory { IfErr result (λ _. acceptor_allocates
        (ScramAcceptor (served_by C.meaning scram.old) (state_in scram.old)) (init_frame init.now)) }
    ensures err { OnErr result (◌≡◌ {A = Acceptor}
        (ScramAcceptor (served_by C.meaning scram.new) (state_in scram.new))
        (ScramAcceptor (served_by C.meaning scram.old) (state_in scram.old))) }
    ensures known { provider_in scram.new ≡ provider_in scram.old }
    ensures cost { CostsAtMost acceptor_hmacs
        (ScramAcceptor (served_by C.meaning scram.old) (state_in scram.old)) (init_frame init.now) meter.old meter.new }
    ensures exactly { OnOk result ((n : ℕ) → acceptor_hmacs
        (ScramAcceptor (served_by C.meaning scram.old) (state_in scram.old)) (init_frame init.now) n
        → meter.new ≡ meter.old + n) }
{
    if init.mechanism.as_str() != scram.mechanism() {
        return Ok(SaslServerFrame::Rejected(Rejection::MechanismNotOffered));
    }
    let Some(client_first) = &init.initial_response else {
        return Ok(SaslServerFrame::Rejected(Rejection::NoInitialResponse));
    };
    match scram.compute_server_first_message_metered(alloc, &client_first.0, nonce, meter) {
        Ok(Some(server_first)) => Ok(challenge(server_first)),
        Ok(None) => Ok(SaslServerFrame::Rejected(Rejection::UnknownUser)),
        Err(kind) => refusal(kind, reason_of_first(scram.rules(), &client_first.0, kind)),
    }
}

/// Answers a response. The reason of a failed login is looked up in the records of the server.
pub(crate) fn answer_response<C: ScramCredentialProvider>(
    scram: &mut ScramAuthenticator<C>,
    alloc: Global,
    response: &SaslResponse,
    meter: &mut Meter,
) -> Result<SaslServerFrame, OutOfMemory>
    requires { meter.old ≤ 2 ^ 63 }
    ensures ok { IfOk result (λ reply. (nonce : List ℕ) → acceptor_machine
        (ScramAcceptor (served_by C.meaning scram.old) (state_in scram.old)) nonce (response_frame response.now)
        (sent_frame reply) (ScramAcceptor (served_by C.meaning scram.new) (state_in scram.new))) }
    ensures reason { IfOk result (λ reply. HasReason (acceptor_reasons
        (known_by (C.meaning (provider_in scram.old)))
        (ScramAcceptor (served_by C.meaning scram.old) (state_in scram.old)) (response_frame response.now)) reply) }
    ensures memory { IfErr result (λ _. acceptor_allocates
        (ScramAcceptor (served_by C.meaning scram.old) (state_in scram.old)) (response_frame response.now)) }
    ensures err { OnErr result (◌≡◌ {A = Acceptor}
        (ScramAcceptor (served_by C.meaning scram.new) (state_in scram.new))
        (ScramAcceptor (served_by C.meaning scram.old) (state_in scram.old))) }
    ensures known { provider_in scram.new ≡ provider_in scram.old }
    ensures cost { CostsAtMost acceptor_hmacs
        (ScramAcceptor (served_by C.meaning scram.old) (state_in scram.old)) (response_frame response.now)
        meter.old meter.new }
    ensures exactly { OnOk result ((n : ℕ) → acceptor_hmacs
        (ScramAcceptor (served_by C.meaning scram.old) (state_in scram.old)) (response_frame response.now) n
        → meter.new ≡ meter.old + n) }
{
    match scram.compute_server_final_message_metered(alloc, &response.response.0, meter) {
        Ok(answer) => Ok(conclusion(answer)),
        Err(kind) => refusal(kind, reason_of_final(scram, kind)),
    }
}

impl<C: ScramCredentialProvider> SaslAcceptor for ScramAuthenticator<C> {
    ghost State = { Acceptor };

    ghost state = { λ authenticator. ScramAcceptor (served_by C.meaning authenticator) (state_in authenticator) };

    ghost names = { acceptor_names };

    ghost machine = { acceptor_machine };

    ghost Known = { KnownUsers };

    ghost known = { λ authenticator. known_by (C.meaning (provider_in authenticator)) };

    ghost reasons = { acceptor_reasons };

    ghost allocates = { acceptor_allocates };

    ghost hmacs = { acceptor_hmacs };

    ghost clone_keeps = { λ acceptor copy same.
        let kept = C.clone_keeps (provider_in acceptor) (provider_in copy) same.0 in
        λ i. ScramAcceptor (with_rights (same.4 i) (mocking (same.3 i) (serving (same.1 i) (kept i)))) (same.2 i) };

    ghost clone_knows = { λ acceptor copy same.
        let kept = C.clone_keeps (provider_in acceptor) (provider_in copy) same.0 in
        λ i. known_by (kept i) };

    fn mechanisms(&self, alloc: Global) -> Result<Array<Symbol>, OutOfMemory> {
        one_name(alloc, self.mechanism())
    }

    fn on_init(
        &mut self,
        alloc: Global,
        init: SaslInit,
        nonce: &[u8; 32],
    ) -> Result<SaslServerFrame, OutOfMemory> {
        self.on_init_metered(alloc, init, nonce, &mut Meter::new())
    }

    fn on_response(
        &mut self,
        alloc: Global,
        response: SaslResponse,
    ) -> Result<SaslServerFrame, OutOfMemory> {
        self.on_response_metered(alloc, response, &mut Meter::new())
    }

    fn on_init_metered(
        &mut self,
        alloc: Global,
        init: SaslInit,
        nonce: &[u8; 32],
        meter: &mut Meter,
    ) -> Result<SaslServerFrame, OutOfMemory>
        requires { meter.old ≤ 2 ^ 63 }
        ensures ok { IfOk result (λ reply. acceptor_machine
            (ScramAcceptor (served_by C.meaning self.old) (state_in self.old)) nonce.now (init_frame init)
            (sent_frame reply) (ScramAcceptor (served_by C.meaning self.new) (state_in self.new))) }
        ensures reason { IfOk result (λ reply. HasReason (acceptor_reasons
            (known_by (C.meaning (provider_in self.old)))
            (ScramAcceptor (served_by C.meaning self.old) (state_in self.old)) (init_frame init)) reply) }
        ensures memory { IfErr result (λ _. acceptor_allocates
            (ScramAcceptor (served_by C.meaning self.old) (state_in self.old)) (init_frame init)) }
        ensures err { OnErr result (◌≡◌ {A = Acceptor}
            (ScramAcceptor (served_by C.meaning self.new) (state_in self.new))
            (ScramAcceptor (served_by C.meaning self.old) (state_in self.old))) }
        ensures known { ◌≡◌ {A = KnownUsers} (known_by (C.meaning (provider_in self.new)))
            (known_by (C.meaning (provider_in self.old))) }
        ensures cost { CostsAtMost acceptor_hmacs
            (ScramAcceptor (served_by C.meaning self.old) (state_in self.old)) (init_frame init) meter.old meter.new }
        ensures exactly { OnOk result ((n : ℕ) → acceptor_hmacs
            (ScramAcceptor (served_by C.meaning self.old) (state_in self.old)) (init_frame init) n
            → meter.new ≡ meter.old + n) }
    {
        answer_init(self, alloc, &init, nonce, meter)
    }

    fn on_response_metered(
        &mut self,
        alloc: Global,
        response: SaslResponse,
        meter: &mut Meter,
    ) -> Result<SaslServerFrame, OutOfMemory>
        requires { meter.old ≤ 2 ^ 63 }
        ensures ok { IfOk result (λ reply. (nonce : List ℕ) → acceptor_machine
            (ScramAcceptor (served_by C.meaning self.old) (state_in self.old)) nonce (response_frame response)
            (sent_frame reply) (ScramAcceptor (served_by C.meaning self.new) (state_in self.new))) }
        ensures reason { IfOk result (λ reply. HasReason (acceptor_reasons
            (known_by (C.meaning (provider_in self.old)))
            (ScramAcceptor (served_by C.meaning self.old) (state_in self.old)) (response_frame response)) reply) }
        ensures memory { IfErr result (λ _. acceptor_allocates
            (ScramAcceptor (served_by C.meaning self.old) (state_in self.old)) (response_frame response)) }
        ensures err { OnErr result (◌≡◌ {A = Acceptor}
            (ScramAcceptor (served_by C.meaning self.new) (state_in self.new))
            (ScramAcceptor (served_by C.meaning self.old) (state_in self.old))) }
        ensures known { ◌≡◌ {A = KnownUsers} (known_by (C.meaning (provider_in self.new)))
            (known_by (C.meaning (provider_in self.old))) }
        ensures cost { CostsAtMost acceptor_hmacs
            (ScramAcceptor (served_by C.meaning self.old) (state_in self.old)) (response_frame response)
            meter.old meter.new }
        ensures exactly { OnOk result ((n : ℕ) → acceptor_hmacs
            (ScramAcceptor (served_by C.meaning self.old) (state_in self.old)) (response_frame response) n
            → meter.new ≡ meter.old + n) }
    {
        answer_response(self, alloc, &response, meter)
    }
}

impl<C: ScramCredentialProvider> AuthenticatedUser for ScramAuthenticator<C> {
    ghost named = { λ authenticator. logged_in (state_in authenticator) };

    ghost acting = { λ authenticator. logged_in_for (state_in authenticator) };

    ghost named_by_state = { λ acceptor other same. ap acceptor_user same };

    ghost acting_by_state = { λ acceptor other same. ap acceptor_acting same };

    fn authenticated_user(&self) -> Option<&str> {
        ScramAuthenticator::authenticated_user(self)
    }

    fn acts_for(&self) -> Option<&str> {
        ScramAuthenticator::acts_for(self)
    }
}

/// Returns the frame of a server-first message.
fn challenge(server_first: Vec<u8>) -> SaslServerFrame
    ensures frame { sent_frame result
        ≡ server_frame (λ message. Challenge message) (Ok (Some server_first.items)) }
    ensures reason { reason_in result ≡ None }
{
    SaslServerFrame::Challenge(SaslChallenge {
        challenge: Binary(server_first),
    })
}

/// Returns the frame of a server-final message. SCRAM answers a response never by `None`.
fn conclusion(answer: Option<Vec<u8>>) -> SaslServerFrame
    ensures frame { sent_frame result ≡ server_frame (λ message. Outcome OkCode (Some message))
        (Ok (option_map (λ message. message.items) answer)) }
    ensures reason { MatchOption answer ⊤ (λ _. reason_in result ≡ None) }
{
    match answer {
        Some(server_final) => SaslServerFrame::Outcome(SaslOutcome {
            code: SaslCode::Ok,
            additional_data: Some(Binary(server_final)),
        }),
        None => SaslServerFrame::Rejected(Rejection::Other),
    }
}

/// Maps every SCRAM error to a rejection for this reason, except `OutOfMemory`, which is returned as an error.
pub(crate) fn refusal(
    kind: ServerScramErrorKind,
    reason: Rejection,
) -> Result<SaslServerFrame, OutOfMemory>
    ensures auth { IfOk result (λ frame. (kind ≢ ScramOutOfMemory) × (sent_frame frame ≡ ends_with Auth)) }
    ensures reason { IfOk result (λ frame. reason_in frame ≡ Some reason) }
    ensures memory { IfErr result (λ _. kind ≡ ScramOutOfMemory) }
{
    match kind {
        ServerScramErrorKind::OutOfMemory => Err(OutOfMemory),
        _ => Ok(SaslServerFrame::Rejected(reason)),
    }
}

/// Returns the reason for the error of a client-first message.
pub(crate) fn reason_of_first(
    rules: ServerRules,
    client_first: &[u8],
    kind: ServerScramErrorKind,
) -> Rejection
    ensures { result ≡ reason_of_first rules client_first.now kind }
{
    match kind {
        ServerScramErrorKind::CannotParseGs2Header if has_other_flag(rules, client_first) => {
            Rejection::Channel
        }
        kind => Rejection::Scram(kind),
    }
}

/// Returns whether a client-first message begins with a flag of channel binding that the server does not accept.
fn has_other_flag(rules: ServerRules, text: &[u8]) -> bool
    ensures { result ≡ has_other_flag rules text.now }
{
    let has_flag = text.starts_with(b"n,") || text.starts_with(b"y,") || text.starts_with(b"p=");
    let is_accepted = match rules.channels {
        None => {
            text.starts_with(b"n,") || (rules.accept_cbind_flag_y && text.starts_with(b"y,"))
        }
        Some(channels) => has_flag_of(channels, text),
    };
    has_flag && !is_accepted
}

/// Returns whether the text begins with a kind of channel binding of which these are the data.
fn has_flag_of(channels: ChannelBindings, text: &[u8]) -> bool
    ensures { result ≡ has_accepted_flag (Some channels) false text.now }
{
    (channels.tls_unique.is_some() && text.starts_with(b"p=tls-unique,"))
        || (channels.tls_server_end_point.is_some() && text.starts_with(b"p=tls-server-end-point,"))
        || (channels.tls_exporter.is_some() && text.starts_with(b"p=tls-exporter,"))
}

/// Returns the reason for the error of a client-final message.
fn reason_of_final<C: ScramCredentialProvider>(
    scram: &ScramAuthenticator<C>,
    kind: ServerScramErrorKind,
) -> Rejection
    ensures { result ≡ reason_of_final
        (known_by (C.meaning (provider_in scram.now)))
        (rights_in scram.now) (state_in scram.now) kind }
{
    match kind {
        ServerScramErrorKind::AuthenticationFailed => match scram.open_challenge() {
            Some(challenge) => reason_of_failure(scram, &challenge),
            None => Rejection::Scram(kind),
        },
        ServerScramErrorKind::InvalidChannelBinding => Rejection::Channel,
        kind => Rejection::Scram(kind),
    }
}

/// Returns the reason of a failed login. The look-ups and the test of the right are made for every failed login alike.
fn reason_of_failure<C: ScramCredentialProvider>(
    scram: &ScramAuthenticator<C>,
    challenge: &OpenChallenge<'_>,
) -> Rejection
    ensures { result ≡ reason_of_failure
        (known_by (C.meaning (provider_in scram.now)))
        (rights_in scram.now) (challenge_kept challenge.now) }
{
    let username = challenge.username;
    let has_record = scram.credentials().get_stored_password(username).is_some();
    let may_act = scram.may_act(username, challenge.acts_for);
    match (has_record, may_act) {
        (false, _) => Rejection::UnknownUser,
        (true, false) => Rejection::NoRight,
        (true, true) => Rejection::WrongProof,
    }
}
