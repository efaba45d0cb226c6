//! Steps over bodies of frames. Each works on a copy of the state, writes the answer, and commits the new state last.

ghost use Rattle.std.specs.Prelude.{◌≡◌, ◌↔◌, ◌≤◌, ◌^◌, true, ℕ, List, Option, Some, Ok, IfOk, IfErr, OnErr};
ghost use Rattle.fe2o3_sasl_core.specs.Bodies.{SpellsBody, server_says};
ghost use Rattle.fe2o3_sasl_wire.specs.FrameView.{shown, viewed_frame};
ghost use Rattle.fe2o3_sasl_wire.specs.Owned.{owned_frame};
ghost use Rattle.fe2o3_sasl_wire.specs.SaslFrames.{canonical, RefusesFrame, Challenge as ChallengeFrame, Mechanisms as MechanismsFrame, Outcome as OutcomeFrame};
ghost use Rattle.fe2o3_sasl_core.specs.Costs.{CostsAtMost, AcceptorStepCosts, ProfileCosts, ProfileStepCosts};
ghost use Rattle.fe2o3_sasl_core.specs.SaslAcceptor.{sent_frame};
ghost use Rattle.fe2o3_sasl_core.specs.ProfileMachine.{StepAllocates};
ghost use Rattle.fe2o3_sasl_core.specs.SaslProfile.{profile_of};
ghost use Rattle.fe2o3_sasl_core.specs.Runs.{AcceptorAnswers, AcceptorSteps, ProfileReplies, ProfileSteps, given, server_answer, server_reply, client_answer};
ghost use Rattle.fe2o3_sasl_core.specs.private.Writing.{IsRequest, Writes, WritesBody};

use crate::OutOfMemory;
use crate::events::{ClientReply, Event, ServerReply};
use crate::sasl_acceptor::{SaslAcceptor, SaslServerFrame};
use crate::sasl_profile::{ProfileError, SaslProfile, outcome_of};
use bytes::BytesMut;
use fe2o3_sasl_wire::{
    Error, Frame, FrameCodec, FrameView, SaslCode, SaslOutcome, SymbolsView, view_frame,
};
use fe2o3_scram::hmac::Meter;
use std::alloc::Global;

/// Returns the canonical body of a frame.
fn body_of(alloc: Global, frame: Frame) -> Result<Vec<u8>, Error>
    ensures ok { IfOk result (λ body. canonical (owned_frame frame) ≡ Some body.items) }
    ensures err { IfErr result (λ fault. RefusesFrame (owned_frame frame) fault) }
{
    let mut body = BytesMut::new(alloc);
    (FrameCodec {}).encode(frame, &mut body)?;
    Ok(body.into_vec()?)
}

/// Writes an acceptor's frame as a reply.
pub(crate) fn write_reply(alloc: Global, frame: SaslServerFrame) -> Result<ServerReply, Error>
    ensures { Writes server_reply (server_says (sent_frame frame)) (canonical (sent_frame frame)) result }
{
    match frame {
        SaslServerFrame::Challenge(challenge) => Ok(ServerReply::Challenge {
            body: body_of(alloc, Frame::Challenge(challenge))?,
        }),
        SaslServerFrame::Outcome(outcome) => Ok(ServerReply::Outcome {
            code: outcome.code,
            body: body_of(alloc, Frame::Outcome(outcome))?,
        }),
        SaslServerFrame::Rejected(_) => {
            let outcome = SaslOutcome {
                code: SaslCode::Auth,
                additional_data: None,
            };
            Ok(ServerReply::Outcome {
                code: SaslCode::Auth,
                body: body_of(alloc, Frame::Outcome(outcome))?,
            })
        }
    }
}

/// Returns whether the frame is an init or a response.
fn is_request(view: &FrameView<'_>) -> bool
    ensures { result ≡ true ↔ IsRequest (viewed_frame view.now) }
{
    match view {
        FrameView::Init { .. } | FrameView::Response(_) => true,
        FrameView::Mechanisms(_) | FrameView::Challenge(_) | FrameView::Outcome { .. } => false,
    }
}

/// Answers a body by an acceptor. Bytes after the frame are ignored.
///
/// Errors: that of a body that is not read; `NotImplemented` for a frame that is neither an init nor a response;
/// `OutOfMemory`, only for an init or a response; and `TooLarge` if the reply has no body. An error leaves the acceptor
/// unchanged.
pub fn acceptor_step<A: SaslAcceptor>(
    alloc: Global,
    acceptor: &mut A,
    event: &Event,
) -> Result<ServerReply, Error>
    ensures { AcceptorSteps A.machine (A.state acceptor.old) (given event.now) (server_answer result)
        (A.state acceptor.new) }
{
    acceptor_body_step(
        alloc,
        acceptor,
        &event.body,
        &event.nonce,
        &mut Meter::new(),
    )
}

/// Like [`acceptor_step`], with a body and a nonce instead of an event. The meter, of at most 2^63, counts the HMAC
/// values, also of an error: no more than the acceptor's bound for the frame, and none for a body that is not read.
/// SCRAM makes two for a response that it accepts, one if only the proof is rejected, and none otherwise.
pub fn acceptor_body_step<A: SaslAcceptor>(
    alloc: Global,
    acceptor: &mut A,
    body: &[u8],
    nonce: &[u8; 32],
    meter: &mut Meter,
) -> Result<ServerReply, Error>
    requires { meter.old ≤ 2 ^ 63 }
    ensures step { AcceptorSteps A.machine (A.state acceptor.old) (record { body = body.now; nonce = nonce.now })
        (server_answer result) (A.state acceptor.new) }
    ensures cost { AcceptorStepCosts A.hmacs (A.state acceptor.old) (record { body = body.now; nonce = nonce.now })
        meter.old meter.new }
{
    match view_frame(body) {
        Ok((view, _)) => acceptor_frame_step(alloc, acceptor, view, nonce, meter),
        Err(fault) => Err(fault),
    }
}

/// Like [`acceptor_body_step`], with a frame that `view_frame` has read from a body.
pub fn acceptor_frame_step<A: SaslAcceptor>(
    alloc: Global,
    acceptor: &mut A,
    view: FrameView<'_>,
    nonce: &[u8; 32],
    meter: &mut Meter,
) -> Result<ServerReply, Error>
    requires { meter.old ≤ 2 ^ 63 }
    ensures step { (body : List ℕ) → SpellsBody body (Ok (viewed_frame view.entry)) → AcceptorSteps A.machine
        (A.state acceptor.old) (record { body = body; nonce = nonce.now }) (server_answer result) (A.state acceptor.new) }
    ensures cost { CostsAtMost A.hmacs (A.state acceptor.old) (viewed_frame view.entry) meter.old meter.new }
{
    if !is_request(&view) {
        return Err(Error::NotImplemented);
    }
    match view.to_frame(alloc) {
        Ok(frame) => answer(alloc, acceptor, frame, nonce, meter),
        Err(fault) => Err(fault),
    }
}

/// Answers an init or a response. The answer is written before the acceptor has the next state.
fn answer<A: SaslAcceptor>(
    alloc: Global,
    acceptor: &mut A,
    frame: Frame,
    nonce: &[u8; 32],
    meter: &mut Meter,
) -> Result<ServerReply, Error>
    requires request { IsRequest (owned_frame frame) }
    requires meter { meter.old ≤ 2 ^ 63 }
    ensures answer { AcceptorAnswers A.machine (A.state acceptor.old) nonce.now (owned_frame frame)
        (server_answer result) (A.state acceptor.new) }
    ensures cost { CostsAtMost A.hmacs (A.state acceptor.old) (owned_frame frame) meter.old meter.new }
{
    let mut next = acceptor.clone()?;
    let reply = ask(alloc, &mut next, frame, nonce, meter)?;
    match write_reply(alloc, reply) {
        Ok(says) => {
            *acceptor = next;
            Ok(says)
        }
        Err(fault) => Err(fault),
    }
}

/// Returns the acceptor's reply.
fn ask<A: SaslAcceptor>(
    alloc: Global,
    acceptor: &mut A,
    frame: Frame,
    nonce: &[u8; 32],
    meter: &mut Meter,
) -> Result<SaslServerFrame, OutOfMemory>
    requires request { IsRequest (owned_frame frame) }
    requires meter { meter.old ≤ 2 ^ 63 }
    ensures ok { IfOk result (λ reply. A.machine (A.state acceptor.old) nonce.now (owned_frame frame)
        (sent_frame reply) (A.state acceptor.new)) }
    ensures err { OnErr result (A.state acceptor.new ≡ A.state acceptor.old) }
    ensures cost { CostsAtMost A.hmacs (A.state acceptor.old) (owned_frame frame) meter.old meter.new }
{
    match frame {
        Frame::Init(init) => acceptor.on_init_metered(alloc, init, nonce, meter),
        Frame::Response(response) => acceptor.on_response_metered(alloc, response, meter),
        Frame::Mechanisms(_) | Frame::Challenge(_) | Frame::Outcome(_) => unreachable!(),
    }
}

/// Answers a body by a profile, with the hostname that its init carries. Bytes after the frame are ignored.
///
/// Errors: `Frame` with the error of a body that is not read; `NotImplemented` for a list of mechanisms without the
/// profile's name, for a challenge to a profile other than SCRAM, and for an init or a response; `Scram` with SCRAM's
/// error; `StaleKeys`; `OutOfMemory`; and `Frame` with `TooLarge` if the answer has no body. An error leaves the
/// profile unchanged. A body that is not read, or not implemented, allocates nothing.
pub fn profile_step(
    alloc: Global,
    profile: &mut SaslProfile,
    event: &Event,
    hostname: Option<&str>,
) -> Result<ClientReply, ProfileError>
    ensures { ProfileSteps (shown hostname.entry) (profile_of profile.old) (given event.now) (client_answer result)
        (profile_of profile.new) }
{
    let mut meter = Meter::new();
    profile_body_step(
        alloc,
        profile,
        &event.body,
        &event.nonce,
        hostname,
        &mut meter,
    )
}

/// Like [`profile_step`], with a body and a nonce instead of an event. The meter, of at most 2^63, counts the HMAC
/// values. SCRAM's answer to a server-first message makes two by keys, by the password four more than the iterations,
/// and at most that many if it is not sent. A rejected challenge, a signature in a challenge, and any other body, make
/// none.
pub fn profile_body_step(
    alloc: Global,
    profile: &mut SaslProfile,
    body: &[u8],
    nonce: &[u8; 32],
    hostname: Option<&str>,
    meter: &mut Meter,
) -> Result<ClientReply, ProfileError>
    requires { meter.old ≤ 2 ^ 63 }
    ensures step { ProfileSteps (shown hostname.entry) (profile_of profile.old)
        (record { body = body.now; nonce = nonce.now }) (client_answer result) (profile_of profile.new) }
    ensures cost { ProfileStepCosts (profile_of profile.old) (record { body = body.now; nonce = nonce.now }) result
        meter.old meter.new }
{
    let (view, _) = match view_frame(body) {
        Ok(read) => read,
        Err(fault) => return Err(ProfileError::Frame(fault)),
    };
    profile_frame_step(alloc, profile, view, nonce, hostname, meter)
}

/// Like [`profile_body_step`], with a frame that `view_frame` has read from a body.
pub fn profile_frame_step(
    alloc: Global,
    profile: &mut SaslProfile,
    view: FrameView<'_>,
    nonce: &[u8; 32],
    hostname: Option<&str>,
    meter: &mut Meter,
) -> Result<ClientReply, ProfileError>
    requires { meter.old ≤ 2 ^ 63 }
    ensures answer { ProfileReplies (shown hostname.entry) (profile_of profile.old) nonce.now (viewed_frame view.entry)
        (client_answer result) (profile_of profile.new) }
    ensures cost { ProfileCosts (viewed_frame view.entry) (profile_of profile.old) result meter.old meter.new }
{
    match view {
        FrameView::Mechanisms(names) => start(alloc, profile, &names, hostname, nonce),
        FrameView::Challenge(challenge) => {
            if let Some(fault) = profile.refusal_unread(challenge) {
                return Err(fault);
            }
            respond(alloc, profile, challenge, meter)
        }
        FrameView::Outcome {
            code,
            additional_data,
        } => report(alloc, profile, code, additional_data),
        FrameView::Init { .. } => Err(ProfileError::NotImplemented),
        FrameView::Response(_) => Err(ProfileError::NotImplemented),
    }
}

/// Returns the init of the profile that answers an offer. The init is written before the profile is started.
fn start(
    alloc: Global,
    profile: &mut SaslProfile,
    names: &SymbolsView<'_>,
    hostname: Option<&str>,
    nonce: &[u8; 32],
) -> Result<ClientReply, ProfileError>
    ensures { ProfileReplies (shown hostname.entry) (profile_of profile.old) nonce.now (MechanismsFrame names.now)
        (client_answer result) (profile_of profile.new) }
{
    let Some(mut next) = profile.for_offer(alloc, names)? else {
        return Err(ProfileError::NotImplemented);
    };
    let init = next.start(alloc, hostname, nonce)?;
    match client_body_of(alloc, Frame::Init(init)) {
        Ok(body) => {
            *profile = next;
            Ok(ClientReply::Init { body })
        }
        Err(fault) => Err(fault),
    }
}

/// Returns the response of a profile. The response is written before the profile waits for the outcome.
fn respond(
    alloc: Global,
    profile: &mut SaslProfile,
    challenge: &[u8],
    meter: &mut Meter,
) -> Result<ClientReply, ProfileError>
    requires due { StepAllocates (profile_of profile.old) (ChallengeFrame challenge.now) }
    requires meter { meter.old ≤ 2 ^ 63 }
    ensures answer { (hostname : Option (List ℕ)) (nonce : List ℕ) → ProfileReplies hostname (profile_of profile.old)
        nonce (ChallengeFrame challenge.now) (client_answer result) (profile_of profile.new) }
    ensures cost { ProfileCosts (ChallengeFrame challenge.now) (profile_of profile.old) result meter.old meter.new }
{
    let mut next = profile.clone()?;
    match next.respond(alloc, challenge, meter) {
        Ok(response) => match client_body_of(alloc, Frame::Response(response)) {
            Ok(body) => {
                *profile = next;
                Ok(ClientReply::Response { body })
            }
            Err(fault) => Err(fault),
        },
        Err(fault) => Err(fault),
    }
}

/// Returns the outcome, if the profile reports it. Its data is copied before the profile ends its exchange.
fn report(
    alloc: Global,
    profile: &mut SaslProfile,
    code: SaslCode,
    additional_data: Option<&[u8]>,
) -> Result<ClientReply, ProfileError>
    ensures { (hostname : Option (List ℕ)) (nonce : List ℕ) → ProfileReplies hostname (profile_of profile.old) nonce
        (OutcomeFrame code (shown additional_data.entry)) (client_answer result) (profile_of profile.new) }
{
    if let Some(fault) = profile.outcome_refusal_unread(code, additional_data) {
        return Err(fault);
    }
    match outcome_of(alloc, code, additional_data) {
        Ok(outcome) => match profile.conclude(alloc, &outcome) {
            Ok(()) => Ok(ClientReply::Outcome(outcome)),
            Err(fault) => Err(fault),
        },
        Err(_) => Err(ProfileError::OutOfMemory),
    }
}

/// Returns the canonical body of a client's frame.
fn client_body_of(alloc: Global, frame: Frame) -> Result<Vec<u8>, ProfileError>
    ensures { WritesBody (λ body. body.items) (canonical (owned_frame frame)) result }
{
    match body_of(alloc, frame) {
        Ok(body) => Ok(body),
        Err(Error::OutOfMemory) => Err(ProfileError::OutOfMemory),
        Err(fault) => Err(ProfileError::Frame(fault)),
    }
}
