//! The user name that the bytes of a connection claim before a server takes them.

ghost use Rattle.std.specs.Prelude.{◌≡◌, ◌≢◌, ℕ, List, Some, string_bytes, IfOk, IfErr, OnErr, MatchOption};
ghost use Rattle.sasl_c.specs.SaslServer.{AnswerNeedsMemory, AnswerNames, BodyAsks, BodyNames, BodyNamesNoUser, FrameAsks, FrameNames, Named, NotNamed, ResponseAsks};
ghost use Rattle.fe2o3_sasl_wire.specs.FrameView.{shown, viewed_frame};
ghost use Rattle.fe2o3_sasl_core.specs.LoginAttempts.{ClaimIn};
ghost use Rattle.fe2o3_scram.specs.ServerFirst.{ServerChallenge};
ghost use Rattle.sasl_c.specs.Peeks.{AwaitsFrame};
ghost use Rattle.sasl_c.specs.Server.{IsOpen};
ghost use Rattle.sasl_c.specs.Status.{AsksWhere};
ghost use Rattle.sasl_c.specs.declared.status.Status.TheVariants.{OutOfMemory as StatusOutOfMemory};

use crate::sasl_server::SaslServer;
use crate::server::ScramServer;
use crate::status::Status;
use fe2o3_sasl_core::claimed_user;
use fe2o3_sasl_negotiation::{Expected, FrameKind, RestoreError};
use fe2o3_sasl_wire::{FrameView, view_frame};
use std::alloc::Global;

/// Returns the user name that the initial response of an init claims, if it has one that does.
#[tactic(auto, using(crate::proofs::ServerUserLemmas::response_user))]
fn response_user(
    alloc: Global,
    mechanism: &str,
    response: Option<&[u8]>,
) -> Result<Option<String>, Status>
    ensures ok { IfOk result (λ user. MatchOption user
        ((name : List ℕ) → ¬ ClaimIn mechanism.now (shown response.entry) (Some name))
        (λ user. ClaimIn mechanism.now (shown response.entry) (Some (string_bytes user)))) }
    ensures err { IfErr result (λ status. status ≡ StatusOutOfMemory) }
    ensures memory { OnErr result (ResponseAsks mechanism.now (shown response.entry)) }
{
    match response {
        Some(text) => match claimed_user(alloc, mechanism, text) {
            Ok(Some(name)) => Ok(Some(name)),
            Ok(None) => Ok(None),
            Err(_) => Err(Status::OutOfMemory),
        },
        None => Ok(None),
    }
}

/// Returns the user name of the open challenge, or `None` if none is open. `OutOfMemory` is the only error.
fn open_user(alloc: Global, scram: &ScramServer) -> Result<Option<String>, Status>
    ensures ok { IfOk result (λ user. MatchOption user ((challenge : ServerChallenge) → ¬ IsOpen scram.now challenge)
        (λ user. (challenge : ServerChallenge) × IsOpen scram.now challenge × (string_bytes user ≡ challenge.user))) }
    ensures err { IfErr result (λ status. status ≡ StatusOutOfMemory) }
    ensures memory { OnErr result ((challenge : ServerChallenge) × IsOpen scram.now challenge) }
{
    match scram.challenge() {
        Some(challenge) => Ok(Some(challenge.username.to_string(alloc)?)),
        None => Ok(None),
    }
}

/// Returns the user name that a response claims: that of the initial response that it is, or of the open challenge; or
/// `None` if it claims none. `OutOfMemory` is the only error.
#[tactic(auto, using(crate::proofs::ServerUserLemmas::answer_user))]
fn answer_user(alloc: Global, scram: &ScramServer, text: &[u8]) -> Result<Option<String>, Status>
    ensures ok { IfOk result (λ user. MatchOption user
        ((name : List ℕ) → ¬ AnswerNames scram.now text.now name)
        (λ user. AnswerNames scram.now text.now (string_bytes user))) }
    ensures err { IfErr result (λ status. status ≡ StatusOutOfMemory) }
    ensures memory { OnErr result (AnswerNeedsMemory scram.now text.now) }
{
    let Some((mechanism, _)) = scram.asked_init() else {
        return match open_user(alloc, scram) {
            Ok(Some(name)) => Ok(Some(name)),
            Ok(None) => Ok(None),
            Err(status) => Err(status),
        };
    };
    match claimed_user(alloc, mechanism.name(), text) {
        Ok(Some(name)) => Ok(Some(name)),
        Ok(None) => Ok(None),
        Err(_) => Err(Status::OutOfMemory),
    }
}

/// Returns the user name that the expected frame claims, or `None` if it claims none. `OutOfMemory` is the only error.
fn frame_user(
    alloc: Global,
    scram: &ScramServer,
    turn: FrameKind,
    frame: &FrameView<'_>,
) -> Result<Option<String>, Status>
    ensures ok { IfOk result (λ user. MatchOption user
        ((name : List ℕ) → ¬ FrameNames scram.now turn (viewed_frame frame.now) name)
        (λ user. FrameNames scram.now turn (viewed_frame frame.now) (string_bytes user))) }
    ensures err { IfErr result (λ status. status ≡ StatusOutOfMemory) }
    ensures memory { OnErr result (FrameAsks scram.now turn (viewed_frame frame.now)) }
{
    match (turn, frame) {
        (
            FrameKind::Init,
            FrameView::Init {
                mechanism,
                initial_response,
                ..
            },
        ) => response_user(alloc, mechanism, *initial_response),
        (FrameKind::Response, FrameView::Response(text)) => answer_user(alloc, scram, *text),
        _ => Ok(None),
    }
}

/// Returns the user name that an expected frame body claims, or `None` if it claims none. `OutOfMemory` is the only
/// error.
#[tactic(auto, using(crate::proofs::ServerUserLemmas::body_user))]
fn body_user(
    alloc: Global,
    scram: &ScramServer,
    turn: FrameKind,
    body: &[u8],
) -> Result<Option<String>, Status>
    ensures ok { IfOk result (λ user. MatchOption user (BodyNamesNoUser scram.now turn body.now)
        (λ user. BodyNames scram.now turn body.now (string_bytes user))) }
    ensures err { IfErr result (λ status. status ≡ StatusOutOfMemory) }
    ensures memory { OnErr result (BodyAsks scram.now turn body.now) }
{
    match view_frame(body) {
        Ok((frame, _)) => frame_user(alloc, scram, turn, &frame),
        Err(_) => Ok(None),
    }
}

/// Returns the user name that the frame claims which these bytes complete: that of an init for SCRAM or PLAIN, for a response
/// that of the open challenge of SCRAM, and for the response to an empty challenge that of the initial response. Nobody is
/// authenticated yet. `NamesNoUser` is the error if the bytes complete no frame, or one that claims no user.
#[tactic(auto, using(crate::proofs::ServerUserLemmas::named))]
pub fn compute_claimed_user(
    alloc: Global,
    server: &SaslServer,
    bytes: &[u8],
) -> Result<String, Status>
    ensures ok { IfOk result (λ name. Named server.now bytes.now (string_bytes name)) }
    ensures err { IfErr result (λ status. status ≢ StatusOutOfMemory → NotNamed server.now bytes.now status) }
    ensures memory { AsksWhere (AwaitsFrame server.now.connection) result }
{
    let kept = server.connection.read()?;
    let body = match kept.peek_frame(alloc, bytes) {
        Ok(Some(body)) => body,
        Ok(None) => return Err(Status::NamesNoUser),
        Err(RestoreError::InvalidSnapshot) => return Err(Status::InvalidSnapshot),
        Err(RestoreError::OtherUser) => return Err(Status::InvalidSnapshot),
        Err(RestoreError::OutOfMemory) => return Err(Status::OutOfMemory),
    };
    let Expected::Frame(turn) = kept.expected else {
        return Err(Status::NamesNoUser);
    };
    match body_user(alloc, &server.scram, turn, &body) {
        Ok(Some(name)) => Ok(name),
        Ok(None) => Err(Status::NamesNoUser),
        Err(status) => Err(status),
    }
}
