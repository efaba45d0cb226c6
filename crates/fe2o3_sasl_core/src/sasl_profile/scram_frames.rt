//! What a SCRAM client answers to frames (RFC 5802, section 5).

ghost use Rattle.std.specs.Prelude.{◌≡◌, ◌≤◌, ◌^◌, true, Some, Option, ℕ, List, IfOk, OnOk, OnErr, MatchOption};
ghost use Rattle.fe2o3_sasl_core.specs.declared.sasl_profile.error.ProfileError.TheVariants.{Scram};
ghost use Rattle.fe2o3_sasl_wire.specs.AmqpTypes.{binary_bytes, response_frame, outcome_frame};
ghost use Rattle.fe2o3_sasl_wire.specs.FrameView.{shown};
ghost use Rattle.fe2o3_sasl_wire.specs.SaslFrames.{Challenge, Outcome};
ghost use Rattle.std.specs.Str.{IsUtf8};
ghost use Rattle.fe2o3_scram.specs.ScramClient.{expects_signature};
ghost use Rattle.fe2o3_sasl_core.specs.Costs.{ProfileCosts};
ghost use Rattle.fe2o3_sasl_core.specs.Profiles.{ScramProfile, initial_response, after_init};
ghost use Rattle.fe2o3_sasl_core.specs.ProfileMachine.{FrameAllocates, StepAllocates, ProfileAnswers};
ghost use Rattle.fe2o3_sasl_core.specs.ProfileFaults.{answered};
ghost use Rattle.fe2o3_sasl_core.specs.private.Writing.{AnswersAlways, RefusesAlways};

use crate::OutOfMemory;
use crate::sasl_profile::error::ProfileError;
use fe2o3_sasl_wire::{Binary, SaslCode, SaslOutcome, SaslResponse};
use fe2o3_scram::hmac::Meter;
use fe2o3_scram::scram_client::ScramClient;
use fe2o3_scram::scram_messages::ScramErrorKind;
use std::alloc::Global;

/// Restarts the exchange with the client-first message. The client has not started before it is copied.
pub(super) fn first_message(
    client: &mut ScramClient,
    alloc: Global,
    nonce: &[u8; 32],
) -> Result<Binary, OutOfMemory>
    ensures ok { IfOk result (λ message.
        Some (binary_bytes message) ≡ initial_response (ScramProfile client.old) nonce.now) }
    ensures started { OnOk result (ScramProfile client.new ≡ after_init (ScramProfile client.old) nonce.now) }
    ensures version { client.new.version ≡ client.old.version }
    ensures err { OnErr result (client.new ≡ client.old) }
{
    let mut next = client.clone()?;
    let text = next.compute_client_first_message(alloc, nonce)?;
    let message = text.to_vec(alloc)?;
    *client = next;
    Ok(Binary(message))
}

/// Returns why a challenge is rejected before a part of it is read: it is not UTF-8, or it is not expected.
pub(super) fn refusal_unread(client: &ScramClient, challenge: &[u8]) -> Option<ProfileError>
    ensures { MatchOption result (StepAllocates (ScramProfile client.now) (Challenge challenge.now))
        (λ fault. RefusesAlways (ScramProfile client.now) (Challenge challenge.now) fault) }
{
    let Ok(_text) = str::from_utf8(challenge) else {
        return Some(ProfileError::Scram(ScramErrorKind::Utf8Error));
    };
    if client.expects_signature() {
        return None;
    }
    match client.nonce() {
        Some(_) => None,
        None => Some(ProfileError::Scram(ScramErrorKind::IllegalClientState)),
    }
}

/// Returns why an outcome is rejected before its data are read: SCRAM reads the data of code Ok, and they are not
/// expected, or not UTF-8.
pub(super) fn outcome_refusal_unread(
    client: &ScramClient,
    code: SaslCode,
    additional_data: Option<&[u8]>,
) -> Option<ScramErrorKind>
    ensures { MatchOption result ((text : List ℕ) → shown additional_data.entry ≡ Some text
        → StepAllocates (ScramProfile client.now) (Outcome code (Some text)))
        (λ kind. RefusesAlways (ScramProfile client.now) (Outcome code (shown additional_data.entry)) (Scram kind)) }
{
    let Some(data) = additional_data else {
        return None;
    };
    if code != SaslCode::Ok {
        return None;
    }
    match client.server_signature() {
        None => Some(ScramErrorKind::IllegalClientState),
        Some(_) => match str::from_utf8(data) {
            Ok(_) => None,
            Err(_) => Some(ScramErrorKind::Utf8Error),
        },
    }
}

/// Returns the answer to a challenge, which is tested for UTF-8 before the client's state and its own tests: the
/// client-final message, or the empty response to a signature that the client expects there.
pub(super) fn answer(
    client: &mut ScramClient,
    alloc: Global,
    challenge: &[u8],
    meter: &mut Meter,
) -> Result<SaslResponse, ProfileError>
    requires { meter.old ≤ 2 ^ 63 }
    ensures answer { AnswersAlways (ScramProfile client.old) (Challenge challenge.now)
        (answered response_frame result) (ScramProfile client.new) }
    ensures version { client.new.version ≡ client.old.version }
    ensures err { OnErr result (client.new ≡ client.old) }
    ensures cost { ProfileCosts (Challenge challenge.now) (ScramProfile client.old) result meter.old meter.new }
{
    let Ok(server_first) = str::from_utf8(challenge) else {
        return Err(ProfileError::Scram(ScramErrorKind::Utf8Error));
    };
    if client.expects_signature() {
        return confirm(client, alloc, challenge);
    }
    match client.compute_client_final_message_metered(alloc, server_first, meter) {
        Ok(client_final) => Ok(SaslResponse {
            response: Binary(client_final),
        }),
        Err(kind) => Err(ProfileError::from(kind)),
    }
}

/// Verifies the signature that came in a challenge, and returns the empty response to it (RFC 4422, section 5).
fn confirm(
    client: &mut ScramClient,
    alloc: Global,
    challenge: &[u8],
) -> Result<SaslResponse, ProfileError>
    requires expects { expects_signature client.old ≡ true }
    requires utf8 { IsUtf8 challenge.now }
    ensures answer { AnswersAlways (ScramProfile client.old) (Challenge challenge.now)
        (answered response_frame result) (ScramProfile client.new) }
    ensures version { client.new.version ≡ client.old.version }
    ensures err { OnErr result (client.new ≡ client.old) }
{
    match client.validate_signature_challenge(alloc, challenge) {
        Ok(()) => Ok(SaslResponse {
            response: Binary(Vec::new(alloc)),
        }),
        Err(kind) => Err(ProfileError::from(kind)),
    }
}

/// Verifies an outcome. The data of one of code Ok is the server-final message; without data the signature must have come
/// in a challenge. Other codes are not tested.
pub(super) fn verify(
    client: &mut ScramClient,
    alloc: Global,
    outcome: &SaslOutcome,
) -> Result<(), ProfileError>
    ensures answer { (hostname : Option (List ℕ)) (nonce : List ℕ) → ProfileAnswers FrameAllocates
        (ScramProfile client.old) hostname nonce (outcome_frame outcome.now) (answered (λ _. outcome_frame outcome.now) result)
        (ScramProfile client.new) }
    ensures version { client.new.version ≡ client.old.version }
    ensures err { OnErr result (client.new ≡ client.old) }
{
    if outcome.code != SaslCode::Ok {
        return Ok(());
    }
    match &outcome.additional_data {
        Some(server_final) => Ok(client.validate_server_final(alloc, &server_final.0)?),
        None => Ok(client.conclude_without_data()?),
    }
}
