//! The receipts of the outcomes Ok that a client reported.

ghost use Rattle.std.specs.Prelude.{ℕ, List, MatchOption, IfOk, OnOk, Ok, option_map, map};
ghost use Rattle.fe2o3_sasl_wire.specs.AmqpTypes.{binary_bytes};
ghost use Rattle.fe2o3_sasl_wire.specs.SaslFrames.{Challenge};
ghost use Rattle.fe2o3_scram.specs.Texts.{Part};
ghost use Rattle.fe2o3_sasl_core.specs.Bodies.{SpellsBody};
ghost use Rattle.fe2o3_sasl_core.specs.Runs.{given};
ghost use Rattle.fe2o3_sasl.specs.private.ClientReceipts.{OutcomeKeeps, LastChallenge, VerifierOf, TakenFor};
ghost use Rattle.fe2o3_sasl.specs.private.Findings.{client_receipt};

use crate::OutOfMemory;
use crate::audit::receipts::ClientReceipt;
use fe2o3_sasl_core::events::Event;
use fe2o3_sasl_wire::{Binary, FrameView, SaslCode, SaslOutcome, view_frame};
use std::alloc::Global;

/// Adds the receipt of an outcome Ok, which is of the last proof.
pub(crate) fn keep_outcome(
    alloc: Global,
    place: usize,
    outcome: &SaslOutcome,
    events: &[Event],
    response: Option<usize>,
    shown: &[ClientReceipt],
    taken: &mut Vec<ClientReceipt>,
) -> Result<(), OutOfMemory>
    ensures { OnOk result (OutcomeKeeps place (map given events.now) response outcome.now.code
        (option_map binary_bytes outcome.now.additional_data) (map client_receipt shown.now)
        (map client_receipt taken.old.items) (map client_receipt taken.new.items)) }
{
    let SaslCode::Ok = outcome.code else {
        return Ok(());
    };
    let text = verifier_text(&outcome.additional_data, events, response)?;
    let Some(answer) = shown.last() else {
        return Err(OutOfMemory);
    };
    let receipt = taken_receipt(alloc, place, text, answer)?;
    taken.push(receipt)?;
    Ok(())
}

/// Returns the text of the server-final message for an outcome: its data, or without data the challenge that the client
/// answered last.
fn verifier_text<'a>(
    more: &'a Option<Binary>,
    events: &'a [Event],
    response: Option<usize>,
) -> Result<&'a [u8], OutOfMemory>
    ensures { IfOk result (λ text. VerifierOf (map given events.now) response (option_map binary_bytes more.now)
        text.now) }
{
    match more {
        Some(text) => Ok(&text.0),
        None => last_challenge(events, response),
    }
}

/// Returns the text of the challenge that the last response answered.
fn last_challenge(events: &[Event], response: Option<usize>) -> Result<&[u8], OutOfMemory>
    ensures { IfOk result (λ text. LastChallenge (map given events.now) response text.now) }
{
    let Some(place) = response else {
        return Err(OutOfMemory);
    };
    let Some(event) = events.get(place) else {
        return Err(OutOfMemory);
    };
    challenge_text(&event.body)
}

/// Returns the text of the challenge in this body.
pub(crate) fn challenge_text(body: &[u8]) -> Result<&[u8], OutOfMemory>
    ensures { IfOk result (λ text. SpellsBody body.now (Ok (Challenge text.now))) }
{
    let Ok((FrameView::Challenge(text), _)) = view_frame(body) else {
        return Err(OutOfMemory);
    };
    Ok(text)
}

/// Returns the receipt of a reported Ok: that of the answer, with the first part of the server-final message.
fn taken_receipt(
    alloc: Global,
    place: usize,
    message: &[u8],
    answer: &ClientReceipt,
) -> Result<ClientReceipt, OutOfMemory>
    ensures { IfOk result (λ receipt. TakenFor place message.now (client_receipt answer.now) (client_receipt receipt)) }
{
    let Ok(text) = str::from_utf8(message) else {
        return Err(OutOfMemory);
    };
    let Some(verifier) = first_part(text) else {
        return Err(OutOfMemory);
    };
    Ok(ClientReceipt {
        place,
        shown: verifier.as_bytes().to_vec(alloc)?,
        message: answer.message.clone()?,
        keys: answer.keys.clone()?,
        stored_key: answer.stored_key,
    })
}

/// Returns the first part of the text.
fn first_part(text: &str) -> Option<&str>
    ensures { MatchOption result ((part : List ℕ) → ¬ Part text.now 0 part) (λ part. Part text.now 0 part.now) }
{
    text.split(',').nth(0)
}
