//! The challenge to an init, recomputed.

ghost use Rattle.std.specs.Prelude.{ℕ, List, Option, Some, Ok, IfOk, MatchOption, ⊤};
ghost use Rattle.fe2o3_sasl_wire.specs.SaslFrames.{Init};
ghost use Rattle.fe2o3_scram.specs.Credentials.{serving};
ghost use Rattle.fe2o3_sasl_core.specs.Runs.{given};
ghost use Rattle.fe2o3_sasl_core.specs.Bodies.{SpellsBody};
ghost use Rattle.fe2o3_sasl.specs.private.ServerReceipts.{HoldsMessage, OpenedFor, opened_challenge};

use crate::OutOfMemory;
use base64::engine::general_purpose::STANDARD;
use fe2o3_sasl_core::events::Event;
use fe2o3_sasl_wire::{FrameView, view_frame};
use fe2o3_scram::ServerRules;
use fe2o3_scram::credentials::{ScramCredentialProvider, StoredPassword};
use fe2o3_scram::scram_messages::{ClientFirst, ServerFirstMessage};
use std::alloc::Global;

/// A recomputed challenge: what the client-first message names, the server's nonce, the server-first message, and the
/// stored password of the user.
#[derive(Drop)]
pub(crate) struct Opened<'a> {
    pub client_first: ClientFirst<'a>,
    pub server_nonce: String,
    pub server_first: ServerFirstMessage<'a>,
    pub stored_password: StoredPassword<'a>,
}

/// Recomputes the challenge to the init in this event. The only error is `OutOfMemory`, also for an event that is not
/// answered with a challenge.
pub(crate) fn opened_again<'a, C: ScramCredentialProvider>(
    alloc: Global,
    rules: ServerRules,
    credentials: &'a C,
    init: &'a Event,
) -> Result<Opened<'a>, OutOfMemory>
    ensures opened { IfOk result (λ opened.
        OpenedFor (serving rules (C.meaning credentials.now)) (given init.now) (opened_challenge opened)) }
    ensures message { IfOk result HoldsMessage }
{
    let Some(text) = initial_response(&init.body) else {
        return Err(OutOfMemory);
    };
    let server_nonce = STANDARD.encode(alloc, &init.nonce)?;
    let version = credentials.scram_version();
    let Ok(Some(server_first)) = version.compute_server_first_message_with_rules(
        alloc,
        text,
        &server_nonce,
        rules,
        credentials,
    ) else {
        return Err(OutOfMemory);
    };
    let Ok(client_first) = ClientFirst::parse_with_rules(alloc, text, rules) else {
        return Err(OutOfMemory);
    };
    let Some(stored_password) = credentials.get_stored_password(&client_first.username) else {
        return Err(OutOfMemory);
    };
    Ok(Opened {
        client_first,
        server_nonce,
        server_first,
        stored_password,
    })
}

/// Returns the client-first message in the body of an init, or `None` if there is none.
fn initial_response(body: &[u8]) -> Option<&[u8]>
    ensures { MatchOption result ⊤ (λ text. (mechanism : List ℕ) × (hostname : Option (List ℕ))
        × SpellsBody body.now (Ok (Init mechanism (Some text.now) hostname))) }
{
    match view_frame(body) {
        Ok(
            (
                FrameView::Init {
                    initial_response,
                    ..
                },
                _,
            ),
        ) => initial_response,
        _ => None,
    }
}
