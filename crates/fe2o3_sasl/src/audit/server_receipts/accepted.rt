//! The receipt of an Ok, from the open challenge and the response that was accepted.

ghost use Rattle.std.specs.Prelude.{◌≡◌, ◌↔◌, ◌++◌, ℕ, List, Ok, true, codes, IfOk, option_map, Bool};
ghost use Rattle.fe2o3_sasl_wire.specs.SaslFrames.{Response};
ghost use Rattle.fe2o3_scram.specs.ClientFinal.{ClientFinal as Final, HasProof, client_final_values};
ghost use Rattle.fe2o3_scram.specs.Keys.{auth_message as auth_message_of, recovered_client_key, server_signature};
ghost use Rattle.fe2o3_scram.specs.Texts.{base64_text};
ghost use Rattle.fe2o3_scram.specs.Credentials.{serving};
ghost use Rattle.fe2o3_scram.specs.declared.scram_messages.server_rules.ServerRules.{ServerRules as Rules};
ghost use Rattle.fe2o3_sasl_core.specs.Verdicts.{AreParameters};
ghost use Rattle.fe2o3_sasl.specs.Audit.{parameters_of};
ghost use Rattle.fe2o3_sasl_core.specs.Events.{IsRecord};
ghost use Rattle.fe2o3_sasl_core.specs.Bodies.{SpellsBody};
ghost use Rattle.fe2o3_sasl_core.specs.ServerHistory.{first_message};
ghost use Rattle.fe2o3_sasl_core.specs.TwoSides.{HasParts};
ghost use Rattle.fe2o3_sasl.specs.private.Findings.{server_receipt};
ghost use Rattle.fe2o3_sasl.specs.private.Receipts.{OfAccepted};
ghost use Rattle.fe2o3_sasl.specs.private.ServerReceipts.{HoldsMessage, OkFor, opened_challenge};

use crate::OutOfMemory;
use crate::audit::Parameters;
use crate::audit::receipts::ServerReceipt;
use crate::audit::server_receipts::challenges::Opened;
use base64::engine::general_purpose::STANDARD;
use fe2o3_sasl_wire::{FrameView, view_frame};
use fe2o3_scram::ServerRules;
use fe2o3_scram::credentials::ScramCredentialProvider;
use fe2o3_scram::hmac::{Meter, ScramVersion};
use fe2o3_scram::keys::auth_message;
use fe2o3_scram::scram_messages::{ClientFinal, ClientHeader};
use std::alloc::Global;

/// Returns the receipt of an Ok to the response in this body. The only error is `OutOfMemory`, also for a body that is
/// no response to this challenge.
pub(crate) fn ok_receipt<C: ScramCredentialProvider>(
    alloc: Global,
    rules: ServerRules,
    credentials: &C,
    place: usize,
    opened: &Opened<'_>,
    body: &[u8],
) -> Result<ServerReceipt, OutOfMemory>
    requires { HoldsMessage opened.now }
    ensures { IfOk result (λ receipt. OkFor (serving rules (C.meaning credentials.now)) place
        (opened_challenge opened.now) body.now (server_receipt receipt)) }
{
    let header = ClientHeader::new(
        rules.expected_channel(opened.client_first.header),
        opened.client_first.acts_for.as_deref(),
    );
    let client_final = response_again(
        alloc,
        &header,
        &opened.server_first.client_server_nonce,
        body,
    )?;
    receipt_of(alloc, credentials, place, opened, client_final)
}

/// Reads the response in this body again. The only error is `OutOfMemory`, also for a body that is no response with
/// this header and this nonce.
fn response_again<'a>(
    alloc: Global,
    header: &ClientHeader<'_>,
    client_server_nonce: &[u8],
    body: &'a [u8],
) -> Result<ClientFinal<'a>, OutOfMemory>
    ensures { IfOk result (λ final. (text : List ℕ) × SpellsBody body.now (Ok (Response text))
        × HasProof text (client_final_values final)) }
{
    let Ok((FrameView::Response(text), _)) = view_frame(body) else {
        return Err(OutOfMemory);
    };
    // The response has passed the tests of the server, of a strict one too: it is read here for its proof.
    let Ok(client_final) = ClientFinal::parse_with_header(
        alloc,
        header,
        false,
        client_server_nonce,
        text,
    ) else {
        return Err(OutOfMemory);
    };
    Ok(client_final)
}

/// Returns the receipt of an Ok to a response with these values.
fn receipt_of<C: ScramCredentialProvider>(
    alloc: Global,
    credentials: &C,
    place: usize,
    opened: &Opened<'_>,
    client_final: ClientFinal<'_>,
) -> Result<ServerReceipt, OutOfMemory>
    requires { HoldsMessage opened.now }
    ensures place { IfOk result (λ receipt. receipt.place ≡ place) }
    ensures accepted { IfOk result (λ receipt. (rules : Rules)
        → OfAccepted (serving rules (C.meaning credentials.now)) (record {
          challenge = opened_challenge opened.now;
          final = client_final_values client_final.entry;
        }) (server_receipt receipt)) }
{
    let version = *credentials.scram_version();
    let stored = &opened.stored_password;
    is_record(
        stored.salt,
        stored.iterations,
        stored.stored_key,
        stored.server_key,
    );
    let message = message(alloc, opened, client_final.without_proof)?;
    let recovered_key = recovered_key(
        alloc,
        version,
        stored.stored_key,
        &client_final.proof,
        &message,
    )?;
    Ok(ServerReceipt {
        place,
        verifier: verifier(alloc, version, stored.server_key, &message)?,
        proof: client_final.proof,
        message,
        username: opened.client_first.username.to_string(alloc)?,
        client_nonce: opened.client_first.client_nonce.to_string(alloc)?,
        parameters: parameters(alloc, opened)?,
        stored_key: stored.stored_key.to_vec(alloc)?,
        server_key: stored.server_key.to_vec(alloc)?,
        recovered_key,
    })
}

/// States that values of these types satisfy `IsRecord`. The function has no code: it is called for its clause.
fn is_record(salt: &[u8], iterations: u32, stored_key: &[u8], server_key: &[u8])
    ensures { IsRecord (record {
      salt = salt.now;
      count = iterations;
      stored_key = stored_key.now;
      server_key = server_key.now;
    }) }
{}

/// Concatenates the AuthMessage, as the server has it.
fn message(alloc: Global, opened: &Opened<'_>, without_proof: &str) -> Result<Vec<u8>, OutOfMemory>
    requires { HoldsMessage opened.now }
    ensures { IfOk result (λ text. text.items ≡ auth_message_of (opened_challenge opened.now).client.bare
        (first_message (opened_challenge opened.now)) without_proof.now) }
{
    auth_message(
        alloc,
        opened.client_first.client_first_message_bare.as_bytes(),
        &opened.server_first.message,
        without_proof.as_bytes(),
    )
}

/// Returns the server-final message.
fn verifier(
    alloc: Global,
    version: ScramVersion,
    server_key: &[u8],
    message: &[u8],
) -> Result<Vec<u8>, OutOfMemory>
    ensures { IfOk result (λ text. text.items
        ≡ codes "v=" ++ base64_text (server_signature version server_key.now message.now)) }
{
    let signature = version.compute_server_signature(server_key, message, &mut Meter::new());
    let mut text = String::from_str(alloc, "v=")?;
    STANDARD.encode_string(signature.as_slice(), &mut text)?;
    Ok(text.into_bytes())
}

/// Recovers the ClientKey from the proof. The only error is `OutOfMemory`, also for a proof that is not as long as a
/// digest.
fn recovered_key(
    alloc: Global,
    version: ScramVersion,
    stored_key: &[u8],
    proof: &[u8],
    message: &[u8],
) -> Result<Vec<u8>, OutOfMemory>
    ensures { IfOk result (λ key. key.items
        ≡ recovered_client_key version stored_key.now proof.now message.now) }
{
    match version.recovered_client_key(stored_key, proof, message, &mut Meter::new()) {
        Ok(key) => key.as_slice().to_vec(alloc),
        Err(_) => Err(OutOfMemory),
    }
}

/// Returns the parameters, if the client-first message has only the user name and the nonce.
fn parameters(alloc: Global, opened: &Opened<'_>) -> Result<Option<Parameters>, OutOfMemory>
    ensures { IfOk result (λ parameters. (final : Final) → AreParameters
        (record { challenge = opened_challenge opened.now; final = final }) (option_map parameters_of parameters)) }
{
    if !is_plain(opened.client_first.client_first_message_bare) {
        return Ok(None);
    }
    let mut full_nonce = opened.client_first.client_nonce.to_string(alloc)?;
    full_nonce.push_str(&opened.server_nonce)?;
    Ok(Some(Parameters {
        full_nonce,
        salt: opened.stored_password.salt.to_vec(alloc)?,
        iterations: opened.stored_password.iterations,
    }))
}

/// Returns whether a client-first message without its GS2 header has exactly two parts.
fn is_plain(bare: &str) -> bool
    ensures { result ≡ true ↔ HasParts bare.now 2 }
{
    bare.split(',').count() == 2
}
