//! The verdict on two receipts that meet.

ghost use Rattle.std.specs.Prelude.{◌≡◌, IfOk, option_map};
ghost use Rattle.fe2o3_sasl.specs.Audit.{verdict_of, parameters_of, finding_kind};
ghost use Rattle.fe2o3_sasl.specs.private.Findings.{client_receipt, server_receipt, agreed_on, verifier_verdict, proof_verdict, verdict_on};

use crate::OutOfMemory;
use crate::audit::receipts::{ClientReceipt, ServerReceipt};
use crate::audit::{FindingKind, Parameters, Verdict};
use std::alloc::Global;

/// Returns the verdict on two receipts that meet in what a finding of this kind compares. The only error is
/// `OutOfMemory`.
pub(super) fn judge(
    alloc: Global,
    kind: FindingKind,
    client: &ClientReceipt,
    server: &ServerReceipt,
) -> Result<Verdict, OutOfMemory>
    ensures { IfOk result (λ verdict. verdict_of verdict ≡ verdict_on (finding_kind kind) (client_receipt client.now)
        (server_receipt server.now)) }
{
    match kind {
        FindingKind::Verifier => judge_verifier(alloc, client, server),
        FindingKind::Proof => judge_proof(alloc, client, server),
    }
}

/// Copies the parameters.
fn copy(alloc: Global, parameters: &Parameters) -> Result<Parameters, OutOfMemory>
    ensures { IfOk result (λ copy. parameters_of copy ≡ parameters_of parameters.now) }
{
    Ok(Parameters {
        full_nonce: parameters.full_nonce.clone()?,
        salt: parameters.salt.clone()?,
        iterations: parameters.iterations,
    })
}

/// Returns the values that both sides agree on, as the server has them.
fn agreed(alloc: Global, server: &ServerReceipt) -> Result<Verdict, OutOfMemory>
    ensures { IfOk result (λ verdict. verdict_of verdict ≡ agreed_on (server_receipt server.now)) }
{
    let parameters = match &server.parameters {
        Some(parameters) => Some(copy(alloc, parameters)?),
        None => None,
    };
    Ok(Verdict::Agreed {
        username: server.username.clone()?,
        client_nonce: server.client_nonce.clone()?,
        parameters,
    })
}

/// Returns the verdict on a verifier that the client took.
fn judge_verifier(
    alloc: Global,
    client: &ClientReceipt,
    server: &ServerReceipt,
) -> Result<Verdict, OutOfMemory>
    ensures { IfOk result (λ verdict. verdict_of verdict ≡ verifier_verdict (client_receipt client.now)
        (server_receipt server.now)) }
{
    if client.message == server.message {
        agreed(alloc, server)
    } else {
        Ok(Verdict::SameMac {
            client_key: client.keys.server_key().to_vec(alloc)?,
            client_text: client.message.clone()?,
            server_key: server.server_key.clone()?,
            server_text: server.message.clone()?,
        })
    }
}

/// Returns the verdict on a proof that the client showed.
fn judge_proof(
    alloc: Global,
    client: &ClientReceipt,
    server: &ServerReceipt,
) -> Result<Verdict, OutOfMemory>
    ensures { IfOk result (λ verdict. verdict_of verdict ≡ proof_verdict (client_receipt client.now)
        (server_receipt server.now)) }
{
    if client.stored_key.as_slice() != server.stored_key.as_slice() {
        return Ok(Verdict::OtherKey);
    }
    if client.message == server.message {
        return agreed(alloc, server);
    }
    let client_key = client.keys.client_key();
    if client_key == server.recovered_key.as_slice() {
        Ok(Verdict::SameMac {
            client_key: server.stored_key.clone()?,
            client_text: client.message.clone()?,
            server_key: server.stored_key.clone()?,
            server_text: server.message.clone()?,
        })
    } else {
        Ok(Verdict::SameHash {
            client_key: client_key.to_vec(alloc)?,
            recovered_key: server.recovered_key.clone()?,
        })
    }
}
