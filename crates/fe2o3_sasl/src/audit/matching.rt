//! The findings of two lists of receipts. The server's are in an index by the compared bytes, so that the work grows
//! with the receipts and the findings, and not with the pairs.

ghost use Rattle.std.specs.Prelude.{◌≡◌, ◌++◌, ◌∷◌, [], ℕ, List, if◌then◌else◌, map, filter, IfOk, OnOk};
ghost use Rattle.fe2o3_sasl.specs.Audit.{finding_of, finding_kind};
ghost use Rattle.fe2o3_sasl.specs.private.Findings.{client_receipt, server_receipt, same, is_taken, is_shown, verifier_finding, proof_finding, findings_of, compared_by, finding_on, meets_on, row_at};

mod verdicts;

use crate::OutOfMemory;
use crate::audit::matching::verdicts::judge;
use crate::audit::receipts::{ClientReceipt, ServerReceipt};
use crate::audit::{Finding, FindingKind};
use std::alloc::Global;
use std::collections::BTreeMap;

/// The server's receipts by the bytes that a finding of some kind compares, each row in the list's order. The index is
/// a tree, since these bytes come from strangers, who could flood a hash table.
type Index<'a> = BTreeMap<&'a [u8], Vec<&'a ServerReceipt>>;

/// Returns the bytes of a server's receipt that a finding of this kind compares.
fn compared_bytes(kind: FindingKind, server: &ServerReceipt) -> &[u8]
    ensures { result.now ≡ compared_by (finding_kind kind) (server_receipt server.now) }
{
    match kind {
        FindingKind::Verifier => &server.verifier,
        FindingKind::Proof => &server.proof,
    }
}

/// Appends the receipt to those that the index has at these bytes. The only error is `OutOfMemory`.
fn put<'a>(
    index: &mut Index<'a>,
    bytes: &'a [u8],
    server: &'a ServerReceipt,
) -> Result<(), OutOfMemory>
    ensures { OnOk result ((other : List ℕ) → row_at index.new other
        ≡ (if same other bytes.now then row_at index.old other ++ server_receipt server.now ∷ []
        else row_at index.old other)) }
{
    index.entry(bytes)?.or_default().push(server)?;
    Ok(())
}

/// Returns the index of the receipts for findings of this kind. The only error is `OutOfMemory`.
fn index_of<'a>(
    alloc: Global,
    kind: FindingKind,
    oks: &'a [ServerReceipt],
) -> Result<Index<'a>, OutOfMemory>
    ensures { IfOk result (λ index. (bytes : List ℕ) → row_at index bytes
        ≡ filter (λ server. same bytes (compared_by (finding_kind kind) server)) (map server_receipt oks.now)) }
{
    let mut index = BTreeMap::new(alloc);
    for server in oks {
        put(&mut index, compared_bytes(kind, server), server)?;
    }
    Ok(index)
}

/// Adds the findings of a client's receipt, one for each receipt that the index has at its bytes. The only error is
/// `OutOfMemory`.
fn match_client<'a>(
    alloc: Global,
    kind: FindingKind,
    findings: &mut Vec<Finding>,
    client: &ClientReceipt,
    index: &Index<'a>,
) -> Result<(), OutOfMemory>
    ensures { OnOk result (map finding_of findings.new.items ≡ map finding_of findings.old.items
        ++ map (finding_on (finding_kind kind) (client_receipt client.now)) (row_at index.now client.now.shown.items)) }
{
    let Some(row) = index.get(client.shown.as_slice()) else {
        return Ok(());
    };
    for server in row {
        let verdict = judge(alloc, kind, client, *server)?;
        findings.push(Finding {
            kind,
            client: client.place,
            server: server.place,
            verdict,
        })?;
    }
    Ok(())
}

/// Adds the findings of this kind, by the client's position and then by the server's. The only error is `OutOfMemory`.
fn match_receipts(
    alloc: Global,
    kind: FindingKind,
    findings: &mut Vec<Finding>,
    clients: &[ClientReceipt],
    oks: &[ServerReceipt],
) -> Result<(), OutOfMemory>
    ensures { OnOk result (map finding_of findings.new.items ≡ map finding_of findings.old.items
        ++ findings_of (meets_on (finding_kind kind)) (finding_on (finding_kind kind)) (map client_receipt clients.now)
        (map server_receipt oks.now)) }
{
    let index = index_of(alloc, kind, oks)?;
    for client in clients {
        match_client(alloc, kind, findings, client, &index)?;
    }
    Ok(())
}

/// Adds the findings of the verifiers, by the client's position and then by the server's. The only error is
/// `OutOfMemory`.
pub(crate) fn match_verifiers(
    alloc: Global,
    findings: &mut Vec<Finding>,
    taken: &[ClientReceipt],
    oks: &[ServerReceipt],
) -> Result<(), OutOfMemory>
    ensures { OnOk result (map finding_of findings.new.items ≡ map finding_of findings.old.items ++ findings_of
        is_taken verifier_finding (map client_receipt taken.now) (map server_receipt oks.now)) }
{
    match_receipts(alloc, FindingKind::Verifier, findings, taken, oks)
}

/// Adds the findings of the proofs, by the client's position and then by the server's. The only error is `OutOfMemory`.
pub(crate) fn match_proofs(
    alloc: Global,
    findings: &mut Vec<Finding>,
    shown: &[ClientReceipt],
    oks: &[ServerReceipt],
) -> Result<(), OutOfMemory>
    ensures { OnOk result (map finding_of findings.new.items ≡ map finding_of findings.old.items ++ findings_of
        is_shown proof_finding (map client_receipt shown.now) (map server_receipt oks.now)) }
{
    match_receipts(alloc, FindingKind::Proof, findings, shown, oks)
}
