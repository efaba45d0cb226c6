//! Reads, before a call, whether it may use its nonce, and the frame that the next bytes complete.

ghost use Rattle.std.specs.Prelude.{◌≡◌, ◌≢◌, Ok, Err, IfOk, IfErr};
ghost use Rattle.sasl_c.specs.Connection.{IsSideOf};
ghost use Rattle.sasl_c.specs.Peeks.{AnySide, AwaitsFrame, IsNonceNumber, Peeks, uses_nonce};
ghost use Rattle.sasl_c.specs.SaslServer.{one_where};
ghost use Rattle.sasl_c.specs.Status.{AnswersText, AsksText, AsksWhere, Fills};
ghost use Rattle.sasl_c.specs.declared.status.Status.TheVariants.{OutOfMemory as StatusOutOfMemory};

use crate::arrays::write;
use crate::connection::Connection;
use crate::status::{Status, text_number};
use fe2o3_sasl_negotiation::RestoreError;
use std::alloc::Global;

/// Returns 1 if the next call of `fe2o3_sasl_client_receive` or `fe2o3_sasl_server_receive` may use its nonce: a client
/// that expects the list of mechanisms, or a server that expects an init. Otherwise returns 0. The call then gives the
/// same result with every nonce, which is tested and not proved, and you need no fresh random bytes.
#[unsafe(no_mangle)]
#[tactic(auto, using(crate::proofs::PeekLemmas::nonces))]
pub extern "C" fn fe2o3_sasl_wants_nonce(connection: &Connection) -> u32
    ensures side { (side : AnySide) → IsSideOf connection.now side → result ≡ one_where (uses_nonce side) 1 }
    ensures number { IsNonceNumber connection.now result }
{
    match (connection.progress, connection.expected) {
        (0, 1 | 2) => 1,
        _ => 0,
    }
}

/// Returns the body of the frame that these bytes complete, or no bytes if they complete none.
#[tactic(auto, using(crate::proofs::PeekLemmas::peeked))]
fn compute_peeked(alloc: Global, connection: &Connection, bytes: &[u8]) -> Result<Vec<u8>, Status>
    ensures ok { IfOk result (λ body. Peeks connection.now bytes.now (Ok body.items)) }
    ensures err { IfErr result (λ status. status ≢ StatusOutOfMemory → Peeks connection.now bytes.now (Err status)) }
    ensures memory { AsksWhere (AwaitsFrame connection.now) result }
{
    let kept = connection.read()?;
    match kept.peek_frame(alloc, bytes) {
        Ok(Some(body)) => Ok(body),
        Ok(None) => Ok(Vec::new(alloc)),
        Err(RestoreError::InvalidSnapshot) => Err(Status::InvalidSnapshot),
        Err(RestoreError::OtherUser) => Err(Status::InvalidSnapshot),
        Err(RestoreError::OutOfMemory) => Err(Status::OutOfMemory),
    }
}

/// Writes the body of the frame that `bytes` complete with the part that `connection` holds, without the four bytes of
/// the frame's size: at most 508 bytes. The body has no extended header if `connection` accepts these. `out_len` is 0 if
/// the bytes complete no frame. Nothing is taken: pass the same bytes to `fe2o3_sasl_client_receive` or
/// `fe2o3_sasl_server_receive` after that.
///
/// `expected` of the connection is the frame that has to come next. Parse the body with `fe2o3_sasl_view_frame`: a server
/// reads in it the mechanism and the hostname of an init, and a client the additional data of an outcome. Pass a list of
/// mechanisms to `fe2o3_sasl_offers`.
///
/// The errors are, in this order: FE2O3_ENDED; FE2O3_INVALID_SNAPSHOT for a struct that no call has written; and
/// FE2O3_ROOM_TOO_SMALL.
#[unsafe(no_mangle)]
#[tactic(auto, using(crate::proofs::StatusLemmas::written))]
pub extern "C" fn fe2o3_sasl_peek_frame(
    alloc: Global,
    connection: &Connection,
    bytes: &[u8],
    out: &mut [u8],
    out_len: &mut usize,
) -> u32
    ensures { AnswersText result (λ answer. Fills (Peeks connection.now bytes.now) (record { bytes = out.old; len = out_len.old })
        (record { bytes = out.new; len = out_len.new }) answer × AsksText (AwaitsFrame connection.now) answer) }
{
    text_number(write(compute_peeked(alloc, connection, bytes), out, out_len))
}
