//! Reads headers and frames from any pieces, and writes them (AMQP 1.0, part 2, sections 2.2 and 2.3.1).

ghost use Rattle.std.specs.Prelude.{◌≡◌, ◌↔◌, ◌+◌, ◌-◌, ◌<◌, ◌≤◌, ◌++◌, ◌⊎◌, true, ℕ, [], length, take, drop, IfOk, OnOk, OnErr, MatchOption, vec_len, vec_capacity, max};
ghost use Rattle.fe2o3_sasl_wire.specs.FrameView.{viewed_frame};
ghost use Rattle.fe2o3_sasl_negotiation.specs.Framing.{sasl_header, is_sasl_header, size_of, Fits, IsPart};
ghost use Rattle.fe2o3_sasl_negotiation.specs.Negotiations.{IsInTurn, Sends, closes};
ghost use Rattle.fe2o3_sasl_negotiation.specs.private.Units.{TakesUnit, Appends, ReadsExpected};
ghost use Rattle.fe2o3_sasl_negotiation.specs.declared.progress.Expected.TheVariants.{Header, Frame};
ghost use Rattle.fe2o3_sasl_negotiation.specs.declared.progress.Progress.TheVariants.{Failed};
ghost use Rattle.fe2o3_sasl_negotiation.specs.declared.progress.CloseReason.TheVariants.{ProtocolHeaderMismatch};

use crate::progress::{CloseReason, Expected, FrameKind, Progress};
use bytes::BytesMut;
use fe2o3_sasl_core::OutOfMemory;
use fe2o3_sasl_wire::{FrameView, ProtocolHeader, view_frame};

/// The maximum size of a SASL frame (AMQP 1.0, part 5, section 5.3.1).
pub const MAX_FRAME: usize = 512;

/// How much of the header or frame that is expected has arrived.
#[derive(Clone, Copy)]
pub enum Arrived {
    /// Less than the whole.
    Part,

    /// A size that is not allowed.
    Refused,

    /// All of it.
    Whole,
}

/// The progress of a side after its answer to a header or a frame, and what it expects then.
#[derive(Clone, Copy)]
pub struct Step {
    /// The progress.
    pub progress: Progress,

    /// What it expects.
    pub expected: Expected,
}

impl Step {
    /// Fails for this reason.
    pub fn closed(why: CloseReason, expected: Expected) -> Step
        ensures { result ≡ record { progress = Failed why; expected = expected } }
    {
        Step {
            progress: Progress::Failed(why),
            expected,
        }
    }
}

/// Buffers bytes from the front until `n` are held.
fn keep(held: &mut Vec<u8>, bytes: &[u8], n: usize) -> Result<(), OutOfMemory>
    requires { vec_len held.old ≤ n }
    ensures ok { OnOk result (held.new.items ≡ take n (held.old.items ++ bytes.now)) }
    ensures err { OnErr result (held.new.items ≡ held.old.items) }
    ensures memory { OnErr result (vec_capacity held.old < n) }
    ensures capacity { vec_capacity held.old ≤ vec_capacity held.new }
{
    let missing = (n - held.len()).min(bytes.len());
    held.extend_from_slice(&bytes[..missing])
}

/// Returns the size that the bytes begin with, if all of it has arrived.
pub(crate) fn size(bytes: &[u8]) -> Option<usize>
    ensures { MatchOption result (length bytes.now < 4)
        (λ size. (4 ≤ length bytes.now) × (size ≡ size_of bytes.now)) }
{
    match bytes.first_chunk::<4>() {
        Some(size) => Some(u32::from_be_bytes(*size) as usize),
        None => None,
    }
}

/// Takes the missing bytes of a header.
fn take_header(held: &mut Vec<u8>, bytes: &[u8]) -> Result<Arrived, OutOfMemory>
    requires { length held.old.items < 8 }
    ensures ok { IfOk result (λ arrived. (limit : ℕ)
        → TakesUnit Header limit (held.old.items ++ bytes.now) arrived held.new.items) }
    ensures err { OnErr result (held.new.items ≡ held.old.items) }
    ensures memory { OnErr result (vec_capacity held.old < 8) }
    ensures capacity { vec_capacity held.old ≤ vec_capacity held.new }
{
    keep(held, bytes, 8)?;
    if held.len() < 8 {
        Ok(Arrived::Part)
    } else {
        Ok(Arrived::Whole)
    }
}

/// Takes the missing bytes of a frame's size, and returns how many that were.
fn take_size(held: &mut Vec<u8>, bytes: &[u8]) -> Result<usize, OutOfMemory>
    ensures within { IfOk result (λ taken. taken ≤ length bytes.now) }
    ensures len { IfOk result (λ taken. length held.new.items ≡ length held.old.items + taken) }
    ensures rest { IfOk result (λ taken. held.new.items ++ drop taken bytes.now ≡ held.old.items ++ bytes.now) }
    ensures four { OnOk result (length held.new.items < 4 → held.new.items ≡ held.old.items ++ bytes.now) }
    ensures no_more { OnOk result ((held.new.items ≡ held.old.items) ⊎ (length held.new.items ≤ 4)) }
    ensures err { OnErr result (held.new.items ≡ held.old.items) }
    ensures memory { OnErr result (vec_capacity held.old < 4) }
    ensures capacity { vec_capacity held.old ≤ vec_capacity held.new }
{
    let had = held.len();
    if had >= 4 {
        return Ok(0);
    }
    keep(held, bytes, 4)?;
    Ok(held.len() - had)
}

/// Takes the missing bytes of a frame: first of its size, and then, if the size is allowed, of its body.
fn take_frame(
    held: &mut Vec<u8>,
    turn: FrameKind,
    limit: usize,
    bytes: &[u8],
) -> Result<Arrived, OutOfMemory>
    requires { IsPart (Frame turn) limit held.old.items }
    ensures ok { IfOk result (λ arrived. TakesUnit (Frame turn) limit (held.old.items ++ bytes.now) arrived
        held.new.items) }
    ensures err { OnErr result (held.new.items ≡ held.old.items) }
    ensures memory { OnErr result (vec_capacity held.old < max limit 8) }
    ensures capacity { vec_capacity held.old ≤ vec_capacity held.new }
{
    let had = held.len();
    let taken = take_size(held, bytes)?;
    let Some(size) = size(held) else {
        return Ok(Arrived::Part);
    };
    if size < 8 || size > limit {
        return Ok(Arrived::Refused);
    }
    if let Err(fault) = keep(held, &bytes[taken..], size) {
        held.truncate(had);
        return Err(fault);
    }
    if held.len() < size {
        Ok(Arrived::Part)
    } else {
        Ok(Arrived::Whole)
    }
}

/// Takes the missing bytes of the expected unit, and nothing after it. Room for the longest unit is reserved at once,
/// so that a connection makes one allocation for what it holds.
pub fn take_unit(
    held: &mut Vec<u8>,
    expected: Expected,
    limit: usize,
    bytes: &[u8],
) -> Result<Arrived, OutOfMemory>
    requires { IsPart expected limit held.old.items }
    ensures ok { IfOk result (λ arrived. TakesUnit expected limit (held.old.items ++ bytes.now) arrived held.new.items) }
    ensures err { OnErr result (held.new.items ≡ held.old.items) }
    ensures memory { OnErr result (vec_capacity held.old < max limit 8) }
    ensures room { OnOk result (max limit 8 ≤ vec_capacity held.new) }
    ensures capacity { vec_capacity held.old ≤ vec_capacity held.new }
{
    held.reserve(limit.max(8).saturating_sub(held.len()))?;
    match expected {
        Expected::Header => take_header(held, bytes),
        Expected::Frame(turn) => take_frame(held, turn, limit, bytes),
    }
}

/// Drops a complete unit, and returns how many of its bytes were not held before.
pub fn end_unit(held: &mut Vec<u8>, had: usize) -> usize
    ensures taken { result ≡ length held.old.items - had }
    ensures empty { held.new.items ≡ [] }
    ensures capacity { vec_capacity held.new ≡ vec_capacity held.old }
{
    let taken = held.len().saturating_sub(had);
    held.clear();
    taken
}

/// Returns whether the bytes are the header of SASL 1.0.0 (AMQP 1.0, part 5, section 5.3.2).
pub fn is_sasl(header: &[u8]) -> bool
    ensures is { result ≡ true ↔ (header.now ≡ sasl_header) }
    ensures same { result ≡ is_sasl_header header.now }
{
    header == <[u8; 8]>::from(ProtocolHeader::sasl()).as_slice()
}

/// Fails at this header, which is another than that of SASL 1.0.0.
pub fn refuse_header(header: &[u8]) -> Step
    requires { length header.now ≡ 8 }
    ensures { result ≡ record { progress = Failed (ProtocolHeaderMismatch header.now); expected = Header } }
{
    let mut received = [0; 8];
    received.copy_from_slice(header);
    Step::closed(
        CloseReason::ProtocolHeaderMismatch(received),
        Expected::Header,
    )
}

/// Returns whether the frame is the expected one.
fn is_in_turn(turn: FrameKind, view: &FrameView<'_>) -> bool
    ensures { result ≡ true ↔ IsInTurn turn (viewed_frame view.now) }
{
    match (turn, view) {
        (FrameKind::Mechanisms, FrameView::Mechanisms(_)) => true,
        (FrameKind::Init, FrameView::Init { .. }) => true,
        (FrameKind::Challenge | FrameKind::SignatureChallenge, FrameView::Challenge(_)) => true,
        (FrameKind::Challenge | FrameKind::SignatureChallenge, FrameView::Outcome { .. }) => true,
        (FrameKind::Response, FrameView::Response(_)) => true,
        (FrameKind::Outcome, FrameView::Outcome { .. }) => true,
        _ => false,
    }
}

/// Reads a body. A frame that is not expected closes the negotiation, and so does a malformed body.
pub fn read_expected(turn: FrameKind, body: &[u8]) -> Result<FrameView<'_>, CloseReason>
    ensures { ReadsExpected turn body.now result }
{
    match view_frame(body) {
        Ok((view, _)) if is_in_turn(turn, &view) => Ok(view),
        Ok(_) => Err(CloseReason::UnexpectedFrame),
        Err(fault) => Err(CloseReason::MalformedFrame(fault)),
    }
}

/// Appends a body as a frame, for which there is room, or fails if it is too long for one.
pub fn send(out: &mut BytesMut, body: &[u8], progress: Progress, expected: Expected) -> Step
    requires { 512 ≤ out.old.spare }
    ensures { Appends (Sends body.now progress expected) out.old.items out.new.items result }
{
    if body.len() > MAX_FRAME - 4 {
        return Step::closed(CloseReason::ReplyTooLarge, expected);
    }
    let size = body.len() as u32 + 4;
    out.extend_reserved(&size.to_be_bytes());
    out.extend_reserved(body);
    Step { progress, expected }
}
