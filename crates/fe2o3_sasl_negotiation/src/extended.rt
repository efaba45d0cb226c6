//! Frames with an extended header (AMQP 1.0, part 2, section 2.3.1), which a side reads without it if it accepts these.

ghost use Rattle.std.specs.Prelude.{◌≡◌, ◌+◌, ◌-◌, ◌*◌, ◌≤◌, ◌++◌, IfOk, if◌then◌else◌, length, take, drop};
ghost use Rattle.fe2o3_sasl_negotiation.specs.Framing.{body_read, data_offset, framed, has_extended_header, unextended};

use crate::framing::MAX_FRAME;
use fe2o3_sasl_core::OutOfMemory;
use std::alloc::Global;

/// Returns the length of the extended header of a body.
fn extended_len(body: &[u8]) -> usize
    ensures { result ≡ (if has_extended_header body.now then 4 * data_offset body.now - 8 else 0) }
{
    let Some(words) = body.first() else {
        return 0;
    };
    let at = 4 * *words as usize;
    if *words > 2 && at <= body.len() + 4 {
        at - 8
    } else {
        0
    }
}

/// Copies bytes to this place in a buffer, and returns the place after them.
fn append(room: &mut [u8; MAX_FRAME], at: usize, bytes: &[u8]) -> usize
    requires { at + length bytes.now ≤ 512 }
    ensures at { result ≡ at + length bytes.now }
    ensures bytes { take result room.new ≡ take at room.old ++ bytes.now }
{
    let end = at + bytes.len();
    room[at..end].copy_from_slice(bytes);
    end
}

/// Copies a frame, which begins with its size, without its extended header, and returns the new size.
pub(crate) fn copy_unextended(frame: &[u8], room: &mut [u8; MAX_FRAME]) -> usize
    requires least { 8 ≤ length frame.now }
    requires most { length frame.now ≤ 512 }
    ensures least { 4 ≤ result }
    ensures within { result ≤ 512 }
    ensures frame { take result room.new ≡ framed (unextended (drop 4 frame.now)) }
{
    let body = &frame[4..];
    let skipped = extended_len(body);
    let size = (frame.len() - skipped) as u32;
    let at = append(room, 0, &size.to_be_bytes());
    if skipped == 0 {
        return append(room, at, body);
    }
    let at = append(room, at, &[2]);
    let at = append(room, at, &body[1..4]);
    append(room, at, &body[4 + skipped..])
}

/// Copies the body of a frame, which begins with its size.
fn copy_body(alloc: Global, frame: &[u8]) -> Result<Vec<u8>, OutOfMemory>
    requires { 4 ≤ length frame.now }
    ensures { IfOk result (λ body. body.items ≡ drop 4 frame.now) }
{
    Ok(frame[4..].to_vec(alloc)?)
}

/// Returns the body that a side reads of a frame, which begins with its size.
#[tactic(auto, using(crate::proofs::lemmas::ExtendedLemmas::body_in_room))]
pub(crate) fn body_of(alloc: Global, accepts: bool, frame: &[u8]) -> Result<Vec<u8>, OutOfMemory>
    requires least { 8 ≤ length frame.now }
    requires most { length frame.now ≤ 512 }
    ensures { IfOk result (λ body. body.items ≡ body_read accepts (drop 4 frame.now)) }
{
    if !accepts {
        return copy_body(alloc, frame);
    }
    let mut room = [0; MAX_FRAME];
    let size = copy_unextended(frame, &mut room);
    copy_body(alloc, &room[..size])
}
