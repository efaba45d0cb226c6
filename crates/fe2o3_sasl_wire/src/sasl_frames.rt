//! The five SASL frames (AMQP 1.0, part 5, section 5.3), without their four-byte size.

ghost use Rattle.std.specs.Prelude.{◌≡◌, IfOk, IfErr, OnOk, OnErr};
ghost use Rattle.std.specs.Cmp.{on_per, on_equiv, partial_equiv_from_equiv};
ghost use Rattle.fe2o3_sasl_wire.specs.SaslFrames.{TakesFrame, RefusesBody, AppendsCanonical, RefusesFrame, HasTexts};
ghost use Rattle.fe2o3_sasl_wire.specs.AmqpTypes.{same_frame};
ghost use Rattle.fe2o3_sasl_wire.specs.Owned.{owned_frame};
ghost use Rattle.fe2o3_sasl_wire.specs.private.Sameness.{same_frame_equiv};

mod error;
mod fields;
mod forms;
mod frame_view;
mod items;
mod owned;
mod reading;
mod symbols_view;
mod writing;

use crate::amqp_types::{SaslChallenge, SaslInit, SaslMechanisms, SaslOutcome, SaslResponse};
use bytes::BytesMut;
pub use error::Error;
use fields::{code_of, count_of, fields_of, items_len, put_items};
pub use frame_view::{FrameView, view_frame};
use std::alloc::{AllocError, Global};
pub use symbols_view::{SymbolsIter, SymbolsView};
use writing::{put_number, put_start, shortest, width};

/// The length of a frame's header in words of four bytes, including its size (AMQP 1.0, part 2, section 2.3.1).
pub(crate) const DATA_OFFSET: u8 = 0x02;

/// The type of a SASL frame (AMQP 1.0, part 5, section 5.3.1).
pub(crate) const FRAME_TYPE_SASL: u8 = 0x01;

/// A SASL frame (AMQP 1.0, part 5, section 5.3.3). Its `Debug` shows only the length of a response.
#[derive(Debug, Drop)]
pub enum Frame {
    /// The mechanisms that the server offers.
    Mechanisms(SaslMechanisms),

    /// The client's choice.
    Init(SaslInit),

    /// A challenge of the server.
    Challenge(SaslChallenge),

    /// The client's response.
    Response(SaslResponse),

    /// The end of the negotiation.
    Outcome(SaslOutcome),
}

impl Clone for Frame {
    ghost is_clone = { λ frame copy. owned_frame copy ≡ owned_frame frame };

    fn clone(&self) -> Result<Frame, AllocError> {
        Ok(match self {
            Frame::Mechanisms(mechanisms) => Frame::Mechanisms(mechanisms.clone()?),
            Frame::Init(init) => Frame::Init(init.clone()?),
            Frame::Challenge(challenge) => Frame::Challenge(challenge.clone()?),
            Frame::Response(response) => Frame::Response(response.clone()?),
            Frame::Outcome(outcome) => Frame::Outcome(outcome.clone()?),
        })
    }
}

impl PartialEq for Frame {
    ghost eq = { λ left right. same_frame (owned_frame left) (owned_frame right) };

    ghost laws = { on_per owned_frame (partial_equiv_from_equiv same_frame_equiv) };

    fn eq(&self, other: &Frame) -> bool {
        match (self, other) {
            (Frame::Mechanisms(left), Frame::Mechanisms(right)) => left == right,
            (Frame::Init(left), Frame::Init(right)) => left == right,
            (Frame::Challenge(left), Frame::Challenge(right)) => left == right,
            (Frame::Response(left), Frame::Response(right)) => left == right,
            (Frame::Outcome(left), Frame::Outcome(right)) => left == right,
            _ => false,
        }
    }
}

impl Eq for Frame {
    ghost laws = { on_equiv owned_frame same_frame_equiv };
}

/// Reads and writes SASL frames without their four-byte size (AMQP 1.0, part 5, section 5.3.1).
#[derive(Debug, Drop)]
pub struct FrameCodec {}

/// The maximum length of a list's items, in bytes: a size of 32 bits counts four bytes more.
const MAX_ITEMS_LEN: usize = 0xffff_fffb;

impl FrameCodec {
    /// Appends the canonical body of the frame: each size and length in its shortest form, the mechanisms as an array,
    /// and no nulls at the end. Errors, in this order: TooLarge if a size has more than 32 bits, and OutOfMemory if
    /// allocation fails. An error leaves the buffer unchanged. The frame is taken by value: clone it first if you may
    /// need it again. The call allocates at most once, which is seen by reading and is no clause. Each frame's symbols
    /// are ASCII and its hostname is UTF-8, so its canonical body spells it.
    pub fn encode(&mut self, item: Frame, dst: &mut BytesMut) -> Result<(), Error>
        ensures ok { OnOk result (AppendsCanonical (owned_frame item) dst.old.items dst.new.items) }
        ensures texts { HasTexts (owned_frame item) }
        ensures err { IfErr result (λ fault. RefusesFrame (owned_frame item) fault) }
        ensures unchanged { OnErr result (dst.new.items ≡ dst.old.items) }
    {
        let fields = fields_of(&item);
        let items = &fields[..count_of(&item)];
        let len = items_len(items);
        if len > MAX_ITEMS_LEN {
            return Err(Error::TooLarge);
        }
        let form = shortest(1 + len);
        dst.reserve(8 + 2 * width(form) + len)?;
        put_start(dst, code_of(&item), form);
        put_number(dst, form, (width(form) + len) as u32);
        put_number(dst, form, items.len() as u32);
        put_items(dst, items);
        Ok(())
    }

    /// Reads one frame from the front of a buffer and takes its bytes; later bytes stay. Errors, in this order:
    /// - DecodeError for fewer than four bytes;
    /// - NotImplemented for another type than 1 or data offset than 2;
    /// - DecodeError for any other bytes that begin with no frame;
    /// - OutOfMemory if allocation fails.
    ///
    /// An error leaves the buffer unchanged. Each frame's symbols are ASCII and its hostname is UTF-8.
    pub fn decode(&mut self, alloc: Global, src: &mut BytesMut) -> Result<Frame, Error>
        ensures ok { IfOk result (λ frame. TakesFrame src.old.items src.new.items (owned_frame frame)) }
        ensures texts { IfOk result (λ frame. HasTexts (owned_frame frame)) }
        ensures err { IfErr result (λ fault. RefusesBody src.old.items fault) }
        ensures unchanged { OnErr result (src.new.items ≡ src.old.items) }
    {
        let (view, len) = view_frame(src.as_slice())?;
        let frame = view.to_frame(alloc)?;
        src.advance(len);
        Ok(frame)
    }
}
