//! Frames read in place (AMQP 1.0, part 5, section 5.3). Nothing here allocates.

ghost use Rattle.std.specs.Prelude.{◌≡◌, IsErrOf, option_map};
ghost use Rattle.fe2o3_sasl_wire.specs.declared.sasl_frames.error.Error.TheVariants.{OutOfMemory, TooLarge};
ghost use Rattle.fe2o3_sasl_wire.specs.SaslFrames.{ReadsBody};
ghost use Rattle.fe2o3_sasl_wire.specs.private.Reading.{kind_of_code, kind_of_name, descriptor_at, fields_at, value_at};
ghost use Rattle.fe2o3_sasl_wire.specs.FrameView.{viewed_frame, viewed_answer};

use crate::amqp_types::SaslCode;
use crate::hidden::Hidden;
use crate::sasl_frames::error::Error;
use crate::sasl_frames::forms::{DESCRIBED, Kind, SMALL_ULONG, ULONG};
use crate::sasl_frames::items::{Items, list_at};
use crate::sasl_frames::reading::{byte_at, symbol_at, u64_at};
use crate::sasl_frames::symbols_view::SymbolsView;
use crate::sasl_frames::{DATA_OFFSET, FRAME_TYPE_SASL};
use std::fmt;

/// A SASL frame whose texts and bytes are slices of its body (AMQP 1.0, part 5, section 5.3.3). Its `Debug` shows only
/// the length of a response, which may be a password.
#[derive(Drop)]
pub enum FrameView<'a> {
    /// The mechanisms that the server offers.
    Mechanisms(SymbolsView<'a>),

    /// The client's choice.
    Init {
        /// The name of the mechanism.
        mechanism: &'a str,

        /// The client's first message.
        initial_response: Option<&'a [u8]>,

        /// The host that the client asks for.
        hostname: Option<&'a str>,
    },

    /// A challenge of the server.
    Challenge(&'a [u8]),

    /// The client's response.
    Response(&'a [u8]),

    /// The end of the negotiation.
    Outcome {
        /// How it ended.
        code: SaslCode,

        /// The message of the mechanism at its end.
        additional_data: Option<&'a [u8]>,
    },
}

impl fmt::Debug for FrameView<'_> {
    fn fmt<W: fmt::Write>(&self, f: &mut fmt::Formatter<W>) -> fmt::Result {
        match self {
            FrameView::Mechanisms(symbols) => f.debug_tuple("Mechanisms").field(symbols).finish(),
            FrameView::Init {
                mechanism,
                initial_response,
                hostname,
            } => f
                .debug_struct("Init")
                .field("mechanism", mechanism)
                .field(
                    "initial_response",
                    &initial_response.map(|bytes| Hidden(bytes)),
                )
                .field("hostname", hostname)
                .finish(),
            FrameView::Challenge(challenge) => f.debug_tuple("Challenge").field(challenge).finish(),
            FrameView::Response(response) => {
                f.debug_tuple("Response").field(&Hidden(response)).finish()
            }
            FrameView::Outcome {
                code,
                additional_data,
            } => f
                .debug_struct("Outcome")
                .field("code", code)
                .field("additional_data", additional_data)
                .finish(),
        }
    }
}

/// Returns the kind of frame with this code.
fn kind_of_code(code: u64) -> Option<Kind>
    ensures { result ≡ kind_of_code code }
{
    match code {
        0x40 => Some(Kind::Mechanisms),
        0x41 => Some(Kind::Init),
        0x42 => Some(Kind::Challenge),
        0x43 => Some(Kind::Response),
        0x44 => Some(Kind::Outcome),
        _ => None,
    }
}

/// Returns the kind of frame with this name.
#[tactic(auto, unfolding(crate::specs::private::Reading::kind_of_name))]
fn kind_of_name(name: &str) -> Option<Kind>
    ensures { result ≡ kind_of_name name.now }
{
    if name == "amqp:sasl-mechanisms:list" {
        Some(Kind::Mechanisms)
    } else if name == "amqp:sasl-init:list" {
        Some(Kind::Init)
    } else if name == "amqp:sasl-challenge:list" {
        Some(Kind::Challenge)
    } else if name == "amqp:sasl-response:list" {
        Some(Kind::Response)
    } else if name == "amqp:sasl-outcome:list" {
        Some(Kind::Outcome)
    } else {
        None
    }
}

/// Reads a descriptor: a code as smallulong or as ulong, or a name.
#[inline(always)]
#[tactic(auto, unfolding(crate::specs::private::Reading::descriptor_at))]
fn descriptor_at(bytes: &[u8]) -> Option<(Kind, &[u8])>
    ensures { option_map (λ x. (x.0, x.1.now)) result ≡ descriptor_at bytes.now }
{
    let (constructor, rest) = byte_at(bytes)?;
    match constructor {
        SMALL_ULONG => {
            let (code, rest) = byte_at(rest)?;
            let kind = kind_of_code(u64::from(code))?;
            Some((kind, rest))
        }
        ULONG => {
            let (code, rest) = u64_at(rest)?;
            let kind = kind_of_code(code)?;
            Some((kind, rest))
        }
        _ => {
            let (name, rest) = symbol_at(bytes)?;
            let kind = kind_of_name(name)?;
            Some((kind, rest))
        }
    }
}

/// Returns the frame of this kind with these items.
#[inline(always)]
#[tactic(auto, unfolding(crate::specs::private::Reading::fields_at))]
fn fields_at<'a>(kind: Kind, mut items: Items<'a>) -> Option<FrameView<'a>>
    ensures { option_map viewed_frame result ≡ fields_at kind items.entry }
{
    match kind {
        Kind::Mechanisms => {
            let symbols = items.symbols()?;
            items.end()?;
            Some(FrameView::Mechanisms(symbols))
        }
        Kind::Init => {
            let mechanism = items.symbol()?;
            let initial_response = items.optional_binary()?;
            let hostname = items.optional_string()?;
            items.end()?;
            Some(FrameView::Init {
                mechanism,
                initial_response,
                hostname,
            })
        }
        Kind::Challenge => {
            let challenge = items.binary()?;
            items.end()?;
            Some(FrameView::Challenge(challenge))
        }
        Kind::Response => {
            let response = items.binary()?;
            items.end()?;
            Some(FrameView::Response(response))
        }
        Kind::Outcome => {
            let code = items.code()?;
            let additional_data = items.optional_binary()?;
            items.end()?;
            Some(FrameView::Outcome {
                code,
                additional_data,
            })
        }
    }
}

/// Reads a described list.
#[inline(always)]
#[tactic(auto, unfolding(crate::specs::private::Reading::value_at))]
fn value_at(bytes: &[u8]) -> Option<(FrameView<'_>, &[u8])>
    ensures { option_map (λ x. (viewed_frame x.0, x.1.now)) result ≡ value_at bytes.now }
{
    let (first, bytes) = byte_at(bytes)?;
    if first != DESCRIBED {
        return None;
    }
    let (kind, bytes) = descriptor_at(bytes)?;
    let (items, rest) = list_at(bytes)?;
    let frame = fields_at(kind, items)?;
    Some((frame, rest))
}

/// Reads a body without its four-byte size (AMQP 1.0, part 5, section 5.3.1). Returns the frame, and how many bytes it
/// takes, from the data offset on. Bytes after the frame are ignored. Errors, in this order: DecodeError for fewer than
/// four bytes, NotImplemented for another type than 1 or data offset than 2, and DecodeError for any other bytes that
/// begin with no frame. The call allocates nothing, so it returns neither OutOfMemory nor TooLarge.
#[inline(always)]
pub fn view_frame(bytes: &[u8]) -> Result<(FrameView<'_>, usize), Error>
    ensures reads { ReadsBody bytes.now (viewed_answer result) }
    ensures not_out_of_memory { ¬ (IsErrOf result OutOfMemory) }
    ensures not_too_large { ¬ (IsErrOf result TooLarge) }
{
    if bytes.len() < 4 {
        return Err(Error::DecodeError);
    }
    if bytes[1] != FRAME_TYPE_SASL {
        return Err(Error::NotImplemented);
    }
    if bytes[0] != DATA_OFFSET {
        return Err(Error::NotImplemented);
    }
    let (_, value) = bytes.split_at(4);
    match value_at(value) {
        Some((frame, rest)) => Ok((frame, bytes.len() - rest.len())),
        None => Err(Error::DecodeError),
    }
}
