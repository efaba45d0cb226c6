//! Owned copies of the frames that views show.

ghost use Rattle.std.specs.Prelude.{◌≡◌, option_map, IfOk, IfErr, IsAscii, string_bytes};
ghost use Rattle.fe2o3_sasl_wire.specs.SaslFrames.{Init};
ghost use Rattle.fe2o3_sasl_wire.specs.AmqpTypes.{binary_bytes};
ghost use Rattle.fe2o3_sasl_wire.specs.FrameView.{viewed_frame, shown};
ghost use Rattle.fe2o3_sasl_wire.specs.Owned.{owned_frame, HasAsciiMechanism, RefusesView};

use crate::OutOfMemory;
use crate::amqp_types::{
    Array, Binary, SaslChallenge, SaslInit, SaslMechanisms, SaslOutcome, SaslResponse, Symbol,
};
use crate::sasl_frames::Frame;
use crate::sasl_frames::error::Error;
use crate::sasl_frames::frame_view::FrameView;
use crate::sasl_frames::symbols_view::SymbolsView;
use std::alloc::Global;

/// Copies these bytes into a binary.
fn owned_binary(alloc: Global, bytes: &[u8]) -> Result<Binary, OutOfMemory>
    ensures { IfOk result (λ binary. binary_bytes binary ≡ bytes.now) }
{
    Ok(Binary(Vec::from_slice(alloc, bytes)?))
}

/// Copies these bytes into a binary, if there are any.
fn owned_data(alloc: Global, bytes: Option<&[u8]>) -> Result<Option<Binary>, OutOfMemory>
    ensures { IfOk result (λ owned. option_map binary_bytes owned ≡ shown bytes.entry) }
{
    match bytes {
        Some(bytes) => Ok(Some(owned_binary(alloc, bytes)?)),
        None => Ok(None),
    }
}

/// Copies this text into a string, if there is one.
fn owned_text(alloc: Global, text: Option<&str>) -> Result<Option<String>, OutOfMemory>
    ensures { IfOk result (λ owned. option_map string_bytes owned ≡ shown text.entry) }
{
    match text {
        Some(text) => Ok(Some(String::from_str(alloc, text)?)),
        None => Ok(None),
    }
}

/// Copies the symbols of a view.
fn owned_symbols(alloc: Global, symbols: &SymbolsView<'_>) -> Result<Array<Symbol>, OutOfMemory>
    ensures { IfOk result (λ array. array.0.items ≡ symbols.now) }
{
    let mut owned = Vec::with_capacity(alloc, symbols.len())?;
    for text in symbols.iter() {
        owned.push(Symbol::of_ascii(alloc, text)?)?;
    }
    Ok(Array(owned))
}

/// Makes an init with an ASCII mechanism.
fn owned_init(
    alloc: Global,
    mechanism: &str,
    initial_response: Option<&[u8]>,
    hostname: Option<&str>,
) -> Result<Frame, OutOfMemory>
    requires { IsAscii mechanism.now }
    ensures { IfOk result (λ frame. owned_frame frame
        ≡ Init mechanism.now (shown initial_response.entry) (shown hostname.entry)) }
{
    Ok(Frame::Init(SaslInit {
        mechanism: Symbol::of_ascii(alloc, mechanism)?,
        initial_response: owned_data(alloc, initial_response)?,
        hostname: owned_text(alloc, hostname)?,
    }))
}

impl FrameView<'_> {
    /// Returns an owned copy of the frame. Errors, in this order: DecodeError if the mechanism of an init is not ASCII
    /// (AMQP 1.0, part 1, section 1.6.21), which no view from `view_frame` has; OutOfMemory if allocation fails.
    pub fn to_frame(&self, alloc: Global) -> Result<Frame, Error>
        ensures ok { IfOk result (λ frame. owned_frame frame ≡ viewed_frame self.now) }
        ensures ascii { IfOk result (λ _. HasAsciiMechanism (viewed_frame self.now)) }
        ensures err { IfErr result (λ fault. RefusesView (viewed_frame self.now) fault) }
    {
        match self {
            FrameView::Mechanisms(symbols) => Ok(Frame::Mechanisms(SaslMechanisms {
                sasl_server_mechanisms: owned_symbols(alloc, symbols)?,
            })),
            FrameView::Init {
                mechanism,
                initial_response,
                hostname,
            } => {
                if !mechanism.is_ascii() {
                    return Err(Error::DecodeError);
                }
                Ok(owned_init(alloc, mechanism, *initial_response, *hostname)?)
            }
            FrameView::Challenge(challenge) => Ok(Frame::Challenge(SaslChallenge {
                challenge: owned_binary(alloc, challenge)?,
            })),
            FrameView::Response(response) => Ok(Frame::Response(SaslResponse {
                response: owned_binary(alloc, response)?,
            })),
            FrameView::Outcome {
                code,
                additional_data,
            } => Ok(Frame::Outcome(SaslOutcome {
                code: *code,
                additional_data: owned_data(alloc, *additional_data)?,
            })),
        }
    }
}
