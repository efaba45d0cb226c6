//! SASL frames, read in place (AMQP 1.0, part 5, section 5.3.3).

ghost use Rattle.std.specs.Prelude.{◌≡◌, [], None};
ghost use Rattle.fe2o3_sasl_wire.specs.FrameView.{shown, viewed_frame};
ghost use Rattle.sasl_c.specs.Frames.{GivenBytes, OffersName, ShowsFields, ShowsFrame, Views, code_number};
ghost use Rattle.sasl_c.specs.Status.{Answers};

use crate::connection::of_frame;
use crate::status::{Status, number, text};
use fe2o3_sasl_wire::{FrameView, SaslCode, view_frame};

/// The content of a frame body. Its pointers point into that body.
#[repr(C)]
#[derive(Drop)]
pub struct SaslFrameView<'a> {
    /// Which frame it is: one of enum fe2o3_frame_kind.
    pub kind: u32,

    /// The code of an outcome: one of enum fe2o3_sasl_code. Zero for other frames.
    pub code: u32,

    /// 1 if there is a message, otherwise 0.
    pub has_message: u32,

    /// 1 if there is a hostname, otherwise 0.
    pub has_hostname: u32,

    /// The number of mechanisms in a list of mechanisms.
    pub count: usize,

    /// The number of bytes of the body that the frame takes. Bytes after it are not read.
    pub taken: usize,

    /// The mechanism of an init.
    pub mechanism: &'a [u8],

    /// The initial response, the challenge, the response, or the additional data of an outcome.
    pub message: &'a [u8],

    /// The hostname of an init.
    pub hostname: &'a [u8],
}

/// Returns the number of a code.
fn number_of(code: SaslCode) -> u32
    ensures { result ≡ code_number code }
{
    match code {
        SaslCode::Ok => 0,
        SaslCode::Auth => 1,
        SaslCode::Sys => 2,
        SaslCode::SysPerm => 3,
        SaslCode::SysTemp => 4,
    }
}

/// Returns 1 and the bytes, or 0 and no bytes if there are none.
fn given<'a>(bytes: Option<&'a [u8]>) -> (u32, &'a [u8])
    ensures { GivenBytes result.0 result.1.now (shown bytes.entry) }
{
    match bytes {
        Some(bytes) => (1, bytes),
        None => (0, &[]),
    }
}

impl<'a> SaslFrameView<'a> {
    /// Returns a struct with only this message.
    fn with_message(kind: u32, code: u32, message: Option<&'a [u8]>) -> SaslFrameView<'a>
        ensures { ShowsFields result kind code 0 [] (shown message.entry) None }
    {
        let (has_message, message) = given(message);
        SaslFrameView {
            kind,
            code,
            has_message,
            has_hostname: 0,
            count: 0,
            taken: 0,
            mechanism: &[],
            message,
            hostname: &[],
        }
    }

    /// Returns the struct of a frame.
    fn of(frame: &FrameView<'a>) -> SaslFrameView<'a>
        ensures { ShowsFrame result (viewed_frame frame.now) }
    {
        match frame {
            FrameView::Mechanisms(names) => {
                let mut view = SaslFrameView::with_message(64, 0, None);
                view.count = names.len();
                view
            }
            FrameView::Init {
                mechanism,
                initial_response,
                hostname,
            } => {
                let mut view = SaslFrameView::with_message(65, 0, *initial_response);
                view.mechanism = mechanism.as_bytes();
                if let Some(name) = hostname {
                    view.has_hostname = 1;
                    view.hostname = name.as_bytes();
                }
                view
            }
            FrameView::Challenge(text) => SaslFrameView::with_message(66, 0, Some(text)),
            FrameView::Response(text) => SaslFrameView::with_message(67, 0, Some(text)),
            FrameView::Outcome {
                code,
                additional_data,
            } => SaslFrameView::with_message(68, number_of(*code), *additional_data),
        }
    }
}

/// Parses a frame body.
fn view_body<'a>(body: &'a [u8], view: &mut SaslFrameView<'a>) -> Result<(), Status>
    ensures { Views body.now view.old view.new result }
{
    match view_frame(body) {
        Ok((frame, taken)) => {
            *view = SaslFrameView::of(&frame);
            view.taken = taken;
            Ok(())
        }
        Err(fault) => Err(of_frame(fault)),
    }
}

/// Parses a frame body, without the four bytes of the frame's size. It allocates no memory.
///
/// Returns FE2O3_MALFORMED_FRAME or FE2O3_NO_SASL_FRAME for a body that holds no frame.
#[unsafe(no_mangle)]
pub extern "C" fn fe2o3_sasl_view_frame<'a>(body: &'a [u8], view: &mut SaslFrameView<'a>) -> u32
    ensures { Answers result (Views body.now view.old view.new) }
{
    number(view_body(body, view))
}

/// Tests whether a server offers a mechanism.
fn offers(body: &[u8], mechanism: &[u8]) -> Result<(), Status>
    ensures { OffersName body.now mechanism.now result }
{
    let name = text(mechanism)?;
    match view_frame(body) {
        Ok((FrameView::Mechanisms(names), _)) => {
            if names.contains(name) {
                Ok(())
            } else {
                Err(Status::NotImplemented)
            }
        }
        Ok(_) => Err(Status::UnexpectedFrame),
        Err(fault) => Err(of_frame(fault)),
    }
}

/// Tests whether a frame body is a list of mechanisms with `mechanism` in it. The errors are, in this order:
/// FE2O3_NOT_UTF8 for `mechanism`; those of `fe2o3_sasl_view_frame`; FE2O3_UNEXPECTED_FRAME for another frame; and
/// FE2O3_NOT_IMPLEMENTED if the list lacks it.
#[unsafe(no_mangle)]
pub extern "C" fn fe2o3_sasl_offers(body: &[u8], mechanism: &[u8]) -> u32
    ensures { Answers result (OffersName body.now mechanism.now) }
{
    number(offers(body, mechanism))
}
