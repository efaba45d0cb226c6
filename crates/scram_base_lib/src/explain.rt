//! `explain`: what the messages of an exchange say. They are lines in base64, in order.

ghost use Rattle.std.specs.Prelude.{◌<◌, IfSome};

mod channels;

use crate::explain::channels::{
    channel_said, header_said, identity_said, names_identity, read_final, rules_for,
};
use crate::stop::Stop;
use crate::{input, wire};
use fe2o3_sasl_wire::{Error as FrameError, FrameView, SymbolsView, view_frame};
use fe2o3_scram::{
    ChannelBindingFlag, ClientFirst, ScramErrorKind, ServerFinal, ServerFirst, ServerScramErrorKind,
};
use std::alloc::{AllocError, Global};
use std::io::{BufRead, Write};
use thiserror::Error;

/// What the messages so far contain.
#[derive(Drop)]
pub struct Heard {
    /// The side, which is printed before each message, or nothing.
    side: &'static str,
    /// Whether the GS2 header may be that of any channel, and not only `n,,`.
    any_header: bool,
    /// The GS2 header of the client-first message.
    header: ChannelBindingFlag,
    /// The identity that the client-first message names, not escaped, if any.
    acts_for: Option<String>,
    /// The user of the client-first message, not escaped.
    pub user: String,
    /// The nonce of the client-first message.
    pub client_nonce: String,
    /// The nonce of the server-first message.
    pub nonce: String,
}

/// Why a message is rejected.
#[derive(Clone, Copy, Debug, Error)]
enum Refusal {
    #[error("{0}")]
    Client(#[from] ScramErrorKind),
    #[error("{0}")]
    Server(#[from] ServerScramErrorKind),
    /// The body is not a frame.
    #[error("{0}")]
    Frame(FrameError),
}

/// What a message says, or why it is rejected.
type Told = Result<String, Refusal>;

/// Prints what each message says, up to the first that is rejected. The lines are frame bodies in hexadecimal, or
/// messages in base64.
pub fn explain<I: BufRead, O: Write>(
    alloc: Global,
    frames: bool,
    input: &mut I,
    output: &mut O,
) -> Result<(), Stop> {
    let mut heard = Heard::new(alloc, "");
    heard.any_header = true;
    for place in 0..usize::MAX {
        let Some(line) = input::next_line(alloc, input)? else {
            break;
        };
        let told = if frames {
            heard.body_in(alloc, &line, output)
        } else {
            heard.text(alloc, place, &line, output)
        };
        told.map_err(|stop| stop.at_line((place as u64).saturating_add(1)))?;
    }
    Ok(())
}

/// The messages of an exchange (RFC 5802, section 7).
static NAMES: [&str; 4] = [
    "client-first",
    "server-first",
    "client-final",
    "server-final",
];

impl Refusal {
    /// Returns why the program stops.
    fn stop(self) -> Stop {
        match self {
            Refusal::Client(ScramErrorKind::OutOfMemory)
            | Refusal::Server(ServerScramErrorKind::OutOfMemory) => Stop::OutOfMemory,
            Refusal::Client(_) | Refusal::Server(_) | Refusal::Frame(_) => Stop::MessageRefused,
        }
    }
}

impl From<AllocError> for Refusal {
    fn from(_error: AllocError) -> Refusal {
        Refusal::Client(ScramErrorKind::OutOfMemory)
    }
}

impl Heard {
    /// Returns an empty value, for logins without channel binding, whose GS2 header is `n,,`. `side` is printed before
    /// each message.
    pub fn new(alloc: Global, side: &'static str) -> Heard {
        Heard {
            side,
            any_header: false,
            header: ChannelBindingFlag::NotSupported,
            acts_for: None,
            user: String::new(alloc),
            client_nonce: String::new(alloc),
            nonce: String::new(alloc),
        }
    }

    /// Returns the server's part of the nonce, which follows the client's (RFC 5802, section 5.1, `r`).
    pub fn server_nonce(&self) -> Option<&str> {
        let (nonce, client_nonce) = (self.nonce.as_str(), self.client_nonce.as_str());
        nonce.strip_prefix(client_nonce)
    }

    /// Prints what a message says, or why it is rejected.
    fn print<O: Write>(&self, name: &str, told: Told, output: &mut O) -> Result<(), Stop> {
        write!(output, "{}", self.side).map_err(Stop::of_output)?;
        match told {
            Ok(said) => writeln!(output, "{name}: {said}").map_err(Stop::of_output),
            Err(refusal) => {
                writeln!(output, "{name}: rejected: {refusal}").map_err(Stop::of_output)?;
                Err(refusal.stop())
            }
        }
    }

    /// Prints what the message at a place says. A fifth is the error `ExtraLine`. The line has it in base64.
    fn text<O: Write>(
        &mut self,
        alloc: Global,
        place: usize,
        line: &str,
        output: &mut O,
    ) -> Result<(), Stop> {
        if place >= 4 {
            return Err(Stop::ExtraLine);
        }
        let message = wire::bytes_of(alloc, line)?;
        let told = self.tell(alloc, place, &message);
        self.print(NAMES[place], told, output)
    }

    /// Prints what a frame body says, and the message in it. The line has it in hexadecimal.
    fn body_in<O: Write>(&mut self, alloc: Global, line: &str, output: &mut O) -> Result<(), Stop> {
        let body = wire::hex_bytes(alloc, line, Stop::NotHex)?;
        self.body(alloc, &body, output)
    }

    /// Prints what a frame body says, and the message in it.
    pub fn body<O: Write>(
        &mut self,
        alloc: Global,
        body: &[u8],
        output: &mut O,
    ) -> Result<(), Stop> {
        let view = match view_frame(body) {
            Ok((view, _)) => view,
            Err(fault) => return self.print("frame", Err(Refusal::Frame(fault)), output),
        };
        self.print(name_of(&view), told_of(alloc, &view), output)?;
        let Some((place, text)) = text_in(&view) else {
            return Ok(());
        };
        let told = self.tell(alloc, place, text);
        self.print(NAMES[place], told, output)
    }

    /// Returns what the message at a place says.
    fn tell(&mut self, alloc: Global, place: usize, message: &[u8]) -> Told {
        match place {
            0 => self.client_first(alloc, message),
            1 => self.server_first(alloc, message),
            2 => self.client_final(alloc, message),
            _ => server_final(alloc, message),
        }
    }

    /// Returns what a client-first message says.
    fn client_first(&mut self, alloc: Global, message: &[u8]) -> Told {
        let rules = rules_for(
            self.any_header,
            message.starts_with(b"p="),
            names_identity(message),
        );
        let first = ClientFirst::parse_with_rules(alloc, message, rules)?;
        self.header = first.header;
        self.acts_for = match first.acts_for.as_deref() {
            Some(name) => Some(name.to_string(alloc)?),
            None => None,
        };
        self.user = first.username.as_str().to_string(alloc)?;
        self.client_nonce = first.client_nonce.to_string(alloc)?;
        let (user, nonce) = (first.username.as_str(), first.client_nonce);
        let channel = header_said(alloc, first.header)?;
        let identity = identity_said(alloc, self.acts_for.as_deref())?;
        Ok(format!(in alloc; "{channel}user {user:?}, {identity}nonce {nonce:?}")?)
    }

    /// Returns what a server-first message says.
    fn server_first(&mut self, alloc: Global, message: &[u8]) -> Told {
        let text = str::from_utf8(message).map_err(|_| ScramErrorKind::Utf8Error)?;
        let first = ServerFirst::parse(alloc, &self.client_nonce, "", u32::MAX, text)?;
        self.nonce = first.nonce.to_string(alloc)?;
        let (nonce, iterations) = (first.nonce, first.iterations);
        let salt = hex::encode(alloc, first.salt.as_slice())?;
        Ok(format!(in alloc; "salt {salt}, {iterations} iterations, nonce {nonce:?}")?)
    }

    /// Returns what a client-final message says.
    fn client_final(&self, alloc: Global, message: &[u8]) -> Told {
        let nonce = self.nonce.as_bytes();
        let acts_for = self.acts_for.as_deref();
        let (channel, last) = read_final(alloc, self.header, acts_for, nonce, message)?;
        let channel = channel_said(alloc, &channel, acts_for)?;
        let proof = hex::encode(alloc, last.proof.as_slice())?;
        Ok(format!(in alloc; "{channel}proof {proof}, same nonce")?)
    }
}

/// Returns the name of a frame (AMQP 1.0, part 5, section 5.3.3).
fn name_of(view: &FrameView<'_>) -> &'static str {
    match view {
        FrameView::Mechanisms(_) => "sasl-mechanisms",
        FrameView::Init { .. } => "sasl-init",
        FrameView::Challenge(_) => "sasl-challenge",
        FrameView::Response(_) => "sasl-response",
        FrameView::Outcome { .. } => "sasl-outcome",
    }
}

/// Returns the message in a frame, and its place in the exchange.
fn text_in<'a>(view: &FrameView<'a>) -> Option<(usize, &'a [u8])>
    ensures { IfSome result (λ found. found.0 < 4) }
{
    match view {
        FrameView::Init {
            initial_response: Some(text),
            ..
        } => Some((0, *text)),
        FrameView::Challenge(text) => Some((1, *text)),
        FrameView::Response(text) => Some((2, *text)),
        FrameView::Outcome {
            additional_data: Some(text),
            ..
        } => Some((3, *text)),
        _ => None,
    }
}

/// Returns what a frame says besides the message in it.
fn told_of(alloc: Global, view: &FrameView<'_>) -> Told {
    match view {
        FrameView::Mechanisms(names) => names_of(alloc, names),
        FrameView::Init {
            mechanism,
            hostname: Some(hostname),
            ..
        } => Ok(format!(in alloc; "mechanism {mechanism}, hostname {hostname:?}")?),
        FrameView::Init { mechanism, .. } => Ok(format!(in alloc; "mechanism {mechanism}")?),
        FrameView::Challenge(text) | FrameView::Response(text) => {
            let len = text.len();
            Ok(format!(in alloc; "{len} bytes")?)
        }
        FrameView::Outcome { code, .. } => Ok(format!(in alloc; "{code:?}")?),
    }
}

/// Returns the names of the mechanisms, separated by spaces.
fn names_of(alloc: Global, names: &SymbolsView<'_>) -> Told {
    let mut text = String::from_str(alloc, "offers")?;
    for name in names.iter() {
        text.push(' ')?;
        text.push_str(name)?;
    }
    Ok(text)
}

/// Returns what a server-final message says.
fn server_final(alloc: Global, message: &[u8]) -> Told {
    if let Some(error) = message.strip_prefix(b"e=") {
        let error = String::from_utf8_lossy(alloc, error)?;
        let error = error.as_str();
        return Ok(format!(in alloc; "error {error:?}")?);
    }
    let last = ServerFinal::parse(alloc, message)?;
    let signature = hex::encode(alloc, last.signature.as_slice())?;
    Ok(format!(in alloc; "signature {signature}")?)
}
