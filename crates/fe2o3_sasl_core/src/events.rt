//! What the runs are passed and what they return, with the bodies of the frames.

ghost use Rattle.std.specs.Prelude.{◌≡◌, ◌↔◌, IfOk, IfErr, IsTrue};
ghost use Rattle.std.specs.Char.{is_ascii_hexdigit};
ghost use Rattle.std.specs.List.{AllPass};
ghost use Rattle.fe2o3_sasl_core.specs.Runs.{given, SpellsEvent, RefusesHex};

use fe2o3_sasl_wire::{SaslCode, SaslOutcome};
use hex::{FromHex, FromHexError};
use std::alloc::Global;
use std::fmt;

/// A body as received, and a nonce for an answer that needs one.
#[derive(Drop)]
pub struct Event {
    /// The body of the frame, without its four-byte size.
    pub body: Vec<u8>,

    /// The nonce, of 32 bytes.
    pub nonce: [u8; 32],
}

/// Why two texts spell no event.
#[derive(Clone, Copy, Debug, PartialEq, Eq, thiserror::Error)]
pub enum EventError {
    /// The nonce is not 64 hexadecimal digits, or the body not pairs of them.
    #[error("Invalid")]
    Invalid,

    /// An allocation failed. The call can be repeated.
    #[error("OutOfMemory")]
    OutOfMemory,
}

impl Event {
    /// Reads an event from two texts in hexadecimal digits of either case. Invalid exactly if they spell none: only the
    /// body of a valid event is allocated.
    pub fn from_hex(alloc: Global, nonce: &str, body: &str) -> Result<Event, EventError>
        ensures ok { IfOk result (λ event. SpellsEvent nonce.now body.now (given event)) }
        ensures err { IfErr result (λ fault. RefusesHex nonce.now body.now fault) }
    {
        let Ok(nonce) = <[u8; 32] as FromHex>::from_hex(nonce) else {
            return Err(EventError::Invalid);
        };
        if !are_digits(body.as_bytes()) {
            return Err(EventError::Invalid);
        }
        match hex::decode(alloc, body) {
            Ok(body) => Ok(Event { body, nonce }),
            Err(FromHexError::OutOfMemory) => Err(EventError::OutOfMemory),
            Err(_) => Err(EventError::Invalid),
        }
    }
}

/// Returns whether each byte is a hexadecimal digit.
fn are_digits(text: &[u8]) -> bool
    ensures { IsTrue result ↔ AllPass is_ascii_hexdigit text.now }
{
    text.iter().all(|byte| byte.is_ascii_hexdigit())
}

impl fmt::Debug for Event {
    /// Writes only the length of the body, which can hold a password.
    fn fmt<W: fmt::Write>(&self, f: &mut fmt::Formatter<W>) -> fmt::Result {
        let len = self.body.len();
        write!(f, "Event {{ body: {len} bytes, .. }}")
    }
}

/// A server's reply.
#[derive(Debug, Drop)]
pub enum ServerReply {
    /// A challenge.
    Challenge {
        /// The body of its frame.
        body: Vec<u8>,
    },

    /// The end of the negotiation.
    Outcome {
        /// How it ended.
        code: SaslCode,

        /// The body of its frame.
        body: Vec<u8>,
    },
}

/// A client's reply.
#[derive(Drop)]
pub enum ClientReply {
    /// An init.
    Init {
        /// The body of its frame.
        body: Vec<u8>,
    },

    /// A response.
    Response {
        /// The body of its frame.
        body: Vec<u8>,
    },

    /// The outcome that the server sent, which ends the negotiation.
    Outcome(SaslOutcome),
}

impl fmt::Debug for ClientReply {
    /// Writes the lengths of bodies, which can hold a password, and the code of an outcome.
    fn fmt<W: fmt::Write>(&self, f: &mut fmt::Formatter<W>) -> fmt::Result {
        match self {
            ClientReply::Init { body } => {
                let len = body.len();
                write!(f, "Init {{ body: {len} bytes }}")
            }
            ClientReply::Response { body } => {
                let len = body.len();
                write!(f, "Response {{ body: {len} bytes }}")
            }
            ClientReply::Outcome(outcome) => {
                let code = outcome.code;
                write!(f, "Outcome {{ code: {code:?}, .. }}")
            }
        }
    }
}
