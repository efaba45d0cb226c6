//! The bodies of one side: those that it received, and its answers.

ghost use Rattle.std.specs.Prelude.{◌≡◌, ◌≢◌, ℕ, List, length, Ok, IfOk, MatchOption};
ghost use Rattle.base64.specs.Engines.{standard};
ghost use Rattle.base64.specs.GeneralPurpose.{decode_of};

use base64::DecodeAllocError;
use base64::engine::general_purpose::STANDARD;
use fe2o3_sasl::Event;
use fe2o3_sasl_wire::{FrameView, SaslCode, view_frame};
use fe2o3_scram::ScramVersion;
use scram_base_lib::explain::Heard;
use scram_base_lib::stop::Stop;
use std::alloc::{AllocError, Global};
use std::io::Write;

/// A body that a side received.
#[derive(Drop)]
pub struct Given {
    /// The line number in the input.
    pub line: u64,

    /// The user of the last init up to this body, not escaped.
    pub user: String,

    /// Whether the body needs an answer and has none yet.
    is_open: bool,

    /// The message of the answer, if that continues a login.
    pub answer: Option<Vec<u8>>,
}

/// The login that a client starts.
#[derive(Drop)]
pub struct Asked {
    /// The user, not escaped.
    pub user: String,

    /// The mechanism.
    pub version: ScramVersion,
}

/// The bodies of one side.
#[derive(Drop)]
pub struct Half {
    /// Whether the side is the client.
    pub is_client: bool,

    /// What the messages so far contain.
    heard: Heard,

    /// The side's own nonce, of its last message that has one.
    nonce: [u8; 32],

    /// The message of an answer that the input has before the answered body.
    early: Option<Vec<u8>>,

    /// The login of the inits, if one is of a SCRAM mechanism.
    pub asked: Option<Asked>,

    /// Why the bodies cannot be audited, if they cannot.
    pub unfit: Option<Stop>,

    /// The bodies that the side received, each with the nonce of the answer.
    pub events: Vec<Event>,

    /// What else is known of each received body.
    pub given: Vec<Given>,
}

impl Half {
    /// Returns a side without a body.
    pub fn new(alloc: Global, is_client: bool) -> Half {
        let name = if is_client { "client: " } else { "server: " };
        Half {
            is_client,
            heard: Heard::new(alloc, name),
            nonce: [0; 32],
            early: None,
            asked: None,
            unfit: None,
            events: Vec::new(alloc),
            given: Vec::new(alloc),
        }
    }

    /// Prints what a body says, and records that the side received it or sent it.
    pub fn take<O: Write>(
        &mut self,
        alloc: Global,
        line: u64,
        body: Vec<u8>,
        output: &mut O,
    ) -> Result<(), Stop> {
        self.heard.body(alloc, &body, output)?;
        let Ok((view, _)) = view_frame(&body) else {
            return Ok(());
        };
        if self.is_client != is_of_server(&view) {
            return self.send(alloc, &view);
        }
        let is_open = !matches!(view, FrameView::Outcome { .. });
        self.receive(line, is_open, body)
    }

    /// Records a body that the side received.
    fn receive(&mut self, line: u64, is_open: bool, body: Vec<u8>) -> Result<(), Stop> {
        let user = self.heard.user.clone()?;
        let answer = if is_open { self.early.take() } else { None };
        let is_open = is_open && answer.is_none();
        self.given.push(Given {
            line,
            user,
            is_open,
            answer,
        })?;
        let nonce = self.nonce;
        self.events.push(Event { body, nonce })?;
        Ok(())
    }

    /// Records a body that the side sent.
    fn send(&mut self, alloc: Global, view: &FrameView<'_>) -> Result<(), Stop> {
        match view {
            FrameView::Mechanisms(_) => return Ok(()),
            FrameView::Init {
                mechanism,
                initial_response: Some(_),
                ..
            } => self.ask(alloc, mechanism)?,
            FrameView::Challenge(_) => self.challenge(alloc)?,
            _ => {}
        }
        let text = match text_of(view) {
            Some(text) => Some(text.to_vec(alloc)?),
            None => None,
        };
        self.answer(text);
        Ok(())
    }

    /// Records the message of an answer: to the last body, if that has no answer yet, and otherwise to the next.
    fn answer(&mut self, text: Option<Vec<u8>>) {
        match (self.given.last_mut(), self.events.last_mut()) {
            (Some(given), Some(event)) if given.is_open => {
                given.is_open = false;
                given.answer = text;
                event.nonce = self.nonce;
            }
            _ => self.early = text,
        }
    }

    /// Records the login of an init, and its nonce.
    fn ask(&mut self, alloc: Global, mechanism: &str) -> Result<(), Stop> {
        let nonce = bytes_of(alloc, &self.heard.client_nonce)?;
        self.keep(nonce);
        let Some(version) = ScramVersion::from_mechanism(mechanism) else {
            return Ok(());
        };
        match &self.asked {
            Some(asked) if asked.version == version && asked.user == self.heard.user => {}
            Some(_) => self.unfit = Some(Stop::TwoLogins),
            None => {
                let user = self.heard.user.as_str().to_string(alloc)?;
                self.asked = Some(Asked { user, version });
            }
        }
        Ok(())
    }

    /// Records the server's nonce of a challenge.
    fn challenge(&mut self, alloc: Global) -> Result<(), Stop> {
        let nonce = match self.heard.server_nonce() {
            Some(nonce) => bytes_of(alloc, nonce)?,
            None => None,
        };
        self.keep(nonce);
        Ok(())
    }

    /// Records a nonce, or that the bodies cannot be audited if it does not have 32 bytes.
    fn keep(&mut self, nonce: Option<[u8; 32]>) {
        match nonce {
            Some(nonce) => self.nonce = nonce,
            None => self.unfit = Some(Stop::OtherNonces),
        }
    }
}

/// Decodes a nonce in base64. Returns `None` if it is not the base64 of 32 bytes.
fn bytes_of(alloc: Global, nonce: &str) -> Result<Option<[u8; 32]>, AllocError>
    ensures { IfOk result (λ found. MatchOption found
        ((bytes : List ℕ) → decode_of standard nonce.now ≡ Ok bytes → length bytes ≢ 32)
        (λ bytes. decode_of standard nonce.now ≡ Ok bytes)) }
{
    match STANDARD.decode(alloc, nonce.as_bytes()) {
        Ok(bytes) => Ok(array_of(&bytes)),
        Err(DecodeAllocError::DecodeError(_)) => Ok(None),
        Err(DecodeAllocError::OutOfMemory) => Err(AllocError),
    }
}

/// Returns the bytes as an array, or `None` if they are not 32.
fn array_of(bytes: &[u8]) -> Option<[u8; 32]>
    ensures { MatchOption result (length bytes.now ≢ 32) (λ array. array ≡ bytes.now) }
{
    <[u8; 32]>::try_from(bytes).ok()
}

/// Returns whether a server sends the frame (AMQP 1.0, part 5, section 5.3.2).
pub fn is_of_server(view: &FrameView<'_>) -> bool {
    match view {
        FrameView::Mechanisms(_) | FrameView::Challenge(_) | FrameView::Outcome { .. } => true,
        FrameView::Init { .. } | FrameView::Response(_) => false,
    }
}

/// Returns the message in a frame that continues a login, or ends it with `Ok`.
pub fn text_of<'a>(view: &FrameView<'a>) -> Option<&'a [u8]> {
    match view {
        FrameView::Init {
            initial_response,
            ..
        } => *initial_response,
        FrameView::Challenge(text) | FrameView::Response(text) => Some(*text),
        FrameView::Outcome {
            code: SaslCode::Ok,
            additional_data,
        } => *additional_data,
        FrameView::Mechanisms(_) | FrameView::Outcome { .. } => None,
    }
}
