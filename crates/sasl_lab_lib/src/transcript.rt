//! The input of `audit`: a line `c NONCE BODY` for each event of the client and a line
//! `s NONCE BODY` for each event of the server, in hexadecimal. The body `-` is empty.

use crate::stop::Stop;
use fe2o3_sasl::{Event, EventError};
use std::alloc::Global;

/// The events of both sides, in order.
#[derive(Debug, Drop)]
pub struct Transcript {
    /// The events of the client.
    pub client: Vec<Event>,

    /// The events of the server.
    pub server: Vec<Event>,
}

impl Transcript {
    /// Parses the input, whose last line feed may be missing. The errors are `WrongLine` of the first
    /// line that is not an event, and `OutOfMemory`.
    pub fn from_input(alloc: Global, input: &str) -> Result<Transcript, Stop> {
        let mut transcript = Transcript {
            client: Vec::new(alloc),
            server: Vec::new(alloc),
        };
        if input.is_empty() {
            return Ok(transcript);
        }
        // `lines` would strip a carriage return at the end of a line.
        for line in input.strip_suffix('\n').unwrap_or(input).split('\n') {
            transcript.push_line(alloc, line)?;
        }
        Ok(transcript)
    }

    /// Adds the event of a line. Each line before gave one event, so the events count the lines.
    fn push_line(&mut self, alloc: Global, line: &str) -> Result<(), Stop> {
        let number = self.client.len() + self.server.len() + 1;
        let (side, words) = line.split_once(' ').ok_or(Stop::WrongLine(number))?;
        let event = match read_event(alloc, words) {
            Ok(event) => event,
            Err(EventError::Invalid) => return Err(Stop::WrongLine(number)),
            Err(EventError::OutOfMemory) => return Err(Stop::OutOfMemory),
        };
        match side {
            "c" => self.client.push(event)?,
            "s" => self.server.push(event)?,
            _ => return Err(Stop::WrongLine(number)),
        }
        Ok(())
    }
}

/// Parses the nonce and the body of an event. A line without digits for its body is invalid: an empty
/// body is `-`.
fn read_event(alloc: Global, words: &str) -> Result<Event, EventError> {
    let (nonce, body) = words.split_once(' ').ok_or(EventError::Invalid)?;
    let digits = match body {
        "" => return Err(EventError::Invalid),
        "-" => "",
        digits => digits,
    };
    Event::from_hex(alloc, nonce, digits)
}
