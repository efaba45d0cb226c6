//! The lines of an audit, each with a side and a body that it received or sent.

use crate::sides::half::{Half, is_of_server};
use bytes::BytesMut;
use fe2o3_sasl_wire::{Array, Error, Frame, FrameCodec, FrameView, SaslMechanisms, view_frame};
use scram_base_lib::input;
use scram_base_lib::stop::Stop;
use scram_base_lib::wire::hex_bytes;
use std::alloc::Global;
use std::io::{BufRead, Write};

/// A line of the input.
#[derive(Drop)]
pub struct Line {
    /// Its number, counted from 1.
    pub number: u64,

    /// Whether its side is the client.
    pub is_client: bool,

    /// The body of a frame.
    pub body: Vec<u8>,
}

impl Line {
    /// Parses a line: a side, a space, and a body in hexadecimal.
    fn parse(alloc: Global, number: u64, text: &str) -> Result<Line, Stop> {
        let (is_client, digits) = match text.split_once(' ') {
            Some(("client", digits)) => (true, digits),
            Some(("server", digits)) => (false, digits),
            _ => return Err(Stop::NoSide),
        };
        Ok(Line {
            number,
            is_client,
            body: hex_bytes(alloc, digits, Stop::NotHex)?,
        })
    }

    /// Returns whether the body is one that its side sends.
    pub fn is_sent(&self) -> bool {
        match view_frame(&self.body) {
            Ok((view, _)) => self.is_client != is_of_server(&view),
            Err(_) => false,
        }
    }

    /// Returns whether the body is a list of mechanisms, with which a login begins.
    pub fn is_offer(&self) -> bool {
        matches!(view_frame(&self.body), Ok((FrameView::Mechanisms(_), _)))
    }

    /// Returns the body of a list with only the mechanism of the init that this body is, or `None` if it is none.
    pub fn offer(&self, alloc: Global) -> Result<Option<Vec<u8>>, Stop> {
        let Ok((view, _)) = view_frame(&self.body) else {
            return Ok(None);
        };
        let init = match view.to_frame(alloc) {
            Ok(Frame::Init(init)) => init,
            Err(Error::OutOfMemory) => return Err(Stop::OutOfMemory),
            _ => return Ok(None),
        };
        let mut names = Vec::new(alloc);
        names.push(init.mechanism)?;
        let offer = SaslMechanisms {
            sasl_server_mechanisms: Array(names),
        };
        let mut body = BytesMut::new(alloc);
        match (FrameCodec {}).encode(Frame::Mechanisms(offer), &mut body) {
            Ok(()) => Ok(Some(body.into_vec()?)),
            Err(_) => Err(Stop::OutOfMemory),
        }
    }

    /// Passes the body to the side that received it, and then to the side that sent it, of which nothing is printed.
    pub fn pass<O: Write>(
        &self,
        alloc: Global,
        receiver: &mut Half,
        sender: &mut Half,
        output: &mut O,
    ) -> Result<(), Stop> {
        let taken = receiver.take(alloc, self.number, self.body.clone()?, output);
        taken.map_err(|stop| stop.at_line(self.number))?;
        let mut unseen = Vec::new(alloc);
        match sender.take(alloc, self.number, self.body.clone()?, &mut unseen) {
            // The sender did not send this, or it would not be rejected.
            Err(Stop::MessageRefused) => Ok(()),
            taken => taken,
        }
    }
}

/// Reads the lines after the password, up to one that is not valid, whose error is returned.
pub fn read<I: BufRead>(alloc: Global, input: &mut I, lines: &mut Vec<Line>) -> Result<(), Stop> {
    for number in 2..u64::MAX {
        let Some(text) = input::next_line(alloc, input)? else {
            break;
        };
        let line = Line::parse(alloc, number, &text).map_err(|stop| stop.at_line(number))?;
        lines.push(line)?;
    }
    Ok(())
}
