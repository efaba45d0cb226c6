//! Bodies of SASL frames: what they are read as, how long they are, and what is written for them.

use crate::replies::say_named;
use bytes::BytesMut;
use fe2o3_sasl_wire::*;
use std::fmt::Write;
use test_rows::{Row, call};

/// Says what a body is read as, how long that is, and what is written for its frame, or how the body is rejected.
pub fn answer(row: &mut Row<'_>) {
    let (alloc, body) = (row.alloc, row.digits());
    let copy = BytesMut::copy_from_slice(alloc, &body);
    let mut buffer = row.made(copy, BytesMut::new(alloc));
    let viewed = view_frame(&body);
    let decoded = call!(row: "FrameCodec::decode" => FrameCodec {}.decode(alloc, &mut buffer));
    match (viewed, decoded) {
        (Ok((view, len)), Ok(frame)) => {
            if body.get(len..) != Some(buffer.as_slice()) {
                row.refuse("decode takes another length");
            }
            say_read(row, view, len, frame);
        }
        (Err(fault), Err(error)) => {
            if fault != error || buffer.as_slice() != body.as_slice() {
                row.refuse("decode rejects otherwise, or takes what it rejects");
            }
            row.say("refused");
            row.show(&error);
        }
        (_, Err(error)) => row.show(&error),
        _ => row.refuse("view_frame and decode differ"),
    }
}

/// Says a frame that is read from a body, its length, and what is written for it after other bytes.
fn say_read(row: &mut Row<'_>, view: FrameView<'_>, len: usize, frame: Frame) {
    let mut written = BytesMut::new(row.alloc);
    let encoded = call!(row: "FrameCodec::encode" => FrameCodec {}.encode(frame, &mut written));
    row.say("read");
    row.say(len);
    say_fields(row, view);
    row.judge(&encoded, "written");
    row.say_digits(&written);
}

/// Says the kind of a frame and its fields.
fn say_fields(row: &mut Row<'_>, view: FrameView<'_>) {
    match view {
        FrameView::Mechanisms(symbols) if symbols.is_empty() => row.say("Mechanisms empty"),
        FrameView::Mechanisms(symbols) => say_names(row, &symbols),
        FrameView::Init {
            mechanism,
            initial_response,
            hostname,
        } => {
            say_named(row, "Init", mechanism.as_bytes());
            say_optional(row, initial_response);
            say_optional(row, hostname.map(|name| name.as_bytes()));
        }
        FrameView::Challenge(challenge) => say_named(row, "Challenge", challenge),
        FrameView::Response(response) => say_named(row, "Response", response),
        FrameView::Outcome {
            code,
            additional_data,
        } => {
            row.say("Outcome");
            row.show(&code);
            say_optional(row, additional_data);
        }
    }
}

/// Says the symbols of an offer, joined by commas.
fn say_names(row: &mut Row<'_>, symbols: &SymbolsView<'_>) {
    let mut names = String::new(row.alloc);
    for symbol in symbols.iter() {
        let digits = hex::encode(row.alloc, symbol.as_bytes());
        let digits = row.made(digits, String::new(row.alloc));
        let comma = if names.is_empty() { "" } else { "," };
        let digits = if digits.is_empty() { "-" } else { &digits };
        row.made(write!(names, "{comma}{digits}"), ());
    }
    row.say("Mechanisms");
    row.say(names);
}

/// Says a field that may be absent.
fn say_optional(row: &mut Row<'_>, bytes: Option<&[u8]>) {
    match bytes {
        Some(bytes) => row.say_digits(bytes),
        None => row.say("none"),
    }
}

/// Says a name and the canonical body of a frame.
pub fn say_frame(row: &mut Row<'_>, name: &str, frame: Frame) {
    let mut body = BytesMut::new(row.alloc);
    row.made(FrameCodec {}.encode(frame, &mut body), ());
    say_named(row, name, &body);
}

/// Returns the body of a frame: digits, `init MECHANISM [RESPONSE]`, `response TEXT` or `mechanisms NAME,..`.
pub fn body_of(row: &mut Row<'_>) -> Vec<u8> {
    let frame = if row.takes("init") {
        init_of(row)
    } else if row.takes("response") {
        let response = Binary(row.bytes());
        Some(Frame::Response(SaslResponse { response }))
    } else if row.takes("mechanisms") {
        mechanisms_of(row)
    } else {
        return row.digits();
    };
    let mut body = BytesMut::new(row.alloc);
    if let Some(frame) = frame {
        row.made(FrameCodec {}.encode(frame, &mut body), ());
    }
    row.made(body.into_vec(), Vec::new(row.alloc))
}

/// Returns the init of a mechanism.
fn init_of(row: &mut Row<'_>) -> Option<Frame> {
    let mechanism = Symbol::new(row.alloc, row.word());
    let mechanism = row.get(mechanism)?;
    let initial_response = if row.is_over() || row.takes("none") {
        None
    } else {
        Some(Binary(row.bytes()))
    };
    Some(Frame::Init(SaslInit {
        mechanism,
        initial_response,
        hostname: None,
    }))
}

/// Returns an offer of mechanisms.
fn mechanisms_of(row: &mut Row<'_>) -> Option<Frame> {
    let mut symbols = Vec::new(row.alloc);
    for name in row.word().split(',') {
        let symbol = row.get(Symbol::new(row.alloc, name))?;
        row.push(&mut symbols, symbol);
    }
    Some(Frame::Mechanisms(SaslMechanisms {
        sasl_server_mechanisms: Array(symbols),
    }))
}
