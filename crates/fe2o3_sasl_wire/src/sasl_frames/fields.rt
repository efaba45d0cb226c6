//! The fields of a frame to be written. Nothing here allocates.

ghost use Rattle.std.specs.Prelude.{◌≡◌, ◌≤◌, ◌<◌, ◌+◌, ◌^◌, ◌-◌, ◌++◌, length, map, min, option_map, string_bytes};
ghost use Rattle.std.specs.List.{flat_map, AllByRecursion};
ghost use Rattle.fe2o3_sasl_wire.specs.SaslFrames.{fields_of, optional, Binary as BinaryField, Text as TextField, canonical_field, IsText};
ghost use Rattle.fe2o3_sasl_wire.specs.private.Kinds.{code_of, kind_of};
ghost use Rattle.fe2o3_sasl_wire.specs.private.Writing.{count_of};
ghost use Rattle.fe2o3_sasl_wire.specs.AmqpTypes.{binary_bytes};
ghost use Rattle.fe2o3_sasl_wire.specs.Owned.{owned_frame};
ghost use Rattle.fe2o3_sasl_wire.specs.private.Fields.{shown_field, filled};

use crate::amqp_types::{Binary, Symbol};
use crate::sasl_frames::Frame;
use crate::sasl_frames::forms::{
    BINARY_8, BINARY_32, NULL, STRING_8, STRING_32, SYMBOL_8, SYMBOL_32, UBYTE,
};
use crate::sasl_frames::writing::{array_len, put_array, put_variable, variable_len};
use bytes::BytesMut;

/// A field of a frame.
#[derive(Clone, Copy)]
pub(crate) enum Field<'a> {
    /// No value.
    Null,

    /// A number of one byte.
    Ubyte(u8),

    /// Bytes.
    Binary(&'a [u8]),

    /// A string.
    Text(&'a str),

    /// A symbol.
    Symbol(&'a Symbol),

    /// Symbols.
    Symbols(&'a [Symbol]),
}

/// Returns the code of the frame's descriptor.
pub(crate) fn code_of(frame: &Frame) -> u8
    ensures { result ≡ code_of (kind_of (owned_frame frame.now)) }
{
    match frame {
        Frame::Mechanisms(_) => 0x40,
        Frame::Init(_) => 0x41,
        Frame::Challenge(_) => 0x42,
        Frame::Response(_) => 0x43,
        Frame::Outcome(_) => 0x44,
    }
}

/// Returns the binary, or null.
fn optional_binary(binary: &Option<Binary>) -> Field<'_>
    ensures { shown_field result ≡ optional BinaryField (option_map binary_bytes binary.now) }
{
    match binary {
        Some(binary) => Field::Binary(&binary.0),
        None => Field::Null,
    }
}

/// Returns the string, or null.
fn optional_text(text: &Option<String>) -> Field<'_>
    ensures { shown_field result ≡ optional TextField (option_map string_bytes text.now) }
{
    match text {
        Some(text) => Field::Text(text.as_str()),
        None => Field::Null,
    }
}

/// Returns the fields of the frame, followed by nulls up to three.
pub(crate) fn fields_of(frame: &Frame) -> [Field<'_>; 3]
    ensures { map shown_field result ≡ filled (fields_of (owned_frame frame.now)) }
{
    match frame {
        Frame::Mechanisms(mechanisms) => [
            Field::Symbols(&mechanisms.sasl_server_mechanisms.0),
            Field::Null,
            Field::Null,
        ],
        Frame::Init(init) => [
            Field::Symbol(&init.mechanism),
            optional_binary(&init.initial_response),
            optional_text(&init.hostname),
        ],
        Frame::Challenge(challenge) => [
            Field::Binary(&challenge.challenge.0),
            Field::Null,
            Field::Null,
        ],
        Frame::Response(response) => [
            Field::Binary(&response.response.0),
            Field::Null,
            Field::Null,
        ],
        Frame::Outcome(outcome) => [
            Field::Ubyte(outcome.code as u8),
            optional_binary(&outcome.additional_data),
            Field::Null,
        ],
    }
}

/// Returns how many fields there are up to the last one with a value.
pub(crate) fn count_of(frame: &Frame) -> usize
    ensures count { result ≡ count_of (owned_frame frame.now) }
    ensures most { result ≤ 3 }
{
    match frame {
        Frame::Mechanisms(_) | Frame::Challenge(_) | Frame::Response(_) => 1,
        Frame::Init(init) => match (&init.initial_response, &init.hostname) {
            (_, Some(_)) => 3,
            (Some(_), None) => 2,
            (None, None) => 1,
        },
        Frame::Outcome(outcome) => match outcome.additional_data {
            Some(_) => 2,
            None => 1,
        },
    }
}

/// Returns the encoded length of a field, or the largest number if that is larger.
fn field_len(field: Field<'_>) -> usize
    ensures len { result ≡ min (length (canonical_field (shown_field field.entry))) (2 ^ 64 - 1) }
    ensures texts { IsText (shown_field field.entry) }
{
    match field {
        Field::Null => 1,
        Field::Ubyte(_) => 2,
        Field::Binary(bytes) => variable_len(bytes),
        Field::Text(text) => variable_len(text.as_bytes()),
        Field::Symbol(symbol) => variable_len(symbol.as_str().as_bytes()),
        Field::Symbols(symbols) => array_len(symbols),
    }
}

/// Returns the encoded length of the fields, or the largest number if that is larger.
pub(crate) fn items_len(fields: &[Field<'_>]) -> usize
    ensures len { result ≡ min (length (flat_map canonical_field (map shown_field fields.now))) (2 ^ 64 - 1) }
    ensures texts { AllByRecursion IsText (map shown_field fields.now) }
{
    let mut len = 0usize;
    for field in fields {
        len = len.saturating_add(field_len(*field));
    }
    len
}

/// Writes a field.
fn put_field(out: &mut BytesMut, field: Field<'_>)
    requires fits { length (canonical_field (shown_field field)) < 2 ^ 32 }
    requires room { length (canonical_field (shown_field field)) ≤ out.old.spare }
    ensures items { out.new.items ≡ out.old.items ++ canonical_field (shown_field field.entry) }
    ensures spare { out.new.spare + length (canonical_field (shown_field field.entry)) ≡ out.old.spare }
{
    match field {
        Field::Null => out.extend_reserved(&[NULL]),
        Field::Ubyte(number) => out.extend_reserved(&[UBYTE, number]),
        Field::Binary(bytes) => put_variable(out, BINARY_8, BINARY_32, bytes),
        Field::Text(text) => put_variable(out, STRING_8, STRING_32, text.as_bytes()),
        Field::Symbol(symbol) => {
            put_variable(out, SYMBOL_8, SYMBOL_32, symbol.as_str().as_bytes())
        }
        Field::Symbols(symbols) => put_array(out, symbols),
    }
}

/// Writes the fields in order.
pub(crate) fn put_items(out: &mut BytesMut, fields: &[Field<'_>])
    requires fits { length (flat_map canonical_field (map shown_field fields.now)) < 2 ^ 32 }
    requires room { length (flat_map canonical_field (map shown_field fields.now)) ≤ out.old.spare }
    ensures items { out.new.items ≡ out.old.items ++ flat_map canonical_field (map shown_field fields.now) }
{
    for field in fields {
        put_field(out, *field);
    }
}
