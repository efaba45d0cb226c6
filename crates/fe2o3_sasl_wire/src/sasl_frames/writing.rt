//! Writes one encoding at the end of a buffer that has room for it. Nothing here allocates.

ghost use Rattle.std.specs.Prelude.{◌≡◌, ◌≤◌, ◌<◌, ◌+◌, ◌^◌, ◌-◌, ◌++◌, ◌∷◌, [], length, min, IsAscii};
ghost use Rattle.std.specs.List.{AllByRecursion};
ghost use Rattle.fe2o3_sasl_wire.specs.SaslFrames.{choice, limit, number, content, shortest, inner_form};
ghost use Rattle.fe2o3_sasl_wire.specs.private.Writing.{canonical_variable, canonical_array, width, elements};

use crate::amqp_types::Symbol;
use crate::sasl_frames::forms::{
    ARRAY_8, ARRAY_32, DESCRIBED, Form, LIST_8, LIST_32, SMALL_ULONG, SYMBOL_8, SYMBOL_32,
};
use crate::sasl_frames::{DATA_OFFSET, FRAME_TYPE_SASL};
use bytes::BytesMut;

/// Returns the form of a length or a size.
pub(crate) fn shortest(len: usize) -> Form
    ensures { result ≡ shortest len }
{
    if len < 256 {
        Form::Eight
    } else {
        Form::ThirtyTwo
    }
}

/// Returns how many bytes a size, a length or a count has.
pub(crate) fn width(form: Form) -> usize
    ensures { result ≡ width form }
{
    match form {
        Form::Eight => 1,
        Form::ThirtyTwo => 4,
    }
}

/// Returns the constructor of a form.
pub(crate) fn choice(short: u8, long: u8, form: Form) -> u8
    ensures { result ≡ choice short long form }
{
    match form {
        Form::Eight => short,
        Form::ThirtyTwo => long,
    }
}

/// Writes the bytes before the size of a frame's list: data offset, type, two zeros, and the descriptor with this code.
pub(crate) fn put_start(out: &mut BytesMut, code: u8, form: Form)
    requires { 8 ≤ out.old.spare }
    ensures items { out.new.items
        ≡ out.old.items ++ 2 ∷ 1 ∷ 0 ∷ 0 ∷ 0 ∷ 0x53 ∷ code ∷ choice 0xc0 0xd0 form ∷ [] }
    ensures spare { out.new.spare + 8 ≡ out.old.spare }
{
    let constructor = choice(LIST_8, LIST_32, form);
    out.extend_reserved(&[
        DATA_OFFSET,
        FRAME_TYPE_SASL,
        0,
        0,
        DESCRIBED,
        SMALL_ULONG,
        code,
        constructor,
    ]);
}

/// Writes a size, a length or a count.
pub(crate) fn put_number(out: &mut BytesMut, form: Form, n: u32)
    requires fits { n < limit form }
    requires room { width form ≤ out.old.spare }
    ensures items { out.new.items ≡ out.old.items ++ number form n }
    ensures spare { out.new.spare + width form ≡ out.old.spare }
{
    match form {
        Form::Eight => out.extend_reserved(&[n as u8]),
        Form::ThirtyTwo => out.extend_reserved(&n.to_be_bytes()),
    }
}

/// Writes a length, and that many bytes.
pub(crate) fn put_content(out: &mut BytesMut, form: Form, bytes: &[u8])
    requires fits { length bytes.now < limit form }
    requires room { width form + length bytes.now ≤ out.old.spare }
    ensures items { out.new.items ≡ out.old.items ++ content form bytes.now }
    ensures spare { out.new.spare + (width form + length bytes.now) ≡ out.old.spare }
{
    put_number(out, form, bytes.len() as u32);
    out.extend_reserved(bytes);
}

/// Returns the encoded length of a binary, a string or a symbol.
pub(crate) fn variable_len(bytes: &[u8]) -> usize
    ensures { result ≡ 1 + width (shortest (length bytes.now)) + length bytes.now }
{
    1 + width(shortest(bytes.len())) + bytes.len()
}

/// Writes a binary, a string or a symbol.
pub(crate) fn put_variable(out: &mut BytesMut, short: u8, long: u8, bytes: &[u8])
    requires fits { length bytes.now < 2 ^ 32 }
    requires room { length (canonical_variable short long bytes.now) ≤ out.old.spare }
    ensures items { out.new.items ≡ out.old.items ++ canonical_variable short long bytes.now }
    ensures spare { out.new.spare + length (canonical_variable short long bytes.now) ≡ out.old.spare }
{
    let form = shortest(bytes.len());
    out.extend_reserved(&[choice(short, long, form)]);
    put_content(out, form, bytes);
}

/// Returns the form of the elements of an array.
fn inner_form(symbols: &[Symbol]) -> Form
    ensures { result ≡ inner_form symbols.now }
{
    for symbol in symbols {
        if symbol.as_str().len() >= 256 {
            return Form::ThirtyTwo;
        }
    }
    Form::Eight
}

/// Returns the encoded length of the elements, or the largest number if that is larger.
fn elements_len(form: Form, symbols: &[Symbol]) -> usize
    ensures len { result ≡ min (length (elements form symbols.now)) (2 ^ 64 - 1) }
    ensures ascii { AllByRecursion IsAscii symbols.now }
{
    let mut len = 0usize;
    for symbol in symbols {
        len = len
            .saturating_add(width(form))
            .saturating_add(symbol.as_str().len());
    }
    len
}

/// Writes symbols without their constructor.
fn put_elements(out: &mut BytesMut, form: Form, symbols: &[Symbol])
    requires fits { AllByRecursion (λ name. length name < limit form) symbols.now }
    requires room { length (elements form symbols.now) ≤ out.old.spare }
    ensures items { out.new.items ≡ out.old.items ++ elements form symbols.now }
    ensures spare { out.new.spare + length (elements form symbols.now) ≡ out.old.spare }
{
    for symbol in symbols {
        put_content(out, form, symbol.as_str().as_bytes());
    }
}

/// Returns the encoded length of an array of symbols, or the largest number if that is larger.
pub(crate) fn array_len(symbols: &[Symbol]) -> usize
    ensures len { result ≡ min (length (canonical_array symbols.now)) (2 ^ 64 - 1) }
    ensures ascii { AllByRecursion IsAscii symbols.now }
{
    let len = elements_len(inner_form(symbols), symbols);
    let form = shortest(len.saturating_add(2));
    len.saturating_add(2 + 2 * width(form))
}

/// Writes an array of symbols.
pub(crate) fn put_array(out: &mut BytesMut, symbols: &[Symbol])
    requires fits { length (canonical_array symbols.now) < 2 ^ 32 }
    requires room { length (canonical_array symbols.now) ≤ out.old.spare }
    ensures items { out.new.items ≡ out.old.items ++ canonical_array symbols.now }
    ensures spare { out.new.spare + length (canonical_array symbols.now) ≡ out.old.spare }
{
    let inner = inner_form(symbols);
    let len = elements_len(inner, symbols);
    let form = shortest(2 + len);
    out.extend_reserved(&[choice(ARRAY_8, ARRAY_32, form)]);
    put_number(out, form, (width(form) + 1 + len) as u32);
    put_number(out, form, symbols.len() as u32);
    out.extend_reserved(&[choice(SYMBOL_8, SYMBOL_32, inner)]);
    put_elements(out, inner, symbols);
}
