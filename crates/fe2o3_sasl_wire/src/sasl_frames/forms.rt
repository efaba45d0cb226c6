//! The forms of encodings, the kinds of frames, and the bytes that name them (AMQP 1.0, part 1,
//! section 1.6, and part 5, section 5.3.3).

/// The byte before a descriptor.
pub(crate) const DESCRIBED: u8 = 0x00;

/// A field without a value.
pub(crate) const NULL: u8 = 0x40;

/// A list of no items.
pub(crate) const LIST_0: u8 = 0x45;

/// A list with size and count of one byte, or of four.
pub(crate) const LIST_8: u8 = 0xc0;

pub(crate) const LIST_32: u8 = 0xd0;

/// An array with size and count of one byte, or of four.
pub(crate) const ARRAY_8: u8 = 0xe0;

pub(crate) const ARRAY_32: u8 = 0xf0;

/// A number of one byte.
pub(crate) const UBYTE: u8 = 0x50;

/// A number of eight bytes, written as one byte, or as eight.
pub(crate) const SMALL_ULONG: u8 = 0x53;

pub(crate) const ULONG: u8 = 0x80;

/// A binary with a length of one byte, or of four.
pub(crate) const BINARY_8: u8 = 0xa0;

pub(crate) const BINARY_32: u8 = 0xb0;

/// A string with a length of one byte, or of four.
pub(crate) const STRING_8: u8 = 0xa1;

pub(crate) const STRING_32: u8 = 0xb1;

/// A symbol with a length of one byte, or of four.
pub(crate) const SYMBOL_8: u8 = 0xa3;

pub(crate) const SYMBOL_32: u8 = 0xb3;

/// The width of a size, a length or a count.
#[derive(Clone, Copy, Debug, PartialEq, Eq)]
pub enum Form {
    /// One byte.
    Eight,

    /// Four bytes.
    ThirtyTwo,
}

/// One of the five kinds of frames.
#[derive(Clone, Copy, Debug, PartialEq, Eq)]
pub enum Kind {
    /// The server's list of mechanisms.
    Mechanisms,

    /// The client's choice.
    Init,

    /// A challenge of the server.
    Challenge,

    /// The client's response.
    Response,

    /// The end of the negotiation.
    Outcome,
}
