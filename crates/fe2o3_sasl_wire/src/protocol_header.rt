//! The eight bytes that each side of a connection sends first (AMQP 1.0, part 2, section 2.2). Only `to_bytes` and
//! `encode` allocate.

ghost use Rattle.std.specs.Prelude.{◌≡◌, ◌==◌, ◌↔◌, ◌++◌, ⊤, IsTrue, IfOk, OnOk, OnErr, bytes_eq};
ghost use Rattle.std.specs.Cmp.{on_per, on_equiv, partial_equiv_from_equiv, nat_eq_equiv};
ghost use Rattle.std.specs.Cmp.Lexicographic.{nat_list_eq_equiv};
ghost use Rattle.fe2o3_sasl_wire.specs.declared.protocol_header.ProtocolId.TheVariants.{Amqp, Sasl, Tls};
ghost use Rattle.fe2o3_sasl_wire.specs.ProtocolHeader.{id_byte, header_bytes, first_version, DecodesId, DecodesHeader, DecodesSlice, DecodesBuffer};

use crate::OutOfMemory;
use bytes::{Bytes, BytesMut};
use std::alloc::{AllocError, Global};
use thiserror::Error;

const PROTOCOL_HEADER_PREFIX: [u8; 4] = *b"AMQP";

/// The version that the constructors write, 1.0.0 (AMQP 1.0, part 2, section 2.8).
const MAJOR: u8 = 1;

const MINOR: u8 = 0;

const REVISION: u8 = 0;

/// A protocol header (AMQP 1.0, part 2, section 2.2). Every version is read; the constructors write
/// 1.0.0.
#[derive(Copy, Debug)]
pub struct ProtocolHeader {
    /// The protocol that follows.
    pub id: ProtocolId,

    /// The major version.
    pub major: u8,

    /// The minor version.
    pub minor: u8,

    /// The revision.
    pub revision: u8,
}

impl Clone for ProtocolHeader {
    ghost is_clone = { λ header copy. copy ≡ header };

    ghost is_infallible = { λ _. ⊤ };

    fn clone(&self) -> Result<ProtocolHeader, AllocError> {
        Ok(*self)
    }
}

impl PartialEq for ProtocolHeader {
    ghost eq = { λ left right. bytes_eq (header_bytes left) (header_bytes right) };

    ghost laws = { on_per header_bytes (partial_equiv_from_equiv nat_list_eq_equiv) };

    fn eq(&self, other: &ProtocolHeader) -> bool {
        self.id == other.id
            && self.major == other.major
            && self.minor == other.minor
            && self.revision == other.revision
    }
}

impl Eq for ProtocolHeader {
    ghost laws = { on_equiv header_bytes nat_list_eq_equiv };
}

/// Returns the header of AMQP.
impl Default for ProtocolHeader {
    ghost is_default = { λ header. header ≡ first_version Amqp };

    fn default() -> Self {
        ProtocolHeader::new(ProtocolId::Amqp, MAJOR, MINOR, REVISION)
    }
}

impl ProtocolHeader {
    /// Returns a header with these four values.
    pub fn new(id: ProtocolId, major: u8, minor: u8, revision: u8) -> Self
        ensures { result ≡ record { id = id; major = major; minor = minor; revision = revision } }
    {
        ProtocolHeader {
            id,
            major,
            minor,
            revision,
        }
    }

    /// Returns the header of AMQP 1.0.0.
    pub fn amqp() -> Self
        ensures { result ≡ first_version Amqp }
    {
        ProtocolHeader::new(ProtocolId::Amqp, MAJOR, MINOR, REVISION)
    }

    /// Returns whether AMQP follows.
    pub fn is_amqp(&self) -> bool
        ensures { IsTrue result ↔ (self.now.id ≡ Amqp) }
    {
        self.id == ProtocolId::Amqp
    }

    /// Returns the header of TLS 1.0.0.
    pub fn tls() -> Self
        ensures { result ≡ first_version Tls }
    {
        ProtocolHeader::new(ProtocolId::Tls, MAJOR, MINOR, REVISION)
    }

    /// Returns whether TLS follows.
    pub fn is_tls(&self) -> bool
        ensures { IsTrue result ↔ (self.now.id ≡ Tls) }
    {
        self.id == ProtocolId::Tls
    }

    /// Returns the header of SASL 1.0.0.
    pub fn sasl() -> Self
        ensures { result ≡ first_version Sasl }
    {
        ProtocolHeader::new(ProtocolId::Sasl, MAJOR, MINOR, REVISION)
    }

    /// Returns whether SASL follows.
    pub fn is_sasl(&self) -> bool
        ensures { IsTrue result ↔ (self.now.id ≡ Sasl) }
    {
        self.id == ProtocolId::Sasl
    }

    /// Returns the eight bytes of the header: "AMQP", the protocol, major, minor and revision (AMQP 1.0, part 2,
    /// section 2.2). OutOfMemory if allocation fails; `<[u8; 8]>::from` needs none.
    pub fn to_bytes(self, alloc: Global) -> Result<Bytes, OutOfMemory>
        ensures { IfOk result (λ bytes. bytes ≡ header_bytes self) }
    {
        Bytes::copy_from_slice(alloc, &<[u8; 8]>::from(self))
    }
}

impl From<ProtocolHeader> for [u8; 8] {
    ghost from_gives = { λ header bytes. bytes ≡ header_bytes header };

    fn from(value: ProtocolHeader) -> Self {
        let [a, m, q, p] = PROTOCOL_HEADER_PREFIX;
        let id = value.id as u8;
        [a, m, q, p, id, value.major, value.minor, value.revision]
    }
}

impl TryFrom<[u8; 8]> for ProtocolHeader {
    type Error = [u8; 8];

    ghost try_from_gives = { DecodesHeader };

    /// Returns the bytes themselves as the error if they are no header.
    fn try_from(value: [u8; 8]) -> Result<Self, [u8; 8]> {
        let [b'A', b'M', b'Q', b'P', id, major, minor, revision] = value else {
            return Err(value);
        };
        match ProtocolId::try_from(id) {
            Ok(id) => Ok(ProtocolHeader::new(id, major, minor, revision)),
            Err(_) => Err(value),
        }
    }
}

impl<'a> TryFrom<&'a [u8]> for ProtocolHeader {
    type Error = &'a [u8];

    ghost try_from_gives = { DecodesSlice };

    /// Returns the slice itself as the error if it is no header, for example if it does not have eight bytes.
    fn try_from(value: &'a [u8]) -> Result<Self, &'a [u8]> {
        if value.len() != 8 {
            return Err(value);
        }
        let mut bytes = [0; 8];
        bytes.copy_from_slice(value);
        match ProtocolHeader::try_from(bytes) {
            Ok(header) => Ok(header),
            Err(_) => Err(value),
        }
    }
}

impl TryFrom<Bytes> for ProtocolHeader {
    type Error = Bytes;

    ghost try_from_gives = { DecodesHeader };

    /// Returns the bytes themselves as the error if they are no header, for example if there are not eight.
    fn try_from(value: Bytes) -> Result<Self, Bytes> {
        match ProtocolHeader::try_from(value.as_slice()) {
            Ok(header) => Ok(header),
            Err(_) => Err(value),
        }
    }
}

/// The protocol of a header (AMQP 1.0, part 2, section 2.2; part 5, sections 5.2 and 5.3).
#[derive(Copy, Debug)]
pub enum ProtocolId {
    /// AMQP.
    Amqp = 0x0,

    /// TLS.
    Tls = 0x2,

    /// SASL.
    Sasl = 0x3,
}

impl Clone for ProtocolId {
    ghost is_clone = { λ id copy. copy ≡ id };

    ghost is_infallible = { λ _. ⊤ };

    fn clone(&self) -> Result<ProtocolId, AllocError> {
        Ok(*self)
    }
}

impl PartialEq for ProtocolId {
    ghost eq = { λ left right. id_byte left == id_byte right };

    ghost laws = { on_per id_byte (partial_equiv_from_equiv nat_eq_equiv) };

    fn eq(&self, other: &ProtocolId) -> bool {
        *self as u8 == *other as u8
    }
}

impl Eq for ProtocolId {
    ghost laws = { on_equiv id_byte nat_eq_equiv };
}

impl TryFrom<u8> for ProtocolId {
    type Error = u8;

    ghost try_from_gives = { DecodesId };

    /// Returns the byte itself as the error if it is no protocol.
    fn try_from(value: u8) -> Result<Self, u8> {
        match value {
            0x0 => Ok(ProtocolId::Amqp),
            0x2 => Ok(ProtocolId::Tls),
            0x3 => Ok(ProtocolId::Sasl),
            _ => Err(value),
        }
    }
}

/// Why a negotiation ends.
#[derive(Clone, Copy, Debug, PartialEq, Eq, Error)]
pub enum NegotiationError {
    /// These eight bytes arrived where a header was expected. They were taken from the buffer.
    #[error("Protocol header mismatch")]
    ProtocolHeaderMismatch([u8; 8]),
}

/// Reads and writes protocol headers (AMQP 1.0, part 2, section 2.2).
#[derive(Debug, Drop)]
pub struct ProtocolHeaderCodec {}

impl Clone for ProtocolHeaderCodec {
    ghost is_clone = { λ codec copy. copy ≡ codec };

    ghost is_infallible = { λ _. ⊤ };

    fn clone(&self) -> Result<ProtocolHeaderCodec, AllocError> {
        Ok(ProtocolHeaderCodec {})
    }
}

impl ProtocolHeaderCodec {
    /// Returns a codec. It holds nothing, so all codecs are equal.
    pub fn new() -> Self {
        ProtocolHeaderCodec {}
    }

    /// Appends the eight bytes of the header. OutOfMemory if allocation fails, and then the buffer is unchanged.
    pub fn encode(&mut self, item: ProtocolHeader, dst: &mut BytesMut) -> Result<(), OutOfMemory>
        ensures ok { OnOk result (dst.new.items ≡ dst.old.items ++ header_bytes item) }
        ensures err { OnErr result (dst.new.items ≡ dst.old.items) }
    {
        dst.extend_from_slice(&<[u8; 8]>::from(item))
    }

    /// Takes eight bytes from the front and returns their header. Of fewer than eight bytes it takes none and returns
    /// None. ProtocolHeaderMismatch, with the eight bytes, if they are no header; they are taken then too.
    pub fn decode(&mut self, src: &mut BytesMut) -> Result<Option<ProtocolHeader>, NegotiationError>
        ensures { DecodesBuffer src.old.items src.new.items result }
    {
        if src.len() < 8 {
            return Ok(None);
        }
        let mut bytes = [0; 8];
        bytes.copy_from_slice(&src.as_slice()[..8]);
        src.advance(8);
        match ProtocolHeader::try_from(bytes) {
            Ok(header) => Ok(Some(header)),
            Err(bytes) => Err(NegotiationError::ProtocolHeaderMismatch(bytes)),
        }
    }
}

impl Default for ProtocolHeaderCodec {
    fn default() -> Self {
        ProtocolHeaderCodec::new()
    }
}
