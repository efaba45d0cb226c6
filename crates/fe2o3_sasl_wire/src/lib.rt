//! The bytes that open an AMQP 1.0 connection: protocol headers and the five SASL frames, after `fe2o3-amqp` 0.18.4.
//!
//! [`view_frame`] reads a frame in place, without an allocation. [`FrameCodec`] reads owned frames, and writes frames.
#![tactic(auto)]

pub mod amqp_types;
mod hidden;
pub mod laws;
pub mod protocol_header;
pub mod sasl_frames;

pub use amqp_types::{
    Array, Binary, SaslChallenge, SaslCode, SaslInit, SaslMechanisms, SaslOutcome, SaslResponse,
    Symbol, SymbolError,
};
pub use protocol_header::{NegotiationError, ProtocolHeader, ProtocolHeaderCodec, ProtocolId};
pub use sasl_frames::{Error, Frame, FrameCodec, FrameView, SymbolsIter, SymbolsView, view_frame};
pub use std::alloc::AllocError as OutOfMemory;
