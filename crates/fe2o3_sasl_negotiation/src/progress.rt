//! The progress of a negotiation, and the next expected header or frame.

use fe2o3_sasl_core::ProfileError;
use fe2o3_sasl_wire::{Error, SaslCode};

/// Why a negotiation has failed.
#[derive(Clone, Copy, Debug, PartialEq, Eq, thiserror::Error)]
pub enum CloseReason {
    /// The other side's header is not that of SASL 1.0.0 (AMQP 1.0, part 5, section 5.3.2), but these eight bytes.
    ///
    /// Read them with [`ProtocolHeader::try_from`](fe2o3_sasl_wire::ProtocolHeader). A server that requires TLS first
    /// sends `AMQP 2 1 0 0`. A broker that accepts clients without SASL drops the eight bytes in `out`, and continues
    /// with AMQP after the received header.
    #[error("The header is not that of SASL")]
    ProtocolHeaderMismatch([u8; 8]),

    /// The size of a frame is below 8 or above the limit (AMQP 1.0, part 2, section 2.3.1; part 5, section 5.3.1). No
    /// byte after the size was taken.
    #[error("The frame size is out of range")]
    FrameSize,

    /// The body of a frame is malformed or not supported, or the answer has no body.
    #[error("The frame cannot be parsed")]
    MalformedFrame(Error),

    /// The frame is not the expected one (AMQP 1.0, part 5, section 5.3.2), such as a second init or a second list of
    /// mechanisms, and for a client that does not accept the server's signature in a challenge a second challenge.
    #[error("Unexpected frame")]
    UnexpectedFrame,

    /// The answer does not fit in a frame of 512 bytes.
    #[error("The reply does not fit in a frame")]
    ReplyTooLarge,

    /// The login was rejected by an outcome with this code, which a server has sent or a client has received.
    #[error("The login was rejected")]
    Refused(SaslCode),

    /// The client's mechanism rejects what the server sent.
    #[error("The server's message was rejected")]
    Mechanism(ProfileError),

    /// The other side ended its stream before the negotiation was complete
    /// ([`ConnectionSide::end_of_input`](crate::ConnectionSide)).
    #[error("The other side ended the stream before the negotiation was complete")]
    EndOfInput,
}

/// How far a negotiation is.
#[derive(Clone, Copy, Debug, PartialEq, Eq)]
pub enum Progress {
    /// The negotiation goes on: it needs more bytes, or those that a call has not taken.
    InProgress,

    /// The client is authenticated. The bytes that follow on the connection are AMQP's.
    Authenticated,

    /// The negotiation has failed. Send what was appended, and close the connection.
    Failed(CloseReason),
}

/// What a call of `receive` has taken, and the progress after it.
#[derive(Clone, Copy, Debug, PartialEq, Eq)]
pub struct Received {
    /// How many bytes the call took, from the front. While the progress is `InProgress`, pass the bytes that are left
    /// again, with a fresh nonce. Bytes after the last frame are AMQP's.
    pub taken: usize,

    /// The progress after the call.
    pub progress: Progress,
}

/// The frame that is expected.
#[derive(Clone, Copy, Debug, PartialEq, Eq)]
pub enum FrameKind {
    /// The server's list of mechanisms.
    Mechanisms,

    /// The client's init.
    Init,

    /// The server's challenge, or its outcome in place of one.
    Challenge,

    /// The client's response.
    Response,

    /// The server's outcome.
    Outcome,

    /// The server's signature in a challenge, or its outcome in place of one (RFC 4422, section 5): only for a client
    /// that accepts that ([`SaslProfile::accepts_signature_by_challenge`](fe2o3_sasl_core::SaslProfile)).
    SignatureChallenge,
}

/// The next expected header or frame.
#[derive(Clone, Copy, Debug, PartialEq, Eq)]
pub enum Expected {
    /// The other side's header.
    Header,

    /// A frame of this kind.
    Frame(FrameKind),
}
