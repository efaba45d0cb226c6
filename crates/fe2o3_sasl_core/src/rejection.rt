//! Why a login is rejected, for the server's log.

use fe2o3_scram::scram_messages::ServerScramErrorKind;

/// Why an acceptor rejects an init or a response. It is for the server's log only: no frame carries it, and the peer
/// receives the outcome Auth without data.
///
/// A reason changes nothing that a peer can observe: reply, state, allocations and HMAC values of an acceptor do not
/// depend on what decides it ([`SaslAcceptor`](crate::sasl_acceptor::SaslAcceptor)).
#[derive(Clone, Copy, Debug, PartialEq, Eq, thiserror::Error)]
pub enum Rejection {
    /// The init names a mechanism that the server does not offer.
    #[error("Mechanism not offered")]
    MechanismNotOffered,

    /// The init of a mechanism that needs an initial response has none.
    #[error("No initial response")]
    NoInitialResponse,

    /// The initial response is no message of PLAIN that is accepted for a test of its password. It has other than three
    /// parts, names no user or no password, has a password of more than 1024 bytes, or asks to act as another user.
    #[error("Invalid message of PLAIN")]
    InvalidMessage,

    /// SCRAM rejects the text of the message with this error. A failed login has one of the next five reasons.
    #[error("SCRAM: {0}")]
    Scram(ServerScramErrorKind),

    /// The client's channel binding is not one that the server accepts (RFC 5802, section 6). Its flag is `y`, and the server
    /// does not accept it: someone may have removed the mechanism with `-PLUS` from the offer. Or the flag is `n` at a
    /// mechanism with `-PLUS`, or `p=` with a kind of which the server has no data. Or the client-final message repeats
    /// another GS2 header, or has other data of the channel: someone may be between the two.
    #[error("Channel binding")]
    Channel,

    /// The user of SCRAM has no record: the server has no mock authentication, or has used a mock record.
    #[error("Unknown user")]
    UnknownUser,

    /// The user has a record for another hash, and none for that of the exchange. `Server` returns it in place of
    /// `UnknownUser`.
    #[error("No record for this hash")]
    NoRecordForHash,

    /// The user of SCRAM may not act for the identity that it names, whatever its proof is (RFC 4422, section 2).
    #[error("No right to act for this identity")]
    NoRight,

    /// The proof of SCRAM is not that of the user's password.
    #[error("Wrong password")]
    WrongProof,

    /// The message of PLAIN does not have the password of the record that is tested, the user has none, or may not act for the
    /// identity that it names.
    #[error("Unknown user or wrong password")]
    WrongPassword,

    /// The init of EXTERNAL asks for another name than the one that the transport authenticated.
    #[error("Another identity than that of the transport")]
    OtherIdentity,

    /// An init arrives where the server waits for the response that completes the init before it.
    #[error("Unexpected init")]
    UnexpectedInit,

    /// A response arrives where no mechanism waits for one, or it is not empty where only an empty one is expected.
    #[error("Unexpected response")]
    UnexpectedResponse,

    /// An acceptor of your own rejects the frame, for a reason that is none of the others.
    #[error("Rejected")]
    Other,
}
