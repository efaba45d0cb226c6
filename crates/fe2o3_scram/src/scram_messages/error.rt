//! Why a SCRAM message is rejected. Kinds and texts are those of `fe2o3-amqp` 0.18.4.

ghost use Rattle.std.specs.Prelude.{◌≡◌};
ghost use Rattle.fe2o3_scram.specs.declared.scram_messages.error.ScramErrorKind.TheVariants.{OutOfMemory as ClientOutOfMemory, XorLengthMismatch as ClientXorLengthMismatch};
ghost use Rattle.fe2o3_scram.specs.declared.scram_messages.error.ServerScramErrorKind.TheVariants.{OutOfMemory as ServerOutOfMemory, XorLengthMismatch as ServerXorLengthMismatch};
ghost use Rattle.fe2o3_scram.specs.Error.{key_fault};

pub use crate::hmac::XorLengthMismatch;
use crate::pbkdf2_hi::KeyError;
use std::alloc::AllocError;
use thiserror::Error;

/// Why the client rejects a message.
#[derive(Debug, Clone, Copy, PartialEq, Eq, Error)]
pub enum ScramErrorKind {
    /// The message is not UTF-8.
    #[error("Invalid UTF-8")]
    Utf8Error,

    /// The server-first message has fewer than three parts.
    #[error("InsufficientParts")]
    InsufficientParts,

    /// The server-first message begins with `m=`, a mandatory extension.
    #[error("\"m=\" is not supported")]
    ExtensionNotSupported,

    /// The first part of the server-first message does not begin with `r=`.
    #[error("Cannot find Nonce in challenge")]
    NonceNotFound,

    /// The nonce of the server-first message does not begin with the client's nonce.
    #[error("Server Nonce should start with client Nonce")]
    ClientNonceMismatch,

    /// The second part of the server-first message does not begin with `s=`.
    #[error("Salt key is not found in challenge")]
    SaltNotFound,

    /// A salt or a signature is not base64.
    #[error("Invalid base64")]
    Base64DecodeError,

    /// The third part of the server-first message does not begin with `i=`.
    #[error("Iteration count is not found in challenge")]
    IterationCountNotFound,

    /// The iteration count is not a number from 1 to 4294967295.
    #[error("Cannot parse iteration count")]
    IterationCountParseError,

    /// The iteration count is below the client's minimum.
    #[error("Iteration count too small")]
    IterationCountTooSmall,

    /// The iteration count is above the client's maximum.
    #[error("Iteration count too large")]
    IterationCountTooLarge,

    /// A part in the place of an extension is none (RFC 5802, section 7): after the iteration count, or after the
    /// signature. Only a client that is strict, has a channel (also one that says `y,,`) or sends an authorization
    /// identity returns it.
    #[error("Attribute in the place of an extension")]
    MisplacedAttribute,

    /// The password is not printable ASCII.
    #[error("Error normalizing password")]
    NormalizeError,

    /// The client has only keys, and the message names another salt or iteration count than theirs. A man in the middle
    /// can cause this: it is no reason to forget the keys.
    #[error("The cached keys are for another salt or iteration count")]
    StaleKeys,

    /// Never returned, since HMAC takes keys of every length.
    #[error("Invalid length")]
    HmacErrorInvalidLength,

    /// Never returned by the client, which XORs only digests of one hash.
    #[error("LHS and RHS of XOR have different length")]
    XorLengthMismatch,

    /// The client does not expect the message in this state.
    #[error("Illegal SCRAM client state")]
    IllegalClientState,

    /// The server-final message does not begin with `v=`, or has another signature.
    #[error("Server signature mismatch")]
    ServerSignatureMismatch,

    /// An allocation failed.
    #[error("Out of memory")]
    OutOfMemory,
}

impl From<AllocError> for ScramErrorKind {
    ghost from_gives = { λ _ kind. kind ≡ ClientOutOfMemory };

    fn from(_error: AllocError) -> Self {
        ScramErrorKind::OutOfMemory
    }
}

impl From<XorLengthMismatch> for ScramErrorKind {
    ghost from_gives = { λ _ kind. kind ≡ ClientXorLengthMismatch };

    fn from(_error: XorLengthMismatch) -> Self {
        ScramErrorKind::XorLengthMismatch
    }
}

/// Why the server rejects a message.
#[derive(Debug, Clone, Copy, PartialEq, Eq, Error)]
pub enum ServerScramErrorKind {
    /// The message is not UTF-8.
    #[error("Invalid UTF-8")]
    Utf8Error,

    /// The client-first message does not begin with a GS2 header that the server accepts: `n,,`, and by its rules `y,,`,
    /// `p=` with the kind of a channel, or `a=` with an identity.
    #[error("Cannot parse GS2-header")]
    CannotParseGs2Header,

    /// The client-first message does not name a user: the first part after the header does not begin with `n=`, or goes
    /// on with a text that escapes no user name.
    #[error("Error parsing username field")]
    CannotParseUsername,

    /// The second part of the client-first message is absent or does not begin with `r=`.
    #[error("Error parsing client nonce")]
    CannotParseClientNonce,

    /// Never returned, since HMAC takes keys of every length.
    #[error("Invalid length")]
    HmacErrorInvalidLength,

    /// The proof is not as long as a digest.
    #[error("LHS and RHS of XOR have different length")]
    XorLengthMismatch,

    /// Never returned by a server, which has records and no password.
    #[error("Error normalizing password")]
    NormalizeError,

    /// The client-final message does not begin with `c=`, or its second part is absent or does not
    /// begin with `r=`.
    #[error("Error parsing client final message")]
    CannotParseClientFinalMessage,

    /// The channel binding has another GS2 header than the client-first message, or other data than the server's channel.
    #[error("Invalid channel binding")]
    InvalidChannelBinding,

    /// A channel binding or a proof is not base64.
    #[error("Invalid base64")]
    Base64DecodeError,

    /// The nonce is not that of the challenge.
    #[error("Client final message has an incorrect nonce")]
    IncorrectClientFinalNonce,

    /// The last part of the client-final message does not begin with `p=`.
    #[error("Client final message doesnt' have a proof")]
    ProofNotFoundInClientFinal,

    /// A part in the place of an extension is none (RFC 5802, section 7): after the nonce of the client-first message, or
    /// between the nonce and the proof of the client-final message. Only a server that tests extensions returns it
    /// (`ServerRules::is_strict`), and one that accepts the GS2 header `y,,`, to a client that sends it.
    #[error("Attribute in the place of an extension")]
    MisplacedAttribute,

    /// The proof does not meet the stored key, or the user may not act for the identity that the client named.
    #[error("Authentication failed")]
    AuthenticationFailed,

    /// No challenge is open.
    #[error("Illegal SCRAM client state")]
    IllegalAuthenticatorState,

    /// An allocation failed.
    #[error("Out of memory")]
    OutOfMemory,
}

impl From<AllocError> for ServerScramErrorKind {
    ghost from_gives = { λ _ kind. kind ≡ ServerOutOfMemory };

    fn from(_error: AllocError) -> Self {
        ServerScramErrorKind::OutOfMemory
    }
}

impl From<XorLengthMismatch> for ServerScramErrorKind {
    ghost from_gives = { λ _ kind. kind ≡ ServerXorLengthMismatch };

    fn from(_error: XorLengthMismatch) -> Self {
        ServerScramErrorKind::XorLengthMismatch
    }
}

impl From<KeyError> for ServerScramErrorKind {
    ghost from_gives = { λ error kind. kind ≡ key_fault error };

    fn from(error: KeyError) -> Self {
        match error {
            KeyError::NormalizeError => ServerScramErrorKind::NormalizeError,
            KeyError::OutOfMemory => ServerScramErrorKind::OutOfMemory,
        }
    }
}
