//! SCRAM over texts (RFC 5802), after the authentication layer of `fe2o3-amqp` 0.18.4. It does not depend on AMQP.
//!
//! A client makes its first message with [`ScramVersion::client_first_message`], answers the server's with
//! [`ScramVersion::compute_client_final_message`], and verifies the server with
//! [`ScramVersion::validate_server_final`]. A server makes its two messages with
//! [`ScramVersion::compute_server_first_message`] and [`ScramVersion::compute_server_final_message`], from the records
//! of a [`ScramCredentialProvider`]. [`ScramClient`] and [`ScramAuthenticator`] keep the messages of one exchange
//! between the calls; [`laws`] states what holds of a whole exchange. A client proves who it is by its [`Password`], by
//! the [`CachedKeys`] of an earlier login, or by both ([`ClientSecret`]).
//!
//! [`ClientFirst`], [`ServerFirst`], [`ClientFinal`] and [`ServerFinal`] are the values of the four messages, and each
//! has a `parse`. [`ServerError`] is an error in the place of a server message. The keys, the proof and the signature
//! are in [`keys`].
#![tactic(auto)]

mod acting_rights;
pub mod cached_keys;
pub mod channel_binding;
pub mod client_options;
pub mod client_secret;
pub mod credentials;
pub mod hmac;
pub mod keys;
pub mod laws;
pub mod passwords;
pub mod pbkdf2_hi;
pub mod provider;
mod same_bytes;
pub mod saslprep_ascii;
pub mod scram_client;
pub mod scram_messages;
pub mod scram_server;
pub mod secrets;
mod texts;

pub use crate::acting_rights::ActingRights;
pub use crate::channel_binding::{
    ChannelBinding, ChannelBindings, ChannelData, ChannelDataLength, ChannelKind,
};
pub use crate::client_options::ClientOptions;
pub use crate::client_secret::{ClientSecret, ClientSecretError, IterationLimits, OwnedSecret};
pub use crate::credentials::{
    AddRecordError, DEFAULT_SALT_LEN, DEFAULT_SCRAM_ITERATIONS, MultiRecordStore, ReadLinesError,
    ReadLinesErrorKind, RecordStore, RecordTextError, ScramRecord, SingleScramCredential,
    UserRecord, WriteLinesError,
};
pub use crate::hmac::{DigestBytes, Meter, ScramVersion, UnknownMechanism, XorLengthMismatch};
pub use crate::keys::{CachedKeys, RecordError, auth_message};
pub use crate::passwords::Password;
pub use crate::pbkdf2_hi::KeyError;
pub use crate::provider::{ScramCredentialProvider, StoredPassword};
pub use crate::saslprep_ascii::{NormalizeError, saslprep};
pub use crate::scram_client::ScramClient;
pub use crate::scram_messages::{
    ChannelBindingFlag, ClientAnswer, ClientChannel, ClientFinal, ClientFirst, ClientHeader,
    ScramErrorKind, ServerError, ServerFinal, ServerFirst, ServerFirstMessage, ServerRules,
    ServerScramErrorKind, UnescapeError, escape_username, unescape_username,
};
pub use crate::scram_server::exchange::ServerExchange;
pub use crate::scram_server::open_challenge::OpenChallenge;
pub use crate::scram_server::{MockUsers, SaltTooLong, ScramAuthenticator};
pub use crate::texts::base64_of_nonce;
pub use std::alloc::AllocError as OutOfMemory;
