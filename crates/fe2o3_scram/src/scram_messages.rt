//! The messages of SCRAM (RFC 5802, sections 5 and 7).

pub(crate) mod attributes;
mod channel_binding_flag;
mod client_channel;
mod client_final;
mod client_final_reading;
mod client_first;
mod client_first_reading;
mod client_header;
pub mod error;
pub mod escape;
mod grammar;
mod gs2_header;
mod server_error;
mod server_final;
mod server_final_reading;
mod server_first;
mod server_first_reading;
mod server_rules;

pub use crate::scram_messages::channel_binding_flag::ChannelBindingFlag;
pub use crate::scram_messages::client_channel::ClientChannel;
pub use crate::scram_messages::client_final::ClientAnswer;
pub use crate::scram_messages::client_final_reading::ClientFinal;
pub use crate::scram_messages::client_first_reading::ClientFirst;
pub use crate::scram_messages::client_header::ClientHeader;
pub use crate::scram_messages::error::{ScramErrorKind, ServerScramErrorKind, XorLengthMismatch};
pub use crate::scram_messages::escape::{UnescapeError, escape_username, unescape_username};
pub use crate::scram_messages::server_error::ServerError;
pub use crate::scram_messages::server_final_reading::ServerFinal;
pub use crate::scram_messages::server_first::ServerFirstMessage;
pub(crate) use crate::scram_messages::server_first::challenge_to;
pub use crate::scram_messages::server_first_reading::ServerFirst;
pub use crate::scram_messages::server_rules::ServerRules;
