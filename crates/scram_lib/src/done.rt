//! What a command has done, with the values that show it.

use fe2o3_sasl_negotiation::{ClientNegotiation, ServerNegotiation};
use fe2o3_scram::secrets::SecretText;
use fe2o3_scram::{RecordStore, ScramAuthenticator, ScramClient};

/// What a command has done. A command that returns it ends with status 0.
#[derive(Drop)]
pub enum Done {
    /// A client has authenticated the server, over lines.
    Client(Box<ScramClient>),
    /// A client has authenticated the server, over the bytes of a connection.
    ClientOfFrames(Box<ClientNegotiation>),
    /// A server has authenticated a user, over lines.
    Server(Box<ScramAuthenticator<RecordStore>>),
    /// A server has authenticated a user, over the bytes of a connection.
    ServerOfFrames(Box<ServerNegotiation<ScramAuthenticator<RecordStore>>>),
    /// The text of a file of records, and the password of each record that was asked for.
    Check(String, SecretText),
    /// Another command is done.
    Other,
}
