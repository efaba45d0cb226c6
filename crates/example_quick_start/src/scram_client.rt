//! A client that logs in.

use anyhow::Result;
use fe2o3_scram::{ClientOptions, IterationLimits, ScramClient, ScramVersion};
use std::alloc::Global;

/// The way to the server. It distinguishes a client's first message from its second, like the frames of SASL.
pub trait Connection {
    /// Sends the first message, and brings the challenge.
    fn start(&mut self, client_first: &[u8]) -> Result<Vec<u8>>;

    /// Sends the response to the challenge, and brings the outcome.
    fn respond(&mut self, client_final: &[u8]) -> Result<Vec<u8>>;
}

/// Logs in as `user`, and authenticates the server only by the signature of this very exchange. The nonce
/// is random bytes, fresh for each login. The server names the iteration count, of which both bounds are
/// the client's: 4096 is the minimum of RFC 7677.
pub fn log_in<C: Connection>(alloc: Global, connection: &mut C, nonce: &[u8; 32]) -> Result<()> {
    let username = "user".to_string(alloc)?;
    let password = "pencil".to_string(alloc)?;
    let options = ClientOptions {
        limits: IterationLimits {
            min_iterations: 4096,
            max_iterations: 100_000,
        },
        ..ClientOptions::new()
    };
    let client = ScramClient::new(username, password, ScramVersion::Sha256).with_options(options);
    let mut client = Box::new(alloc, client)?;
    let client_first = client.compute_client_first_message(alloc, nonce)?;
    let server_first = connection.start(&client_first)?;
    let client_final = client.compute_client_final_message(alloc, str::from_utf8(&server_first)?)?;
    let server_final = connection.respond(&client_final)?;
    client.validate_server_final(alloc, &server_final)?;
    Ok(())
}
