//! A client over frame bodies.

use anyhow::{Result, bail};
use fe2o3_sasl_negotiation::{
    ClientOptions, ClientReply, Event, IterationLimits, SaslCode, SaslProfile, SaslScramSha256,
    profile_step,
};
use std::alloc::Global;

/// A client that logs in as `user`. The server names the iteration count, of which both bounds are the
/// client's: 4096 is the minimum of RFC 7677.
pub fn new_client(alloc: Global) -> Result<SaslProfile> {
    let username = "user".to_string(alloc)?;
    let password = "pencil".to_string(alloc)?;
    let options = ClientOptions {
        limits: IterationLimits {
            min_iterations: 4096,
            max_iterations: 100_000,
        },
        ..ClientOptions::new()
    };
    Ok(SaslProfile::from(SaslScramSha256::new(username, password).with_options(options)))
}

/// The body to send back, or `None` once the client is logged in: it authenticates the server only by
/// the signature of this very exchange.
pub fn answer(alloc: Global, client: &mut SaslProfile, event: &Event) -> Result<Option<Vec<u8>>> {
    match profile_step(alloc, client, event, None)? {
        ClientReply::Init { body } | ClientReply::Response { body } => Ok(Some(body)),
        ClientReply::Outcome(outcome) if outcome.code == SaslCode::Ok => Ok(None),
        ClientReply::Outcome(_) => bail!("the server refused"),
    }
}
