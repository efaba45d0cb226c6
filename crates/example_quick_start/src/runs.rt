//! What each side answers to a whole list of bodies, from a fresh start: for tests, replays, logs.

use anyhow::Result;
use fe2o3_sasl_negotiation::{
    ClientReply, Event, SaslCode, ScramCredentialProvider, ScramVersion, ServerReply,
    scram_client_run_limited, scram_server_run,
};
use std::alloc::Global;

/// At which of these bodies a server of these credentials lets a client in.
pub fn lets_in<C: ScramCredentialProvider>(
    alloc: Global,
    credentials: &C,
    events: &[Event],
) -> Result<Vec<usize>> {
    let mut positions = Vec::new(alloc);
    let replies = scram_server_run(alloc, credentials, events)?;
    for (position, reply) in replies.iter().enumerate() {
        if matches!(
            reply,
            Ok(ServerReply::Outcome {
                code: SaslCode::Ok,
                ..
            })
        ) {
            positions.push(position)?;
        }
    }
    Ok(positions)
}

/// At which of these bodies the client of `user` is logged in.
pub fn logs_in(alloc: Global, events: &[Event]) -> Result<Vec<usize>> {
    let mut positions = Vec::new(alloc);
    let version = ScramVersion::Sha256;
    let replies = scram_client_run_limited(alloc, "user", "pencil", version, 100_000, events)?;
    for (position, reply) in replies.iter().enumerate() {
        if matches!(reply, Ok(ClientReply::Outcome(outcome)) if outcome.code == SaslCode::Ok) {
            positions.push(position)?;
        }
    }
    Ok(positions)
}
