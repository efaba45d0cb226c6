//! A server over frame bodies, which does not tell which users it knows.

ghost use Rattle.std.specs.Prelude.{◌≡◌, ℕ, List, Option, Some, IfOk};
ghost use Rattle.fe2o3_sasl_wire.specs.declared.amqp_types.SaslCode.TheVariants.{Ok as OkCode};
ghost use Rattle.fe2o3_scram.specs.ScramServer.{logged_in, provider_in, rights_in, rules_in, state_in};
ghost use Rattle.fe2o3_sasl_core.specs.StepLaws.{BodyLogsIn};

use anyhow::Result;
use fe2o3_sasl_negotiation::{
    DEFAULT_SCRAM_ITERATIONS, Event, SaslCode, ScramAuthenticator, ScramVersion, ServerReply,
    SingleScramCredential, acceptor_step,
};
use std::alloc::Global;

/// The server of one connection.
pub type Server = ScramAuthenticator<SingleScramCredential>;

/// What the server keeps of `user`. A salt is random bytes, fresh for each record.
pub fn new_user(alloc: Global, salt: [u8; 32]) -> Result<SingleScramCredential> {
    let username = "user".to_string(alloc)?;
    let version = ScramVersion::Sha256;
    Ok(SingleScramCredential::new(alloc, username, "pencil", version, salt)?)
}

/// A server that knows `user`. Its secret is random bytes, one for all connections. Keep it secret, and
/// for as long as the records are kept.
pub fn new_server(alloc: Global, salt: [u8; 32], secret: [u8; 32]) -> Result<Server> {
    let secret = secret.to_vec(alloc)?;
    let server = ScramAuthenticator::new(new_user(alloc, salt)?);
    Ok(server.mock_unknown_users(secret, salt.len(), DEFAULT_SCRAM_ITERATIONS)?)
}

/// The body to send back, and how the login ended, if it did. After an outcome that is not Ok,
/// send the body and close. After Ok, `server.authenticated_user()` has logged in.
pub fn answer(
    alloc: Global,
    server: &mut Server,
    event: &Event,
) -> Result<(Vec<u8>, Option<SaslCode>)>
    ensures { IfOk result (λ answer. answer.1 ≡ Some OkCode → (user : List ℕ) × (acts_for : Option (List ℕ))
        × BodyLogsIn (provider_in server.old).version (rules_in server.old) (rights_in server.old)
        (state_in server.old) event.now.body.items user acts_for
        × (logged_in (state_in server.new) ≡ Some user)) }
{
    match acceptor_step(alloc, server, event)? {
        ServerReply::Challenge { body } => Ok((body, None)),
        ServerReply::Outcome { code, body } => Ok((body, Some(code))),
    }
}
