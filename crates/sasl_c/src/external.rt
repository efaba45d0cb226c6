//! The server's side of EXTERNAL over messages (RFC 4422, appendix A).

ghost use Rattle.std.specs.Prelude.{◌↔◌, IsTrue, Some};
ghost use Rattle.fe2o3_sasl_core.specs.ExternalServer.{AsksFor};
ghost use Rattle.sasl_c.specs.External.{VerifiesExternal};
ghost use Rattle.sasl_c.specs.Status.{Answers};

use crate::status::{Status, number, text};
use fe2o3_scram::ServerScramErrorKind;

/// The status of a message that logs no one in.
const REJECTED: Status = Status::Server(ServerScramErrorKind::AuthenticationFailed);

/// Returns whether a message requests this name: it is empty, or the name itself.
fn asks_for(authcid: &[u8], message: &[u8]) -> bool
    ensures { IsTrue result ↔ AsksFor authcid.now (Some message.now) }
{
    message.is_empty() || message == authcid
}

/// Tests whether a message logs in as the user that the transport authenticated, whose name is `authcid`.
#[tactic(auto, using(crate::proofs::ExternalLemmas::verifies))]
fn verify(authcid: &[u8], message: &[u8]) -> Result<(), Status>
    ensures { VerifiesExternal authcid.now message.now result }
{
    let authcid = text(authcid)?.as_bytes();
    if authcid.is_empty() {
        return Err(REJECTED);
    }
    if !asks_for(authcid, message) {
        return Err(REJECTED);
    }
    Ok(())
}

/// Tests a message of EXTERNAL (RFC 4422, appendix A) against the name that the transport authenticated, such as the
/// subject of a client's TLS certificate. Only FE2O3_OK means that this user is authenticated: the message is empty or
/// equals `authcid`.
///
/// Returns FE2O3_SERVER_AUTHENTICATION_FAILED for every other message, and for each message if `authcid` is empty: then
/// the transport authenticated no one. Returns FE2O3_NOT_UTF8 if `authcid` is not UTF-8. The message of a client is the
/// identity itself, so there is no call that writes it.
#[unsafe(no_mangle)]
pub extern "C" fn fe2o3_external_verify(authcid: &[u8], message: &[u8]) -> u32
    ensures { Answers result (VerifiesExternal authcid.now message.now) }
{
    number(verify(authcid, message))
}
