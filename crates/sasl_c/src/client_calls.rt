//! The calls of a SCRAM client over messages, without the client-final message.

ghost use Rattle.std.specs.Prelude.{◌≡◌, ◌≢◌, ◌<◌, ◌≤◌, length, IfOk, IfErr, Ok};
ghost use Rattle.sasl_c.specs.Client.{Verifies, HandsOut, IsTestedLogin, IsVerifyStatus, IsNoLogin, StartsClient, Starts, VerifyAsks, started_struct};
ghost use Rattle.sasl_c.specs.Status.{Answers, AnswersText, AsksText, AsksWhere, Fills, Makes, with_written};
ghost use Rattle.sasl_c.specs.declared.status.Status.TheVariants.{OutOfMemory as StatusOutOfMemory};
ghost use Rattle.fe2o3_scram.specs.declared.scram_messages.error.ScramErrorKind.TheVariants.{OutOfMemory as NoMemory};
ghost use Rattle.sasl_c.specs.declared.status.WriteError.TheVariants.{RoomTooSmall};

use crate::arrays::{put, store};
use crate::client::ScramClient;
use crate::flags::is_set;
use crate::keys::ScramKeys;
use crate::login::Login;
use crate::status::{Status, WriteError, number, text_number};
use bytes::Bytes;
use fe2o3_scram::{ScramErrorKind, ServerError};
use std::alloc::Global;

/// Returns the client-first message.
fn first_message(alloc: Global, login: &Login<'_>, nonce: &[u8; 32]) -> Result<Bytes, Status>
    ensures ok { IfOk result (λ message. Starts login.now nonce.now (Ok message)) }
    ensures err { IfErr result (λ status. status ≢ StatusOutOfMemory → IsNoLogin login.now status) }
    ensures memory { AsksWhere (IsTestedLogin login.now) result }
{
    let mut machine = match login.client(alloc) {
        Ok(machine) => machine,
        Err(status) => return Err(status),
    };
    let message = machine.compute_client_first_message(alloc, nonce);
    drop(machine);
    match message {
        Ok(message) => Ok(message),
        Err(_) => Err(Status::OutOfMemory),
    }
}

/// Writes a client-first message with this nonce, and the struct of the client that has sent it.
fn begin(
    client: &mut ScramClient,
    nonce: &[u8; 32],
    message: &[u8],
    out: &mut [u8],
    out_len: &mut usize,
) -> Result<(), WriteError>
    ensures len { out_len.new ≡ length message.now }
    ensures ok { IfOk result (λ _. (length message.now ≤ length out.old) × (out.new ≡ with_written message.now out.old)) }
    ensures sent { IfOk result (λ _. client.new ≡ started_struct nonce.now) }
    ensures err { IfErr result (λ status. (status ≡ RoomTooSmall) × (length out.old < length message.now)
        × (out.new ≡ out.old)) }
    ensures stays { IfErr result (λ _. client.new ≡ client.old) }
{
    match put(message, out, out_len) {
        Ok(()) => {
            *client = ScramClient::started(nonce);
            Ok(())
        }
        Err(status) => Err(status),
    }
}

/// Writes the client-first message, and the struct of the client that has sent it.
fn first(
    alloc: Global,
    login: &Login<'_>,
    client: &mut ScramClient,
    nonce: &[u8; 32],
    out: &mut [u8],
    out_len: &mut usize,
) -> Result<(), WriteError>
    ensures text { Fills (Starts login.now nonce.now) (record { bytes = out.old; len = out_len.old })
        (record { bytes = out.new; len = out_len.new }) result }
    ensures moved { StartsClient login.now nonce.now client.old client.new result }
    ensures memory { AsksText (IsTestedLogin login.now) result }
{
    let message = match first_message(alloc, login, nonce) {
        Ok(message) => message,
        Err(status) => return Err(WriteError::Other(status)),
    };
    begin(client, nonce, message.as_slice(), out, out_len)
}

/// Writes the client-first message. This starts a new exchange, whatever the state of the client is. `nonce` is 32
/// fresh random bytes. With FE2O3_CHANNEL_BOUND name the mechanism with `-PLUS` to the server, such as
/// SCRAM-SHA-256-PLUS (RFC 5802, section 6). The whole login is tested, also the secret, which this message does not use.
///
/// The faults of a login are, in this order: FE2O3_NO_SUCH_VERSION; FE2O3_NOT_UTF8 for the user name; FE2O3_NOT_UTF8,
/// FE2O3_PROHIBITED_CHARACTER for a zero byte, and FE2O3_TOO_LONG for the identity; FE2O3_NO_SUCH_CHANNEL and
/// FE2O3_CHANNEL_DATA_LENGTH; FE2O3_NO_SUCH_SECRET; FE2O3_NO_SUCH_CHOICE and FE2O3_NOT_UTF8 for the password;
/// FE2O3_NO_KEYS and FE2O3_OTHER_VERSION for the keys. After these comes FE2O3_ROOM_TOO_SMALL.
#[unsafe(no_mangle)]
pub extern "C" fn fe2o3_scram_client_first(
    alloc: Global,
    login: &Login<'_>,
    client: &mut ScramClient,
    nonce: &[u8; 32],
    out: &mut [u8],
    out_len: &mut usize,
) -> u32
    ensures { AnswersText result (λ answer. Fills (Starts login.now nonce.now) (record { bytes = out.old; len = out_len.old })
        (record { bytes = out.new; len = out_len.new }) answer × StartsClient login.now nonce.now client.old client.new answer
        × AsksText (IsTestedLogin login.now) answer) }
{
    text_number(first(alloc, login, client, nonce, out, out_len))
}

/// Returns the status of why a client rejects a server-final message.
fn verify_status(why: ScramErrorKind, server_final: &[u8]) -> Status
    ensures status { IsVerifyStatus server_final.now why result }
    ensures memory { result ≡ StatusOutOfMemory → why ≡ NoMemory }
{
    match why {
        ScramErrorKind::ServerSignatureMismatch => match ServerError::parse(server_final) {
            Some(_) => Status::ServerError,
            None => Status::Client(ScramErrorKind::ServerSignatureMismatch),
        },
        why => Status::from(why),
    }
}

/// Verifies the server-final message.
fn verify(
    alloc: Global,
    login: &Login<'_>,
    client: &mut ScramClient,
    server_final: &[u8],
) -> Result<(), Status>
    ensures verifies { Verifies login.now server_final.now client.old client.new result }
    ensures memory { AsksWhere (VerifyAsks login.now server_final.now client.old) result }
{
    let version = match login.tested() {
        Ok(version) => version,
        Err(status) => return Err(status),
    };
    let header = match login.header() {
        Ok(header) => header,
        Err(status) => return Err(status),
    };
    let Some(signature) = client.awaited() else {
        return Err(Status::Client(ScramErrorKind::IllegalClientState));
    };
    let strict = is_set(login.strict);
    if let Err(why) = version.validate_server_final_with_header(
        alloc,
        &header,
        strict,
        server_final,
        signature,
    ) {
        return Err(verify_status(why, server_final));
    }
    client.complete();
    Ok(())
}

/// Verifies the server-final message. Only FE2O3_OK means that the login is complete and the server authenticated.
///
/// The message may be an error of the server, such as `e=invalid-proof` for a wrong password. The call then returns
/// FE2O3_SERVER_ERROR, and fe2o3_scram_server_error says which error it is. After every other status than FE2O3_OK the
/// server has not proved that it knows the user's keys. FE2O3_CLIENT_MISPLACED_ATTRIBUTE comes before
/// FE2O3_CLIENT_SERVER_SIGNATURE_MISMATCH, so a forged message can cause either.
///
/// The faults of the login come first, then FE2O3_CLIENT_ILLEGAL_CLIENT_STATE, and then those of the message.
#[unsafe(no_mangle)]
pub extern "C" fn fe2o3_scram_client_verify(
    alloc: Global,
    login: &Login<'_>,
    client: &mut ScramClient,
    server_final: &[u8],
) -> u32
    ensures { Answers result (λ answer. Verifies login.now server_final.now client.old client.new answer
        × AsksWhere (VerifyAsks login.now server_final.now client.old) answer) }
{
    number(verify(alloc, login, client, server_final))
}

/// Returns the keys of a complete login.
fn compute_keys_of(client: &ScramClient) -> Result<ScramKeys, Status>
    ensures { HandsOut client.now result }
{
    if client.state != 3 {
        return Err(Status::Client(ScramErrorKind::IllegalClientState));
    }
    if client.keys.version == 0 {
        return Err(Status::NoKeys);
    }
    Ok(client.keys.copied())
}

/// Writes the keys of a complete login, for the next login to the same server. As long as the server keeps its salt
/// and iteration count, a login by keys needs no password and no PBKDF2. The keys are secret: they suffice to log in.
///
/// The errors are, in this order: FE2O3_CLIENT_ILLEGAL_CLIENT_STATE unless a login is complete; and FE2O3_NO_KEYS if
/// the struct had no room for its salt.
#[unsafe(no_mangle)]
pub extern "C" fn fe2o3_scram_client_get_keys(client: &ScramClient, keys: &mut ScramKeys) -> u32
    ensures { Answers result (Makes ⊥ (HandsOut client.now) keys.old keys.new) }
{
    number(store(compute_keys_of(client), keys))
}
