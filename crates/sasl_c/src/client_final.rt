//! The client's answer to a server-first message: the client-final message.

ghost use Rattle.std.specs.Prelude.{◌≡◌, ◌≢◌, ◌<◌, ◌≤◌, ◌+◌, ◌^◌, length, IfOk, OnErr, IfErr, List, ℕ};
ghost use Rattle.fe2o3_scram.specs.Readings.{NoneHolds};
ghost use Rattle.sasl_c.specs.Records.{IsVersion};
ghost use Rattle.fe2o3_scram.specs.ClientFinal.{answer_values};
ghost use Rattle.fe2o3_scram.specs.ClientSecret.{secret_of};
ghost use Rattle.fe2o3_scram.specs.Texts.{base64_text};
ghost use Rattle.sasl_c.specs.Client.{AnswerAsks, answer_more, Responds, IsAnswer, IsHeaderOf, IsTestedLogin, IsSecretOf, NotAnswered, name_tests};
ghost use Rattle.sasl_c.specs.Channels.{channel_more, identity_more};
ghost use Rattle.std.specs.Str.{IsUtf8};
ghost use Rattle.sasl_c.specs.Status.{Answers, AnswersText, AsksText, AsksWhere, FillsWithin};
ghost use Rattle.sasl_c.specs.declared.status.Status.TheVariants.{OutOfMemory as StatusOutOfMemory};
ghost use Rattle.sasl_c.specs.declared.status.WriteError.TheVariants.{RoomTooSmall};

use crate::arrays::put;
use crate::client::ScramClient;
use crate::flags::is_set;
use crate::login::Login;
use crate::passwords::password_in;
use crate::status::{Status, WriteError, text_number};
use base64::engine::general_purpose::STANDARD;
use fe2o3_scram::{ClientAnswer, ClientHeader, ClientSecret, Meter, ScramErrorKind, ScramVersion};
use std::alloc::Global;

/// Returns how many bytes an answer may have more than its server-first message, by the use of the channel.
fn channel_more(channel_use: u32) -> usize
    ensures more { result ≡ channel_more channel_use }
    ensures few { result ≤ 256 }
{
    match channel_use {
        2 => 256,
        _ => 128,
    }
}

/// Returns how many bytes an answer may have more if its client names this identity.
fn identity_more(acts_for: &[u8]) -> usize
    ensures more { result ≡ identity_more acts_for.now }
    ensures few { result ≤ 1024 }
{
    match acts_for {
        [] => 0,
        _ => 1024,
    }
}

/// Returns how many bytes the room for an answer has more than its server-first message.
fn answer_more(login: &Login<'_>) -> usize
    ensures more { result ≡ answer_more login.now }
    ensures few { result ≤ 1280 }
{
    channel_more(login.channel_use) + identity_more(login.acts_for)
}

/// Returns the text of a nonce: its 44 symbols of base64.
fn nonce_text<'a>(nonce: &[u8; 32], room: &'a mut [u8; 44]) -> &'a str
    ensures { result.now ≡ base64_text nonce.now }
{
    // 32 bytes take 44 symbols, so neither can fail.
    let _ = STANDARD.encode_slice(nonce, room);
    match str::from_utf8(room) {
        Ok(text) => text,
        Err(_) => unreachable!(),
    }
}

/// Returns the answer of a client that has sent its client-first message, by this secret.
#[tactic(auto, using(crate::proofs::ClientLemmas::answers))]
fn answer_with_secret(
    alloc: Global,
    login: &Login<'_>,
    version: ScramVersion,
    secret: ClientSecret<'_>,
    header: &ClientHeader<'_>,
    client: &ScramClient,
    server_first: &str,
    meter: &mut Meter,
) -> Result<ClientAnswer, Status>
    requires { meter.old ≤ 2 ^ 63 }
    ensures ok { IfOk result (λ answer. IsVersion login.now.version version → IsSecretOf login.now
        (secret_of secret.entry) → IsHeaderOf login.now header.now
        → client.now.state ≡ 1 → IsAnswer login.now client.now server_first.now (answer_values answer)) }
    ensures err { IfErr result (λ status. status ≢ StatusOutOfMemory → IsVersion login.now.version version
        → IsSecretOf login.now (secret_of secret.entry) → IsHeaderOf login.now header.now → client.now.state ≡ 1
        → NotAnswered login.now client.now server_first.now status) }
{
    let mut room = [0; 44];
    let nonce = nonce_text(&client.nonce, &mut room);
    let (_, bare) = version.client_first_message(alloc, login.username, nonce.as_bytes())?;
    match version.answer_server_first(
        alloc,
        nonce,
        secret,
        server_first,
        bare.as_slice(),
        login.limits(),
        header,
        is_set(login.strict),
        meter,
    ) {
        Ok(answer) => Ok(answer),
        Err(why) => Err(Status::from(why)),
    }
}

/// Returns the answer of a client that has sent its client-first message, by the secret of its login.
#[tactic(auto, using(crate::proofs::ClientLemmas::secrets))]
fn answer_of_login(
    alloc: Global,
    login: &Login<'_>,
    version: ScramVersion,
    header: &ClientHeader<'_>,
    client: &ScramClient,
    server_first: &str,
    meter: &mut Meter,
) -> Result<ClientAnswer, Status>
    requires { meter.old ≤ 2 ^ 63 }
    ensures ok { IfOk result (λ answer. IsVersion login.now.version version → IsHeaderOf login.now header.now
        → client.now.state ≡ 1 → IsAnswer login.now client.now server_first.now (answer_values answer)) }
    ensures err { IfErr result (λ status. status ≢ StatusOutOfMemory → NoneHolds (name_tests login.now)
        → IsVersion login.now.version version → IsHeaderOf login.now header.now → client.now.state ≡ 1
        → NotAnswered login.now client.now server_first.now status) }
{
    match login.secret_used() {
        0 => {
            let password = match password_in(login.form, login.password) {
                Ok(password) => password,
                Err(status) => return Err(status),
            };
            let secret = ClientSecret::Password(password);
            answer_with_secret(
                alloc,
                login,
                version,
                secret,
                header,
                client,
                server_first,
                meter,
            )
        }
        1 => {
            let keys = match login.keys(alloc) {
                Ok(keys) => keys,
                Err(status) => return Err(status),
            };
            let secret = ClientSecret::Keys(&keys);
            answer_with_secret(
                alloc,
                login,
                version,
                secret,
                header,
                client,
                server_first,
                meter,
            )
        }
        2 => {
            let password = match password_in(login.form, login.password) {
                Ok(password) => password,
                Err(status) => return Err(status),
            };
            let keys = match login.keys(alloc) {
                Ok(keys) => keys,
                Err(status) => return Err(status),
            };
            let secret = ClientSecret::PasswordAndKeys {
                password,
                keys: &keys,
            };
            answer_with_secret(
                alloc,
                login,
                version,
                secret,
                header,
                client,
                server_first,
                meter,
            )
        }
        _ => Err(Status::NoSuchSecret),
    }
}

/// Returns why a client whose last message is not its client-first message does not answer.
#[tactic(auto, using(crate::proofs::ClientLemmas::not_dues))]
fn not_due(login: &Login<'_>, client: &ScramClient) -> Status
    ensures why { client.now.state ≢ 1 → (text : List ℕ)
        → NotAnswered login.now client.now text result }
    ensures memory { result ≢ StatusOutOfMemory }
{
    match login.tested() {
        Ok(_) => Status::Client(ScramErrorKind::IllegalClientState),
        Err(status) => status,
    }
}

/// Returns the answer to a server-first message.
#[tactic(auto, using(crate::proofs::ClientLemmas::answers))]
fn compute_answer(
    alloc: Global,
    login: &Login<'_>,
    client: &ScramClient,
    server_first: &str,
    meter: &mut Meter,
) -> Result<ClientAnswer, Status>
    requires { meter.old ≤ 2 ^ 63 }
    ensures ok { IfOk result (λ answer. IsAnswer login.now client.now server_first.now (answer_values answer)) }
    ensures tested { IfOk result (λ _. IsTestedLogin login.now) }
    ensures err { IfErr result (λ status. status ≢ StatusOutOfMemory
        → NotAnswered login.now client.now server_first.now status) }
    ensures memory { AsksWhere (IsTestedLogin login.now × (client.now.state ≡ 1)) result }
{
    if client.state != 1 {
        return Err(not_due(login, client));
    }
    let version = match login.tested() {
        Ok(version) => version,
        Err(status) => return Err(status),
    };
    let header = match login.header() {
        Ok(header) => header,
        Err(status) => return Err(status),
    };
    answer_of_login(alloc, login, version, &header, client, server_first, meter)
}

/// Writes the client-final message.
#[tactic(auto, using(crate::proofs::ClientLemmas::sent))]
fn answer(
    alloc: Global,
    login: &Login<'_>,
    client: &mut ScramClient,
    server_first: &[u8],
    meter: &mut Meter,
    out: &mut [u8],
    out_len: &mut usize,
) -> Result<(), WriteError>
    requires { meter.old ≤ 2 ^ 63 }
    ensures text { FillsWithin (length server_first.now + answer_more login.now)
        (Responds login.now server_first.now client.old client.new) (record { bytes = out.old; len = out_len.old })
        (record { bytes = out.new; len = out_len.new }) result }
    ensures stays { OnErr result (client.new ≡ client.old) }
    ensures first { IfErr result (λ status. status ≡ RoomTooSmall → meter.new ≡ meter.old) }
    ensures memory { AsksText (AnswerAsks login.now server_first.now client.old) result }
{
    let suffices = server_first.len() + answer_more(login);
    if out.len() < suffices {
        *out_len = suffices;
        return Err(WriteError::RoomTooSmall);
    }
    let Ok(text) = str::from_utf8(server_first) else {
        return Err(WriteError::Other(Status::Client(ScramErrorKind::Utf8Error)));
    };
    let answer = compute_answer(alloc, login, client, text, meter)?;
    if answer.signature.len() > 64 {
        return Err(WriteError::Other(Status::TooLong));
    }
    put(&answer.message, out, out_len)?;
    client.wait(&answer);
    Ok(())
}

/// Answers the server-first message with the client-final message. `out` needs 128 bytes more than the server-first
/// message has, or 256 more if the client binds a channel, and another 1024 if it names an identity to act for. This is
/// tested before anything is hashed.
///
/// The errors are, in this order: FE2O3_ROOM_TOO_SMALL, FE2O3_CLIENT_UTF8_ERROR, the faults of the login,
/// FE2O3_CLIENT_ILLEGAL_CLIENT_STATE, and the other faults of the message.
#[unsafe(no_mangle)]
pub extern "C" fn fe2o3_scram_client_final(
    alloc: Global,
    login: &Login<'_>,
    client: &mut ScramClient,
    server_first: &[u8],
    out: &mut [u8],
    out_len: &mut usize,
) -> u32
    ensures { AnswersText result (λ answer. FillsWithin (length server_first.now + answer_more login.now)
        (Responds login.now server_first.now client.old client.new) (record { bytes = out.old; len = out_len.old })
        (record { bytes = out.new; len = out_len.new }) answer × OnErr answer (client.new ≡ client.old)
        × AsksText (AnswerAsks login.now server_first.now client.old) answer) }
{
    let mut meter = Meter::new();
    text_number(answer(alloc, login, client, server_first, &mut meter, out, out_len))
}
