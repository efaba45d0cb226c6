//! The four messages of an exchange, as their readers answer or reject them. The word `short` after those of a row asks for
//! the short form of a call, which has no options and counts no HMAC values.

use crate::options::users_of;
use crate::words::{Secret, channel_of, say_keys, version};
use fe2o3_scram::*;
use test_rows::{Row, call};

/// Says the answer of a server with these users: `VERSION LINES SERVER-NONCE MESSAGE`, and `rules` for the call by rules.
pub fn client_first(row: &mut Row<'_>) {
    let users = users_of(row);
    let (alloc, nonce, message) = (row.alloc, row.word(), row.bytes());
    let version = *users.scram_version();
    let answer = if row.takes("rules") {
        call!(row: "ScramVersion::compute_server_first_message_with_rules" =>
            version.compute_server_first_message_with_rules(alloc, &message, nonce, ServerRules::new(), &users))
    } else {
        call!(row: "ScramVersion::compute_server_first_message" =>
            version.compute_server_first_message(alloc, &message, nonce, &users))
    };
    match &answer {
        Ok(Some(first)) => {
            row.say(first.username.as_str());
            row.say(first.client_first_message_bare);
            row.say_message(&first.message);
        }
        Ok(None) => row.say("unknown user"),
        Err(kind) => row.show(kind),
    }
    drop(answer);
    drop(users);
}

/// Says a client-first message, and its bare text: `CHANNEL IDENTITY NAME NONCE`, where the identity `-` is none.
pub fn new_client_first(row: &mut Row<'_>) {
    let (alloc, channel, acts_for) = (row.alloc, channel_of(row), row.word());
    let (name, nonce, version) = (row.bytes(), row.bytes(), ScramVersion::Sha1);
    let header = ClientHeader::new(channel, Some(acts_for).filter(|name| *name != "-"));
    let sent = if row.takes("short") {
        call!(row: "ScramVersion::client_first_message" => version.client_first_message(alloc, &name, &nonce))
    } else {
        call!(row: "ScramVersion::client_first_message_with" => version.client_first_message_with(alloc, &header, &name, &nonce))
    };
    if let Some((message, bare)) = row.get(sent) {
        row.say_message(&message);
        row.say_message(&bare);
    }
}

/// Returns the client-first message of `user` with this nonce, without its GS2 header.
fn bare_of(row: &mut Row<'_>, nonce: &str) -> String {
    let bare = format!(in row.alloc; "n=user,r={nonce}");
    row.made(bare, String::new(row.alloc))
}

/// Says the answer of `user` by a secret, of one or both: `VERSION NONCE MESSAGE LEAST MOST SECRET PASSWORD KEYS`.
pub fn client_secret(row: &mut Row<'_>) {
    let (alloc, version, nonce, text) = (row.alloc, version(row), row.word(), row.word());
    let mut limits = IterationLimits::none();
    limits.min_iterations = row.number();
    limits.max_iterations = row.number();
    let secret = Secret::read(row);
    let (bare, header, mut meter) = (bare_of(row, nonce), ClientHeader::plain(), Meter::new());
    let (bare, secret) = (bare.as_bytes(), secret.get());
    let answer = call!(row: "ScramVersion::answer_server_first" =>
        version.answer_server_first(alloc, nonce, secret, text, bare, limits, &header, false, &mut meter));
    let Some(answer) = row.get(answer) else {
        return row.say(meter.count());
    };
    row.say_message(&answer.message);
    row.say_base64(&answer.signature);
    row.say(meter.count());
    say_keys(row, &answer.keys);
}

/// Says the answer of a client of `user` by a password, and the HMAC values that it costs: `VERSION NONCE MESSAGE PASSWORD`,
/// and `limited MOST` for the call with a limit on the count.
pub fn client_password(row: &mut Row<'_>) {
    let (alloc, version, nonce, text) = (row.alloc, version(row), row.word(), row.word());
    let (password, bare, mut meter) = (row.text(), bare_of(row, nonce), Meter::new());
    let (bare, is_short) = (bare.as_bytes(), row.takes("short"));
    let answer = if is_short {
        call!(row: "ScramVersion::compute_client_final_message" =>
            version.compute_client_final_message(alloc, nonce, &password, text, bare))
    } else if row.takes("limited") {
        let most = row.number();
        call!(row: "ScramVersion::compute_client_final_message_limited" =>
            version.compute_client_final_message_limited(alloc, nonce, &password, text, bare, most, &mut meter))
    } else {
        call!(row: "ScramVersion::compute_client_final_message_metered" =>
            version.compute_client_final_message_metered(alloc, nonce, &password, text, bare, &mut meter))
    };
    if let Some((message, signature)) = row.get(answer) {
        row.say_message(&message);
        row.say_base64(&signature);
    }
    if !is_short {
        row.say(meter.count());
    }
}

/// Says the answer of a server, and the HMAC values that it costs: `VERSION NONCE CLIENT-FIRST-BARE SERVER-FIRST STORED-KEY
/// SERVER-KEY MESSAGE`, and `header` for the call by a header.
pub fn client_final(row: &mut Row<'_>) {
    let (alloc, version, nonce) = (row.alloc, version(row), row.word().as_bytes());
    let (bare, first) = (row.word().as_bytes(), row.word().as_bytes());
    let (stored_key, server_key, text) = (row.base64(), row.base64(), row.bytes());
    let kept = ScramRecord::from_parts(version, Vec::new(alloc), 4096, stored_key, server_key);
    let (kept, meter) = (&kept.as_stored_password(), &mut Meter::new());
    if row.takes("short") {
        let answer = call!(row: "ScramVersion::compute_server_final_message" =>
            version.compute_server_final_message(alloc, &text, nonce, bare, first, kept));
        return row.say_answer(&answer);
    }
    let answer = if row.takes("header") {
        let header = ClientHeader::plain();
        call!(row: "ScramVersion::compute_server_final_message_with_header" =>
            version.compute_server_final_message_with_header(alloc, &header, false, &text, nonce, bare, first, kept, true, meter))
    } else {
        call!(row: "ScramVersion::compute_server_final_message_metered" =>
            version.compute_server_final_message_metered(alloc, &text, nonce, bare, first, kept, meter))
    };
    row.say_answer(&answer);
    row.say(meter.count());
}

/// Says the answer of a client that waits for a signature: `VERSION SIGNATURE MESSAGE`.
pub fn server_final(row: &mut Row<'_>) {
    let (alloc, version) = (row.alloc, version(row));
    let (signature, message) = (row.base64(), row.bytes());
    judge!(row: "ScramVersion::validate_server_final" => version.validate_server_final(alloc, &message, &signature), "verified");
}

/// Says which error of a server a message is, and the message of that error: `MESSAGE`.
pub fn server_error(row: &mut Row<'_>) {
    let message = row.bytes();
    match ServerError::parse(&message) {
        Some(error) => {
            row.say(error);
            row.say(error.message());
        }
        None => row.say("no error"),
    }
}

/// Says the AuthMessage: `CLIENT-FIRST-BARE SERVER-FIRST WITHOUT-PROOF`, or without the last word that of an answer without
/// channel binding, by the server-first message as it is read.
pub fn auth_message(row: &mut Row<'_>) {
    let (alloc, bare, first) = (row.alloc, row.bytes(), row.text());
    if !row.is_over() {
        let last = row.bytes();
        let text = call!(row: "auth_message" =>
            fe2o3_scram::auth_message(alloc, &bare, first.as_bytes(), &last));
        return row.say_answer(&text);
    }
    let read = call!(row: "ServerFirst::parse" =>
        ServerFirst::parse(alloc, "", "", u32::MAX, &first));
    if let Some(read) = row.get(read) {
        let text = call!(row: "ServerFirst::auth_message" =>
            read.auth_message(alloc, &bare, first.as_bytes()));
        row.say_answer(&text);
    }
}
