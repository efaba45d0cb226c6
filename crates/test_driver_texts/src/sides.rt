//! A client and a server, call after call: a little machine. A paragraph has a line `server` for each server that its
//! calls are made on. The word `short` after those of a call asks for its short form, which counts no HMAC values.

use crate::options::{client_of, many_of, server_of, single_of, user_of, users_of};
use crate::words::say_keys;
use fe2o3_scram::*;
use std::mem;
use std::rc::Rc;
use test_rows::{Row, again, call};

/// The nonces in base64, of 32 bytes 01 and of 32 bytes 02.
const CLIENT_NONCE: &str = "AQEBAQEBAQEBAQEBAQEBAQEBAQEBAQEBAQEBAQEBAQE=";

const SERVER_NONCE: &str = "AgICAgICAgICAgICAgICAgICAgICAgICAgICAgICAgI=";

/// Returns the next message, with a nonce in the place of each `$` and `&`.
fn message(row: &mut Row<'_>) -> String {
    let text = row.word().replace(row.alloc, "$", CLIENT_NONCE);
    let text = row.made(text, String::new(row.alloc));
    let text = text.replace(row.alloc, "&", SERVER_NONCE);
    row.made(text, String::new(row.alloc))
}

/// Says which message is rejected and why, or that the exchange is accepted: `READER CLIENT . USER OPTION.. . MESSAGE..`,
/// where the client of another library, `foreign`, does not read.
pub fn exchange(row: &mut Row<'_>) {
    let reads = row.word() == "reads";
    let Some(client) = client_of(row) else {
        return;
    };
    let users = many_of(row);
    let Some(server) = server_of(row, users) else {
        drop(client);
        return row.refuse("no server");
    };
    let mut sides = Sides { client, server };
    sides.answer(row, "start 01", "");
    for &(name, call) in &[
        ("client-first", "server-reads-first 02"),
        ("server-first", "client-reads-first"),
        ("client-final", "server-reads-final"),
        ("server-final", "client-reads-final"),
    ] {
        let text = message(row);
        if reads || call.starts_with("server") {
            let answer = sides.answer(row, call, &text);
            let (word, _) = answer.split_once(' ').unwrap_or((&answer, ""));
            if word.starts_with(|c: char| c.is_ascii_uppercase()) {
                row.say(name);
                row.say(word);
                return drop(sides);
            }
        }
    }
    row.say("accepted");
    drop(sides);
}

/// Makes the calls of a paragraph on each of its servers: `server USERS OPTION..`, where the users are `one NAME PASSWORD
/// VERSION SALT`, `record USER`, `many USER` or `shared USER` (the words of `user_of`), or `lines VERSION LINES`.
pub fn paragraph<'a>(row: &mut Row<'a>) {
    let text = row.rest();
    for line in text.lines() {
        let Some(words) = line.strip_prefix("server ") else {
            continue;
        };
        row.turn_to(words);
        match row.word() {
            "record" => play(user_of(row), row, text),
            "many" => play(many_of(row), row, text),
            "lines" => play(users_of(row), row, text),
            "one" => {
                if let Some(user) = single_of(row) {
                    play(user, row, text);
                }
            }
            _ => match Rc::new(row.alloc, many_of(row)) {
                Ok(users) => play(users, row, text),
                Err(_) => row.refuse("no memory"),
            },
        }
    }
}

/// Makes the calls on a server of these users, with the options of the words that are left.
fn play<'a, C: ScramCredentialProvider + Drop>(users: C, row: &mut Row<'a>, text: &'a str) {
    let Some(server) = server_of(row, users) else {
        return row.refuse("no server");
    };
    let (name, password) = (String::new(row.alloc), String::new(row.alloc));
    let client = ScramClient::new(name, password, ScramVersion::Sha1);
    let mut sides = Sides { client, server };
    for line in text.lines() {
        if let Some((asked, wanted)) = line.split_once(" => ") {
            again!(row: sides.call(row, asked));
            row.agree(wanted);
        }
    }
    drop(sides);
}

/// A client and a server.
#[derive(Drop)]
struct Sides<C: ScramCredentialProvider> {
    client: ScramClient,
    server: ScramAuthenticator<C>,
}

impl<C: ScramCredentialProvider + Drop> Sides<C> {
    /// Returns the answer to a call with this text.
    fn answer(&mut self, row: &mut Row<'_>, call: &str, text: &str) -> String {
        let words = format!(in row.alloc; "{call} \"{text}\"");
        let words = row.made(words, String::new(row.alloc));
        let mut inner = Row::new(row.alloc, "");
        self.call(&mut inner, &words);
        inner.take_answer()
    }

    /// Makes the call of these words.
    fn call<'a>(&mut self, row: &mut Row<'a>, words: &'a str) {
        row.turn_to(words);
        match row.word() {
            "clones" => self.clones(row),
            "server-debug" => row.show(&self.server),
            "server-shows" => self.server_shows(row),
            "server-restored" => self.server_restored(row),
            "server-reads-first" => self.server_reads_first(row),
            "server-reads-final" => self.server_reads_final(row),
            word => call_client(row, word, &mut self.client),
        }
    }

    /// Replaces both sides by their clones.
    fn clones(&mut self, row: &mut Row<'_>) {
        let client = call!(row: "ScramClient::clone" => self.client.clone());
        if let Some(client) = row.get(client) {
            drop(mem::replace(&mut self.client, client));
            let server = call!(row: "ScramAuthenticator::clone" => self.server.clone());
            if let Some(server) = row.get(server) {
                drop(mem::replace(&mut self.server, server));
                row.say("the same");
            }
        }
    }

    /// Says the answer to a client-first message, and the HMAC values that it costs: `NONCE MESSAGE`.
    fn server_reads_first(&mut self, row: &mut Row<'_>) {
        let (alloc, nonce, text, mut meter) = (row.alloc, row.nonce(), row.bytes(), Meter::new());
        let server = &mut self.server;
        if row.takes("short") {
            let answer = call!(row: "ScramAuthenticator::compute_server_first_message" =>
                server.compute_server_first_message(alloc, &text, &nonce));
            return say_served(row, &answer);
        }
        let answer = call!(row: "ScramAuthenticator::compute_server_first_message_metered" =>
            server.compute_server_first_message_metered(alloc, &text, &nonce, &mut meter));
        say_served(row, &answer);
        row.say(meter.count());
    }

    /// Says the answer to a client-final message, and the HMAC values that it costs: `MESSAGE`.
    fn server_reads_final(&mut self, row: &mut Row<'_>) {
        let (alloc, text, mut meter) = (row.alloc, row.bytes(), Meter::new());
        let server = &mut self.server;
        if row.takes("short") {
            let answer = call!(row: "ScramAuthenticator::compute_server_final_message" =>
                server.compute_server_final_message(alloc, &text));
            return say_served(row, &answer);
        }
        let answer = call!(row: "ScramAuthenticator::compute_server_final_message_metered" =>
            server.compute_server_final_message_metered(alloc, &text, &mut meter));
        say_served(row, &answer);
        row.say(meter.count());
    }

    /// Says the server's mechanism, the challenge that is open, and who has logged in.
    fn server_shows(&mut self, row: &mut Row<'_>) {
        row.say(self.server.mechanism());
        if let Some(open) = self.server.open_challenge() {
            row.say(open.username);
            row.say(open.header.name());
            row.say(open.acts_for.unwrap_or("-"));
            row.say_message(open.client_first_message_bare);
            row.say_message(open.client_server_nonce);
            row.say_message(open.server_first_message);
        }
        if let Some(user) = self.server.authenticated_user() {
            row.say(user);
            row.say(self.server.acts_for().unwrap_or("-"));
        }
    }

    /// Replaces the server by another one with these options, to which its state was moved: `OPTION..`.
    fn server_restored(&mut self, row: &mut Row<'_>) {
        let Ok(users) = self.server.credentials().clone() else {
            return row.refuse("no users");
        };
        let Some(other) = server_of(row, users) else {
            return row.refuse("no server");
        };
        let other = restored(row, &self.server, other);
        if let Some(other) = row.get(other) {
            drop(mem::replace(&mut self.server, other));
            row.say("restored");
        }
    }
}

/// Adds the server's answer.
fn say_served(row: &mut Row<'_>, answer: &Result<Option<Vec<u8>>, ServerScramErrorKind>) {
    match answer {
        Ok(Some(message)) => row.say_message(message),
        Ok(None) => row.say("unknown user"),
        Err(kind) => row.show(kind),
    }
}

/// Returns the other server with the state of this one.
fn restored<C: ScramCredentialProvider + Drop>(
    row: &mut Row<'_>,
    server: &ScramAuthenticator<C>,
    other: ScramAuthenticator<C>,
) -> Result<ScramAuthenticator<C>, OutOfMemory> {
    let alloc = row.alloc;
    if let Some(open) = server.open_challenge() {
        let Some(stored) = server.credentials().get_stored_password(open.username) else {
            drop(other);
            return Err(OutOfMemory);
        };
        return call!(row: "ScramAuthenticator::restore_challenge" => other.restore_challenge(alloc, &open, &stored));
    }
    let Some(user) = server.authenticated_user() else {
        return Ok(other);
    };
    call!(row: "ScramAuthenticator::restore_authenticated" => other.restore_authenticated(alloc, user, server.acts_for()))
}

/// Makes a call of a client.
fn call_client(row: &mut Row<'_>, word: &str, client: &mut ScramClient) {
    let alloc = row.alloc;
    match word {
        "client" => {
            if let Some(made) = client_of(row) {
                row.say(made.mechanism());
                drop(mem::replace(client, made));
            }
        }
        "start" => {
            let nonce = row.nonce();
            let first = call!(row: "ScramClient::compute_client_first_message" =>
                client.compute_client_first_message(alloc, &nonce));
            if let Some(message) = row.get(first) {
                row.say_message(&message);
            }
        }
        "client-reads-first" => client_reads_first(row, client),
        "client-shows" => client_shows(row, client),
        "client-debug" => row.show(client),
        "client-restored" => client_restored(row, client),
        "client-ends" => row.judge(&client.conclude_without_data(), "ended"),
        "client-reads-final" => {
            let text = row.bytes();
            judge!(row: "ScramClient::validate_server_final" => client.validate_server_final(alloc, &text), "verified");
        }
        "client-reads-challenge" => {
            let text = row.bytes();
            judge!(row: "ScramClient::validate_signature_challenge" =>
                client.validate_signature_challenge(alloc, &text), "verified");
        }
        word => row.refuse(word),
    }
}

/// Says the answer to a server-first message, and the HMAC values that it costs: `MESSAGE`.
fn client_reads_first(row: &mut Row<'_>, client: &mut ScramClient) {
    let (alloc, text, mut meter) = (row.alloc, row.text(), Meter::new());
    if row.takes("short") {
        let answer = call!(row: "ScramClient::compute_client_final_message" =>
            client.compute_client_final_message(alloc, &text));
        return row.say_answer(&answer);
    }
    let answer = call!(row: "ScramClient::compute_client_final_message_metered" =>
        client.compute_client_final_message_metered(alloc, &text, &mut meter));
    row.say_answer(&answer);
    row.say(meter.count());
}

/// Says the client's mechanism, the identity that it acts for, its nonce, the signature that it waits for, and its keys.
fn client_shows(row: &mut Row<'_>, client: &ScramClient) {
    row.say(client.mechanism());
    row.say(client.acts_for().unwrap_or("-"));
    if let Some(nonce) = client.nonce() {
        row.say_digits(nonce);
    }
    if let Some(signature) = client.server_signature() {
        row.say_base64(signature);
        row.say(client.expects_signature());
    }
    if client.is_signature_verified() {
        row.say("verified");
    }
    if client.is_complete() {
        row.say("complete");
    }
    if let Some(keys) = client.answer_keys().or(client.keys()) {
        say_keys(row, keys);
    }
}

/// Replaces the client by another one, to which its state was moved: the words of a client.
fn client_restored(row: &mut Row<'_>, client: &mut ScramClient) {
    let Some(mut other) = client_of(row) else {
        return;
    };
    let keys = client.answer_keys().and_then(|keys| keys.clone().ok());
    if let Some(nonce) = client.nonce() {
        let sent = other.compute_client_first_message(row.alloc, nonce);
        row.judge(&sent, "sent");
    } else if let Some(signature) = client.server_signature() {
        let signature = row.made(signature.to_vec(row.alloc), Vec::new(row.alloc));
        other = other.restore_client_final_sent(signature, keys);
    } else if client.is_signature_verified() {
        other = other.restore_signature_verified(keys);
    }
    drop(mem::replace(client, other));
    row.say("restored");
}
