//! Servers of several mechanisms, with lent records and options.

use crate::runs::{Run, Side, check_side};
use crate::servers::{own_step, run_copy, say_offer, say_reply};
use crate::values::say_copied;
use crate::words::{channels, passwords, version};
use fe2o3_sasl::*;
use fe2o3_sasl_wire::{Error, view_frame};
use std::fmt::Write;
use test_rows::{Row, call};

/// Returns the users of the words `user NAME RECORD`.
fn users_of(row: &mut Row<'_>) -> MultiRecordStore {
    let mut lines = String::new(row.alloc);
    for _ in 0..4 {
        if row.takes("user") {
            let (name, record) = (row.word(), row.word());
            row.made(writeln!(lines, "{name} {record}"), ());
        }
    }
    let users = MultiRecordStore::parse_lines(row.alloc, &lines);
    row.made(users, MultiRecordStore::new(row.alloc))
}

/// Returns the rights of the words `right USER IDENTITY`.
fn rights_of(row: &mut Row<'_>) -> ActingRights {
    let (alloc, mut rights) = (row.alloc, ActingRights::new(row.alloc));
    for _ in 0..4 {
        if row.takes("right") {
            let (user, identity) = (row.word(), row.word());
            row.made(rights.allow(alloc, user, identity), ());
        }
    }
    rights
}

/// Checks a server, by the words of the head of `offers.txt`. If an option cannot be made, the row says why.
pub fn check<'a>(row: &mut Row<'a>, run: &Run<'a>) {
    let names = row.word();
    let has = |name: &str| names.split(',').any(|it| it == name);
    let users = users_of(row);
    let mut options = ServerOptions::new(
        row.alloc,
        Mechanisms {
            scram_sha_512: has("SCRAM-SHA-512"),
            scram_sha_256: has("SCRAM-SHA-256"),
            scram_sha_1: has("SCRAM-SHA-1"),
            plain: has("PLAIN"),
            anonymous: has("ANONYMOUS"),
            external: true,
        },
    );
    options.reject_misplaced = false;
    options.rights = rights_of(row);
    let mut transport = Transport {
        is_tls: true,
        ..Transport::plaintext()
    };
    for _ in 0..12 {
        if !row.is_over() {
            option_of(row, &mut options, &mut transport);
        }
    }
    if row.fault().is_some() {
        run.agree(row);
    } else {
        let mut server = Server::new(&users, &options, transport);
        check_side(row, run, &mut server);
        drop(server);
    }
    drop(options);
}

/// Sets the option of the next words.
fn option_of<'a>(row: &mut Row<'a>, options: &mut ServerOptions, transport: &mut Transport<'a>) {
    match row.word() {
        "asks" => options.extra_challenges.initial_response = true,
        "signs" => options.extra_challenges.signature = true,
        "plain" => {
            options.plain_version = version(row);
            options.plain_iterations = Some(row.number());
        }
        "passwords" => options.plain_passwords = passwords(row),
        "external" => transport.external = row.word(),
        "mock" => {
            let (secret, len, count) = (row.bytes(), row.number() as usize, row.number());
            options.mock = row.get(MockAuthentication::new(secret, len, count));
        }
        "channel" => transport.channels = channels(row),
        "cbind_flag_y" => options.accept_cbind_flag_y = true,
        "strict" => options.strict = true,
        "reject_misplaced" => options.reject_misplaced = true,
        "authzid" => options.accept_authzid = true,
        _ => row.refuse("no option"),
    }
}

impl Side for Server<'_> {
    fn run(&self, row: &mut Row<'_>, events: &[Event]) {
        run_copy(row, self, events);
    }

    /// Says the answer to an event by a call: a step, the server's own, or a part of it. `brief` says its kind and the reason.
    fn step(&mut self, row: &mut Row<'_>, call: &str, event: &Event) {
        let (alloc, mut meter) = (row.alloc, Meter::new());
        let Event { body, nonce } = event;
        let reply = match (call, view_frame(body)) {
            ("step" | "brief" | "body", _) =>
                call!(row: "Server::body_step" => self.body_step(alloc, body, nonce, &mut meter)),
            ("frame", Ok((view, _))) =>
                call!(row: "Server::frame_step" => self.frame_step(alloc, view, nonce, &mut meter)),
            (_, Ok(_)) => return own_step(row, self, call, event),
            _ => return say_part(row, self, call),
        };
        match call {
            "brief" => say_briefly(row, &reply, self.last_rejection()),
            _ => say_reply(row, self, call, &reply, meter),
        }
        drop(reply);
    }
}

/// Says what a server says of itself.
fn say_part(row: &mut Row<'_>, server: &Server<'_>, call: &str) {
    match (call, server.last_attempt()) {
        ("clone", _) => say_copied(row, "Server::clone", server),
        ("offers_any", _) => row.say(server.offers_any()),
        ("login", _) => row.show(&server.mechanism()),
        ("claims", None) => row.say("none"),
        ("claims", Some(it)) => show_call!(row: "LoginAttempt::clone" => it.clone()),
        _ => say_offer(row, server, call),
    }
}

/// Says the kind of a reply, and why it rejects.
fn say_briefly(row: &mut Row<'_>, reply: &Result<ServerReply, Error>, reason: Option<Rejection>) {
    match reply {
        Ok(ServerReply::Challenge { .. }) => row.say("Challenge"),
        Ok(ServerReply::Outcome { code, .. }) => row.show(code),
        Err(error) => row.show(error),
    }
    if let Some(reason) = reason {
        row.show(&reason);
    }
}
