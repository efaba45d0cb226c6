//! Servers and acceptors.

use crate::frames::say_frame;
use crate::replies::{Reply, say_all, say_outcome};
use crate::runs::{Run, Side, check_side, check_steps};
use crate::values::say_copied;
use crate::words::{channels, version};
use fe2o3_sasl::scram_messages::ServerRules;
use fe2o3_sasl::*;
use fe2o3_sasl_wire::{Error, Frame, view_frame};
use test_rows::{Row, again, call};

/// An acceptor as a side.
#[derive(Drop)]
struct Acceptor<A> {
    acceptor: A,
}

impl<A: AuthenticatedUser + Drop> Side for Acceptor<A> {
    fn run(&self, row: &mut Row<'_>, events: &[Event]) {
        run_copy(row, &self.acceptor, events);
    }

    /// Says the answer to an event by a call: one of the steps, one of the acceptor's own, or what it says of itself.
    fn step(&mut self, row: &mut Row<'_>, call: &str, event: &Event) {
        let (alloc, acceptor, mut meter) = (row.alloc, &mut self.acceptor, Meter::new());
        let Event { body, nonce } = event;
        let reply = match (call, view_frame(body)) {
            ("step", _) => call!(row: "acceptor_step" => acceptor_step(alloc, acceptor, event)),
            ("body", _) =>
                call!(row: "acceptor_body_step" => acceptor_body_step(alloc, acceptor, body, nonce, &mut meter)),
            ("frame", Ok((view, _))) => call!(row: "acceptor_frame_step" =>
                acceptor_frame_step(alloc, acceptor, view, nonce, &mut meter)),
            (_, Ok(_)) => return own_step(row, acceptor, call, event),
            _ => return say_offer(row, acceptor, call),
        };
        say_reply(row, acceptor, call, &reply, meter);
        drop(reply);
    }
}

/// Says the answers of a copy in a whole run.
pub fn run_copy<A: SaslAcceptor + Drop>(row: &mut Row<'_>, acceptor: &A, events: &[Event]) {
    let copy = call!(row: "SaslAcceptor::clone" => acceptor.clone());
    if let Some(mut copy) = row.get(copy) {
        let replies = call!(row: "run_acceptor" => run_acceptor(row.alloc, &mut copy, events));
        say_all(row, replies);
    }
}

/// Says the mechanisms of an acceptor, or its offer.
pub fn say_offer<A: SaslAcceptor>(row: &mut Row<'_>, acceptor: &A, call: &str) {
    if call == "mechanisms" {
        show_call!(row: "SaslAcceptor::mechanisms" => acceptor.mechanisms(row.alloc));
    } else {
        show_call!(row: "SaslAcceptorExt::sasl_mechanisms" => acceptor.sasl_mechanisms(row.alloc));
    }
}

/// Says a reply. That by `body` or `frame` is followed by the count of HMAC values, and by the user.
pub fn say_reply<A: AuthenticatedUser>(
    row: &mut Row<'_>,
    acceptor: &A,
    call: &str,
    reply: &Result<ServerReply, Error>,
    meter: Meter,
) {
    reply.say(row);
    if call != "step" && reply.is_ok() {
        row.say("hmacs");
        row.say(meter.count());
        say_user(row, acceptor);
    }
}

/// Says the user that an acceptor names, and for whom the user acts.
fn say_user<A: AuthenticatedUser>(row: &mut Row<'_>, acceptor: &A) {
    if let Some(user) = acceptor.authenticated_user() {
        row.say("user");
        row.say(user);
    }
    if let Some(identity) = acceptor.acts_for() {
        row.say("as");
        row.say(identity);
    }
}

/// Says the answer of an acceptor by its own call.
pub fn own_step<A: AuthenticatedUser>(row: &mut Row<'_>, side: &mut A, call: &str, event: &Event) {
    let (alloc, nonce, mut meter) = (row.alloc, &event.nonce, Meter::new());
    let Ok((view, _)) = view_frame(&event.body) else {
        return row.refuse("no frame");
    };
    let reply = match (view.to_frame(alloc), call) {
        (Ok(Frame::Init(init)), "metered") =>
            call!(row: "SaslAcceptor::on_init_metered" => side.on_init_metered(alloc, init, nonce, &mut meter)),
        (Ok(Frame::Response(response)), "metered") =>
            call!(row: "SaslAcceptor::on_response_metered" => side.on_response_metered(alloc, response, &mut meter)),
        (Ok(Frame::Init(init)), _) =>
            call!(row: "SaslAcceptor::on_init" => side.on_init(alloc, init, nonce)),
        (Ok(Frame::Response(response)), _) =>
            call!(row: "SaslAcceptor::on_response" => side.on_response(alloc, response)),
        _ => return row.refuse("neither an init nor a response"),
    };
    match reply {
        Ok(SaslServerFrame::Challenge(it)) => say_frame(row, "Challenge", Frame::Challenge(it)),
        Ok(SaslServerFrame::Outcome(outcome)) => say_outcome(row, outcome),
        Ok(SaslServerFrame::Rejected(reason)) => {
            row.say("Rejected");
            row.show(&reason);
        }
        Err(error) => return row.show(&error),
    }
    say_user(row, side);
}

/// Checks this acceptor, or copies it by a call of this name.
pub fn serve<A: AuthenticatedUser + Drop>(
    row: &mut Row<'_>,
    run: &Run<'_>,
    acceptor: A,
    clone: &'static str,
) {
    if run.calls.first() != Some(&"clone") {
        return check_side(row, run, &mut Acceptor { acceptor });
    }
    again!(row: say_copied(row, clone, &acceptor));
    run.agree(row);
}

/// Checks an acceptor: `MECHANISM,.. NAME PASSWORD`, of which `ANONYMOUS` has no further words.
pub fn check_acceptor(row: &mut Row<'_>, run: &Run<'_>) {
    let (anonymous, names) = (SaslAnonymousMechanism::new(), row.word());
    if names == "ANONYMOUS" {
        return serve(row, run, anonymous, "SaslAnonymousMechanism::clone");
    }
    let user = row.text_of_digits();
    let plain = SaslPlainMechanism::new(user, row.text_of_digits());
    if names == "PLAIN" {
        return serve(row, run, plain, "SaslPlainMechanism::clone");
    }
    let both = AnyMechanism::new(plain, anonymous);
    serve(row, run, both, "AnyMechanism::clone");
}

/// Returns the credential of a server: `USER PASSWORD SALT`.
pub fn credential_of(row: &mut Row<'_>, version: ScramVersion) -> Option<SingleScramCredential> {
    let (user, password, salt) = (row.text_of_digits(), row.text_of_digits(), row.nonce());
    let credential = SingleScramCredential::new(row.alloc, user, &password, version, salt);
    row.get(credential)
}

/// Checks a server of one user: `VERSION USER PASSWORD SALT`, of a kind: `server`, `server_plus` that binds the channel
/// of a kind and data, or one with the option of that name.
pub fn check_scram(row: &mut Row<'_>, run: &Run<'_>, kind: &str) {
    let version = version(row);
    let credential = credential_of(row, version);
    let mut rules = ServerRules::new();
    match kind {
        "cbind_flag_y" => rules.accept_cbind_flag_y = true,
        "reject_misplaced" => rules.reject_misplaced = true,
        "strict" => rules.strict = true,
        "server_plus" => rules.channels = channels(row),
        _ => {}
    }
    if let Some(credential) = credential {
        check_stored(row, run, rules, credential);
    }
}

/// Checks a server with these records, in order: `VERSION RECORD..`, each a name, a salt, a count and its two keys.
pub fn check_records(row: &mut Row<'_>, run: &Run<'_>) {
    let version = version(row);
    let mut store = RecordStore::new(row.alloc, version);
    for _ in 0..4 {
        if !row.is_over() {
            let (name, salt, count) = (row.text_of_digits(), row.digits(), row.number());
            let record = ScramRecord::from_parts(version, salt, count, row.digits(), row.digits());
            row.made(store.add(name, record), ());
        }
    }
    check_stored(row, run, ServerRules::new(), store);
}

/// Checks a server of these credentials in a whole run, by the call for its rules, and step by step.
fn check_stored<C: ScramCredentialProvider + Drop>(
    row: &mut Row<'_>,
    run: &Run<'_>,
    rules: ServerRules,
    credentials: C,
) {
    if run.calls.iter().all(|call| *call == "step") {
        again!(row: run_stored(row, run, rules, &credentials));
        run.agree(row);
    }
    let acceptor = ScramAuthenticator::new(credentials).with_rules(rules);
    let mut side = Acceptor { acceptor };
    check_steps(row, run, &mut side);
    drop(side);
}

/// Says the answers of a server of these credentials in a whole run.
fn run_stored<C: ScramCredentialProvider>(
    row: &mut Row<'_>,
    run: &Run<'_>,
    rules: ServerRules,
    credentials: &C,
) {
    let replies = if rules == ServerRules::new() {
        call!(row: "scram_server_run" => scram_server_run(row.alloc, credentials, &run.events))
    } else {
        call!(row: "scram_server_run_with_rules" => scram_server_run_with_rules(row.alloc, rules, credentials, &run.events))
    };
    say_all(row, replies);
}
