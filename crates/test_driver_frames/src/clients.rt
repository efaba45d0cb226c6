//! Clients: profiles, and those of SCRAM in whole runs.

use crate::frames::say_frame;
use crate::replies::{Reply, say_all, say_outcome};
use crate::runs::{Run, Side, check_side, check_steps};
use crate::words::{bound_channel, keys_of, version};
use fe2o3_sasl::*;
use fe2o3_sasl_wire::{Frame, FrameView, view_frame};
use test_rows::{Row, again, call};

/// A profile as a side, and the hostname of its init.
#[derive(Drop)]
struct Client {
    profile: Box<SaslProfile>,
    hostname: Option<String>,
}

impl Side for Client {
    fn run(&self, row: &mut Row<'_>, events: &[Event]) {
        let copy = call!(row: "SaslProfile::clone" => self.profile.clone());
        if let Some(mut copy) = row.get(copy) {
            let replies = call!(row: "run_profile" =>
                run_profile(row.alloc, &mut copy, events, self.hostname.as_deref()));
            say_all(row, replies);
        }
    }

    /// Says the answer to an event by a call: a step, the profile's own, or a part of its init with the nonce.
    fn step(&mut self, row: &mut Row<'_>, call: &str, event: &Event) {
        let (alloc, hostname, mut meter) = (row.alloc, self.hostname.as_deref(), Meter::new());
        let profile: &mut SaslProfile = &mut self.profile;
        let Event { body, nonce } = event;
        let reply = match (call, view_frame(body)) {
            ("step", _) =>
                call!(row: "profile_step" => profile_step(alloc, profile, event, hostname)),
            ("body", _) => call!(row: "profile_body_step" =>
                profile_body_step(alloc, profile, body, nonce, hostname, &mut meter)),
            ("frame", Ok((view, _))) => call!(row: "profile_frame_step" =>
                profile_frame_step(alloc, profile, view, nonce, hostname, &mut meter)),
            (_, Ok((view, _))) => return own_step(row, profile, hostname, call, (view, nonce)),
            _ => return say_part(row, profile, call, nonce),
        };
        reply.say(row);
        drop(reply);
    }
}

/// Says the answer of a profile by its own call, or the `Debug` text of the answer.
fn own_step(
    row: &mut Row<'_>,
    profile: &mut SaslProfile,
    hostname: Option<&str>,
    call: &str,
    (view, nonce): (FrameView<'_>, &[u8; 32]),
) {
    let Ok(frame) = view.to_frame(row.alloc) else {
        return row.refuse("no frame");
    };
    let reply =
        call!(row: "SaslProfile::on_frame" => profile.on_frame(row.alloc, frame, hostname, nonce));
    if call == "shown" {
        row.show(&reply);
        return drop(reply);
    }
    match reply {
        Ok(Negotiation::Init(init)) => say_frame(row, "Init", Frame::Init(init)),
        Ok(Negotiation::Response(it)) => say_frame(row, "Response", Frame::Response(it)),
        Ok(Negotiation::Outcome(outcome)) => say_outcome(row, outcome),
        Err(error) => row.show(&error),
    }
}

/// Says a part of a profile's init, or what a profile is.
fn say_part(row: &mut Row<'_>, profile: &mut SaslProfile, call: &str, nonce: &[u8; 32]) {
    match call {
        "mechanism" => show_call!(row: "SaslProfile::mechanism" => profile.mechanism(row.alloc)),
        "initial_response" => say_initial_response(row, profile, nonce),
        "due" => row.say(profile.answers_empty_challenge()),
        _ => row.show(profile),
    }
}

/// Says the mechanism and the initial response of a profile with a nonce of 32 bytes 01.
pub fn say_init(row: &mut Row<'_>, profile: &mut SaslProfile) {
    if let Ok(mechanism) = profile.mechanism(row.alloc) {
        row.say(mechanism.as_str());
    }
    say_initial_response(row, profile, &[1; 32]);
}

/// Says the initial response of a profile.
fn say_initial_response(row: &mut Row<'_>, profile: &mut SaslProfile, nonce: &[u8; 32]) {
    let response =
        call!(row: "SaslProfile::initial_response" => profile.initial_response(row.alloc, nonce));
    match response {
        Ok(Some(response)) => row.show_made(&str::from_utf8(&response.0)),
        Ok(None) => row.say("none"),
        Err(error) => row.show(&error),
    }
}

/// Says the answers of a client of SCRAM in a whole run, by the call for its options.
fn run_scram(
    row: &mut Row<'_>,
    (user, password, version): (&str, &str, ScramVersion),
    options: ClientOptions,
    events: &[Event],
) {
    let (alloc, limit) = (row.alloc, options.limits.max_iterations);
    let mut limited = ClientOptions::new();
    limited.limits.max_iterations = limit;
    let replies = if options == ClientOptions::new() {
        call!(row: "scram_client_run" => scram_client_run(alloc, user, password, version, events))
    } else if options == limited {
        call!(row: "scram_client_run_limited" => scram_client_run_limited(alloc, user, password, version, limit, events))
    } else {
        call!(row: "scram_client_run_with_options" =>
            scram_client_run_with_options(alloc, user, password, version, options, events))
    };
    say_all(row, replies);
}

/// Checks a client of SCRAM: `VERSION USER PASSWORD`, of a kind: `client` with a limit on the count or with none,
/// `client_plus` that binds the channel of a kind and data, `client_unoffered` that says `y,,`, or `strict`.
pub fn check_scram(row: &mut Row<'_>, run: &Run<'_>, kind: &str) {
    let (version, user, password) = (version(row), row.text_of_digits(), row.text_of_digits());
    let mut options = ClientOptions::new();
    match kind {
        "client_plus" => options.channel = bound_channel(row),
        "client_unoffered" => options.channel = ClientChannel::NotOffered,
        "strict" => options.strict = true,
        _ if row.is_over() => {}
        _ => options.limits.max_iterations = row.number(),
    }
    let words = (user.as_str(), password.as_str(), version);
    again!(row: run_scram(row, words, options, &run.events));
    run.agree(row);
    let client = ScramClient::new(user, password, version).with_options(options);
    if let Some(mut client) = client_of(row, Some(SaslProfile::from(client))) {
        check_steps(row, run, &mut client);
        drop(client);
    }
}

/// Checks a profile: the words of `profile_of`, and its hostname. After `acting IDENTITY`, it acts for the identity.
pub fn check_profile(row: &mut Row<'_>, run: &Run<'_>, kind: &str) {
    let profile = if kind == "acting" {
        let (identity, kind) = (row.text_of_digits(), row.word());
        profile_of(row, kind).and_then(|profile| profile.acting_for(identity))
    } else {
        profile_of(row, kind)
    };
    if let Some(mut client) = client_of(row, profile) {
        check_side(row, run, &mut client);
        return drop(client);
    }
    row.say("no profile");
    run.agree(row);
}

/// Returns a profile with the hostname of the words that are left.
fn client_of(row: &mut Row<'_>, profile: Option<SaslProfile>) -> Option<Client> {
    let profile = Box::new(row.alloc, profile?).ok()?;
    let hostname = if row.is_over() || row.takes("none") {
        None
    } else {
        Some(row.text_of_digits())
    };
    Some(Client { profile, hostname })
}

/// Returns the profile of a user by a secret of a kind, as the heads of `named-runs.txt` and `clients.txt` have them.
fn profile_of(row: &mut Row<'_>, kind: &str) -> Option<SaslProfile> {
    let (mechanism, user) = (row.word(), row.text_of_digits());
    let (password, keys) = match kind {
        "keyed" => (String::new(row.alloc), keys_for(row, mechanism, kind)),
        "both" | "prepared-both" => (row.text_of_digits(), keys_for(row, mechanism, kind)),
        _ => (row.text_of_digits(), None),
    };
    let mut options = ClientOptions::new();
    if kind == "both" {
        options.limits.min_iterations = row.number();
    }
    if !row.is_over() {
        options.limits.max_iterations = row.number();
    }
    match mechanism {
        "ANONYMOUS" => Some(SaslProfile::Anonymous),
        "EXTERNAL" => Some(SaslProfile::External),
        "ANONYMOUS-AS" => Some(SaslProfile::anonymous_as(user)),
        "EXTERNAL-AS" => Some(SaslProfile::external_as(user)),
        "PLAIN" if kind == "checked" => SaslProfile::plain_checked(user, password),
        "PLAIN" => Some(SaslProfile::plain(user, password)),
        name => {
            let version = ScramVersion::from_mechanism(name)?;
            let secret = secret_of(kind, &password, &keys);
            let client = ScramClient::with_secret(row.alloc, user, secret, version).ok()?;
            Some(SaslProfile::from(client.with_options(options)))
        }
    }
}

/// Returns keys: `PASSWORD SALT COUNT`, of a password that is prepared if that of the kind is.
fn keys_for(row: &mut Row<'_>, mechanism: &str, kind: &str) -> Option<CachedKeys> {
    let version = ScramVersion::from_mechanism(mechanism)?;
    let password = row.text_of_digits();
    keys_of(row, version, password_of(kind, &password))
}

/// Returns a password of a kind: prepared, or typed.
fn password_of<'a>(kind: &str, text: &'a str) -> Password<'a> {
    match kind {
        "prepared" | "prepared-both" => Password::Prepared(text),
        _ => Password::Typed(text),
    }
}

/// Returns the secret of a kind.
fn secret_of<'a>(kind: &str, password: &'a str, keys: &'a Option<CachedKeys>) -> ClientSecret<'a> {
    let password = password_of(kind, password);
    match keys {
        Some(keys) if kind == "keyed" => ClientSecret::Keys(keys),
        Some(keys) => ClientSecret::PasswordAndKeys { password, keys },
        None => ClientSecret::Password(password),
    }
}
