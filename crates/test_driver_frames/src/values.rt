//! Calls outside runs: values of frames and of protocol headers, selection of mechanisms, and names in messages.

use crate::clients::say_init;
use crate::frames::body_of;
use crate::words::{channel, keys_of, version};
use bytes::BytesMut;
use fe2o3_sasl::plain_server::{plain_identity, plain_user};
use fe2o3_sasl::*;
use fe2o3_sasl_wire::{
    Frame, FrameView, ProtocolHeader, ProtocolHeaderCodec, SaslMechanisms, Symbol, view_frame,
};
use test_rows::{Row, call};
use url::Url;

/// Says the view of a body.
pub fn view(row: &mut Row<'_>) {
    let body = body_of(row);
    if let Some((view, _)) = row.get(view_frame(&body)) {
        row.show(&view);
    }
}

/// Says a copy of a part of the frame of a body: `view`, `frame`, `struct`, `symbol`, `binary` or `array`.
pub fn frame_copy(row: &mut Row<'_>) {
    let (alloc, part, body) = (row.alloc, row.word(), body_of(row));
    let Ok((view, _)) = view_frame(&body) else {
        return row.refuse("no frame");
    };
    let frame = call!(row: "FrameView::to_frame" => view.to_frame(alloc));
    match (&frame, part) {
        (Err(error), _) => row.show(error),
        (Ok(frame), "view") => row.show(frame),
        (Ok(frame), "frame") => show_call!(row: "Frame::clone" => frame.clone()),
        (Ok(Frame::Mechanisms(it)), "array") =>
            show_call!(row: "Array::clone" => it.sasl_server_mechanisms.clone()),
        (Ok(Frame::Mechanisms(it)), _) => show_call!(row: "SaslMechanisms::clone" => it.clone()),
        (Ok(Frame::Init(it)), "symbol") => show_call!(row: "Symbol::clone" => it.mechanism.clone()),
        (Ok(Frame::Init(it)), _) => show_call!(row: "SaslInit::clone" => it.clone()),
        (Ok(Frame::Challenge(it)), "binary") =>
            show_call!(row: "Binary::clone" => it.challenge.clone()),
        (Ok(Frame::Challenge(it)), _) => show_call!(row: "SaslChallenge::clone" => it.clone()),
        (Ok(Frame::Response(it)), _) => show_call!(row: "SaslResponse::clone" => it.clone()),
        (Ok(Frame::Outcome(it)), _) => show_call!(row: "SaslOutcome::clone" => it.clone()),
    }
    drop(frame);
}

/// Says whether a value was copied.
pub fn say_copied<T: Clone + Drop>(row: &mut Row<'_>, call: &'static str, value: &T) {
    let copy = call!(row: call => value.clone());
    row.judge(&copy, "copied");
}

/// Says the symbol of a text.
pub fn symbol(row: &mut Row<'_>) {
    let text = row.text();
    show_call!(row: "Symbol::new" => Symbol::new(row.alloc, &text));
}

/// Says the offer of ANONYMOUS.
pub fn anonymous(row: &mut Row<'_>) {
    show_call!(row: "SaslMechanisms::anonymous" => SaslMechanisms::anonymous(row.alloc));
}

/// Says the bytes of a header by its name, written by the codec, which reads them again, or by the header's own call.
pub fn header(row: &mut Row<'_>) {
    let (is_own, mut buffer) = (row.takes("own"), BytesMut::new(row.alloc));
    let header = match row.word() {
        "amqp" => ProtocolHeader::amqp(),
        "tls" => ProtocolHeader::tls(),
        _ => ProtocolHeader::sasl(),
    };
    if is_own {
        return show_call!(row: "ProtocolHeader::to_bytes" => header.to_bytes(row.alloc));
    }
    let written =
        call!(row: "ProtocolHeaderCodec::encode" => ProtocolHeaderCodec::new().encode(header, &mut buffer));
    if row.get(written).is_some() {
        row.show(&ProtocolHeaderCodec::new().decode(&mut buffer));
    }
}

/// Says the user that an initial response of a mechanism claims.
pub fn claims(row: &mut Row<'_>) {
    let (mechanism, message) = (row.word(), row.bytes());
    show_call!(row: "claimed_user" => claimed_user(row.alloc, mechanism, &message));
}

/// Says the user and the identity of a message of PLAIN.
pub fn plain(row: &mut Row<'_>) {
    let message = row.bytes();
    row.show(&plain_user(&message));
    row.show(&plain_identity(&message));
}

/// Says the user and the identity of a server that is restored after their login by PLAIN, or of its copy.
pub fn restored(row: &mut Row<'_>) {
    let (alloc, is_copy, mut meter) = (row.alloc, row.takes("copy"), Meter::new());
    let line = format!(in alloc; "{}\n", row.rest());
    let line = row.made(line, String::new(alloc));
    let users = MultiRecordStore::parse_lines(alloc, &line);
    let users = row.made(users, MultiRecordStore::new(alloc));
    let options = ServerOptions::new(alloc, Mechanisms::scram());
    let saved = SavedStage::Authenticated(SavedLogin {
        mechanism: Mechanism::Plain,
        user: Some("user"),
        acts_for: Some("admin"),
    });
    let server = call!(row: "Server::restore" =>
        Server::restore(alloc, &users, &options, Transport::plaintext(), &saved, None, &mut meter));
    match &server {
        Ok(server) if is_copy => say_copied(row, "Server::clone", server),
        Ok(server) => {
            row.show(&server.authenticated_user());
            row.show(&server.acts_for());
        }
        Err(error) => row.show(error),
    }
    drop(server);
}

/// Says the event of a nonce and a body.
pub fn event(row: &mut Row<'_>) {
    let (nonce, body) = (row.word(), row.word());
    let event = call!(row: "Event::from_hex" => Event::from_hex(row.alloc, nonce, body));
    if let Some(event) = row.get(event) {
        row.say_digits(&event.nonce);
        row.say_digits(&event.body);
        row.show(&event);
    }
}

/// Says the user and the password of the profile of an address.
pub fn from_url(row: &mut Row<'_>) {
    let url = Url::parse(row.alloc, row.word());
    let Some(url) = row.get(url) else {
        return;
    };
    let profile = call!(row: "SaslProfile::from_url" => SaslProfile::from_url(row.alloc, &url));
    match &profile {
        Ok(SaslProfile::Plain { username, password }) => {
            row.show(&username.as_str());
            row.show(&password.as_str());
        }
        _ => row.show_made(&profile),
    }
    drop(profile);
}

/// Returns the policy of the words that are left: the minimum version of SCRAM, and what else is allowed.
fn policy(row: &mut Row<'_>) -> ClientPolicy {
    let mut policy = ClientPolicy::scram_from(version(row));
    for _ in 0..6 {
        if !row.is_over() {
            match row.word() {
                "or_external" => policy.external = true,
                "allow_plain" => policy.plain = true,
                "or_anonymous" => policy.anonymous = true,
                "must_bind" => policy.must_bind = true,
                _ => policy.channel = channel(row),
            }
        }
    }
    policy
}

/// Says the mechanism that a client selects from an offer, and its initial response with a nonce of 32 bytes 01.
pub fn select(row: &mut Row<'_>) {
    let (user, password, body) = (row.text(), row.text(), body_of(row));
    let (alloc, policy) = (row.alloc, policy(row));
    let Ok((FrameView::Mechanisms(offer), _)) = view_frame(&body) else {
        return row.refuse("no offer");
    };
    let secret = ClientSecret::Password(Password::Typed(&password));
    let mut selected =
        call!(row: "select_mechanism" => select_mechanism(alloc, &offer, &user, &secret, policy));
    match &mut selected {
        Ok(profile) => say_init(row, profile),
        Err(error) => row.show(error),
    }
    drop(selected);
}

/// Says the mechanism of a name.
pub fn mechanism(row: &mut Row<'_>) {
    let name = row.word();
    row.show(&Mechanism::of_name(name).map(|it| (it, it.name())));
}

/// Says the client by a policy from SCRAM-SHA-256 on, `USER PASSWORD`, or its copy.
pub fn by_policy(row: &mut Row<'_>) {
    let (alloc, is_copy, user, password) = (row.alloc, row.takes("copy"), row.text(), row.text());
    let secret = ClientSecret::Password(Password::Typed(&password));
    let policy = ClientPolicy::scram_from(ScramVersion::Sha256);
    let profile =
        call!(row: "SaslProfile::by_policy" => SaslProfile::by_policy(alloc, user, secret, policy));
    match &profile {
        Ok(profile) if is_copy => show_call!(row: "SaslProfile::clone" => profile.clone()),
        _ => row.show_made(&profile),
    }
    drop(profile);
}

/// Says the client of SCRAM-SHA-256 with keys, `USER PASSWORD SALT COUNT`, or its copy.
pub fn keyed(row: &mut Row<'_>) {
    let (alloc, is_copy, user, password) = (row.alloc, row.takes("copy"), row.text(), row.text());
    let keys = keys_of(row, ScramVersion::Sha256, Password::Typed(&password));
    let Some(keys) = &keys else {
        return;
    };
    let secret = ClientSecret::Keys(keys);
    let client =
        call!(row: "SaslScram::with_secret" => SaslScramSha256::with_secret(alloc, user, secret));
    match &client {
        Ok(client) if is_copy => show_call!(row: "SaslScram::clone" => client.clone()),
        _ => row.show_made(&client),
    }
    drop(client);
}
