//! Names of mechanisms and of users, and passwords.

use fe2o3_scram::*;
use std::borrow::CowStr;
use test_rows::{Row, call};

/// Says the version of a mechanism, by both calls: `NAME`.
pub fn mechanism(row: &mut Row<'_>) {
    let name = row.word();
    let version = ScramVersion::from_mechanism(name);
    if name.parse::<ScramVersion>().ok() != version {
        row.refuse("two answers");
    }
    match version {
        Some(version) => {
            row.show(&version);
            row.say(version.mechanism());
            row.say(version.mechanism_with(true));
        }
        None => row.say("unknown"),
    }
}

/// Says whether a password is prepared, and whether a credential is made of it: `PASSWORD`.
pub fn password(row: &mut Row<'_>) {
    let (alloc, password) = (row.alloc, row.text());
    match saslprep(&password) {
        Ok(prepared) if prepared == password.as_str() => row.say("the same,"),
        Ok(_) => row.say("another,"),
        Err(_) => row.say("NormalizeError,"),
    }
    let (user, version) = (row.own("user"), ScramVersion::Sha1);
    judge!(row: "SingleScramCredential::new" =>
        SingleScramCredential::new(alloc, user, &password, version, [3; 32]), "a credential");
}

/// Says how a name is sent: `NAME`.
pub fn user_name(row: &mut Row<'_>) {
    let (alloc, name) = (row.alloc, row.text());
    let sent = call!(row: "escape_username" => escape_username(alloc, name.as_bytes()));
    row.say_answer(&sent);
}

/// Says the name that is unescaped, and whether it is borrowed: `NAME`.
pub fn sent_name(row: &mut Row<'_>) {
    let (alloc, sent) = (row.alloc, row.text());
    let name = call!(row: "unescape_username" => unescape_username(alloc, &sent));
    if let Some(name) = row.get(name) {
        let is_borrowed = matches!(&name, CowStr::Borrowed(_));
        row.say(if is_borrowed { "borrowed" } else { "owned" });
        row.say(name.as_str());
    }
}

/// Says whether a user may act for an identity, before and after it has the right to: `USER IDENTITY`.
pub fn right(row: &mut Row<'_>) {
    let (alloc, user, acts_for) = (row.alloc, row.text(), row.text());
    let mut rights = ActingRights::new(alloc);
    let before = rights.may_act(&user, Some(&acts_for));
    judge!(row: "ActingRights::allow" => rights.allow(alloc, &user, &acts_for), "allowed");
    row.say(before);
    row.say(rights.may_act(&user, Some(&acts_for)));
}
