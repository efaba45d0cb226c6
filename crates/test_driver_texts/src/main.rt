//! Answers the rows of `data/`, on values and texts of SCRAM and of SASLprep.
#![tactic(auto)]

/// Makes a call that may run out of memory, by its name, and says this word or the error.
macro_rules! judge {
    ($row:ident: $name:literal => $made:expr, $word:literal) => {{
        let made = call!($row: $name => $made);
        $row.judge(&made, $word);
        drop(made)
    }};
}

mod hashes;
mod messages;
mod names;
mod options;
mod prepared;
mod readings;
mod records;
mod sides;
mod stores;
mod texts;
mod words;

use std::process::ExitCode;
use test_rows::{Answers, Row, replay};

/// The calls of the libraries.
#[derive(Drop)]
struct Calls;

impl Answers for Calls {
    fn answer(&mut self, row: &mut Row<'_>) {
        match row.word() {
            "digest" => hashes::digest(row),
            "hmac" => hashes::hmac(row),
            "salted-password" => hashes::salted_password(row),
            "keys" => hashes::keys(row),
            "cached-keys" => hashes::cached_keys(row),
            "mechanism" => names::mechanism(row),
            "password" => names::password(row),
            "escape" => names::user_name(row),
            "unescape" => names::sent_name(row),
            "right" => names::right(row),
            "client-first" => messages::client_first(row),
            "new-client-first" => messages::new_client_first(row),
            "client-secret" => messages::client_secret(row),
            "client-password" => messages::client_password(row),
            "client-final" => messages::client_final(row),
            "server-final" => messages::server_final(row),
            "server-error" => messages::server_error(row),
            "auth-message" => messages::auth_message(row),
            "strict-message" => readings::message(row),
            "exchange" => sides::exchange(row),
            "prepared" => prepared::text(row),
            "code-points" => prepared::code_points(row),
            "record" => records::record(row),
            "record-fault" => records::record_fault(row),
            "record-lines" => records::record_lines(row),
            "mock-record" => records::made_up(row),
            "prepared-record" => records::prepared_record(row),
            "store" => stores::store(row),
            "versions" => stores::versions(row),
            "clone" => texts::clone(row),
            "text" => texts::text(row),
            word => row.refuse(word),
        }
    }

    fn answer_paragraph(&mut self, _words: &str, row: &mut Row<'_>) {
        sides::paragraph(row);
    }
}

fn main(rt: HostRuntime) -> ExitCode {
    replay(&rt, &mut Calls)
}
