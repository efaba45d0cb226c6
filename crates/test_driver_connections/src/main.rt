//! Answers the rows of `data/`: connections of servers and of clients, call by call.
#![tactic(auto)]

mod clients;
mod events;
mod pieces;
mod servers;

use fe2o3_sasl_negotiation::ClientNegotiation;
use std::process::ExitCode;
use test_rows::{Answers, Row, call, replay};

/// The calls that a row can name.
#[derive(Drop)]
struct Calls {}

impl Answers for Calls {
    fn answer(&mut self, row: &mut Row<'_>) {
        match row.word() {
            "server_connection" => pieces::answer_server(row),
            "scram_server_connection" => pieces::answer_scram_server(row),
            "client_connection" => pieces::answer_client(row),
            "ClientNegotiation::open" => answer_open(row),
            _ => row.refuse("no call"),
        }
    }

    fn answer_paragraph(&mut self, _words: &str, row: &mut Row<'_>) {
        let lines = row.rest();
        let side = lines.lines().find(|line| !line.starts_with('#'));
        row.turn_to(side.unwrap_or(""));
        match row.word() {
            "server" => servers::answer_paragraph(row, lines),
            "policy" => clients::answer_policy_paragraph(row, lines),
            _ => clients::answer_paragraph(row, lines),
        }
    }
}

/// Answers the header that a client sends first.
fn answer_open(row: &mut Row<'_>) {
    let mut out = bytes::BytesMut::new(row.alloc);
    let opened = call!(row: "ClientNegotiation::open" => ClientNegotiation::open(&mut out));
    if row.get(opened).is_some() {
        row.say_digits(out.as_slice());
    }
}

fn main(rt: HostRuntime) -> ExitCode {
    replay(&rt, &mut Calls {})
}
