//! Messages of an exchange, as sides read them that test the grammar, and as one without options reads them.

use base64::engine::general_purpose::STANDARD;
use fe2o3_scram::*;
use test_rows::{Row, call};

/// The client's nonce, that of both sides, and the server's signature in base64 (RFC 5802, section 5).
const CLIENT_NONCE: &str = "fyko+d2lbbFgONRv9qkxdawL";

const BOTH: &[u8] = b"fyko+d2lbbFgONRv9qkxdawL3rfcNHYJY1ZVvWVs7j";

const SIGNATURE: &[u8] = b"rmF9pqV8S7suAoZWja4dJRkFsKQ=";

/// Says whether a side reads a message: `SIDE KIND MESSAGE`, where the side is `plain`, without options, `strict`, or
/// `reject_misplaced`: a server with that rule, and a client that says `y,,`.
pub fn message(row: &mut Row<'_>) {
    let (alloc, side, kind, message) = (row.alloc, row.word(), row.word(), row.bytes());
    let (mut rules, mut channel) = (ServerRules::new(), ClientChannel::Absent);
    match side {
        "plain" => (),
        "strict" => rules.strict = true,
        _ => {
            rules.reject_misplaced = true;
            channel = ClientChannel::NotOffered;
        }
    }
    let (header, strict) = (ClientHeader::new(channel, None), rules.strict);
    match (side, kind) {
        ("plain", "client-first") =>
            judge!(row: "ClientFirst::parse" => ClientFirst::parse(alloc, &message), "read"),
        ("plain", "client-final") =>
            judge!(row: "ClientFinal::parse" => ClientFinal::parse(alloc, BOTH, &message), "read"),
        ("plain", "server-final") =>
            judge!(row: "ServerFinal::parse" => ServerFinal::parse(alloc, &message), "read"),
        (_, "client-first") => judge!(row: "ClientFirst::parse_with_rules" =>
            ClientFirst::parse_with_rules(alloc, &message, rules), "read"),
        (_, "client-final") => {
            let (header, strict) = (ClientHeader::plain(), rules.is_strict());
            judge!(row: "ClientFinal::parse_with_header" =>
                ClientFinal::parse_with_header(alloc, &header, strict, BOTH, &message), "read");
        }
        (_, "server-first") => server_first(row, &header, strict, &message),
        (_, "server-final") => server_final(row, &header, strict, &message),
        _ => row.refuse(kind),
    }
}

fn server_first(row: &mut Row<'_>, header: &ClientHeader<'_>, strict: bool, message: &[u8]) {
    let (alloc, text) = (row.alloc, row.made(str::from_utf8(message), ""));
    let secret = ClientSecret::Password(Password::Typed("pencil"));
    let (nonce, limits) = (CLIENT_NONCE, IterationLimits::none());
    judge!(row: "ServerFirst::parse_with_header" =>
        ServerFirst::parse_with_header(alloc, header, strict, nonce, secret, limits, text), "read");
}

fn server_final(row: &mut Row<'_>, header: &ClientHeader<'_>, strict: bool, message: &[u8]) {
    let (alloc, version) = (row.alloc, ScramVersion::Sha1);
    let signature = row.made(STANDARD.decode(alloc, SIGNATURE), Vec::new(alloc));
    judge!(row: "ScramVersion::validate_server_final_with_header" =>
        version.validate_server_final_with_header(alloc, header, strict, message, &signature), "read");
}
