//! The calls over the bytes of a whole connection, which arrive in pieces.

use crate::clients::named_by;
use crate::events::say_progress;
use crate::servers::{say_user, served_by};
use fe2o3_sasl_negotiation::{
    AuthenticatedUser, ConnectionSide, Endpoint, Negotiated, OutOfMemory, Piece, Role,
    ServerNegotiation, client_connection, scram_server_connection, server_connection,
};
use test_rows::{Row, call};

/// Reads the bytes of pieces, up to the end of a row.
fn bytes_by(row: &mut Row<'_>) -> Vec<Vec<u8>> {
    let mut bytes = Vec::new(row.alloc);
    for piece in row.rest().split(' ') {
        row.turn_to(piece);
        let piece = row.digits();
        row.push(&mut bytes, piece);
    }
    bytes
}

/// Returns the pieces of these bytes, each with this nonce.
fn pieces_of<'a>(row: &mut Row<'_>, nonce: [u8; 32], bytes: &'a [Vec<u8>]) -> Vec<Piece<'a>> {
    let mut pieces = Vec::new(row.alloc);
    for piece in bytes.iter() {
        let bytes = piece.as_slice();
        row.push(&mut pieces, Piece { bytes, nonce });
    }
    pieces
}

/// Says what was sent, how much was taken, and the progress.
fn say_negotiated<E: Endpoint<R>, R: Role>(
    row: &mut Row<'_>,
    negotiated: &Negotiated<ConnectionSide<E, R>>,
) {
    row.say_digits(negotiated.sent.as_slice());
    row.say(negotiated.pieces);
    row.say(negotiated.bytes);
    say_progress(row, negotiated.side.progress());
}

/// Says what a server was sent, and its user.
fn say_served<A: AuthenticatedUser + Drop>(
    row: &mut Row<'_>,
    made: Result<Negotiated<ServerNegotiation<A>>, OutOfMemory>,
) {
    if let Some(negotiated) = row.get(made) {
        say_negotiated(row, &negotiated);
        say_user(row, &negotiated.side);
    }
}

/// Answers the pieces of a row by a server: its words, and `NONCE BYTES..`.
pub fn answer_server(row: &mut Row<'_>) {
    let served = served_by(row);
    let (nonce, bytes) = (row.nonce(), bytes_by(row));
    let pieces = pieces_of(row, nonce, &bytes);
    let made =
        call!(row: "server_connection" => server_connection(row.alloc, served.server(), &pieces));
    say_served(row, made);
}

/// Answers the pieces of a row by a server of SCRAM.
pub fn answer_scram_server(row: &mut Row<'_>) {
    let (served, nonce, bytes) = (served_by(row), row.nonce(), bytes_by(row));
    let pieces = pieces_of(row, nonce, &bytes);
    let records = served.users.for_version(served.version);
    let made = call!(row: "scram_server_connection" =>
        scram_server_connection(row.alloc, records, &pieces));
    say_served(row, made);
}

/// Answers the pieces of a row by a client.
pub fn answer_client(row: &mut Row<'_>) {
    let Some((profile, hostname, _)) = named_by(row) else {
        return row.refuse("no profile");
    };
    let (nonce, bytes) = (row.nonce(), bytes_by(row));
    let pieces = pieces_of(row, nonce, &bytes);
    let made = call!(row: "client_connection" =>
        client_connection(row.alloc, profile, hostname, &pieces));
    if let Some(negotiated) = row.get(made) {
        say_negotiated(row, &negotiated);
    }
}
