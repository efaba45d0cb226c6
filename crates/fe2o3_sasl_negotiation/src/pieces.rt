//! Whole connections over bytes that arrive in pieces, without a socket: for tests, replays and logs.

ghost use Rattle.std.specs.Prelude.{◌≡◌, ◌≢◌, ◌↔◌, ◌<◌, ◌≤◌, ◌++◌, List, ℕ, IfOk, length, map, false, option_map, string_bytes};
ghost use Rattle.fe2o3_sasl_wire.specs.SaslFrames.{IsBytes};
ghost use Rattle.fe2o3_sasl_negotiation.specs.declared.progress.Progress.TheVariants.{InProgress, Authenticated};
ghost use Rattle.fe2o3_scram.specs.ClientFirst.{default_rules};
ghost use Rattle.fe2o3_scram.specs.Credentials.{serving};
ghost use Rattle.fe2o3_scram.specs.ScramServer.{Initial, served_by, state_in};
ghost use Rattle.fe2o3_sasl_core.specs.Profiles.{Profile};
ghost use Rattle.fe2o3_sasl_core.specs.Runs.{ProfileSteps};
ghost use Rattle.fe2o3_sasl_core.specs.SaslProfile.{profile_of};
ghost use Rattle.fe2o3_sasl_core.specs.SaslAcceptor.{ScramAcceptor, acceptor_machine, acceptor_names, acceptor_user};
ghost use Rattle.fe2o3_sasl_negotiation.specs.Connections.{ServerConnection, ServerNegotiated, ClientConnection, LastReply, IsOkSent, bytes_of};
ghost use Rattle.fe2o3_sasl_negotiation.specs.ScramConnections.{ScramServes};
ghost use Rattle.fe2o3_sasl_negotiation.specs.Pieces.{piece_of, first_bytes};
ghost use Rattle.fe2o3_sasl_negotiation.specs.Sides.{client_side, extended_in, hostname_in, server_side};
ghost use Rattle.fe2o3_sasl_negotiation.specs.private.Pieces.{Continues};

use crate::client::ClientNegotiation;
use crate::progress::Progress;
use crate::server::ServerNegotiation;
use bytes::BytesMut;
use fe2o3_sasl_core::{AuthenticatedUser, OutOfMemory, SaslProfile};
use fe2o3_scram::Meter;
use fe2o3_scram::credentials::ScramCredentialProvider;
use fe2o3_scram::scram_server::ScramAuthenticator;
use std::alloc::Global;

/// Bytes that arrive together, and 32 random bytes: the nonce of each frame whose last byte is among them.
#[derive(Drop)]
pub struct Piece<'a> {
    /// The bytes.
    pub bytes: &'a [u8],

    /// The nonce.
    pub nonce: [u8; 32],
}

/// A side of a connection after the pieces that it was passed.
#[derive(Drop)]
pub struct Negotiated<S> {
    /// The side, with its progress.
    pub side: S,

    /// What it has sent.
    pub sent: BytesMut,

    /// How many pieces it has taken whole.
    pub pieces: usize,

    /// How many bytes of the next piece it has taken. The rest is AMQP's.
    pub bytes: usize,
}

/// Passes the bytes of a piece to the side, up to those that it does not take.
fn serve_piece<A: AuthenticatedUser>(
    alloc: Global,
    side: &mut ServerNegotiation<A>,
    piece: &Piece<'_>,
    sent: &mut BytesMut,
) -> Result<usize, OutOfMemory>
    requires { extended_in side.old ≡ false }
    ensures within { IfOk result (λ taken. taken ≤ length piece.now.bytes.now) }
    ensures all { IfOk result (λ taken. taken < length piece.now.bytes.now
        → (server_side A.state side.new).progress ≢ InProgress) }
    ensures extended { IfOk result (λ _. extended_in side.new ≡ false) }
    ensures ok { IfOk result (λ taken. (more : List ℕ) × (sent.new.items ≡ sent.old.items ++ more)
        × ((limit : ℕ) (state : A.State)
        → Continues (ServerConnection A.names A.machine limit state) (server_side A.state side.old)
        piece.now.bytes.now piece.now.nonce taken more (server_side A.state side.new))) }
{
    let mut taken = 0;
    while taken < piece.bytes.len() && side.progress() == Progress::InProgress {
        let mut meter = Meter::new();
        let received = side.receive(alloc, &piece.bytes[taken..], &piece.nonce, &mut meter, sent)?;
        taken += received.taken;
    }
    Ok(taken)
}

/// Runs a server's side of a new connection over bytes that arrive in these pieces, with an acceptor that no connection
/// has used: the whole connection up to where the side takes no more. While it waits it takes them all. If memory runs
/// out nothing is returned.
pub fn server_connection<A: AuthenticatedUser + Drop>(
    alloc: Global,
    acceptor: A,
    pieces: &[Piece<'_>],
) -> Result<Negotiated<ServerNegotiation<A>>, OutOfMemory>
    ensures connection { IfOk result (λ served. IsBytes (bytes_of (map piece_of pieces.now))
        → ServerConnection A.names A.machine 512 (A.state acceptor) (map piece_of pieces.now)
        (first_bytes (map piece_of pieces.now) served.pieces served.bytes) served.sent.items
        (server_side A.state served.side)) }
    ensures all { IfOk result (λ served. (server_side A.state served.side).progress ≡ InProgress
        → served.pieces ≡ length pieces.now) }
{
    let mut side = ServerNegotiation::new(alloc, acceptor);
    let mut sent = BytesMut::new(alloc);
    let mut whole = 0;
    for piece in pieces {
        let taken = serve_piece(alloc, &mut side, piece, &mut sent)?;
        if taken < piece.bytes.len() {
            return Ok(Negotiated {
                side,
                sent,
                pieces: whole,
                bytes: taken,
            });
        }
        whole += 1;
    }
    Ok(Negotiated {
        side,
        sent,
        pieces: whole,
        bytes: 0,
    })
}

/// Like [`server_connection`], for a SCRAM server over these credentials that no connection has used: the headline
/// theorem over bytes. It has logged a client in exactly if it sent an Ok, and it names the user of the challenge. It
/// answers Ok only to a response that fits its open challenge and whose proof meets the stored key.
pub fn scram_server_connection<C: ScramCredentialProvider>(
    alloc: Global,
    credentials: &C,
    pieces: &[Piece<'_>],
) -> Result<Negotiated<ServerNegotiation<ScramAuthenticator<C>>>, OutOfMemory>
    ensures connection { IfOk result (λ served. IsBytes (bytes_of (map piece_of pieces.now))
        → ServerConnection acceptor_names acceptor_machine 512
        (ScramAcceptor (serving default_rules (C.meaning credentials.now)) Initial) (map piece_of pieces.now)
        (first_bytes (map piece_of pieces.now) served.pieces served.bytes) served.sent.items
        (server_side (λ server. ScramAcceptor (served_by C.meaning server) (state_in server)) served.side)) }
    ensures headline { IfOk result (λ served. (taken out : List ℕ)
        (negotiated : ServerNegotiated acceptor_machine 512
        (ScramAcceptor (serving default_rules (C.meaning credentials.now)) Initial) (map piece_of pieces.now) taken out
        (server_side (λ server. ScramAcceptor (served_by C.meaning server) (state_in server)) served.side))
        → ScramServes (serving default_rules (C.meaning credentials.now)) negotiated.events negotiated.replies
        (acceptor_user
        (server_side (λ server. ScramAcceptor (served_by C.meaning server) (state_in server)) served.side).state)) }
    ensures logged_in { IfOk result (λ served. (taken out : List ℕ)
        (negotiated : ServerNegotiated acceptor_machine 512
        (ScramAcceptor (serving default_rules (C.meaning credentials.now)) Initial) (map piece_of pieces.now) taken out
        (server_side (λ server. ScramAcceptor (served_by C.meaning server) (state_in server)) served.side))
        → ((server_side (λ server. ScramAcceptor (served_by C.meaning server) (state_in server)) served.side).progress
        ≡ Authenticated) ↔ LastReply IsOkSent negotiated.replies) }
    ensures all { IfOk result (λ served.
        (server_side (λ server. ScramAcceptor (served_by C.meaning server) (state_in server)) served.side).progress ≡ InProgress
        → served.pieces ≡ length pieces.now) }
{
    let credentials = credentials.clone()?;
    server_connection(alloc, ScramAuthenticator::new(credentials), pieces)
}

/// Passes the bytes of a piece to the client's side, up to those that it does not take.
fn answer_piece(
    alloc: Global,
    side: &mut ClientNegotiation,
    piece: &Piece<'_>,
    sent: &mut BytesMut,
) -> Result<usize, OutOfMemory>
    requires { extended_in side.old ≡ false }
    ensures within { IfOk result (λ taken. taken ≤ length piece.now.bytes.now) }
    ensures all { IfOk result (λ taken. taken < length piece.now.bytes.now
        → (client_side side.new).progress ≢ InProgress) }
    ensures extended { IfOk result (λ _. extended_in side.new ≡ false) }
    ensures hostname { IfOk result (λ _. hostname_in side.new ≡ hostname_in side.old) }
    ensures ok { IfOk result (λ taken. (more : List ℕ) × (sent.new.items ≡ sent.old.items ++ more)
        × ((limit : ℕ) (profile : Profile)
        → Continues (ClientConnection (ProfileSteps (hostname_in side.old)) limit profile) (client_side side.old)
        piece.now.bytes.now piece.now.nonce taken more (client_side side.new))) }
{
    let mut taken = 0;
    while taken < piece.bytes.len() && side.progress() == Progress::InProgress {
        let mut meter = Meter::new();
        let received = side.receive(alloc, &piece.bytes[taken..], &piece.nonce, &mut meter, sent)?;
        taken += received.taken;
    }
    Ok(taken)
}

/// Like [`server_connection`], for a client with a profile that no connection has used, and a hostname if any: what it
/// sends after its own header. The clause `scram` of the law `client_connections` states the headline theorem of its
/// bodies and replies.
pub fn client_connection(
    alloc: Global,
    profile: SaslProfile,
    hostname: Option<String>,
    pieces: &[Piece<'_>],
) -> Result<Negotiated<ClientNegotiation>, OutOfMemory>
    ensures connection { IfOk result (λ answered. IsBytes (bytes_of (map piece_of pieces.now))
        → ClientConnection (ProfileSteps (option_map string_bytes hostname)) 512 (profile_of profile) (map piece_of pieces.now)
        (first_bytes (map piece_of pieces.now) answered.pieces answered.bytes) answered.sent.items
        (client_side answered.side)) }
    ensures all { IfOk result (λ answered. (client_side answered.side).progress ≡ InProgress
        → answered.pieces ≡ length pieces.now) }
{
    let mut side = ClientNegotiation::new(alloc, profile, hostname);
    let mut sent = BytesMut::new(alloc);
    let mut whole = 0;
    for piece in pieces {
        let taken = answer_piece(alloc, &mut side, piece, &mut sent)?;
        if taken < piece.bytes.len() {
            return Ok(Negotiated {
                side,
                sent,
                pieces: whole,
                bytes: taken,
            });
        }
        whole += 1;
    }
    Ok(Negotiated {
        side,
        sent,
        pieces: whole,
        bytes: 0,
    })
}
