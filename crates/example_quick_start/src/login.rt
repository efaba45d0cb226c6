//! A login over frame bodies in memory, which keeps what each side was given.

use crate::{client, server};
use anyhow::{Context, Result, bail};
use bytes::BytesMut;
use fe2o3_sasl_negotiation::{Event, Frame, FrameCodec, SaslAcceptorExt, SaslProfile};
use std::alloc::Global;
use std::random::RandomSource;

/// The bodies that each side of a connection was given, in order, and who has logged in by them.
#[derive(Drop)]
pub struct Transcript {
    /// Those of the client.
    pub client: Vec<Event>,

    /// Those of the server.
    pub server: Vec<Event>,

    /// Who has logged in.
    pub user: String,

    /// The salt of the server's record.
    pub salt: [u8; 32],
}

/// Fresh random bytes, for a nonce, a salt or a secret.
pub fn fresh<R: RandomSource>(rt: &R) -> Result<[u8; 32]> {
    let mut bytes = [0; 32];
    rt.fill_bytes(&mut bytes)?;
    Ok(bytes)
}

/// The body that the server sends first: the names of its mechanisms.
pub fn offer(alloc: Global, server: &server::Server) -> Result<Vec<u8>> {
    let mechanisms = server.sasl_mechanisms(alloc)?;
    let mut body = BytesMut::new(alloc);
    (FrameCodec {}).encode(Frame::Mechanisms(mechanisms), &mut body)?;
    Ok(body.into_vec()?)
}

/// A login, from the first body to the client's end.
pub fn log_in<R: RandomSource>(rt: &R, alloc: Global) -> Result<Transcript> {
    let mut given = Transcript {
        client: Vec::new(alloc),
        server: Vec::new(alloc),
        user: String::new(alloc),
        salt: fresh(rt)?,
    };
    let server = server::new_server(alloc, given.salt, fresh(rt)?)?;
    let mut server = Box::new(alloc, server)?;
    let mut client = Box::new(alloc, client::new_client(alloc)?)?;
    carry(rt, alloc, &mut client, &mut server, &mut given)?;
    Ok(given)
}

/// Carries bodies from side to side until the client is logged in.
fn carry<R: RandomSource>(
    rt: &R,
    alloc: Global,
    client: &mut SaslProfile,
    server: &mut server::Server,
    given: &mut Transcript,
) -> Result<()> {
    let mut body = offer(alloc, server)?;
    for _ in 0..3 {
        let Some(answer) = to_client(alloc, client, given, body, fresh(rt)?)? else {
            return name_user(alloc, server, given);
        };
        body = to_server(alloc, server, given, answer, fresh(rt)?)?;
    }
    bail!("no outcome")
}

/// Keeps the name that the server logged in: that of the init whose challenge was answered.
fn name_user(alloc: Global, server: &server::Server, given: &mut Transcript) -> Result<()> {
    let user = server.authenticated_user().context("no user")?;
    given.user = user.to_string(alloc)?;
    Ok(())
}

/// Gives the client a body, with a nonce of its own.
fn to_client(
    alloc: Global,
    client: &mut SaslProfile,
    given: &mut Transcript,
    body: Vec<u8>,
    nonce: [u8; 32],
) -> Result<Option<Vec<u8>>> {
    let event = Event { body, nonce };
    let answer = client::answer(alloc, client, &event)?;
    given.client.push(event)?;
    Ok(answer)
}

/// Gives the server a body, with a nonce of its own.
fn to_server(
    alloc: Global,
    server: &mut server::Server,
    given: &mut Transcript,
    body: Vec<u8>,
    nonce: [u8; 32],
) -> Result<Vec<u8>> {
    let event = Event { body, nonce };
    let (answer, _) = server::answer(alloc, server, &event)?;
    given.server.push(event)?;
    Ok(answer)
}
