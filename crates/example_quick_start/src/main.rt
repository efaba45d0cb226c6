//! Logins with SCRAM-SHA-256, each of a client and a server in one program: over the bytes of a connection, over frame
//! bodies, and over the messages of SCRAM; by whole lists of bodies, from a store of your own, and with what the guide shows.
#![tactic(auto)]

mod client;
mod connection;
mod guide;
mod login;
mod own_store;
mod runs;
mod scram_client;
mod scram_server;
mod server;
mod wire;

use crate::login::{Transcript, fresh};
use crate::scram_client::Connection;
use anyhow::{Context, Result, ensure};
use bytes::BytesMut;
use fe2o3_sasl_negotiation::{MultiRecordStore, Server, ServerNegotiation, ServerOptions};
use std::alloc::Global;
use std::io;
use std::io::Write;
use std::random::RandomSource;

/// A connection to a server in memory, which prints how long each message is that goes through it.
#[derive(Drop)]
struct Printed<'a, W: Write> {
    alloc: Global,
    nonce: [u8; 32],
    server: Box<scram_server::Server>,
    output: &'a mut W,
}

impl<W: Write> Printed<'_, W> {
    /// Prints the length of a message.
    fn print(&mut self, name: &str, message: &[u8]) -> Result<()> {
        writeln!(self.output, "{name}: {} bytes", message.len())?;
        Ok(())
    }
}

impl<W: Write> Connection for Printed<'_, W> {
    fn start(&mut self, client_first: &[u8]) -> Result<Vec<u8>> {
        self.print("client-first", client_first)?;
        let challenge = self
            .server
            .challenge(self.alloc, client_first, &self.nonce)?;
        self.print("server-first", &challenge)?;
        Ok(challenge)
    }

    fn respond(&mut self, client_final: &[u8]) -> Result<Vec<u8>> {
        self.print("client-final", client_final)?;
        let outcome = self.server.conclude(self.alloc, client_final)?;
        self.print("server-final", &outcome)?;
        Ok(outcome)
    }
}

/// A login over texts, whose messages are told by their lengths.
fn over_texts<R: RandomSource, W: Write>(rt: &R, alloc: Global, output: &mut W) -> Result<()> {
    let nonces = [fresh(rt)?, fresh(rt)?];
    let server = scram_server::Server::new(alloc, fresh(rt)?, fresh(rt)?)?;
    let mut connection = Printed {
        alloc,
        nonce: nonces[1],
        server: Box::new(alloc, server)?,
        output,
    };
    scram_client::log_in(alloc, &mut connection, &nonces[0])?;
    writeln!(connection.output, "logged in")?;
    Ok(())
}

/// A login over frame bodies.
fn over_frames<R: RandomSource, W: Write>(
    rt: &R,
    alloc: Global,
    output: &mut W,
) -> Result<Transcript> {
    let given = login::log_in(rt, alloc)?;
    writeln!(output, "{} logged in over frames", given.user)?;
    Ok(given)
}

/// The names of a server's mechanisms, in a body.
fn first_offer<R: RandomSource>(rt: &R, alloc: Global) -> Result<Vec<u8>> {
    let server = server::new_server(alloc, fresh(rt)?, fresh(rt)?)?;
    login::offer(alloc, &server)
}

/// What a server sends first: its header, and the names of its mechanisms in a frame.
fn first_bytes<R: RandomSource>(rt: &R, alloc: Global) -> Result<BytesMut> {
    let offer = first_offer(rt, alloc)?;
    let mut bytes = BytesMut::new(alloc);
    wire::open(&mut bytes)?;
    wire::send(&mut bytes, &offer)?;
    Ok(bytes)
}

/// What a client reads of a server's first bytes.
fn over_bytes<R: RandomSource, W: Write>(rt: &R, alloc: Global, output: &mut W) -> Result<()> {
    let mut bytes = first_bytes(rt, alloc)?;
    writeln!(output, "{} bytes", bytes.len())?;
    ensure!(wire::is_open(&mut bytes)?, "a part of a header");
    let body = wire::receive(alloc, &mut bytes)?.context("a part of a frame")?;
    print_names(&body, output)
}

/// Prints the names that a server's first body offers.
fn print_names<W: Write>(body: &[u8], output: &mut W) -> Result<()> {
    let names = wire::offered(body)?;
    for name in names.iter() {
        writeln!(output, "offered: {name}")?;
    }
    Ok(())
}

/// A login over the bytes of a connection, whose salts, secret and nonces are random.
fn over_connection<R: RandomSource, W: Write>(rt: &R, alloc: Global, output: &mut W) -> Result<()> {
    let users = connection::new_users(rt, alloc)?;
    let secret = fresh(rt)?.to_vec(alloc)?;
    let options = connection::new_options(alloc, secret)?;
    meet_server(rt, alloc, &users, &options, output)
}

/// Logs in at a new server of these users, and prints who has logged in.
fn meet_server<R: RandomSource, W: Write>(
    rt: &R,
    alloc: Global,
    users: &MultiRecordStore,
    options: &ServerOptions,
    output: &mut W,
) -> Result<()> {
    let server = connection::new_server(alloc, users, options, false);
    let mut server = Box::new(alloc, server)?;
    connection::meet(rt, alloc, &mut server)?;
    print_user(&server, output)
}

/// Prints who has logged in.
fn print_user<W: Write>(side: &ServerNegotiation<Server<'_>>, output: &mut W) -> Result<()> {
    let user = side.authenticated_user().context("no user")?;
    writeln!(output, "{user} logged in over a connection")?;
    Ok(())
}

/// What the lists of bodies of a login say of each side.
fn over_lists<W: Write>(alloc: Global, given: &Transcript, output: &mut W) -> Result<()> {
    let user = server::new_user(alloc, given.salt)?;
    let let_in = runs::lets_in(alloc, &user, &given.server)?;
    writeln!(output, "the server lets the client in at {let_in:?}")?;
    let logged_in = runs::logs_in(alloc, &given.client)?;
    writeln!(output, "the client is logged in at {logged_in:?}")?;
    Ok(())
}

fn main(rt: HostRuntime) -> Result<()> {
    let mut output = io::writer(&rt);
    over_texts(&rt, rt.alloc(), &mut output)?;
    over_bytes(&rt, rt.alloc(), &mut output)?;
    over_connection(&rt, rt.alloc(), &mut output)?;
    let given = over_frames(&rt, rt.alloc(), &mut output)?;
    over_lists(rt.alloc(), &given, &mut output)?;
    own_store::report_all(&rt, rt.alloc(), &mut output)?;
    guide::report(&rt, rt.alloc(), &mut output)
}
