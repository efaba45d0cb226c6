//! What clients and servers of connections set beyond the first login: a strict client, channel binding, identities, the
//! log, cached keys, and saved sides. `report` makes a login with each.

use crate::connection::{new_options, new_users, pass};
use crate::login::fresh;
use anyhow::{Context, Result};
use bytes::BytesMut;
use fe2o3_sasl_negotiation::{
    CachedKeys, ChannelBinding, ChannelBindings, ChannelData, ChannelKind, ClientNegotiation,
    ClientOptions, ClientPolicy, ClientSecret, IterationLimits, Meter, MultiRecordStore, Password,
    SaslProfile, ScramClient, ScramVersion, Server, ServerNegotiation, ServerOptions, Transport,
};
use std::alloc::Global;
use std::io::Write;
use std::random::RandomSource;

/// The options of strict clients (RFC 5802, section 7). The server chooses the iteration count between the bounds.
pub fn client_options() -> ClientOptions {
    ClientOptions {
        limits: IterationLimits {
            min_iterations: 4096,
            max_iterations: 100_000,
        },
        strict: true,
        ..ClientOptions::new()
    }
}

/// A client by a password.
pub fn new_client(alloc: Global, user: &str, password: &str) -> Result<SaslProfile> {
    let (user, password) = (user.to_string(alloc)?, password.to_string(alloc)?);
    let client = ScramClient::new(user, password, ScramVersion::Sha256);
    Ok(SaslProfile::from(client.with_options(client_options())))
}

/// A client that binds its TLS connection, by the strongest hash that the server offers.
pub fn bound_client(
    alloc: Global,
    user: &str,
    password: &str,
    exported: &[u8; 32],
) -> Result<SaslProfile> {
    let channel = ChannelBinding {
        kind: ChannelKind::TlsExporter,
        cbind_data: ChannelData::new(exported)?,
    };
    let ClientOptions { limits, strict, .. } = client_options();
    let policy = ClientPolicy {
        limits,
        strict,
        channel: Some(channel),
        must_bind: true,
        ..ClientPolicy::scram_from(ScramVersion::Sha256)
    };
    let (user, secret) = (
        user.to_string(alloc)?,
        ClientSecret::Password(Password::Typed(password)),
    );
    Ok(SaslProfile::by_policy(alloc, user, secret, policy)?)
}

/// What a TLS connection brings to its server.
pub fn bound_transport(exported: &[u8; 32]) -> Result<Transport<'static>> {
    let channels = ChannelBindings {
        tls_unique: None,
        tls_server_end_point: None,
        tls_exporter: Some(ChannelData::new(exported)?),
    };
    Ok(Transport {
        is_tls: true,
        channels: Some(channels),
        external: "",
    })
}

/// Lets a user act for an identity.
pub fn let_act(
    alloc: Global,
    options: &mut ServerOptions,
    user: &str,
    identity: &str,
) -> Result<()> {
    options.accept_authzid = true;
    options.rights.allow(alloc, user, identity)?;
    Ok(())
}

/// Writes what the last init claimed, and why it was rejected. Names are quoted, since they may hold line feeds.
pub fn log<W: Write>(server: &Server<'_>, output: &mut W) -> Result<()> {
    let Some(attempt) = server.last_attempt() else {
        writeln!(output, "no init")?;
        return Ok(());
    };
    let (mechanism, user) = (&attempt.mechanism, &attempt.claimed_user);
    let why = server.last_rejection();
    writeln!(output, "{mechanism:?} {user:?} {why:?}")?;
    Ok(())
}

/// A client that logs in by the keys of an earlier login (`profile().keys()`). It knows no password.
pub fn keyed_client(alloc: Global, user: &str, keys: &CachedKeys) -> Result<SaslProfile> {
    let (user, secret) = (user.to_string(alloc)?, ClientSecret::Keys(keys));
    let client = ScramClient::with_secret(alloc, user, secret, keys.scram_version())?;
    Ok(SaslProfile::from(client.with_options(client_options())))
}

/// Restores a side in another place. The values that are saved hold no password, no key and no record.
pub fn moved<'a>(
    alloc: Global,
    side: &ServerNegotiation<Server<'_>>,
    users: &'a MultiRecordStore,
    options: &'a ServerOptions,
    transport: Transport<'a>,
) -> Result<ServerNegotiation<Server<'a>>> {
    let (saved, snapshot) = (side.acceptor().saved(), side.snapshot());
    let mut meter = Meter::new();
    let server = Server::restore(alloc, users, options, transport, &saved, None, &mut meter)?;
    Ok(ServerNegotiation::restore(alloc, server, &snapshot)?)
}

/// Carries bytes between a client and a server, three times each way, which is a login.
fn exchange<T: RandomSource>(
    rt: &T,
    alloc: Global,
    client: &mut ClientNegotiation,
    server: &mut ServerNegotiation<Server<'_>>,
) -> Result<()> {
    let mut to_server = BytesMut::new(alloc);
    let mut to_client = BytesMut::new(alloc);
    ClientNegotiation::open(&mut to_server)?;
    for _ in 0..3 {
        pass(rt, alloc, server, to_server.as_slice(), &mut to_client)?;
        to_server.clear();
        pass(rt, alloc, client, to_client.as_slice(), &mut to_server)?;
        to_client.clear();
    }
    Ok(())
}

/// Logs in by a profile. Returns the client's side, with the keys of the login.
fn by_profile<T: RandomSource>(
    rt: &T,
    alloc: Global,
    profile: SaslProfile,
    server: &mut ServerNegotiation<Server<'_>>,
) -> Result<Box<ClientNegotiation>> {
    let mut client = Box::new(alloc, ClientNegotiation::new(alloc, profile, None))?;
    exchange(rt, alloc, &mut *client, server)?;
    Ok(client)
}

/// A server's side of a new connection.
fn new_side<'a>(
    alloc: Global,
    users: &'a MultiRecordStore,
    options: &'a ServerOptions,
    transport: Transport<'a>,
) -> Result<Box<ServerNegotiation<Server<'a>>>> {
    let server = Server::new(users, options, transport);
    Ok(Box::new(alloc, ServerNegotiation::new(alloc, server))?)
}

/// Logs in at a new server by a password. Returns the client's side, with the keys of the login.
fn by_password<T: RandomSource>(
    rt: &T,
    alloc: Global,
    users: &MultiRecordStore,
    options: &ServerOptions,
) -> Result<Box<ClientNegotiation>> {
    let mut server = new_side(alloc, users, options, Transport::plaintext())?;
    by_profile(rt, alloc, new_client(alloc, "user", "pencil")?, &mut server)
}

/// Logs in at a new server by the keys of an earlier login.
fn by_keys<T: RandomSource, W: Write>(
    rt: &T,
    alloc: Global,
    users: &MultiRecordStore,
    options: &ServerOptions,
    earlier: &ClientNegotiation,
    output: &mut W,
) -> Result<()> {
    let keys = earlier.profile().keys().context("no keys")?;
    let mut server = new_side(alloc, users, options, Transport::plaintext())?;
    by_profile(rt, alloc, keyed_client(alloc, "user", keys)?, &mut server)?;
    print_moved(alloc, &server, users, options, output)
}

/// Restores a side, and prints who has logged in.
fn print_moved<W: Write>(
    alloc: Global,
    side: &ServerNegotiation<Server<'_>>,
    users: &MultiRecordStore,
    options: &ServerOptions,
    output: &mut W,
) -> Result<()> {
    let server = moved(alloc, side, users, options, Transport::plaintext())?;
    let user = server.authenticated_user().context("no user")?;
    writeln!(output, "{user} logged in by keys")?;
    Ok(())
}

/// Logs in at a new server with a wrong password, and prints the log.
fn by_wrong_password<T: RandomSource, W: Write>(
    rt: &T,
    alloc: Global,
    users: &MultiRecordStore,
    options: &ServerOptions,
    output: &mut W,
) -> Result<()> {
    let mut server = new_side(alloc, users, options, Transport::plaintext())?;
    by_profile(rt, alloc, new_client(alloc, "user", "crayon")?, &mut server)?;
    log(server.acceptor(), output)
}

/// Logs in for an identity over a connection with a channel, and prints who acts for whom.
fn bound_and_acting<T: RandomSource, W: Write>(
    rt: &T,
    alloc: Global,
    users: &MultiRecordStore,
    options: &ServerOptions,
    output: &mut W,
) -> Result<()> {
    let exported = fresh(rt)?;
    let mut server = new_side(alloc, users, options, bound_transport(&exported)?)?;
    let identity = "alice".to_string(alloc)?;
    let client = bound_client(alloc, "user", "pencil", &exported)?.acting_for(identity);
    by_profile(rt, alloc, client.context("no identity")?, &mut server)?;
    let user = server.authenticated_user().context("no user")?;
    let identity = server.acts_for().context("no identity")?;
    writeln!(output, "{user} logged in for {identity}")?;
    log(server.acceptor(), output)
}

/// Makes a login with each of these, and prints who has logged in.
pub fn report<T: RandomSource, W: Write>(rt: &T, alloc: Global, output: &mut W) -> Result<()> {
    let users = new_users(rt, alloc)?;
    let mut options = new_options(alloc, fresh(rt)?.to_vec(alloc)?)?;
    let_act(alloc, &mut options, "user", "alice")?;
    with_users(rt, alloc, &users, &options, output)
}

/// Makes the logins of these users.
fn with_users<T: RandomSource, W: Write>(
    rt: &T,
    alloc: Global,
    users: &MultiRecordStore,
    options: &ServerOptions,
    output: &mut W,
) -> Result<()> {
    with_keys(rt, alloc, users, options, output)?;
    by_wrong_password(rt, alloc, users, options, output)?;
    bound_and_acting(rt, alloc, users, options, output)
}

/// Logs in by a password, and then by the keys of that login.
fn with_keys<T: RandomSource, W: Write>(
    rt: &T,
    alloc: Global,
    users: &MultiRecordStore,
    options: &ServerOptions,
    output: &mut W,
) -> Result<()> {
    let client = by_password(rt, alloc, users, options)?;
    by_keys(rt, alloc, users, options, &client, output)
}
