//! A client and a server over the bytes of a connection, whatever carries them.

use crate::client::new_client;
use anyhow::Result;
use bytes::BytesMut;
use fe2o3_sasl_negotiation::{
    ClientNegotiation, ConnectionSide, DEFAULT_SALT_LEN, DEFAULT_SCRAM_ITERATIONS, Endpoint,
    Mechanisms, Meter, MockAuthentication, MultiRecordStore, Password, Progress, Role, ScramRecord,
    ScramVersion, Server, ServerNegotiation, ServerOptions, Transport,
};
use std::alloc::Global;
use std::random::RandomSource;

/// What all connections of a server have in common: it offers SCRAM-SHA-512, SCRAM-SHA-256 and, under TLS only, PLAIN, and
/// answers unknown users like known ones. The secret is 32 random bytes, kept with the records.
pub fn new_options(alloc: Global, secret: Vec<u8>) -> Result<ServerOptions> {
    let mock = MockAuthentication::new(secret, DEFAULT_SALT_LEN, DEFAULT_SCRAM_ITERATIONS)?;
    let mut options = ServerOptions::new(alloc, Mechanisms::scram());
    options.mechanisms.plain = true;
    options.mock = Some(mock);
    Ok(options)
}

/// The server's side of a connection.
pub fn new_server<'a>(
    alloc: Global,
    users: &'a MultiRecordStore,
    options: &'a ServerOptions,
    is_tls: bool,
) -> ServerNegotiation<Server<'a>> {
    let transport = Transport {
        is_tls,
        ..Transport::plaintext()
    };
    ServerNegotiation::new(alloc, Server::new(users, options, transport))
}

/// The records of `user`, one for each hash. A salt is random bytes, fresh for each record.
pub fn new_users<T: RandomSource>(rt: &T, alloc: Global) -> Result<MultiRecordStore> {
    let mut users = MultiRecordStore::new(alloc);
    for version in [ScramVersion::Sha256, ScramVersion::Sha512] {
        let mut salt = [0; DEFAULT_SALT_LEN];
        rt.fill_bytes(&mut salt)?;
        add_user(alloc, &mut users, version, &salt)?;
    }
    Ok(users)
}

/// Adds a record of `user` for one hash.
fn add_user(
    alloc: Global,
    users: &mut MultiRecordStore,
    version: ScramVersion,
    salt: &[u8; DEFAULT_SALT_LEN],
) -> Result<()> {
    let password = Password::Typed("pencil");
    let iterations = DEFAULT_SCRAM_ITERATIONS;
    let mut meter = Meter::new();
    let record = ScramRecord::from_password(
        alloc, version, password, salt, iterations, &mut meter,
    )?;
    users.add("user".to_string(alloc)?, record)?;
    Ok(())
}

/// Passes received bytes to a side, a server or a client, and appends what is to be sent. Returns how many bytes it took:
/// those that are left after a login are AMQP's. Once `side.progress()` is `Authenticated`, a server's
/// `authenticated_user()` returns the user. Once it is `Failed`, send the output and close.
pub fn pass<T: RandomSource, E: Endpoint<R>, R: Role>(
    rt: &T,
    alloc: Global,
    side: &mut ConnectionSide<E, R>,
    input: &[u8],
    output: &mut BytesMut,
) -> Result<usize> {
    let mut taken = 0;
    while taken < input.len() && matches!(side.progress(), Progress::InProgress) {
        let mut nonce = [0; 32];
        rt.fill_bytes(&mut nonce)?;
        let left = &input[taken..];
        taken += side
            .receive(alloc, left, &nonce, &mut Meter::new(), output)?
            .taken;
    }
    Ok(taken)
}

/// Carries bytes between a server and a client, three times each way, which is a login.
pub fn meet<R: RandomSource>(
    rt: &R,
    alloc: Global,
    server: &mut ServerNegotiation<Server<'_>>,
) -> Result<()> {
    let mut to_server = BytesMut::new(alloc);
    let mut to_client = BytesMut::new(alloc);
    ClientNegotiation::open(&mut to_server)?;
    let client = ClientNegotiation::new(alloc, new_client(alloc)?, None);
    let mut client = Box::new(alloc, client)?;
    for _ in 0..3 {
        pass(rt, alloc, server, to_server.as_slice(), &mut to_client)?;
        to_server.clear();
        pass(
            rt,
            alloc,
            &mut *client,
            to_client.as_slice(),
            &mut to_server,
        )?;
        to_client.clear();
    }
    Ok(())
}
