//! A broker's side of AMQP 1.0's SASL layer, over any files, random bytes, reader and writer.
#![tactic(auto)]

use anyhow::{Context, Result, bail, ensure};
use bytes::BytesMut;
use fe2o3_sasl_negotiation::{
    AuthenticatedUser, CloseReason, DEFAULT_SALT_LEN, DEFAULT_SCRAM_ITERATIONS, Mechanisms, Meter,
    MockAuthentication, MultiRecordStore, Progress, SaslCode, ScramVersion, Server,
    ServerNegotiation, ServerOptions, Transport,
};
use mock_secret::{file_of, secret_of};
use std::alloc::Global;
use std::fs;
use std::io::{BufRead, Write};
use std::random::RandomSource;
use std::rt::Files;

/// The streams of a connection.
#[derive(Drop)]
struct Streams<'a, R, I, O> {
    rt: &'a R,
    input: &'a mut I,
    output: &'a mut O,
}

/// Serves up to three login attempts over one connection, by a file of records as `scram users add` makes one. Returns
/// the user, and how many attempts failed. Each attempt begins with a protocol header. A third failed attempt, and one
/// that ends otherwise, are errors. Only hashes are offered by which each user of the file can log in. The secret of
/// mock records is that of the file beside the records: every process answers an unknown user with the same salt.
pub fn log_in<'a, R: Files + RandomSource + AllocGlobal, I: BufRead, O: Write>(
    rt: &'a R,
    path: &str,
    tls: bool,
    input: &'a mut I,
    output: &'a mut O,
) -> Result<(String, u8)> {
    let secret = secret_of(rt, path).context(file_of(rt.alloc(), path)?)?;
    let records = MultiRecordStore::parse_lines(rt.alloc(), &fs::read_to_string(rt, path)?)?;
    let options = options_of(rt.alloc(), &records, secret)?;
    let transport = Transport {
        is_tls: tls,
        ..Transport::plaintext()
    };
    let mut streams = Streams { rt, input, output };
    for wrong in 0..3 {
        let server = Server::new(&records, &options, transport);
        if let Some(user) = streams.carry(server)? {
            return Ok((user, wrong));
        }
    }
    bail!("three wrong logins")
}

/// Returns what the connections of a broker have in common. Its records have one salt length and one iteration count.
fn options_of(alloc: Global, records: &MultiRecordStore, secret: Vec<u8>) -> Result<ServerOptions> {
    let (salt_len, iterations) = form_of(records);
    let mut options = ServerOptions::new(alloc, Mechanisms::of_all_users(records));
    options.mechanisms.plain = true;
    options.mock = Some(MockAuthentication::new(secret, salt_len, iterations)?);
    Ok(options)
}

/// Returns the salt length and the iteration count of mock records: those of the first record for the strongest hash for
/// which each user has a record, so that an unknown user looks like a known one.
fn form_of(records: &MultiRecordStore) -> (usize, u32) {
    for version in [
        ScramVersion::Sha512,
        ScramVersion::Sha256,
        ScramVersion::Sha1,
    ] {
        let first = records.for_version(version).first_stored_password();
        if let (true, Some(first)) = (records.all_have(version), first) {
            return (first.salt.len(), first.iterations);
        }
    }
    (DEFAULT_SALT_LEN, DEFAULT_SCRAM_ITERATIONS)
}

impl<R: RandomSource + AllocGlobal, I: BufRead, O: Write> Streams<'_, R, I, O> {
    /// Serves one login attempt, each call of the server with a fresh nonce. Returns the user, or `None` if it failed.
    fn carry<A: AuthenticatedUser + Drop>(&mut self, acceptor: A) -> Result<Option<String>> {
        let (alloc, mut nonce) = (self.rt.alloc(), [0; 32]);
        let mut server = ServerNegotiation::new(alloc, acceptor);
        let mut sent = BytesMut::new(alloc);
        for _ in 0..u64::MAX {
            self.rt.fill_bytes(&mut nonce)?;
            let bytes = self.input.fill_buf()?;
            let received = server.receive(alloc, bytes, &nonce, &mut Meter::new(), &mut sent)?;
            self.input.consume(received.taken);
            self.output.write_all(sent.as_slice())?;
            self.output.flush()?;
            sent.clear();
            if received.taken == 0 || received.progress != Progress::InProgress {
                break;
            }
        }
        if let Some(user) = server.authenticated_user() {
            return Ok(Some(user.to_string(alloc)?));
        }
        let refused = Progress::Failed(CloseReason::Refused(SaslCode::Auth));
        ensure!(server.progress() == refused, "no login");
        Ok(None)
    }
}
