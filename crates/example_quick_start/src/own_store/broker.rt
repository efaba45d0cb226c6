//! The broker's side of a login, and a client's.

ghost use Rattle.std.specs.Prelude.{◌≡◌, ℕ, List, Option, Some, IfOk};
ghost use Rattle.fe2o3_scram.specs.Logins.{TextLogsIn};
ghost use Rattle.fe2o3_scram.specs.ScramServer.{logged_in, provider_in, rights_in, rules_in, state_in};

use super::accounts::{Account, Accounts};
use crate::login::fresh;
use anyhow::{Context, Result};
use fe2o3_scram::{
    ClientOptions, DEFAULT_SCRAM_ITERATIONS, IterationLimits, ScramAuthenticator, ScramClient,
    ScramRecord, ScramVersion,
};
use std::alloc::Global;
use std::random::RandomSource;
use std::rc::Rc;

/// The accounts as they are kept: a name, a record's text, and how many sessions the user may open.
static KEPT: [(&str, &str, u32); 2] = [
    (
        "user",
        "SCRAM-SHA-256$4096:+JH2W68K7GjfMP0LX43J0w==$BWDYt7JIe5bgxedNkST7Cp4q/eiYnxJvFUdthbN4rsA=:\
            N1M1QURGjAh4ce7CvsAbYSXgOHtbNACLHcXTskAJ1zM=",
        2,
    ),
    (
        "smith, john",
        "SCRAM-SHA-256$4096:LqFonbE81Ze9fqCYIGg8zg==$/4NZ0wizFbtnc1JPSkOd0l2twYoWztQiLhdoI3Cf3zQ=:\
            RGYFY+e+u7uHIF3UEjaaiwKnWlCXpZUvQkZVf0FIu+A=",
        5,
    ),
];

/// The accounts as they are kept. No proof looks into them.
fn kept() -> &'static [(&'static str, &'static str, u32)] {
    &KEPT
}

/// The length of the records' salts, in bytes.
const SALT_LEN: usize = 16;

/// The server of one connection.
type Server = ScramAuthenticator<Rc<Accounts>>;

/// What all connections share.
#[derive(Drop)]
pub struct Broker {
    accounts: Rc<Accounts>,
    secret: [u8; 32],
}

impl Broker {
    /// A broker of the accounts. Its secret, by which unknown users are answered as known ones, is random
    /// bytes. Keep it secret, and for as long as the accounts are kept.
    pub fn new(alloc: Global, secret: [u8; 32]) -> Result<Broker> {
        let mut accounts = Accounts::new(alloc, ScramVersion::Sha256);
        for (name, text, sessions) in kept() {
            accounts.add(Account {
                name: name.to_string(alloc)?,
                kept: ScramRecord::parse(alloc, text)?,
                sessions: *sessions,
            })?;
        }
        let accounts = Rc::new(alloc, accounts)?;
        Ok(Broker { accounts, secret })
    }

    /// A server for a connection.
    fn server(&self, alloc: Global) -> Result<Server> {
        let secret = self.secret.to_vec(alloc)?;
        let accounts = self.accounts.clone()?;
        let server = ScramAuthenticator::new(accounts);
        Ok(server.mock_unknown_users(secret, SALT_LEN, DEFAULT_SCRAM_ITERATIONS)?)
    }
}

/// A client's login on a connection of its own, and how many sessions it may then open.
pub fn log_in<R: RandomSource>(
    alloc: Global,
    rt: &R,
    broker: &Broker,
    name: &str,
    password: &str,
) -> Result<u32> {
    let mut server = broker.server(alloc)?;
    let mut client = client(alloc, name, password)?;
    exchange(alloc, rt, &mut client, &mut server)?;
    let user = server.authenticated_user().context("no user")?;
    let account = broker.accounts.account(user).context("no account")?;
    Ok(account.sessions)
}

/// A client, which computes from 4096 to 100,000 iterations, and for no server less or more.
fn client(alloc: Global, name: &str, password: &str) -> Result<ScramClient> {
    let name = name.to_string(alloc)?;
    let password = password.to_string(alloc)?;
    let client = ScramClient::new(name, password, ScramVersion::Sha256);
    Ok(client.with_options(ClientOptions {
        limits: IterationLimits {
            min_iterations: 4096,
            max_iterations: 100_000,
        },
        ..ClientOptions::new()
    }))
}

/// The four messages, with a fresh nonce of each side.
fn exchange<R: RandomSource>(
    alloc: Global,
    rt: &R,
    client: &mut ScramClient,
    server: &mut Server,
) -> Result<()> {
    let client_nonce = fresh(rt)?;
    let server_nonce = fresh(rt)?;
    let client_first = client.compute_client_first_message(alloc, &client_nonce)?;
    let server_first = challenge(alloc, server, &client_first, &server_nonce)?;
    let client_final = client.compute_client_final_message(alloc, str::from_utf8(&server_first)?)?;
    let server_final = conclude(alloc, server, &client_final)?;
    client.validate_server_final(alloc, &server_final)?;
    Ok(())
}

/// The server's first message, to an unknown user as to a known one.
fn challenge(
    alloc: Global,
    server: &mut Server,
    client_first: &[u8],
    nonce: &[u8; 32],
) -> Result<Vec<u8>> {
    let challenge = server.compute_server_first_message(alloc, client_first, nonce)?;
    challenge.context("no answer")
}

/// The server's last message, to a client whose proof meets the stored key of the user whom the server
/// then names.
fn conclude(alloc: Global, server: &mut Server, client_final: &[u8]) -> Result<Vec<u8>>
    ensures { IfOk result (λ _. (user : List ℕ) × (acts_for : Option (List ℕ))
        × TextLogsIn (provider_in server.old).value.version (rules_in server.old) (rights_in server.old)
        (state_in server.old) client_final.now user acts_for
        × (logged_in (state_in server.new) ≡ Some user)) }
{
    let signature = server.compute_server_final_message(alloc, client_final)?;
    signature.context("no answer")
}
