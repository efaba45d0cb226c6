//! `client`: the client side of a login. The input has the server's messages.

ghost use Rattle.std.specs.Prelude.{◌≡◌, ◌≤◌, ◌↔◌, Ok, IfOk, IfErr, IsOk, OnOk, box_value, option_map, string_bytes};
ghost use Rattle.fe2o3_scram.specs.ScramClient.{AnswersIn, VerifiesIn};
ghost use Rattle.scram_lib.specs.Done.{HasVerified, IsClientAsked, HasLoggedIn};

use crate::done::Done;
use crate::task::Process;
use crate::{keys, nonces};
use fe2o3_scram::secrets::SecretText;
use fe2o3_scram::{
    CachedKeys, ClientOptions, ClientSecret, IterationLimits, Password, ScramClient,
    ScramErrorKind, ScramVersion,
};
use saslprep::Unassigned;
use scram_base_lib::backend::Backend;
use scram_base_lib::channel::client_channel;
use scram_base_lib::input::prepared;
use scram_base_lib::stop::Stop;
use scram_base_lib::store::System;
use scram_base_lib::{input, wire};
use std::alloc::Global;
use std::io::{BufRead, Write};
use std::rt::Files;

/// The arguments of a login.
#[derive(Clone, Copy)]
pub struct Login<'a> {
    pub version: ScramVersion,
    /// The user name, not escaped.
    pub user: &'a str,
    /// The identity that the client asks to act for, not escaped, if any.
    pub acts_for: Option<&'a str>,
    pub min_iterations: u32,
    pub max_iterations: u32,
    /// The key file, if any.
    pub keys: Option<&'a str>,
    /// The channel that the client binds, `KIND:HEX`, if any.
    pub channel: Option<&'a str>,
    /// Whether the client has a channel, but was offered no mechanism with `-PLUS`. It has no effect beside `channel`.
    pub channel_not_offered: bool,
    pub strict: bool,
    /// The nonce in hexadecimal, or `None` for a random one.
    pub nonce: Option<&'a str>,
    /// Whether the input has the bytes of an AMQP connection in place of lines.
    pub frames: bool,
}

/// The client's secret: the password, prepared, if the first line of the input has one, and the keys, if there are any.
#[derive(Drop)]
struct Secret {
    password: Option<SecretText>,
    keys: Option<CachedKeys>,
}

impl<R: System, I: BufRead, O: Write, E: Write, B: Backend<R>> Process<'_, R, I, O, E, B> {
    /// Logs in, and stores the keys of the login if there is a key file.
    pub(crate) fn log_in(&mut self, login: &Login<'_>) -> Result<Done, Stop>
        ensures { IfOk result (λ done. HasLoggedIn login.now done) }
    {
        let client = login.client(self.rt, &mut self.input)?;
        if login.frames {
            return self.log_in_frames(login, client);
        }
        self.log_in_lines(login, client)
    }

    /// Logs in over lines.
    fn log_in_lines(
        &mut self,
        login: &Login<'_>,
        mut client: Box<ScramClient>,
    ) -> Result<Done, Stop>
        ensures { IsClientAsked login.now (box_value client) → IfOk result (λ done. HasLoggedIn login.now done) }
    {
        let nonce = nonces::nonce(self.rt, login.nonce)?;
        exchange(
            self.rt.alloc(),
            &mut client,
            &nonce,
            &mut self.input,
            &mut self.output,
        )?;
        login.keep(self.rt, client.keys())?;
        Ok(Done::Client(client))
    }
}

impl Login<'_> {
    /// Returns the client. Its password is the first line of the input, which is read only if the iteration counts and the
    /// channel are valid.
    fn client<R: Files + AllocGlobal, I: BufRead>(
        &self,
        rt: &R,
        input: &mut I,
    ) -> Result<Box<ScramClient>, Stop>
        ensures { IfOk result (λ client. IsClientAsked self.now (box_value client)) }
    {
        self.test_limits()?;
        let channel = client_channel(rt.alloc(), self.channel, self.channel_not_offered)?;
        let secret = self.secret(rt, input)?;
        let secret = secret.lent().ok_or(Stop::NoPassword)?;
        let user = self.user.to_string(rt.alloc())?;
        let acts_for = self.identity(rt.alloc())?;
        let client = ScramClient::with_secret(rt.alloc(), user, secret, self.version)?;
        let options = ClientOptions {
            limits: IterationLimits {
                min_iterations: self.min_iterations,
                max_iterations: self.max_iterations,
            },
            signature_by_challenge: false,
            strict: self.strict,
            channel,
        };
        let client = client.with_options(options).acting_for(acts_for);
        Ok(Box::new(rt.alloc(), client)?)
    }

    /// Copies the identity that the client asks to act for, if any.
    fn identity(&self, alloc: Global) -> Result<Option<String>, Stop>
        ensures { IfOk result (λ name. option_map string_bytes name ≡ option_map (λ name. name.now) self.now.acts_for) }
    {
        match self.acts_for {
            Some(name) => Ok(Some(name.to_string(alloc)?)),
            None => Ok(None),
        }
    }

    /// Checks that the minimum iteration count is not above the maximum.
    fn test_limits(&self) -> Result<(), Stop>
        ensures ok { IsOk result ↔ (self.now.min_iterations ≤ self.now.max_iterations) }
        ensures err { IfErr result (λ stop.
            stop ≡ Stop.NoIterations self.now.min_iterations self.now.max_iterations) }
    {
        if self.min_iterations > self.max_iterations {
            return Err(Stop::NoIterations(self.min_iterations, self.max_iterations));
        }
        Ok(())
    }

    /// Returns the secret. Its password is the first line of the input, unless that is empty.
    fn secret<R: Files + AllocGlobal, I: BufRead>(
        &self,
        rt: &R,
        input: &mut I,
    ) -> Result<Secret, Stop> {
        let line = input::next_line(rt.alloc(), input)?.map(SecretText::new);
        let keys = match self.keys {
            Some(file) => keys::read(rt, file, self.version)?,
            None => None,
        };
        let password = match line {
            Some(line) if !line.as_str().is_empty() => {
                Some(prepared(rt.alloc(), line.as_str(), Unassigned::Allowed)?)
            }
            _ => None,
        };
        Ok(Secret { password, keys })
    }

    /// Stores the keys of the login if there is a key file.
    pub(crate) fn keep<R: System>(&self, rt: &R, keys: Option<&CachedKeys>) -> Result<(), Stop> {
        match (self.keys, keys) {
            (Some(file), Some(keys)) => keys::keep(rt, file, keys),
            _ => Ok(()),
        }
    }
}

impl Secret {
    /// Borrows the secret. Returns `None` if there is no password and there are no keys.
    fn lent(&self) -> Option<ClientSecret<'_>> {
        match (&self.password, &self.keys) {
            (Some(password), Some(keys)) => {
                let password = Password::Prepared(password.as_str());
                Some(ClientSecret::PasswordAndKeys { password, keys })
            }
            (Some(password), None) => {
                Some(ClientSecret::Password(Password::Prepared(password.as_str())))
            }
            (None, Some(keys)) => Some(ClientSecret::Keys(keys)),
            (None, None) => None,
        }
    }
}

/// Runs the exchange, one line for each message. After `Ok` the client has authenticated the server.
fn exchange<I: BufRead, O: Write>(
    alloc: Global,
    client: &mut ScramClient,
    nonce: &[u8; 32],
    input: &mut I,
    output: &mut O,
) -> Result<(), Stop>
    ensures { OnOk result (HasVerified client.old client.new) }
{
    let first = client.compute_client_first_message(alloc, nonce)?;
    wire::send(alloc, output, &first)?;
    let server_first = accepted(wire::receive_first(alloc, client.mechanism(), input)?)?;
    let last = answer(alloc, client, &server_first)?;
    wire::send(alloc, output, &last)?;
    let server_final = accepted(wire::receive(alloc, input)?)?;
    verify(alloc, client, &server_final)
}

/// Tests the signature of the server's last message (RFC 5802, section 3).
fn verify(alloc: Global, client: &mut ScramClient, server_final: &[u8]) -> Result<(), Stop>
    ensures { OnOk result (VerifiesIn client.old.state client.old server_final.now (Ok tt) client.new) }
{
    Ok(client.validate_server_final(alloc, server_final)?)
}

/// Returns a message of the server. It can be an error (RFC 5802, section 7, `server-error`).
fn accepted(message: Vec<u8>) -> Result<Vec<u8>, Stop> {
    if message.starts_with(b"e=") {
        return Err(Stop::RefusedByServer);
    }
    Ok(message)
}

/// Returns the answer to the server's challenge.
fn answer(alloc: Global, client: &mut ScramClient, server_first: &[u8]) -> Result<Vec<u8>, Stop>
    ensures { IfOk result (λ message.
        AnswersIn client.old.state client.old server_first.now (Ok message.items) client.new) }
{
    match str::from_utf8(server_first) {
        Ok(text) => Ok(client.compute_client_final_message(alloc, text)?),
        Err(_) => Err(Stop::Client(ScramErrorKind::Utf8Error)),
    }
}
