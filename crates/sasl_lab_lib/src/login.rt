//! `login VERSION USER PASSWORD SALT-HEX CLIENT-NONCE-HEX SERVER-NONCE-HEX`: each body of a login, in
//! which each side receives what the other one sent.

use crate::digits::bytes_of;
use crate::stop::Stop;
use bytes::BytesMut;
use fe2o3_sasl::{
    ClientReply, Event, SaslAcceptorExt, SaslProfile, SaslScramSha1, SaslScramSha256,
    SaslScramSha512, ScramAuthenticator, ScramVersion, ServerReply, SingleScramCredential,
    acceptor_step, profile_step,
};
use fe2o3_sasl_wire::{Frame, FrameCodec, SaslCode};
use std::alloc::Global;
use std::io::Write;

/// The two sides of a login.
#[derive(Drop)]
struct Sides {
    server: ScramAuthenticator<SingleScramCredential>,
    client: SaslProfile,
}

/// The arguments of `login`.
#[derive(Drop)]
pub struct Login<'a> {
    version: ScramVersion,
    user: &'a str,
    password: &'a str,
    salt: [u8; 32],
    client_nonce: [u8; 32],
    server_nonce: [u8; 32],
}

impl<'a> Login<'a> {
    /// Parses the arguments. The salt and the nonces are 64 hexadecimal digits each.
    pub fn from_words(words: &'a [String]) -> Option<Login<'a>> {
        let [version, user, password, salt, client_nonce, server_nonce] = words else {
            return None;
        };
        Some(Login {
            version: ScramVersion::from_mechanism(version)?,
            user,
            password,
            salt: bytes_of(salt)?,
            client_nonce: bytes_of(client_nonce)?,
            server_nonce: bytes_of(server_nonce)?,
        })
    }

    /// Runs the login, and prints each body on a line.
    pub fn run<W: Write>(&self, alloc: Global, output: &mut W) -> Result<(), Stop> {
        self.play(alloc, &mut self.sides(alloc)?, output)
    }

    /// Returns both sides, before the login.
    fn sides(&self, alloc: Global) -> Result<Sides, Stop> {
        let server = self.server(alloc)?;
        let client = self.client(alloc)?;
        Ok(Sides { server, client })
    }

    /// Runs the login to its end.
    fn play<W: Write>(&self, alloc: Global, sides: &mut Sides, output: &mut W) -> Result<(), Stop> {
        let mechanisms = offer(alloc, &sides.server, output)?;
        let challenge = self.round(alloc, sides, mechanisms, output)?;
        let outcome = self.round(alloc, sides, challenge, output)?;
        self.report(alloc, &mut sides.client, outcome)
    }

    /// Passes a body to the client and its answer to the server, and returns the server's answer.
    fn round<W: Write>(
        &self,
        alloc: Global,
        sides: &mut Sides,
        body: Vec<u8>,
        output: &mut W,
    ) -> Result<Vec<u8>, Stop> {
        let answer = self.tell_client(alloc, &mut sides.client, body, output)?;
        self.tell_server(alloc, &mut sides.server, answer, output)
    }

    /// Returns a server that knows the user and the password.
    fn server(&self, alloc: Global) -> Result<ScramAuthenticator<SingleScramCredential>, Stop> {
        let user = self.user.to_string(alloc)?;
        let (password, version, salt) = (self.password, self.version, self.salt);
        let credential = SingleScramCredential::new(alloc, user, password, version, salt)?;
        Ok(ScramAuthenticator::new(credential))
    }

    /// Returns the user's client.
    fn client(&self, alloc: Global) -> Result<SaslProfile, Stop> {
        let user = self.user.to_string(alloc)?;
        let password = self.password.to_string(alloc)?;
        Ok(match self.version {
            ScramVersion::Sha1 => SaslProfile::from(SaslScramSha1::new(user, password)),
            ScramVersion::Sha256 => SaslProfile::from(SaslScramSha256::new(user, password)),
            ScramVersion::Sha512 => SaslProfile::from(SaslScramSha512::new(user, password)),
        })
    }

    /// Passes a body to the client, and prints the body of its answer.
    fn tell_client<W: Write>(
        &self,
        alloc: Global,
        client: &mut SaslProfile,
        body: Vec<u8>,
        output: &mut W,
    ) -> Result<Vec<u8>, Stop> {
        let nonce = self.client_nonce;
        match profile_step(alloc, client, &Event { body, nonce }, None)? {
            ClientReply::Init { body } | ClientReply::Response { body } => {
                print(alloc, output, &body)?;
                Ok(body)
            }
            ClientReply::Outcome(outcome) => Err(Stop::Outcome(outcome.code)),
        }
    }

    /// Passes the body of the outcome to the client.
    fn report(&self, alloc: Global, client: &mut SaslProfile, body: Vec<u8>) -> Result<(), Stop> {
        let nonce = self.client_nonce;
        match profile_step(alloc, client, &Event { body, nonce }, None)? {
            ClientReply::Outcome(outcome) => ended_ok(outcome.code),
            ClientReply::Init { .. } | ClientReply::Response { .. } => Ok(()),
        }
    }

    /// Passes a body to the server, and prints the body of its answer.
    fn tell_server<W: Write>(
        &self,
        alloc: Global,
        server: &mut ScramAuthenticator<SingleScramCredential>,
        body: Vec<u8>,
        output: &mut W,
    ) -> Result<Vec<u8>, Stop> {
        let nonce = self.server_nonce;
        match acceptor_step(alloc, server, &Event { body, nonce })? {
            ServerReply::Challenge { body } => {
                print(alloc, output, &body)?;
                Ok(body)
            }
            ServerReply::Outcome { code, body } => {
                print(alloc, output, &body)?;
                ended_ok(code)?;
                Ok(body)
            }
        }
    }
}

/// Prints the body of the server's mechanisms, and returns it.
fn offer<W: Write>(
    alloc: Global,
    server: &ScramAuthenticator<SingleScramCredential>,
    output: &mut W,
) -> Result<Vec<u8>, Stop> {
    let mechanisms = server.sasl_mechanisms(alloc)?;
    let mut body = BytesMut::new(alloc);
    FrameCodec {}.encode(Frame::Mechanisms(mechanisms), &mut body)?;
    let body = body.into_vec()?;
    print(alloc, output, &body)?;
    Ok(body)
}

/// Prints a body on a line.
fn print<W: Write>(alloc: Global, output: &mut W, body: &[u8]) -> Result<(), Stop> {
    let digits = hex::encode(alloc, body)?;
    writeln!(output, "{digits}")?;
    Ok(())
}

/// Returns an error if the negotiation did not end with `Ok`.
fn ended_ok(code: SaslCode) -> Result<(), Stop> {
    match code {
        SaslCode::Ok => Ok(()),
        code => Err(Stop::Outcome(code)),
    }
}
