//! `audit VERSION USER PASSWORD SALT-HEX`: what a client and a server agree on, by the two transcripts
//! of the input.

use crate::digits::{bytes_of, digits_of};
use crate::stop::Stop;
use crate::transcript::Transcript;
use fe2o3_sasl::audit::{Finding, FindingKind, Parameters, Verdict, audit};
use fe2o3_sasl::{ScramVersion, SingleScramCredential};
use std::alloc::{AllocError, Global};
use std::io::{Read, Write};

/// The arguments of `audit`.
#[derive(Drop)]
pub struct Audit<'a> {
    version: ScramVersion,
    user: &'a str,
    password: &'a str,
    salt: [u8; 32],
}

impl<'a> Audit<'a> {
    /// Parses the arguments. The salt is 64 hexadecimal digits.
    pub fn from_words(words: &'a [String]) -> Option<Audit<'a>> {
        let [version, user, password, salt] = words else {
            return None;
        };
        Some(Audit {
            version: ScramVersion::from_mechanism(version)?,
            user,
            password,
            salt: bytes_of(salt)?,
        })
    }

    /// Reads the whole input, audits it, and prints each finding on a line.
    pub fn run<R: Read, W: Write>(
        &self,
        alloc: Global,
        input: &mut R,
        output: &mut W,
    ) -> Result<(), Stop> {
        let transcript = read(alloc, input)?;
        for finding in &self.findings(alloc, &transcript)? {
            let line = line_of(alloc, finding)?;
            writeln!(output, "{line}")?;
        }
        Ok(())
    }

    /// Returns the findings of the user's client and of a server that knows user and password.
    fn findings(&self, alloc: Global, transcript: &Transcript) -> Result<Vec<Finding>, Stop> {
        let (password, version) = (self.password, self.version);
        let user = self.user.to_string(alloc)?;
        let credential = SingleScramCredential::new(alloc, user, password, version, self.salt)?;
        let (client, server) = (&transcript.client, &transcript.server);
        Ok(audit(
            alloc,
            self.user,
            password,
            version,
            client,
            &credential,
            server,
        )?)
    }
}

/// Parses the whole input as a transcript.
fn read<R: Read>(alloc: Global, input: &mut R) -> Result<Transcript, Stop> {
    let mut text = String::new(alloc);
    input.read_to_string(&mut text).map_err(Stop::of_reading)?;
    Transcript::from_input(alloc, &text)
}

/// Returns the line of a finding, without its line feed.
pub fn line_of(alloc: Global, finding: &Finding) -> Result<String, AllocError> {
    let kind = match finding.kind {
        FindingKind::Verifier => "verifier",
        FindingKind::Proof => "proof",
    };
    let verdict = verdict_of(alloc, &finding.verdict)?;
    format!(in alloc; "{kind} {} {} {verdict}", finding.client, finding.server)
}

/// Returns the words of a verdict.
fn verdict_of(alloc: Global, verdict: &Verdict) -> Result<String, AllocError> {
    match verdict {
        Verdict::Agreed {
            username,
            client_nonce,
            parameters,
        } => agreed_of(alloc, username, client_nonce, parameters.as_ref()),
        Verdict::SameMac {
            client_key,
            client_text,
            server_key,
            server_text,
        } => {
            let client = words_of(alloc, "same-mac", client_key, client_text)?;
            words_of(alloc, &client, server_key, server_text)
        }
        Verdict::SameHash {
            client_key,
            recovered_key,
        } => words_of(alloc, "same-hash", client_key, recovered_key),
        Verdict::OtherKey => String::from_str(alloc, "other-key"),
    }
}

/// Returns the words of what both sides agree on.
fn agreed_of(
    alloc: Global,
    username: &str,
    client_nonce: &str,
    parameters: Option<&Parameters>,
) -> Result<String, AllocError> {
    let (user, nonce) = (username.as_bytes(), client_nonce.as_bytes());
    let agreed = words_of(alloc, "agreed", user, nonce)?;
    let Some(parameters) = parameters else {
        return Ok(agreed);
    };
    let full_nonce = parameters.full_nonce.as_bytes();
    let agreed = words_of(alloc, &agreed, full_nonce, &parameters.salt)?;
    format!(in alloc; "{agreed} {}", parameters.iterations)
}

/// Adds two words of these bytes to a line.
fn words_of(alloc: Global, words: &str, one: &[u8], two: &[u8]) -> Result<String, AllocError> {
    let (one, two) = (digits_of(alloc, one)?, digits_of(alloc, two)?);
    format!(in alloc; "{words} {one} {two}")
}
