//! `client-final VERSION USER PASSWORD CLIENT-NONCE SERVER-FIRST [LIMIT]`: the client-final message,
//! and the server-final message that the client would accept.

use crate::stop::Stop;
use base64::engine::general_purpose::STANDARD;
use fe2o3_sasl::{Meter, ScramVersion};
use std::alloc::Global;
use std::io::Write;

/// The arguments of `client-final`.
#[derive(Debug, Drop)]
pub struct ClientFinal<'a> {
    version: ScramVersion,
    user: &'a str,
    password: &'a str,
    client_nonce: &'a str,
    server_first: &'a str,

    /// The maximum iteration count that the client accepts.
    limit: u32,
}

impl<'a> ClientFinal<'a> {
    /// Parses the arguments. Without a LIMIT the client accepts every count.
    pub fn from_words(words: &'a [String]) -> Option<ClientFinal<'a>> {
        let [
            version,
            user,
            password,
            client_nonce,
            server_first,
            rest @ ..,
        ] = words
        else {
            return None;
        };
        let limit = match rest {
            [] => u32::MAX,
            [limit] => limit_of(limit)?,
            _ => return None,
        };
        Some(ClientFinal {
            version: ScramVersion::from_mechanism(version)?,
            user,
            password,
            client_nonce,
            server_first,
            limit,
        })
    }

    /// Prints the two messages, each on a line.
    pub fn run<W: Write>(&self, alloc: Global, output: &mut W) -> Result<(), Stop> {
        let (_, client_first_message_bare) = self
            .version
            .client_first_message(alloc, self.user.as_bytes(), self.client_nonce.as_bytes())?;
        let (client_final, server_signature) = self.version.compute_client_final_message_limited(
            alloc,
            self.client_nonce,
            self.password,
            self.server_first,
            &client_first_message_bare,
            self.limit,
            &mut Meter::new(),
        )?;
        let verifier = STANDARD.encode(alloc, &server_signature)?;
        output.write_all(&client_final)?;
        writeln!(output)?;
        writeln!(output, "v={verifier}")?;
        Ok(())
    }
}

/// Parses a limit of one to ten decimal digits. `parse` would also accept a plus sign and more zeros.
fn limit_of(word: &str) -> Option<u32> {
    if word.len() > 10 || word.starts_with('+') {
        return None;
    }
    word.parse().ok()
}
