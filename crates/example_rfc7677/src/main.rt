//! The example of RFC 7677, section 3: a client's answer to the server, and the server-final message that it then waits
//! for.
#![tactic(auto)]

use anyhow::Result;
use base64::engine::general_purpose::STANDARD;
use fe2o3_scram::ScramVersion;
use std::io;
use std::io::Write;

/// The client's nonce, here that of the example; in a login it is random.
const CLIENT_NONCE: &str = "rOprNGfwEbeRWgbNEkqO";

/// What the server answered to the client's first message: both nonces, the salt and the count.
const SERVER_FIRST: &str =
    "r=rOprNGfwEbeRWgbNEkqO%hvYDpWUa2RaTCAfuxFIlj)hNlF$k0,s=W22ZaJ0SNY7soEsUEjb6gQ==,i=4096";

fn main(rt: HostRuntime) -> Result<()> {
    let version = ScramVersion::Sha256;
    let (_, client_first_bare) = version.client_first_message(
        rt.alloc(),
        b"user",
        CLIENT_NONCE.as_bytes(),
    )?;
    let (client_final, server_signature) = version.compute_client_final_message(
        rt.alloc(),
        CLIENT_NONCE,
        "pencil",
        SERVER_FIRST,
        &client_first_bare,
    )?;
    let verifier = STANDARD.encode(rt.alloc(), &server_signature)?;
    let mut output = io::writer(&rt);
    output.write_all(&client_final)?;
    writeln!(output)?;
    writeln!(output, "v={verifier}")?;
    Ok(())
}
