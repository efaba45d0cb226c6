//! The sentences of an audit.

use fe2o3_sasl::audit::{Parameters, Verdict};
use fe2o3_scram::ScramVersion;
use std::alloc::{AllocError, Global};

/// Returns the second half of the sentence of a verdict, without a full stop.
pub fn sentence_of(
    alloc: Global,
    version: ScramVersion,
    verdict: &Verdict,
) -> Result<String, AllocError> {
    match verdict {
        Verdict::Agreed {
            username,
            client_nonce,
            parameters,
        } => agreed_of(alloc, version, username, client_nonce, parameters.as_ref()),
        Verdict::SameMac {
            client_text,
            server_text,
            ..
        } => {
            let (client, server) = (client_text.len(), server_text.len());
            format!(in alloc;
                "but in another login: two AuthMessages, of {client} and {server} bytes, have the same HMAC value"
            )
        }
        Verdict::SameHash { .. } => String::from_str(
            alloc,
            "but with another key than the client's, and both keys have the same digest",
        ),
        Verdict::OtherKey => String::from_str(
            alloc,
            "but with another key than the client's, which is not the key of the record",
        ),
    }
}

/// Returns what both sides agree on, in words.
fn agreed_of(
    alloc: Global,
    version: ScramVersion,
    user: &str,
    client_nonce: &str,
    parameters: Option<&Parameters>,
) -> Result<String, AllocError> {
    let mechanism = version.mechanism();
    let Some(parameters) = parameters else {
        return format!(in alloc;
            "and both agree on {mechanism}, the user {user:?} and the client nonce {client_nonce:?}, and on nothing else"
        );
    };
    let salt = hex::encode(alloc, parameters.salt.as_slice())?;
    let (nonce, iterations) = (parameters.full_nonce.as_str(), parameters.iterations);
    format!(in alloc;
        "and both agree on {mechanism}, the user {user:?}, the client nonce {client_nonce:?}, the full nonce {nonce:?}, \
        the salt {salt} and {iterations} iterations"
    )
}
