//! What two lists of frame bodies, one of a client and one of a server, say of the two sides.
//!
//! Both lists are replayed, with enough memory for each step and with the limit and the options that are passed; the
//! replies of the real sides are not used. A finding is a position of the client and a position of the server that
//! belong together: an Ok that the client reported on the verifier of an Ok of the server, or a response of the client
//! whose proof the server accepted. Its verdict says whether both sides mean one login, and, if not, which texts or
//! keys of theirs collide.

ghost use Rattle.std.specs.Prelude.{◌≡◌, IfOk, map, false};
ghost use Rattle.fe2o3_scram.specs.ClientFirst.{default_rules};
ghost use Rattle.fe2o3_scram.specs.Credentials.{serving};
ghost use Rattle.fe2o3_scram.specs.ClientSecret.{no_limit};
ghost use Rattle.fe2o3_sasl_core.specs.Verdicts.{AuditsEvents};
ghost use Rattle.fe2o3_sasl.specs.Audit.{finding_of};
ghost use Rattle.fe2o3_sasl_core.specs.Runs.{given, login_of, login_with};
ghost use Rattle.fe2o3_sasl.specs.declared.audit.AuditError.TheVariants.{OutOfMemory as NoMemory};

mod client_receipts;
mod matching;
mod receipts;
mod server_receipts;

use crate::audit::client_receipts::{client_is_complete, client_receipts};
use crate::audit::matching::{match_proofs, match_verifiers};
use crate::audit::server_receipts::{server_is_complete, server_receipts};
use fe2o3_sasl_core::events::Event;
use fe2o3_sasl_core::whole_runs::{scram_client_run_with_options, scram_server_run_with_rules};
use fe2o3_scram::client_secret::IterationLimits;
use fe2o3_scram::credentials::ScramCredentialProvider;
use fe2o3_scram::hmac::ScramVersion;
use fe2o3_scram::{ClientOptions, ServerRules};
use std::alloc::{AllocError, Global};
use std::fmt;
use thiserror::Error;

/// Why an audit fails. The error says nothing of the lists.
#[derive(Clone, Copy, Debug, PartialEq, Eq, Error)]
pub enum AuditError {
    /// An allocation failed, also inside a step of one of the two runs. The call can be repeated.
    #[error("OutOfMemory")]
    OutOfMemory,
}

impl From<AllocError> for AuditError {
    ghost from_gives = { λ _ error. error ≡ NoMemory };

    fn from(_error: AllocError) -> Self {
        AuditError::OutOfMemory
    }
}

/// The further values that both sides agree on.
#[derive(Debug, Drop)]
pub struct Parameters {
    /// The nonce of both sides.
    pub full_nonce: String,

    /// The salt.
    pub salt: Vec<u8>,

    /// The iteration count.
    pub iterations: u32,
}

/// The relation of the two sides of a finding.
#[derive(Drop)]
pub enum Verdict {
    /// Both sides mean one login, with these values.
    Agreed {
        /// The user, plain.
        username: String,

        /// The client's nonce.
        client_nonce: String,

        /// The further values that they agree on: given exactly if the client's first message had no part but the user
        /// name and the nonce.
        parameters: Option<Parameters>,
    },

    /// Two AuthMessages that differ have one HMAC value, each under its key.
    SameMac {
        /// The client's key.
        client_key: Vec<u8>,

        /// The client's AuthMessage.
        client_text: Vec<u8>,

        /// The server's key.
        server_key: Vec<u8>,

        /// The server's AuthMessage.
        server_text: Vec<u8>,
    },

    /// Two keys that differ have one digest.
    SameHash {
        /// The client's ClientKey.
        client_key: Vec<u8>,

        /// The key that the server recovered from the proof.
        recovered_key: Vec<u8>,
    },

    /// The client's ClientKey is not the one whose digest the server stores.
    OtherKey,
}

impl fmt::Debug for Verdict {
    /// Writes the user and the parameters; of keys and messages only the lengths.
    fn fmt<W: fmt::Write>(&self, f: &mut fmt::Formatter<W>) -> fmt::Result {
        match self {
            Verdict::Agreed {
                username,
                parameters,
                ..
            } => {
                write!(
                    f,
                    "Agreed {{ username: {username:?}, parameters: {parameters:?}, .. }}"
                )
            }
            Verdict::SameMac {
                client_text,
                server_text,
                ..
            } => {
                let client = client_text.len();
                let server = server_text.len();
                write!(
                    f,
                    "SameMac {{ client_text: {client} bytes, server_text: {server} bytes, .. }}"
                )
            }
            Verdict::SameHash { .. } => write!(f, "SameHash {{ .. }}"),
            Verdict::OtherKey => write!(f, "OtherKey"),
        }
    }
}

/// The subject of a finding.
#[derive(Clone, Copy, Debug, PartialEq, Eq)]
pub enum FindingKind {
    /// A verifier of the server that the client took.
    Verifier,

    /// A proof of the client that the server accepted.
    Proof,
}

/// A position of the client and a position of the server that belong together.
#[derive(Debug, Drop)]
pub struct Finding {
    /// The subject of the finding.
    pub kind: FindingKind,

    /// The position in the client's list, from 0.
    pub client: usize,

    /// The position in the server's list, from 0.
    pub server: usize,

    /// The verdict on the two sides.
    pub verdict: Verdict,
}

/// Audits two lists of bodies, of the client of this user and the server of these credentials. Returns a finding for
/// each verifier that the client took and the server gave. A finding for each proof that the client showed and the
/// server accepted follows. Both are ordered by the client's position and then by the server's. The client has no
/// channel to bind, names no identity, and accepts every iteration count from 1 on.
///
/// The only error is `OutOfMemory`, and nothing is done then.
pub fn audit<C: ScramCredentialProvider>(
    alloc: Global,
    user: &str,
    password: &str,
    version: ScramVersion,
    client_events: &[Event],
    credentials: &C,
    server_events: &[Event],
) -> Result<Vec<Finding>, AuditError>
    ensures { IfOk result (λ findings. AuditsEvents (login_of version user.now password.now no_limit)
        (map given client_events.now) (serving default_rules (C.meaning credentials.now)) (map given server_events.now)
        (map finding_of findings.items)) }
{
    audit_limited(
        alloc,
        user,
        password,
        version,
        u32::MAX,
        client_events,
        credentials,
        server_events,
    )
}

/// Like `audit`, but the client rejects an iteration count above the limit.
pub fn audit_limited<C: ScramCredentialProvider>(
    alloc: Global,
    user: &str,
    password: &str,
    version: ScramVersion,
    limit: u32,
    client_events: &[Event],
    credentials: &C,
    server_events: &[Event],
) -> Result<Vec<Finding>, AuditError>
    ensures { IfOk result (λ findings. AuditsEvents (login_of version user.now password.now limit)
        (map given client_events.now) (serving default_rules (C.meaning credentials.now)) (map given server_events.now)
        (map finding_of findings.items)) }
{
    audit_with_rules(
        alloc,
        user,
        password,
        version,
        limit,
        client_events,
        ServerRules::new(),
        credentials,
        server_events,
    )
}

/// Like `audit_limited`, but with these rules of the server for the messages of a client
/// (`ScramAuthenticator::with_rules`).
pub fn audit_with_rules<C: ScramCredentialProvider>(
    alloc: Global,
    user: &str,
    password: &str,
    version: ScramVersion,
    limit: u32,
    client_events: &[Event],
    rules: ServerRules,
    credentials: &C,
    server_events: &[Event],
) -> Result<Vec<Finding>, AuditError>
    ensures { IfOk result (λ findings. AuditsEvents (login_of version user.now password.now limit)
        (map given client_events.now) (serving rules (C.meaning credentials.now))
        (map given server_events.now) (map finding_of findings.items)) }
{
    let options = ClientOptions {
        limits: IterationLimits::up_to(limit),
        ..ClientOptions::new()
    };
    audit_with_options(
        alloc,
        user,
        password,
        version,
        options,
        client_events,
        rules,
        credentials,
        server_events,
    )
}

/// Audits two lists of bodies like `audit`, of a client with these options and a server with these rules
/// (`ScramAuthenticator::with_rules`). The server has no acting rights: if the rules accept identities, each user may act
/// only for itself. With `signature_by_challenge` the finding of a signature that came in a challenge is at the Ok without
/// data that follows. The empty response to that challenge shows no proof.
pub fn audit_with_options<C: ScramCredentialProvider>(
    alloc: Global,
    user: &str,
    password: &str,
    version: ScramVersion,
    options: ClientOptions,
    client_events: &[Event],
    rules: ServerRules,
    credentials: &C,
    server_events: &[Event],
) -> Result<Vec<Finding>, AuditError>
    ensures { IfOk result (λ findings. AuditsEvents (login_with options version user.now password.now)
        (map given client_events.now) (serving rules (C.meaning credentials.now))
        (map given server_events.now) (map finding_of findings.items)) }
{
    let client_replies = scram_client_run_with_options(
        alloc,
        user,
        password,
        version,
        options,
        client_events,
    )?;
    let server_replies = scram_server_run_with_rules(alloc, rules, credentials, server_events)?;
    if !client_is_complete(&client_replies) {
        return Err(AuditError::OutOfMemory);
    }
    if !server_is_complete(&server_replies) {
        return Err(AuditError::OutOfMemory);
    }
    let client = client_receipts(
        alloc,
        user,
        password,
        version,
        options,
        client_events,
        &client_replies,
    )?;
    let oks = server_receipts(alloc, rules, credentials, server_events, &server_replies)?;
    let mut findings = Vec::new(alloc);
    match_verifiers(alloc, &mut findings, &client.taken, &oks)?;
    match_proofs(alloc, &mut findings, &client.shown, &oks)?;
    Ok(findings)
}
