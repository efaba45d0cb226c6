//! Runs over lists of frame bodies: what an acceptor and a profile answer to each, in order (AMQP 1.0, part 5, section
//! 5.3.2).

ghost use Rattle.std.specs.Prelude.{◌≡◌, ◌<◌, ◌≤◌, ◌+◌, ◌++◌, ◌∷◌, [], map, IfOk, OnErr, vec_len, vec_capacity};
ghost use Rattle.base64.specs.GeneralPurpose.{IsBytes};
ghost use Rattle.fe2o3_sasl_wire.specs.FrameView.{shown};
ghost use Rattle.fe2o3_scram.specs.ClientFirst.{default_rules};
ghost use Rattle.fe2o3_scram.specs.Credentials.{serving};
ghost use Rattle.fe2o3_scram.specs.ClientSecret.{no_limit};
ghost use Rattle.fe2o3_sasl_core.specs.ClientHistory.{ClientHistory};
ghost use Rattle.fe2o3_sasl_core.specs.Events.{Login, IsLogin};
ghost use Rattle.fe2o3_sasl_core.specs.ServerHistory.{ServerHistory};
ghost use Rattle.fe2o3_sasl_core.specs.Headline.{AnswersOkExactly, ReportsOkExactly, TakenVerifiersAgree};
ghost use Rattle.fe2o3_sasl_core.specs.UnalteredRuns.{ClientLogsIn, ServerLogsIn};
ghost use Rattle.fe2o3_sasl_core.specs.SaslProfile.{profile_of};
ghost use Rattle.fe2o3_sasl_core.specs.Runs.{AcceptorSteps, ProfileSteps, Runs, StartsAs, given, server_answer, client_answer, login_of, login_with};

use crate::OutOfMemory;
use crate::events::{ClientReply, Event, ServerReply};
use crate::sasl_acceptor::SaslAcceptor;
use crate::sasl_profile::{ProfileError, SaslProfile};
use crate::steps::{acceptor_step, profile_step};
use fe2o3_sasl_wire::Error;
use fe2o3_scram::client_secret::IterationLimits;
use fe2o3_scram::credentials::ScramCredentialProvider;
use fe2o3_scram::hmac::ScramVersion;
use fe2o3_scram::scram_server::ScramAuthenticator;
use fe2o3_scram::{ClientOptions, ServerRules};
use std::alloc::Global;

/// Runs an acceptor over the events. Returns the reply or the error of its step for each, in order. If the list of
/// replies cannot be allocated, nothing is done.
pub fn run_acceptor<A: SaslAcceptor>(
    alloc: Global,
    acceptor: &mut A,
    events: &[Event],
) -> Result<Vec<Result<ServerReply, Error>>, OutOfMemory>
    ensures replies { IfOk result (λ replies. Runs (AcceptorSteps A.machine) (A.state acceptor.old)
        (map given events.now) (map server_answer replies.items) (A.state acceptor.new)) }
    ensures err { OnErr result (A.state acceptor.new ≡ A.state acceptor.old) }
{
    let mut replies = Vec::with_capacity(alloc, events.len())?;
    for event in events {
        let reply = acceptor_step(alloc, acceptor, event);
        push_within(&mut replies, reply);
    }
    Ok(replies)
}

/// Runs a profile over the events. Returns the reply or the error of its step for each, in order. A new SCRAM profile
/// reports Ok exactly on the signature of its open answered challenge, with a hostname and without (RFC 5802, section
/// 5; AMQP 1.0, part 5, section 5.3.3.2). If the list of replies cannot be allocated, nothing is done.
pub fn run_profile(
    alloc: Global,
    profile: &mut SaslProfile,
    events: &[Event],
    hostname: Option<&str>,
) -> Result<Vec<Result<ClientReply, ProfileError>>, OutOfMemory>
    ensures replies { IfOk result (λ replies. Runs (ProfileSteps (shown hostname.entry)) (profile_of profile.old)
        (map given events.now) (map client_answer replies.items) (profile_of profile.new)) }
    ensures history { IfOk result (λ replies. (login : Login)
        → StartsAs (profile_of profile.old) (shown hostname.entry) login
        → ClientHistory login (map given events.now) (map client_answer replies.items)) }
    ensures exactly { IfOk result (λ replies. (login : Login)
        → StartsAs (profile_of profile.old) (shown hostname.entry) login
        → ReportsOkExactly login (map given events.now) (map client_answer replies.items)) }
    ensures agreement { IfOk result (λ replies. (login : Login)
        → StartsAs (profile_of profile.old) (shown hostname.entry) login
        → TakenVerifiersAgree login (map given events.now) (map client_answer replies.items)) }
    ensures unaltered { IfOk result (λ replies. (login : Login)
        → StartsAs (profile_of profile.old) (shown hostname.entry) login → IsLogin login
        → ClientLogsIn login (map given events.now) (map client_answer replies.items)) }
    ensures err { OnErr result (profile_of profile.new ≡ profile_of profile.old) }
{
    let mut replies = Vec::with_capacity(alloc, events.len())?;
    for event in events {
        let reply = profile_step(alloc, profile, event, hostname);
        push_within(&mut replies, reply);
    }
    Ok(replies)
}

/// Runs a new SCRAM server over a list of bodies. It answers Ok exactly if a response fits its open challenge and its
/// proof meets the stored key. If the server or the list of replies cannot be allocated, nothing is done.
pub fn scram_server_run<C: ScramCredentialProvider>(
    alloc: Global,
    credentials: &C,
    events: &[Event],
) -> Result<Vec<Result<ServerReply, Error>>, OutOfMemory>
    ensures history { IfOk result (λ replies. ServerHistory (serving default_rules (C.meaning credentials.now))
        (map given events.now) (map server_answer replies.items)) }
    ensures exactly { IfOk result (λ replies. AnswersOkExactly (serving default_rules (C.meaning credentials.now))
        (map given events.now) (map server_answer replies.items)) }
    ensures unaltered { IfOk result (λ replies. ServerLogsIn (serving default_rules (C.meaning credentials.now))
        (map given events.now) (map server_answer replies.items)) }
{
    scram_server_run_with_rules(alloc, ServerRules::new(), credentials, events)
}

/// Like `scram_server_run`, but by these rules for the messages of a client (`ScramAuthenticator::with_rules`).
pub fn scram_server_run_with_rules<C: ScramCredentialProvider>(
    alloc: Global,
    rules: ServerRules,
    credentials: &C,
    events: &[Event],
) -> Result<Vec<Result<ServerReply, Error>>, OutOfMemory>
    ensures history { IfOk result (λ replies. ServerHistory (serving rules (C.meaning credentials.now))
        (map given events.now) (map server_answer replies.items)) }
    ensures exactly { IfOk result (λ replies. AnswersOkExactly (serving rules (C.meaning credentials.now))
        (map given events.now) (map server_answer replies.items)) }
    ensures unaltered { IfOk result (λ replies. ServerLogsIn (serving rules (C.meaning credentials.now))
        (map given events.now) (map server_answer replies.items)) }
{
    let provider = credentials.clone()?;
    let mut authenticator = ScramAuthenticator::new(provider).with_rules(rules);
    run_acceptor(alloc, &mut authenticator, events)
}

/// Runs a new SCRAM client without a hostname over a list of bodies. It reports Ok exactly on the signature of its open
/// answered challenge. It accepts every iteration count from 1 on. If the client or the list of replies cannot be
/// allocated, nothing is done.
pub fn scram_client_run(
    alloc: Global,
    user: &str,
    password: &str,
    version: ScramVersion,
    events: &[Event],
) -> Result<Vec<Result<ClientReply, ProfileError>>, OutOfMemory>
    ensures history { IfOk result (λ replies. ClientHistory (login_of version user.now password.now no_limit)
        (map given events.now) (map client_answer replies.items)) }
    ensures exactly { IfOk result (λ replies. ReportsOkExactly (login_of version user.now password.now no_limit)
        (map given events.now) (map client_answer replies.items)) }
    ensures agreement { IfOk result (λ replies. TakenVerifiersAgree (login_of version user.now password.now no_limit)
        (map given events.now) (map client_answer replies.items)) }
    ensures unaltered { IfOk result (λ replies. ClientLogsIn (login_of version user.now password.now no_limit)
        (map given events.now) (map client_answer replies.items)) }
{
    scram_client_run_limited(alloc, user, password, version, u32::MAX, events)
}

/// Like `scram_client_run`, but the client rejects an iteration count above the limit.
pub fn scram_client_run_limited(
    alloc: Global,
    user: &str,
    password: &str,
    version: ScramVersion,
    limit: u32,
    events: &[Event],
) -> Result<Vec<Result<ClientReply, ProfileError>>, OutOfMemory>
    ensures history { IfOk result (λ replies. ClientHistory (login_of version user.now password.now limit)
        (map given events.now) (map client_answer replies.items)) }
    ensures exactly { IfOk result (λ replies. ReportsOkExactly (login_of version user.now password.now limit)
        (map given events.now) (map client_answer replies.items)) }
    ensures agreement { IfOk result (λ replies. TakenVerifiersAgree (login_of version user.now password.now limit)
        (map given events.now) (map client_answer replies.items)) }
    ensures unaltered { IfOk result (λ replies. ClientLogsIn (login_of version user.now password.now limit)
        (map given events.now) (map client_answer replies.items)) }
{
    let options = ClientOptions {
        limits: IterationLimits::up_to(limit),
        ..ClientOptions::new()
    };
    scram_client_run_with_options(alloc, user, password, version, options, events)
}

/// Like `scram_client_run`, but the client has these options. One that binds a channel or is strict rejects an attribute
/// that RFC 5802 defines in the place of an extension (`ScramClient::with_options`).
pub fn scram_client_run_with_options(
    alloc: Global,
    user: &str,
    password: &str,
    version: ScramVersion,
    options: ClientOptions,
    events: &[Event],
) -> Result<Vec<Result<ClientReply, ProfileError>>, OutOfMemory>
    ensures history { IfOk result (λ replies. ClientHistory (login_with options version user.now password.now)
        (map given events.now) (map client_answer replies.items)) }
    ensures exactly { IfOk result (λ replies. ReportsOkExactly (login_with options version user.now password.now)
        (map given events.now) (map client_answer replies.items)) }
    ensures agreement { IfOk result (λ replies. TakenVerifiersAgree (login_with options version user.now password.now)
        (map given events.now) (map client_answer replies.items)) }
    ensures unaltered { IfOk result (λ replies. ClientLogsIn (login_with options version user.now password.now)
        (map given events.now) (map client_answer replies.items)) }
{
    are_bytes(options.channel.data());
    let username = String::from_str(alloc, user)?;
    let password = String::from_str(alloc, password)?;
    let mut profile = SaslProfile::scram(username, password, version, options);
    run_profile(alloc, &mut profile, events, None)
}

/// States that these are bytes. The function does nothing: it is called for its clause.
fn are_bytes(bytes: &[u8])
    ensures { IsBytes bytes.now }
{}

/// Adds an item, for which there is room.
fn push_within<T: Drop>(items: &mut Vec<T>, item: T)
    requires { vec_len items.old < vec_capacity items.old }
    ensures items { items.new.items ≡ items.old.items ++ item ∷ [] }
    ensures capacity { vec_capacity items.old ≤ vec_capacity items.new }
    ensures length { vec_len items.new ≡ vec_len items.old + 1 }
{
    if items.push(item).is_err() {
        unreachable!();
    }
}
