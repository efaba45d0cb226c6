//! What the inits of a connection claim (AMQP 1.0, part 5, section 5.3.3.2).

ghost use Rattle.std.specs.Prelude.{◌≡◌, ◌≢◌, ◌⊎◌, ◌≤◌, ◌^◌, ℕ, Bool, List, None, Ok, IfOk, IfErr, OnErr, MatchOption, option_map, string_bytes};
ghost use Rattle.std.specs.Cow.{cow_str_bytes};
ghost use Rattle.fe2o3_sasl_wire.specs.AmqpTypes.{binary_bytes, init_frame, response_frame};
ghost use Rattle.fe2o3_sasl_wire.specs.FrameView.{shown};
ghost use Rattle.fe2o3_sasl_wire.specs.SaslFrames.{Init};
ghost use Rattle.fe2o3_scram.specs.ChannelBinding.{mechanism_of};
ghost use Rattle.fe2o3_scram.specs.ClientFirst.{ClientFirst as FirstValues, HasEscapes, ReadsClientFirst};
ghost use Rattle.fe2o3_scram.specs.declared.hmac.ScramVersion.{ScramVersion as VersionOf};
ghost use Rattle.fe2o3_sasl_core.specs.Costs.{CostsAtMost};
ghost use Rattle.fe2o3_sasl_core.specs.SaslAcceptor.{HasReason, reason_in, sent_frame};
ghost use Rattle.fe2o3_sasl_core.specs.LoginAttempts.{ClaimAllocates, ClaimIn, ClaimOf, IsAttempt, LateClaim, NamesUser, attempt_of, headers_of, with_late};

pub mod laws;

use crate::OutOfMemory;
use crate::mechanism::PLAIN;
use crate::plain_server::plain_user;
use crate::rejection::Rejection;
use crate::sasl_acceptor::SaslServerFrame;
use fe2o3_sasl_wire::SaslInit;
use fe2o3_scram::channel_binding::{ChannelBindings, ChannelData};
use fe2o3_scram::hmac::{
    SCRAM_SHA_1, SCRAM_SHA_1_PLUS, SCRAM_SHA_256, SCRAM_SHA_256_PLUS, SCRAM_SHA_512,
    SCRAM_SHA_512_PLUS,
};
use fe2o3_scram::scram_messages::ServerScramErrorKind;
use fe2o3_scram::{ClientFirst, ServerRules};
use std::alloc::{AllocError, Global};

/// What an init claims (AMQP 1.0, part 5, section 5.3.3.2). Nobody is authenticated by it: the user who has logged in is
/// that of [`AuthenticatedUser`]. Use it to count rejected logins per user, or to choose a virtual host.
#[derive(Debug, Drop)]
pub struct LoginAttempt {
    /// The mechanism that the init names, also one that the server does not offer.
    pub mechanism: String,

    /// The user name that the initial response claims, as [`claimed_user`] returns it. `None` if the init has no initial
    /// response, up to a response that claims one in its place.
    pub claimed_user: Option<String>,

    /// The hostname that the init names.
    pub hostname: Option<String>,
}

impl LoginAttempt {
    /// Copies what an init of this mechanism, initial response and hostname claims.
    pub(crate) fn of_init(
        alloc: Global,
        mechanism: &str,
        initial_response: Option<&[u8]>,
        hostname: Option<&str>,
    ) -> Result<Self, OutOfMemory>
        ensures { IfOk result (λ attempt. IsAttempt
            (Init mechanism.now (shown initial_response.entry) (shown hostname.entry)) (attempt_of attempt)) }
    {
        Ok(Self {
            mechanism: mechanism.to_string(alloc)?,
            claimed_user: user_of_init(alloc, mechanism, initial_response)?,
            hostname: copied(alloc, hostname)?,
        })
    }

    /// Returns the user that a response claims: if the init claims none, the response may be its initial response.
    pub(crate) fn late_user(
        &self,
        alloc: Global,
        response: &[u8],
    ) -> Result<Option<String>, OutOfMemory>
        ensures ok { IfOk result (λ user. LateClaim (attempt_of self.now).user (attempt_of self.now).mechanism
            response.now (option_map string_bytes user)) }
        ensures memory { IfErr result (λ _. ((attempt_of self.now).user ≡ None)
            × ClaimAllocates (attempt_of self.now).mechanism response.now) }
    {
        match &self.claimed_user {
            Some(_) => Ok(None),
            None => claimed_user(alloc, self.mechanism.as_str(), response),
        }
    }
}

impl Clone for LoginAttempt {
    ghost is_clone = { λ attempt copy. attempt_of copy ≡ attempt_of attempt };

    fn clone(&self) -> Result<Self, AllocError> {
        Ok(Self {
            mechanism: self.mechanism.clone()?,
            claimed_user: self.claimed_user.clone()?,
            hostname: self.hostname.clone()?,
        })
    }
}

/// Returns the user name that an initial response of this mechanism claims. Nobody is authenticated by it.
///
/// - For SCRAM-SHA-1, SCRAM-SHA-256 and SCRAM-SHA-512 it is the unescaped name of the client-first message, whose GS2
///   header is `n,,` or `y,,` (RFC 5802, section 7), also if it names an identity to act for.
/// - For SCRAM-SHA-1-PLUS, SCRAM-SHA-256-PLUS and SCRAM-SHA-512-PLUS it is the unescaped name of the client-first
///   message, whose GS2 header is `p=tls-unique,,`, `p=tls-server-end-point,,` or `p=tls-exporter,,` (RFC 5802, sections
///   6 and 7), also if it names an identity to act for.
/// - For PLAIN it is the name that `plain_user` returns (RFC 4616, section 2), also if the message names an identity.
/// - A message that binds a channel or names an identity is one only if what follows its nonce is an extension, as for
///   every server that accepts one ([`ServerRules::is_strict`]).
/// - For every other mechanism, and for a message that cannot be parsed, it is `None`.
///
/// The only error is `OutOfMemory`.
#[tactic(auto, using(crate::proofs::lemmas::machines::LoginAttemptLemmas::claims))]
pub fn claimed_user(
    alloc: Global,
    mechanism: &str,
    message: &[u8],
) -> Result<Option<String>, OutOfMemory>
    ensures ok { IfOk result (λ user. ClaimOf mechanism.now message.now (option_map string_bytes user)) }
    ensures memory { IfErr result (λ _. ClaimAllocates mechanism.now message.now) }
{
    if let Some(plus) = binds_channel(mechanism) {
        return named_user(alloc, message, plus);
    }
    if mechanism != PLAIN {
        return Ok(None);
    }
    match plain_user(message) {
        Some(user) => Ok(Some(user.to_string(alloc)?)),
        None => Ok(None),
    }
}

/// Returns whether SCRAM of this name binds a channel (RFC 5802, section 4), or `None` for every other mechanism.
fn binds_channel(mechanism: &str) -> Option<bool>
    ensures { MatchOption result
        ((version : VersionOf) (plus : Bool) → mechanism_of version plus ≢ mechanism.now)
        (λ plus. (version : VersionOf) × (mechanism_of version plus ≡ mechanism.now)) }
{
    match mechanism {
        SCRAM_SHA_1 | SCRAM_SHA_256 | SCRAM_SHA_512 => Some(false),
        SCRAM_SHA_1_PLUS | SCRAM_SHA_256_PLUS | SCRAM_SHA_512_PLUS => Some(true),
        _ => None,
    }
}

/// Returns the user name of a client-first message of SCRAM, with `-PLUS` or without it, or `None` if it cannot be parsed.
/// The message is read by the rules of a server that accepts no identity, and if that fails, by those of a server that
/// accepts one, which tests extensions like a strict server.
fn named_user(alloc: Global, message: &[u8], plus: bool) -> Result<Option<String>, OutOfMemory>
    ensures ok { IfOk result (λ user. MatchOption (option_map string_bytes user)
        ((name : List ℕ) → ¬ NamesUser plus message.now name) (NamesUser plus message.now)) }
    ensures memory { IfErr result (λ _. ((accept : Bool) × HasEscapes (headers_of plus accept) message.now)
        ⊎ ((name : List ℕ) × NamesUser plus message.now name)) }
{
    match scram_user(alloc, message, headers_of(plus, false))? {
        Some(user) => Ok(Some(user)),
        None => scram_user(alloc, message, headers_of(plus, true)),
    }
}

/// Returns which GS2 headers belong to SCRAM: with `-PLUS` those of any kind of channel binding, and without it `n,,`
/// and `y,,` (RFC 5802, section 6), with an identity if it is accepted.
fn headers_of(plus: bool, accept_authzid: bool) -> ServerRules
    ensures { result ≡ headers_of plus accept_authzid }
{
    if !plus {
        return ServerRules {
            accept_cbind_flag_y: true,
            strict: false,
            reject_misplaced: false,
            channels: None,
            accept_authzid,
        };
    }
    let no_data = ChannelData {
        bytes: [0; 64],
        len: 0,
    };
    ServerRules {
        accept_cbind_flag_y: false,
        strict: false,
        reject_misplaced: false,
        channels: Some(ChannelBindings {
            tls_unique: Some(no_data),
            tls_server_end_point: Some(no_data),
            tls_exporter: Some(no_data),
        }),
        accept_authzid,
    }
}

/// Returns the user name that an init of this mechanism claims by its initial response, or `None` if it has none.
fn user_of_init(
    alloc: Global,
    mechanism: &str,
    initial_response: Option<&[u8]>,
) -> Result<Option<String>, OutOfMemory>
    ensures { IfOk result (λ user. ClaimIn mechanism.now (shown initial_response.entry) (option_map string_bytes user)) }
{
    match initial_response {
        Some(message) => claimed_user(alloc, mechanism, message),
        None => Ok(None),
    }
}

/// Returns the initial response of an init, if it has one.
pub(crate) fn response_of(init: &SaslInit) -> Option<&[u8]>
    ensures { shown result ≡ option_map binary_bytes init.now.initial_response }
{
    match &init.initial_response {
        Some(response) => Some(&response.0),
        None => None,
    }
}

/// Returns a copy of the text, if there is one.
pub(crate) fn copied(alloc: Global, text: Option<&str>) -> Result<Option<String>, OutOfMemory>
    ensures { IfOk result (λ copy. option_map string_bytes copy ≡ shown text.entry) }
{
    match text {
        Some(text) => Ok(Some(text.to_string(alloc)?)),
        None => Ok(None),
    }
}

/// Returns the user name of a client-first message that these rules accept, or `None` if it cannot be parsed.
#[tactic(auto, using(crate::proofs::lemmas::machines::LoginAttemptLemmas::unread))]
fn scram_user(
    alloc: Global,
    message: &[u8],
    rules: ServerRules,
) -> Result<Option<String>, OutOfMemory>
    ensures ok { IfOk result (λ user. MatchOption (option_map string_bytes user)
        ((first : FirstValues) → ¬ ReadsClientFirst rules message.now (Ok first))
        (λ name. (first : FirstValues) × ReadsClientFirst rules message.now (Ok first) × (name ≡ first.user))) }
    ensures memory { IfErr result (λ _. HasEscapes rules message.now
        ⊎ ((first : FirstValues) × ReadsClientFirst rules message.now (Ok first))) }
{
    match ClientFirst::parse_with_rules(alloc, message, rules) {
        Ok(first) => Ok(Some(first.username.as_str().to_string(alloc)?)),
        Err(ServerScramErrorKind::OutOfMemory) => Err(OutOfMemory),
        Err(_) => Ok(None),
    }
}

/// Returns the claim of an init, with the user of a late initial response if the init claims none.
pub(crate) fn with_late(last: Option<LoginAttempt>, late: Option<String>) -> Option<LoginAttempt>
    ensures { option_map attempt_of result
        ≡ option_map (λ attempt. with_late attempt (option_map string_bytes late)) (option_map attempt_of last) }
{
    match last {
        Some(
            LoginAttempt {
                mechanism,
                claimed_user: None,
                hostname,
            },
        ) => Some(LoginAttempt {
            mechanism,
            claimed_user: late,
            hostname,
        }),
        last => last,
    }
}

/// Returns the reason of a reply that rejects the login.
pub(crate) fn rejection_of(reply: &SaslServerFrame) -> Option<Rejection>
    ensures { result ≡ reason_in reply.now }
{
    match reply {
        SaslServerFrame::Rejected(reason) => Some(*reason),
        SaslServerFrame::Challenge(_) | SaslServerFrame::Outcome(_) => None,
    }
}
