//! The server-first message, which challenges a known user.

ghost use Rattle.std.specs.Prelude.{◌≡◌, ◌++◌, IfOk, option_map};
ghost use Rattle.fe2o3_scram.specs.ClientFirst.{client_first_values, default_rules};
ghost use Rattle.fe2o3_scram.specs.ServerFirst.{AnswersClientFirst, ReachesChallenge, challenge_of, challenge_values, server_first_of};
ghost use Rattle.fe2o3_scram.specs.Credentials.{kept, serving};
ghost use Rattle.fe2o3_scram.specs.Readings.{Gives};

use crate::OutOfMemory;
use crate::hmac::ScramVersion;
use crate::provider::{ScramCredentialProvider, StoredPassword};
use crate::scram_messages::attributes::{ITERATION_COUNT_KEY, NONCE_KEY, SALT_KEY};
use crate::scram_messages::channel_binding_flag::ChannelBindingFlag;
use crate::scram_messages::client_first_reading::ClientFirst;
use crate::scram_messages::error::ServerScramErrorKind;
use crate::scram_messages::server_rules::ServerRules;
use crate::texts::{base64_len, push_base64};
use bytes::Bytes;
use std::alloc::Global;
use std::borrow::CowStr;

/// The maximum length of `r=,s=,i=` and the digits of a count: all but the nonce and the salt.
const FIXED_LEN: usize = 18;

/// A server-first message, and what the server keeps of the exchange so far.
#[derive(Debug, Drop)]
pub struct ServerFirstMessage<'a> {
    /// The plain user name, as `ClientFirst::parse` returns it.
    pub username: CowStr<'a>,

    /// What the GS2 header of the client-first message says of channel binding.
    pub header: ChannelBindingFlag,

    /// The identity that the client names to act for, plain, not escaped, or `None` if it acts for itself. It is only
    /// claimed: nothing is proved yet.
    pub acts_for: Option<CowStr<'a>>,

    /// The client-first message without its GS2 header.
    pub client_first_message_bare: &'a str,

    /// The nonce of both sides.
    pub client_server_nonce: Bytes,

    /// The message to send.
    pub message: Bytes,
}

impl ScramVersion {
    /// Answers a client-first message with a challenge (RFC 5802, sections 5 and 7), or with `None` if the user is
    /// unknown.
    ///
    /// `client_first` is the message as received, with its GS2 header. The server's nonce is a text without commas, and
    /// is written after the client's. `self` is not used.
    ///
    /// The errors are those of `ClientFirst::parse`, in its order. `OutOfMemory` is returned only if the user name is
    /// escaped, or for a known user.
    pub fn compute_server_first_message<'a, C: ScramCredentialProvider>(
        &self,
        alloc: Global,
        client_first: &'a [u8],
        base64_server_nonce: &str,
        credentials: &C,
    ) -> Result<Option<ServerFirstMessage<'a>>, ServerScramErrorKind>
        ensures { Gives ServerScramErrorKind.OutOfMemory
            (ReachesChallenge (serving default_rules (C.meaning credentials.now)) client_first.now)
            (option_map challenge_values) result
            (AnswersClientFirst (serving default_rules (C.meaning credentials.now)) base64_server_nonce.now client_first.now) }
    {
        challenge(
            alloc,
            client_first,
            base64_server_nonce,
            ServerRules::new(),
            credentials,
        )
    }

    /// Like `compute_server_first_message`, but by these rules (`ClientFirst::parse_with_rules`).
    pub fn compute_server_first_message_with_rules<'a, C: ScramCredentialProvider>(
        &self,
        alloc: Global,
        client_first: &'a [u8],
        base64_server_nonce: &str,
        rules: ServerRules,
        credentials: &C,
    ) -> Result<Option<ServerFirstMessage<'a>>, ServerScramErrorKind>
        ensures { Gives ServerScramErrorKind.OutOfMemory
            (ReachesChallenge (serving rules (C.meaning credentials.now)) client_first.now)
            (option_map challenge_values) result
            (AnswersClientFirst (serving rules (C.meaning credentials.now)) base64_server_nonce.now
            client_first.now) }
    {
        challenge(alloc, client_first, base64_server_nonce, rules, credentials)
    }
}

/// Returns the challenge to a client-first message, or `None` if the user is unknown.
fn challenge<'a, C: ScramCredentialProvider>(
    alloc: Global,
    client_first: &'a [u8],
    base64_server_nonce: &str,
    rules: ServerRules,
    credentials: &C,
) -> Result<Option<ServerFirstMessage<'a>>, ServerScramErrorKind>
    ensures { Gives ServerScramErrorKind.OutOfMemory
        (ReachesChallenge (serving rules (C.meaning credentials.now)) client_first.now)
        (option_map challenge_values) result
        (AnswersClientFirst (serving rules (C.meaning credentials.now)) base64_server_nonce.now
        client_first.now) }
{
    let client_first = ClientFirst::parse_with_rules(alloc, client_first, rules)?;
    let Some(stored_password) = credentials.get_stored_password(&client_first.username) else {
        return Ok(None);
    };
    let message = challenge_to(alloc, client_first, base64_server_nonce, &stored_password)?;
    Ok(Some(message))
}

/// Returns the challenge to a parsed client-first message of a user with this record.
pub(crate) fn challenge_to<'a>(
    alloc: Global,
    client_first: ClientFirst<'a>,
    base64_server_nonce: &str,
    stored_password: &StoredPassword<'_>,
) -> Result<ServerFirstMessage<'a>, OutOfMemory>
    ensures { IfOk result (λ message. challenge_values message
        ≡ challenge_of (client_first_values client_first.entry) base64_server_nonce.now (kept stored_password.now)) }
{
    let (message, client_server_nonce) = server_first(
        alloc,
        client_first.client_nonce,
        base64_server_nonce,
        stored_password,
    )?;
    Ok(ServerFirstMessage {
        username: client_first.username,
        header: client_first.header,
        acts_for: client_first.acts_for,
        client_first_message_bare: client_first.client_first_message_bare,
        client_server_nonce,
        message,
    })
}

/// Writes the server-first message. Returns it with the nonce of both sides, which is a part of it.
fn server_first(
    alloc: Global,
    client_nonce: &str,
    server_nonce: &str,
    stored_password: &StoredPassword<'_>,
) -> Result<(Bytes, Bytes), OutOfMemory>
    ensures message { IfOk result (λ made. made.0
        ≡ server_first_of (client_nonce.now ++ server_nonce.now) (kept stored_password.now)) }
    ensures nonce { IfOk result (λ made. made.1 ≡ client_nonce.now ++ server_nonce.now) }
{
    let room = FIXED_LEN
        .saturating_add(client_nonce.len())
        .saturating_add(server_nonce.len())
        .saturating_add(base64_len(stored_password.salt.len()));
    let mut text = String::with_capacity(alloc, room)?;
    text.push_str(NONCE_KEY)?;
    text.push_str(client_nonce)?;
    text.push_str(server_nonce)?;
    let nonce_end = text.len();
    text.push_str(",")?;
    text.push_str(SALT_KEY)?;
    push_base64(&mut text, stored_password.salt)?;
    text.push_str(",")?;
    text.push_str(ITERATION_COUNT_KEY)?;
    text.write(stored_password.iterations)?;
    let message = Bytes::from_string(text)?;
    let client_server_nonce = message.slice(NONCE_KEY.len()..nonce_end)?;
    Ok((message, client_server_nonce))
}
