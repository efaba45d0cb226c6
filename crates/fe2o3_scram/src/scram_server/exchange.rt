//! The open exchange of a server: a challenge, and the record that it was made with (RFC 5802, section 5).

ghost use Rattle.std.specs.Prelude.{◌≡◌, ◌≤◌, ◌^◌, IfOk, option_map, string_bytes};
ghost use Rattle.std.specs.Cow.{cow_str_bytes};
ghost use Rattle.fe2o3_scram.specs.ChannelBinding.{expected_header};
ghost use Rattle.fe2o3_scram.specs.ClientFinal.{ReachesBase64};
ghost use Rattle.fe2o3_scram.specs.ClientFirst.{client_first_values};
ghost use Rattle.fe2o3_scram.specs.Credentials.{kept, serving};
ghost use Rattle.fe2o3_scram.specs.MockSettings.{mocking};
ghost use Rattle.fe2o3_scram.specs.Readings.{Gives};
ghost use Rattle.fe2o3_scram.specs.ScramServer.{FirstCosts, BeginsExchange, challenge_kept, lent_mock, opened_by, server_for};
ghost use Rattle.fe2o3_scram.specs.ServerFinal.{AnswersClientFinal, FinalCosts};
ghost use Rattle.fe2o3_scram.specs.ServerFirst.{ReachesChallenge, challenge_of, challenge_values};

use crate::OutOfMemory;
use crate::hmac::{Meter, ScramVersion};
use crate::provider::{ScramCredentialProvider, StoredPassword};
use crate::scram_messages::error::ServerScramErrorKind;
use crate::scram_messages::{
    ChannelBindingFlag, ClientFirst, ClientHeader, ServerFirstMessage, ServerRules, challenge_to,
};
use crate::scram_server::kept_record::KeptRecord;
use crate::scram_server::mock_users::{MockUsers, look_up, mock_values};
use crate::scram_server::open_challenge::OpenChallenge;
use crate::texts::base64_of_nonce;
use bytes::Bytes;
use std::alloc::{AllocError, Global};
use std::borrow::CowStr;
use std::marker::Model;

/// An exchange in which a server has sent its challenge. It keeps the record that the challenge was made with: the store
/// may change before the client-final message.
#[derive(Drop)]
pub struct ServerExchange {
    username: String,
    header: ChannelBindingFlag,
    acts_for: Option<String>,
    client_first_message_bare: Bytes,
    client_server_nonce: Bytes,
    server_first_message: Bytes,
    stored: KeptRecord,
}

impl Model for ServerExchange {
    ghost use Rattle.std.specs.Prelude.{option_map, string_bytes};
    ghost use Rattle.fe2o3_scram.specs.ServerFirst.{OpenExchange};

    ghost Value = { OpenExchange };

    ghost view = { λ exchange. record {
      challenge = record {
        user = string_bytes exchange.username;
        header = record { flag = exchange.header; acts_for = option_map string_bytes exchange.acts_for };
        bare = exchange.client_first_message_bare;
        first = exchange.server_first_message;
        nonce = exchange.client_server_nonce;
      };
      stored = exchange.stored;
    } };
}

impl ServerExchange {
    /// Answers a client-first message with the server-first message (RFC 5802, sections 5 and 7), and returns the exchange
    /// that it opens, or `None` if the user is unknown. With mock users no user is. The message is the client's text as
    /// received, with its GS2 header. The nonce is 32 bytes, new for each exchange. It is written in base64, as 44 symbols,
    /// after the client's. The mock users are of the version of the credentials.
    ///
    /// The errors are those of `ClientFirst::parse_with_rules`, in its order. `OutOfMemory` is returned only if the user
    /// name or the identity is escaped, or if the user has a record or a mock record.
    ///
    /// The meter, of at most 2^63, counts the HMAC values. There are none without mock users. With them there are three if
    /// the message is read, for a known user too, none if it is rejected, and at most three if the call runs out of memory.
    pub fn open<C: ScramCredentialProvider>(
        alloc: Global,
        credentials: &C,
        rules: ServerRules,
        mock: Option<MockUsers<'_>>,
        client_first_message: &[u8],
        nonce: &[u8; 32],
        meter: &mut Meter,
    ) -> Result<Option<(Vec<u8>, ServerExchange)>, ServerScramErrorKind>
        requires { meter.old ≤ 2 ^ 63 }
        ensures answer { Gives ServerScramErrorKind.OutOfMemory (ReachesChallenge
            (mocking (option_map lent_mock mock.entry) (serving rules (C.meaning credentials.now)))
            client_first_message.now) (option_map opened_by) result (BeginsExchange
            (mocking (option_map lent_mock mock.entry) (serving rules (C.meaning credentials.now))) nonce.now
            client_first_message.now) }
        ensures cost { FirstCosts (mocking (option_map lent_mock mock.entry) (serving rules (C.meaning credentials.now)))
            client_first_message.now result meter.old meter.new }
    {
        let mut room = [0; 44];
        let nonce = base64_of_nonce(nonce, &mut room);
        let client_first = ClientFirst::parse_with_rules(alloc, client_first_message, rules)?;
        // Only functions without a store allocate: the parser before the look-up, and `challenged` after it. So known
        // users and mock users make the same allocations.
        let mock = mock_values(mock, &client_first.username, meter);
        let Some(stored) = look_up(credentials, &client_first.username, &mock) else {
            return Ok(None);
        };
        let opened = challenged(alloc, client_first, nonce, &stored)?;
        Ok(Some(opened))
    }

    /// Answers a client-final message with the server-final message (RFC 5802, sections 5 and 7). The version and the rules
    /// are those of the server that has opened the exchange, and `may_act` says whether the user has the right to act for
    /// the identity that the client named.
    ///
    /// The errors are those of `ClientFinal::parse_with_header`, in its order; `XorLengthMismatch` if the proof is not as
    /// long as a digest; and `AuthenticationFailed` if the proof does not meet the stored key, or `may_act` is false.
    /// `OutOfMemory` is returned only where `ClientFinal::parse` allocates. The meter, of at most 2^63, counts the HMAC
    /// values, also of an error.
    pub fn conclude(
        &self,
        alloc: Global,
        version: ScramVersion,
        rules: ServerRules,
        may_act: bool,
        client_final_message: &[u8],
        meter: &mut Meter,
    ) -> Result<Vec<u8>, ServerScramErrorKind>
        requires { meter.old ≤ 2 ^ 63 }
        ensures answer { Gives ServerScramErrorKind.OutOfMemory (ReachesBase64
            (expected_header rules.channels self.now.challenge.header) self.now.challenge.nonce client_final_message.now)
            (λ message. message.items) result
            (AnswersClientFinal (server_for version rules may_act self.now) client_final_message.now) }
        ensures cost { FinalCosts (server_for version rules may_act self.now) client_final_message.now result
            meter.old meter.new }
    {
        version.compute_server_final_message_with_header(
            alloc,
            &ClientHeader::new(rules.expected_channel(self.header), self.acts_for()),
            rules.is_strict(),
            client_final_message,
            &self.client_server_nonce,
            &self.client_first_message_bare,
            &self.server_first_message,
            &self.stored.as_stored_password(),
            may_act,
            meter,
        )
    }

    /// Returns the user whom the client claims to be, plain, not escaped.
    pub fn username(&self) -> &str
        ensures { result.now ≡ self.now.challenge.user }
    {
        &self.username
    }

    /// Returns the identity that the client names to act for, plain, not escaped, or `None` if it acts for itself.
    pub fn acts_for(&self) -> Option<&str>
        ensures { option_map (λ name. name.now) result ≡ self.now.challenge.header.acts_for }
    {
        self.acts_for.as_deref()
    }

    /// Returns the user and the identity, and drops the rest.
    pub fn into_names(self) -> (String, Option<String>)
        ensures user { string_bytes result.0 ≡ self.challenge.user }
        ensures acts_for { option_map string_bytes result.1 ≡ self.challenge.header.acts_for }
    {
        (self.username, self.acts_for)
    }

    /// Returns what to save of the exchange. [`ServerExchange::restore`] needs the record of its user too.
    pub fn open_challenge(&self) -> OpenChallenge<'_>
        ensures { challenge_kept result ≡ self.now.challenge }
    {
        OpenChallenge {
            username: &self.username,
            header: self.header,
            acts_for: self.acts_for.as_deref(),
            client_first_message_bare: &self.client_first_message_bare,
            client_server_nonce: &self.client_server_nonce,
            server_first_message: &self.server_first_message,
        }
    }

    /// Returns the exchange with this challenge, as `open_challenge` returned it, and this record of its user.
    ///
    /// The only error is `OutOfMemory`.
    pub fn restore(
        alloc: Global,
        challenge: &OpenChallenge<'_>,
        stored: &StoredPassword<'_>,
    ) -> Result<Self, OutOfMemory>
        ensures { IfOk result (λ exchange.
            exchange ≡ record { challenge = challenge_kept challenge.now; stored = kept stored.now }) }
    {
        Ok(Self {
            username: challenge.username.to_string(alloc)?,
            header: challenge.header,
            acts_for: copied(alloc, challenge.acts_for)?,
            client_first_message_bare: Bytes::copy_from_slice(
                alloc,
                challenge.client_first_message_bare,
            )?,
            client_server_nonce: Bytes::copy_from_slice(alloc, challenge.client_server_nonce)?,
            server_first_message: Bytes::copy_from_slice(alloc, challenge.server_first_message)?,
            stored: KeptRecord::of(alloc, stored)?,
        })
    }
}

impl Clone for ServerExchange {
    ghost is_clone = { λ exchange copy. copy ≡ exchange };

    fn clone(&self) -> Result<Self, AllocError> {
        Ok(Self {
            username: self.username.clone()?,
            header: self.header,
            acts_for: self.acts_for.clone()?,
            client_first_message_bare: self.client_first_message_bare.clone()?,
            client_server_nonce: self.client_server_nonce.clone()?,
            server_first_message: self.server_first_message.clone()?,
            stored: self.stored.clone()?,
        })
    }
}

/// Returns the message of the challenge to a client-first message, and the exchange. No store is a parameter, so that the
/// allocations do not depend on one.
fn challenged(
    alloc: Global,
    client_first: ClientFirst<'_>,
    nonce: &str,
    stored: &StoredPassword<'_>,
) -> Result<(Vec<u8>, ServerExchange), OutOfMemory>
    ensures message { IfOk result (λ made. made.0.items
        ≡ (challenge_of (client_first_values client_first.entry) nonce.now (kept stored.now)).first) }
    ensures exchange { IfOk result (λ made. made.1 ≡ record {
      challenge = challenge_of (client_first_values client_first.entry) nonce.now (kept stored.now);
      stored = kept stored.now;
    }) }
{
    let server_first = challenge_to(alloc, client_first, nonce, stored)?;
    opened(alloc, server_first, stored)
}

/// Returns the message of a challenge, and the exchange with this record.
fn opened(
    alloc: Global,
    server_first: ServerFirstMessage<'_>,
    stored: &StoredPassword<'_>,
) -> Result<(Vec<u8>, ServerExchange), OutOfMemory>
    ensures message { IfOk result (λ made. made.0.items ≡ (challenge_values server_first.entry).first) }
    ensures exchange { IfOk result (λ made.
        made.1 ≡ record { challenge = challenge_values server_first.entry; stored = kept stored.now }) }
{
    let ServerFirstMessage {
        username,
        header,
        acts_for,
        client_first_message_bare,
        client_server_nonce,
        message,
    } = server_first;
    let username = username.into_owned(alloc)?;
    let acts_for = owned(alloc, acts_for)?;
    let answer = message.to_vec(alloc)?;
    let exchange = ServerExchange {
        username,
        header,
        acts_for,
        client_first_message_bare: Bytes::copy_from_slice(
            alloc,
            client_first_message_bare.as_bytes(),
        )?,
        client_server_nonce,
        server_first_message: message,
        stored: KeptRecord::of(alloc, stored)?,
    };
    Ok((answer, exchange))
}

/// Returns an owned copy of the identity, if there is one.
fn owned(alloc: Global, acts_for: Option<CowStr<'_>>) -> Result<Option<String>, OutOfMemory>
    ensures { IfOk result (λ name. option_map string_bytes name ≡ option_map cow_str_bytes acts_for.entry) }
{
    match acts_for {
        Some(name) => Ok(Some(name.into_owned(alloc)?)),
        None => Ok(None),
    }
}

/// Returns a copy of the identity, if there is one.
pub(crate) fn copied(alloc: Global, acts_for: Option<&str>) -> Result<Option<String>, OutOfMemory>
    ensures { IfOk result (λ name. option_map string_bytes name ≡ option_map (λ text. text.now) acts_for.entry) }
{
    match acts_for {
        Some(name) => Ok(Some(name.to_string(alloc)?)),
        None => Ok(None),
    }
}
