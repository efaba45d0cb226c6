//! The SCRAM server as a state machine over messages (RFC 5802, section 5).

ghost use Rattle.std.specs.Prelude.{◌≡◌, ◌≤◌, ◌^◌, [], IfOk, OnErr, Some, None, option_map};
ghost use Rattle.fe2o3_scram.specs.ClientFirst.{default_rules};
ghost use Rattle.fe2o3_scram.specs.ChannelBinding.{server_mechanism};
ghost use Rattle.fe2o3_scram.specs.Credentials.{Record};
ghost use Rattle.fe2o3_scram.specs.ScramServer.{provider_in, served_by, state_in, rules_in, rights_in, mock_in, Initial, ServerFirstSent, ServerFinalSent, logged_in_for, logged_in, ChallengesFrom, ConcludesFrom, FirstCosts, FinalCostsFrom, ReachesBase64In, server_state_of};
ghost use Rattle.fe2o3_scram.specs.ServerFirst.{ServerChallenge, ReachesChallenge};
ghost use Rattle.fe2o3_scram.specs.Readings.{Gives};

pub mod exchange;
mod kept_record;
mod mock_users;
pub mod open_challenge;
mod settings;

use crate::OutOfMemory;
use crate::acting_rights::{ActingRights, SharedRights};
use crate::channel_binding::ChannelBindings;
use crate::hmac::Meter;
use crate::provider::{ScramCredentialProvider, StoredPassword};
use crate::scram_messages::ServerRules;
use crate::scram_messages::error::ServerScramErrorKind;
use crate::scram_server::exchange::ServerExchange;
use crate::scram_server::mock_users::KeptMock;
pub use crate::scram_server::mock_users::{MockUsers, SaltTooLong};
use std::alloc::{AllocError, Global};
use std::sync::Arc;
use std::{fmt, mem};

/// What a server has sent last.
#[derive(Drop)]
enum ScramAuthenticatorState {
    Initial,
    ServerFirstSent(ServerExchange),
    ServerFinalSent {
        username: String,
        acts_for: Option<String>,
    },
}

impl ScramAuthenticatorState {
    /// Returns a copy of the state.
    fn copy(&self) -> Result<ScramAuthenticatorState, OutOfMemory>
        ensures { IfOk result (λ copy. server_state_of copy ≡ server_state_of self.now) }
    {
        Ok(match self {
            ScramAuthenticatorState::Initial => ScramAuthenticatorState::Initial,
            ScramAuthenticatorState::ServerFirstSent(exchange) => {
                ScramAuthenticatorState::ServerFirstSent(exchange.clone()?)
            }
            ScramAuthenticatorState::ServerFinalSent { username, acts_for } => {
                ScramAuthenticatorState::ServerFinalSent {
                    username: username.clone()?,
                    acts_for: acts_for.clone()?,
                }
            }
        })
    }

    /// Returns the state after the open challenge is accepted: its user has logged in, for the identity that it named.
    fn accepted(self) -> ScramAuthenticatorState
        ensures { (challenge : ServerChallenge) (stored : Record)
            → server_state_of self ≡ ServerFirstSent challenge stored
            → server_state_of result ≡ ServerFinalSent challenge.user challenge.header.acts_for }
    {
        match self {
            ScramAuthenticatorState::ServerFirstSent(exchange) => {
                let (username, acts_for) = exchange.into_names();
                ScramAuthenticatorState::ServerFinalSent { username, acts_for }
            }
            other => other,
        }
    }
}

/// A server over a store of credentials. A client-first message opens a challenge, in place of an
/// earlier one, and an accepted client-final message closes it. A call that returns an error leaves
/// the authenticator unchanged.
///
/// Each login looks its user up once, at the client-first message. The open challenge keeps a copy of the record that
/// it was made with, so the store may change between two messages of one login: a user who is removed or gets another
/// record can still complete a login that has begun.
#[derive(Drop)]
pub struct ScramAuthenticator<C: ScramCredentialProvider> {
    credentials: C,
    rules: ServerRules,
    rights: SharedRights,
    mock: Option<KeptMock>,
    state: ScramAuthenticatorState,
}

impl<C: ScramCredentialProvider> ScramAuthenticator<C> {
    /// Returns a server without an open challenge. It accepts clients whose GS2 header is `n,,`, is not strict, and
    /// answers an unknown user with `None`.
    pub fn new(credentials: C) -> Self
        ensures provider { provider_in result ≡ credentials }
        ensures rules { rules_in result ≡ default_rules }
        ensures rights { rights_in result ≡ [] }
        ensures mock { mock_in result ≡ None }
        ensures state { state_in result ≡ Initial }
    {
        Self {
            credentials,
            rules: ServerRules::new(),
            rights: SharedRights::none(),
            mock: None,
            state: ScramAuthenticatorState::Initial,
        }
    }

    /// Returns this server, but by these rights users may act for other identities than their own. A client names one only
    /// if the rules accept it. The right is tested after the proof: a user without it gets `AuthenticationFailed`, like
    /// one with a wrong password, at the same cost.
    pub fn with_acting_rights(mut self, rights: Arc<ActingRights>) -> Self
        ensures provider { provider_in result ≡ provider_in self }
        ensures rules { rules_in result ≡ rules_in self }
        ensures rights { rights_in result ≡ rights.value }
        ensures mock { mock_in result ≡ mock_in self }
        ensures state { state_in result ≡ state_in self }
    {
        self.rights = SharedRights::of(rights);
        self
    }

    /// Returns the name of the server's mechanism (RFC 5802, sections 4 and 6), which ends with `-PLUS` if the server
    /// binds a channel.
    pub fn mechanism(&self) -> &'static str
        ensures { result.now ≡ server_mechanism (C.meaning (provider_in self.now)).version (rules_in self.now) }
    {
        self.credentials
            .scram_version()
            .mechanism_with(self.rules.channels.is_some())
    }

    /// Returns this server, but with these rules for the messages of a client. If a client verifies the signature of a strict
    /// server, both agree on the whole login, collisions of HMAC values aside (`laws::accepted_messages`), whether the
    /// client is strict or not.
    ///
    /// With channels it is a server of the mechanism with `-PLUS`. Offer it beside a server without channel binding that
    /// does not accept `y,,`: an attacker then cannot make a client that has a channel skip channel binding
    /// (`laws::bound_channels`).
    pub fn with_rules(mut self, rules: ServerRules) -> Self
        ensures provider { provider_in result ≡ provider_in self }
        ensures rules { rules_in result ≡ rules }
        ensures rights { rights_in result ≡ rights_in self }
        ensures mock { mock_in result ≡ mock_in self }
        ensures state { state_in result ≡ state_in self }
    {
        self.rules = rules;
        self
    }

    /// Returns the store of credentials.
    pub fn credentials(&self) -> &C
        ensures { result.now ≡ provider_in self.now }
    {
        &self.credentials
    }

    /// Returns the name of the user who has logged in: the user of the client-first message whose
    /// challenge the last accepted client-final message answered. Returns `None` before that, and from
    /// the next challenge on. An error, and a client-first message of an unknown user, do not change
    /// it: read it where a client-final message was accepted.
    pub fn authenticated_user(&self) -> Option<&str>
        ensures { option_map (λ user. user.now) result ≡ logged_in (state_in self.now) }
    {
        match &self.state {
            ScramAuthenticatorState::ServerFinalSent {
                username,
                acts_for: _,
            } => Some(username),
            _ => None,
        }
    }

    /// Returns the identity that the user of `authenticated_user` acts for, if the client named one (RFC 4422, section 2).
    /// `None` beside a user is a client that acts for itself. Read it where you read the user. A connection belongs to
    /// this identity, and to the user if there is none.
    pub fn acts_for(&self) -> Option<&str>
        ensures { option_map (λ name. name.now) result ≡ logged_in_for (state_in self.now) }
    {
        match &self.state {
            ScramAuthenticatorState::ServerFinalSent {
                username: _,
                acts_for,
            } => acts_for.as_deref(),
            _ => None,
        }
    }

    /// Answers a client-first message with the server-first message (RFC 5802, sections 5 and 7), or
    /// with `None` if the user is unknown. With mock authentication no user is. The message is the
    /// client's text as received, with its GS2 header. The nonce is 32 bytes, new for each exchange. It
    /// is written in base64, as 44 symbols, after the client's.
    ///
    /// The errors are those of `ClientFirst::parse`, in its order, in every state. `OutOfMemory` is
    /// returned only if the user name is escaped, or if the user has a record or a mock record.
    pub fn compute_server_first_message(
        &mut self,
        alloc: Global,
        client_first_message: &[u8],
        nonce: &[u8; 32],
    ) -> Result<Option<Vec<u8>>, ServerScramErrorKind>
        ensures answer { Gives ServerScramErrorKind.OutOfMemory
            (ReachesChallenge (served_by C.meaning self.old) client_first_message.now)
            (option_map (λ message. message.items)) result
            (λ answer. ChallengesFrom (state_in self.old) (served_by C.meaning self.old) nonce.now
            client_first_message.now answer (state_in self.new)) }
        ensures provider { provider_in self.new ≡ provider_in self.old }
        ensures rules { rules_in self.new ≡ rules_in self.old }
        ensures rights { rights_in self.new ≡ rights_in self.old }
        ensures mock { mock_in self.new ≡ mock_in self.old }
        ensures err { OnErr result (state_in self.new ≡ state_in self.old) }
    {
        self.compute_server_first_message_metered(
            alloc,
            client_first_message,
            nonce,
            &mut Meter::new(),
        )
    }

    /// Like `compute_server_first_message`; the meter, of at most 2^63, counts the HMAC values. There are none without
    /// mock authentication. With it there are three if the message is read, for a known user too, none if it is
    /// rejected, and at most three if the call runs out of memory.
    pub fn compute_server_first_message_metered(
        &mut self,
        alloc: Global,
        client_first_message: &[u8],
        nonce: &[u8; 32],
        meter: &mut Meter,
    ) -> Result<Option<Vec<u8>>, ServerScramErrorKind>
        requires { meter.old ≤ 2 ^ 63 }
        ensures answer { Gives ServerScramErrorKind.OutOfMemory
            (ReachesChallenge (served_by C.meaning self.old) client_first_message.now)
            (option_map (λ message. message.items)) result
            (λ answer. ChallengesFrom (state_in self.old) (served_by C.meaning self.old) nonce.now
            client_first_message.now answer (state_in self.new)) }
        ensures provider { provider_in self.new ≡ provider_in self.old }
        ensures rules { rules_in self.new ≡ rules_in self.old }
        ensures rights { rights_in self.new ≡ rights_in self.old }
        ensures mock { mock_in self.new ≡ mock_in self.old }
        ensures err { OnErr result (state_in self.new ≡ state_in self.old) }
        ensures cost { FirstCosts (served_by C.meaning self.old) client_first_message.now result meter.old meter.new }
    {
        let mock = match &self.mock {
            Some(users) => Some(users.lent()),
            None => None,
        };
        let opened = ServerExchange::open(
            alloc,
            &self.credentials,
            self.rules,
            mock,
            client_first_message,
            nonce,
            meter,
        )?;
        match opened {
            Some((answer, exchange)) => {
                self.state = ScramAuthenticatorState::ServerFirstSent(exchange);
                Ok(Some(answer))
            }
            None => Ok(None),
        }
    }

    /// Answers a client-final message with the server-final message (RFC 5802, sections 5 and 7), and never with
    /// `None`. The message is the client's text as received.
    ///
    /// The proof is tested against the record that the challenge was made with, whatever the store has by now.
    ///
    /// The errors are, in this order: `IllegalAuthenticatorState` if no challenge is open; those of
    /// `ClientFinal::parse`, in its order; `XorLengthMismatch` if the proof is not as long as a digest; and
    /// `AuthenticationFailed` if the proof does not meet the stored key, or the user may not act for the identity that
    /// the client named. `OutOfMemory` is returned only where `ClientFinal::parse` allocates.
    pub fn compute_server_final_message(
        &mut self,
        alloc: Global,
        client_final_message: &[u8],
    ) -> Result<Option<Vec<u8>>, ServerScramErrorKind>
        ensures answer { Gives ServerScramErrorKind.OutOfMemory
            (ReachesBase64In (state_in self.old) (rules_in self.old) client_final_message.now)
            (option_map (λ message. message.items)) result
            (λ answer. ConcludesFrom (state_in self.old) (served_by C.meaning self.old).version
            (rules_in self.old) (rights_in self.old) client_final_message.now answer (state_in self.new)) }
        ensures provider { provider_in self.new ≡ provider_in self.old }
        ensures rules { rules_in self.new ≡ rules_in self.old }
        ensures rights { rights_in self.new ≡ rights_in self.old }
        ensures mock { mock_in self.new ≡ mock_in self.old }
        ensures err { OnErr result (state_in self.new ≡ state_in self.old) }
    {
        self.compute_server_final_message_metered(alloc, client_final_message, &mut Meter::new())
    }

    /// Like `compute_server_final_message`; the meter, of at most 2^63, counts the HMAC values, also of an error.
    pub fn compute_server_final_message_metered(
        &mut self,
        alloc: Global,
        client_final_message: &[u8],
        meter: &mut Meter,
    ) -> Result<Option<Vec<u8>>, ServerScramErrorKind>
        requires { meter.old ≤ 2 ^ 63 }
        ensures answer { Gives ServerScramErrorKind.OutOfMemory
            (ReachesBase64In (state_in self.old) (rules_in self.old) client_final_message.now)
            (option_map (λ message. message.items)) result
            (λ answer. ConcludesFrom (state_in self.old) (served_by C.meaning self.old).version
            (rules_in self.old) (rights_in self.old) client_final_message.now answer (state_in self.new)) }
        ensures provider { provider_in self.new ≡ provider_in self.old }
        ensures rules { rules_in self.new ≡ rules_in self.old }
        ensures rights { rights_in self.new ≡ rights_in self.old }
        ensures mock { mock_in self.new ≡ mock_in self.old }
        ensures err { OnErr result (state_in self.new ≡ state_in self.old) }
        ensures cost { FinalCostsFrom (state_in self.old) (served_by C.meaning self.old).version
            (rules_in self.old) (rights_in self.old) client_final_message.now result meter.old meter.new }
    {
        match &self.state {
            ScramAuthenticatorState::ServerFirstSent(exchange) => {
                let may_act = self
                    .rights
                    .may_act(exchange.username(), exchange.acts_for());
                let version = *self.credentials.scram_version();
                let server_final_message = exchange.conclude(
                    alloc,
                    version,
                    self.rules,
                    may_act,
                    client_final_message,
                    meter,
                )?;
                let open = mem::replace(&mut self.state, ScramAuthenticatorState::Initial);
                self.state = open.accepted();
                Ok(Some(server_final_message))
            }
            _ => Err(ServerScramErrorKind::IllegalAuthenticatorState),
        }
    }
}

impl<C: ScramCredentialProvider> fmt::Debug for ScramAuthenticator<C> {
    /// Writes the version, without the store of credentials, the settings and the state.
    fn fmt<W: fmt::Write>(&self, f: &mut fmt::Formatter<W>) -> fmt::Result {
        let version = *self.credentials.scram_version();
        write!(f, "ScramAuthenticator {{ scram_version: {version:?}, .. }}")
    }
}

impl<C: ScramCredentialProvider> Clone for ScramAuthenticator<C> {
    ghost is_clone = { λ authenticator copy. C.is_clone (provider_in authenticator) (provider_in copy)
        × (rules_in copy ≡ rules_in authenticator) × (state_in copy ≡ state_in authenticator)
        × (mock_in copy ≡ mock_in authenticator) × (rights_in copy ≡ rights_in authenticator) };

    fn clone(&self) -> Result<Self, AllocError> {
        Ok(Self {
            credentials: self.credentials.clone()?,
            rules: self.rules,
            rights: self.rights.clone()?,
            mock: self.mock.clone()?,
            state: self.state.copy()?,
        })
    }
}
