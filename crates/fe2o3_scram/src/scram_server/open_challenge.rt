//! Saves a server between two messages as plain texts, and restores it.

ghost use Rattle.std.specs.Prelude.{◌≡◌, IfOk, option_map};
ghost use Rattle.fe2o3_scram.specs.Credentials.{kept};
ghost use Rattle.fe2o3_scram.specs.ScramServer.{ServerFinalSent, ServerFirstSent, challenge_kept, open_challenge, provider_in, state_in, rights_in, rules_in, mock_in};

use crate::OutOfMemory;
use crate::provider::{ScramCredentialProvider, StoredPassword};
use crate::scram_messages::ChannelBindingFlag;
use crate::scram_server::exchange::{ServerExchange, copied};
use crate::scram_server::{ScramAuthenticator, ScramAuthenticatorState};
use std::alloc::Global;

/// An open challenge: what a server keeps between its two messages, each text as it was sent or received. The texts
/// hold no key and no record, and of the user only the name.
#[derive(Drop)]
pub struct OpenChallenge<'a> {
    /// The user's name, plain, not escaped.
    pub username: &'a str,

    /// What the GS2 header of the client-first message says of channel binding.
    pub header: ChannelBindingFlag,

    /// The identity that the client names to act for, plain, not escaped, or `None` if it acts for itself.
    pub acts_for: Option<&'a str>,

    /// The client-first message without its GS2 header.
    pub client_first_message_bare: &'a [u8],

    /// The nonce of both sides, the client's first.
    pub client_server_nonce: &'a [u8],

    /// The server-first message.
    pub server_first_message: &'a [u8],
}

impl<C: ScramCredentialProvider> ScramAuthenticator<C> {
    /// Returns the open challenge, or `None` if the server-first message is not what the server sent
    /// last. `restore_challenge` restores a server from it, and from the record of its user.
    pub fn open_challenge(&self) -> Option<OpenChallenge<'_>>
        ensures { option_map challenge_kept result ≡ open_challenge (state_in self.now) }
    {
        match &self.state {
            ScramAuthenticatorState::ServerFirstSent(exchange) => Some(exchange.open_challenge()),
            _ => None,
        }
    }

    /// Returns this server with this open challenge, as `open_challenge` returned it, and with this
    /// record of its user. Look the user up again by `challenge.username`: no key is part of the
    /// challenge. For an unknown user at a server with mock authentication pass the mock record of the
    /// name (`ScramRecord::mock`).
    ///
    /// The client's proof is tested against this record. If it is not the one that the challenge was
    /// made with, as after a change of the password, a login with the old password fails with
    /// `AuthenticationFailed`. Texts that no server has sent are a challenge like any other, and a
    /// client has to prove its password for it. The caller vouches for the texts: they name the user. The GS2 header is not
    /// tested against the rules of this server: restore a challenge only at a server with the same rules. By the acting
    /// rights of this server its user may or may not act for the identity.
    ///
    /// The only error is `OutOfMemory`.
    pub fn restore_challenge(
        self,
        alloc: Global,
        challenge: &OpenChallenge<'_>,
        stored: &StoredPassword<'_>,
    ) -> Result<Self, OutOfMemory>
        ensures provider { IfOk result (λ server. provider_in server ≡ provider_in self) }
        ensures rules { IfOk result (λ server. rules_in server ≡ rules_in self) }
        ensures rights { IfOk result (λ server. rights_in server ≡ rights_in self) }
        ensures mock { IfOk result (λ server. mock_in server ≡ mock_in self) }
        ensures state { IfOk result (λ server. state_in server
            ≡ ServerFirstSent (challenge_kept challenge.now) (kept stored.now)) }
    {
        Ok(Self {
            credentials: self.credentials,
            rules: self.rules,
            rights: self.rights,
            mock: self.mock,
            state: ScramAuthenticatorState::ServerFirstSent(ServerExchange::restore(
                alloc, challenge, stored,
            )?),
        })
    }

    /// Returns this server in the state after a login of this user, who acts for this identity. The caller vouches for
    /// both, since no message is checked. Pass what `authenticated_user` and `acts_for` returned when the server was
    /// saved. No password, key or record is needed.
    ///
    /// The only error is `OutOfMemory`.
    pub fn restore_authenticated(
        self,
        alloc: Global,
        username: &str,
        acts_for: Option<&str>,
    ) -> Result<Self, OutOfMemory>
        ensures provider { IfOk result (λ server. provider_in server ≡ provider_in self) }
        ensures rules { IfOk result (λ server. rules_in server ≡ rules_in self) }
        ensures rights { IfOk result (λ server. rights_in server ≡ rights_in self) }
        ensures mock { IfOk result (λ server. mock_in server ≡ mock_in self) }
        ensures state { IfOk result (λ server. state_in server
            ≡ ServerFinalSent username.now (option_map (λ name. name.now) acts_for.entry)) }
    {
        Ok(Self {
            credentials: self.credentials,
            rules: self.rules,
            rights: self.rights,
            mock: self.mock,
            state: ScramAuthenticatorState::ServerFinalSent {
                username: username.to_string(alloc)?,
                acts_for: copied(alloc, acts_for)?,
            },
        })
    }
}
