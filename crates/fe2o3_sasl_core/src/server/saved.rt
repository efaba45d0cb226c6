//! Saves how far a login has come at a server as plain values between two calls, and restores it.

ghost use Rattle.std.specs.Prelude.{◌≡◌, ◌≤◌, ◌+◌, ◌^◌, None, Some, IfErr, IfOk, option_map, string_bytes};
ghost use Rattle.fe2o3_sasl_wire.specs.FrameView.{shown};
ghost use Rattle.fe2o3_scram.specs.ChannelBinding.{is_required};
ghost use Rattle.fe2o3_scram.specs.Credentials.{kept, record_at, versioned};
ghost use Rattle.fe2o3_scram.specs.MockSettings.{mock_cost, mock_record, stored_or};
ghost use Rattle.fe2o3_scram.specs.Mixed.{provider_for};
ghost use Rattle.fe2o3_scram.specs.ScramServer.{challenge_kept};
ghost use Rattle.fe2o3_sasl_core.specs.LoginAttempts.{attempt_of};
ghost use Rattle.fe2o3_sasl_core.specs.SavedServers.{SavesTexts, NoRecordIsUnmet, KeptAsked, KeptOpen, exchange_now, kept_stage, no_record, or_no_record, record_now, restored_hmacs, restored_stage, saved_login, saved_stage};
ghost use Rattle.fe2o3_sasl_core.specs.MockChoices.{mock_for};
ghost use Rattle.fe2o3_sasl_core.specs.Servers.{rejection_of_server, sasl_server, server_login, settings_in, settings_with, stage_of};

use crate::OutOfMemory;
use crate::login_attempts::{LoginAttempt, copied};
use crate::mechanism::Mechanism;
use crate::server::Server;
use crate::server::options::{ServerOptions, Transport};
use crate::server::stage::{LoginOf, Stage};
use fe2o3_scram::credentials::RecordStore;
use fe2o3_scram::hmac::{Meter, ScramVersion};
use fe2o3_scram::provider::ScramCredentialProvider;
use fe2o3_scram::scram_messages::ChannelBindingFlag;
use fe2o3_scram::{
    MockUsers, MultiRecordStore, OpenChallenge, ScramRecord, ServerExchange, StoredPassword,
};
use std::alloc::Global;

/// Who has logged in, as a server saves it.
#[derive(Clone, Copy)]
pub struct SavedLogin<'a> {
    /// The mechanism.
    pub mechanism: Mechanism,

    /// The user. `None` is nobody, by ANONYMOUS.
    pub user: Option<&'a str>,

    /// The identity that the user acts for, or `None` if the user acts for itself.
    pub acts_for: Option<&'a str>,
}

/// How far a login has come, as [`Server::saved`] returns it. It holds no password, no key and no record.
#[derive(Drop)]
pub enum SavedStage<'a> {
    /// No init is accepted.
    NotStarted,

    /// An init without an initial response was answered by an empty challenge.
    ResponseAsked {
        /// The mechanism of the init.
        mechanism: Mechanism,

        /// The nonce that was passed with the init.
        nonce: [u8; 32],
    },

    /// A challenge of SCRAM is open.
    ChallengeOpen {
        /// The hash.
        version: ScramVersion,

        /// The challenge. Its GS2 header says whether the mechanism has `-PLUS`.
        challenge: OpenChallenge<'a>,
    },

    /// The signature of an accepted exchange was sent in a challenge, which the client has not answered.
    SignatureSent(SavedLogin<'a>),

    /// A user has logged in.
    Authenticated(SavedLogin<'a>),
}

/// A record without keys, which no proof meets (clause `unmet` of [`lent_or`]).
const NO_RECORD: StoredPassword<'static> = StoredPassword {
    salt: &[],
    iterations: 0,
    stored_key: &[],
    server_key: &[],
};

/// Returns a record, or otherwise the mock record, or otherwise one without keys.
#[tactic(auto, using(crate::proofs::lemmas::machines::SavedServerLemmas::never_met))]
fn lent_or<'a>(
    stored: Option<StoredPassword<'a>>,
    mock: Option<&'a ScramRecord>,
) -> StoredPassword<'a>
    ensures record { kept result ≡ or_no_record
        (stored_or (option_map (λ mock. mock.now.stored) mock.entry) (option_map kept stored.entry)) }
    ensures unmet { NoRecordIsUnmet }
{
    match (stored, mock) {
        (Some(stored), _) => stored,
        (None, Some(mock)) => mock.as_stored_password(),
        (None, None) => NO_RECORD,
    }
}

impl SavedLogin<'_> {
    /// Returns who has logged in, with names of its own.
    fn restored(&self, alloc: Global) -> Result<LoginOf, OutOfMemory>
        ensures { IfOk result (λ login. server_login login ≡ saved_login self.now) }
    {
        Ok(LoginOf {
            mechanism: self.mechanism,
            user: copied(alloc, self.user)?,
            acts_for: copied(alloc, self.acts_for)?,
        })
    }
}

impl LoginOf {
    /// Returns who has logged in, to save.
    fn saved(&self) -> SavedLogin<'_>
        ensures { saved_login result ≡ server_login self.now }
    {
        SavedLogin {
            mechanism: self.mechanism,
            user: self.user.as_deref(),
            acts_for: self.acts_for.as_deref(),
        }
    }
}

impl<'a> Server<'a> {
    /// Returns how far the login has come, to save between two calls. Save what [`Server::last_attempt`] returns beside it.
    pub fn saved(&self) -> SavedStage<'_>
        ensures { saved_stage result ≡ kept_stage (sasl_server self.now).stage }
    {
        match &self.stage {
            Stage::Start => SavedStage::NotStarted,
            Stage::Asked { mechanism, nonce } => SavedStage::ResponseAsked {
                mechanism: *mechanism,
                nonce: *nonce,
            },
            Stage::Open {
                version,
                exchange,
                ..
            } => SavedStage::ChallengeOpen {
                version: *version,
                challenge: exchange.open_challenge(),
            },
            Stage::Signed(login) => SavedStage::SignatureSent(login.saved()),
            Stage::Authenticated(login) => SavedStage::Authenticated(login.saved()),
        }
    }

    /// Returns a server whose login has come as far as [`Server::saved`] returned, with what the last init claimed. With the
    /// records, options and connection of the server that was saved, it answers every frame like that one
    /// ([`laws::restored_servers`](crate::server::laws::restored_servers)).
    ///
    /// The record of an open challenge's user is looked up again, by its mock record if the user is unknown. If the user has
    /// none, no proof is accepted, as after a change of the password. An exchange by a mechanism that this server does not
    /// offer is dropped. The caller vouches for the values: a login that was saved is one.
    ///
    /// The only error is `OutOfMemory`, and only for an open challenge, a signature or a login. The meter, of at most 2^63,
    /// counts three HMAC values for an open challenge by an offered mechanism at a server with mock authentication, and none
    /// otherwise.
    pub fn restore(
        alloc: Global,
        records: &'a MultiRecordStore,
        options: &'a ServerOptions,
        transport: Transport<'a>,
        saved: &SavedStage<'_>,
        attempt: Option<LoginAttempt>,
        meter: &mut Meter,
    ) -> Result<Self, OutOfMemory>
        requires { meter.old ≤ 2 ^ 63 }
        ensures state { IfOk result (λ server. sasl_server server ≡ record {
          settings = settings_with records.now options.now transport.entry;
          stage = restored_stage (settings_with records.now options.now transport.entry) (saved_stage saved.now);
          last = option_map attempt_of attempt;
        }) }
        ensures rejection { IfOk result (λ server. rejection_of_server server ≡ None) }
        ensures memory { IfErr result (λ _. SavesTexts (saved_stage saved.now)) }
        ensures cost { meter.new ≡ meter.old
            + restored_hmacs (settings_with records.now options.now transport.entry) (saved_stage saved.now) }
    {
        let fresh = Server::new(records, options, transport);
        let stage = fresh.restored(alloc, saved, meter)?;
        Ok(Self {
            records,
            options,
            transport,
            stage,
            attempt,
            rejection: None,
        })
    }

    /// Returns the stage that is restored at this server.
    fn restored(
        &self,
        alloc: Global,
        saved: &SavedStage<'_>,
        meter: &mut Meter,
    ) -> Result<Stage, OutOfMemory>
        requires { meter.old ≤ 2 ^ 63 }
        ensures stage { IfOk result (λ stage.
            stage_of stage ≡ restored_stage (settings_in self.now) (saved_stage saved.now)) }
        ensures memory { IfErr result (λ _. SavesTexts (saved_stage saved.now)) }
        ensures cost { meter.new ≡ meter.old + restored_hmacs (settings_in self.now) (saved_stage saved.now) }
    {
        match saved {
            SavedStage::NotStarted => Ok(Stage::Start),
            SavedStage::ResponseAsked { mechanism, nonce } => {
                Ok(self.restored_init(*mechanism, *nonce))
            }
            SavedStage::ChallengeOpen { version, challenge } => {
                self.restored_exchange(alloc, *version, challenge, meter)
            }
            SavedStage::SignatureSent(login) => Ok(Stage::Signed(login.restored(alloc)?)),
            SavedStage::Authenticated(login) => Ok(Stage::Authenticated(login.restored(alloc)?)),
        }
    }

    /// Returns the stage in which an init of this mechanism, with this nonce, was asked for its initial response.
    fn restored_init(&self, mechanism: Mechanism, nonce: [u8; 32]) -> Stage
        ensures { stage_of result ≡ restored_stage (settings_in self.now) (KeptAsked mechanism nonce) }
    {
        if self.offers(mechanism) {
            Stage::Asked { mechanism, nonce }
        } else {
            Stage::Start
        }
    }

    /// Returns the stage in which this challenge is open, by the record that its user has now.
    fn restored_exchange(
        &self,
        alloc: Global,
        version: ScramVersion,
        challenge: &OpenChallenge<'_>,
        meter: &mut Meter,
    ) -> Result<Stage, OutOfMemory>
        requires { meter.old ≤ 2 ^ 63 }
        ensures stage { IfOk result (λ stage. stage_of stage
            ≡ restored_stage (settings_in self.now) (KeptOpen version (challenge_kept challenge.now))) }
        ensures cost { meter.new ≡ meter.old
            + restored_hmacs (settings_in self.now) (KeptOpen version (challenge_kept challenge.now)) }
    {
        let plus = challenge.header.is_required();
        if !self.offers(Mechanism::Scram(version, plus)) {
            return Ok(Stage::Start);
        }
        let mock = self.mock_record(alloc, version, challenge.username, meter)?;
        let stored = self
            .records
            .for_version(version)
            .get_stored_password(challenge.username);
        let exchange = ServerExchange::restore(alloc, challenge, &lent_or(stored, mock.as_ref()))?;
        Ok(Stage::Open {
            version,
            plus,
            exchange,
        })
    }

    /// Returns the mock record of a name for this hash, if there are mock records. It is made for a known user too, so that
    /// its cost does not tell known users from unknown ones.
    fn mock_record(
        &self,
        alloc: Global,
        version: ScramVersion,
        username: &str,
        meter: &mut Meter,
    ) -> Result<Option<ScramRecord>, OutOfMemory>
        requires { meter.old ≤ 2 ^ 63 }
        ensures made { IfOk result (λ made. option_map (λ mock. mock.stored) made ≡ option_map
            (λ mock. mock_record mock username.now) (option_map (mock_for version) (settings_in self.now).mock)) }
        ensures cost { meter.new ≡ meter.old + mock_cost (option_map (mock_for version) (settings_in self.now).mock) }
    {
        match self.mock_users(version) {
            Some(users) => {
                let record = ScramRecord::mock(
                    alloc,
                    version,
                    users.secret,
                    username,
                    users.salt_len,
                    users.iterations,
                    meter,
                )?;
                Ok(Some(record))
            }
            None => Ok(None),
        }
    }
}
