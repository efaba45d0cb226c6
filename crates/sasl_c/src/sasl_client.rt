//! The client's side of a connection as a struct between calls.

ghost use Rattle.std.specs.Prelude.{◌≡◌, ◌≢◌, ◌≤◌, ◌^◌, [], Ok, Err, length, replicate, option_map, string_bytes, IfOk, IfErr, IfSome, OnErr, MatchBool, MatchOption, MatchResult};
ghost use Rattle.fe2o3_sasl_core.specs.PlainWords.{ArePlainWords};
ghost use Rattle.fe2o3_sasl_core.specs.Profiles.{PlainProfile, after_init};
ghost use Rattle.fe2o3_sasl_core.specs.SaslProfile.{profile_of};
ghost use Rattle.fe2o3_sasl_negotiation.specs.declared.progress.Progress.TheVariants.{InProgress};
ghost use Rattle.fe2o3_sasl_negotiation.specs.Sides.{client_side, extended_in, hostname_in};
ghost use Rattle.fe2o3_scram.specs.Readings.{IsFirst};
ghost use Rattle.sasl_c.specs.Connection.{accepts_extended};
ghost use Rattle.sasl_c.specs.Client.{CanBeNamed, is_set};
ghost use Rattle.sasl_c.specs.Plain.{word_tests};
ghost use Rattle.sasl_c.specs.SaslClient.{CanSendWords, ClientTakes, client_word_tests, message_tests, NamesNoIdentity, ProfileIsReached, HasNoClientWords, IsClient, IsHostname, IsNoClient, HasNoHostname, IsNoProfile, IsPlainOf, ReadsClient, IsProfile, OpensConnection, ReceivesAsClient, WritesProfile, WritesSide};
ghost use Rattle.sasl_c.specs.declared.sasl_client.SaslClient.{SaslClient as Structs};
ghost use Rattle.sasl_c.specs.declared.sasl_client.SaslLogin.{SaslLogin as LoginStruct};
ghost use Rattle.sasl_c.specs.Status.{AnswersText, AsksText, AsksWhere, Fills, FillsWithin};
ghost use Rattle.sasl_c.specs.declared.status.Status.TheVariants.{NotImplemented as StatusNotImplemented, NotUtf8, OutOfMemory as StatusOutOfMemory};
ghost use Rattle.sasl_c.specs.declared.status.WriteError.TheVariants.{RoomTooSmall};

use crate::arrays::put;
use crate::client::ScramClient;
use crate::connection::{Connection, ReceiveResult};
use crate::flags::is_set;
use crate::login::Login;
use crate::plain::words_of;
use crate::status::{Status, WriteError, text, text_number};
use bytes::BytesMut;
use fe2o3_sasl_core::SaslProfile;
use fe2o3_sasl_negotiation::{ClientNegotiation, RestoreError};
use fe2o3_sasl_wire::ProtocolHeader;
use fe2o3_scram::Meter;
use std::alloc::Global;

/// How a client logs in on a connection. You lend the struct to each call, always with the same values.
#[repr(C)]
#[derive(Drop)]
pub struct SaslLogin<'a> {
    /// One of enum fe2o3_mechanism. FE2O3_SCRAM uses the hash of `login`.
    pub mechanism: u32,

    /// The hostname of the init frame. If empty, the init has none.
    pub hostname: &'a [u8],

    /// The user and the secret. PLAIN uses the name, the password, `acts_for` and `strict`. FE2O3_ANONYMOUS_AS and
    /// FE2O3_EXTERNAL_AS use the name, which may be empty. ANONYMOUS and EXTERNAL use nothing of it. These four return
    /// FE2O3_NOT_IMPLEMENTED for an `acts_for` that is not empty.
    pub login: Login<'a>,
}

/// The client's side of a connection between calls. All zeros is a connection that has received nothing.
#[repr(C)]
#[derive(Drop)]
pub struct SaslClient {
    /// The connection.
    pub connection: Connection,

    /// The SCRAM client. After the login it holds the keys (`fe2o3_scram_client_get_keys`). For FE2O3_ANONYMOUS_AS and
    /// FE2O3_EXTERNAL_AS its `state` is FE2O3_SCRAM_CLIENT_FIRST_SENT after the init, until the response.
    pub scram: ScramClient,
}

/// Returns the user name and the password for PLAIN as texts. The errors are `NotUtf8`, and for a strict client those of
/// `words_of`.
#[tactic(auto, using(crate::proofs::SaslClientLemmas::client_words))]
fn client_words<'a>(
    is_strict: bool,
    acts_for: &'a [u8],
    username: &'a [u8],
    password: &'a [u8],
) -> Result<(&'a str, &'a str), Status>
    ensures ok { IfOk result (λ words. (words.0.now ≡ username.now) × (words.1.now ≡ password.now)
        × CanSendWords is_strict username.now password.now) }
    ensures err { IfErr result (λ status.
        IsFirst (client_word_tests is_strict acts_for.now username.now password.now) status) }
{
    match is_strict {
        true => {
            let words = words_of(acts_for, username, password)?;
            Ok((words.username, words.password))
        }
        false => Ok((text(username)?, text(password)?)),
    }
}

impl SaslLogin<'_> {
    /// Returns the hostname, if there is one.
    fn hostname(&self, alloc: Global) -> Result<Option<String>, Status>
        ensures ok { IfOk result (λ hostname. IsHostname self.now (option_map string_bytes hostname)) }
        ensures utf8 { IfOk result (λ _. ¬ HasNoHostname self.now) }
        ensures err { IfErr result (λ status. status ≢ StatusOutOfMemory → (status ≡ NotUtf8) × HasNoHostname self.now) }
        ensures memory { AsksWhere (¬ HasNoHostname self.now) result }
    {
        if self.hostname.is_empty() {
            return Ok(None);
        }
        Ok(Some(text(self.hostname)?.to_string(alloc)?))
    }

    /// Returns PLAIN of the login. The errors are those of `client_words`, and `OutOfMemory`. A client that names an
    /// identity is strict.
    #[tactic(auto, using(crate::proofs::SaslClientLemmas::plains))]
    fn plain(&self, alloc: Global) -> Result<SaslProfile, Status>
        ensures ok { IfOk result (λ profile. profile_of profile
            ≡ PlainProfile self.now.login.acts_for.now self.now.login.username.now self.now.login.password.now) }
        ensures words { IfOk result (λ _. IsPlainOf self.now.login self.now.login.acts_for.now
            self.now.login.username.now self.now.login.password.now) }
        ensures err { IfErr result (λ status. status ≢ StatusOutOfMemory → HasNoClientWords self.now.login status) }
    {
        match self.login.acts_for.is_empty() {
            true => self.plain_of_itself(alloc),
            false => self.plain_acting(alloc),
        }
    }

    /// Returns PLAIN of the user and the password, which names no identity.
    fn plain_of_itself(&self, alloc: Global) -> Result<SaslProfile, Status>
        ensures ok { IfOk result (λ profile. profile_of profile
            ≡ PlainProfile [] self.now.login.username.now self.now.login.password.now) }
        ensures words { IfOk result (λ _. CanSendWords (is_set self.now.login.strict) self.now.login.username.now
            self.now.login.password.now) }
        ensures err { IfErr result (λ status. status ≢ StatusOutOfMemory
            → IsFirst (client_word_tests (is_set self.now.login.strict) self.now.login.acts_for.now
            self.now.login.username.now self.now.login.password.now) status) }
    {
        let is_strict = is_set(self.login.strict);
        let (username, password) = client_words(
            is_strict,
            self.login.acts_for,
            self.login.username,
            self.login.password,
        )?;
        let username = username.to_string(alloc)?;
        let password = password.to_string(alloc)?;
        Ok(SaslProfile::plain(username, password))
    }

    /// Returns PLAIN of the user and the password, which names the identity of the login. The errors are those of
    /// `words_of`, and `OutOfMemory`.
    fn plain_acting(&self, alloc: Global) -> Result<SaslProfile, Status>
        ensures ok { IfOk result (λ profile. profile_of profile
            ≡ PlainProfile self.now.login.acts_for.now self.now.login.username.now self.now.login.password.now) }
        ensures words { IfOk result (λ _. CanBeNamed self.now.login.acts_for.now
            × ArePlainWords self.now.login.username.now self.now.login.password.now) }
        ensures err { IfErr result (λ status. status ≢ StatusOutOfMemory
            → IsFirst (word_tests self.now.login.acts_for.now self.now.login.username.now self.now.login.password.now)
            status) }
    {
        let words = words_of(
            self.login.acts_for,
            self.login.username,
            self.login.password,
        )?;
        let acts_for = words.acts_for.to_string(alloc)?;
        let username = words.username.to_string(alloc)?;
        let password = words.password.to_string(alloc)?;
        match SaslProfile::plain(username, password).acting_for(acts_for) {
            Some(profile) => Ok(profile),
            // The words are those of a message, and the identity has no zero byte.
            None => unreachable!(),
        }
    }

    /// Tests that the login names no identity, which ANONYMOUS and EXTERNAL do not send. The error is `NotImplemented`.
    fn names_none(&self) -> Result<(), Status>
        ensures { MatchResult result (λ _. NamesNoIdentity self.now.login)
            (λ status. (status ≡ StatusNotImplemented) × ¬ NamesNoIdentity self.now.login) }
    {
        match self.login.acts_for {
            [] => Ok(()),
            _ => Err(Status::NotImplemented),
        }
    }

    /// Returns the user name, which is the message of ANONYMOUS and EXTERNAL, if the login names no identity. The errors
    /// are `NotImplemented`, `NotUtf8` and `OutOfMemory`.
    fn message(&self, alloc: Global) -> Result<String, Status>
        ensures ok { IfOk result (λ message. string_bytes message ≡ self.now.login.username.now) }
        ensures none { IfOk result (λ _. NamesNoIdentity self.now.login) }
        ensures err { IfErr result (λ status. status ≢ StatusOutOfMemory
            → IsFirst (message_tests self.now.login) status) }
    {
        self.names_none()?;
        Ok(text(self.login.username)?.to_string(alloc)?)
    }

    /// Returns the profile. That of SCRAM has the client of the struct.
    #[tactic(auto, using(crate::proofs::SaslClientLemmas::no_profiles))]
    fn profile(&self, alloc: Global, scram: &ScramClient) -> Result<SaslProfile, Status>
        ensures ok { IfOk result (λ profile. IsProfile self.now scram.now (profile_of profile)) }
        ensures err { IfErr result (λ status. status ≢ StatusOutOfMemory → IsNoProfile self.now status) }
    {
        match self.mechanism {
            0 => match scram.read(alloc, &self.login) {
                Ok(client) => Ok(SaslProfile::from(client)),
                Err(status) => Err(status),
            },
            1 => self.plain(alloc),
            2 => match self.names_none() {
                Ok(()) => Ok(SaslProfile::Anonymous),
                Err(status) => Err(status),
            },
            3 => match self.names_none() {
                Ok(()) => Ok(SaslProfile::External),
                Err(status) => Err(status),
            },
            4 => match self.message(alloc) {
                Ok(trace) => after_init(alloc, SaslProfile::anonymous_as(trace), scram),
                Err(status) => Err(status),
            },
            5 => match self.message(alloc) {
                Ok(identity) => after_init(alloc, SaslProfile::external_as(identity), scram),
                Err(status) => Err(status),
            },
            _ => Err(Status::NoSuchMechanism),
        }
    }
}

/// Returns a profile that has sent nothing, restored after its init if the struct says that the init was sent last.
fn after_init(
    alloc: Global,
    profile: SaslProfile,
    scram: &ScramClient,
) -> Result<SaslProfile, Status>
    ensures sent { IfOk result (λ after. scram.now.state ≡ 1
        → profile_of after ≡ after_init (profile_of profile) (replicate 32 0)) }
    ensures not_sent { IfOk result (λ after. scram.now.state ≢ 1 → profile_of after ≡ profile_of profile) }
    ensures err { IfErr result (λ status. status ≡ StatusOutOfMemory) }
{
    if scram.state != 1 {
        return Ok(profile);
    }
    let mut profile = profile;
    match profile.initial_response(alloc, &[0; 32]) {
        Ok(_) => Ok(profile),
        Err(_) => {
            drop(profile);
            Err(Status::OutOfMemory)
        }
    }
}

/// Returns the struct of a profile's SCRAM client, or a fresh one for another profile, whose state says whether an empty
/// challenge is answered.
fn scram_of(profile: &SaslProfile) -> Option<ScramClient>
    ensures state { (login : LoginStruct) → ProfileIsReached login (profile_of profile.now)
        → MatchOption result ⊥ (λ scram. IsProfile login scram (profile_of profile.now)) }
    ensures writes { IfSome result (λ scram. WritesProfile scram (profile_of profile.now)) }
{
    match profile.scram_client() {
        Some(machine) => ScramClient::of(machine),
        None => {
            if profile.answers_empty_challenge() {
                return Some(ScramClient::started(&[0; 32]));
            }
            Some(ScramClient::fresh())
        }
    }
}

impl SaslClient {
    /// Turns the structs into those of a side. If a text has no room in them, returns false, and nothing changes.
    fn hold(&mut self, side: &ClientNegotiation) -> bool
        ensures state { (login : LoginStruct) → ProfileIsReached login (client_side side.now).state
            → (client_side side.now).limit ≡ 512 → length (client_side side.now).held ≤ 512
            → MatchBool result (IsClient login self.new (client_side side.now)) ⊥ }
        ensures writes { MatchBool result (WritesSide (extended_in side.now) self.new (client_side side.now))
            (self.new ≡ self.old) }
    {
        let kept = side.snapshot();
        if !Connection::has_room(&kept) {
            return false;
        }
        let Some(scram) = scram_of(side.profile()) else {
            return false;
        };
        self.connection.keep(&kept);
        self.scram = scram;
        true
    }

    /// Restores the side from the structs.
    #[tactic(auto, using(crate::proofs::SaslClientLemmas::taken_up))]
    fn read(&self, alloc: Global, login: &SaslLogin<'_>) -> Result<ClientNegotiation, Status>
        ensures ok { IfOk result (λ side. IsHostname login.now (hostname_in side)
            × IsClient login.now self.now (client_side side) × ((client_side side).progress ≡ InProgress)) }
        ensures extended { IfOk result (λ side. extended_in side ≡ accepts_extended self.now.connection) }
        ensures reads { IfOk result (λ _. ReadsClient login.now self.now) }
        ensures err { IfErr result (λ status. status ≢ StatusOutOfMemory → IsNoClient login.now self.now status) }
        ensures memory { AsksWhere (ReadsClient login.now self.now) result }
    {
        let kept = self.connection.read()?;
        let hostname = login.hostname(alloc)?;
        let profile = match login.profile(alloc, &self.scram) {
            Ok(profile) => profile,
            Err(status) => return Err(status),
        };
        match ClientNegotiation::restore(alloc, profile, hostname, &kept) {
            Ok(side) => Ok(side),
            Err(RestoreError::InvalidSnapshot) => Err(Status::InvalidSnapshot),
            Err(RestoreError::OtherUser) => Err(Status::InvalidSnapshot),
            Err(RestoreError::OutOfMemory) => Err(Status::OutOfMemory),
        }
    }
}

/// Writes the SASL protocol header, with which a client begins a connection.
#[unsafe(no_mangle)]
pub extern "C" fn fe2o3_sasl_client_open(out: &mut [u8], out_len: &mut usize) -> u32
    ensures { AnswersText result (λ answer. Fills OpensConnection (record { bytes = out.old; len = out_len.old })
        (record { bytes = out.new; len = out_len.new }) answer × AsksText ⊥ answer) }
{
    text_number(put(&<[u8; 8]>::from(ProtocolHeader::sasl()), out, out_len))
}

/// Takes bytes for a side, and turns the structs into those of the side after them. `InvalidSnapshot` says that it has none,
/// which does not happen to a side that was restored from structs.
fn taken(
    alloc: Global,
    side: &mut ClientNegotiation,
    client: &mut SaslClient,
    bytes: &[u8],
    nonce: &[u8; 32],
    meter: &mut Meter,
) -> Result<ReceiveResult, Status>
    requires { meter.old ≤ 2 ^ 63 }
    ensures ok { IfOk result (λ made. (login : LoginStruct) (before : Structs) → IsClient login before (client_side side.old)
        → (client_side side.old).progress ≡ InProgress → ClientTakes (extended_in side.old) (hostname_in side.old)
        (client_side side.old) bytes.now nonce.now made.taken made.sent.items (client_side side.new)
        × IsClient login client.new (client_side side.new) × (length made.sent.items ≤ 512)
        × WritesSide (extended_in side.old) client.new (client_side side.new)) }
    ensures err { IfErr result (λ status. status ≢ StatusOutOfMemory → (login : LoginStruct) (before : Structs)
        → IsClient login before (client_side side.old) → (client_side side.old).progress ≢ InProgress) }
    ensures stays { OnErr result (client.new ≡ client.old) }
{
    let mut sent = BytesMut::new(alloc);
    let received = side.receive(alloc, bytes, nonce, meter, &mut sent)?;
    if !client.hold(side) {
        return Err(Status::InvalidSnapshot);
    }
    Ok(ReceiveResult {
        taken: received.taken,
        sent,
    })
}

/// Takes bytes, and turns the structs into those of the client after them. An error leaves them unchanged.
fn received(
    alloc: Global,
    login: &SaslLogin<'_>,
    client: &mut SaslClient,
    bytes: &[u8],
    nonce: &[u8; 32],
    meter: &mut Meter,
) -> Result<ReceiveResult, Status>
    requires { meter.old ≤ 2 ^ 63 }
    ensures ok { IfOk result (λ made. ReceivesAsClient login.now bytes.now nonce.now client.old client.new made.taken
        (Ok made.sent.items)) }
    ensures fits { IfOk result (λ made. length made.sent.items ≤ 512) }
    ensures err { IfErr result (λ status. status ≢ StatusOutOfMemory → IsNoClient login.now client.old status) }
    ensures stays { OnErr result (client.new ≡ client.old) }
    ensures memory { AsksWhere (ReadsClient login.now client.old) result }
{
    let mut side = match client.read(alloc, login) {
        Ok(side) => side,
        Err(status) => return Err(status),
    };
    let made = taken(alloc, &mut side, client, bytes, nonce, meter);
    drop(side);
    made
}

/// The maximum number of bytes that a client sends at once.
const FRAME_MOST: usize = 512;

/// Takes received bytes, and writes the bytes to send.
fn receive(
    alloc: Global,
    login: &SaslLogin<'_>,
    client: &mut SaslClient,
    bytes: &[u8],
    nonce: &[u8; 32],
    meter: &mut Meter,
    taken: &mut usize,
    out: &mut [u8],
    out_len: &mut usize,
) -> Result<(), WriteError>
    requires { meter.old ≤ 2 ^ 63 }
    ensures text { FillsWithin 512 (ReceivesAsClient login.now bytes.now nonce.now client.old client.new taken.new)
        (record { bytes = out.old; len = out_len.old }) (record { bytes = out.new; len = out_len.new }) result }
    ensures stays { OnErr result ((client.new ≡ client.old) × (taken.new ≡ taken.old)) }
    ensures first { IfErr result (λ status. status ≡ RoomTooSmall → meter.new ≡ meter.old) }
    ensures memory { AsksText (ReadsClient login.now client.old) result }
{
    if out.len() < FRAME_MOST {
        *out_len = FRAME_MOST;
        return Err(WriteError::RoomTooSmall);
    }
    let made = match received(alloc, login, client, bytes, nonce, meter) {
        Ok(made) => made,
        Err(status) => return Err(WriteError::Other(status)),
    };
    put(&made.sent, out, out_len)?;
    *taken = made.taken;
    Ok(())
}

/// Takes received bytes, to the end of the expected header or frame, and writes the bytes to send, at most 512. `out`
/// needs 512 bytes, which is tested before anything is hashed. `nonce` is 32 fresh random bytes, or any bytes if
/// `fe2o3_sasl_wants_nonce` returns 0.
///
/// FE2O3_OK does not mean that the login succeeds: look at `progress` and `why` of the connection. `taken` is how many
/// bytes were used. While `progress` is FE2O3_IN_PROGRESS, pass the rest in the next call; after the login it belongs
/// to AMQP.
///
/// The errors are, in this order: FE2O3_ROOM_TOO_SMALL; FE2O3_ENDED; FE2O3_INVALID_SNAPSHOT for a struct that no call
/// has written; FE2O3_NOT_UTF8 for the hostname; the faults of the login, for SCRAM as in `fe2o3_scram_client_first`;
/// and FE2O3_INVALID_SNAPSHOT for a part of a frame that is not expected. Each leaves the struct unchanged.
#[unsafe(no_mangle)]
pub extern "C" fn fe2o3_sasl_client_receive(
    alloc: Global,
    login: &SaslLogin<'_>,
    client: &mut SaslClient,
    bytes: &[u8],
    nonce: &[u8; 32],
    taken: &mut usize,
    out: &mut [u8],
    out_len: &mut usize,
) -> u32
    ensures { AnswersText result (λ answer. FillsWithin 512
        (ReceivesAsClient login.now bytes.now nonce.now client.old client.new taken.new)
        (record { bytes = out.old; len = out_len.old }) (record { bytes = out.new; len = out_len.new }) answer
        × OnErr answer ((client.new ≡ client.old) × (taken.new ≡ taken.old))
        × AsksText (ReadsClient login.now client.old) answer) }
{
    let mut meter = Meter::new();
    text_number(receive(
        alloc, login, client, bytes, nonce, &mut meter, taken, out, out_len,
    ))
}
