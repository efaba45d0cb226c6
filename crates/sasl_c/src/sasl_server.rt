//! The server's side of a connection, as a struct between its calls.

ghost use Rattle.std.specs.Prelude.{◌≡◌, ◌≢◌, ◌<◌, ◌≤◌, ◌^◌, ℕ, List, true, IfOk, IfErr, OnErr, OnOk, MatchBool, MatchResult, length};
ghost use Rattle.std.specs.Str.{IsUtf8};
ghost use Rattle.fe2o3_scram.specs.Mixed.{MultiRecords};
ghost use Rattle.fe2o3_scram.specs.Readings.{IsFirst, NoneHolds};
ghost use Rattle.fe2o3_sasl_core.specs.Servers.{offers_any, rejection_of_server, sasl_server, settings_with};
ghost use Rattle.fe2o3_sasl_negotiation.specs.declared.progress.Progress.TheVariants.{InProgress};
ghost use Rattle.fe2o3_sasl_negotiation.specs.Snapshot.{IsServerKept, side_of};
ghost use Rattle.fe2o3_sasl_negotiation.specs.Sides.{extended_in, server_side};
ghost use Rattle.sasl_c.specs.SaslServer.{AddsRecord, HasNoServerWords, HasLongSalt, HasNone, IsChoice, IsNoConfig, IsPrepared, NotReceived, Received, RestoresStage, HasOptions, ServerTakes, ShowRecords, ShowsBy, choice_tests, config_tests, extra_for, mechanisms_for, mock_of, plain_version_for, struct_by, version_of_unknown};
ghost use Rattle.sasl_c.specs.Connection.{side_tests};
ghost use Rattle.sasl_c.specs.Status.{AsksWhere};
ghost use Rattle.sasl_c.specs.declared.status.Status.TheVariants.{OutOfMemory as StatusOutOfMemory, InvalidSnapshot as StatusInvalidSnapshot, TooLong as StatusTooLong};

use crate::acting::acting_rights;
use crate::connection::{Connection, ReceiveResult};
use crate::flags::{is_set, split, split_passwords};
use crate::records::ScramRecord;
use crate::rejections::LoggedServer;
use crate::rules::ServerChannels;
use crate::server::ScramServer;
use crate::shows::Shows;
use crate::status::{Status, text};
use bytes::BytesMut;
use fe2o3_sasl_core::{
    AuthenticatedUser, ExtraChallenges, Mechanisms, MockAuthentication, PlainPasswords, Server,
    ServerOptions, Transport,
};
use fe2o3_sasl_negotiation::{RestoreError, ServerNegotiation, Snapshot};
use fe2o3_scram::{Meter, MultiRecordStore, ScramVersion};
use std::alloc::Global;

/// What a server offers, and the records of one user. You lend the struct to each call.
#[repr(C)]
#[derive(Drop)]
pub struct SaslServerConfig<'a> {
    /// The offered mechanisms: a sum of values of enum fe2o3_offer. PLAIN sends the password in clear, so offer it
    /// over TLS only.
    pub mechanisms: u32,

    /// What else the server does: a sum of values of enum fe2o3_server_flag. PLAIN rejects every password that is not
    /// printable ASCII, unless the sum has FE2O3_PLAIN_PREPARED or FE2O3_PLAIN_SASLPREP. By the latter it also rejects a
    /// password that SASLprep rejects or prepares to the empty text. With FE2O3_SIGNATURE_BY_CHALLENGE SCRAM's outcome
    /// OK follows the client's empty response to a challenge. With FE2O3_INITIAL_RESPONSE_BY_CHALLENGE an init for SCRAM
    /// or PLAIN without an initial response is answered by an empty challenge, and the response is the initial response.
    /// With FE2O3_STRICT SCRAM is strict, as by the field `strict` of struct fe2o3_scram_rules, and with
    /// FE2O3_REJECT_MISPLACED as by its field `reject_misplaced`.
    pub flags: u32,

    /// The iteration count of mock records. PLAIN hashes the password of an unknown user as often. Pass the count of your
    /// store's records.
    pub iterations: u32,

    /// The length of the salts of mock records, in bytes, at most 64. Pass the length of your store's salts. Without a
    /// `mock_secret` it plays no part.
    pub mock_salt_len: u32,

    /// The secret of mock authentication: at least 32 random bytes, one value for all names, kept as long as the records.
    /// With it SCRAM answers a name that has no record of its hash like any other, by a mock record. The login then fails at
    /// its proof. If empty, there is no mock authentication: SCRAM rejects the init of such a name at once, and a client can
    /// tell known users from unknown ones.
    pub mock_secret: &'a [u8],

    /// Whether `username`, `records` and `identities` are what your store has of the user whom the bytes claim. 0 is no,
    /// any other value yes. If it is 0 and the bytes claim a user, `fe2o3_sasl_server_receive` returns
    /// FE2O3_NEEDS_RECORDS. If they claim none, these fields are only tested for UTF-8.
    pub looked_up: u32,

    /// The name of the user whose records these are, without escapes.
    pub username: &'a [u8],

    /// The records that your store has of the user, of any hashes, and none for an unknown user. SCRAM uses the first record
    /// of its hash. PLAIN tests the password against the first record that can be read.
    ///
    /// If no record can be read, PLAIN hashes the password all the same, and rejects the login. It then uses the first of
    /// SHA-256, SHA-512 and SHA-1 by which SCRAM is offered, or SHA-256 if SCRAM is not offered. So let the records of each
    /// user begin with that hash.
    pub records: &'a [ScramRecord],

    /// The name of the client that the transport has authenticated, for instance by a certificate. EXTERNAL accepts
    /// it. If empty, EXTERNAL is not offered, and an init for it fails with FE2O3_REFUSED_AUTH.
    pub external_authcid: &'a [u8],

    /// The server's channel. If it binds channels, SCRAM is also offered with `-PLUS`, by the same hashes, and before
    /// the other mechanisms. SCRAM without `-PLUS` then rejects the GS2 header `y,,` (RFC 5802, section 6), whatever
    /// FE2O3_ACCEPT_CBIND_FLAG_Y says. Both reject what is no extension in the place of one, as with
    /// FE2O3_REJECT_MISPLACED. So a client of SCRAM that has a channel binds this one, or does not log in.
    pub channels: ServerChannels,

    /// Whether a client of SCRAM or PLAIN may name an identity to act for (RFC 5802, section 5.1; RFC 4616, section 2), as
    /// by the field `accept_authzid` of struct fe2o3_scram_rules. 0 is no, any other value yes. Without it a message of
    /// PLAIN may still name its own user.
    pub accept_authzid: u32,

    /// The identities that the user may act for besides itself (RFC 4422, section 2), without escapes, with a zero byte
    /// after each but the last, which may have one too. After the login `fe2o3_scram_server_acts_for` returns the one that
    /// the user acts for.
    pub identities: &'a [u8],
}

/// The server's side of a connection between calls. All zeros is a connection that has received nothing.
#[repr(C)]
#[derive(Drop)]
pub struct SaslServer {
    /// The connection.
    pub connection: Connection,

    /// The SCRAM server. After a login by any mechanism it holds the authenticated user
    /// (`fe2o3_scram_server_authenticated_user`), and after one by SCRAM or PLAIN the identity that the user acts for
    /// (`fe2o3_scram_server_acts_for`). ANONYMOUS has no user.
    pub scram: ScramServer,
}

/// Which mechanisms are offered.
#[derive(Clone, Copy)]
struct Choice {
    sha_512: bool,
    sha_256: bool,
    sha_1: bool,
    plain: bool,
    anonymous: bool,
    external: bool,

    /// Whether SCRAM accepts the GS2 flag `y`.
    cbind_flag_y: bool,

    /// Whether SCRAM reads messages by the grammar of RFC 5802, section 7.
    strict: bool,

    /// Whether SCRAM rejects what is no extension in the place of one.
    reject_misplaced: bool,

    /// Whether an init without an initial response is answered by an empty challenge.
    initial_response_by_challenge: bool,

    /// Whether the server's signature is sent in a challenge.
    signature_by_challenge: bool,

    /// Which passwords PLAIN tests.
    passwords: PlainPasswords,
}

impl Choice {
    /// The choice of a sum of mechanisms and a sum of flags.
    fn of(mechanisms: u32, flags: u32) -> Result<Choice, Status>
        ensures { MatchResult result (λ choice. IsChoice mechanisms flags choice)
            (λ status. IsFirst (choice_tests mechanisms flags) status) }
    {
        if mechanisms > 63 {
            return Err(Status::NoSuchMechanism);
        }
        let (external, rest) = split(mechanisms, 32);
        let (anonymous, rest) = split(rest, 16);
        let (plain, rest) = split(rest, 8);
        let (sha_1, rest) = split(rest, 4);
        let (sha_256, rest) = split(rest, 2);
        let (sha_512, _) = split(rest, 1);
        if flags > 8191 {
            return Err(Status::NoSuchChoice);
        }
        let (reject_misplaced, others) = split(flags, 4096);
        let (strict, others) = split(others, 2048);
        let (signature_by_challenge, others) = split(others, 1024);
        let (initial_response_by_challenge, others) = split(others, 512);
        if others > 383 {
            return Err(Status::NoSuchChoice);
        }
        let (passwords, others) = split_passwords(others);
        let (cbind_flag_y, unknown) = split(others, 64);
        if unknown > 0 {
            return Err(Status::NoSuchChoice);
        }
        Ok(Choice {
            sha_512,
            sha_256,
            sha_1,
            plain,
            anonymous,
            external,
            cbind_flag_y,
            strict,
            reject_misplaced,
            initial_response_by_challenge,
            signature_by_challenge,
            passwords,
        })
    }

    /// The challenges that are sent beyond those of the mechanisms.
    fn extra(self) -> ExtraChallenges
        ensures { result ≡ extra_for self }
    {
        ExtraChallenges {
            initial_response: self.initial_response_by_challenge,
            signature: self.signature_by_challenge,
        }
    }

    /// The hash by which PLAIN hashes the password of an unknown user.
    fn version_of_unknown(self) -> ScramVersion
        ensures { result ≡ version_of_unknown (mechanisms_for self) }
    {
        if self.sha_256 {
            ScramVersion::Sha256
        } else if self.sha_512 {
            ScramVersion::Sha512
        } else if self.sha_1 {
            ScramVersion::Sha1
        } else {
            ScramVersion::Sha256
        }
    }

    /// The mechanisms.
    fn mechanisms(self) -> Mechanisms
        ensures { result ≡ mechanisms_for self }
    {
        Mechanisms {
            scram_sha_512: self.sha_512,
            scram_sha_256: self.sha_256,
            scram_sha_1: self.sha_1,
            plain: self.plain,
            anonymous: self.anonymous,
            external: self.external,
        }
    }
}

/// What a server of a configuration borrows.
#[derive(Drop)]
struct Prepared<'a> {
    records: MultiRecordStore,
    options: ServerOptions,
    transport: Transport<'a>,
}

impl Prepared<'_> {
    /// Whether the server offers a mechanism.
    fn offers_any(&self) -> bool
        ensures { result ≡ offers_any (settings_with self.now.records self.now.options self.now.transport) }
    {
        Server::new(&self.records, &self.options, self.transport).offers_any()
    }

    /// The server that continues what the struct of SCRAM keeps of a login. With mock authentication the mock record of an
    /// open challenge's user is recomputed, by three HMAC values. `OutOfMemory` is the only error.
    fn restored(&self, alloc: Global, scram: &ScramServer) -> Result<LoggedServer<'_>, Status>
        ensures settings { IfOk result (λ made. (sasl_server made.server).settings
            ≡ settings_with self.now.records self.now.options self.now.transport) }
        ensures rejection { IfOk result (λ made. rejection_of_server made.server ≡ None) }
        ensures stage { IfOk result (λ made. RestoresStage scram.now (sasl_server made.server)) }
        ensures err { IfErr result (λ status. status ≡ StatusOutOfMemory) }
    {
        let saved = scram.saved_stage();
        let server = Server::restore(
            alloc,
            &self.records,
            &self.options,
            self.transport,
            &saved,
            None,
            &mut Meter::new(),
        )?;
        Ok(LoggedServer { server })
    }
}

/// Adds the record of a struct for a user, if it shows one. `OutOfMemory` is the only error.
fn add_record(
    alloc: Global,
    store: &mut MultiRecordStore,
    username: &str,
    shown: &ScramRecord,
) -> Result<(), Status>
    ensures ok { OnOk result (AddsRecord username.now shown.now store.old store.new) }
    ensures err { IfErr result (λ status. status ≡ StatusOutOfMemory) }
{
    let kept = match shown.read(alloc) {
        Ok(kept) => kept,
        Err(Status::OutOfMemory) => return Err(Status::OutOfMemory),
        Err(_) => return Ok(()),
    };
    match store.add(username.to_string(alloc)?, kept) {
        Ok(()) => Ok(()),
        Err(_) => Err(Status::OutOfMemory),
    }
}

impl SaslServerConfig<'_> {
    /// The records of the configuration's user. `OutOfMemory` is the only error.
    #[tactic(auto, using(crate::proofs::SaslServerLemmas::store))]
    fn store(&self, alloc: Global, username: &str) -> Result<MultiRecordStore, Status>
        ensures ok { IfOk result (λ store. ShowRecords username.now self.now.records.now store) }
        ensures err { IfErr result (λ status. status ≡ StatusOutOfMemory) }
    {
        let mut store = MultiRecordStore::new(alloc);
        for kept in self.records {
            add_record(alloc, &mut store, username, kept)?;
        }
        Ok(store)
    }

    /// The hash by which PLAIN hashes a password: that of the first record that can be read, or otherwise that of an unknown
    /// user.
    #[tactic(auto, using(crate::proofs::SaslServerLemmas::first))]
    fn plain_version(&self, choice: Choice) -> ScramVersion
        ensures { (user : List ℕ) (records : MultiRecords) → ShowRecords user self.now.records.now records
            → result ≡ plain_version_for (mechanisms_for choice) records }
    {
        for kept in self.records {
            if let Ok((version, _)) = kept.lent() {
                return version;
            }
        }
        choice.version_of_unknown()
    }

    /// Tests the length of the mock records' salts.
    fn tests_salt(&self) -> Result<(), Status>
        ensures { MatchResult result (λ _. ¬ HasLongSalt self.now)
            (λ status. (status ≡ StatusTooLong) × HasLongSalt self.now) }
    {
        if !self.mock_secret.is_empty() && self.mock_salt_len > 64 {
            return Err(Status::TooLong);
        }
        Ok(())
    }

    /// The settings of mock authentication, if there is a secret. `OutOfMemory` is the only error.
    fn mock(&self, alloc: Global) -> Result<Option<MockAuthentication>, Status>
        requires { ¬ HasLongSalt self.now }
        ensures ok { IfOk result (λ mock. mock ≡ mock_of self.now) }
        ensures err { IfErr result (λ status. status ≡ StatusOutOfMemory) }
    {
        if self.mock_secret.is_empty() {
            return Ok(None);
        }
        let secret = self.mock_secret.to_vec(alloc)?;
        match MockAuthentication::new(secret, self.mock_salt_len as usize, self.iterations) {
            Ok(mock) => Ok(Some(mock)),
            Err(_) => Err(Status::TooLong),
        }
    }

    /// The options of a server with this choice, this hash of PLAIN's records, these mock records and these rights.
    fn options(
        &self,
        alloc: Global,
        choice: Choice,
        version: ScramVersion,
        mock: Option<MockAuthentication>,
        identities: &str,
        username: &str,
    ) -> Result<ServerOptions, Status>
        ensures ok { IfOk result (λ options. HasOptions self.now choice version mock username.now identities.now options) }
        ensures err { IfErr result (λ status. status ≡ StatusOutOfMemory) }
    {
        let mut options = ServerOptions::new(alloc, choice.mechanisms());
        options.mock = mock;
        options.rights = acting_rights(alloc, username, identities)?;
        options.accept_authzid = is_set(self.accept_authzid);
        options.strict = choice.strict;
        options.reject_misplaced = choice.reject_misplaced;
        options.accept_cbind_flag_y = choice.cbind_flag_y;
        options.plain_version = version;
        options.plain_iterations = Some(self.iterations);
        options.plain_passwords = choice.passwords;
        options.extra_challenges = choice.extra();
        Ok(options)
    }

    /// Tests that the words of the configuration are texts.
    fn words(&self) -> Result<(&str, &str, &str), Status>
        ensures { MatchResult result (λ words. (words.0.now ≡ self.now.username.now)
            × (words.1.now ≡ self.now.external_authcid.now) × (words.2.now ≡ self.now.identities.now)
            × IsUtf8 self.now.username.now × IsUtf8 self.now.external_authcid.now × IsUtf8 self.now.identities.now)
            (λ status. HasNoServerWords self.now status) }
    {
        let username = text(self.username)?;
        let external = text(self.external_authcid)?;
        Ok((username, external, text(self.identities)?))
    }

    /// What a server of the configuration borrows, if that offers a mechanism.
    #[tactic(auto, using(crate::proofs::SaslServerLemmas::no_offer))]
    fn prepared(&self, alloc: Global) -> Result<Prepared<'_>, Status>
        ensures ok { IfOk result (λ prepared. IsPrepared self.now prepared) }
        ensures tests { IfOk result (λ _. NoneHolds (config_tests self.now)) }
        ensures offers { IfOk result (λ prepared.
            offers_any (settings_with prepared.records prepared.options prepared.transport) ≡ true) }
        ensures err { IfErr result (λ status. status ≢ StatusOutOfMemory → IsNoConfig self.now status) }
        ensures memory { AsksWhere (NoneHolds (config_tests self.now)) result }
    {
        let prepared = match self.tested(alloc) {
            Ok(prepared) => prepared,
            Err(status) => return Err(status),
        };
        if !prepared.offers_any() {
            return Err(Status::NoSuchMechanism);
        }
        Ok(prepared)
    }

    /// What a server of the configuration borrows, if no test rejects it.
    #[tactic(auto, using(crate::proofs::SaslServerLemmas::prepared))]
    fn tested(&self, alloc: Global) -> Result<Prepared<'_>, Status>
        ensures ok { IfOk result (λ prepared. IsPrepared self.now prepared) }
        ensures tests { IfOk result (λ _. NoneHolds (config_tests self.now)) }
        ensures err { IfErr result (λ status. status ≢ StatusOutOfMemory → IsNoConfig self.now status) }
        ensures memory { AsksWhere (NoneHolds (config_tests self.now)) result }
    {
        let choice = match Choice::of(self.mechanisms, self.flags) {
            Ok(choice) => choice,
            Err(status) => return Err(status),
        };
        let (username, external, identities) = match self.words() {
            Ok(words) => words,
            Err(status) => return Err(status),
        };
        let channels = match self.channels.shown() {
            Ok(channels) => channels,
            Err(status) => return Err(status),
        };
        match self.tests_salt() {
            Ok(()) => (),
            Err(status) => return Err(status),
        }
        let records = match self.store(alloc, username) {
            Ok(records) => records,
            Err(status) => return Err(status),
        };
        let version = self.plain_version(choice);
        let mock = match self.mock(alloc) {
            Ok(mock) => mock,
            Err(status) => return Err(status),
        };
        let options = match self.options(alloc, choice, version, mock, identities, username) {
            Ok(options) => options,
            Err(status) => return Err(status),
        };
        // PLAIN is offered if the configuration says so.
        let transport = Transport {
            is_tls: true,
            channels,
            external,
        };
        Ok(Prepared {
            records,
            options,
            transport,
        })
    }
}

/// What a side of a connection makes of bytes.
#[derive(Drop)]
struct RestoredResult<A> {
    taken: usize,
    sent: BytesMut,
    side: ServerNegotiation<A>,
}

/// Restores a side that waits, which takes bytes.
#[tactic(auto, using(crate::proofs::ReadingLemmas::read_as_kept))]
fn restore<A: AuthenticatedUser + Drop>(
    alloc: Global,
    acceptor: A,
    kept: &Snapshot<'_>,
    bytes: &[u8],
    nonce: &[u8; 32],
    meter: &mut Meter,
) -> Result<RestoredResult<A>, Status>
    requires meter { meter.old ≤ 2 ^ 63 }
    requires wanting { kept.now.progress ≡ InProgress }
    ensures ok { IfOk result (λ call. IsServerKept kept.now
        × ServerTakes kept.now.extended_headers A.names A.machine (side_of kept.now (A.state acceptor)) bytes.now nonce.now
        call.taken call.sent.items (server_side A.state call.side)
        × (extended_in call.side ≡ kept.now.extended_headers)) }
    ensures err { IfErr result (λ status. status ≢ StatusOutOfMemory
        → (status ≡ StatusInvalidSnapshot) × ¬ IsServerKept kept.now) }
{
    let mut side = match ServerNegotiation::restore(alloc, acceptor, kept) {
        Ok(side) => side,
        Err(RestoreError::InvalidSnapshot) => return Err(Status::InvalidSnapshot),
        Err(RestoreError::OtherUser) => return Err(Status::InvalidSnapshot),
        Err(RestoreError::OutOfMemory) => return Err(Status::OutOfMemory),
    };
    let mut sent = BytesMut::new(alloc);
    let received = side.receive(alloc, bytes, nonce, meter, &mut sent)?;
    Ok(RestoredResult {
        taken: received.taken,
        sent,
        side,
    })
}

impl SaslServer {
    /// Turns the structs into those of a side. If a text has no room in them, returns false, and nothing changes.
    fn hold<A: Shows>(&mut self, side: &ServerNegotiation<A>) -> bool
        ensures shows { MatchBool result (ShowsBy A.state A.shows self.new side.now) (HasNone A.state A.shows side.now) }
        ensures writes { MatchBool result (self.new ≡ struct_by A.state A.written_for side.now) (self.new ≡ self.old) }
    {
        let kept = side.snapshot();
        if !Connection::has_room(&kept) {
            return false;
        }
        if !side.acceptor().show(side.progress(), &mut self.scram) {
            return false;
        }
        self.connection.keep(&kept);
        true
    }
}

/// Saves a side that has taken bytes.
fn saved<A: Shows + Drop>(
    call: RestoredResult<A>,
    server: &mut SaslServer,
) -> Result<ReceiveResult, Status>
    ensures ok { IfOk result (λ made. (made.taken ≡ call.taken) × (made.sent.items ≡ call.sent.items)
        × ShowsBy A.state A.shows server.new call.side × (server.new ≡ struct_by A.state A.written_for call.side)) }
    ensures err { IfErr result (λ status. (status ≡ StatusTooLong) × HasNone A.state A.shows call.side
        × (server.new ≡ server.old)) }
{
    if !server.hold(&call.side) {
        return Err(Status::TooLong);
    }
    Ok(ReceiveResult {
        taken: call.taken,
        sent: call.sent,
    })
}

/// Takes bytes, and turns the structs into those of the side after them. An error leaves them unchanged.
#[tactic(auto, using(crate::proofs::ServerCallLemmas::without_memory))]
pub fn received(
    alloc: Global,
    config: &SaslServerConfig<'_>,
    server: &mut SaslServer,
    bytes: &[u8],
    nonce: &[u8; 32],
    meter: &mut Meter,
) -> Result<ReceiveResult, Status>
    requires { meter.old ≤ 2 ^ 63 }
    ensures ok { IfOk result (λ made. Received config.now bytes.now nonce.now server.old server.new made.taken
        made.sent.items) }
    ensures fits { IfOk result (λ made. length made.sent.items ≤ 520) }
    ensures err { IfErr result (λ status. status ≢ StatusOutOfMemory
        → NotReceived config.now bytes.now nonce.now server.old status) }
    ensures stays { OnErr result (server.new ≡ server.old) }
    ensures memory { AsksWhere (NoneHolds (side_tests server.old.connection) × NoneHolds (config_tests config.now)) result }
{
    let kept = match server.connection.read() {
        Ok(kept) => kept,
        Err(status) => return Err(status),
    };
    let prepared = match config.prepared(alloc) {
        Ok(prepared) => prepared,
        Err(status) => return Err(status),
    };
    let acceptor = match prepared.restored(alloc, &server.scram) {
        Ok(acceptor) => acceptor,
        Err(status) => return Err(status),
    };
    let call = match restore(alloc, acceptor, &kept, bytes, nonce, meter) {
        Ok(call) => call,
        Err(status) => return Err(status),
    };
    match saved(call, server) {
        Ok(made) => Ok(made),
        Err(status) => Err(status),
    }
}
