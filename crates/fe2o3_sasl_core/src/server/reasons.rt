//! Why a server rejects a message of SCRAM, for its log.

ghost use Rattle.std.specs.Prelude.{◌≡◌, IfErr, IfOk, Ok, option_map};
ghost use Rattle.fe2o3_scram.specs.ClientFirst.{ClientFirst as FirstValues, HasEscapes, ReadsClientFirst};
ghost use Rattle.fe2o3_scram.specs.ScramServer.{ServerFirstSent};
ghost use Rattle.fe2o3_sasl_core.specs.Servers.{known_for};
ghost use Rattle.fe2o3_sasl_core.specs.ScramRejections.{has_record, reason_of_failure, reason_of_final, reason_of_unknown};
ghost use Rattle.fe2o3_scram.specs.declared.hmac.ScramVersion.TheVariants.{Sha1};

use crate::OutOfMemory;
use crate::rejection::Rejection;
use fe2o3_scram::hmac::ScramVersion;
use fe2o3_scram::provider::ScramCredentialProvider;
use fe2o3_scram::scram_messages::ServerScramErrorKind;
use fe2o3_scram::{ActingRights, ClientFirst, MultiRecordStore, ServerExchange, ServerRules};
use std::alloc::Global;

/// Returns the reason for the user of a client-first message who has no record for the hash. The message is read again
/// for it, only where the answer is this rejection.
pub(crate) fn reason_of_unread(
    alloc: Global,
    rules: ServerRules,
    records: &MultiRecordStore,
    client_first: &[u8],
) -> Result<Rejection, OutOfMemory>
    ensures ok { IfOk result (λ reason. (client : FirstValues) → ReadsClientFirst rules client_first.now (Ok client)
        → reason ≡ reason_of_unknown (known_for records.now Sha1).all client.user) }
    ensures memory { IfErr result (λ _. HasEscapes rules client_first.now) }
{
    match ClientFirst::parse_with_rules(alloc, client_first, rules) {
        Ok(client) => Ok(unknown(records, &client.username)),
        Err(ServerScramErrorKind::OutOfMemory) => Err(OutOfMemory),
        Err(_) => Ok(Rejection::UnknownUser),
    }
}

/// Returns the reason for a user without a record for the hash of the exchange. All hashes are looked up.
fn unknown(records: &MultiRecordStore, username: &str) -> Rejection
    ensures { result ≡ reason_of_unknown (known_for records.now Sha1).all username.now }
{
    let sha_1 = has_record(records, ScramVersion::Sha1, username);
    let sha_256 = has_record(records, ScramVersion::Sha256, username);
    let sha_512 = has_record(records, ScramVersion::Sha512, username);
    if sha_1 || sha_256 || sha_512 {
        Rejection::NoRecordForHash
    } else {
        Rejection::UnknownUser
    }
}

/// Returns whether the user has a record for this hash.
fn has_record(records: &MultiRecordStore, version: ScramVersion, username: &str) -> bool
    ensures { result ≡ has_record (known_for records.now version).own username.now }
{
    records
        .for_version(version)
        .get_stored_password(username)
        .is_some()
}

/// Returns the reason for the error of the client-final message of an exchange.
pub(crate) fn reason_of_final(
    records: &MultiRecordStore,
    version: ScramVersion,
    rights: &ActingRights,
    exchange: &ServerExchange,
    kind: ServerScramErrorKind,
) -> Rejection
    ensures { result ≡ reason_of_final (known_for records.now version) rights.now
        (ServerFirstSent exchange.now.challenge exchange.now.stored) kind }
{
    match kind {
        ServerScramErrorKind::AuthenticationFailed => {
            reason_of_failure(records, version, rights, exchange)
        }
        ServerScramErrorKind::InvalidChannelBinding => Rejection::Channel,
        kind => Rejection::Scram(kind),
    }
}

/// Returns the reason of a failed login. The look-ups and the test of the right are made for every failed login alike.
fn reason_of_failure(
    records: &MultiRecordStore,
    version: ScramVersion,
    rights: &ActingRights,
    exchange: &ServerExchange,
) -> Rejection
    ensures { result ≡ reason_of_failure (known_for records.now version) rights.now exchange.now.challenge }
{
    let username = exchange.username();
    let is_known = has_record(records, version, username);
    let may_act = rights.may_act(username, exchange.acts_for());
    let of_unknown = unknown(records, username);
    match (is_known, may_act) {
        (false, _) => of_unknown,
        (true, false) => Rejection::NoRight,
        (true, true) => Rejection::WrongProof,
    }
}
