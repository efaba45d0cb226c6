//! The server's side of PLAIN over messages: the test of a message against the record of its user (RFC 4616).

ghost use Rattle.std.specs.Prelude.{◌↔◌, ◌≡◌, ◌≢◌, ◌≤◌, ◌+◌, ◌^◌, ℕ, List, Option, IfErr, IfOk, IsTrue, MatchOption, Ok};
ghost use Rattle.fe2o3_scram.specs.Credentials.{VersionedRecord};
ghost use Rattle.fe2o3_scram.specs.Readings.{Gives};
ghost use Rattle.fe2o3_sasl_core.specs.PlainServer.{PlainLogsIn, PlainParts, plain_hmacs};
ghost use Rattle.fe2o3_sasl_core.specs.declared.plain_server.passwords.PlainPasswords.{PlainPasswords as Forms};
ghost use Rattle.sasl_c.specs.Client.{is_set};
ghost use Rattle.sasl_c.specs.Plain.{ClaimsPlainUser, FirstShown, HasUsersPassword, PlainAsks, PlainTerms as Terms, VerifiesPlain, VerifyingCosts, form_number, plain_rules_of, store_of};
ghost use Rattle.sasl_c.specs.Server.{one_user};
ghost use Rattle.sasl_c.specs.Status.{Answers};
ghost use Rattle.sasl_c.specs.declared.status.Status.TheVariants.{OutOfMemory as StatusOutOfMemory};

use crate::acting::acting_rights;
use crate::flags::is_set;
use crate::records::ScramRecord;
use crate::status::{Status, number, text};
use fe2o3_sasl_core::PlainPasswords;
use fe2o3_sasl_core::plain_server::{PlainTest, plain_user};
use fe2o3_scram::{Meter, RecordStore, ScramVersion, ServerScramErrorKind};
use std::alloc::Global;
use std::marker::Model;

/// What a message is tested by, besides the records.
#[derive(Drop)]
struct PlainTerms<'a> {
    /// The form of passwords.
    passwords: PlainPasswords,

    /// The iteration count for unknown users.
    iterations: u32,

    /// Whether a message may name an identity other than its user.
    accept_authzid: bool,

    /// The identities that the user may act for, with a zero byte after each.
    identities: &'a str,
}

impl<'a> Model for PlainTerms<'a> {
    ghost use Rattle.sasl_c.specs.Plain.{PlainTerms as Terms};

    ghost Value = { Terms };

    ghost view = { λ terms. record {
      passwords = terms.passwords;
      count = terms.iterations;
      accepts = terms.accept_authzid;
      identities = terms.identities.now;
    } };
}

/// Returns the form of passwords of a number.
fn form_of(number: u32) -> Option<PlainPasswords>
    ensures { MatchOption result ((passwords : Forms) → form_number passwords ≢ number)
        (λ passwords. form_number passwords ≡ number) }
{
    match number {
        0 => Some(PlainPasswords::Typed),
        1 => Some(PlainPasswords::Prepared),
        2 => Some(PlainPasswords::Saslprep),
        _ => None,
    }
}

/// Returns the store of a user with this record. `OutOfMemory` is the only error.
fn store_with(
    alloc: Global,
    username: &str,
    kept: fe2o3_scram::ScramRecord,
) -> Result<RecordStore, Status>
    ensures ok { IfOk result (λ store. store ≡ one_user username.now kept) }
    ensures err { IfErr result (λ status. status ≡ StatusOutOfMemory) }
{
    let username = username.to_string(alloc)?;
    let mut store = RecordStore::new(alloc, *kept.scram_version());
    match store.add(username, kept) {
        Ok(()) => Ok(store),
        Err(_) => {
            drop(store);
            Err(Status::OutOfMemory)
        }
    }
}

/// Returns the store of a user with the first record that can be read, or without one. `OutOfMemory` is the only error.
fn store_for(alloc: Global, username: &str, records: &[ScramRecord]) -> Result<RecordStore, Status>
    ensures ok { IfOk result (λ store. (found : Option VersionedRecord) × FirstShown records.now found
        × (store ≡ store_of username.now found)) }
    ensures err { IfErr result (λ status. status ≡ StatusOutOfMemory) }
{
    for kept in records {
        match kept.read(alloc) {
            Ok(kept) => return store_with(alloc, username, kept),
            Err(Status::OutOfMemory) => return Err(Status::OutOfMemory),
            Err(_) => {}
        }
    }
    Ok(RecordStore::new(alloc, ScramVersion::Sha256))
}

/// Returns whether a message logs this user in by this store and these terms. The meter counts the HMAC values.
/// `OutOfMemory` is the only error.
fn logs_in(
    alloc: Global,
    username: &str,
    store: &RecordStore,
    terms: &PlainTerms<'_>,
    message: &[u8],
    meter: &mut Meter,
) -> Result<bool, Status>
    requires { meter.old ≤ 2 ^ 63 }
    ensures ok { IfOk result (λ is. IsTrue is ↔ ((parts : PlainParts)
        × PlainLogsIn (plain_rules_of terms.now username.now store.now) message.now parts)) }
    ensures err { IfErr result (λ status. status ≡ StatusOutOfMemory) }
    ensures cost { IfOk result (λ _. (n : ℕ) → plain_hmacs (plain_rules_of terms.now username.now store.now) message.now n
        → meter.new ≡ meter.old + n) }
{
    let rights = match acting_rights(alloc, username, terms.identities) {
        Ok(rights) => rights,
        Err(status) => return Err(status),
    };
    let test = PlainTest {
        credentials: store,
        iterations: terms.iterations,
        passwords: terms.passwords,
        accept_authzid: terms.accept_authzid,
        rights: &rights,
    };
    match test.logs_in(alloc, message, meter) {
        Ok(is) => Ok(is),
        Err(_) => Err(Status::OutOfMemory),
    }
}

/// Returns whether a message has the password of its user, who may act for the identity that it asks for. The meter counts
/// the HMAC values. `OutOfMemory` is the only error.
fn has_users_password(
    alloc: Global,
    records: &[ScramRecord],
    terms: &PlainTerms<'_>,
    message: &[u8],
    meter: &mut Meter,
) -> Result<bool, Status>
    requires { meter.old ≤ 2 ^ 63 }
    ensures ok { IfOk result (λ is. IsTrue is ↔ HasUsersPassword terms.now records.now message.now) }
    ensures err { IfErr result (λ status. status ≡ StatusOutOfMemory) }
    ensures memory { IfErr result (λ _. (name : List ℕ) × ClaimsPlainUser message.now (Ok name)) }
    ensures cost { IfOk result (λ _. VerifyingCosts terms.now records.now message.now meter.old meter.new) }
{
    let Some(username) = plain_user(message) else {
        return Ok(false);
    };
    match store_for(alloc, username, records) {
        Ok(store) => logs_in(alloc, username, &store, terms, message, meter),
        Err(status) => Err(status),
    }
}

/// Tests a message against the record of its user.
#[tactic(auto, using(crate::proofs::PlainLemmas::verifies))]
fn verify(
    alloc: Global,
    records: &[ScramRecord],
    form: u32,
    iterations: u32,
    accept_authzid: u32,
    identities: &[u8],
    message: &[u8],
) -> Result<(), Status>
    ensures { Gives StatusOutOfMemory (PlainAsks form identities.now message.now) (λ (done : Unit {0}). done) result
        (VerifiesPlain form iterations accept_authzid identities.now records.now message.now) }
{
    let Some(passwords) = form_of(form) else {
        return Err(Status::NoSuchChoice);
    };
    let identities = match text(identities) {
        Ok(identities) => identities,
        Err(status) => return Err(status),
    };
    let terms = PlainTerms {
        passwords,
        iterations,
        accept_authzid: is_set(accept_authzid),
        identities,
    };
    let mut meter = Meter::new();
    match has_users_password(alloc, records, &terms, message, &mut meter) {
        Ok(true) => Ok(()),
        Ok(false) => Err(Status::Server(ServerScramErrorKind::AuthenticationFailed)),
        Err(status) => Err(status),
    }
}

/// Tests a message of PLAIN against the record of the user that it claims (RFC 4616). Only FE2O3_OK means that this
/// user (`fe2o3_plain_claimed_user`) is authenticated, and may act for the identity that the message asks for
/// (`fe2o3_plain_claimed_identity`). PLAIN sends the password in clear, so use it over TLS only.
///
/// `records` are those of the claimed user, of any hashes. The first one that can be read counts, so put mock records
/// last. For an unknown user pass a mock record (`fe2o3_scram_record_mock`), or none: the password is then hashed with
/// SHA-256 and this iteration count, as often as for a known user with this count, and rejected. `passwords` is one of
/// enum fe2o3_plain_passwords.
///
/// `accept_authzid` says whether a message may name an identity other than its user. 0 is no, any other value yes.
/// `identities` are those that the user may act for besides itself (RFC 4422, section 2), with a zero byte after each but
/// the last, which may have one too.
///
/// Returns, in this order, FE2O3_NO_SUCH_CHOICE if `passwords` is none of the enum, FE2O3_NOT_UTF8 if the identities
/// are not UTF-8, and FE2O3_SERVER_AUTHENTICATION_FAILED for every message that does not log in: a wrong password, an
/// unknown user, an identity that the user may not act for, or no acceptable message.
#[unsafe(no_mangle)]
pub extern "C" fn fe2o3_plain_verify(
    alloc: Global,
    records: &[ScramRecord],
    passwords: u32,
    iterations: u32,
    accept_authzid: u32,
    identities: &[u8],
    message: &[u8],
) -> u32
    ensures { Answers result (λ answer. Gives StatusOutOfMemory (PlainAsks passwords identities.now message.now)
        (λ (done : Unit {0}). done) answer
        (VerifiesPlain passwords iterations accept_authzid identities.now records.now message.now)) }
{
    number(verify(
        alloc,
        records,
        passwords,
        iterations,
        accept_authzid,
        identities,
        message,
    ))
}
