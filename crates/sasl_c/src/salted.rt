//! Keys and records of a SaltedPassword that the caller computed, for example in a library that uses SHA instructions
//! (RFC 5802, section 3). Nothing is salted here, and nothing is allocated.

ghost use Rattle.std.specs.Prelude.{MatchResult};
ghost use Rattle.fe2o3_scram.specs.Readings.{IsFirst, NoneHolds};
ghost use Rattle.sasl_c.specs.Records.{IsVersion};
ghost use Rattle.sasl_c.specs.Salted.{KeysAreOfPassword, MakesKeysOfSalted, MakesRecordOfSalted, RecordIsOfPassword, SaltedVerifiesAsPassword, VerifiesSalted, salted_tests};
ghost use Rattle.sasl_c.specs.Status.{Answers, Makes};

use crate::arrays::{fill, store};
use crate::keys::ScramKeys;
use crate::records::ScramRecord;
use crate::status::{Status, digest_len, number, version_of};
use fe2o3_scram::{Meter, RecordTextError, ScramVersion};

/// The status of a salted password that is not as long as a digest.
const OTHER_LENGTH: Status = Status::NoRecord(RecordTextError::KeyLengthMismatch);

/// Tests what keys or a record are made of, and returns the version.
#[tactic(auto, using(crate::proofs::SaltedLemmas::tested))]
fn test(version: u32, salted: &[u8], salt: &[u8], iterations: u32) -> Result<ScramVersion, Status>
    ensures { MatchResult result
        (λ known. IsVersion version known × NoneHolds (salted_tests version salted.now salt.now iterations))
        (λ status. IsFirst (salted_tests version salted.now salt.now iterations) status) }
{
    let Some(known) = version_of(version) else {
        return Err(Status::NoSuchVersion);
    };
    if salted.len() != digest_len(known) {
        return Err(OTHER_LENGTH);
    }
    if salt.len() > 128 {
        return Err(Status::TooLong);
    }
    if iterations == 0 {
        return Err(Status::ZeroIterations);
    }
    Ok(known)
}

/// Computes the keys of a salted password, as a struct.
#[tactic(auto, using(crate::proofs::SaltedLemmas::sized))]
fn compute_keys(
    version: u32,
    salted: &[u8],
    salt: &[u8],
    iterations: u32,
) -> Result<ScramKeys, Status>
    ensures { MakesKeysOfSalted version salted.now salt.now iterations result }
{
    let known = match test(version, salted, salt, iterations) {
        Ok(known) => known,
        Err(status) => return Err(status),
    };
    let mut meter = Meter::new();
    let client_key = known.client_key(salted, &mut meter);
    let server_key = known.server_key(salted, &mut meter);
    let mut keys = ScramKeys {
        version,
        iterations,
        salt_len: salt.len() as u32,
        salt: [0; 128],
        client_key: [0; 64],
        server_key: [0; 64],
    };
    fill(&mut keys.salt, salt);
    fill(&mut keys.client_key, client_key.as_slice());
    fill(&mut keys.server_key, server_key.as_slice());
    Ok(keys)
}

/// Computes the keys of a salted password (RFC 5802, section 3), for a server that uses this salt and iteration count.
/// You computed it as `Hi(password, salt, iterations)`, for example with OpenSSL's PKCS5_PBKDF2_HMAC, of which the
/// output is as long as a digest. The keys are then those of fe2o3_scram_keys_make. The call cannot test that the
/// salted password is of this salt and count.
///
/// The errors are, in this order: FE2O3_NO_SUCH_VERSION; FE2O3_RECORD_KEY_LENGTH_MISMATCH if the salted password has
/// another length than a digest of the hash; FE2O3_TOO_LONG for a salt of more than 128 bytes; and
/// FE2O3_ZERO_ITERATIONS.
#[unsafe(no_mangle)]
pub extern "C" fn fe2o3_scram_keys_of_salted(
    version: u32,
    salted: &[u8],
    salt: &[u8],
    iterations: u32,
    keys: &mut ScramKeys,
) -> u32
    ensures { Answers result (Makes ⊥ (MakesKeysOfSalted version salted.now salt.now iterations) keys.old keys.new) }
{
    number(store(compute_keys(version, salted, salt, iterations), keys))
}

/// Computes the record of a salted password, as a struct.
#[tactic(auto, using(crate::proofs::SaltedLemmas::sized))]
fn compute_record(
    version: u32,
    salted: &[u8],
    salt: &[u8],
    iterations: u32,
) -> Result<ScramRecord, Status>
    ensures { MakesRecordOfSalted version salted.now salt.now iterations result }
{
    let known = match test(version, salted, salt, iterations) {
        Ok(known) => known,
        Err(status) => return Err(status),
    };
    let mut meter = Meter::new();
    let stored_key = known.stored_key(known.client_key(salted, &mut meter).as_slice());
    let server_key = known.server_key(salted, &mut meter);
    let mut kept = ScramRecord {
        version,
        iterations,
        salt_len: salt.len() as u32,
        salt: [0; 128],
        stored_key: [0; 64],
        server_key: [0; 64],
    };
    fill(&mut kept.salt, salt);
    fill(&mut kept.stored_key, stored_key.as_slice());
    fill(&mut kept.server_key, server_key.as_slice());
    Ok(kept)
}

/// Computes the record of a salted password (RFC 5802, section 3), which you computed as `Hi(password, salt,
/// iterations)`. The record is then that of fe2o3_scram_record_make. The call cannot test that the salted password is
/// of this salt and count. `salt` is random bytes, fresh for each record, at most 128: 16 suffice.
///
/// The errors are, in this order: FE2O3_NO_SUCH_VERSION; FE2O3_RECORD_KEY_LENGTH_MISMATCH if the salted password has
/// another length than a digest of the hash; FE2O3_TOO_LONG for a salt of more than 128 bytes; and
/// FE2O3_ZERO_ITERATIONS.
#[unsafe(no_mangle)]
pub extern "C" fn fe2o3_scram_record_of_salted(
    version: u32,
    salted: &[u8],
    salt: &[u8],
    iterations: u32,
    kept: &mut ScramRecord,
) -> u32
    ensures { Answers result (Makes ⊥ (MakesRecordOfSalted version salted.now salt.now iterations) kept.old kept.new) }
{
    number(store(compute_record(version, salted, salt, iterations), kept))
}

/// Compares a salted password with a record.
fn verify(kept: &ScramRecord, salted: &[u8]) -> Result<(), Status>
    ensures { VerifiesSalted kept.now salted.now result }
{
    let (version, stored) = kept.lent()?;
    if salted.len() != digest_len(version) {
        return Err(OTHER_LENGTH);
    }
    if stored.iterations == 0 {
        return Err(Status::OtherPassword);
    }
    if stored.verify_salted_password(version, salted, &mut Meter::new()) {
        Ok(())
    } else {
        Err(Status::OtherPassword)
    }
}

/// Compares a salted password (RFC 5802, section 3) with a record: FE2O3_OK if it is the record's, FE2O3_OTHER_PASSWORD
/// if not, and for each one if the record's iteration count is 0. A server that receives a password, for instance by
/// PLAIN, computes it as `Hi(password, salt, iterations)` with the salt and the count of the record. For a non-ASCII
/// password prepare it first (fe2o3_saslprep).
///
/// The errors are, in this order: FE2O3_NO_SUCH_VERSION, and FE2O3_TOO_LONG for a `salt_len` above 128, if the struct
/// holds no record; and FE2O3_RECORD_KEY_LENGTH_MISMATCH if the salted password has another length than a digest of the
/// hash. The keys are compared over their whole length, whatever the bytes are; no claim is made about time.
#[unsafe(no_mangle)]
pub extern "C" fn fe2o3_scram_record_verify_salted(kept: &ScramRecord, salted: &[u8]) -> u32
    ensures { Answers result (VerifiesSalted kept.now salted.now) }
{
    number(verify(kept, salted))
}

/// Joins these calls with those of passwords: of `Hi(password, salt, iterations)` of a password whose tests pass, the
/// keys and the record are those of the password, and a record is of the one exactly if it is of the other.
pub fn salted_passwords()
    ensures keys { KeysAreOfPassword }
    ensures records { RecordIsOfPassword }
    ensures verified { SaltedVerifiesAsPassword }
{}
