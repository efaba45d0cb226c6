//! A record made of the fields that another store keeps (RFC 5802, section 3).

ghost use Rattle.sasl_c.specs.RecordFields.{MakesFromFields};
ghost use Rattle.sasl_c.specs.Status.{Answers, Makes};

use crate::arrays::{fill, store};
use crate::records::ScramRecord;
use crate::status::{Status, digest_len, number, version_of};
use fe2o3_scram::RecordTextError;

/// Returns the record of these fields, as a struct.
#[tactic(auto, using(crate::proofs::FieldLemmas::fields))]
fn record_of_fields(
    version: u32,
    salt: &[u8],
    iterations: u32,
    stored_key: &[u8],
    server_key: &[u8],
) -> Result<ScramRecord, Status>
    ensures { MakesFromFields version salt.now iterations stored_key.now server_key.now result }
{
    let Some(hash) = version_of(version) else {
        return Err(Status::NoSuchVersion);
    };
    if salt.len() > 128 {
        return Err(Status::TooLong);
    }
    if iterations == 0 {
        return Err(Status::ZeroIterations);
    }
    let len = digest_len(hash);
    if stored_key.len() != len || server_key.len() != len {
        return Err(Status::NoRecord(RecordTextError::KeyLengthMismatch));
    }
    let mut kept = ScramRecord {
        version,
        iterations,
        salt_len: salt.len() as u32,
        salt: [0; 128],
        stored_key: [0; 64],
        server_key: [0; 64],
    };
    fill(&mut kept.salt, salt);
    fill(&mut kept.stored_key, stored_key);
    fill(&mut kept.server_key, server_key);
    Ok(kept)
}

/// Makes a record of the fields that another server stores: the salt, the iteration count, the StoredKey and the
/// ServerKey (RFC 5802, section 3), each as bytes, not in base64.
///
/// The errors are, in this order: FE2O3_NO_SUCH_VERSION; FE2O3_TOO_LONG for a salt of more than 128 bytes;
/// FE2O3_ZERO_ITERATIONS; and FE2O3_RECORD_KEY_LENGTH_MISMATCH if a key has another length than a digest of the hash.
#[unsafe(no_mangle)]
pub extern "C" fn fe2o3_scram_record_from_fields(
    version: u32,
    salt: &[u8],
    iterations: u32,
    stored_key: &[u8],
    server_key: &[u8],
    kept: &mut ScramRecord,
) -> u32
    ensures { Answers result (Makes ⊥ (MakesFromFields version salt.now iterations stored_key.now server_key.now)
        kept.old kept.new) }
{
    number(store(
        record_of_fields(version, salt, iterations, stored_key, server_key),
        kept,
    ))
}
