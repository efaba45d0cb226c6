//! Reads and writes the text of a record (RFC 5803, section 2).

ghost use Rattle.std.specs.Prelude.{◌≡◌, ◌≢◌, ◌⊎◌, ◌↔◌, IsTrue, ℕ, List, length, IfOk, IfErr, MatchOption, string_bytes};
ghost use Rattle.fe2o3_scram.specs.Credentials.{VersionedRecord, kept};
ghost use Rattle.fe2o3_scram.specs.Hmac.{digest_len, mechanism_name};
ghost use Rattle.fe2o3_scram.specs.Readings.{Gives, IsFirst, NoneHolds};
ghost use Rattle.fe2o3_scram.specs.RecordText.{ArePlain, Fields, HasFields, NamesRecord, Plain, ReachesValues, ReadsRecord, fields_values, head_tests, record_text as text_of_record, value_tests};
ghost use Rattle.fe2o3_scram.specs.Texts.{IsBase64, IsPlainCount};
ghost use Rattle.fe2o3_scram.specs.declared.credentials.record_text.RecordTextError.TheVariants.{OutOfMemory as OutOfMemoryError};

use crate::OutOfMemory;
use crate::credentials::scram_record::ScramRecord;
use crate::hmac::ScramVersion;
use crate::provider::StoredPassword;
use crate::secrets::SecretBytes;
use crate::texts::{base64_len, bytes_of, cut, plain_count_of, push_base64};
use std::alloc::{AllocError, Global};
use thiserror::Error;

/// The length of the separators and of the longest count.
const FIXED_LEN: usize = 14;

/// Why a text is not a record.
#[derive(Debug, Clone, Copy, PartialEq, Eq, Error)]
pub enum RecordTextError {
    /// The text does not have five fields: parts are missing or left over.
    #[error("The record does not have five fields")]
    PartsMismatch,

    /// The first field is not the name of a known mechanism.
    #[error("Unknown SCRAM mechanism")]
    UnknownMechanism,

    /// The second field is not a number from 1 to 4294967295 in decimal without a sign or leading zeros.
    #[error("Cannot parse iteration count")]
    IterationCountParseError,

    /// The salt or a key is not base64.
    #[error("Invalid base64")]
    Base64DecodeError,

    /// A key is not as long as a digest of the mechanism.
    #[error("Key length mismatch")]
    KeyLengthMismatch,

    /// An allocation failed.
    #[error("Out of memory")]
    OutOfMemory,
}

impl From<AllocError> for RecordTextError {
    ghost from_gives = { λ _ error. error ≡ OutOfMemoryError };

    fn from(_error: AllocError) -> Self {
        RecordTextError::OutOfMemory
    }
}

/// The fields of a record's text, still encoded.
#[derive(Drop)]
pub(crate) struct RecordFields<'a> {
    mechanism: &'a str,
    iterations: &'a str,
    salt: &'a str,
    stored_key: &'a str,
    server_key: &'a str,
}

impl ScramRecord {
    /// Reads the text of a record (RFC 5803, section 2), which has one spelling: the name of the mechanism, a dollar
    /// sign, the count in decimal, a colon, the salt, a dollar sign, the stored key, a colon and the server key. Salt
    /// and keys are base64, and there are no spaces.
    ///
    /// The errors are, in this order:
    /// - `PartsMismatch` if the text does not have these five fields;
    /// - `UnknownMechanism`;
    /// - `IterationCountParseError`, also for a count of 0 or with a sign or a leading zero;
    /// - `Base64DecodeError` for the salt, the stored key or the server key;
    /// - `KeyLengthMismatch` if a key is not as long as a digest.
    ///
    /// `OutOfMemory` is returned only if none of the first three applies.
    pub fn parse(alloc: Global, text: &str) -> Result<Self, RecordTextError>
        ensures { Gives RecordTextError.OutOfMemory (ReachesValues text.now) (λ (read : VersionedRecord). read) result
            (ReadsRecord text.now) }
    {
        let Some(fields) = fields_of(text) else {
            return Err(RecordTextError::PartsMismatch);
        };
        let (scram_version, iterations) = read_head(&fields)?;
        read_values(alloc, &fields, scram_version, iterations)
    }

    /// Writes the record's one text (RFC 5803, section 2). `parse` reads it again if the count is not 0 and the keys
    /// are as long as a digest, like those of a password.
    ///
    /// The only error is `OutOfMemory`.
    pub fn to_text(&self, alloc: Global) -> Result<String, OutOfMemory>
        ensures { IfOk result (λ text. string_bytes text ≡ text_of_record self.now) }
    {
        record_text(alloc, *self.scram_version(), &self.as_stored_password())
    }
}

/// Writes the text of a record of this version.
pub(crate) fn record_text(
    alloc: Global,
    scram_version: ScramVersion,
    stored_password: &StoredPassword<'_>,
) -> Result<String, OutOfMemory>
    ensures { IfOk result (λ text. string_bytes text
        ≡ text_of_record (record { version = scram_version; stored = kept stored_password.now })) }
{
    let mechanism = scram_version.mechanism();
    let room = mechanism
        .len()
        .saturating_add(FIXED_LEN)
        .saturating_add(base64_len(stored_password.salt.len()))
        .saturating_add(base64_len(stored_password.stored_key.len()))
        .saturating_add(base64_len(stored_password.server_key.len()));
    let mut text = String::with_capacity(alloc, room)?;
    text.push_str(mechanism)?;
    text.push_str("$")?;
    text.write(stored_password.iterations)?;
    text.push_str(":")?;
    push_base64(&mut text, stored_password.salt)?;
    text.push_str("$")?;
    push_base64(&mut text, stored_password.stored_key)?;
    text.push_str(":")?;
    push_base64(&mut text, stored_password.server_key)?;
    Ok(text)
}

/// Returns the five fields of the text, split at the separators.
fn fields_of(text: &str) -> Option<RecordFields<'_>>
    ensures { MatchOption result ((fields : Fields) → ¬ HasFields text.now fields)
        (λ fields. HasFields text.now (fields_values fields)) }
{
    let Some((mechanism, behind_mechanism)) = cut(text, '$') else {
        return None;
    };
    let Some((iterations, behind_iterations)) = cut(behind_mechanism, ':') else {
        return None;
    };
    let Some((salt, behind_salt)) = cut(behind_iterations, '$') else {
        return None;
    };
    let Some((stored_key, server_key)) = cut(behind_salt, ':') else {
        return None;
    };
    let fields = RecordFields {
        mechanism,
        iterations,
        salt,
        stored_key,
        server_key,
    };
    if !fields.are_plain() {
        return None;
    }
    Some(fields)
}

impl RecordFields<'_> {
    /// Returns whether no field has a separator.
    fn are_plain(&self) -> bool
        ensures { IsTrue result ↔ ArePlain (fields_values self.now) }
    {
        is_plain(self.mechanism)
            && is_plain(self.iterations)
            && is_plain(self.salt)
            && is_plain(self.stored_key)
            && is_plain(self.server_key)
    }
}

/// Returns whether the text has no separator.
#[tactic(auto, using(crate::proofs::lemmas::texts::CutLemmas::cuts))]
fn is_plain(text: &str) -> bool
    ensures { IsTrue result ↔ Plain text.now }
{
    cut(text, '$').is_none() && cut(text, ':').is_none()
}

/// Returns the version and the count that the fields name.
fn read_head(fields: &RecordFields<'_>) -> Result<(ScramVersion, u32), RecordTextError>
    ensures tested { IfOk result (λ _. NoneHolds (head_tests (fields_values fields.now))) }
    ensures version { IfOk result (λ head. mechanism_name head.0 ≡ (fields_values fields.now).mechanism) }
    ensures count { IfOk result (λ head. IsPlainCount (fields_values fields.now).count head.1) }
    ensures err { IfErr result (IsFirst (head_tests (fields_values fields.now))) }
{
    let Some(scram_version) = ScramVersion::from_mechanism(fields.mechanism) else {
        return Err(RecordTextError::UnknownMechanism);
    };
    let Some(iterations) = plain_count_of(fields.iterations) else {
        return Err(RecordTextError::IterationCountParseError);
    };
    Ok((scram_version, iterations))
}

/// Returns the bytes that a field encodes.
fn bytes_in(alloc: Global, field: &str) -> Result<Vec<u8>, RecordTextError>
    ensures ok { IfOk result (λ bytes. IsBase64 field.now bytes.items) }
    ensures err { IfErr result (λ error. (error ≡ RecordTextError.OutOfMemory)
        ⊎ ((error ≡ RecordTextError.Base64DecodeError) × ((bytes : List ℕ) → ¬ IsBase64 field.now bytes))) }
{
    match bytes_of(alloc, field)? {
        Some(bytes) => Ok(bytes),
        None => Err(RecordTextError::Base64DecodeError),
    }
}

/// Returns the key that a field encodes.
fn key_in(alloc: Global, field: &str) -> Result<SecretBytes, RecordTextError>
    ensures ok { IfOk result (λ key. IsBase64 field.now key) }
    ensures err { IfErr result (λ error. (error ≡ RecordTextError.OutOfMemory)
        ⊎ ((error ≡ RecordTextError.Base64DecodeError) × ((bytes : List ℕ) → ¬ IsBase64 field.now bytes))) }
{
    Ok(SecretBytes::new(bytes_in(alloc, field)?))
}

/// Returns whether the key is as long as a digest of the version.
fn is_sized(key: &[u8], scram_version: ScramVersion) -> bool
    ensures { IsTrue result ↔ (length key.now ≡ digest_len scram_version) }
{
    key.len() == scram_version.digest_len()
}

/// Returns the record of fields that name this version and this count.
#[tactic(auto, using(crate::proofs::lemmas::messages::RecordTextLemmas::keys))]
fn read_values(
    alloc: Global,
    fields: &RecordFields<'_>,
    scram_version: ScramVersion,
    iterations: u32,
) -> Result<ScramRecord, RecordTextError>
    requires version { mechanism_name scram_version ≡ (fields_values fields.now).mechanism }
    requires count { IsPlainCount (fields_values fields.now).count iterations }
    ensures tested { IfOk result (λ _. NoneHolds (value_tests (fields_values fields.now))) }
    ensures named { IfOk result (λ read. NamesRecord (fields_values fields.now) read) }
    ensures err { IfErr result (λ error. error ≢ RecordTextError.OutOfMemory
        → IsFirst (value_tests (fields_values fields.now)) error) }
{
    let salt = bytes_in(alloc, fields.salt)?;
    let stored_key = key_in(alloc, fields.stored_key)?;
    let server_key = key_in(alloc, fields.server_key)?;
    if !is_sized(stored_key.as_slice(), scram_version) {
        return Err(RecordTextError::KeyLengthMismatch);
    }
    if !is_sized(server_key.as_slice(), scram_version) {
        return Err(RecordTextError::KeyLengthMismatch);
    }
    Ok(ScramRecord::of_keys(scram_version, salt, iterations, stored_key, server_key))
}
