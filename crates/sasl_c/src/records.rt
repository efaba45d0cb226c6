//! What a server keeps of a password, as a struct.

ghost use Rattle.std.specs.Prelude.{◌≡◌, ◌≢◌, MatchOption, IfOk, IfErr, Err, Ok};
ghost use Rattle.std.specs.String.{string_bytes};
ghost use Rattle.fe2o3_scram.specs.Readings.{Gives, NoneHolds};
ghost use Rattle.fe2o3_scram.specs.Credentials.{kept, versioned};
ghost use Rattle.fe2o3_scram.specs.RecordText.{ReachesValues};
ghost use Rattle.sasl_c.specs.Status.{Answers, AnswersText, AsksText, AsksWhere, Fills, Makes};
ghost use Rattle.sasl_c.specs.Records.{RecordHasRoom, ShowsSomeRecord, ShowsRecord, record_struct, struct_making_tests, MakesRecordStruct, MakesUp, mock_tests, ParsesStruct, SpellsStruct, VerifiesPassword};
ghost use Rattle.sasl_c.specs.declared.records.ScramRecord.{ScramRecord as Struct};
ghost use Rattle.sasl_c.specs.declared.status.Status.TheVariants.{OutOfMemory as StatusOutOfMemory};

use crate::arrays::{head, padded, store, write};
use crate::passwords::password_in;
use crate::status::{
    Status, WriteError, digest_len, number, number_of, text, text_number, version_of,
};
use fe2o3_scram::{Meter, RecordTextError, ScramVersion, StoredPassword};
use std::alloc::Global;

/// What a server stores of a password: a SCRAM record (RFC 5802, section 3).
#[repr(C)]
#[derive(Drop)]
pub struct ScramRecord {
    /// The hash of the mechanism: one of enum fe2o3_scram_version.
    pub version: u32,

    /// The iteration count.
    pub iterations: u32,

    /// The number of bytes of `salt` in use, at most 128.
    pub salt_len: u32,

    /// The salt.
    pub salt: [u8; 128],

    /// The StoredKey, with as many bytes as a digest of the hash.
    pub stored_key: [u8; 64],

    /// The ServerKey, with as many bytes as a digest of the hash.
    pub server_key: [u8; 64],
}

impl ScramRecord {
    /// Returns the struct of a record, or `None` if the record does not fit.
    pub fn of(kept: &fe2o3_scram::ScramRecord) -> Option<ScramRecord>
        ensures { MatchOption result (¬ RecordHasRoom kept.now)
            (λ shown. RecordHasRoom kept.now × (shown ≡ record_struct kept.now)) }
    {
        let (version, stored) = (*kept.scram_version(), kept.as_stored_password());
        let len = digest_len(version);
        if stored.stored_key.len() != len || stored.server_key.len() != len {
            return None;
        }
        Some(ScramRecord {
            version: number_of(version),
            iterations: stored.iterations,
            salt: padded(stored.salt)?,
            salt_len: stored.salt.len() as u32,
            stored_key: padded(stored.stored_key)?,
            server_key: padded(stored.server_key)?,
        })
    }

    /// Borrows the record that the struct holds, with its version. The errors are `NoSuchVersion`, and `TooLong` for a
    /// `salt_len` above 128.
    pub fn lent(&self) -> Result<(ScramVersion, StoredPassword<'_>), Status>
        ensures ok { IfOk result (λ shown. ShowsRecord self.now (versioned shown.0 (kept shown.1))) }
        ensures err { IfErr result (λ status. SpellsStruct self.now (Err status)) }
        ensures memory { IfErr result (λ status. status ≢ StatusOutOfMemory) }
    {
        let version = version_of(self.version).ok_or(Status::NoSuchVersion)?;
        let salt = head(&self.salt, self.salt_len).ok_or(Status::TooLong)?;
        let len = digest_len(version);
        let stored = StoredPassword {
            salt,
            iterations: self.iterations,
            stored_key: &self.stored_key[..len],
            server_key: &self.server_key[..len],
        };
        Ok((version, stored))
    }

    /// Returns the record that the struct holds. The errors are `NoSuchVersion`, `TooLong` for a `salt_len` above 128,
    /// and `OutOfMemory`.
    pub fn read(&self, alloc: Global) -> Result<fe2o3_scram::ScramRecord, Status>
        ensures ok { IfOk result (λ shown. ShowsRecord self.now shown) }
        ensures err { IfErr result (λ status. status ≢ StatusOutOfMemory → SpellsStruct self.now (Err status)) }
        ensures memory { AsksWhere (ShowsSomeRecord self.now) result }
    {
        let (version, stored) = self.lent()?;
        Ok(fe2o3_scram::ScramRecord::from_parts(
            version,
            stored.salt.to_vec(alloc)?,
            stored.iterations,
            stored.stored_key.to_vec(alloc)?,
            stored.server_key.to_vec(alloc)?,
        ))
    }
}

/// Computes the record of a password, as a struct.
#[tactic(auto, using(crate::proofs::RecordLemmas::makes))]
fn compute_record(
    alloc: Global,
    version: u32,
    form: u32,
    password: &[u8],
    salt: &[u8],
    iterations: u32,
) -> Result<ScramRecord, Status>
    ensures { Gives StatusOutOfMemory (NoneHolds (struct_making_tests version form password.now salt.now iterations))
        (λ (kept : Struct). kept) result (MakesRecordStruct version form password.now salt.now iterations) }
{
    let version = version_of(version).ok_or(Status::NoSuchVersion)?;
    let password = password_in(form, password)?;
    if salt.len() > 128 {
        return Err(Status::TooLong);
    }
    let mut meter = Meter::new();
    let made = fe2o3_scram::ScramRecord::from_password(
        alloc, version, password, salt, iterations, &mut meter,
    );
    match made {
        Ok(kept) => match ScramRecord::of(&kept) {
            Some(made) => Ok(made),
            None => Err(Status::TooLong),
        },
        Err(why) => Err(Status::from(why)),
    }
}

/// Computes the record of a password. `form` is one of enum fe2o3_password_form. A client logs in with exactly the text
/// of which the record was made.
///
/// `salt` is random bytes, fresh for each record, at most 128: 16 suffice. For SCRAM-SHA-256 some clients of MongoDB
/// require 28.
///
/// The errors are, in this order: FE2O3_NO_SUCH_VERSION; FE2O3_NO_SUCH_CHOICE for another `form`; FE2O3_NOT_UTF8;
/// FE2O3_TOO_LONG for a salt of more than 128 bytes; FE2O3_NOT_PRINTABLE for a typed password that is not printable
/// ASCII; and FE2O3_ZERO_ITERATIONS.
#[unsafe(no_mangle)]
pub extern "C" fn fe2o3_scram_record_make(
    alloc: Global,
    version: u32,
    form: u32,
    password: &[u8],
    salt: &[u8],
    iterations: u32,
    kept: &mut ScramRecord,
) -> u32
    ensures { Answers result (Makes (NoneHolds (struct_making_tests version form password.now salt.now iterations))
        (MakesRecordStruct version form password.now salt.now iterations) kept.old kept.new) }
{
    number(store(
        compute_record(alloc, version, form, password, salt, iterations),
        kept,
    ))
}

/// Parses the text of a record, into a struct.
fn compute_parsed(alloc: Global, bytes: &[u8]) -> Result<ScramRecord, Status>
    ensures { Gives StatusOutOfMemory (ReachesValues bytes.now) (λ (kept : Struct). kept) result
        (ParsesStruct bytes.now) }
{
    let text = text(bytes)?;
    match fe2o3_scram::ScramRecord::parse(alloc, text) {
        Ok(kept) => match ScramRecord::of(&kept) {
            Some(made) => Ok(made),
            None => Err(Status::TooLong),
        },
        Err(RecordTextError::OutOfMemory) => Err(Status::OutOfMemory),
        Err(why) => Err(Status::NoRecord(why)),
    }
}

/// Parses the text of a record, as PostgreSQL writes it (RFC 5803, section 2).
///
/// The errors are, in this order: FE2O3_NOT_UTF8; the fault of the text, such as FE2O3_RECORD_PARTS_MISMATCH; and
/// FE2O3_TOO_LONG for a salt of more than 128 bytes.
#[unsafe(no_mangle)]
pub extern "C" fn fe2o3_scram_record_parse(
    alloc: Global,
    text: &[u8],
    kept: &mut ScramRecord,
) -> u32
    ensures { Answers result (Makes (ReachesValues text.now) (ParsesStruct text.now) kept.old kept.new) }
{
    number(store(compute_parsed(alloc, text), kept))
}

/// Returns the text of the record that a struct holds.
fn compute_text(alloc: Global, kept: &ScramRecord) -> Result<String, Status>
    ensures ok { IfOk result (λ text. SpellsStruct kept.now (Ok (string_bytes text))) }
    ensures err { IfErr result (λ status. status ≢ StatusOutOfMemory → SpellsStruct kept.now (Err status)) }
    ensures memory { AsksWhere (ShowsSomeRecord kept.now) result }
{
    let kept = kept.read(alloc)?;
    Ok(kept.to_text(alloc)?)
}

/// Writes the text of a record, as PostgreSQL reads it (RFC 5803, section 2): at most 384 bytes.
///
/// The errors are, in this order: FE2O3_NO_SUCH_VERSION, and FE2O3_TOO_LONG for a `salt_len` above 128, if the struct
/// holds no record; and FE2O3_ROOM_TOO_SMALL.
#[unsafe(no_mangle)]
#[tactic(auto, using(crate::proofs::StatusLemmas::written))]
pub extern "C" fn fe2o3_scram_record_text(
    alloc: Global,
    kept: &ScramRecord,
    out: &mut [u8],
    out_len: &mut usize,
) -> u32
    ensures { AnswersText result (λ answer. Fills (SpellsStruct kept.now) (record { bytes = out.old; len = out_len.old })
        (record { bytes = out.new; len = out_len.new }) answer × AsksText (ShowsSomeRecord kept.now) answer) }
{
    text_number(write(compute_text(alloc, kept), out, out_len))
}

/// Computes the mock record of a name, as a struct.
#[tactic(auto, using(crate::proofs::RoomLemmas::mock_has_room))]
fn compute_mock(
    alloc: Global,
    version: u32,
    secret: &[u8],
    username: &[u8],
    salt_len: usize,
    iterations: u32,
) -> Result<ScramRecord, Status>
    ensures { Gives StatusOutOfMemory (NoneHolds (mock_tests version username.now salt_len))
        (λ (kept : Struct). kept) result (MakesUp version secret.now username.now salt_len iterations) }
{
    let version = version_of(version).ok_or(Status::NoSuchVersion)?;
    let username = text(username)?;
    if salt_len > 64 {
        return Err(Status::TooLong);
    }
    let made = fe2o3_scram::ScramRecord::mock(
        alloc,
        version,
        secret,
        username,
        salt_len,
        iterations,
        &mut Meter::new(),
    );
    let Ok(kept) = made else {
        return Err(Status::OutOfMemory);
    };
    match ScramRecord::of(&kept) {
        Some(made) => Ok(made),
        None => Err(Status::TooLong),
    }
}

/// Computes a mock record for a name that the server does not know, or that has no record of this hash. The server then
/// answers unknown users like known ones. The login then fails at its proof. It is for the calls over messages:
/// `fe2o3_sasl_server_receive` makes mock records itself, by `mock_secret` of its configuration.
///
/// `secret` is 32 random bytes, one value for all names, kept as long as the records. `salt_len`, at most 64, and
/// `iterations` are those of the server's other records. An iteration count of 0 is not rejected here.
///
/// The errors are, in this order: FE2O3_NO_SUCH_VERSION; FE2O3_NOT_UTF8 for the name; and FE2O3_TOO_LONG for a
/// `salt_len` above 64.
#[unsafe(no_mangle)]
pub extern "C" fn fe2o3_scram_record_mock(
    alloc: Global,
    version: u32,
    secret: &[u8],
    username: &[u8],
    salt_len: usize,
    iterations: u32,
    kept: &mut ScramRecord,
) -> u32
    ensures { Answers result (Makes (NoneHolds (mock_tests version username.now salt_len))
        (MakesUp version secret.now username.now salt_len iterations) kept.old kept.new) }
{
    number(store(
        compute_mock(alloc, version, secret, username, salt_len, iterations),
        kept,
    ))
}

/// Compares a password with a record, without memory.
fn verify(kept: &ScramRecord, form: u32, password: &[u8]) -> Result<(), Status>
    ensures { VerifiesPassword kept.now form password.now result }
{
    let (version, stored) = kept.lent()?;
    let password = match password_in(form, password) {
        Ok(password) => password,
        Err(status) => return Err(status),
    };
    if stored.verify_password(version, password, &mut Meter::new()) {
        Ok(())
    } else {
        Err(Status::OtherPassword)
    }
}

/// Compares a password, for instance one received by PLAIN, with a record: FE2O3_OK if it is the record's,
/// FE2O3_OTHER_PASSWORD if not. `form` is one of enum fe2o3_password_form. The call hashes as often as the record's
/// iteration count says, so pass only your own records.
///
/// The errors are, in this order: FE2O3_NO_SUCH_VERSION, and FE2O3_TOO_LONG for a `salt_len` above 128, if the struct
/// holds no record; FE2O3_NO_SUCH_CHOICE for another `form`; FE2O3_NOT_UTF8; and FE2O3_OTHER_PASSWORD.
#[unsafe(no_mangle)]
pub extern "C" fn fe2o3_scram_record_verify(kept: &ScramRecord, form: u32, password: &[u8]) -> u32
    ensures { Answers result (VerifiesPassword kept.now form password.now) }
{
    number(verify(kept, form, password))
}
