//! The secret of mock authentication: 32 random bytes in a file beside the records, with which servers answer unknown
//! users like known ones. The file outlives each server: a new secret changes the salts of unknown users, and known
//! users keep theirs.
#![tactic(auto)]

ghost use Rattle.std.specs.Prelude.{◌≡◌, ◌++◌, IfOk, MatchResult, codes, length, string_bytes};
ghost use Rattle.std.specs.Fs.{permissions_mode};
ghost use Rattle.mock_secret.specs.Secrets.{HoldsSecret, IsAllOf, IsFirstFault, IsRead};

use std::alloc::{AllocError, Global};
use std::fs;
use std::fs::{Metadata, OpenFile, OpenOptions, Permissions};
use std::io::{Error, ErrorKind, Read, Write};
use std::os::unix::fs::{OpenOptionsExt, PermissionsExt};
use std::random::RandomSource;
use std::rt::Files;
use thiserror::Error;

/// The length of a secret, in bytes.
const LEN: usize = 32;

/// Why the secret cannot be used.
#[derive(Debug, Clone, Copy, PartialEq, Eq, Error)]
pub enum SecretError {
    /// The file is a folder, a pipe or a device.
    #[error("it is not a regular file")]
    NotRegular,

    /// The file's mode gives access to its group or to others.
    #[error("its mode gives access to its group or to others")]
    NotPrivate,

    /// The file is shorter or longer than a secret.
    #[error("it does not have exactly 32 bytes")]
    WrongLength,

    /// The file cannot be read.
    #[error("it cannot be read: {0}")]
    Unreadable(ErrorKind),

    /// There is no file, and it cannot be made.
    #[error("it cannot be made: {0}")]
    Unwritten(ErrorKind),

    /// There is no file, and the system did not return random bytes.
    #[error("it cannot be made: the system did not return random bytes: {0}")]
    Random(ErrorKind),

    /// Out of memory.
    #[error("out of memory")]
    OutOfMemory,
}

impl SecretError {
    /// Converts the error of a read.
    fn of_reading(error: Error) -> SecretError {
        match error.kind() {
            ErrorKind::OutOfMemory => SecretError::OutOfMemory,
            kind => SecretError::Unreadable(kind),
        }
    }

    /// Converts the error of a write.
    fn of_writing(error: Error) -> SecretError {
        SecretError::Unwritten(error.kind())
    }

    /// Converts the error of the random source.
    fn of_random(error: Error) -> SecretError {
        SecretError::Random(error.kind())
    }
}

impl From<AllocError> for SecretError {
    fn from(_error: AllocError) -> SecretError {
        SecretError::OutOfMemory
    }
}

/// Returns the name of the secret's file: the name of the records' file with `.secret` at its end.
pub fn file_of(alloc: Global, records: &str) -> Result<String, AllocError>
    ensures { IfOk result (λ file. string_bytes file ≡ records.now ++ codes ".secret") }
{
    let mut file = String::from_str(alloc, records)?;
    file.push_str(".secret")?;
    Ok(file)
}

/// Reads the secret of a file of records. If there is none yet, makes it with mode 0600. Processes that start at the
/// same time get the same secret.
pub fn secret_of<R: Files + RandomSource + AllocGlobal>(
    rt: &R,
    records: &str,
) -> Result<Vec<u8>, SecretError>
    ensures { IfOk result (λ secret. IsRead R.File.remaining secret.items) }
{
    let file = file_of(rt.alloc(), records)?;
    match read(rt, &file) {
        Err(SecretError::Unreadable(ErrorKind::NotFound)) => {
            make(rt, &file)?;
            read(rt, &file)
        }
        read => read,
    }
}

/// Reads the secret of a file.
fn read<R: Files + AllocGlobal>(rt: &R, file: &str) -> Result<Vec<u8>, SecretError>
    ensures { IfOk result (λ secret. IsRead R.File.remaining secret.items) }
{
    // This test is first because opening a pipe would wait for its other end.
    let metadata = fs::metadata(rt, file).map_err(SecretError::of_reading)?;
    if !metadata.is_file() {
        return Err(SecretError::NotRegular);
    }
    let mut open = fs::open(rt, file).map_err(SecretError::of_reading)?;
    read_open(rt.alloc(), &mut open)
}

/// Reads the secret of an open file.
fn read_open<F: Read + OpenFile>(alloc: Global, file: &mut F) -> Result<Vec<u8>, SecretError>
    ensures { IfOk result (λ secret. IsAllOf (F.remaining file.old) secret.items) }
{
    let metadata = file.metadata().map_err(SecretError::of_reading)?;
    let mut secret = Vec::new(alloc);
    file.take(LEN as u64 + 1)
        .read_to_end(&mut secret)
        .map_err(SecretError::of_reading)?;
    tested(&metadata, secret)
}

/// Returns the bytes of a file, if they are a secret by the file's metadata and their number. Checks, in this order, that
/// the file is regular, that its mode gives no access to its group and to others, and that there are 32 bytes.
fn tested(metadata: &Metadata, bytes: Vec<u8>) -> Result<Vec<u8>, SecretError>
    ensures { MatchResult result
        (λ secret. (secret.items ≡ bytes.items) × HoldsSecret metadata.now (length bytes.items))
        (IsFirstFault metadata.now (length bytes.items)) }
{
    if !metadata.is_file() {
        return Err(SecretError::NotRegular);
    }
    if metadata.permissions().mode() % 0o100 != 0 {
        return Err(SecretError::NotPrivate);
    }
    if bytes.len() != LEN {
        return Err(SecretError::WrongLength);
    }
    Ok(bytes)
}

/// Makes the file of a secret, unless another process is faster. Writes the secret under a name that no other process
/// uses, and then gives that file its second name, which never replaces a file.
fn make<R: Files + RandomSource + AllocGlobal>(rt: &R, file: &str) -> Result<(), SecretError> {
    let beside = name_beside(rt, file)?;
    let mut new = create(rt, &beside)?;
    let written = fill(rt, &mut new);
    drop(new);
    let linked = match written {
        Ok(()) => link(rt, &beside, file),
        Err(error) => Err(error),
    };
    // If this fails, a second name of the secret or an unused file is left.
    let _ = fs::remove_file(rt, beside.as_str());
    linked
}

/// Returns the name of a new file: that of the secret's file, with random digits at its end.
fn name_beside<R: RandomSource + AllocGlobal>(rt: &R, file: &str) -> Result<String, SecretError> {
    let mut bytes = [0; 8];
    rt.fill_bytes(&mut bytes).map_err(SecretError::of_random)?;
    let digits = u64::from_le_bytes(bytes);
    Ok(format!(in rt.alloc(); "{file}.{digits:016x}")?)
}

/// Creates a new file that only its owner can read and write.
fn create<R: Files>(rt: &R, beside: &str) -> Result<R::File, SecretError> {
    let mut options = OpenOptions::new();
    options.write(true).create_new(true).mode(private().mode());
    options.open(rt, beside).map_err(SecretError::of_writing)
}

/// The mode of the file: only its owner can read and write it.
fn private() -> Permissions
    ensures { permissions_mode result ≡ 0o600 }
{
    Permissions::from_mode(0o600)
}

/// Writes a secret to a new file, and syncs it to the disk.
fn fill<R: RandomSource, F: Write + OpenFile>(rt: &R, new: &mut F) -> Result<(), SecretError> {
    let mut secret = [0; LEN];
    rt.fill_bytes(&mut secret).map_err(SecretError::of_random)?;
    new.set_permissions(private())
        .map_err(SecretError::of_writing)?;
    new.write_all(&secret).map_err(SecretError::of_writing)?;
    new.sync_all().map_err(SecretError::of_writing)
}

/// Gives a file its second name, unless a file has that name already.
fn link<R: Files>(rt: &R, beside: &str, file: &str) -> Result<(), SecretError> {
    match fs::hard_link(rt, beside, file) {
        Err(error) if error.kind() != ErrorKind::AlreadyExists => {
            Err(SecretError::of_writing(error))
        }
        _ => Ok(()),
    }
}
