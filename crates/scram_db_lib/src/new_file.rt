//! A new database. It is an empty file at first, which counts as none: the table is made as a change of an empty file is.

ghost use Rattle.std.specs.Prelude.{◌≡◌};
ghost use Rattle.std.specs.Fs.{permissions_mode};

use crate::error::{DatabaseError, of_system};
use sqlite_disk::Disk;
use sqlite_std_file::Unknown;
use std::fs;
use std::fs::{OpenOptions, Permissions};
use std::io::ErrorKind;
use std::os::unix::fs::{OpenOptionsExt, PermissionsExt};

/// Makes an empty file with mode 0600, unless another program is faster.
pub fn make(rt: &HostRuntime, path: &str) -> Result<(), DatabaseError> {
    let mut new = OpenOptions::new();
    new.write(true).create_new(true);
    match new.mode(private().mode()).open(rt, path) {
        Err(error) if error.kind() != ErrorKind::AlreadyExists => Err(of_system(error)),
        Err(_) if fs::metadata(rt, path).is_err() => Err(DatabaseError::DanglingLink),
        _ => Ok(()),
    }
}

/// The mode of a new database: only its owner can read and write it.
fn private() -> Permissions
    ensures { permissions_mode result ≡ 0o600 }
{
    Permissions::from_mode(0o600)
}

/// Removes the log beside an empty file under the lock of a change, as SQLite does: it is the log of another file.
pub fn remove_old_log(rt: &HostRuntime, path: &str) -> Result<(), DatabaseError> {
    let mut files = sqlite_std_file::open(rt, path, Unknown).map_err(DatabaseError::of_open)?;
    if files.db.may_be_used() && files.db.len().map_err(of_system)? == 0 {
        return remove_beside(rt, path, "wal");
    }
    Ok(())
}

/// Removes a file of SQLite's beside a database, if it is there.
pub fn remove_beside(rt: &HostRuntime, path: &str, kind: &str) -> Result<(), DatabaseError> {
    let real = fs::canonicalize(rt, path).map_err(of_system)?;
    match fs::remove_file(
        rt,
        format!(in rt.alloc(); "{}-{kind}", real.as_str())?.as_str(),
    ) {
        Err(error) if error.kind() != ErrorKind::NotFound => Err(of_system(error)),
        _ => Ok(()),
    }
}
