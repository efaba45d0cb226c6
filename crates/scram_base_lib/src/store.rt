//! Files that are read as a whole, and changed as a whole or not at all.

ghost use Rattle.std.specs.Prelude.{◌≡◌, ◌≢◌, None, Some};

use crate::stop::Stop;
use fe2o3_scram::ScramVersion;
use std::fs::{File, Metadata, OpenFile, OpenOptions, Permissions, TryLockError};
use std::io::{Error, ErrorKind, Read, Write};
use std::os::unix::fs::{MetadataExt, OpenOptionsExt, PermissionsExt, lchown};
use std::random::RandomSource;
use std::rt::{Clock, Files};
use std::time::Duration;
use std::{fs, thread};

/// The time between two looks at a change under way, in milliseconds.
const PAUSE: u64 = 100;

/// The number of pauses in a second.
const PAUSES: u64 = 10;

/// The character with which some editors begin a file, U+FEFF.
const MARK: char = '\u{feff}';

/// Files that can be locked. A lock ends with its file, and so with its process.
pub trait Locks: Files {
    /// Locks a file, unless another open file of the same inode has a lock.
    fn try_lock(&self, file: &Self::File) -> Result<(), TryLockError>;
}

impl Locks for HostRuntime {
    fn try_lock(&self, file: &File) -> Result<(), TryLockError> {
        file.try_lock()
    }
}

/// A runtime with files that can be locked, a clock and random bytes.
pub trait System: Locks + Clock + RandomSource + AllocGlobal {}

impl<R: Locks + Clock + RandomSource + AllocGlobal> System for R {}

/// The result of a change.
#[derive(Drop)]
pub struct Changed {
    /// The new lines of the user.
    pub text: String,
    /// What the change did.
    pub done: &'static str,
    /// Lines for the errors, each with its line feed.
    pub notes: String,
}

/// A change of a file's text.
pub trait Rewrite {
    /// What the change returns.
    type Done: Drop;

    /// Returns whether a missing file counts as an empty one.
    fn makes_files(&self) -> bool {
        true
    }

    /// Returns the new text.
    fn rewrite<R: RandomSource + AllocGlobal>(
        &self,
        rt: &R,
        old: &str,
    ) -> Result<(String, Self::Done), Stop>;
}

/// A change of the lines of a user.
pub trait Change {
    /// Returns whether a missing file counts as an empty one.
    fn makes_files(&self) -> bool {
        false
    }

    /// Returns whether the change makes a record for a version where a text has these lines of the user.
    fn makes_record(&self, _text: &str, _version: ScramVersion) -> bool {
        false
    }

    /// Returns the lines of the user after the change. Another text has the first record of all users for each version
    /// for which the change makes a record.
    fn apply<R: RandomSource + AllocGlobal>(
        &self,
        rt: &R,
        text: &str,
        firsts: &str,
    ) -> Result<Changed, Stop>;
}

/// A file's text, and its metadata if it exists.
type Old = (String, Option<Metadata>);

/// Reads the text of a file, which may be a pipe.
pub fn read<R: Files + AllocGlobal>(rt: &R, file: &str) -> Result<String, Stop> {
    let text = fs::read_to_string(rt, file).map_err(Stop::of_reading)?;
    unmarked(&text)?;
    Ok(text)
}

/// Returns a text that does not begin with a byte order mark.
pub(crate) fn unmarked(text: &str) -> Result<&str, Stop> {
    if text.starts_with(MARK) {
        return Err(Stop::Marked);
    }
    Ok(text)
}

/// Changes a regular file: writes the new text to a new file beside it, `FILE.new`, and renames that to the file's name.
/// A link is followed. The new file gets the owner, the group and the mode of the old one.
///
/// `FILE.new` is locked until it is renamed, and meanwhile no other process starts a change. This one waits for it for
/// this many seconds. A `FILE.new` without a lock is what a killed process left, and is removed.
///
/// After an error other than `Unsynced` the old file is unchanged.
pub fn make_change<R: System, C: Rewrite>(
    rt: &R,
    file: &str,
    wait: u32,
    change: &C,
) -> Result<C::Done, Stop> {
    let target = target_of(rt, file)?;
    test_kind(rt, &target)?;
    let folder = fs::open(rt, folder_of(&target)).map_err(Stop::of_writing)?;
    let beside = format!(in rt.alloc(); "{target}.new")?;
    let mut new = create(rt, &beside, wait)?;
    let filled = fill(rt, &target, &beside, &mut new, change);
    if filled.is_err() {
        // The first error is the one to report.
        let _ = fs::remove_file(rt, beside.as_str());
    }
    // The lock ends here, so that no other process finds a file without one at this name.
    drop(new);
    let done = filled?;
    folder
        .sync_all()
        .map_err(|error| Stop::Unsynced(error.kind()))?;
    Ok(done)
}

/// Returns the name of the file that a change of a file is made to: for a link, that of the file that it leads to.
pub fn target_of<R: Files + AllocGlobal>(rt: &R, file: &str) -> Result<String, Stop> {
    match fs::symlink_metadata(rt, file) {
        Ok(found) if found.is_symlink() => resolved(rt, file),
        Err(error) if error.kind() != ErrorKind::NotFound => Err(Stop::of_reading(error)),
        _ => Ok(file.to_string(rt.alloc())?),
    }
}

/// Returns the name of the file that a link leads to.
fn resolved<R: Files + AllocGlobal>(rt: &R, link: &str) -> Result<String, Stop> {
    match fs::canonicalize(rt, link) {
        Ok(path) => Ok(path.into_string()),
        Err(error) if error.kind() == ErrorKind::NotFound => Err(Stop::DanglingLink),
        Err(error) => Err(Stop::of_reading(error)),
    }
}

/// Checks that a file is regular or missing. This is tested before it is opened, since opening a pipe would wait for its
/// other end.
fn test_kind<R: Files>(rt: &R, target: &str) -> Result<(), Stop> {
    match fs::metadata(rt, target) {
        Ok(found) if !found.is_file() => Err(Stop::NotRegular),
        Err(error) if error.kind() != ErrorKind::NotFound => Err(Stop::of_reading(error)),
        _ => Ok(()),
    }
}

/// Returns the name of a file's folder.
fn folder_of(file: &str) -> &str {
    match file.rsplit_once('/') {
        Some(("", _)) => "/",
        Some((folder, _)) => folder,
        None => ".",
    }
}

/// Creates and locks a new file that only its owner can read and write. While another process has it, tries again for
/// this many seconds.
fn create<R: Locks + Clock>(rt: &R, beside: &str, wait: u32) -> Result<R::File, Stop> {
    for _ in 0..u64::from(wait).saturating_mul(PAUSES) {
        match create_once(rt, beside) {
            Err(Stop::Busy) => thread::sleep(rt, Duration::from_millis(PAUSE)),
            created => return created,
        }
    }
    create_once(rt, beside)
}

/// Creates and locks a new file that only its owner can read and write. What a killed process left is removed and not
/// written, since it may be another user's, or have another name too.
fn create_once<R: Locks>(rt: &R, beside: &str) -> Result<R::File, Stop> {
    if let Some(left) = left_over(rt, beside)? {
        fs::remove_file(rt, beside).map_err(of_beside)?;
        drop(left);
    }
    let mut options = OpenOptions::new();
    options.write(true).create_new(true).mode(0o600);
    let locked = lock(rt, beside, options.open(rt, beside).map_err(of_beside)?);
    if let Err(Stop::Unwritten(_)) = &locked {
        // The first error is the one to report.
        let _ = fs::remove_file(rt, beside);
    }
    locked
}

/// Opens and locks the new file of a killed process, if there is one.
fn left_over<R: Locks>(rt: &R, beside: &str) -> Result<Option<R::File>, Stop> {
    match fs::symlink_metadata(rt, beside) {
        Ok(found) if !found.is_file() => return Err(Stop::Busy),
        Err(error) if error.kind() == ErrorKind::NotFound => return Ok(None),
        found => drop(found.map_err(Stop::of_writing)?),
    }
    let mut options = OpenOptions::new();
    // NFS locks only what is open for writing.
    match options.write(true).open(rt, beside) {
        // It is that of another user, or was renamed.
        Err(error)
            if matches!(
                error.kind(),
                ErrorKind::NotFound | ErrorKind::PermissionDenied
            ) => { Err(Stop::Busy) }
        opened => Ok(Some(lock(rt, beside, opened.map_err(Stop::of_writing)?)?)),
    }
}

/// Locks an open file. While another process has it locked, or if it has lost its name, the error is `Busy`.
fn lock<R: Locks>(rt: &R, beside: &str, file: R::File) -> Result<R::File, Stop> {
    rt.try_lock(&file)
        .map_err(|error| of_beside(Error::from(error)))?;
    // The process that had the lock before may have renamed or removed the file.
    let found = file.metadata().map_err(Stop::of_writing)?;
    let named = fs::symlink_metadata(rt, beside).map_err(of_beside)?;
    if (found.dev(), found.ino()) != (named.dev(), named.ino()) {
        return Err(Stop::Busy);
    }
    Ok(file)
}

/// Converts the error of a new file.
fn of_beside(error: Error) -> Stop {
    match error.kind() {
        ErrorKind::AlreadyExists | ErrorKind::WouldBlock | ErrorKind::NotFound => Stop::Busy,
        kind => Stop::Unwritten(kind),
    }
}

/// Writes the new file, and puts it in the place of the old one.
fn fill<R: System, C: Rewrite>(
    rt: &R,
    target: &str,
    beside: &str,
    new: &mut R::File,
    change: &C,
) -> Result<C::Done, Stop> {
    let (old, metadata) = read_old(rt, target, change.makes_files())?;
    let (text, done) = change.rewrite(rt, &old)?;
    let permissions = keep_owner(rt, beside, new, &metadata)?;
    new.write_all(text.as_bytes()).map_err(Stop::of_writing)?;
    new.set_permissions(permissions).map_err(Stop::of_writing)?;
    new.sync_all().map_err(Stop::of_writing)?;
    fs::rename(rt, beside, target).map_err(Stop::of_writing)?;
    Ok(done)
}

/// Reads the old file, which has to be regular. If it is missing and `makes_files` is set, returns an empty one.
fn read_old<R: Files + AllocGlobal>(rt: &R, file: &str, makes_files: bool) -> Result<Old, Stop> {
    let mut open = match fs::open(rt, file) {
        Err(error) if makes_files && error.kind() == ErrorKind::NotFound => {
            return Ok((String::new(rt.alloc()), None));
        }
        opened => opened.map_err(Stop::of_reading)?,
    };
    let metadata = open.metadata().map_err(Stop::of_reading)?;
    if !metadata.is_file() {
        return Err(Stop::NotRegular);
    }
    if metadata.nlink() > 1 {
        return Err(Stop::HardLinks);
    }
    let len = usize::try_from(metadata.len()).unwrap_or(0);
    let mut text = String::with_capacity(rt.alloc(), len)?;
    open.read_to_string(&mut text).map_err(Stop::of_reading)?;
    unmarked(&text)?;
    Ok((text, Some(metadata)))
}

/// Gives a new file the owner and the group of the old one, and returns the old one's permissions. If there is no old
/// one, only the owner can use the new one.
fn keep_owner<R: Files>(
    rt: &R,
    beside: &str,
    new: &R::File,
    old: &Option<Metadata>,
) -> Result<Permissions, Stop> {
    let Some(old) = old else {
        return Ok(Permissions::from_mode(0o600));
    };
    let found = new.metadata().map_err(Stop::of_writing)?;
    let uid = other_id(found.uid(), old.uid());
    let gid = other_id(found.gid(), old.gid());
    if uid.is_some() || gid.is_some() {
        lchown(rt, beside, uid, gid).map_err(|error| Stop::OwnerLost(error.kind()))?;
    }
    Ok(old.permissions())
}

/// Returns an owner or a group if it is another than the one found.
fn other_id(found: u32, wanted: u32) -> Option<u32>
    ensures same { found ≡ wanted → result ≡ None }
    ensures other { found ≢ wanted → result ≡ Some wanted }
{
    if found == wanted { None } else { Some(wanted) }
}
