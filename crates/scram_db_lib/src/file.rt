//! The file of a database, at the edge of a program.

ghost use Rattle.std.specs.Prelude.{◌≡◌, ◌+◌, ◌%◌, ◌^◌, IsTrue, IfOk, OnOk};
ghost use Rattle.sqlite_format.specs.Bytes.{u16_at, u32_at};
ghost use Rattle.sqlite_disk.specs.Disk.{Only};
ghost use Rattle.sqlite_pool.specs.Opening.{AreUsable};
ghost use Rattle.sqlite_pool.specs.Pool.{state, usable};
ghost use Rattle.sqlite_pool.specs.File.{SameButHeader, in_use};

use crate::error::{DatabaseError, of_pages, of_system};
use crate::read_only::{Mark, Reading};
use crate::{new_file, schema};
use sqlite_disk::{Disk, Files};
use sqlite_format::bytes::{get_u32, put_u16, put_u32};
use sqlite_pager::{Options, Pager};
use sqlite_pages::Error;
use sqlite_pool::{Pool, probe_blank};
use sqlite_std_file::{File, Unknown};
use sqlite_wal::{PageSize, probe_page_size};
use std::alloc::Global;
use std::hash::{BuildHasher, RandomState};
use std::io::ErrorKind;
use std::time::{Duration, Instant};
use std::{fs, thread};

/// The time between two tries to open a file that another program has open, in milliseconds.
const PAUSE: u64 = 10;

/// The number of pauses in a second.
const PAUSES: u64 = 100;

/// The number of pages that are kept in memory.
const CACHE: usize = 64;

/// The page size of a new file, in bytes.
const NEW_PAGE: usize = 4096;

/// Reads a database without a lock, and returns what `look_up` returns of its pages. Other programs can read and change it
/// meanwhile: if it was changed, or a change is under way, `look_up` is called again, for this many seconds. Needs no right
/// to write the file or its folder.
pub fn read<T: Drop, F: Fn(&mut Pool<Reading>) -> T>(
    rt: &HostRuntime,
    path: &str,
    wait: u32,
    look_up: F,
) -> Result<T, DatabaseError>
    requires { F.IsAlwaysCallable look_up }
{
    let (begun, wait) = (
        Instant::now(rt).map_err(of_system)?,
        Duration::from_secs(u64::from(wait)),
    );
    for _ in 0..u64::MAX {
        match read_once(rt, path, &look_up) {
            Err(DatabaseError::Locked | DatabaseError::Journal)
                if begun.elapsed(rt).map_err(of_system)? < wait => {
                pause(rt);
            }
            answer => return answer,
        }
    }
    Err(DatabaseError::Locked)
}

/// Reads a database once. If it was changed meanwhile the error is `Locked`.
fn read_once<T: Drop, F: Fn(&mut Pool<Reading>) -> T>(
    rt: &HostRuntime,
    path: &str,
    look_up: &F,
) -> Result<T, DatabaseError>
    requires { F.IsAlwaysCallable look_up.now }
{
    if is_empty_file(rt, path)? {
        return Err(DatabaseError::Missing);
    }
    let (mark, file) = Mark::of(rt, path)?;
    let files = mark.files(rt.alloc(), file)?;
    let answer = match whole(rt.alloc(), files, options(rt)?, false) {
        Ok(mut pages) => Ok(look_up(&mut pages)),
        Err(error) => Err(error),
    };
    if mark.is_current(rt, path)? {
        answer
    } else {
        Err(DatabaseError::Locked)
    }
}

/// Opens a database to change it. While another program has it open, tries again for this many seconds. The file is
/// locked until the result is dropped: `sqlite3` finds it locked too. Completes what a change that was killed left. If
/// `makes` is set, a missing file is made with mode 0600, and a file without a table gets the table of users, with its
/// owner and mode unchanged. Otherwise both are `Missing`. Pass the result to [`close`].
pub fn open(
    rt: &HostRuntime,
    path: &str,
    wait: u32,
    makes: bool,
) -> Result<Pool<File>, DatabaseError> {
    for _ in 0..u64::from(wait).saturating_mul(PAUSES) {
        match open_once(rt, path, makes) {
            Err(DatabaseError::Locked) => pause(rt),
            opened => return opened,
        }
    }
    open_once(rt, path, makes)
}

/// Opens a database to change it. If `makes` is set, makes a missing file first.
fn open_once(rt: &HostRuntime, path: &str, makes: bool) -> Result<Pool<File>, DatabaseError> {
    match is_empty_file(rt, path) {
        Ok(false) => {}
        Ok(true) if makes => new_file::remove_old_log(rt, path)?,
        Err(DatabaseError::Missing) if makes => {
            new_file::make(rt, path)?;
            new_file::remove_old_log(rt, path)?;
        }
        Ok(true) => return Err(DatabaseError::Missing),
        Err(error) => return Err(error),
    }
    match sqlite_std_file::open(rt, path, Unknown) {
        Ok(files) => whole(rt.alloc(), files, options(rt)?, makes),
        Err(error) => Err(DatabaseError::of_open(error)),
    }
}

/// Returns whether a file has no bytes. Anything else than a file is an error.
fn is_empty_file(rt: &HostRuntime, path: &str) -> Result<bool, DatabaseError> {
    match fs::metadata(rt, path) {
        Ok(found) if found.is_file() => Ok(found.len() == 0),
        Ok(_) => Err(DatabaseError::NotAFile),
        Err(error) if error.kind() == ErrorKind::NotFound => Err(DatabaseError::Missing),
        Err(error) => Err(of_system(error)),
    }
}

/// Waits until the next try.
fn pause(rt: &HostRuntime) {
    thread::sleep(rt, Duration::from_millis(PAUSE));
}

/// Recovers the database of files that are locked. If there is no table yet and `makes` is set, makes the table of users.
fn whole<D: Disk + Drop>(
    alloc: Global,
    files: Files<D>,
    options: Options,
    makes: bool,
) -> Result<Pool<D>, DatabaseError> {
    if !files.may_be_used() {
        return Err(DatabaseError::Io);
    }
    let mut pool = opened(alloc, files, options, makes)?;
    if schema::is_empty(alloc, &mut pool)? {
        if !makes {
            return Err(DatabaseError::Missing);
        }
        fill(alloc, &mut pool)?;
    }
    Ok(pool)
}

/// Recovers the database of files: its header and its free list are checked, and no table. Where there is none yet, or
/// where a crash left a part of its first page, makes one without a table if `makes` is set.
fn opened<D: Disk + Drop>(
    alloc: Global,
    mut files: Files<D>,
    options: Options,
    makes: bool,
) -> Result<Pool<D>, DatabaseError>
    requires log { IsTrue (D.Disk.is_usable files.log) }
    requires db { IsTrue (D.Disk.is_usable files.db) }
{
    let Some(new) = PageSize::new(NEW_PAGE) else {
        return Err(DatabaseError::NotADatabase);
    };
    let is_blank = match probe_blank(alloc, &mut files, new, false) {
        Ok(is_blank) => is_blank,
        Err(error) => return Err(DatabaseError::of_probe(error)),
    };
    if is_blank && !makes {
        return Err(DatabaseError::Missing);
    }
    let size = match probe_page_size(&mut files) {
        _ if is_blank => new,
        Ok(Some(size)) => size,
        Ok(None) => return Err(DatabaseError::NotADatabase),
        Err(_) => return Err(DatabaseError::Io),
    };
    let mut pool = pool(alloc, files, size, options)?;
    let opened = if is_blank {
        pool.create()
    } else {
        pool.recover(false)
    };
    match opened {
        Ok(()) => Ok(pool),
        Err(Error::Corrupt) => Err(DatabaseError::NotADatabase),
        Err(error) => Err(of_pages(error)),
    }
}

/// Returns the options of the pager, with a random number for the log.
fn options(rt: &HostRuntime) -> Result<Options, DatabaseError> {
    let state = RandomState::new(rt).map_err(of_system)?;
    let mut options = Options::new(state.hash_one(&0u8));
    // A look-up reads a few pages, and the memory for them is cleared at each open.
    options.cache_pages = CACHE;
    Ok(options)
}

/// Makes the table of users in a database without a table. A crash leaves the whole table or none.
fn fill<D: Disk>(alloc: Global, pool: &mut Pool<D>) -> Result<(), DatabaseError> {
    schema::make(alloc, pool)?;
    let cookie = pool.stored_cookie();
    pool.set_cookie(cookie.wrapping_add(1));
    save(pool)
}

/// Makes a change durable: a crash leaves all of it or none. Then the log is copied into the file.
pub fn save<D: Disk>(pool: &mut Pool<D>) -> Result<(), DatabaseError>
    ensures { IsTrue (state pool.new).is_open → IsTrue (state pool.new).is_clean → OnOk result
        (SameButHeader (usable pool.old) (in_use (state pool.new).page_size (state pool.new).committed)) }
{
    pool.commit()?;
    pool.checkpoint()?;
    Ok(())
}

/// Closes a database: drops what is not saved, copies the log into the file and removes it, and states that there is none.
/// In a file with a log an idle `sqlite3` keeps a lock, and in one without it does not.
pub fn close(rt: &HostRuntime, path: &str, mut pool: Pool<File>) -> Result<(), DatabaseError> {
    pool.rollback();
    pool.checkpoint()?;
    let mut files = pool.close();
    state_no_log(&mut files.db)?;
    new_file::remove_beside(rt, path, "wal")?;
    new_file::remove_beside(rt, path, "shm")
}

/// Writes to the header that the file has no log, and counts the change, as SQLite does in rollback-journal mode.
fn state_no_log<D: Disk>(db: &mut D) -> Result<(), DatabaseError>
    ensures { OnOk result ((u16_at (D.Disk.seen db.new) 18 ≡ 0x0101) × Only (D.Disk.seen db.new) (D.Disk.may_leave db.new)) }
{
    if !db.may_be_used() {
        return Err(DatabaseError::Io);
    }
    let mut header = [0; 78];
    db.read_at(18, &mut header).map_err(of_system)?;
    count_change(&mut header);
    // One write, since a header whose two counters differ is not valid.
    db.write_at(18, &header).map_err(of_system)?;
    db.sync().map_err(of_system)
}

/// Changes bytes 18 to 96 of a header: there is no log, and both counters are one higher (fileformat2.html, section 1.3).
#[tactic(auto, using(sqlite_pool::proofs::HeaderLemmas::u32_outside))]
fn count_change(header: &mut [u8; 78])
    ensures log { u16_at header.new 0 ≡ 0x0101 }
    ensures counter { u32_at header.new 6 ≡ (u32_at header.old 6 + 1) % 2 ^ 32 }
    ensures valid { u32_at header.new 74 ≡ u32_at header.new 6 }
{
    let counter = get_u32(header, 6).wrapping_add(1);
    put_u32(header, 6, counter);
    put_u32(header, 74, counter);
    put_u16(header, 0, 0x0101);
}

/// Returns the pages of the files, which are not read yet.
fn pool<D: Disk + Drop>(
    alloc: Global,
    files: Files<D>,
    size: PageSize,
    options: Options,
) -> Result<Pool<D>, DatabaseError>
    requires log { IsTrue (D.Disk.is_usable files.log) }
    requires db { IsTrue (D.Disk.is_usable files.db) }
    ensures { IfOk result AreUsable }
{
    let Ok(pager) = Pager::new(alloc, files, size, options) else {
        return Err(DatabaseError::OutOfMemory);
    };
    match Pool::new(alloc, pager, false) {
        Ok(pool) => Ok(pool),
        Err(_) => Err(DatabaseError::OutOfMemory),
    }
}
