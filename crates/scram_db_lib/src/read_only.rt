//! A database that is only read. No lock is taken and nothing is written: a look-up counts if nothing was changed meanwhile.
//!
//! A page of the file is overwritten only while the journal is hot (rollback-journal mode), or by a page that is in the log
//! already (a checkpoint). Each finished change leaves another log, or counts in the header (bytes 24 to 28), or at least
//! sets the file's time. So a read between two equal marks, both without a hot journal, is that of one state.

ghost use Rattle.std.specs.Prelude.{◌≡◌, ◌+◌, false, IsErr};
ghost use Rattle.sqlite_disk.specs.Disk.{CountsFault};
ghost use Rattle.sqlite_disk.specs.Refusal.{finds_no_room};

use crate::error::{DatabaseError, of_system};
use sqlite_disk::{Disk, Files, Memory, Tally, digest_of};
use std::alloc::Global;
use std::fs::File;
use std::io::{Error, ErrorKind, Read};
use std::os::unix::fs::{FileExt, MetadataExt};
use std::{fs, io};

/// What identifies the state of a database.
#[derive(Drop)]
pub struct Mark {
    file: FileMark,

    /// The log beside the file, which has no bytes if there is none.
    log: Vec<u8>,
}

/// What identifies the state of a file.
#[derive(PartialEq, Eq, Clone, Copy)]
struct FileMark {
    /// The first bytes of the file: SQLite's header.
    header: [u8; 100],

    /// Which file it is, and its length.
    node: [u64; 3],

    /// The time of the last write, in seconds and nanoseconds.
    written: [i64; 2],
}

/// A file that is only read, or a copy of a log. A recovery may change the copy.
#[derive(Drop)]
pub struct ReadOnly<D: Disk> {
    /// The file, or `None` for a copy.
    file: Option<File>,

    /// The copy, which has no bytes if there is a file.
    copy: D,

    /// How many calls failed that the copy did not count.
    failed: u64,
}

/// A file or a log that is open for a look-up.
pub type Reading = ReadOnly<Memory>;

impl Mark {
    /// Returns the mark of a database, and its file. The error is `Locked` if a change is seen, and `Journal` if the journal
    /// is hot: a change of SQLite's writes the file, or was cut off.
    pub fn of(rt: &HostRuntime, path: &str) -> Result<(Mark, File), DatabaseError> {
        // As in SQLite, the log is beside the file that a link leads to.
        let real = fs::canonicalize(rt, path).map_err(of_system)?;
        let file = fs::open(rt, real.as_str()).map_err(of_system)?;
        let mark = FileMark::of(&file)?;
        let log = log_beside(rt, real.as_str())?;
        if has_hot_journal(rt, real.as_str())? {
            return Err(DatabaseError::Journal);
        }
        // The file comes before the journal and the log in the first mark of a look-up, and after them in the second one.
        if FileMark::of(&file)? != mark {
            return Err(DatabaseError::Locked);
        }
        Ok((Mark { file: mark, log }, file))
    }

    /// Returns whether the database has not been changed since the mark.
    pub fn is_current(&self, rt: &HostRuntime, path: &str) -> Result<bool, DatabaseError> {
        let (now, _) = Mark::of(rt, path)?;
        Ok(self.file == now.file && self.log == now.log)
    }

    /// Returns the file to read it with a copy of the log of the mark.
    pub fn files(&self, alloc: Global, file: File) -> Result<Files<Reading>, DatabaseError> {
        let mut log = ReadOnly {
            file: None,
            copy: Memory::new(alloc),
            failed: 0,
        };
        if !log.may_be_used() {
            return Err(DatabaseError::Io);
        }
        log.write_at(0, self.log.as_slice()).map_err(of_system)?;
        let db = ReadOnly {
            file: Some(file),
            copy: Memory::new(alloc),
            failed: 0,
        };
        Ok(Files { log, db })
    }
}

impl FileMark {
    /// Returns the mark of a file.
    fn of(file: &File) -> Result<FileMark, DatabaseError> {
        let mut header = [0; 100];
        file.read_at(&mut header, 0).map_err(of_system)?;
        let found = file.metadata().map_err(of_system)?;
        Ok(FileMark {
            header,
            node: [found.dev(), found.ino(), found.len()],
            written: [found.mtime(), found.mtime_nsec()],
        })
    }
}

/// Copies the log of a file.
fn log_beside(rt: &HostRuntime, real: &str) -> Result<Vec<u8>, DatabaseError> {
    let name = format!(in rt.alloc(); "{real}-wal")?;
    let mut bytes = Vec::new(rt.alloc());
    // A log without bytes may not yet have the owner and the mode of the file.
    if fs::metadata(rt, name.as_str()).is_ok_and(|found| found.len() == 0) {
        return Ok(bytes);
    }
    if let Some(mut log) = opened(rt, name)? {
        log.read_to_end(&mut bytes).map_err(of_system)?;
    }
    Ok(bytes)
}

/// Returns whether the journal beside a file has a head. SQLite writes it before it changes pages, and removes it after.
fn has_hot_journal(rt: &HostRuntime, real: &str) -> Result<bool, DatabaseError> {
    let mut first = [0];
    if let Some(mut journal) = opened(rt, format!(in rt.alloc(); "{real}-journal")?)? {
        journal.read(&mut first).map_err(of_system)?;
    }
    Ok(first[0] != 0)
}

/// Opens a file to read it, if it is there.
fn opened(rt: &HostRuntime, name: String) -> Result<Option<File>, DatabaseError> {
    match fs::open(rt, name.as_str()) {
        Ok(file) => Ok(Some(file)),
        Err(error) if error.kind() == ErrorKind::NotFound => Ok(None),
        Err(error) => Err(of_system(error)),
    }
}

/// Counts a call that failed.
fn count<T>(failed: &mut u64, outcome: io::Result<T>) -> io::Result<T>
    ensures same { result ≡ outcome }
    ensures counted { CountsFault result failed.old failed.new }
{
    if outcome.is_err() {
        *failed = failed.saturating_add(1);
    }
    outcome
}

/// Returns the error of a change of a file that is only read.
fn unchanged(failed: &mut u64) -> io::Result<()>
    ensures faults { CountsFault result failed.old failed.new }
    ensures kind { finds_no_room result ≡ false }
    ensures error { IsErr result }
{
    *failed = failed.saturating_add(1);
    Err(Error::other("the file is only read"))
}

// No clause says what the system's file holds, so `is_clean` is false: what is proved of values is empty here, and what
// is proved of safety is not.
impl<D: Disk> Disk for ReadOnly<D> {
    ghost seen = { λ f. D.Disk.seen f.copy };

    ghost may_leave = { λ f. D.Disk.may_leave f.copy };

    ghost is_usable = { λ f. D.Disk.is_usable f.copy };

    ghost faults = { λ f. D.Disk.faults f.copy + f.failed };

    ghost tally_of = { λ f. D.Disk.tally_of f.copy };

    ghost key_of = { λ f. D.Disk.key_of f.copy };

    ghost is_clean = { λ _. false };

    ghost is_fair = { λ _ _. false };

    ghost fair_if_clean = { λ _ _ clean. clean };

    ghost seen_may_stay = { λ f. D.Disk.seen_may_stay f.copy };

    fn mixes(&self) -> bool {
        false
    }

    fn key(&self) -> u64 {
        self.copy.key()
    }

    fn tally(&self) -> Tally {
        self.copy.tally()
    }

    fn may_be_used(&self) -> bool {
        self.copy.may_be_used()
    }

    fn len(&mut self) -> io::Result<usize> {
        match &self.file {
            Some(file) => count(
                &mut self.failed,
                file.metadata().map(|found| found.len() as usize),
            ),
            None => self.copy.len(),
        }
    }

    fn read_at(&mut self, at: usize, buf: &mut [u8]) -> io::Result<()> {
        match &self.file {
            Some(file) => count(&mut self.failed, file.read_exact_at(buf, at as u64)),
            None => count(&mut self.failed, self.copy.read_at(at, buf)),
        }
    }

    fn read_checked(&mut self, key: u64, want: u64, at: usize, buf: &mut [u8]) -> io::Result<()> {
        self.read_at(at, buf)?;
        if digest_of(key, buf) == want {
            Ok(())
        } else {
            Err(ErrorKind::InvalidData.into())
        }
    }

    fn write_at(&mut self, at: usize, bytes: &[u8]) -> io::Result<()> {
        match self.file {
            Some(_) => unchanged(&mut self.failed),
            None => self.copy.write_at(at, bytes),
        }
    }

    fn set_len(&mut self, len: usize) -> io::Result<()> {
        match self.file {
            Some(_) => unchanged(&mut self.failed),
            None => self.copy.set_len(len),
        }
    }

    fn sync(&mut self) -> io::Result<()> {
        self.copy.sync()
    }
}
