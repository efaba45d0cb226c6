//! Why a database cannot be used.

ghost use Rattle.std.specs.Prelude.{◌≡◌};
ghost use Rattle.scram_db_lib.specs.Users.{named};

use sqlite_pages::Error as PageError;
use sqlite_std_file::OpenError;
use sqlite_wal::Error as LogError;
use std::alloc::AllocError;
use std::io;
use std::io::ErrorKind;

/// Why a database cannot be used. [`DatabaseError::reason`] has the words for each.
#[derive(Debug, Clone, Copy, PartialEq, Eq)]
pub enum DatabaseError {
    Missing,
    DanglingLink,
    NotAFile,
    Locked,
    Journal,
    Unopened(ErrorKind),
    NotADatabase,
    OtherSchema,
    Damaged,
    WrongRow,
    Io,
    Full,
    OutOfMemory,
}

impl DatabaseError {
    /// Returns the reason in words.
    pub fn reason(self) -> &'static str {
        match self {
            DatabaseError::Missing => "it does not exist",
            DatabaseError::DanglingLink => "it is a link to a file that does not exist",
            DatabaseError::NotAFile => "it is not a regular file",
            DatabaseError::Locked => "another program has it open",
            DatabaseError::Journal => {
                "it has a rollback journal, of a change that is under way or was cut off: open it with sqlite3"
            }
            DatabaseError::Unopened(ErrorKind::PermissionDenied) => {
                "permission denied for it, its folder or its log"
            }
            DatabaseError::Unopened(_) => "it, its folder or its log cannot be opened",
            DatabaseError::NotADatabase => "it is not a SQLite database",
            DatabaseError::OtherSchema => "it does not have exactly the table of users",
            DatabaseError::Damaged =>
                "a page is damaged: PRAGMA integrity_check of sqlite3 shows which",
            DatabaseError::WrongRow => "the row of the user is not a record",
            DatabaseError::Io => "it cannot be read or written",
            DatabaseError::Full => "it is full",
            DatabaseError::OutOfMemory => "out of memory",
        }
    }

    /// Converts the error of an open.
    pub(crate) fn of_open(error: OpenError) -> DatabaseError {
        match error {
            OpenError::Busy => DatabaseError::Locked,
            OpenError::HotJournal => DatabaseError::Journal,
            OpenError::OutOfMemory => DatabaseError::OutOfMemory,
            OpenError::Io(error) => of_system(error),
        }
    }

    /// Converts the error of a look at files that may have no database yet.
    pub(crate) fn of_probe(error: LogError) -> DatabaseError {
        match error {
            LogError::OutOfMemory => DatabaseError::OutOfMemory,
            LogError::Io(_) => DatabaseError::Io,
            LogError::Full => DatabaseError::Full,
            _ => DatabaseError::NotADatabase,
        }
    }
}

/// Converts the error of a call on a file.
pub(crate) fn of_system(error: io::Error) -> DatabaseError {
    match error.kind() {
        ErrorKind::WouldBlock => DatabaseError::Locked,
        ErrorKind::OutOfMemory => DatabaseError::OutOfMemory,
        ErrorKind::StorageFull | ErrorKind::QuotaExceeded => DatabaseError::Full,
        kind => DatabaseError::Unopened(kind),
    }
}

/// Converts the error of a page.
pub fn of_pages(error: PageError) -> DatabaseError
    ensures { result ≡ named error }
{
    match error {
        PageError::Corrupt => DatabaseError::Damaged,
        PageError::Io => DatabaseError::Io,
        PageError::Full => DatabaseError::Full,
        PageError::OutOfMemory => DatabaseError::OutOfMemory,
    }
}

impl From<PageError> for DatabaseError {
    ghost from_gives = { λ error made. made ≡ named error };

    fn from(error: PageError) -> DatabaseError {
        of_pages(error)
    }
}

impl From<AllocError> for DatabaseError {
    ghost use Rattle.scram_db_lib.specs.declared.error.DatabaseError.TheVariants.{OutOfMemory};

    ghost from_gives = { λ _ made. made ≡ OutOfMemory };

    fn from(_error: AllocError) -> DatabaseError {
        DatabaseError::OutOfMemory
    }
}
