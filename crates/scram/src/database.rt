//! What the crates beside `scram_lib` supply: SQLite files as the databases of `--db`, which are open only while a call reads
//! or changes them, and the audit.

use fe2o3_scram::{MultiRecordStore, ScramCredentialProvider, ScramRecord, ScramVersion};
use sasl_lab_lib::sides::audit;
use scram_base_lib::backend::{Backend, Named, VERSIONS};
use scram_base_lib::lines;
use scram_base_lib::lines::UserLine;
use scram_base_lib::shown::shown;
use scram_base_lib::stop::Stop;
use scram_base_lib::store::{Change, Changed};
use scram_db_lib::error::DatabaseError;
use scram_db_lib::row::{Columns, StoredUser};
use scram_db_lib::scan::Walk;
use scram_db_lib::{file, schema, table};
use sqlite_pages::Pages;
use sqlite_pool::Pool;
use sqlite_std_file::File;
use std::alloc::Global;
use std::cell::Cell;
use std::io::{BufRead, Write};

/// SQLite files, and the audit of `sasl_lab_lib`.
#[derive(Drop)]
pub struct Supplied {
    /// Whether a row was found that is no record.
    pub has_wrong_rows: Cell<bool>,
}

/// What a look-up found.
#[derive(Drop)]
struct Found {
    /// The lines of the records.
    lines: String,
    /// For the errors: which rows are no records.
    wrong_rows: Vec<u8>,
}

impl Found {
    fn new(alloc: Global) -> Found {
        Found {
            lines: String::new(alloc),
            wrong_rows: Vec::new(alloc),
        }
    }

    /// Adds which row is no record.
    fn tell(
        &mut self,
        alloc: Global,
        path: &str,
        name: &[u8],
        mechanism: &[u8],
    ) -> Result<(), Stop> {
        let start = format!(in alloc; "scram: {path}: the row of ")?;
        self.wrong_rows.extend_from_slice(start.as_bytes())?;
        self.wrong_rows.extend_from_slice(&shown(alloc, name)?)?;
        self.wrong_rows.extend_from_slice(b" for ")?;
        self.wrong_rows
            .extend_from_slice(&shown(alloc, mechanism)?)?;
        self.wrong_rows.extend_from_slice(b" is not a record\n")?;
        Ok(())
    }

    /// Prints which rows are no records, and returns whether there are any.
    fn print(&self, rt: &HostRuntime) -> bool {
        // The command goes on or stops, whether or not that can be written.
        let _ = rt.stderr().write_all(&self.wrong_rows);
        !self.wrong_rows.is_empty()
    }

    /// Returns the lines of a user, if all rows of the user are records.
    fn user_lines(self, rt: &HostRuntime) -> Result<String, Stop> {
        if self.print(rt) {
            return Err(stop_of(DatabaseError::WrongRow));
        }
        Ok(self.lines)
    }
}

impl Backend<HostRuntime> for Supplied {
    fn lines_of(&self, rt: &HostRuntime, named: &Named<'_>) -> Result<String, Stop> {
        let (alloc, path, name, version) = (rt.alloc(), named.file, named.name, named.version);
        let found = file::read(rt, path, named.seconds(), |pages| {
            find_user(alloc, path, pages, name, version)
        });
        found.map_err(stop_of)??.user_lines(rt)
    }

    fn first_line(
        &self,
        rt: &HostRuntime,
        named: &Named<'_>,
        version: ScramVersion,
    ) -> Result<String, Stop> {
        let (alloc, path, wait) = (rt.alloc(), named.file, named.seconds());
        let found = file::read(rt, path, wait, |pages| find_first(alloc, pages, version));
        found.map_err(stop_of)?
    }

    fn lines(&self, rt: &HostRuntime, named: &Named<'_>) -> Result<String, Stop> {
        let (alloc, path, wait) = (rt.alloc(), named.file, named.seconds());
        let found = file::read(rt, path, wait, |pages| find_all(alloc, path, pages));
        let found = found.map_err(stop_of)??;
        if found.print(rt) {
            self.has_wrong_rows.set(true);
        }
        Ok(found.lines)
    }

    fn make_change<C: Change>(
        &self,
        rt: &HostRuntime,
        named: &Named<'_>,
        change: &C,
    ) -> Result<Changed, Stop> {
        let (path, wait) = (named.file, named.seconds());
        let mut pages = file::open(rt, path, wait, change.makes_files()).map_err(stop_of)?;
        let changed = apply(rt, path, &mut pages, named.name, change);
        end(rt, path, pages, changed)
    }

    fn import(&self, rt: &HostRuntime, named: &Named<'_>, lines: &str) -> Result<Vec<u8>, Stop> {
        let (path, wait) = (named.file, named.seconds());
        let mut pages = file::open(rt, path, wait, true).map_err(stop_of)?;
        let report = import_lines(rt.alloc(), &mut pages, lines);
        end(rt, path, pages, report)
    }

    fn audit<I: BufRead, O: Write>(
        &self,
        rt: &HostRuntime,
        path: &str,
        max_iterations: u32,
        input: &mut I,
        output: &mut O,
    ) -> Result<(), Stop> {
        audit(rt, path, max_iterations, input, output)
    }
}

/// Saves what was done without an error, and closes the database.
fn end<T: Drop>(
    rt: &HostRuntime,
    path: &str,
    mut pages: Pool<File>,
    done: Result<T, Stop>,
) -> Result<T, Stop> {
    let saved = match done {
        Ok(done) => file::save(&mut pages).map(|()| done).map_err(stop_of),
        Err(stop) => Err(stop),
    };
    let closed = file::close(rt, path, pages).map_err(stop_of);
    let done = saved?;
    closed?;
    Ok(done)
}

/// Adds the records of valid lines, or replaces those for the same names and mechanisms. Returns the report.
fn import_lines<P: Pages>(alloc: Global, pages: &mut P, lines: &str) -> Result<Vec<u8>, Stop> {
    let root = schema::root(alloc, pages).map_err(stop_of)?;
    let mut report = Vec::new(alloc);
    for line in lines.split_inclusive('\n') {
        let (users, parts) = (
            MultiRecordStore::parse_lines(alloc, line)?,
            UserLine::of(line),
        );
        let name = lines::unescaped(alloc, parts.name)?;
        if let Some(version) = ScramVersion::from_mechanism(parts.mechanism) {
            let replaces = put(alloc, pages, root, &name, version, &users)?;
            lines::push_report(alloc, line, replaces, &mut report)?;
        }
    }
    Ok(report)
}

/// Finds a user's records, for one mechanism or for all.
fn find_user<P: Pages>(
    alloc: Global,
    path: &str,
    pages: &mut P,
    name: &str,
    version: Option<ScramVersion>,
) -> Result<Found, Stop> {
    let root = schema::root(alloc, pages).map_err(stop_of)?;
    let mut found = Found::new(alloc);
    for known in &VERSIONS {
        if version.is_none_or(|version| version == *known) {
            let mechanism = known.mechanism().as_bytes();
            let user = table::fetch(alloc, pages, root, name.as_bytes(), mechanism);
            let is_read = match user.transpose() {
                Some(user) => push_user(alloc, name, *known, user, &mut found.lines)?,
                None => true,
            };
            if !is_read {
                found.tell(alloc, path, name.as_bytes(), mechanism)?;
            }
        }
    }
    Ok(found)
}

/// Finds all records.
fn find_all<P: Pages>(alloc: Global, path: &str, pages: &mut P) -> Result<Found, Stop> {
    let (mut walk, mut found) = (walk(alloc, pages)?, Found::new(alloc));
    for _ in 0..u64::MAX {
        if !walk.next(alloc, pages).map_err(stop_of)? {
            break;
        }
        if !push_row(alloc, &walk, &mut found.lines)? {
            found.tell(alloc, path, walk.name(), walk.mechanism())?;
        }
    }
    Ok(found)
}

/// Appends the line of a record that was read, and returns whether there is one: its salt, count and keys may be none of a
/// record's.
fn push_user(
    alloc: Global,
    name: &str,
    version: ScramVersion,
    read: Result<StoredUser, DatabaseError>,
    text: &mut String,
) -> Result<bool, Stop> {
    let user = match read {
        Ok(user) => user,
        Err(DatabaseError::WrongRow) => return Ok(false),
        Err(error) => return Err(stop_of(error)),
    };
    let record = ScramRecord::from_parts(
        version,
        user.salt,
        user.iterations,
        user.stored_key,
        user.server_key,
    );
    match valid_line(alloc, name, record) {
        Ok(line) => text.push_str(&line)?,
        Err(Stop::OutOfMemory) => return Err(Stop::OutOfMemory),
        Err(_) => return Ok(false),
    }
    Ok(true)
}

/// Returns the line of a record, if a file of lines can have it.
fn valid_line(alloc: Global, name: &str, record: ScramRecord) -> Result<String, Stop> {
    let line = lines::line_of(alloc, name, record)?;
    MultiRecordStore::parse_lines(alloc, &line)?;
    Ok(line)
}

/// Changes the rows of a user.
fn apply<P: Pages, C: Change>(
    rt: &HostRuntime,
    path: &str,
    pages: &mut P,
    name: &str,
    change: &C,
) -> Result<Changed, Stop> {
    let alloc = rt.alloc();
    let old = find_user(alloc, path, pages, name, None)?.user_lines(rt)?;
    let mut firsts = String::new(alloc);
    for version in &VERSIONS {
        if change.makes_record(&old, *version) {
            firsts.push_str(&find_first(alloc, pages, *version)?)?;
        }
    }
    let changed = change.apply(rt, &old, &firsts)?;
    let root = schema::root(alloc, pages).map_err(stop_of)?;
    let users = MultiRecordStore::parse_lines(alloc, &changed.text)?;
    for version in &VERSIONS {
        let _ = put(alloc, pages, root, name, *version, &users)?;
    }
    Ok(changed)
}

/// Finds the line of the first record for a version, in the order of the names. Passes over rows that are no records.
fn find_first<P: Pages>(
    alloc: Global,
    pages: &mut P,
    version: ScramVersion,
) -> Result<String, Stop> {
    let (mut walk, mut line) = (walk(alloc, pages)?, String::new(alloc));
    for _ in 0..u64::MAX {
        if !walk.next(alloc, pages).map_err(stop_of)? {
            break;
        }
        if walk.mechanism() == version.mechanism().as_bytes()
            && push_row(alloc, &walk, &mut line)?
        {
            break;
        }
    }
    Ok(line)
}

/// Begins a walk over all rows.
fn walk<P: Pages>(alloc: Global, pages: &mut P) -> Result<Walk, Stop> {
    let root = schema::root(alloc, pages).map_err(stop_of)?;
    Ok(Walk::new(alloc, root))
}

/// Gives a user the row of the record for a mechanism, or none if there is no record. Returns whether there was a row.
fn put<P: Pages>(
    alloc: Global,
    pages: &mut P,
    root: u32,
    name: &str,
    version: ScramVersion,
    users: &MultiRecordStore,
) -> Result<bool, Stop> {
    let mechanism = version.mechanism().as_bytes();
    let removed = table::remove(alloc, pages, root, name.as_bytes(), mechanism);
    let removed = removed.map_err(DatabaseError::from).map_err(stop_of)?;
    let Some(kept) = users.for_version(version).get_stored_password(name) else {
        return Ok(removed);
    };
    let columns = Columns {
        salt: kept.salt,
        iterations: kept.iterations,
        stored_key: kept.stored_key,
        server_key: kept.server_key,
    };
    let added = table::add(alloc, pages, root, name.as_bytes(), mechanism, &columns);
    if !added.map_err(stop_of)? {
        // The row was removed just before.
        return Err(stop_of(DatabaseError::Damaged));
    }
    Ok(removed)
}

/// Appends the line of the row of a walk, and returns whether it is a record.
fn push_row(alloc: Global, walk: &Walk, text: &mut String) -> Result<bool, Stop> {
    let (Ok(name), Ok(mechanism)) = (
        str::from_utf8(walk.name()),
        str::from_utf8(walk.mechanism()),
    ) else {
        return Ok(false);
    };
    match ScramVersion::from_mechanism(mechanism) {
        Some(version) => push_user(alloc, name, version, walk.user(alloc), text),
        None => Ok(false),
    }
}

/// Converts the error of a database.
fn stop_of(error: DatabaseError) -> Stop {
    match error {
        DatabaseError::OutOfMemory => Stop::OutOfMemory,
        error => Stop::Database(error.reason()),
    }
}
