//! What other crates supply to the commands: databases of users, and the audit.

use crate::stop::Stop;
use crate::store::{Change, Changed};
use fe2o3_scram::ScramVersion;
use std::io::{BufRead, Write};

/// How long a command waits for another program that changes the database, in seconds, unless its arguments say so.
const WAIT: u32 = 5;

/// The versions, in the order of the lines of a user.
pub static VERSIONS: [ScramVersion; 3] = [
    ScramVersion::Sha1,
    ScramVersion::Sha256,
    ScramVersion::Sha512,
];

/// A file of records or a database, and a user of it, for one mechanism or for all. A command of the whole file has no user:
/// the name is empty.
#[derive(Clone, Copy)]
pub struct Named<'a> {
    pub file: &'a str,
    /// Whether the file is a database.
    pub is_db: bool,
    /// The user name, not escaped.
    pub name: &'a str,
    /// The mechanism, or `None` for those of the command: of `add` the two that servers offer by default, otherwise all.
    pub version: Option<ScramVersion>,
    /// How long to wait for another program, in seconds, or `None` for the default.
    pub wait: Option<u32>,
}

impl Named<'_> {
    /// Returns how long to wait for another program that changes the file, in seconds.
    pub fn seconds(&self) -> u32 {
        self.wait.unwrap_or(if self.is_db { WAIT } else { 0 })
    }
}

/// Databases of users, and the audit. The records of a database are read and changed as the lines of a file of records. No
/// call keeps it open. Each waits for [`Named::seconds`] while another program changes it.
pub trait Backend<R> {
    /// Returns the lines of the user's records.
    fn lines_of(&self, rt: &R, named: &Named<'_>) -> Result<String, Stop>;

    /// Returns the line of the first record for a mechanism, in the order of the names, or an empty text if there is none.
    fn first_line(&self, rt: &R, named: &Named<'_>, version: ScramVersion) -> Result<String, Stop>;

    /// Returns the lines of all records.
    fn lines(&self, rt: &R, named: &Named<'_>) -> Result<String, Stop>;

    /// Changes the lines of the user's records, all of them or none. The text of the result has the user's lines.
    fn make_change<C: Change>(
        &self,
        rt: &R,
        named: &Named<'_>,
        change: &C,
    ) -> Result<Changed, Stop>;

    /// Adds the records of these lines, or replaces those for the same names and mechanisms, all of them or none. Returns a
    /// line for each, of [`push_report`](crate::lines::push_report).
    fn import(&self, rt: &R, named: &Named<'_>, lines: &str) -> Result<Vec<u8>, Stop>;

    /// Audits both sides of a login against a file of users, for a client that accepts this many iterations.
    fn audit<I: BufRead, O: Write>(
        &self,
        rt: &R,
        file: &str,
        max_iterations: u32,
        input: &mut I,
        output: &mut O,
    ) -> Result<(), Stop>;
}
