//! Where the records of a command are: in a file of lines or in a database.

use crate::task::Process;
use scram_base_lib::backend::{Backend, Named};
use scram_base_lib::stop::Stop;
use scram_base_lib::store::{Change, Changed, System};
use scram_base_lib::{lines, store};
use std::io::{BufRead, Write};

impl<R: System, I: BufRead, O: Write, E: Write, B: Backend<R>> Process<'_, R, I, O, E, B> {
    /// Makes a change of a user's records.
    pub(crate) fn make_change<C: Change>(
        &mut self,
        named: &Named<'_>,
        change: &C,
    ) -> Result<Changed, Stop> {
        if named.is_db {
            self.backend.make_change(self.rt, named, change)
        } else {
            lines::make_change(self.rt, named, change)
        }
    }

    /// Returns the lines of all records.
    pub(crate) fn lines(&self, named: &Named<'_>) -> Result<String, Stop> {
        if named.is_db {
            self.backend.lines(self.rt, named)
        } else {
            store::read(self.rt, named.file)
        }
    }
}
