//! What other crates supply to a program without databases.

use fe2o3_scram::ScramVersion;
use sasl_lab_lib::sides::audit;
use scram_base_lib::backend::{Backend, Named};
use scram_base_lib::stop::Stop;
use scram_base_lib::store::{Change, Changed};
use std::io::{BufRead, Write};
use std::rt::Files;

/// No database: each call of one returns an error.
#[derive(Clone, Copy)]
pub struct NoDatabase;

/// The error of each call.
const NONE: Stop = Stop::Database("this program has no databases");

impl<R: Files + AllocGlobal> Backend<R> for NoDatabase {
    fn lines_of(&self, _rt: &R, _at: &Named<'_>) -> Result<String, Stop> {
        Err(NONE)
    }

    fn first_line(&self, _rt: &R, _at: &Named<'_>, _of: ScramVersion) -> Result<String, Stop> {
        Err(NONE)
    }

    fn lines(&self, _rt: &R, _at: &Named<'_>) -> Result<String, Stop> {
        Err(NONE)
    }

    fn make_change<C: Change>(&self, _rt: &R, _at: &Named<'_>, _: &C) -> Result<Changed, Stop> {
        Err(NONE)
    }

    fn import(&self, _rt: &R, _at: &Named<'_>, _lines: &str) -> Result<Vec<u8>, Stop> {
        Err(NONE)
    }

    fn audit<I: BufRead, O: Write>(
        &self,
        rt: &R,
        file: &str,
        max_iterations: u32,
        input: &mut I,
        output: &mut O,
    ) -> Result<(), Stop> {
        audit(rt, file, max_iterations, input, output)
    }
}
