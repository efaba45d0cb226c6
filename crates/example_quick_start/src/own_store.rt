//! A broker that logs its users in from a store of its own: each record as PostgreSQL 15 writes it,
//! and what the user may do beside it.

mod accounts;
mod broker;

use self::broker::{Broker, log_in};
use crate::login::fresh;
use anyhow::Result;
use std::alloc::Global;
use std::io::Write;
use std::random::RandomSource;

/// Names and passwords that are tried.
static TRIES: [(&str, &str); 4] = [
    ("user", "pencil"),
    ("smith, john", "x"),
    ("user", "crayon"),
    ("nobody", "pencil"),
];

/// What is tried. No proof looks into it.
fn tries() -> &'static [(&'static str, &'static str)] {
    &TRIES
}

/// Tries to log in, and prints what comes of it.
fn report<R: RandomSource, W: Write>(
    alloc: Global,
    rt: &R,
    broker: &Broker,
    name: &str,
    password: &str,
    output: &mut W,
) -> Result<()> {
    match log_in(alloc, rt, broker, name, password) {
        Ok(sessions) => writeln!(output, "{name}: logged in, with {sessions} sessions")?,
        Err(error) => writeln!(output, "{name}: refused, {error}")?,
    }
    Ok(())
}

/// Tries each name and password, and prints what comes of them.
pub fn report_all<R: RandomSource, W: Write>(rt: &R, alloc: Global, output: &mut W) -> Result<()> {
    let broker = Broker::new(alloc, fresh(rt)?)?;
    for (name, password) in tries() {
        report(alloc, rt, &broker, name, password, output)?;
    }
    Ok(())
}
