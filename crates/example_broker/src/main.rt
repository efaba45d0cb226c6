//! The program `example_broker RECORDS [tls]`: `example_broker_lib` over standard input and output. It keeps the secret of
//! mock records in `RECORDS.secret`.
//!
//! Each run serves one connection, with up to three logins one after another. It opens and closes no socket: the program
//! that passes the bytes closes it, as docs/GUIDE.md says.
#![tactic(auto)]

use anyhow::{Context, Result};
use example_broker_lib::log_in;
use std::io::BufReader;
use std::{env, io};

fn main(rt: HostRuntime) -> Result<()> {
    let mut words = env::args(&rt)?.skip(1);
    let path = words.next().context("usage: example_broker RECORDS [tls]")?;
    let tls = words.next().as_deref() == Some("tls");
    let mut input = BufReader::new(rt.alloc(), rt.reader())?;
    let (user, wrong) = log_in(&rt, &path, tls, &mut input, &mut io::writer(&rt))?;
    eprintln!(rt; "{user:?} logged in, after {wrong} wrong logins")?;
    Ok(())
}
