//! A key file, which a client keeps in place of its password: one line of the mechanism, the iteration count, and the
//! salt, the ClientKey and the ServerKey in base64.

use base64::engine::general_purpose::STANDARD;
use fe2o3_scram::{CachedKeys, ScramVersion};
use scram_base_lib::stop::Stop;
use scram_base_lib::store;
use scram_base_lib::store::{Rewrite, System};
use scram_base_lib::wire::bytes_of;
use std::alloc::{AllocError, Global};
use std::random::RandomSource;
use std::rt::Files;

/// Reads the keys of a file, or returns `None` if there is no file.
pub fn read<R: Files + AllocGlobal>(
    rt: &R,
    file: &str,
    version: ScramVersion,
) -> Result<Option<CachedKeys>, Stop> {
    match store::read(rt, file) {
        Ok(text) => Ok(Some(keys_of(rt.alloc(), &text, version)?)),
        Err(Stop::Unreadable(std::io::ErrorKind::NotFound)) => Ok(None),
        Err(stop) => Err(stop),
    }
}

/// Parses the keys of a text, for this version.
fn keys_of(alloc: Global, text: &str, version: ScramVersion) -> Result<CachedKeys, Stop> {
    let line = text.strip_suffix('\n').ok_or(Stop::WrongKeys)?;
    let words: Vec<&str> = line.split(' ').collect(alloc)?;
    let [mechanism, iterations, salt, client_key, server_key] = words.as_slice() else {
        return Err(Stop::WrongKeys);
    };
    if *mechanism != version.mechanism() {
        return Err(Stop::OtherMechanism);
    }
    let iterations = iterations.parse::<u32>().map_err(|_| Stop::WrongKeys)?;
    let (salt, client_key) = (bytes_of(alloc, salt)?, bytes_of(alloc, client_key)?);
    let server_key = bytes_of(alloc, server_key)?;
    let keys = CachedKeys::from_parts(version, salt, iterations, &client_key, &server_key);
    keys.map_err(|_| Stop::WrongKeys)
}

/// Returns the line of keys.
fn line_of(alloc: Global, keys: &CachedKeys) -> Result<String, AllocError> {
    let (mechanism, iterations) = (keys.scram_version().mechanism(), keys.iterations());
    let salt = STANDARD.encode(alloc, keys.salt())?;
    let client_key = STANDARD.encode(alloc, keys.client_key())?;
    let server_key = STANDARD.encode(alloc, keys.server_key())?;
    format!(in alloc; "{mechanism} {iterations} {salt} {client_key} {server_key}\n")
}

/// A line that replaces a whole text.
#[derive(Drop)]
struct Kept {
    line: String,
}

impl Rewrite for Kept {
    type Done = ();

    fn rewrite<R: RandomSource + AllocGlobal>(
        &self,
        _rt: &R,
        _old: &str,
    ) -> Result<(String, ()), Stop> {
        Ok((self.line.clone()?, ()))
    }
}

/// Stores the keys of a login.
pub fn keep<R: System>(rt: &R, file: &str, keys: &CachedKeys) -> Result<(), Stop> {
    let line = line_of(rt.alloc(), keys)?;
    store::make_change(rt, file, 0, &Kept { line })
}
