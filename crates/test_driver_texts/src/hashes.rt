//! Digests, HMAC values, salted passwords and keys.

use crate::words::{password_of, say_keys, version};
use fe2o3_scram::{CachedKeys, Meter};
use std::fmt::Debug;
use test_rows::{Row, call, free_call};

/// Says the first bytes of what a call made, in hexadecimal digits, or the name of the error.
fn say_bytes<E: Debug>(row: &mut Row<'_>, made: &Result<Vec<u8>, E>, len: u32) {
    match made {
        Ok(bytes) => row.say_digits(bytes.get(..len as usize).unwrap_or(bytes)),
        Err(error) => row.show(error),
    }
}

/// Says the digest of an input: `VERSION INPUT`.
pub fn digest(row: &mut Row<'_>) {
    let (alloc, version, input) = (row.alloc, version(row), row.digits());
    let digest = call!(row: "ScramVersion::h" => version.h(alloc, &input));
    say_bytes(row, &digest, u32::MAX);
}

/// Says the HMAC value of an input under a key, and whether the key's digest gives the same (`long`): `VERSION KEY INPUT`.
pub fn hmac(row: &mut Row<'_>) {
    let (alloc, version, key, input) = (row.alloc, version(row), row.digits(), row.digits());
    let mac = call!(row: "ScramVersion::hmac" => version.hmac(alloc, &key, &input));
    say_bytes(row, &mac, u32::MAX);
    let digest = row.made(version.h(alloc, &key), Vec::new(alloc));
    let by_digest = version.hmac(alloc, &digest, &input);
    row.say(if mac == by_digest { "long" } else { "short" });
}

/// Says the first bytes of a salted password, and the HMAC values that it costs: `VERSION PASSWORD SALT COUNT BYTES`. The
/// calls of `short` and `typed` after these words count no HMAC values; that of `typed` prepares the password.
pub fn salted_password(row: &mut Row<'_>) {
    let (alloc, version, password, salt) = (row.alloc, version(row), row.text(), row.bytes());
    let (count, len, mut meter) = (row.number(), row.number(), Meter::new());
    let bytes = password.as_bytes();
    if count == 0 {
        return row.refuse("a count of 0");
    }
    if row.takes("short") {
        let salted = call!(row: "ScramVersion::h_i" => version.h_i(alloc, bytes, &salt, count));
        return say_bytes(row, &salted, len);
    }
    if row.takes("typed") {
        let salted = call!(row: "ScramVersion::compute_salted_password" =>
            version.compute_salted_password(alloc, &password, &salt, count));
        return say_bytes(row, &salted, len);
    }
    let salted = call!(row: "ScramVersion::h_i_metered" =>
        version.h_i_metered(alloc, bytes, &salt, count, &mut meter));
    say_bytes(row, &salted, len);
    row.say(meter.count());
}

/// Says the keys of a salted password, the signature and the proof by them, whether the proof meets the StoredKey, and the
/// HMAC values of the first and the last call: `VERSION SALTED-PASSWORD SALT COUNT AUTH-MESSAGE`, in base64.
pub fn keys(row: &mut Row<'_>) {
    let (version, salted, salt) = (version(row), row.base64(), row.base64());
    let (count, text, mut meter) = (row.number(), row.bytes(), Meter::new());
    let keys = free_call!(row: "CachedKeys::from_salted_password" =>
        CachedKeys::from_salted_password(version, salt, count, &salted, &mut meter));
    say_keys(row, &keys);
    drop(keys);
    let client_key = free_call!(row: "ScramVersion::client_key" =>
        version.client_key(&salted, &mut Meter::new()));
    let client_key = client_key.as_slice();
    let stored_key = free_call!(row: "ScramVersion::stored_key" => version.stored_key(client_key));
    let stored_key = stored_key.as_slice();
    row.say_base64(stored_key);
    let server_key = free_call!(row: "ScramVersion::server_key" =>
        version.server_key(&salted, &mut Meter::new()));
    let signature = free_call!(row: "ScramVersion::compute_server_signature" =>
        version.compute_server_signature(server_key.as_slice(), &text, &mut Meter::new()));
    row.say_base64(signature.as_slice());
    let proof = free_call!(row: "ScramVersion::compute_client_proof" =>
        version.compute_client_proof(client_key, &text, &mut Meter::new()));
    if let Some(proof) = row.get(proof) {
        row.say_base64(proof.as_slice());
        let met = free_call!(row: "ScramVersion::verify_client_proof" =>
            version.verify_client_proof(stored_key, proof.as_slice(), &text, &mut meter));
        row.judge(&met, "met");
        row.say(meter.count());
    }
}

/// Says the cached keys of a password, and the HMAC values that they cost: `VERSION KIND PASSWORD SALT COUNT`.
pub fn cached_keys(row: &mut Row<'_>) {
    let (alloc, version, kind, text) = (row.alloc, version(row), row.word(), row.text());
    let (salt, count, mut meter) = (row.base64(), row.number(), Meter::new());
    let password = password_of(kind, &text);
    let keys = call!(row: "CachedKeys::from_password" =>
        CachedKeys::from_password(alloc, version, password, &salt, count, &mut meter));
    if let Some(keys) = row.get(keys) {
        say_keys(row, &keys);
    }
    row.say(meter.count());
}
