//! A row of the table, and the record that it is.

ghost use Rattle.std.specs.Prelude.{◌≡◌, ◌<◌, ◌^◌, IfOk, IfErr, Some, None, length, option_map};
ghost use Rattle.sqlite_record.specs.Record.{decode};
ghost use Rattle.sqlite_value.specs.Order.{column};
ghost use Rattle.scram_db_lib.specs.Users.{blob_in, count_in, row_record, user_record, lent, user_row, ReadsRow};

use crate::error::DatabaseError;
use crate::key::user_key;
use sqlite_record::encode::encode;
use sqlite_record::fields::decode_into;
use sqlite_trees::error::StoreError;
use sqlite_value::row::Row;
use sqlite_value::value::ValueRef;
use std::alloc::{AllocError, Global};

/// The record of a user for a mechanism (RFC 5802, section 3).
#[derive(Debug, Drop)]
pub struct StoredUser {
    pub salt: Vec<u8>,
    pub iterations: u32,
    pub stored_key: Vec<u8>,
    pub server_key: Vec<u8>,
}

/// A record that a row lends.
#[derive(Clone, Copy, Debug)]
pub struct Columns<'a> {
    pub salt: &'a [u8],
    pub iterations: u32,
    pub stored_key: &'a [u8],
    pub server_key: &'a [u8],
}

/// Returns the columns of a row's bytes.
pub fn row_of(alloc: Global, bytes: &[u8]) -> Result<Row, AllocError>
    ensures { IfOk result (λ row. row ≡ decode bytes.now) }
{
    let mut row = Row::new(alloc);
    decode_into(bytes, 0, &mut row)?;
    Ok(row)
}

/// Returns the bytes of a column, or `None` if it is no BLOB.
fn blob(row: &Row, at: usize) -> Option<&[u8]>
    ensures { option_map (λ bytes. bytes.now) result ≡ blob_in (column row.now at) }
{
    match row.get(at) {
        ValueRef::Blob(bytes) => Some(bytes),
        _ => None,
    }
}

/// Returns the count in a column, or `None` if it is not of 32 bits.
pub(crate) fn count(row: &Row, at: usize) -> Option<u32>
    ensures { result ≡ count_in (column row.now at) }
{
    match row.get(at) {
        ValueRef::Int(count) => u32::try_from(count).ok(),
        _ => None,
    }
}

/// Returns the record of a row, or `None` if its columns are not those of a record.
pub fn lend(row: &Row) -> Option<Columns<'_>>
    ensures { option_map lent result ≡ row_record row.now }
{
    let salt = blob(row, 2)?;
    let iterations = count(row, 3)?;
    let stored_key = blob(row, 4)?;
    let server_key = blob(row, 5)?;
    Some(Columns {
        salt,
        iterations,
        stored_key,
        server_key,
    })
}

/// Returns the record of a row's bytes.
pub fn user_of(alloc: Global, bytes: &[u8]) -> Result<StoredUser, DatabaseError>
    ensures { ReadsRow (decode bytes.now) result }
{
    let row = row_of(alloc, bytes)?;
    let Some(found) = lend(&row) else {
        return Err(DatabaseError::WrongRow);
    };
    Ok(StoredUser {
        salt: found.salt.to_vec(alloc)?,
        iterations: found.iterations,
        stored_key: found.stored_key.to_vec(alloc)?,
        server_key: found.server_key.to_vec(alloc)?,
    })
}

/// Returns the bytes of a user's row.
pub fn bytes_of(
    alloc: Global,
    name: &[u8],
    mechanism: &[u8],
    user: &Columns<'_>,
) -> Result<Vec<u8>, DatabaseError>
    ensures row { IfOk result (λ bytes. decode bytes.items ≡ user_row name.now mechanism.now (lent user.now)) }
    ensures short { IfOk result (λ bytes. length bytes.items < 2 ^ 31) }
{
    let mut row = user_key(alloc, name, mechanism)?;
    row.push(ValueRef::Blob(user.salt))?;
    row.push(ValueRef::Int(i64::from(user.iterations)))?;
    row.push(ValueRef::Blob(user.stored_key))?;
    row.push(ValueRef::Blob(user.server_key))?;
    encoded(alloc, &row)
}

/// Returns the bytes of a row.
pub fn encoded(alloc: Global, row: &Row) -> Result<Vec<u8>, DatabaseError>
    ensures row { IfOk result (λ bytes. decode bytes.items ≡ row.now) }
    ensures short { IfOk result (λ bytes. length bytes.items < 2 ^ 31) }
{
    let (mut types, mut bytes) = (Vec::new(alloc), Vec::new(alloc));
    match encode(row, 0, &mut types, &mut bytes) {
        Ok(()) => Ok(bytes),
        Err(StoreError::OutOfMemory) => Err(DatabaseError::OutOfMemory),
        Err(_) => Err(DatabaseError::Full),
    }
}
