//! The key of a row: a user name and the name of a mechanism.

ghost use Rattle.std.specs.Prelude.{◌≡◌, IfOk};
ghost use Rattle.sqlite_value.specs.Keys.{plain, prefix_cmp};
ghost use Rattle.sqlite_record.specs.Record.{decode};
ghost use Rattle.scram_db_lib.specs.Users.{user_key};

use sqlite_btree::Probe;
use sqlite_record::compare::with_key;
use sqlite_value::keys::Order;
use sqlite_value::row::Row;
use sqlite_value::value::ValueRef;
use std::alloc::{AllocError, Global};
use std::cmp::Ordering;

/// A search for the row with this key.
#[derive(Clone, Copy)]
pub struct AtKey<'a> {
    /// The values of the first columns.
    pub key: &'a Row,
}

impl Probe for AtKey<'_> {
    ghost side = { λ it bytes. prefix_cmp plain (decode bytes) it.key.now };

    fn compare(&self, bytes: &[u8]) -> Ordering {
        with_key(Order { digits: 0 }, bytes, self.key)
    }
}

/// Returns the key of a user's row for a mechanism.
pub fn user_key(alloc: Global, name: &[u8], mechanism: &[u8]) -> Result<Row, AllocError>
    ensures { IfOk result (λ row. row ≡ user_key name.now mechanism.now) }
{
    let mut row = Row::new(alloc);
    row.push(ValueRef::Text(name))?;
    row.push(ValueRef::Text(mechanism))?;
    Ok(row)
}
