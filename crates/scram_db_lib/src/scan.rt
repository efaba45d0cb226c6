//! All rows of the table of users, in the order of their keys.

ghost use Rattle.std.specs.Prelude.{◌≡◌};
ghost use Rattle.sqlite_record.specs.Record.{decode};
ghost use Rattle.scram_db_lib.specs.Users.{side_after};

use crate::error::DatabaseError;
use crate::row::{StoredUser, row_of, user_of};
use sqlite_btree::{Batch, Probe, Scratch, index};
use sqlite_pages::Pages;
use sqlite_record::compare::with_key;
use sqlite_value::keys::Order;
use sqlite_value::row::Row;
use sqlite_value::value::ValueRef;
use std::alloc::Global;
use std::cmp::Ordering;

/// A search for the first row after those with this key.
#[derive(Clone, Copy)]
struct AfterKey<'a> {
    /// The values of the first columns. Of none, all rows come after it.
    key: &'a Row,
}

impl Probe for AfterKey<'_> {
    ghost side = { λ it bytes. side_after it.key.now bytes };

    fn compare(&self, bytes: &[u8]) -> Ordering {
        if self.key.is_empty() {
            return Ordering::Greater;
        }
        match with_key(Order { digits: 0 }, bytes, self.key) {
            Ordering::Greater => Ordering::Greater,
            _ => Ordering::Less,
        }
    }
}

/// A walk over the rows, in the order of their keys.
#[derive(Drop)]
pub struct Walk {
    root: u32,
    key: Row,
    batch: Batch,
}

impl Walk {
    /// Begins before the first row of the table.
    pub fn new(alloc: Global, root: u32) -> Walk {
        Walk {
            root,
            key: Row::new(alloc),
            batch: Batch::new(alloc),
        }
    }

    /// Goes to the next row, and returns whether there is one. A row out of order is `Damaged`, so a walk ends.
    pub fn next<P: Pages>(&mut self, alloc: Global, pages: &mut P) -> Result<bool, DatabaseError> {
        let after = AfterKey { key: &self.key };
        if !self.batch.next(pages)? {
            let scratch = &mut Scratch::new(alloc);
            index::fill(pages, scratch, self.root, &after, &mut self.batch)?;
            if !self.batch.next(pages)? {
                return Ok(false);
            }
        }
        if after.compare(self.batch.payload()) != Ordering::Greater {
            return Err(DatabaseError::Damaged);
        }
        let row = row_of(alloc, self.batch.payload())?;
        self.key.clear();
        self.key.push(row.get(0))?;
        self.key.push(row.get(1))?;
        Ok(true)
    }

    /// Returns the name of the row, or no bytes if it is no text.
    pub fn name(&self) -> &[u8] {
        text(self.key.get(0))
    }

    /// Returns the mechanism of the row, or no bytes if it is no text.
    pub fn mechanism(&self) -> &[u8] {
        text(self.key.get(1))
    }

    /// Returns the record of the row.
    pub fn user(&self, alloc: Global) -> Result<StoredUser, DatabaseError> {
        user_of(alloc, self.batch.payload())
    }
}

/// Returns the bytes of a text, or none of another value.
fn text(value: ValueRef<'_>) -> &[u8] {
    match value {
        ValueRef::Text(bytes) => bytes,
        _ => b"",
    }
}
