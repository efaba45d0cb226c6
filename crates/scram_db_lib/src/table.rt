//! The rows of the table of users, over any pages.

ghost use Rattle.std.specs.Prelude.{◌≡◌, ℕ, List, Ok, Err, Some, IfOk, MatchResult};
ghost use Rattle.sqlite_value.specs.Order.{Row as TableRow};
ghost use Rattle.sqlite_record.specs.Record.{decode};
ghost use Rattle.sqlite_pages.specs.Calls.{IsClean, FailsFor};
ghost use Rattle.sqlite_btree.specs.Calls.Index.{InsertsRecord, RemovesRecord};
ghost use Rattle.scram_db_lib.specs.Users.{IsTable, IsFetched, IsRowFound, FailsToFetch, row_with, key_side, lent, user_row, user_key as the_key};

use crate::error::{DatabaseError, of_pages};
use crate::key::{AtKey, user_key};
use crate::row::{Columns, StoredUser, bytes_of, user_of};
use sqlite_btree::{Batch, Scratch, index};
use sqlite_pages::{Error, Pages};
use std::alloc::Global;

/// Copies the row of a user for a mechanism to `row`, and returns whether there is one.
pub fn seek<P: Pages>(
    alloc: Global,
    pages: &mut P,
    root: u32,
    name: &[u8],
    mechanism: &[u8],
    row: &mut Vec<u8>,
) -> Result<bool, Error>
    ensures found { IsClean P.Pages pages.new → (rows : List TableRow)
        → IsTable (P.Pages.size pages.old) (P.Pages.pages pages.old) root rows
        → MatchResult result (IsRowFound rows (the_key name.now mechanism.now) (decode row.new.items))
        (FailsFor P.Pages pages.old pages.new ⊥) }
    ensures pages { P.Pages.pages pages.new ≡ P.Pages.pages pages.old }
{
    let key = user_key(alloc, name, mechanism)?;
    index::get(
        pages,
        &mut Scratch::new(alloc),
        root,
        &AtKey { key: &key },
        row,
    )
}

/// Fetches the record of a user for a mechanism, or `None` if the table has no such row.
pub fn fetch<P: Pages>(
    alloc: Global,
    pages: &mut P,
    root: u32,
    name: &[u8],
    mechanism: &[u8],
) -> Result<Option<StoredUser>, DatabaseError>
    ensures found { IsClean P.Pages pages.new → (rows : List TableRow)
        → IsTable (P.Pages.size pages.old) (P.Pages.pages pages.old) root rows
        → MatchResult result (IsFetched (row_with (the_key name.now mechanism.now) rows))
        (FailsToFetch P.Pages pages.old pages.new (row_with (the_key name.now mechanism.now) rows)) }
    ensures pages { P.Pages.pages pages.new ≡ P.Pages.pages pages.old }
{
    let mut row = Vec::new(alloc);
    match seek(alloc, pages, root, name, mechanism, &mut row) {
        Ok(true) => some(user_of(alloc, row.as_slice())),
        Ok(false) => Ok(None),
        Err(error) => Err(of_pages(error)),
    }
}

/// Returns the user of a result in a `Some`.
fn some(read: Result<StoredUser, DatabaseError>) -> Result<Option<StoredUser>, DatabaseError>
    ensures { MatchResult read (λ user. result ≡ Ok (Some user)) (λ e. result ≡ Err e) }
{
    match read {
        Ok(user) => Ok(Some(user)),
        Err(error) => Err(error),
    }
}

/// Removes the row of a user for a mechanism, and returns whether there was one.
pub fn remove<P: Pages>(
    alloc: Global,
    pages: &mut P,
    root: u32,
    name: &[u8],
    mechanism: &[u8],
) -> Result<bool, Error>
    ensures { RemovesRecord P.Pages pages.old pages.new (key_side (the_key name.now mechanism.now)) root result }
{
    let key = user_key(alloc, name, mechanism)?;
    index::remove(pages, &mut Scratch::new(alloc), root, &AtKey { key: &key })
}

/// Adds the row of a user for a mechanism, unless there is one. Returns whether it was added.
pub fn add<P: Pages>(
    alloc: Global,
    pages: &mut P,
    root: u32,
    name: &[u8],
    mechanism: &[u8],
    user: &Columns<'_>,
) -> Result<bool, DatabaseError>
    ensures { IfOk result (λ added. (bytes : List ℕ) × (decode bytes ≡ user_row name.now mechanism.now (lent user.now))
        × InsertsRecord P.Pages pages.old pages.new (key_side (the_key name.now mechanism.now)) root bytes (Ok added)) }
{
    let key = user_key(alloc, name, mechanism)?;
    let bytes = bytes_of(alloc, name, mechanism, user)?;
    let scratch = &mut Scratch::new(alloc);
    match index::insert(pages, scratch, root, &AtKey { key: &key }, bytes.as_slice()) {
        Ok(added) => Ok(added),
        Err(fault) => Err(of_pages(fault)),
    }
}
