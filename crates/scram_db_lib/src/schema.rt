//! The schema of the database: the table of users, and nothing else.

ghost use Rattle.std.specs.Prelude.{◌≡◌, ◌↔◌, ◌<◌, ◌^◌, ℕ, IsTrue, IfOk, IfSome, IsNone};
ghost use Rattle.sqlite_value.specs.Order.{column};
ghost use Rattle.sqlite_value.specs.declared.value.Value.TheVariants.{Text};
ghost use Rattle.scram_db_lib.specs.Users.{table_text, table_row, IsUsers, IsRowOfUsers};

use crate::error::DatabaseError;
use crate::row::{count, encoded, row_of};
use sqlite_btree::{Batch, Scratch, create, table};
use sqlite_format::Tree;
use sqlite_pages::{Error, Pages};
use sqlite_value::row::Row;
use sqlite_value::value::ValueRef;
use std::alloc::{AllocError, Global};

/// The text of the table, byte for byte. `sqlite3` makes it if it is passed this text and a semicolon.
pub static TABLE: &str =
    "CREATE TABLE users (name TEXT NOT NULL, mechanism TEXT NOT NULL, salt BLOB NOT NULL, \
    iterations INTEGER NOT NULL, stored_key BLOB NOT NULL, server_key BLOB NOT NULL, \
    PRIMARY KEY (name, mechanism)) WITHOUT ROWID";

/// The page of the table `sqlite_schema` (fileformat2.html, section 2.6).
const SCHEMA: u32 = 1;

/// Returns the page that the table of users begins with. The database has to have this table, made first, and nothing
/// else: a write here would not keep an index or a trigger.
pub fn root<P: Pages>(alloc: Global, pages: &mut P) -> Result<u32, DatabaseError> {
    let mut bytes = Vec::new(alloc);
    if !table::get(pages, &mut Scratch::new(alloc), SCHEMA, 1, &mut bytes)? {
        return Err(DatabaseError::OtherSchema);
    }
    let found = row_of(alloc, &bytes)?;
    if has_rows(alloc, pages, 2)? {
        return Err(DatabaseError::OtherSchema);
    }
    root_in(&found).ok_or(DatabaseError::OtherSchema)
}

/// Returns whether the database has no table, index, view or trigger.
pub fn is_empty<P: Pages>(alloc: Global, pages: &mut P) -> Result<bool, Error> {
    Ok(!has_rows(alloc, pages, i64::MIN)?)
}

/// Returns whether the schema has a row with this number or a later one.
fn has_rows<P: Pages>(alloc: Global, pages: &mut P, first: i64) -> Result<bool, Error> {
    let mut batch = Batch::new(alloc);
    table::fill(pages, &mut Scratch::new(alloc), SCHEMA, first, &mut batch)?;
    Ok(!batch.is_empty())
}

/// Returns the page of the table of users in its row of the schema, or `None` if it is the row of something else.
fn root_in(row: &Row) -> Option<u32>
    ensures found { IfSome result (IsRowOfUsers row.now) }
    ensures none { IsNone result → (root : ℕ) → root < 2 ^ 32 → ¬ IsRowOfUsers row.now root }
{
    if is_users(row) { count(row, 3) } else { None }
}

/// Returns whether a row of the schema is that of the table of users, at any page.
fn is_users(row: &Row) -> bool
    ensures { IsTrue result ↔ IsUsers row.now }
{
    is_text(row, 0, "table") && is_text(row, 1, "users") && is_text(row, 4, text())
}

/// Returns the text of the table. A function of its own, so that no other proof takes the text apart.
#[tactic(auto, unfolding(crate::specs::Users::table_text))]
fn text() -> &'static str
    ensures { result.now ≡ table_text }
{
    TABLE
}

/// Returns whether a column has this text.
fn is_text(row: &Row, at: usize, text: &str) -> bool
    ensures { IsTrue result ↔ column row.now at ≡ Text text.now }
{
    match row.get(at) {
        ValueRef::Text(bytes) => bytes == text.as_bytes(),
        _ => false,
    }
}

/// Makes the table of users in an empty database.
pub fn make<P: Pages>(alloc: Global, pages: &mut P) -> Result<(), DatabaseError> {
    let root = create(pages, &mut Scratch::new(alloc), Tree::Index)?;
    let bytes = encoded(alloc, &row_for(alloc, root)?)?;
    table::insert(pages, &mut Scratch::new(alloc), SCHEMA, 1, &bytes)?;
    Ok(())
}

/// Returns the row of the schema for the table of users.
fn row_for(alloc: Global, root: u32) -> Result<Row, AllocError>
    ensures { IfOk result (λ row. row ≡ table_row root) }
{
    let mut row = Row::new(alloc);
    row.push(ValueRef::Text(b"table"))?;
    row.push(ValueRef::Text(b"users"))?;
    row.push(ValueRef::Text(b"users"))?;
    row.push(ValueRef::Int(i64::from(root)))?;
    row.push(ValueRef::Text(text().as_bytes()))?;
    Ok(row)
}
