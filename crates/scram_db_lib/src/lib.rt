//! Users in a SQLite file. The record of a name and a mechanism is found by its key: a look-up reads the pages on the way
//! to it, and no other row.
//!
//! The file has one table, [`schema::TABLE`], and nothing else. `sqlite3` reads and writes it too.
#![tactic(auto)]

pub mod error;
pub mod file;
pub mod key;
mod new_file;
mod read_only;
pub mod row;
pub mod scan;
pub mod schema;
pub mod table;
