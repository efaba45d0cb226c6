//! Rows of text, each a call with its arguments and its expected result, which a driver answers.
#![tactic(auto)]

mod files;
mod rows;

pub use crate::files::{Answers, replay};
pub use crate::rows::Row;

/// Makes a call that may run out of memory, by its name, between two marks for `tools/test_memory.py`.
#[macro_export]
macro_rules! call {
    ($row:ident: $name:expr => $made:expr) => {{
        $row.begin($name);
        let made: Result<_, _> = $made;
        $row.end();
        made
    }};
}

/// Makes a call that requests no memory, between two marks.
#[macro_export]
macro_rules! free_call {
    ($row:ident: $name:expr => $made:expr) => {{
        $row.begin_free($name);
        let made = $made;
        $row.end();
        made
    }};
}

/// Answers, and once more if memory ran out.
#[macro_export]
macro_rules! again {
    ($row:ident: $answer:expr) => {{
        $answer;
        if $row.ran_out() {
            $answer
        }
    }};
}
