//! The tables of RFC 3454 that RFC 4013 names, as tests of a character.

ghost use Rattle.std.specs.Prelude.{◌≡◌};
ghost use Rattle.saslprep.specs.Saslprep.{mapping, is_prohibited, is_right_to_left, is_left_to_right, is_unassigned};

use crate::table_runs::{
    LEFT_TO_RIGHT, MAPPED_TO_NOTHING, PROHIBITED, RIGHT_TO_LEFT, SPACES, UNASSIGNED,
};

/// Returns what `c` is mapped to, if it is mapped.
pub(crate) fn mapped(c: char) -> Option<char>
    ensures { result ≡ mapping c }
{
    if ucd_table::contains(&SPACES, c) {
        Some(' ')
    } else if ucd_table::contains(&MAPPED_TO_NOTHING, c) {
        None
    } else {
        Some(c)
    }
}

pub(crate) fn is_prohibited(c: char) -> bool
    ensures { result ≡ is_prohibited c }
{
    ucd_table::contains(&PROHIBITED, c)
}

pub(crate) fn is_right_to_left(c: char) -> bool
    ensures { result ≡ is_right_to_left c }
{
    ucd_table::contains(&RIGHT_TO_LEFT, c)
}

pub(crate) fn is_left_to_right(c: char) -> bool
    ensures { result ≡ is_left_to_right c }
{
    ucd_table::contains(&LEFT_TO_RIGHT, c)
}

pub(crate) fn is_unassigned(c: char) -> bool
    ensures { result ≡ is_unassigned c }
{
    ucd_table::contains(&UNASSIGNED, c)
}
