//! Bytes that `Debug` does not show.

use std::fmt;

/// Bytes that may be a password, of which only the length is shown.
#[derive(Drop)]
pub(crate) struct Hidden<'a>(pub(crate) &'a [u8]);

impl fmt::Debug for Hidden<'_> {
    fn fmt<W: fmt::Write>(&self, f: &mut fmt::Formatter<W>) -> fmt::Result {
        write!(f, "{} bytes", self.0.len())
    }
}
