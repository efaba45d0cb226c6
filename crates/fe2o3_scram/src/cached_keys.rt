//! Re-exports [`CachedKeys`] under this path; `keys` defines it.

pub use crate::keys::CachedKeys;
