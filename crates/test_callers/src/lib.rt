//! Tests of what a caller implements, and of what the borrow checker has to reject: no row of data can say these.
#![tactic(auto)]

#[cfg(test)]
mod closed;
#[cfg(test)]
mod map_store;
#[cfg(test)]
mod views_and_bodies;
