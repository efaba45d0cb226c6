//! What the commands of the program `scram` share: why they stop, the lines of the input, files that are changed whole,
//! the lines of a file of users, and what the messages of a login say.
#![tactic(auto)]

pub mod backend;
pub mod channel;
pub mod explain;
pub mod input;
pub mod lines;
pub mod shown;
pub mod stop;
pub mod store;
pub mod wire;
