//! Laws of whole connections of AMQP's SASL layer, over their bytes: what holds of each kind of server, and of two sides.
//! A function with an empty body states its contract, which the check has proved for every list of bytes.
#![tactic(auto)]

pub mod cuts;
pub mod hostile;
pub mod joined;
pub mod pairs;
pub mod policy_clients;
pub mod server_logins;
pub mod server_pairs;
pub mod servers;
pub mod unaltered;
