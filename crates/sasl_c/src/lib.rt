//! SCRAM for C, and for languages that call C: clients, servers, records and keys (RFC 5802, RFC 7677), SASLprep (RFC
//! 4013), and PLAIN and EXTERNAL over messages (RFC 4616; RFC 4422, appendix A).
//!
//! The state of an exchange is a struct of numbers and arrays in the caller's memory. There is no handle and nothing to
//! free, and a call accepts any value of a struct. All zeros is a fresh one. A call returns a number, 0 if it succeeded,
//! and a call that fails changes nothing, but for three exceptions that the header names.
//!
//! Each export calls a function of this crate that does its work, and repeats its contract: `Answers` says that the number
//! is that of an answer, `Makes` and `Fills` what was written, and `IsSide` and `IsOpen` which client or server of
//! `fe2o3_scram` a struct is. `tools/generate/header.py` writes the C header from these sources.
//!
//! While a machine or a store is held, an error is matched and returned without `?`, and the value is dropped by a call of
//! `drop`: each `?` is a further drop to prove.
#![tactic(auto)]

mod acting;
mod arrays;
mod channels;
mod client;
mod client_calls;
mod client_final;
mod client_laws;
mod connection;
mod exchange;
mod external;
mod flags;
mod frames;
mod identity;
mod keys;
mod lines;
mod login;
mod passwords;
mod peeks;
mod plain;
mod plain_verify;
mod preparation;
mod record_fields;
mod records;
mod rejections;
mod rules;
mod salted;
mod sasl_client;
mod sasl_server;
mod server;
mod server_calls;
mod server_errors;
mod server_identity;
mod server_laws;
mod server_receive;
mod server_user;
mod shows;
mod status;
mod texts;
mod zeros;
