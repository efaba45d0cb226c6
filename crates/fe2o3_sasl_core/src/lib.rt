//! Logins by SASL over lists of frame bodies, for AMQP 1.0: the crate below `fe2o3_sasl`, which re-exports all of this.
//! Code that only uses SASL names that crate.
//!
//! A client uses a [`SaslProfile`], a server a [`SaslAcceptor`]. [`steps`] answers one body each, and [`whole_runs`] a
//! list of them; the contracts of these state the headline theorem.
#![tactic(auto)]

pub mod any_mechanism;
pub mod client_policy;
pub mod events;
pub mod login_attempts;
pub mod mechanism;
pub mod offer;
pub mod plain_server;
pub mod rejection;
pub mod sasl_acceptor;
pub mod sasl_profile;
mod scram_acceptor;
pub mod server;
pub mod steps;
pub mod whole_runs;

pub use crate::any_mechanism::{AnyMechanism, HasMechanism, Selected};
pub use crate::client_policy::ClientPolicy;
pub use crate::events::{ClientReply, Event, EventError, ServerReply};
pub use crate::login_attempts::{LoginAttempt, claimed_user};
pub use crate::mechanism::Mechanism;
pub use crate::offer::Offer;
pub use crate::plain_server::{MAX_PASSWORD_LEN, PlainPasswords};
pub use crate::rejection::Rejection;
pub use crate::sasl_acceptor::{
    AuthenticatedUser, SaslAcceptor, SaslAcceptorExt, SaslAnonymousMechanism, SaslPlainMechanism,
    SaslServerFrame,
};
pub use crate::sasl_profile::{
    ChoiceError, Negotiation, PolicyLogin, ProfileError, SaslProfile, SaslScramSha1,
    SaslScramSha256, SaslScramSha512, SingleMessage, UrlError, select_mechanism,
};
pub use crate::server::Server;
pub use crate::server::options::{
    ExtraChallenges, Mechanisms, MockAuthentication, ServerOptions, Transport,
};
pub use crate::server::saved::{SavedLogin, SavedStage};
pub use crate::steps::{
    acceptor_body_step, acceptor_frame_step, acceptor_step, profile_body_step, profile_frame_step,
    profile_step,
};
pub use crate::whole_runs::{
    run_acceptor, run_profile, scram_client_run, scram_client_run_limited,
    scram_client_run_with_options, scram_server_run, scram_server_run_with_rules,
};
pub use fe2o3_scram::ClientOptions;
pub use std::alloc::AllocError as OutOfMemory;
