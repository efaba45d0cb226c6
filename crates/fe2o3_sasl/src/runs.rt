//! Events, steps, whole runs, and the audit of two of them, under one name.

pub use crate::audit::{
    AuditError, Finding, FindingKind, Parameters, Verdict, audit, audit_limited,
    audit_with_options, audit_with_rules,
};
pub use fe2o3_sasl_core::ClientOptions;
pub use fe2o3_sasl_core::events::{ClientReply, Event, EventError, ServerReply};
pub use fe2o3_sasl_core::steps::{
    acceptor_body_step, acceptor_frame_step, acceptor_step, profile_body_step, profile_frame_step,
    profile_step,
};
pub use fe2o3_sasl_core::whole_runs::{
    run_acceptor, run_profile, scram_client_run, scram_client_run_limited,
    scram_client_run_with_options, scram_server_run, scram_server_run_with_rules,
};
