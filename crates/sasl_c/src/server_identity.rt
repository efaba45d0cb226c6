//! The identity that a client names to a SCRAM server, and that the authenticated user then acts for (RFC 4422, section 2).

ghost use Rattle.std.specs.Prelude.{◌≡◌, ◌≢◌, Ok, Err, IfOk, IfErr};
ghost use Rattle.fe2o3_scram.specs.ClientFirst.{HasEscapes, client_first_values};
ghost use Rattle.sasl_c.specs.Rules.{ByRules, with_cbind_flag_y};
ghost use Rattle.sasl_c.specs.Server.{ClaimedIdentity, TellsIdentity, or_empty};
ghost use Rattle.sasl_c.specs.Status.{AnswersText, AsksText, AsksWhere, Fills};
ghost use Rattle.sasl_c.specs.declared.status.Status.TheVariants.{OutOfMemory as StatusOutOfMemory};

use crate::arrays::{head, put, write};
use crate::rules::{ScramRules, with_cbind_flag_y};
use crate::server::ScramServer;
use crate::status::{Status, WriteError, text_number};
use fe2o3_scram::{ClientFirst, ServerRules, ServerScramErrorKind};
use std::alloc::Global;

/// Writes the identity that a client-first message names to act for, without escapes, or 0 bytes if the client acts for
/// itself. It is only claimed, like the user's name: use it only to look up whether the user may act for it. The message is
/// read like by `fe2o3_scram_server_claimed_user`, and the errors are the same.
#[unsafe(no_mangle)]
pub extern "C" fn fe2o3_scram_server_claimed_identity(
    alloc: Global,
    rules: &ScramRules<'_>,
    client_first: &[u8],
    out: &mut [u8],
    out_len: &mut usize,
) -> u32
    ensures { AnswersText result (λ answer. ByRules rules.now ((out.new ≡ out.old) × (out_len.new ≡ out_len.old))
        (λ shown answer. Fills (ClaimedIdentity (with_cbind_flag_y shown) client_first.now)
        (record { bytes = out.old; len = out_len.old }) (record { bytes = out.new; len = out_len.new }) answer
        × AsksText (HasEscapes (with_cbind_flag_y shown) client_first.now) answer) answer) }
{
    text_number(identity_by_rules(alloc, rules, client_first, out, out_len))
}

/// Writes the identity that a client-first message names, by the rules of a struct.
fn identity_by_rules(
    alloc: Global,
    rules: &ScramRules<'_>,
    client_first: &[u8],
    out: &mut [u8],
    out_len: &mut usize,
) -> Result<(), WriteError>
    ensures { ByRules rules.now ((out.new ≡ out.old) × (out_len.new ≡ out_len.old))
        (λ shown answer. Fills (ClaimedIdentity (with_cbind_flag_y shown) client_first.now)
        (record { bytes = out.old; len = out_len.old }) (record { bytes = out.new; len = out_len.new }) answer
        × AsksText (HasEscapes (with_cbind_flag_y shown) client_first.now) answer) result }
{
    match rules.shown() {
        Ok(rules) => {
            let rules = with_cbind_flag_y(rules);
            identity_into(alloc, rules, client_first, out, out_len)
        }
        Err(status) => Err(WriteError::Other(status)),
    }
}

/// Writes the identity that a client-first message names, or no bytes if the client acts for itself.
fn identity_into(
    alloc: Global,
    rules: ServerRules,
    client_first: &[u8],
    out: &mut [u8],
    out_len: &mut usize,
) -> Result<(), WriteError>
    ensures filled { Fills (ClaimedIdentity rules client_first.now) (record { bytes = out.old; len = out_len.old })
        (record { bytes = out.new; len = out_len.new }) result }
    ensures memory { AsksText (HasEscapes rules client_first.now) result }
{
    match ClientFirst::parse_with_rules(alloc, client_first, rules) {
        Ok(first) => put(identity_of(&first), out, out_len),
        Err(why) => Err(WriteError::Other(Status::from(why))),
    }
}

/// Returns the identity that a client-first message names, or no bytes if the client acts for itself.
fn identity_of<'a>(first: &'a ClientFirst<'_>) -> &'a [u8]
    ensures { result.now ≡ or_empty (client_first_values first.now).header.acts_for }
{
    match &first.acts_for {
        Some(name) => name.as_bytes(),
        None => &[],
    }
}

/// Returns the identity that the authenticated user acts for, or no bytes if the user acts for itself.
#[tactic(auto, using(crate::proofs::IdentityLemmas::tells))]
fn acts_for(server: &ScramServer) -> Result<&[u8], Status>
    ensures ok { IfOk result (λ name. TellsIdentity server.now (Ok name.now)) }
    ensures err { IfErr result (λ status. status ≢ StatusOutOfMemory → TellsIdentity server.now (Err status)) }
    ensures memory { AsksWhere ⊥ result }
{
    let illegal = Status::Server(ServerScramErrorKind::IllegalAuthenticatorState);
    if server.state != 2 {
        return Err(illegal);
    }
    if server.user_len > 256 {
        return Err(illegal);
    }
    match head(&server.acts_for, server.acts_for_len) {
        Some(name) => Ok(name),
        None => Err(illegal),
    }
}

/// Writes the identity that the authenticated user acts for, without escapes, or 0 bytes if the user acts for itself (RFC
/// 4422, section 2). The user may act for it. Returns FE2O3_SERVER_ILLEGAL_AUTHENTICATOR_STATE if no user is
/// authenticated.
#[unsafe(no_mangle)]
#[tactic(auto, using(crate::proofs::StatusLemmas::written))]
pub extern "C" fn fe2o3_scram_server_acts_for(
    server: &ScramServer,
    out: &mut [u8],
    out_len: &mut usize,
) -> u32
    ensures { AnswersText result (λ answer. Fills (TellsIdentity server.now) (record { bytes = out.old; len = out_len.old })
        (record { bytes = out.new; len = out_len.new }) answer × AsksText ⊥ answer) }
{
    text_number(write(acts_for(server), out, out_len))
}
