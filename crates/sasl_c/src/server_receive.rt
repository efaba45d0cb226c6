//! The call by which a server takes received bytes, or asks for the records of the user whom they claim.

ghost use Rattle.std.specs.Prelude.{◌≡◌, ◌≤◌, ◌^◌, length, string_bytes, false, IfErr, IfOk, OnErr, MatchOption};
ghost use Rattle.fe2o3_scram.specs.Readings.{NoneHolds};
ghost use Rattle.sasl_c.specs.Client.{is_set};
ghost use Rattle.sasl_c.specs.Connection.{side_tests};
ghost use Rattle.sasl_c.specs.Peeks.{AwaitsFrame};
ghost use Rattle.sasl_c.specs.SaslServer.{ReceivesAsServer, config_tests};
ghost use Rattle.sasl_c.specs.ServerReceive.{NeedsNoRecords, NeedsRecords, ReceiveAsks, ReceivesOrAsks};
ghost use Rattle.sasl_c.specs.Status.{AnswersText, AsksText, FillsWithin, with_written};
ghost use Rattle.sasl_c.specs.declared.status.Status.TheVariants.{OutOfMemory as StatusOutOfMemory, NeedsRecords as StatusNeedsRecords};
ghost use Rattle.sasl_c.specs.declared.status.WriteError.TheVariants.{RoomTooSmall, Other as OtherError};

use crate::arrays::put;
use crate::flags::is_set;
use crate::sasl_server::{SaslServer, SaslServerConfig, received};
use crate::server_user::compute_claimed_user;
use crate::status::{Status, WriteError, text_number};
use fe2o3_scram::Meter;
use std::alloc::Global;

/// Returns the user whose records the configuration has to have and does not: whom the bytes claim, if the caller has not
/// looked it up. `None` if there is no such user. `OutOfMemory` is the only error.
#[tactic(auto, using(crate::proofs::ServerReceiveLemmas::needed))]
fn needed_user(
    alloc: Global,
    config: &SaslServerConfig<'_>,
    server: &SaslServer,
    bytes: &[u8],
) -> Result<Option<String>, Status>
    ensures ok { IfOk result (λ user. MatchOption user (NeedsNoRecords config.now server.now bytes.now)
        (λ user. NeedsRecords config.now server.now bytes.now (string_bytes user))) }
    ensures fits { IfOk result (λ user. MatchOption user (Unit {0}) (λ user. length (string_bytes user) ≤ 512)) }
    ensures err { IfErr result (λ status. status ≡ StatusOutOfMemory) }
    ensures memory { OnErr result ((is_set config.now.looked_up ≡ false) × AwaitsFrame server.now.connection) }
{
    if is_set(config.looked_up) {
        return Ok(None);
    }
    match compute_claimed_user(alloc, server, bytes) {
        Ok(name) => Ok(Some(name)),
        Err(Status::OutOfMemory) => Err(Status::OutOfMemory),
        Err(_) => Ok(None),
    }
}

/// Writes the name of the user whose records a call needs, and returns the error that says so.
fn ask_for(name: &[u8], out: &mut [u8], out_len: &mut usize) -> WriteError
    requires { length name.now ≤ length out.old }
    ensures status { result ≡ OtherError StatusNeedsRecords }
    ensures out { out.new ≡ with_written name.now out.old }
    ensures len { out_len.new ≡ length name.now }
{
    match put(name, out, out_len) {
        Ok(()) => WriteError::Other(Status::NeedsRecords),
        Err(why) => why,
    }
}

/// Takes bytes whose user is known, if they claim one, and writes what is to be sent.
fn receive_known(
    alloc: Global,
    config: &SaslServerConfig<'_>,
    server: &mut SaslServer,
    bytes: &[u8],
    nonce: &[u8; 32],
    meter: &mut Meter,
    taken: &mut usize,
    out: &mut [u8],
    out_len: &mut usize,
) -> Result<(), WriteError>
    requires meter { meter.old ≤ 2 ^ 63 }
    requires room { 520 ≤ length out.old }
    ensures text { FillsWithin 520 (ReceivesAsServer config.now bytes.now nonce.now server.old server.new taken.new)
        (record { bytes = out.old; len = out_len.old }) (record { bytes = out.new; len = out_len.new }) result }
    ensures stays { OnErr result ((server.new ≡ server.old) × (taken.new ≡ taken.old)) }
    ensures memory { AsksText (NoneHolds (side_tests server.old.connection) × NoneHolds (config_tests config.now)) result }
{
    let made = match received(alloc, config, server, bytes, nonce, meter) {
        Ok(made) => made,
        Err(status) => return Err(WriteError::Other(status)),
    };
    put(&made.sent, out, out_len)?;
    *taken = made.taken;
    Ok(())
}

/// The maximum number of bytes that a server sends at once: its header, and after it a frame.
const SENT_MOST: usize = 520;

/// Takes bytes, and writes what is to be sent, or the name of the user whose records it needs.
#[tactic(auto, using(crate::proofs::ServerReceiveLemmas::receives))]
fn receive(
    alloc: Global,
    config: &SaslServerConfig<'_>,
    server: &mut SaslServer,
    bytes: &[u8],
    nonce: &[u8; 32],
    meter: &mut Meter,
    taken: &mut usize,
    out: &mut [u8],
    out_len: &mut usize,
) -> Result<(), WriteError>
    requires { meter.old ≤ 2 ^ 63 }
    ensures text { ReceivesOrAsks config.now bytes.now nonce.now server.old server.new taken.new
        (record { bytes = out.old; len = out_len.old }) (record { bytes = out.new; len = out_len.new }) result }
    ensures stays { OnErr result ((server.new ≡ server.old) × (taken.new ≡ taken.old)) }
    ensures first { IfErr result (λ status. status ≡ RoomTooSmall → meter.new ≡ meter.old) }
    ensures memory { AsksText (ReceiveAsks config.now server.old) result }
{
    if out.len() < SENT_MOST {
        *out_len = SENT_MOST;
        return Err(WriteError::RoomTooSmall);
    }
    match needed_user(alloc, config, server, bytes) {
        Ok(None) => receive_known(
            alloc, config, server, bytes, nonce, meter, taken, out, out_len,
        ),
        Ok(Some(name)) => Err(ask_for(name.as_bytes(), out, out_len)),
        Err(status) => Err(WriteError::Other(status)),
    }
}

/// Takes received bytes, to the end of the expected header or frame, and writes the bytes to send, at most 520. `out`
/// needs 520 bytes, which is tested before anything is hashed. `nonce` is 32 fresh random bytes, or any bytes if
/// `fe2o3_sasl_wants_nonce` returns 0.
///
/// Call it first with `looked_up` 0. If the bytes complete a frame that claims a user, it takes nothing, writes the name
/// to `out`, at most 512 bytes, and returns FE2O3_NEEDS_RECORDS. Nobody is authenticated yet: use the name only to look
/// the user up. Put what your store has of the user into `config`, set `looked_up`, and repeat the call with the same
/// bytes.
///
/// An init for SCRAM or PLAIN claims the user of its initial response, and so does the response to an empty challenge. The
/// response to a challenge of SCRAM claims the user of that challenge, `user` of the field `scram` while its `state` says
/// that a challenge is open. You can look that user up before, and set `looked_up` at once.
///
/// FE2O3_OK does not mean that the login succeeds: look at `progress` and `why` of the connection. `taken` is how many
/// bytes were used. While `progress` is FE2O3_IN_PROGRESS, pass the rest in the next call; after the login it belongs to
/// AMQP.
///
/// A call that returns an error changes neither `server` nor `taken`. The errors are, in this order:
///
/// - FE2O3_ROOM_TOO_SMALL if `out` has fewer than 520 bytes,
/// - FE2O3_NEEDS_RECORDS,
/// - FE2O3_ENDED and FE2O3_INVALID_SNAPSHOT of the connection,
/// - FE2O3_NO_SUCH_MECHANISM if `mechanisms` is no sum of values of enum fe2o3_offer,
/// - FE2O3_NO_SUCH_CHOICE if `flags` is no sum of values of enum fe2o3_server_flag,
/// - FE2O3_NOT_UTF8 for `username`, `external_authcid` and `identities`,
/// - FE2O3_CHANNEL_DATA_LENGTH if the server binds channels, and data have more than 64 bytes,
/// - FE2O3_TOO_LONG if `mock_secret` is not empty, and `mock_salt_len` is above 64,
/// - FE2O3_NO_SUCH_MECHANISM if nothing would be offered,
/// - FE2O3_INVALID_SNAPSHOT if no connection of a server has this struct,
/// - FE2O3_TOO_LONG if a name or a message does not fit into the struct. Close the connection then.
#[unsafe(no_mangle)]
pub extern "C" fn fe2o3_sasl_server_receive(
    alloc: Global,
    config: &SaslServerConfig<'_>,
    server: &mut SaslServer,
    bytes: &[u8],
    nonce: &[u8; 32],
    taken: &mut usize,
    out: &mut [u8],
    out_len: &mut usize,
) -> u32
    ensures { AnswersText result (λ answer. ReceivesOrAsks config.now bytes.now nonce.now server.old server.new taken.new
        (record { bytes = out.old; len = out_len.old }) (record { bytes = out.new; len = out_len.new }) answer
        × OnErr answer ((server.new ≡ server.old) × (taken.new ≡ taken.old))
        × AsksText (ReceiveAsks config.now server.old) answer) }
{
    let mut meter = Meter::new();
    text_number(receive(
        alloc, config, server, bytes, nonce, &mut meter, taken, out, out_len,
    ))
}
