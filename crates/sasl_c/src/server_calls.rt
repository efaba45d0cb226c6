//! The calls of a SCRAM server whose state is a struct between them.

ghost use Rattle.std.specs.Prelude.{◌≡◌, ◌≢◌, ◌≤◌, ◌^◌, List, ℕ, Option, None, length, Ok, Err, IfOk, IfErr, OnErr};
ghost use Rattle.fe2o3_scram.specs.ClientFirst.{HasEscapes, client_first_values};
ghost use Rattle.fe2o3_scram.specs.Credentials.{Record};
ghost use Rattle.fe2o3_scram.specs.ServerFirst.{ServerChallenge};
ghost use Rattle.fe2o3_scram.specs.ScramServer.{Initial, ServerFirstSent, challenge_kept, provider_in, state_in, rules_in, mock_in};
ghost use Rattle.sasl_c.specs.Rules.{ByRules, with_cbind_flag_y};
ghost use Rattle.sasl_c.specs.Server.{MakesChallenge, Challenges, ClaimedUser, ConcludesLogin, Concludes, FinalAsks, MemoryCosts, NotChallenged, OpensExchange, ReadsFirst, TellsUser, WritesChallenge};
ghost use Rattle.sasl_c.specs.Status.{AnswersText, AsksText, AsksWhere, Fills, FillsWithin};
ghost use Rattle.sasl_c.specs.declared.status.Status.TheVariants.{OutOfMemory as StatusOutOfMemory};
ghost use Rattle.sasl_c.specs.declared.status.WriteError.TheVariants.{RoomTooSmall};

use crate::acting::may_act;
use crate::arrays::{head, put, write};
use crate::records::ScramRecord;
use crate::rules::{ScramRules, with_cbind_flag_y};
use crate::server::{ScramServer, fits};
use crate::status::{Status, WriteError, text_number};
use fe2o3_scram::{
    ClientFirst, ClientHeader, Meter, OpenChallenge, ScramAuthenticator, ScramCredentialProvider,
    ServerRules, ServerScramErrorKind, UserRecord,
};
use std::alloc::Global;

/// A server of one user.
type Machine = ScramAuthenticator<UserRecord>;

/// Returns a server over these credentials, with these rules for the messages of a client.
pub fn server_over<C: ScramCredentialProvider>(
    credentials: C,
    rules: ServerRules,
) -> ScramAuthenticator<C>
    ensures provider { provider_in result ≡ credentials }
    ensures rules { rules_in result ≡ rules }
    ensures mock { mock_in result ≡ None }
    ensures state { state_in result ≡ Initial }
{
    ScramAuthenticator::new(credentials).with_rules(rules)
}

/// Returns a server with an open challenge to a client-first message.
fn challenged(
    alloc: Global,
    rules: ServerRules,
    kept: &ScramRecord,
    nonce: &[u8; 32],
    client_first: &[u8],
) -> Result<Machine, Status>
    ensures ok { IfOk result (λ machine. (challenge : ServerChallenge) × (stored : Record)
        × (state_in machine ≡ ServerFirstSent challenge stored)
        × MakesChallenge rules kept.now nonce.now client_first.now challenge) }
    ensures err { IfErr result (λ status. status ≢ StatusOutOfMemory
        → NotChallenged rules kept.now nonce.now client_first.now status) }
    ensures memory { AsksWhere (ReadsFirst rules client_first.now) result }
{
    let first = match ClientFirst::parse_with_rules(alloc, client_first, rules) {
        Ok(first) => first,
        Err(why) => return Err(Status::from(why)),
    };
    let username = first.username.into_owned(alloc)?;
    let kept = match kept.read(alloc) {
        Ok(kept) => kept,
        Err(status) => return Err(status),
    };
    let credential = UserRecord::new(username, kept);
    let mut machine = server_over(credential, rules);
    match machine.compute_server_first_message(alloc, client_first, nonce) {
        Ok(Some(_)) => Ok(machine),
        Ok(None) => Err(Status::Server(ServerScramErrorKind::AuthenticationFailed)),
        Err(why) => Err(Status::from(why)),
    }
}

/// Writes the message of a challenge, and the struct that holds the challenge.
fn open_into(
    version: u32,
    challenge: &OpenChallenge<'_>,
    server: &mut ScramServer,
    out: &mut [u8],
    out_len: &mut usize,
) -> Result<(), WriteError>
    ensures { WritesChallenge version (challenge_kept challenge.now) server.old server.new
        (record { bytes = out.old; len = out_len.old }) (record { bytes = out.new; len = out_len.new }) result }
{
    if !fits(challenge) {
        return Err(WriteError::Other(Status::TooLong));
    }
    put(challenge.server_first_message, out, out_len)?;
    server.open(version, challenge);
    Ok(())
}

/// Writes the server-first message, and the struct of the server with its open challenge.
fn first_into(
    alloc: Global,
    rules: ServerRules,
    kept: &ScramRecord,
    server: &mut ScramServer,
    nonce: &[u8; 32],
    client_first: &[u8],
    out: &mut [u8],
    out_len: &mut usize,
) -> Result<(), WriteError>
    ensures text { Fills (Challenges rules kept.now nonce.now client_first.now)
        (record { bytes = out.old; len = out_len.old }) (record { bytes = out.new; len = out_len.new }) result }
    ensures moved { OpensExchange rules kept.now nonce.now client_first.now server.old server.new result }
    ensures memory { AsksText (ReadsFirst rules client_first.now) result }
{
    let machine = match challenged(alloc, rules, kept, nonce, client_first) {
        Ok(machine) => machine,
        Err(status) => return Err(WriteError::Other(status)),
    };
    let Some(challenge) = machine.open_challenge() else {
        drop(machine);
        return Err(WriteError::Other(Status::TooLong));
    };
    let written = open_into(kept.version, &challenge, server, out, out_len);
    drop(machine);
    written
}

/// Answers a client-first message with the server-first message (RFC 5802, section 5.1). This starts a new exchange,
/// whatever the state of the server is.
///
/// Pass the same rules to `fe2o3_scram_server_final`. Rules of zeros are those of a server without options. `kept` is the
/// record of the claimed user (`fe2o3_scram_server_claimed_user`), or a mock record (`fe2o3_scram_record_mock`) for an
/// unknown one. `nonce` is 32 fresh random bytes.
///
/// If the server binds channels, the GS2 header has to be `p=` with the name of a kind whose data the rules have
/// (section 6). Otherwise it has to be `n,,`, or `y,,` if the rules accept that. It may name an identity to act for, as
/// `n,a=NAME,`, if the rules accept that.
///
/// The errors are, in this order:
///
/// - FE2O3_CHANNEL_DATA_LENGTH if the rules bind channels, and data have more than 64 bytes,
/// - FE2O3_SERVER_UTF8_ERROR,
/// - FE2O3_SERVER_CANNOT_PARSE_GS2_HEADER if the rules do not accept the header, or its identity is empty, has NUL or a
///   wrong escape,
/// - FE2O3_SERVER_CANNOT_PARSE_USERNAME and FE2O3_SERVER_CANNOT_PARSE_CLIENT_NONCE,
/// - the same two of a strict server, if the name is empty or has NUL, or the nonce is empty or not printable,
/// - FE2O3_SERVER_MISPLACED_ATTRIBUTE of a server that is strict, has `reject_misplaced`, binds channels or accepts
///   identities,
/// - FE2O3_NO_SUCH_VERSION and FE2O3_TOO_LONG if `kept` holds no record,
/// - FE2O3_TOO_LONG if a text of the challenge does not fit into the struct,
/// - FE2O3_ROOM_TOO_SMALL.
#[unsafe(no_mangle)]
pub extern "C" fn fe2o3_scram_server_first(
    alloc: Global,
    rules: &ScramRules<'_>,
    kept: &ScramRecord,
    server: &mut ScramServer,
    nonce: &[u8; 32],
    client_first: &[u8],
    out: &mut [u8],
    out_len: &mut usize,
) -> u32
    ensures { AnswersText result (λ answer. ByRules rules.now
        ((server.new ≡ server.old) × (out.new ≡ out.old) × (out_len.new ≡ out_len.old))
        (λ shown answer. Fills (Challenges shown kept.now nonce.now client_first.now)
        (record { bytes = out.old; len = out_len.old }) (record { bytes = out.new; len = out_len.new }) answer
        × OpensExchange shown kept.now nonce.now client_first.now server.old server.new answer
        × AsksText (ReadsFirst shown client_first.now) answer) answer) }
{
    text_number(first_by_rules(
        alloc,
        rules,
        kept,
        server,
        nonce,
        client_first,
        out,
        out_len,
    ))
}

/// Writes the server-first message by the rules of a struct, and the struct of the server with its open challenge.
fn first_by_rules(
    alloc: Global,
    rules: &ScramRules<'_>,
    kept: &ScramRecord,
    server: &mut ScramServer,
    nonce: &[u8; 32],
    client_first: &[u8],
    out: &mut [u8],
    out_len: &mut usize,
) -> Result<(), WriteError>
    ensures { ByRules rules.now
        ((server.new ≡ server.old) × (out.new ≡ out.old) × (out_len.new ≡ out_len.old))
        (λ shown answer. Fills (Challenges shown kept.now nonce.now client_first.now)
        (record { bytes = out.old; len = out_len.old }) (record { bytes = out.new; len = out_len.new }) answer
        × OpensExchange shown kept.now nonce.now client_first.now server.old server.new answer
        × AsksText (ReadsFirst shown client_first.now) answer) result }
{
    match rules.shown() {
        Ok(rules) => first_into(
            alloc,
            rules,
            kept,
            server,
            nonce,
            client_first,
            out,
            out_len,
        ),
        Err(status) => Err(WriteError::Other(status)),
    }
}

/// Writes the user name that a client-first message claims, without escapes. Nobody is authenticated yet: use it only
/// to look up the record.
///
/// `rules` are those for `fe2o3_scram_server_first` (RFC 5802, section 5.1). If the server binds channels, the GS2 header
/// has to be one that `fe2o3_scram_server_first` accepts. Otherwise `n,,` and `y,,` are both accepted here, whatever the
/// rules say.
///
/// The errors are those of `fe2o3_scram_server_first` from FE2O3_CHANNEL_DATA_LENGTH to
/// FE2O3_SERVER_MISPLACED_ATTRIBUTE, in the same order, and then FE2O3_ROOM_TOO_SMALL.
#[unsafe(no_mangle)]
pub extern "C" fn fe2o3_scram_server_claimed_user(
    alloc: Global,
    rules: &ScramRules<'_>,
    client_first: &[u8],
    out: &mut [u8],
    out_len: &mut usize,
) -> u32
    ensures { AnswersText result (λ answer. ByRules rules.now ((out.new ≡ out.old) × (out_len.new ≡ out_len.old))
        (λ shown answer. Fills (ClaimedUser (with_cbind_flag_y shown) client_first.now)
        (record { bytes = out.old; len = out_len.old }) (record { bytes = out.new; len = out_len.new }) answer
        × AsksText (HasEscapes (with_cbind_flag_y shown) client_first.now) answer) answer) }
{
    text_number(claimed_by_rules(alloc, rules, client_first, out, out_len))
}

/// Writes the user name that a client-first message claims, by the rules of a struct.
fn claimed_by_rules(
    alloc: Global,
    rules: &ScramRules<'_>,
    client_first: &[u8],
    out: &mut [u8],
    out_len: &mut usize,
) -> Result<(), WriteError>
    ensures { ByRules rules.now ((out.new ≡ out.old) × (out_len.new ≡ out_len.old))
        (λ shown answer. Fills (ClaimedUser (with_cbind_flag_y shown) client_first.now)
        (record { bytes = out.old; len = out_len.old }) (record { bytes = out.new; len = out_len.new }) answer
        × AsksText (HasEscapes (with_cbind_flag_y shown) client_first.now) answer) result }
{
    match rules.shown() {
        Ok(rules) => {
            let rules = with_cbind_flag_y(rules);
            claimed_into(alloc, rules, client_first, out, out_len)
        }
        Err(status) => Err(WriteError::Other(status)),
    }
}

/// Writes the user name that a client-first message claims.
fn claimed_into(
    alloc: Global,
    rules: ServerRules,
    client_first: &[u8],
    out: &mut [u8],
    out_len: &mut usize,
) -> Result<(), WriteError>
    ensures filled { Fills (ClaimedUser rules client_first.now) (record { bytes = out.old; len = out_len.old })
        (record { bytes = out.new; len = out_len.new }) result }
    ensures memory { AsksText (HasEscapes rules client_first.now) result }
{
    match ClientFirst::parse_with_rules(alloc, client_first, rules) {
        Ok(first) => put(user_of(&first), out, out_len),
        Err(why) => Err(WriteError::Other(Status::from(why))),
    }
}

/// Returns the user name that a client-first message claims. It is a function of its own because the proof of
/// `claimed_into` cites its contract.
fn user_of<'a>(first: &'a ClientFirst<'_>) -> &'a [u8]
    ensures { result.now ≡ (client_first_values first.now).user }
{
    first.username.as_bytes()
}

/// Returns the server-final message to a user who may act for these identities.
fn concluded(
    alloc: Global,
    rules: ServerRules,
    identities: &[u8],
    kept: &ScramRecord,
    server: &ScramServer,
    client_final: &[u8],
    meter: &mut Meter,
) -> Result<Vec<u8>, Status>
    requires { meter.old ≤ 2 ^ 63 }
    ensures ok { IfOk result (λ message. (user : List ℕ) × (acts_for : Option (List ℕ))
        × ConcludesLogin rules identities.now kept.now server.now client_final.now message.items user acts_for) }
    ensures fits { IfOk result (λ message. length message.items ≤ 90) }
    ensures named { IfOk result (λ _. (server.now.user_len ≤ 256) × (server.now.acts_for_len ≤ 256)) }
    ensures err { IfErr result (λ status. status ≢ StatusOutOfMemory
        → Concludes rules identities.now kept.now client_final.now server.now server.now (Err status)) }
    ensures memory { AsksWhere (FinalAsks rules kept.now client_final.now server.now) result }
    ensures cost { AsksWhere (MemoryCosts rules identities.now kept.now client_final.now server.now meter.old meter.new)
        result }
{
    let Some(challenge) = server.challenge_for(&rules) else {
        return Err(Status::Server(ServerScramErrorKind::IllegalAuthenticatorState));
    };
    let (version, stored) = match kept.lent() {
        Ok(shown) => shown,
        Err(status) => return Err(status),
    };
    let header = ClientHeader::new(rules.expected_channel(challenge.header), challenge.acts_for);
    let strict = rules.is_strict();
    match version.compute_server_final_message_with_header(
        alloc,
        &header,
        strict,
        client_final,
        challenge.client_server_nonce,
        challenge.client_first_message_bare,
        challenge.server_first_message,
        &stored,
        may_act(challenge.username, challenge.acts_for, identities),
        meter,
    ) {
        Ok(message) => Ok(message),
        Err(why) => Err(Status::from(why)),
    }
}

/// The maximum number of bytes of a server-final message.
const FINAL_MOST: usize = 90;

/// Writes the server-final message.
#[tactic(auto, using(crate::proofs::ServerLemmas::concludes))]
fn conclude(
    alloc: Global,
    rules: ServerRules,
    identities: &[u8],
    kept: &ScramRecord,
    server: &mut ScramServer,
    client_final: &[u8],
    meter: &mut Meter,
    out: &mut [u8],
    out_len: &mut usize,
) -> Result<(), WriteError>
    requires { meter.old ≤ 2 ^ 63 }
    ensures text { FillsWithin 90 (Concludes rules identities.now kept.now client_final.now server.old server.new)
        (record { bytes = out.old; len = out_len.old }) (record { bytes = out.new; len = out_len.new }) result }
    ensures stays { OnErr result (server.new ≡ server.old) }
    ensures first { IfErr result (λ status. status ≡ RoomTooSmall → meter.new ≡ meter.old) }
    ensures memory { AsksText (FinalAsks rules kept.now client_final.now server.old) result }
    ensures cost { AsksText (MemoryCosts rules identities.now kept.now client_final.now server.old meter.old meter.new)
        result }
{
    if out.len() < FINAL_MOST {
        *out_len = FINAL_MOST;
        return Err(WriteError::RoomTooSmall);
    }
    let message = concluded(alloc, rules, identities, kept, server, client_final, meter)?;
    put(&message, out, out_len)?;
    server.log_in();
    Ok(())
}

/// Answers a client-final message with the server-final message, if its proof is right (RFC 5802, section 5.1). Only
/// FE2O3_OK means that the user is authenticated.
///
/// `rules` and `kept` are those that `fe2o3_scram_server_first` was called with. `out` needs 90 bytes, which is tested
/// before anything is hashed. If the server binds channels, the message has to have the GS2 header of the exchange and
/// the server's data of its kind (section 6).
///
/// The errors are, in this order:
///
/// - FE2O3_CHANNEL_DATA_LENGTH if the rules bind channels, and data have more than 64 bytes,
/// - FE2O3_ROOM_TOO_SMALL if `out` has fewer than 90 bytes,
/// - FE2O3_SERVER_ILLEGAL_AUTHENTICATOR_STATE if no challenge is open for these rules: none is open, or it is to a
///   client that binds a channel by a kind of which the rules have no data, or the rules bind channels and its client
///   binds none,
/// - FE2O3_NO_SUCH_VERSION and FE2O3_TOO_LONG if `kept` holds no record,
/// - FE2O3_SERVER_UTF8_ERROR, FE2O3_SERVER_CANNOT_PARSE_CLIENT_FINAL_MESSAGE and FE2O3_SERVER_BASE64_DECODE_ERROR,
/// - FE2O3_SERVER_INVALID_CHANNEL_BINDING if the message has another GS2 header than the exchange, or other data than
///   the rules,
/// - FE2O3_SERVER_CANNOT_PARSE_CLIENT_FINAL_MESSAGE and FE2O3_SERVER_INCORRECT_CLIENT_FINAL_NONCE,
/// - FE2O3_SERVER_PROOF_NOT_FOUND_IN_CLIENT_FINAL and FE2O3_SERVER_BASE64_DECODE_ERROR, of the proof,
/// - FE2O3_SERVER_MISPLACED_ATTRIBUTE of a server that is strict, has `reject_misplaced`, binds channels or accepts
///   identities, or whose client said `y,,`,
/// - FE2O3_SERVER_XOR_LENGTH_MISMATCH if the proof is not as long as a digest,
/// - FE2O3_SERVER_AUTHENTICATION_FAILED if the proof is wrong, or the user may not act for the identity that the client
///   named (RFC 4422, section 2).
#[unsafe(no_mangle)]
pub extern "C" fn fe2o3_scram_server_final(
    alloc: Global,
    rules: &ScramRules<'_>,
    kept: &ScramRecord,
    server: &mut ScramServer,
    client_final: &[u8],
    out: &mut [u8],
    out_len: &mut usize,
) -> u32
    ensures { AnswersText result (λ answer. ByRules rules.now
        ((server.new ≡ server.old) × (out.new ≡ out.old) × (out_len.new ≡ out_len.old))
        (λ shown answer. FillsWithin 90 (Concludes shown rules.now.identities.now kept.now client_final.now server.old server.new)
        (record { bytes = out.old; len = out_len.old }) (record { bytes = out.new; len = out_len.new }) answer
        × OnErr answer (server.new ≡ server.old) × AsksText (FinalAsks shown kept.now client_final.now server.old) answer)
        answer) }
{
    text_number(conclude_by_rules(alloc, rules, kept, server, client_final, out, out_len))
}

/// Writes the server-final message by the rules of a struct.
fn conclude_by_rules(
    alloc: Global,
    rules: &ScramRules<'_>,
    kept: &ScramRecord,
    server: &mut ScramServer,
    client_final: &[u8],
    out: &mut [u8],
    out_len: &mut usize,
) -> Result<(), WriteError>
    ensures { ByRules rules.now
        ((server.new ≡ server.old) × (out.new ≡ out.old) × (out_len.new ≡ out_len.old))
        (λ shown answer. FillsWithin 90 (Concludes shown rules.now.identities.now kept.now client_final.now server.old server.new)
        (record { bytes = out.old; len = out_len.old }) (record { bytes = out.new; len = out_len.new }) answer
        × OnErr answer (server.new ≡ server.old) × AsksText (FinalAsks shown kept.now client_final.now server.old) answer)
        result }
{
    match rules.shown() {
        Ok(shown) => {
            let mut meter = Meter::new();
            conclude(
                alloc,
                shown,
                rules.identities,
                kept,
                server,
                client_final,
                &mut meter,
                out,
                out_len,
            )
        }
        Err(status) => Err(WriteError::Other(status)),
    }
}

/// Returns the name of the authenticated user.
fn authenticated_user(server: &ScramServer) -> Result<&[u8], Status>
    ensures ok { IfOk result (λ user. TellsUser server.now (Ok user.now)) }
    ensures err { IfErr result (λ status. status ≢ StatusOutOfMemory → TellsUser server.now (Err status)) }
    ensures memory { AsksWhere ⊥ result }
{
    let illegal = Status::Server(ServerScramErrorKind::IllegalAuthenticatorState);
    if server.state != 2 {
        return Err(illegal);
    }
    head(&server.user, server.user_len).ok_or(illegal)
}

/// Writes the name of the authenticated user, without escapes. Returns FE2O3_SERVER_ILLEGAL_AUTHENTICATOR_STATE if no
/// user is authenticated.
#[unsafe(no_mangle)]
#[tactic(auto, using(crate::proofs::StatusLemmas::written))]
pub extern "C" fn fe2o3_scram_server_authenticated_user(
    server: &ScramServer,
    out: &mut [u8],
    out_len: &mut usize,
) -> u32
    ensures { AnswersText result (λ answer. Fills (TellsUser server.now) (record { bytes = out.old; len = out_len.old })
        (record { bytes = out.new; len = out_len.new }) answer × AsksText ⊥ answer) }
{
    text_number(write(authenticated_user(server), out, out_len))
}
