//! The client's side of a connection (AMQP 1.0, part 5, section 5.3.2).

ghost use Rattle.std.specs.Prelude.{◌≡◌, ◌≢◌, ◌≤◌, ◌^◌, ◌++◌, ℕ, Bool, false, List, Option, [], IfOk, IfErr, OnOk, OnErr, option_map, string_bytes, length, drop, min, refl};
ghost use Rattle.std.proofs.Common.{inl};
ghost use Rattle.fe2o3_sasl_core.specs.Profiles.{Profile};
ghost use Rattle.fe2o3_sasl_core.specs.Runs.{client_reply};
ghost use Rattle.fe2o3_sasl_core.specs.SaslProfile.{profile_of};
ghost use Rattle.fe2o3_sasl_negotiation.specs.Framing.{sasl_header};
ghost use Rattle.fe2o3_sasl_negotiation.specs.ClientNegotiation.{ClientOpens, ClientOutputs, client_follows, ClientReplies, ClientSideAnswers, ClientReplyCosts, ClientCosts};
ghost use Rattle.fe2o3_sasl_negotiation.specs.Connections.{SpellsTurn};
ghost use Rattle.fe2o3_sasl_negotiation.specs.Memory.{ClientAsks};
ghost use Rattle.fe2o3_sasl_negotiation.specs.Snapshot.{IsClientKept, client_fits, side_of};
ghost use Rattle.fe2o3_sasl_negotiation.specs.private.Units.{Appends};
ghost use Rattle.fe2o3_sasl_core.specs.Events.{Reported, Refused};
ghost use Rattle.fe2o3_sasl_core.specs.declared.sasl_profile.error.ProfileError.TheVariants.{OutOfMemory as ProfileWantsMemory};
ghost use Rattle.fe2o3_sasl_wire.specs.FrameView.{shown};
ghost use Rattle.fe2o3_sasl_negotiation.specs.declared.progress.Expected.TheVariants.{Header};
ghost use Rattle.fe2o3_sasl_negotiation.specs.declared.progress.Progress.TheVariants.{InProgress};

use crate::framing::{MAX_FRAME, Step, is_sasl, read_expected, refuse_header, send};
use crate::progress::{CloseReason, Expected, FrameKind, Progress};
use crate::side::{ConnectionSide, Endpoint, Role};
use crate::snapshot::{RestoreError, Snapshot};
use bytes::BytesMut;
use fe2o3_sasl_core::{ClientReply, OutOfMemory, ProfileError, SaslProfile, profile_frame_step};
use fe2o3_sasl_wire::{ProtocolHeader, SaslCode};
use fe2o3_scram::Meter;
use std::alloc::Global;

/// The role of a client.
#[derive(Drop)]
pub struct ClientRole {}

impl Role for ClientRole {
    ghost fits = { client_fits };
}

/// A profile and the hostname that its init carries.
#[derive(Drop)]
pub struct ClientEndpoint {
    profile: SaslProfile,
    hostname: Option<String>,
}

/// The client's side of one connection, which logs in by a profile. One by a policy (`SaslProfile::by_policy`) selects its
/// mechanism when the list of mechanisms is complete.
pub type ClientNegotiation = ConnectionSide<ClientEndpoint, ClientRole>;

/// Answers the server's header. A client continues only after the header of SASL.
fn open(header: &[u8]) -> Step
    requires { length header.now ≡ 8 }
    ensures { (out : List ℕ) → Appends (ClientOpens header.now) out out result }
{
    if is_sasl(header) {
        Step {
            progress: Progress::InProgress,
            expected: Expected::Frame(FrameKind::Mechanisms),
        }
    } else {
        refuse_header(header)
    }
}

/// Returns the frame that a client expects after its answer to one of this turn.
fn following(signs: bool, turn: FrameKind) -> FrameKind
    ensures { result ≡ client_follows signs turn }
{
    match turn {
        FrameKind::Mechanisms => FrameKind::Challenge,
        FrameKind::Challenge if signs => FrameKind::SignatureChallenge,
        _ => FrameKind::Outcome,
    }
}

/// Sends the profile's reply.
fn send_reply(out: &mut BytesMut, signs: bool, turn: FrameKind, reply: ClientReply) -> Step
    requires { 512 ≤ out.old.spare }
    ensures { Appends (ClientOutputs signs (client_reply reply) turn) out.old.items out.new.items result }
{
    let expected = Expected::Frame(turn);
    let next = Expected::Frame(following(signs, turn));
    match reply {
        ClientReply::Init { body } => match turn {
            FrameKind::Mechanisms => send(out, &body, Progress::InProgress, next),
            _ => Step::closed(CloseReason::UnexpectedFrame, expected),
        },
        ClientReply::Response { body } => match turn {
            FrameKind::Challenge | FrameKind::SignatureChallenge => {
                send(out, &body, Progress::InProgress, next)
            }
            _ => Step::closed(CloseReason::UnexpectedFrame, expected),
        },
        ClientReply::Outcome(outcome) => concluded(turn, outcome.code),
    }
}

/// Returns the progress of a client after an outcome that its profile reports.
fn concluded(turn: FrameKind, code: SaslCode) -> Step
    ensures { (out : List ℕ) (signs : Bool) (more : Option (List ℕ))
        → Appends (ClientOutputs signs (Reported code more) turn) out out result }
{
    match code {
        SaslCode::Ok => Step {
            progress: Progress::Authenticated,
            expected: Expected::Frame(turn),
        },
        code => Step::closed(CloseReason::Refused(code), Expected::Frame(turn)),
    }
}

/// Fails with an error of the profile other than `OutOfMemory`.
fn refuse(turn: FrameKind, fault: ProfileError) -> Result<Step, OutOfMemory>
    ensures ok { IfOk result (λ step. (out : List ℕ) (signs : Bool)
        → Appends (ClientOutputs signs (Refused fault) turn) out out step) }
    ensures err { OnErr result (fault ≡ ProfileWantsMemory) }
{
    match fault {
        ProfileError::OutOfMemory => Err(OutOfMemory),
        ProfileError::NotImplemented
        | ProfileError::Scram(_)
        | ProfileError::StaleKeys
        | ProfileError::Frame(_) => {
            Ok(Step::closed(CloseReason::Mechanism(fault), Expected::Frame(turn)))
        }
    }
}

/// Answers a frame, which begins with its size.
fn reply(
    alloc: Global,
    profile: &mut SaslProfile,
    hostname: Option<&str>,
    turn: FrameKind,
    unit: &[u8],
    nonce: &[u8; 32],
    meter: &mut Meter,
    out: &mut BytesMut,
) -> Result<Step, OutOfMemory>
    requires four { 4 ≤ length unit.now }
    requires meter { meter.old ≤ 2 ^ 63 }
    ensures ok { IfOk result (λ step. Appends (λ answer. ClientReplies (shown hostname.entry) turn (profile_of profile.old)
        (record { body = drop 4 unit.now; nonce = nonce.now }) answer (profile_of profile.new))
        out.old.items out.new.items step) }
    ensures unsent { OnErr result (out.new.items ≡ out.old.items) }
    ensures unchanged { OnErr result (profile_of profile.new ≡ profile_of profile.old) }
    ensures memory { OnErr result (SpellsTurn turn (drop 4 unit.now)) }
    ensures cost { ClientReplyCosts turn (profile_of profile.old) (record { body = drop 4 unit.now; nonce = nonce.now })
        meter.old meter.new }
{
    let view = match read_expected(turn, &unit[4..]) {
        Ok(view) => view,
        Err(why) => return Ok(Step::closed(why, Expected::Frame(turn))),
    };
    out.reserve(MAX_FRAME)?;
    let signs = profile.accepts_signature_by_challenge();
    match profile_frame_step(alloc, profile, view, nonce, hostname, meter) {
        Ok(reply) => Ok(send_reply(out, signs, turn, reply)),
        Err(fault) => refuse(turn, fault),
    }
}

/// Returns the hostname of a client, if it has one.
fn shown_name(hostname: &Option<String>) -> Option<&str>
    ensures { shown result ≡ option_map string_bytes hostname.now }
{
    match hostname {
        Some(hostname) => Some(hostname.as_str()),
        None => None,
    }
}

impl Endpoint<ClientRole> for ClientEndpoint {
    ghost use Rattle.fe2o3_sasl_negotiation.specs.Sides.{endpoint_profile, endpoint_hostname};

    ghost State = { Profile };

    ghost Config = { Option (List ℕ) };

    ghost state = { endpoint_profile };

    ghost config = { endpoint_hostname };

    ghost answers = { ClientSideAnswers };

    ghost asks = { ClientAsks };

    ghost costs = { ClientCosts };

    ghost costs_none = { λ side bytes nonce count. inl refl };

    ghost asks_room = { λ room side bytes going few. (going, inl few) };

    ghost size_fits = { λ kind fits. fits };

    ghost input_fits = { λ expected fits. fits };

    fn answer(
        &mut self,
        alloc: Global,
        expected: Expected,
        unit: &[u8],
        nonce: &[u8; 32],
        meter: &mut Meter,
        out: &mut BytesMut,
    ) -> Result<Step, OutOfMemory> {
        match expected {
            Expected::Header => Ok(open(unit)),
            Expected::Frame(turn) => {
                let hostname = shown_name(&self.hostname);
                reply(
                    alloc,
                    &mut self.profile,
                    hostname,
                    turn,
                    unit,
                    nonce,
                    meter,
                    out,
                )
            }
        }
    }
}

impl ClientNegotiation {
    ghost use Rattle.fe2o3_sasl_negotiation.specs.Nonces.{client_uses_nonce};
    ghost use Rattle.fe2o3_sasl_negotiation.specs.Sides.{client_side, extended_in, hostname_in};

    /// Makes the client's side of a new connection from a profile that no connection has used and the hostname that its
    /// init carries, if any. The client speaks first: send its header (`open`).
    pub fn new(alloc: Global, profile: SaslProfile, hostname: Option<String>) -> Self
        ensures side { client_side result
            ≡ record { progress = InProgress; expected = Header; limit = 512; held = []; state = profile_of profile } }
        ensures hostname { hostname_in result ≡ option_map string_bytes hostname }
        ensures extended { extended_in result ≡ false }
    {
        Self::with_frame_limit(alloc, profile, hostname, MAX_FRAME)
    }

    /// Like `new`, but the side rejects a frame of more bytes than the limit, if that is below 512.
    pub fn with_frame_limit(
        alloc: Global,
        profile: SaslProfile,
        hostname: Option<String>,
        limit: usize,
    ) -> Self
        ensures side { client_side result ≡ record {
          progress = InProgress;
          expected = Header;
          limit = min limit 512;
          held = [];
          state = profile_of profile;
        } }
        ensures hostname { hostname_in result ≡ option_map string_bytes hostname }
        ensures extended { extended_in result ≡ false }
    {
        ConnectionSide::begin(alloc, ClientEndpoint { profile, hostname }, limit)
    }

    /// Returns the profile.
    pub fn profile(&self) -> &SaslProfile
        ensures { profile_of result.now ≡ (client_side self.now).state }
    {
        &self.endpoint.profile
    }

    /// Returns whether the next call of `receive` may use its nonce: the list of mechanisms is expected. Otherwise every
    /// nonce gives the same result (`nonces::unused_nonces`), and you need no fresh random bytes.
    pub fn wants_nonce(&self) -> bool
        ensures { result ≡ client_uses_nonce (client_side self.now) }
    {
        matches!(
            (self.progress, self.expected),
            (Progress::InProgress, Expected::Frame(FrameKind::Mechanisms))
        )
    }

    /// Saves what the side has beside its profile and its hostname, for `restore`. It holds no password, key or user.
    pub fn snapshot(&self) -> Snapshot<'_>
        ensures side { side_of result (client_side self.now).state ≡ client_side self.now }
        ensures kept { IsClientKept result }
        ensures extended { result.extended_headers ≡ extended_in self.now }
    {
        Snapshot {
            progress: self.progress,
            expected: self.expected,
            limit: self.limit,
            extended_headers: self.extended_headers,
            held: &self.held,
            user: None,
            acts_for: None,
        }
    }

    /// Restores the client's side that `snapshot` saved, from a profile in the state of that side's (the profile's
    /// `restore_client_final_sent`), and its hostname.
    ///
    /// Errors, in this order: `InvalidSnapshot` if no client can have such values, and `OutOfMemory`.
    pub fn restore(
        alloc: Global,
        profile: SaslProfile,
        hostname: Option<String>,
        kept: &Snapshot<'_>,
    ) -> Result<Self, RestoreError>
        ensures ok { IfOk result (λ side. IsClientKept kept.now
            × (client_side side ≡ side_of kept.now (profile_of profile))
            × (hostname_in side ≡ option_map string_bytes hostname)
            × (extended_in side ≡ kept.now.extended_headers)) }
        ensures refused { IfErr result (λ error. error ≡ RestoreError.InvalidSnapshot → ¬ IsClientKept kept.now) }
        ensures other_user { IfErr result (λ error. error ≢ RestoreError.OtherUser) }
        ensures memory { IfErr result (λ error. error ≡ RestoreError.OutOfMemory → IsClientKept kept.now) }
    {
        if !kept.is_client() {
            return Err(RestoreError::InvalidSnapshot);
        }
        ConnectionSide::restored(alloc, ClientEndpoint { profile, hostname }, kept)
    }

    /// Appends the header of SASL, which a client sends first, and reserves room for the longest frame after it.
    pub fn open(out: &mut BytesMut) -> Result<(), OutOfMemory>
        ensures ok { OnOk result (out.new.items ≡ out.old.items ++ sasl_header) }
        ensures err { OnErr result (out.new.items ≡ out.old.items) }
    {
        out.reserve(8 + MAX_FRAME)?;
        out.extend_reserved(&<[u8; 8]>::from(ProtocolHeader::sasl()));
        Ok(())
    }
}
