//! The server's side of a connection (AMQP 1.0, part 5, section 5.3.2).

ghost use Rattle.std.specs.Prelude.{◌≡◌, ◌≢◌, ◌≤◌, ◌^◌, ◌++◌, ℕ, false, List, [], IfOk, IfErr, OnErr, option_map, length, drop, min, refl};
ghost use Rattle.std.proofs.Common.{inl};
ghost use Rattle.fe2o3_sasl_core.specs.Runs.{server_reply};
ghost use Rattle.fe2o3_sasl_core.specs.Events.{Failed};
ghost use Rattle.fe2o3_sasl_negotiation.specs.Connections.{SpellsTurn};
ghost use Rattle.fe2o3_sasl_negotiation.specs.Memory.{ServerAsks};
ghost use Rattle.fe2o3_sasl_negotiation.specs.ServerNegotiation.{offer_body as offer_of, ServerOpens, ServerOutputs, ServerReplies, ServerReplyCosts, ServerSideAnswers, ServerCosts};
ghost use Rattle.fe2o3_sasl_negotiation.specs.Snapshot.{HasSavedNames, IsServerKept, NamesKeptUser, server_fits, side_of};
ghost use Rattle.fe2o3_sasl_negotiation.specs.private.Units.{Appends};
ghost use Rattle.fe2o3_sasl_wire.specs.declared.sasl_frames.error.Error.TheVariants.{OutOfMemory as WireOutOfMemory};
ghost use Rattle.fe2o3_sasl_negotiation.specs.declared.progress.Expected.TheVariants.{Header};
ghost use Rattle.fe2o3_sasl_negotiation.specs.declared.progress.Progress.TheVariants.{InProgress, Authenticated};

use crate::framing::{MAX_FRAME, Step, is_sasl, read_expected, refuse_header, send};
use crate::progress::{CloseReason, Expected, FrameKind, Progress};
use crate::side::{ConnectionSide, Endpoint, Role};
use crate::snapshot::{RestoreError, Snapshot, is_name};
use bytes::BytesMut;
use fe2o3_sasl_core::{
    AuthenticatedUser, OutOfMemory, SaslAcceptor, SaslAcceptorExt, ServerReply, acceptor_frame_step,
};
use fe2o3_sasl_wire::{Error, Frame, FrameCodec, ProtocolHeader, SaslCode};
use fe2o3_scram::Meter;
use std::alloc::Global;

/// The role of a server.
#[derive(Drop)]
pub struct ServerRole {}

impl Role for ServerRole {
    ghost fits = { server_fits };
}

/// The server's side of one connection, which logs its client in by an acceptor.
pub type ServerNegotiation<A> = ConnectionSide<A, ServerRole>;

/// Returns the body of the list of mechanisms, or `None` if it has none.
fn offer_body<A: SaslAcceptor>(alloc: Global, acceptor: &A) -> Result<Option<BytesMut>, OutOfMemory>
    ensures { IfOk result (λ body. option_map (λ b. b.items) body ≡ offer_of (A.names (A.state acceptor.now))) }
{
    let mechanisms = acceptor.sasl_mechanisms(alloc)?;
    let mut body = BytesMut::new(alloc);
    match (FrameCodec {}).encode(Frame::Mechanisms(mechanisms), &mut body) {
        Ok(()) => Ok(Some(body)),
        Err(Error::OutOfMemory) => Err(OutOfMemory),
        Err(_) => Ok(None),
    }
}

/// Sends the header of SASL, followed by the mechanisms if the client has sent that header.
fn open<A: SaslAcceptor>(
    alloc: Global,
    acceptor: &A,
    header: &[u8],
    out: &mut BytesMut,
) -> Result<Step, OutOfMemory>
    requires { length header.now ≡ 8 }
    ensures ok { IfOk result (λ step.
        Appends (ServerOpens (A.names (A.state acceptor.now)) header.now) out.old.items out.new.items step) }
    ensures err { OnErr result (out.new.items ≡ out.old.items) }
{
    let sasl = <[u8; 8]>::from(ProtocolHeader::sasl());
    if !is_sasl(header) {
        out.extend_from_slice(&sasl)?;
        return Ok(refuse_header(header));
    }
    let offer = offer_body(alloc, acceptor)?;
    out.reserve(8 + MAX_FRAME)?;
    out.extend_reserved(&sasl);
    match offer {
        Some(body) => Ok(send(
            out,
            body.as_slice(),
            Progress::InProgress,
            Expected::Frame(FrameKind::Init),
        )),
        None => Ok(Step::closed(CloseReason::ReplyTooLarge, Expected::Header)),
    }
}

/// Sends the acceptor's reply.
fn send_reply(out: &mut BytesMut, turn: FrameKind, reply: ServerReply) -> Step
    requires { 512 ≤ out.old.spare }
    ensures { Appends (ServerOutputs (server_reply reply) turn) out.old.items out.new.items result }
{
    let expected = Expected::Frame(turn);
    match reply {
        ServerReply::Challenge { body } => send(
            out,
            &body,
            Progress::InProgress,
            Expected::Frame(FrameKind::Response),
        ),
        ServerReply::Outcome {
            code: SaslCode::Ok,
            body,
        } => send(out, &body, Progress::Authenticated, expected),
        ServerReply::Outcome { code, body } => {
            send(
                out,
                &body,
                Progress::Failed(CloseReason::Refused(code)),
                expected,
            )
        }
    }
}

/// Fails with an error of the acceptor's step other than `OutOfMemory`.
fn refuse(turn: FrameKind, fault: Error) -> Result<Step, OutOfMemory>
    ensures ok { IfOk result (λ step. (out : List ℕ) → Appends (ServerOutputs (Failed fault) turn) out out step) }
    ensures err { OnErr result (fault ≡ WireOutOfMemory) }
{
    match fault {
        Error::OutOfMemory => Err(OutOfMemory),
        Error::DecodeError | Error::NotImplemented | Error::TooLarge => {
            Ok(Step::closed(CloseReason::MalformedFrame(fault), Expected::Frame(turn)))
        }
    }
}

/// Answers a frame, which begins with its size.
fn reply<A: SaslAcceptor>(
    alloc: Global,
    acceptor: &mut A,
    turn: FrameKind,
    unit: &[u8],
    nonce: &[u8; 32],
    meter: &mut Meter,
    out: &mut BytesMut,
) -> Result<Step, OutOfMemory>
    requires four { 4 ≤ length unit.now }
    requires meter { meter.old ≤ 2 ^ 63 }
    ensures ok { IfOk result (λ step. Appends (λ answer. ServerReplies A.machine turn (A.state acceptor.old)
        (record { body = drop 4 unit.now; nonce = nonce.now }) answer (A.state acceptor.new))
        out.old.items out.new.items step) }
    ensures unsent { OnErr result (out.new.items ≡ out.old.items) }
    ensures unchanged { OnErr result (A.state acceptor.new ≡ A.state acceptor.old) }
    ensures memory { OnErr result (SpellsTurn turn (drop 4 unit.now)) }
    ensures cost { ServerReplyCosts A.hmacs turn (A.state acceptor.old) (record { body = drop 4 unit.now; nonce = nonce.now })
        meter.old meter.new }
{
    let view = match read_expected(turn, &unit[4..]) {
        Ok(view) => view,
        Err(why) => return Ok(Step::closed(why, Expected::Frame(turn))),
    };
    out.reserve(MAX_FRAME)?;
    match acceptor_frame_step(alloc, acceptor, view, nonce, meter) {
        Ok(reply) => Ok(send_reply(out, turn, reply)),
        Err(fault) => refuse(turn, fault),
    }
}

impl<A: AuthenticatedUser> Endpoint<ServerRole> for A {
    ghost State = { A.State };

    ghost Config = { Unit {0} };

    ghost state = { A.state };

    ghost config = { λ acceptor. tt };

    ghost answers = { λ config. ServerSideAnswers A.names A.machine };

    ghost asks = { ServerAsks };

    ghost costs = { ServerCosts A.hmacs };

    ghost costs_none = { λ side bytes nonce count. inl refl };

    ghost asks_room = { λ room side bytes going few. (going, inl few) };

    ghost size_fits = { λ kind fits. fits };

    ghost input_fits = { λ expected fits. fits };

    fn answer(
        &mut self,
        alloc: Global,
        expected: Expected,
        unit: &[u8],
        nonce: &[u8; 32],
        meter: &mut Meter,
        out: &mut BytesMut,
    ) -> Result<Step, OutOfMemory> {
        match expected {
            Expected::Header => open(alloc, self, unit, out),
            Expected::Frame(turn) => reply(alloc, self, turn, unit, nonce, meter, out),
        }
    }
}

impl<A: AuthenticatedUser> ServerNegotiation<A> {
    ghost use Rattle.fe2o3_sasl_negotiation.specs.Nonces.{server_uses_nonce};
    ghost use Rattle.fe2o3_sasl_negotiation.specs.Sides.{acceptor_in, extended_in, server_side};

    /// Makes the server's side of a new connection, by an acceptor that no connection has used. It waits for the
    /// client's header.
    pub fn new(alloc: Global, acceptor: A) -> Self
        ensures side { server_side A.state result
            ≡ record { progress = InProgress; expected = Header; limit = 512; held = []; state = A.state acceptor } }
        ensures extended { extended_in result ≡ false }
    {
        Self::with_frame_limit(alloc, acceptor, MAX_FRAME)
    }

    /// Like `new`, but the side rejects a frame of more bytes than the limit, if that is below 512.
    pub fn with_frame_limit(alloc: Global, acceptor: A, limit: usize) -> Self
        ensures side { server_side A.state result ≡ record {
          progress = InProgress;
          expected = Header;
          limit = min limit 512;
          held = [];
          state = A.state acceptor;
        } }
        ensures extended { extended_in result ≡ false }
    {
        ConnectionSide::begin(alloc, acceptor, limit)
    }

    /// Returns the acceptor.
    pub fn acceptor(&self) -> &A
        ensures { result.now ≡ acceptor_in self.now }
    {
        &self.endpoint
    }

    /// Returns whether the next call of `receive` may use its nonce: an init is expected. Otherwise every nonce gives the
    /// same result (`nonces::unused_nonces`), and you need no fresh random bytes.
    pub fn wants_nonce(&self) -> bool
        ensures { result ≡ server_uses_nonce (server_side A.state self.now) }
    {
        matches!(
            (self.progress, self.expected),
            (Progress::InProgress, Expected::Frame(FrameKind::Init))
        )
    }

    /// Returns the name of the user who has logged in. It is `None` before that, and for a mechanism that names no
    /// user.
    pub fn authenticated_user(&self) -> Option<&str>
        ensures logged_in { (server_side A.state self.now).progress ≡ Authenticated
            → option_map (λ user. user.now) result ≡ A.named (acceptor_in self.now) }
        ensures before { (server_side A.state self.now).progress ≢ Authenticated → result ≡ None }
    {
        match self.progress {
            Progress::Authenticated => self.endpoint.authenticated_user(),
            Progress::InProgress | Progress::Failed(_) => None,
        }
    }

    /// Returns the identity that the user of `authenticated_user` acts for, if the client named one (RFC 4422, section
    /// 2). The connection belongs to this identity, and to the user if there is none. It is `None` before the login.
    pub fn acts_for(&self) -> Option<&str>
        ensures logged_in { (server_side A.state self.now).progress ≡ Authenticated
            → option_map (λ name. name.now) result ≡ A.acting (acceptor_in self.now) }
        ensures before { (server_side A.state self.now).progress ≢ Authenticated → result ≡ None }
    {
        if matches!(self.progress, Progress::Authenticated) {
            self.endpoint.acts_for()
        } else {
            None
        }
    }

    /// Saves what the side has beside its acceptor, for `restore`. It holds no password, key or record. The user is
    /// that of `authenticated_user`, and the identity is that of `acts_for`.
    pub fn snapshot(&self) -> Snapshot<'_>
        ensures side { side_of result (A.state (acceptor_in self.now)) ≡ server_side A.state self.now }
        ensures kept { IsServerKept result }
        ensures user { NamesKeptUser result (A.named (acceptor_in self.now)) (A.acting (acceptor_in self.now)) }
        ensures extended { result.extended_headers ≡ extended_in self.now }
    {
        Snapshot {
            progress: self.progress,
            expected: self.expected,
            limit: self.limit,
            extended_headers: self.extended_headers,
            held: &self.held,
            user: self.authenticated_user(),
            acts_for: self.acts_for(),
        }
    }

    /// Restores the server's side that `snapshot` saved, with an acceptor in the state of that side's. After a login,
    /// that is an acceptor that names the saved user and the saved identity, such as `restore_authenticated` returns.
    ///
    /// Errors, in this order: `InvalidSnapshot` if no server can have such values, `OtherUser` if a server that has
    /// logged in has another user or another identity than the acceptor, and `OutOfMemory`.
    pub fn restore(alloc: Global, acceptor: A, kept: &Snapshot<'_>) -> Result<Self, RestoreError>
    where
        A: Drop,
        ensures ok { IfOk result (λ side. IsServerKept kept.now
            × NamesKeptUser kept.now (A.named acceptor) (A.acting acceptor)
            × (server_side A.state side ≡ side_of kept.now (A.state acceptor)) × (acceptor_in side ≡ acceptor)
            × (extended_in side ≡ kept.now.extended_headers)) }
        ensures refused { IfErr result (λ error. error ≡ RestoreError.InvalidSnapshot → ¬ IsServerKept kept.now) }
        ensures other_user { IfErr result (λ error. error ≡ RestoreError.OtherUser
            → IsServerKept kept.now × (kept.now.progress ≡ Authenticated)
            × ¬ HasSavedNames kept.now (A.named acceptor) (A.acting acceptor)) }
        ensures memory { IfErr result (λ error. error ≡ RestoreError.OutOfMemory
            → IsServerKept kept.now × NamesKeptUser kept.now (A.named acceptor) (A.acting acceptor)) }
    {
        if !kept.is_server() {
            return Err(RestoreError::InvalidSnapshot);
        }
        if matches!(kept.progress, Progress::Authenticated)
            && !(is_name(acceptor.authenticated_user(), kept.user)
                && is_name(acceptor.acts_for(), kept.acts_for))
        {
            return Err(RestoreError::OtherUser);
        }
        ConnectionSide::restored(alloc, acceptor, kept)
    }
}
