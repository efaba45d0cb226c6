//! One side of a connection, of either role: the framing, the progress, and the calls that pass bytes.

ghost use Rattle.std.specs.Prelude.{◌≡◌, ◌≢◌, ◌<◌, ◌≤◌, ◌^◌, ◌++◌, ℕ, Bool, false, List, Option, [], IsTrue, IfOk, IfErr, OnOk, OnErr, length, min};
ghost use Rattle.fe2o3_sasl_negotiation.specs.Framing.{IsPart, IsPart-prop, longest_unit};
ghost use Rattle.fe2o3_sasl_negotiation.specs.Negotiations.{AsksReading, CostsReading, Side, SideOutput, Reading, Receives, after_end_of_input};
ghost use Rattle.fe2o3_sasl_negotiation.specs.private.Units.{Appends, CompletesUnit};
ghost use Rattle.fe2o3_sasl_negotiation.specs.declared.progress.CloseReason.TheVariants.{EndOfInput, FrameSize};
ghost use Rattle.fe2o3_sasl_negotiation.specs.declared.progress.Expected.{Expected};
ghost use Rattle.fe2o3_sasl_negotiation.specs.declared.progress.Expected.TheVariants.{Header, Frame};
ghost use Rattle.fe2o3_sasl_negotiation.specs.declared.progress.FrameKind.{FrameKind as Kind};
ghost use Rattle.fe2o3_sasl_negotiation.specs.declared.progress.Progress.{Progress};
ghost use Rattle.fe2o3_sasl_negotiation.specs.declared.progress.Progress.TheVariants.{InProgress, Failed};

use crate::extended::copy_unextended;
use crate::framing::{Arrived, MAX_FRAME, Step, end_unit, take_unit};
use crate::progress::{CloseReason, Expected, Progress, Received};
use crate::snapshot::{RestoreError, Snapshot};
use bytes::BytesMut;
use fe2o3_sasl_core::OutOfMemory;
use fe2o3_scram::Meter;
use std::alloc::Global;
use std::marker::PhantomData;

/// What a side can expect at each progress: [`ServerRole`](crate::ServerRole) or [`ClientRole`](crate::ClientRole).
pub trait Role {
    ghost fits: { Progress → Expected → Bool };
}

/// Answers the header and the frames that arrive: on a server every acceptor, on a client a
/// [`ClientEndpoint`](crate::ClientEndpoint).
///
/// `State` is the state of its machine, `Config` what never changes, and `answers` what it answers to a header or to a
/// frame. `asks` says which calls may allocate, and `costs` how many HMAC values they take.
pub trait Endpoint<R: Role> {
    ghost State: { Type 0 };

    ghost Config: { Type 0 };

    ghost state: { Self → State };

    ghost config: { Self → Config };

    ghost answers: { Config → Expected → State → List ℕ → List ℕ → SideOutput → State → Type 0 };

    ghost asks: { ℕ → Side State → List ℕ → Type 0 };

    ghost costs: { Side State → List ℕ → List ℕ → ℕ → ℕ → Type 0 };

    /// Answers a header, or a frame with its size, and appends the bytes to send. The meter, of at most 2^63, counts
    /// the HMAC values. `OutOfMemory` changes nothing but the meter.
    fn answer(
        &mut self,
        alloc: Global,
        expected: Expected,
        unit: &[u8],
        nonce: &[u8; 32],
        meter: &mut Meter,
        out: &mut BytesMut,
    ) -> Result<Step, OutOfMemory>
        requires four { 4 ≤ length unit.now }
        requires header { expected ≡ Header → length unit.now ≡ 8 }
        requires meter { meter.old ≤ 2 ^ 63 }
        ensures ok { IfOk result (λ step. Appends (λ answer. answers (config self.old) expected (state self.old)
            nonce.now unit.now answer (state self.new)) out.old.items out.new.items step) }
        ensures fits { IfOk result (λ step. IsTrue (R.fits InProgress expected)
            → IsTrue (R.fits step.progress step.expected)) }
        ensures unsent { OnErr result (out.new.items ≡ out.old.items) }
        ensures unchanged { OnErr result (state self.new ≡ state self.old) }
        ensures config { config self.new ≡ config self.old }
        ensures memory { OnErr result ((room : ℕ) (side : Side State) (bytes : List ℕ)
            → CompletesUnit side bytes expected unit.now → asks room side bytes) }
        ensures cost { (side : Side State) (bytes : List ℕ) → CompletesUnit side bytes expected unit.now
            → side.state ≡ state self.old → costs side bytes nonce.now meter.old meter.new };

    /// `costs` allows a call that makes no HMAC value.
    ghost costs_none: { (side : Side State) (bytes nonce : List ℕ) (count : ℕ) → costs side bytes nonce count count };

    /// `asks` allows a side in progress to reserve room for the longest unit.
    ghost asks_room: { (room : ℕ) (side : Side State) (bytes : List ℕ) → side.progress ≡ InProgress
        → room < longest_unit side.limit → asks room side bytes };

    /// A side that expects a frame can fail at its size.
    ghost size_fits: { (kind : Kind) → IsTrue (R.fits InProgress (Frame kind))
        → IsTrue (R.fits (Failed FrameSize) (Frame kind)) };

    /// A side in progress can fail at the end of the stream.
    ghost input_fits: { (expected : Expected) → IsTrue (R.fits InProgress expected)
        → IsTrue (R.fits (Failed EndOfInput) expected) };
}

/// One side of a connection: [`ServerNegotiation`](crate::ServerNegotiation) or
/// [`ClientNegotiation`](crate::ClientNegotiation). A function over both sides takes a `ConnectionSide<E, R>` with `E:
/// Endpoint<R>` and `R: Role`.
#[derive(Drop)]
pub struct ConnectionSide<E, R: Role> {
    pub(crate) endpoint: E,
    pub(crate) progress: Progress,
    pub(crate) expected: Expected,
    pub(crate) limit: usize,
    pub(crate) extended_headers: bool,
    pub(crate) held: Vec<u8>,
    role: PhantomData<R>,
    ghost part: { IsPart expected limit held.items } by { IsPart-prop expected limit held.items },
    ghost most: { limit ≤ 512 },
    ghost at: { IsTrue (R.fits progress expected) },
    ghost empty: { progress ≢ InProgress → held.items ≡ [] },
}

/// Answers a header, or a frame with its size, as the endpoint answers what the side reads of it.
#[tactic(auto, using(crate::proofs::lemmas::ExtendedLemmas::as_before))]
fn answer<E: Endpoint<R>, R: Role>(
    accepts: bool,
    endpoint: &mut E,
    alloc: Global,
    expected: Expected,
    unit: &[u8],
    nonce: &[u8; 32],
    meter: &mut Meter,
    out: &mut BytesMut,
) -> Result<Step, OutOfMemory>
    requires least { 8 ≤ length unit.now }
    requires most { length unit.now ≤ 512 }
    requires header { expected ≡ Header → length unit.now ≡ 8 }
    requires meter { meter.old ≤ 2 ^ 63 }
    ensures ok { IfOk result (λ step. Appends (λ answer. Reading accepts (E.answers (E.config endpoint.old)) expected
        (E.state endpoint.old) nonce.now unit.now answer (E.state endpoint.new)) out.old.items out.new.items step) }
    ensures fits { IfOk result (λ step. IsTrue (R.fits InProgress expected)
        → IsTrue (R.fits step.progress step.expected)) }
    ensures unsent { OnErr result (out.new.items ≡ out.old.items) }
    ensures unchanged { OnErr result (E.state endpoint.new ≡ E.state endpoint.old) }
    ensures config { E.config endpoint.new ≡ E.config endpoint.old }
    ensures memory { OnErr result ((room : ℕ) (side : Side E.State) (bytes : List ℕ)
        → CompletesUnit side bytes expected unit.now → AsksReading accepts E.asks room side bytes) }
    ensures cost { (side : Side E.State) (bytes : List ℕ) → CompletesUnit side bytes expected unit.now
        → side.state ≡ E.state endpoint.old
        → CostsReading accepts E.costs side bytes nonce.now meter.old meter.new }
{
    if let (true, Expected::Frame(_)) = (accepts, expected) {
        let mut room = [0; MAX_FRAME];
        let size = copy_unextended(unit, &mut room);
        return endpoint.answer(alloc, expected, &room[..size], nonce, meter, out);
    }
    endpoint.answer(alloc, expected, unit, nonce, meter, out)
}

impl<E: Endpoint<R>, R: Role> ConnectionSide<E, R> {
    ghost use Rattle.fe2o3_sasl_negotiation.specs.Memory.{HasRoom, room_in};
    ghost use Rattle.fe2o3_sasl_negotiation.specs.Sides.{endpoint_in, extended_in, connection_side};
    ghost use Rattle.fe2o3_sasl_negotiation.specs.Snapshot.{IsKept, EndsEmpty, side_of};

    /// Makes a side of a new connection.
    pub(crate) fn begin(alloc: Global, endpoint: E, limit: usize) -> Self
        requires { IsTrue (R.fits InProgress Header) }
        ensures side { connection_side E.state result ≡ record {
          progress = InProgress;
          expected = Header;
          limit = min limit 512;
          held = [];
          state = E.state endpoint;
        } }
        ensures endpoint { endpoint_in result ≡ endpoint }
        ensures extended { extended_in result ≡ false }
    {
        Self {
            endpoint,
            progress: Progress::InProgress,
            expected: Expected::Header,
            limit: limit.min(MAX_FRAME),
            extended_headers: false,
            held: Vec::new(alloc),
            role: PhantomData,
        }
    }

    /// Makes a side of these values.
    pub(crate) fn restored(
        alloc: Global,
        endpoint: E,
        kept: &Snapshot<'_>,
    ) -> Result<Self, RestoreError>
    where
        E: Drop,
        requires kept { IsKept kept.now }
        requires fits { IsTrue (R.fits kept.now.progress kept.now.expected) }
        requires empty { EndsEmpty kept.now }
        ensures side { IfOk result (λ side. connection_side E.state side ≡ side_of kept.now (E.state endpoint)) }
        ensures endpoint { IfOk result (λ side. endpoint_in side ≡ endpoint) }
        ensures extended { IfOk result (λ side. extended_in side ≡ kept.now.extended_headers) }
        ensures err { IfErr result (λ error. error ≡ RestoreError.OutOfMemory) }
    {
        let held = kept.held.to_vec(alloc)?;
        Ok(Self {
            endpoint,
            progress: kept.progress,
            expected: kept.expected,
            limit: kept.limit,
            extended_headers: kept.extended_headers,
            held,
            role: PhantomData,
        })
    }

    /// Returns how far the negotiation is.
    pub fn progress(&self) -> Progress
        ensures { result ≡ (connection_side E.state self.now).progress }
    {
        self.progress
    }

    /// Sets whether the side accepts a frame with an extended header, which a new side does not. It then reads such a
    /// frame without that header (AMQP 1.0, part 2, section 2.3.1). The limit is that of the frame as received. Otherwise
    /// the frame closes the side with `MalformedFrame(NotImplemented)`, as a data offset does that is below 2 or above the
    /// size.
    pub fn accept_extended_headers(&mut self, accept: bool)
        ensures accepts { extended_in self.new ≡ accept }
        ensures side { connection_side E.state self.new ≡ connection_side E.state self.old }
        ensures endpoint { endpoint_in self.new ≡ endpoint_in self.old }
        ensures room { room_in self.new ≡ room_in self.old }
    {
        self.extended_headers = accept;
    }

    /// Ends the side after the other side has ended its stream (end of file), and returns the new progress. A negotiation
    /// in progress fails with [`CloseReason::EndOfInput`], and the part of a header or frame that has arrived is dropped.
    /// Otherwise nothing changes. There is nothing to send.
    pub fn end_of_input(&mut self) -> Progress
        ensures side { connection_side E.state self.new ≡ after_end_of_input (connection_side E.state self.old) }
        ensures endpoint { endpoint_in self.new ≡ endpoint_in self.old }
        ensures extended { extended_in self.new ≡ extended_in self.old }
        ensures progress { result ≡ (connection_side E.state self.new).progress }
        ensures room { room_in self.new ≡ room_in self.old }
    {
        if let Progress::InProgress = self.progress {
            self.held.clear();
            self.progress = Progress::Failed(CloseReason::EndOfInput);
        }
        self.progress
    }

    /// Takes the received bytes up to the end of the expected header or frame, and appends the bytes to send to `out`.
    /// While more bytes are needed, a call takes at least one. The nonce belongs to the frame that these bytes
    /// complete: pass fresh random bytes with each call. The meter, of at most 2^63, counts the HMAC values.
    ///
    /// Once the client is authenticated or the negotiation has failed, nothing is taken, sent, changed or allocated.
    /// Otherwise a call allocates room for the longest unit, once for a connection, and its answer to an expected
    /// frame; a server also its answer to a header. `OutOfMemory` changes nothing but the meter: you can pass the same
    /// bytes again.
    #[tactic(auto, using(crate::proofs::lemmas::ExtendedLemmas::as_before))]
    pub fn receive(
        &mut self,
        alloc: Global,
        bytes: &[u8],
        nonce: &[u8; 32],
        meter: &mut Meter,
        out: &mut BytesMut,
    ) -> Result<Received, OutOfMemory>
        requires { meter.old ≤ 2 ^ 63 }
        ensures ok { IfOk result (λ received. (sent : List ℕ) × (out.new.items ≡ out.old.items ++ sent)
            × Receives (Reading (extended_in self.old) (E.answers (E.config (endpoint_in self.old))))
            (connection_side E.state self.old) bytes.now nonce.now received.taken sent
            (connection_side E.state self.new)) }
        ensures within { IfOk result (λ received. received.taken ≤ length bytes.now) }
        ensures moves { IfOk result (λ received. (connection_side E.state self.old).progress ≡ InProgress
            → 0 < length bytes.now → 0 < received.taken) }
        ensures progress { IfOk result (λ received. received.progress ≡ (connection_side E.state self.new).progress) }
        ensures unsent { OnErr result (out.new.items ≡ out.old.items) }
        ensures unchanged { OnErr result (connection_side E.state self.new ≡ connection_side E.state self.old) }
        ensures config { E.config (endpoint_in self.new) ≡ E.config (endpoint_in self.old) }
        ensures extended { extended_in self.new ≡ extended_in self.old }
        ensures memory { OnErr result (AsksReading (extended_in self.old) E.asks (room_in self.old)
            (connection_side E.state self.old) bytes.now) }
        ensures room { OnOk result ((connection_side E.state self.old).progress ≡ InProgress
            → HasRoom (room_in self.new) (connection_side E.state self.old)) }
        ensures room_stays { room_in self.old ≤ room_in self.new }
        ensures cost { CostsReading (extended_in self.old) E.costs (connection_side E.state self.old) bytes.now nonce.now
            meter.old meter.new }
    {
        let Progress::InProgress = self.progress else {
            return Ok(Received {
                taken: 0,
                progress: self.progress,
            });
        };
        let had = self.held.len();
        match take_unit(&mut self.held, self.expected, self.limit, bytes)? {
            Arrived::Part => Ok(Received {
                taken: bytes.len(),
                progress: Progress::InProgress,
            }),
            Arrived::Refused => {
                let taken = end_unit(&mut self.held, had);
                self.progress = Progress::Failed(CloseReason::FrameSize);
                Ok(Received {
                    taken,
                    progress: self.progress,
                })
            }
            Arrived::Whole => {
                match answer(
                    self.extended_headers,
                    &mut self.endpoint,
                    alloc,
                    self.expected,
                    &self.held,
                    nonce,
                    meter,
                    out,
                ) {
                    Ok(step) => {
                        let taken = end_unit(&mut self.held, had);
                        self.progress = step.progress;
                        self.expected = step.expected;
                        Ok(Received {
                            taken,
                            progress: step.progress,
                        })
                    }
                    Err(fault) => {
                        self.held.truncate(had);
                        Err(fault)
                    }
                }
            }
        }
    }
}
