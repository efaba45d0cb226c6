//! A side of a connection as a struct between calls (AMQP 1.0, part 5, section 5.3.2).

ghost use Rattle.std.specs.Prelude.{◌≡◌, ◌≢◌, ◌<◌, ◌≤◌, Bool, length, IfOk, IfErr, MatchBool, MatchOption};
ghost use Rattle.fe2o3_sasl_negotiation.specs.declared.progress.Expected.{Expected as ExpectedUnit};
ghost use Rattle.fe2o3_sasl_negotiation.specs.declared.progress.Progress.TheVariants.{InProgress};
ghost use Rattle.fe2o3_sasl_negotiation.specs.Negotiations.{Side, after_end_of_input};
ghost use Rattle.fe2o3_sasl_negotiation.specs.Snapshot.{NamesNone};
ghost use Rattle.fe2o3_scram.specs.Readings.{IsFirst};
ghost use Rattle.sasl_c.specs.Connection.{Keeps, accepts_extended, kept_bytes, with_end_of_input, closed_status, code_status, expected_number, frame_status, profile_status, side_tests, connection_struct};

use crate::arrays::{fill, head};
use crate::flags::{flag_number, is_set};
use crate::status::Status;
use bytes::BytesMut;
use fe2o3_sasl_core::ProfileError;
use fe2o3_sasl_negotiation::{CloseReason, Expected, FrameKind, Progress, Snapshot};
use fe2o3_sasl_wire::{Error, SaslCode};
use fe2o3_scram::ScramErrorKind;

/// One side of a connection between calls. All zeros is a connection that has received nothing and accepts no extended
/// headers.
#[repr(C)]
#[derive(Drop)]
pub struct Connection {
    /// How far the login is: one of enum fe2o3_progress.
    ///
    /// After an outcome frame, a client has FE2O3_AUTHENTICATED if the code is FE2O3_CODE_OK and, for SCRAM, the frame
    /// holds the expected ServerSignature, or has no data and a challenge held it before (`signature_by_challenge`). The
    /// other mechanisms do not authenticate the server. Otherwise it has FE2O3_FAILED. A server has FE2O3_AUTHENTICATED
    /// once it writes an outcome with FE2O3_CODE_OK, and FE2O3_FAILED once it writes another one.
    pub progress: u32,

    /// Why the login failed: a status, such as FE2O3_REFUSED_AUTH for an outcome with FE2O3_CODE_AUTH, or
    /// FE2O3_CLIENT_SERVER_SIGNATURE_MISMATCH for a server that is not authenticated. FE2O3_OK unless `progress` is
    /// FE2O3_FAILED.
    pub why: u32,

    /// What the other side has to send next: one of enum fe2o3_expected.
    pub expected: u32,

    /// The number of bytes of `held` in use.
    pub held_len: u32,

    /// The part of the expected header or frame that has been received. After a login that failed with
    /// FE2O3_PROTOCOL_HEADER_MISMATCH, the 8 bytes that were received in the place of the header of SASL:
    /// `AMQP 2 1 0 0` for a server that requires TLS first, `AMQP 0 1 0 0` for a client that begins AMQP without SASL.
    pub held: [u8; 512],

    /// Whether this side accepts frames with an extended header (AMQP 1.0, part 2, section 2.3.1): 0 is no, any other
    /// value yes. Set it before the first call. The side then reads such a frame without that header. The limit of 512
    /// bytes is that of the frame as received. Otherwise a data offset above 2 ends the login with FE2O3_NO_SASL_FRAME,
    /// as one below 2 or after the end of the frame does in any case. A call that receives bytes writes 0 or 1.
    pub extended_headers: u32,
}

/// What a call makes of received bytes.
#[derive(Drop)]
pub struct ReceiveResult {
    /// How many it takes.
    pub taken: usize,

    /// The bytes to send.
    pub sent: BytesMut,
}

/// The number of what is expected.
fn number_of(expected: Expected) -> u32
    ensures { result ≡ expected_number expected }
{
    match expected {
        Expected::Header => 0,
        Expected::Frame(FrameKind::Mechanisms) => 1,
        Expected::Frame(FrameKind::Init) => 2,
        Expected::Frame(FrameKind::Challenge) => 3,
        Expected::Frame(FrameKind::Response) => 4,
        Expected::Frame(FrameKind::Outcome) => 5,
        Expected::Frame(FrameKind::SignatureChallenge) => 6,
    }
}

/// What is expected, of its number.
fn expected_of(number: u32) -> Option<Expected>
    ensures { MatchOption result ((expected : ExpectedUnit) → expected_number expected ≢ number)
        (λ expected. expected_number expected ≡ number) }
{
    match number {
        0 => Some(Expected::Header),
        1 => Some(Expected::Frame(FrameKind::Mechanisms)),
        2 => Some(Expected::Frame(FrameKind::Init)),
        3 => Some(Expected::Frame(FrameKind::Challenge)),
        4 => Some(Expected::Frame(FrameKind::Response)),
        5 => Some(Expected::Frame(FrameKind::Outcome)),
        6 => Some(Expected::Frame(FrameKind::SignatureChallenge)),
        _ => None,
    }
}

/// Why a frame is not read or not written, as a status.
pub fn of_frame(fault: Error) -> Status
    ensures { result ≡ frame_status fault }
{
    match fault {
        Error::DecodeError => Status::MalformedFrame,
        Error::NotImplemented => Status::NoSaslFrame,
        Error::TooLarge => Status::FrameTooLarge,
        Error::OutOfMemory => Status::OutOfMemory,
    }
}

/// The code of an outcome that ends a login, as a status. `Ok` ends none.
fn of_code(code: SaslCode) -> Status
    ensures { result ≡ code_status code }
{
    match code {
        SaslCode::Auth => Status::RefusedAuth,
        SaslCode::Ok | SaslCode::Sys => Status::RefusedSys,
        SaslCode::SysPerm => Status::RefusedSysPerm,
        SaslCode::SysTemp => Status::RefusedSysTemp,
    }
}

/// Returns why a profile rejects what the server sent, as a status.
fn of_profile(fault: ProfileError) -> Status
    ensures { result ≡ profile_status fault }
{
    match fault {
        ProfileError::NotImplemented => Status::NotImplemented,
        ProfileError::Scram(why) => Status::from(why),
        ProfileError::StaleKeys => Status::Client(ScramErrorKind::StaleKeys),
        ProfileError::Frame(fault) => of_frame(fault),
        ProfileError::OutOfMemory => Status::OutOfMemory,
    }
}

/// Why a connection is to be closed, as a status.
fn of_closed(why: CloseReason) -> Status
    ensures { result ≡ closed_status why }
{
    match why {
        CloseReason::ProtocolHeaderMismatch(_) => Status::ProtocolHeaderMismatch,
        CloseReason::FrameSize => Status::FrameSize,
        CloseReason::MalformedFrame(fault) => of_frame(fault),
        CloseReason::UnexpectedFrame => Status::UnexpectedFrame,
        CloseReason::ReplyTooLarge => Status::ReplyTooLarge,
        CloseReason::Refused(code) => of_code(code),
        CloseReason::Mechanism(fault) => of_profile(fault),
        CloseReason::EndOfInput => Status::EndOfInput,
    }
}

/// Returns the bytes of a header.
fn header_bytes(header: &[u8; 8]) -> &[u8]
    ensures bytes { result.now ≡ header.now }
    ensures len { length result.now ≡ 8 }
{
    header.as_slice()
}

/// Returns the bytes that the struct of a side holds: those of another header than that of SASL, after the side has
/// failed for it, and otherwise what the side holds.
fn kept_bytes<'a>(progress: &'a Progress, held: &'a [u8]) -> &'a [u8]
    ensures bytes { result.now ≡ kept_bytes progress.now held.now }
    ensures len { 512 < length result.now → 512 < length held.now }
{
    match progress {
        Progress::Failed(CloseReason::ProtocolHeaderMismatch(received)) => header_bytes(received),
        _ => held,
    }
}

/// Ends a login after the other side has ended its stream (end of file). A login in progress fails with
/// FE2O3_END_OF_INPUT. Otherwise nothing changes.
#[unsafe(no_mangle)]
pub extern "C" fn fe2o3_sasl_end_of_input(connection: &mut Connection)
    ensures ends { connection.new ≡ with_end_of_input connection.old }
    ensures side { (side : Side (Unit {0})) (accepts : Bool)
        → connection.old ≡ connection_struct accepts side.progress side.expected side.held
        → let next = after_end_of_input side in
        connection.new ≡ connection_struct accepts next.progress next.expected next.held }
{
    if connection.progress == 0 {
        connection.progress = 2;
        connection.why = Status::EndOfInput.number();
        connection.held_len = 0;
        connection.held = [0; 512];
    }
}

impl Connection {
    /// Returns whether the struct has room for these values: at most 512 bytes are held.
    pub fn has_room(kept: &Snapshot<'_>) -> bool
        ensures { MatchBool result (length (kept_bytes kept.now.progress kept.now.held.now) ≤ 512)
            (512 < length kept.now.held.now) }
    {
        kept_bytes(&kept.progress, kept.held).len() <= 512
    }

    /// Turns the struct into that which keeps these values.
    pub fn keep(&mut self, kept: &Snapshot<'_>)
        requires { length (kept_bytes kept.now.progress kept.now.held.now) ≤ 512 }
        ensures keeps { Keeps self.new kept.now.progress kept.now.expected kept.now.held.now }
        ensures writes { self.new ≡ connection_struct kept.now.extended_headers kept.now.progress kept.now.expected
            kept.now.held.now }
    {
        let (progress, why) = match kept.progress {
            Progress::InProgress => (0, 0),
            Progress::Authenticated => (1, 0),
            Progress::Failed(why) => (2, of_closed(why).number()),
        };
        let held = kept_bytes(&kept.progress, kept.held);
        self.progress = progress;
        self.why = why;
        self.expected = number_of(kept.expected);
        self.held_len = held.len() as u32;
        self.extended_headers = flag_number(kept.extended_headers);
        fill(&mut self.held, held);
    }

    /// What the struct keeps of a side that wants more bytes. `Ended` where it wants none, and `InvalidSnapshot` where no
    /// such unit is expected, or where `held_len` is above 512.
    pub fn read(&self) -> Result<Snapshot<'_>, Status>
        ensures kept { IfOk result (λ kept. Keeps self.now kept.progress kept.expected kept.held.now) }
        ensures wanting { IfOk result (λ kept. (kept.progress ≡ InProgress) × (kept.limit ≡ 512)) }
        ensures mock { IfOk result NamesNone }
        ensures extended { IfOk result (λ kept. kept.extended_headers ≡ accepts_extended self.now) }
        ensures err { IfErr result (λ status. IsFirst (side_tests self.now) status) }
    {
        if self.progress != 0 {
            return Err(Status::Ended);
        }
        let expected = expected_of(self.expected).ok_or(Status::InvalidSnapshot)?;
        let held = head(&self.held, self.held_len).ok_or(Status::InvalidSnapshot)?;
        Ok(Snapshot {
            progress: Progress::InProgress,
            expected,
            limit: 512,
            extended_headers: is_set(self.extended_headers),
            held,
            user: None,
            acts_for: None,
        })
    }
}
