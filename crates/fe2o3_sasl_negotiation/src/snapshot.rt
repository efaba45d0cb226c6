//! Saves a side of a connection as plain values between two calls.

ghost use Rattle.std.specs.Prelude.{◌≡◌, ◌≢◌, ◌↔◌, ℕ, List, IsTrue, IfOk, IfErr, MatchOption, None};
ghost use Rattle.fe2o3_sasl_wire.specs.FrameView.{shown};
ghost use Rattle.fe2o3_sasl_negotiation.specs.Framing.{IsPart, body_read};
ghost use Rattle.fe2o3_sasl_negotiation.specs.Negotiations.{Completes};
ghost use Rattle.fe2o3_sasl_negotiation.specs.Snapshot.{IsKept, IsServerKept, IsClientKept, EndsEmpty, NamesAfterLogin, NamesNone, server_awaits, server_due, server_fits, client_awaits, client_due, outcome_due, client_fits, side_kept};
ghost use Rattle.fe2o3_sasl_negotiation.specs.declared.progress.Expected.TheVariants.{Header};
ghost use Rattle.fe2o3_sasl_negotiation.specs.declared.progress.Progress.TheVariants.{Authenticated, InProgress};
ghost use Rattle.fe2o3_sasl_negotiation.specs.declared.progress.FrameKind.{FrameKind as TurnKind};
ghost use Rattle.fe2o3_sasl_negotiation.specs.declared.snapshot.RestoreError.TheVariants.{OutOfMemory as RestoreOutOfMemory};

use crate::extended::body_of;
use crate::framing::{Arrived, MAX_FRAME, is_sasl, size, take_unit};
use crate::progress::{CloseReason, Expected, FrameKind, Progress};
use fe2o3_sasl_core::ProfileError;
use fe2o3_sasl_wire::{Error as FrameError, SaslCode};
use std::alloc::{AllocError, Global};
use thiserror::Error;

/// A side between two calls as plain values, without its acceptor or its profile. It holds no password, no key and no
/// store.
#[derive(Drop)]
pub struct Snapshot<'a> {
    /// The progress.
    pub progress: Progress,

    /// What is expected next.
    pub expected: Expected,

    /// The maximum size of a frame, 512 at most.
    pub limit: usize,

    /// Whether the side accepts frames with an extended header (`accept_extended_headers`).
    pub extended_headers: bool,

    /// The bytes that have arrived of the expected header or frame.
    pub held: &'a [u8],

    /// The user of a server that has logged in. `None` before that, for a mechanism that names no user, and for a
    /// client.
    pub user: Option<&'a str>,

    /// The identity that this user acts for (RFC 4422, section 2). `None` if the client named none, before the login, and
    /// for a client.
    pub acts_for: Option<&'a str>,
}

/// Why a side is not restored.
#[derive(Clone, Copy, Debug, PartialEq, Eq, Error)]
pub enum RestoreError {
    /// No side has these values: the limit is above 512; the expected unit is complete, or has a size that is not
    /// allowed; a side that has ended holds bytes; the expected unit does not fit the progress or the side; or a side
    /// that has not logged in, or a client, has a user or an identity.
    #[error("The snapshot is invalid")]
    InvalidSnapshot,

    /// The acceptor names another user or another identity than the server has logged in, or only one of the two names
    /// one.
    #[error("The user of the acceptor is not that of the snapshot")]
    OtherUser,

    /// An allocation failed.
    #[error("Out of memory")]
    OutOfMemory,
}

impl From<AllocError> for RestoreError {
    ghost from_gives = { λ _ error. error ≡ RestoreOutOfMemory };

    fn from(_error: AllocError) -> Self {
        RestoreError::OutOfMemory
    }
}

impl Snapshot<'_> {
    /// Returns the body of the frame that these bytes complete, without the four bytes of its size, and without its
    /// extended header if the side accepts these, or `None` if they complete none. Read in it which user a frame claims,
    /// before you restore a server. Nothing is taken: pass the same bytes to `receive` after that.
    ///
    /// Errors, in this order: `InvalidSnapshot` if no side has such values, and `OutOfMemory`, only for a side that
    /// waits for a frame. The user is not read.
    #[tactic(auto, using(crate::proofs::lemmas::CompletedLemmas::completed))]
    pub fn peek_frame(&self, alloc: Global, bytes: &[u8]) -> Result<Option<Vec<u8>>, RestoreError>
        ensures kept { IfOk result (λ _. IsKept self.now) }
        ensures body { IfOk result (λ body. MatchOption body
            ((turn : TurnKind) (body : List ℕ) → ¬ Completes (side_kept self.now) bytes.now turn body)
            (λ body. (turn : TurnKind) × (received : List ℕ)
            × Completes (side_kept self.now) bytes.now turn received
            × (body.items ≡ body_read self.now.extended_headers received))) }
        ensures refused { IfErr result (λ error. error ≡ RestoreError.InvalidSnapshot → ¬ IsKept self.now) }
        ensures other_user { IfErr result (λ error. error ≢ RestoreError.OtherUser) }
        ensures memory { IfErr result (λ error. error ≡ RestoreError.OutOfMemory
            → IsKept self.now × (self.now.progress ≡ InProgress) × (self.now.expected ≢ Header)) }
    {
        if !self.is_kept() {
            return Err(RestoreError::InvalidSnapshot);
        }
        let Progress::InProgress = self.progress else {
            return Ok(None);
        };
        let Expected::Frame(_) = self.expected else {
            return Ok(None);
        };
        let mut held = self.held.to_vec(alloc)?;
        match take_unit(&mut held, self.expected, self.limit, bytes)? {
            Arrived::Whole => Ok(Some(body_of(alloc, self.extended_headers, &held)?)),
            Arrived::Part | Arrived::Refused => Ok(None),
        }
    }

    /// Returns whether a side that waits can have these values.
    fn is_kept(&self) -> bool
        ensures { IsTrue result ↔ IsKept self.now }
    {
        self.limit <= MAX_FRAME && is_part(self.expected, self.limit, self.held)
    }

    /// Returns whether the side, if it has ended, holds no bytes.
    fn ends_empty(&self) -> bool
        ensures { IsTrue result ↔ EndsEmpty self.now }
    {
        matches!(self.progress, Progress::InProgress) || self.held.is_empty()
    }

    /// Returns whether the side has no user and no identity.
    fn names_none(&self) -> bool
        ensures { IsTrue result ↔ NamesNone self.now }
    {
        self.user.is_none() && self.acts_for.is_none()
    }

    /// Returns whether the side, if it has a user or an identity, has logged in.
    fn names_after_login(&self) -> bool
        ensures { IsTrue result ↔ NamesAfterLogin self.now }
    {
        matches!(self.progress, Progress::Authenticated) || self.names_none()
    }

    /// Returns whether a server can have these values.
    pub(crate) fn is_server(&self) -> bool
        ensures { IsTrue result ↔ IsServerKept self.now }
    {
        self.is_kept()
            && is_server_at(self.progress, self.expected)
            && self.ends_empty()
            && self.names_after_login()
    }

    /// Returns whether a client can have these values.
    pub(crate) fn is_client(&self) -> bool
        ensures { IsTrue result ↔ IsClientKept self.now }
    {
        self.is_kept()
            && is_client_at(self.progress, self.expected)
            && self.ends_empty()
            && self.names_none()
    }
}

/// Returns whether an acceptor has the name that a saved side has, of a user or of an identity, or both have none.
pub(crate) fn is_name(named: Option<&str>, kept: Option<&str>) -> bool
    ensures { IsTrue result ↔ shown named.entry ≡ shown kept.entry }
{
    match (named, kept) {
        (Some(named), Some(kept)) => named == kept,
        (None, None) => true,
        _ => false,
    }
}

/// Returns whether a server with this progress can have this expected.
fn is_server_at(progress: Progress, expected: Expected) -> bool
    ensures { result ≡ server_fits progress expected }
{
    let is_frame = matches!(
        expected,
        Expected::Frame(FrameKind::Init | FrameKind::Response)
    );
    match progress {
        Progress::InProgress
        | Progress::Failed(CloseReason::ReplyTooLarge | CloseReason::EndOfInput) => {
            matches!(expected, Expected::Header) || is_frame
        }
        Progress::Failed(CloseReason::ProtocolHeaderMismatch(received)) => {
            matches!(expected, Expected::Header) && !is_sasl(&received)
        }
        Progress::Failed(
            CloseReason::MalformedFrame(FrameError::OutOfMemory)
            | CloseReason::Refused(SaslCode::Ok)
            | CloseReason::Mechanism(_),
        ) => false,
        Progress::Authenticated | Progress::Failed(_) => is_frame,
    }
}

/// Returns whether a client with this progress can have this expected.
fn is_client_at(progress: Progress, expected: Expected) -> bool
    ensures { result ≡ client_fits progress expected }
{
    let is_outcome = matches!(
        expected,
        Expected::Frame(FrameKind::Challenge | FrameKind::SignatureChallenge | FrameKind::Outcome)
    );
    let is_frame = matches!(expected, Expected::Frame(FrameKind::Mechanisms)) || is_outcome;
    match progress {
        Progress::InProgress | Progress::Failed(CloseReason::EndOfInput) => {
            matches!(expected, Expected::Header) || is_frame
        }
        Progress::Failed(CloseReason::ProtocolHeaderMismatch(received)) => {
            matches!(expected, Expected::Header) && !is_sasl(&received)
        }
        Progress::Failed(
            CloseReason::MalformedFrame(FrameError::OutOfMemory)
            | CloseReason::Refused(SaslCode::Ok)
            | CloseReason::Mechanism(ProfileError::OutOfMemory),
        ) => false,
        Progress::Authenticated
        | Progress::Failed(CloseReason::ReplyTooLarge | CloseReason::Refused(_)) => is_outcome,
        Progress::Failed(_) => is_frame,
    }
}

/// Returns whether a side that waits can hold these bytes of what is expected.
fn is_part(expected: Expected, limit: usize, held: &[u8]) -> bool
    ensures { IsTrue result ↔ IsPart expected limit held.now }
{
    match expected {
        Expected::Header => held.len() < 8,
        Expected::Frame(_) => match size(held) {
            Some(size) => size >= 8 && size <= limit && held.len() < size,
            None => true,
        },
    }
}
