//! The additional data of an outcome by which a server rejects a login (AMQP 1.0, part 5, section 5.3.3.6).

ghost use Rattle.std.specs.Prelude.{◌≡◌, ◌≢◌, option_map, IfOk, OnErr};
ghost use Rattle.fe2o3_sasl_wire.specs.FrameView.{shown, viewed_frame};
ghost use Rattle.fe2o3_sasl_negotiation.specs.Refusals.{CompletesRefusal, RejectsWith, rejection_data};
ghost use Rattle.fe2o3_sasl_negotiation.specs.declared.progress.Expected.TheVariants.{Header};
ghost use Rattle.fe2o3_sasl_negotiation.specs.declared.progress.Progress.TheVariants.{InProgress};

use crate::framing::read_expected;
use crate::progress::{Expected, FrameKind};
use crate::side::{ConnectionSide, Endpoint, Role};
use crate::snapshot::{RestoreError, Snapshot};
use fe2o3_sasl_core::OutOfMemory;
use fe2o3_sasl_wire::{FrameView, SaslCode};
use std::alloc::Global;

/// Returns the additional data of a frame that rejects a login.
fn rejection_data<'a>(view: &FrameView<'a>) -> Option<&'a [u8]>
    ensures { shown result ≡ rejection_data (viewed_frame view.now) }
{
    match view {
        FrameView::Outcome {
            code: SaslCode::Ok,
            additional_data: _,
        } => None,
        FrameView::Outcome {
            code: _,
            additional_data,
        } => *additional_data,
        FrameView::Mechanisms(_)
        | FrameView::Init { .. }
        | FrameView::Challenge(_)
        | FrameView::Response(_) => None,
    }
}

/// Copies data, if there are any.
fn copy_of(alloc: Global, found: Option<&[u8]>) -> Result<Option<Vec<u8>>, OutOfMemory>
    ensures { IfOk result (λ copy. option_map (λ taken. taken.items) copy ≡ shown found.entry) }
{
    match found {
        Some(data) => Ok(Some(data.to_vec(alloc)?)),
        None => Ok(None),
    }
}

/// Copies the additional data by which a body rejects a login, where a frame of this kind is expected.
fn refusal_of(alloc: Global, turn: FrameKind, body: &[u8]) -> Result<Option<Vec<u8>>, OutOfMemory>
    ensures { IfOk result (λ copy. RejectsWith turn body.now (option_map (λ taken. taken.items) copy)) }
{
    match read_expected(turn, body) {
        Ok(view) => copy_of(alloc, rejection_data(&view)),
        Err(_) => Ok(None),
    }
}

impl<E: Endpoint<R>, R: Role> ConnectionSide<E, R> {
    ghost use Rattle.fe2o3_sasl_negotiation.specs.Sides.{connection_side, extended_in};

    /// Returns the additional data of the outcome that these bytes complete, if it rejects the login: its code is not
    /// `Ok`. Returns `None` for any other frame, if the bytes complete no frame, and if the outcome has no data. Nothing
    /// is taken: pass the same bytes to `receive` after that, which drops the data.
    ///
    /// The only error is `OutOfMemory`, for a side in progress that expects a frame.
    pub fn peek_refusal(&self, alloc: Global, bytes: &[u8]) -> Result<Option<Vec<u8>>, OutOfMemory>
        ensures refusal { IfOk result (λ copy. CompletesRefusal (extended_in self.now) (connection_side E.state self.now)
            bytes.now (option_map (λ taken. taken.items) copy)) }
        ensures memory { OnErr result (((connection_side E.state self.now).progress ≡ InProgress)
            × ((connection_side E.state self.now).expected ≢ Header)) }
    {
        let kept = Snapshot {
            progress: self.progress,
            expected: self.expected,
            limit: self.limit,
            extended_headers: self.extended_headers,
            held: &self.held,
            user: None,
            acts_for: None,
        };
        let body = match kept.peek_frame(alloc, bytes) {
            Ok(Some(body)) => body,
            Ok(None) => return Ok(None),
            Err(RestoreError::OutOfMemory) => return Err(OutOfMemory),
            Err(RestoreError::InvalidSnapshot | RestoreError::OtherUser) => unreachable!(),
        };
        match self.expected {
            Expected::Frame(turn) => refusal_of(alloc, turn, &body),
            Expected::Header => Ok(None),
        }
    }
}
