//! What the struct of a SCRAM server shows of an acceptor.

ghost use Rattle.std.specs.Prelude.{◌≡◌, MatchBool};
ghost use Rattle.fe2o3_sasl_core.specs.SavedServers.{saved_stage};
ghost use Rattle.fe2o3_sasl_negotiation.specs.declared.progress.Progress.{Progress as ProgressOf};
ghost use Rattle.sasl_c.specs.Rejections.{state_of};
ghost use Rattle.sasl_c.specs.SaslServer.{ShowsNext, ShowsProgress, progress_struct, state_struct};
ghost use Rattle.sasl_c.specs.declared.server.ScramServer.{ScramServer as ScramStruct};

use crate::rejections::{LoggedServer, rejection_number};
use crate::server::ScramServer;
use fe2o3_sasl_core::{AuthenticatedUser, Rejection, SavedStage};
use fe2o3_sasl_negotiation::Progress;

/// Turns the struct of SCRAM into that for a login of this progress. If a text does not fit, returns false, and nothing
/// changes.
#[tactic(auto, using(crate::proofs::SaslServerLemmas::shown))]
fn show(
    progress: Progress,
    stage: &SavedStage<'_>,
    rejection: Option<Rejection>,
    scram: &mut ScramServer,
) -> bool
    ensures shows { MatchBool result (ShowsProgress scram.new progress (saved_stage stage.now))
        ((other : ScramStruct) → ¬ ShowsProgress other progress (saved_stage stage.now)) }
    ensures writes { MatchBool result (scram.new ≡ progress_struct progress (saved_stage stage.now) rejection)
        (scram.new ≡ scram.old) }
{
    match progress {
        Progress::InProgress => scram.hold_stage(stage),
        Progress::Authenticated => scram.hold_stage(stage),
        Progress::Failed(_) => {
            scram.reject(rejection_number(rejection));
            true
        }
    }
}

/// An acceptor of which a struct of SCRAM shows how far it is.
pub trait Shows: AuthenticatedUser {
    ghost shows: { ScramStruct → ProgressOf → Self → Type 0 };

    ghost written_for: { ProgressOf → Self → ScramStruct };

    /// Turns the struct into that for a login of this progress. If a text does not fit, returns false, and nothing changes.
    fn show(&self, progress: Progress, scram: &mut ScramServer) -> bool
        ensures shows { MatchBool result (shows scram.new progress self.now)
            ((other : ScramStruct) → ¬ shows other progress self.now) }
        ensures writes { MatchBool result (scram.new ≡ written_for progress self.now) (scram.new ≡ scram.old) };
}

impl Shows for LoggedServer<'_> {
    ghost shows = { λ scram progress logged. ShowsNext scram progress (state_of logged) };

    ghost written_for = { λ progress logged. state_struct progress (state_of logged) };

    fn show(&self, progress: Progress, scram: &mut ScramServer) -> bool {
        show(
            progress,
            &self.server.saved(),
            self.server.last_rejection(),
            scram,
        )
    }
}
