//! Zero bytes in texts.

ghost use Rattle.std.specs.Prelude.{◌↔◌, ℕ, List, IsTrue, MatchOption};
ghost use Rattle.fe2o3_scram.specs.Texts.{Cut, Without};

/// Splits the text at its first zero byte.
fn cut_at_zero(text: &str) -> Option<(&str, &str)>
    ensures { MatchOption result ((before rest : List ℕ) → ¬ Cut 0 text.now before rest)
        (λ both. Cut 0 text.now both.0.now both.1.now) }
{
    text.split_once('\0')
}

/// Returns whether the text has no zero byte.
#[tactic(auto, using(crate::proofs::PlainLemmas::zeros))]
pub fn has_no_zero(text: &str) -> bool
    ensures { IsTrue result ↔ Without 0 text.now }
{
    cut_at_zero(text).is_none()
}
