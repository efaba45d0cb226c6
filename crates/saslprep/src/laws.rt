//! Laws of the definitions. Each function has an empty body and states only its contract, about every text, which the
//! check has proved.

ghost use Rattle.saslprep.specs.Laws.{FitTextsAreAccepted, PreparedIsKept};

/// A text is accepted exactly if its prepared form has nothing prohibited and one direction, and, if they are rejected,
/// neither has an unassigned code point.
pub fn accepted_texts()
    ensures { FitTextsAreAccepted }
{}

/// The prepared form of an accepted text is accepted, and prepared to itself.
pub fn prepared_texts()
    ensures { PreparedIsKept }
{}
