//! Connections that do not exist: what wrong servers would do, and what weak readings of the laws would allow.

ghost use Rattle.connection_laws.specs.Hostile.{IgnoresInit, IgnoresResponse, AnswersOther, AnswersHeader, HasShortFrame, MarksNothing, HasTwoNonces, ReusesNonce, HidesOffer, SendsBeyondOffer, SendsOther};

use fe2o3_sasl_core::any_mechanism::HasMechanism;

/// States what no connection of a server does, whatever its acceptor is:
/// - it ignores a whole init in turn, or a whole response to its challenge, answers another body than the one that
///   arrived, or answers a frame where only the header arrived;
/// - an answered frame has a body of less than 4 bytes;
/// - a server of two acceptors passes an init of a mechanism that it offers to neither;
/// - one byte of a stream has two nonces, or two frames that arrive with two nonces are answered with one;
/// - it sends other bytes than its header, its list of mechanisms and the frames of its replies.
///
/// Each clause rejects one wrong server or one weak reading of the other laws. Its definition says which.
pub fn no_server_misbehaves<A: HasMechanism, B: HasMechanism>()
    ensures ignores_init { ¬ IgnoresInit A.machine }
    ensures ignores_response { ¬ IgnoresResponse A.machine }
    ensures answers_other { ¬ AnswersOther A.machine }
    ensures answers_header { ¬ AnswersHeader A.machine }
    ensures has_short_frame { ¬ HasShortFrame }
    ensures marks_nothing { ¬ MarksNothing A.names B.names A.machine B.machine }
    ensures has_two_nonces { ¬ HasTwoNonces }
    ensures reuses_nonce { ¬ ReusesNonce A.machine }
    ensures hides_offer { ¬ HidesOffer A.names A.machine }
    ensures sends_beyond_offer { ¬ SendsBeyondOffer A.names A.machine }
    ensures sends_other { ¬ SendsOther A.machine }
{}
