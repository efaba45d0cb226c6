//! Laws of claims. Each function has an empty body and states only its contract.

ghost use Rattle.fe2o3_sasl_core.specs.LoginAttemptLaws.{ClaimsWhatServersRead, LastAnsweredInitIsKept, OneClaim, SomeClaim};

/// States that an initial response claims one user name or none, and never both. A name that a server of SCRAM reads in
/// a client-first message is claimed to that server's mechanism, with `-PLUS` and without it.
pub fn claims()
    ensures one { OneClaim }
    ensures some { SomeClaim }
    ensures servers { ClaimsWhatServersRead }
{}

/// States which claim a [`Server`](crate::server::Server) keeps, over any list of bodies: that of the last init that it
/// answered, also by a rejection. An init whose answer is an error leaves the claim unchanged. A response adds at most a user
/// to a claim that has none.
pub fn last_answered_init()
    ensures { LastAnsweredInitIsKept }
{}
