//! Which frames log a client in at a `Server`.

ghost use Rattle.connection_laws.specs.ServerLogins.{CompletedLoginsAreLetIn, OnlyCompletedLoginsAreLetIn, SignaturesFollowProofs};

/// Whom a [`Server`](fe2o3_sasl_core::Server) lets in, whatever came before. A frame completes a login: an init of
/// ANONYMOUS, EXTERNAL or PLAIN, or the initial response after an empty challenge, as the standard of each says; a
/// client-final message that meets the open exchange, if the signature goes with the outcome; or the empty response to a
/// signature in a challenge. The login that a frame completes is that of the server from then on. A server that is logged in
/// after a frame was completed by it, or was there before. A signature is in a challenge only after a client-final message
/// that meets the open exchange.
pub fn logins()
    ensures lets_in { CompletedLoginsAreLetIn }
    ensures only { OnlyCompletedLoginsAreLetIn }
    ensures signatures { SignaturesFollowProofs }
{}
