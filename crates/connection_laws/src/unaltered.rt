//! Laws of two sides that receive each other's bytes unaltered.

ghost use Rattle.connection_laws.specs.Unaltered.{UnalteredSidesLogIn, NegotiationsAgree};

/// A SCRAM client and a SCRAM server that are joined both log in, in whatever pieces their bytes arrive, and whether or
/// not the client accepts the server's signature in a challenge. No premise is about what a call returns:
/// - the server holds a record that the client's secret opens, with a count from 1 on and within the client's limits;
/// - the server accepts the client's GS2 header, and if the client binds a channel, it has the same data of that channel;
/// - the escaped user name and the hostname have at most 412 bytes together, or for a client that binds a channel 396
///   with `tls-unique`, 394 with `tls-exporter` and 386 with `tls-server-end-point`; the salt has at most 285, and the
///   data of the channel at most 64;
/// - each side takes frames of 512 bytes, and the nonce of each call has 32 bytes.
///
/// The server names the client's user. Each side is run over the frames that the other side sent, and the two runs are one
/// unaltered login: an audit finds both sides agreed, and the client's open answer and the accepted response have one
/// AuthMessage. The events and the replies of any two negotiations that these sides are over their bytes are one login,
/// too.
pub fn unaltered()
    ensures log_in { UnalteredSidesLogIn }
    ensures agree { NegotiationsAgree }
{}
