//! What the bytes of a connection say of a `Server`: whom it logs in and for whom, what it shows of unknown names, what it costs,
//! and what a replayed response needs.

ghost use Rattle.connection_laws.specs.ConnectionLogins.{ActingUsersHaveRights, ScramUsersMeetRecords, ServersAuthenticateExactly, ServersHaveLoginExactly, ServersLogInOnBytes};
ghost use Rattle.connection_laws.specs.UnknownNames.{KnownNamesSeemUnknown, PlainUsersHaveRecords, UnknownNamesCostAlike, UnknownNamesSeemKnown};
ghost use Rattle.connection_laws.specs.ServerHmacs.{ServerConnectionsCost, ServerConnectionsRetry};
ghost use Rattle.connection_laws.specs.ServerBytes.{ServerConnectionsAreBounded};
ghost use Rattle.connection_laws.specs.ServerReplays.{RepeatedFinalsMeanOneNonce, ReplayedFinalsAreRejected};

/// Whom a [`Server`](fe2o3_sasl_core::Server) lets in over the bytes of a connection, exactly, by the list of frames that it
/// answered. It has logged a client in if and only if these frames complete a login (`CompletesLogin`): the init asks for a
/// mechanism that the server offers, and with the responses it has the messages of that mechanism. For SCRAM these are a
/// client-first message that opened an exchange with the nonce of the init, and a client-final message that meets that
/// exchange. The server then names the user, the identity and the mechanism of that login, and no other server names anybody.
/// By the bytes alone: it has a login exactly if it has taken the header of SASL and the frames of that login, and nothing more.
pub fn logged_in()
    ensures authenticated { ServersAuthenticateExactly }
    ensures login { ServersHaveLoginExactly }
    ensures bytes { ServersLogInOnBytes }
{}

/// For whom a user acts that a [`Server`](fe2o3_sasl_core::Server) has logged in over the bytes of a connection. A user who acts
/// for an identity has the right to it, by each mechanism; ANONYMOUS and EXTERNAL name no identity. By SCRAM, the user and the
/// identity are those of the client-first message that the challenge answered, and the proof meets the stored key of that
/// user's record.
pub fn users()
    ensures rights { ActingUsersHaveRights }
    ensures scram { ScramUsersMeetRecords }
{}

/// What a [`Server`](fe2o3_sasl_core::Server) with mock authentication shows of a name that it does not know, over the bytes of a
/// connection. Each connection of it is, byte for byte, a connection of the server that has the mock record of that name for
/// each hash, and the reverse, by all its mechanisms together. The answers take as many HMAC values, if PLAIN has the count of
/// the mock records. The exception is a message of PLAIN whose password meets the mock record: PLAIN logs in only users with a
/// record.
pub fn unknown_names()
    ensures seem_known { UnknownNamesSeemKnown }
    ensures seem_unknown { KnownNamesSeemUnknown }
    ensures cost { UnknownNamesCostAlike }
    ensures plain { PlainUsersHaveRecords }
{}

/// Bounds what a connection of a [`Server`](fe2o3_sasl_core::Server) costs, whatever its bytes are, in whatever calls they are
/// passed, and with every option. It makes at most as many HMAC values as one login: by SCRAM two and those of one look-up, by
/// PLAIN those of one test of a password. The sum of `answered` is over the calls that are answered. That of `retried` is over
/// all calls, also those that run out of memory: each of these adds at most one login.
pub fn costs()
    ensures answered { ServerConnectionsCost }
    ensures retried { ServerConnectionsRetry }
{}

/// Bounds what a connection of a [`Server`](fe2o3_sasl_core::Server) sends and holds, whatever its bytes are and in whatever
/// calls they are passed. It sends its header, its list of mechanisms, a challenge, an outcome, and one frame more for each
/// extra challenge, each frame of at most 512 bytes. It holds less than eight bytes, or less than its limit of a frame.
pub fn bounds()
    ensures { ServerConnectionsAreBounded }
{}

/// What a replayed response needs at a [`Server`](fe2o3_sasl_core::Server), each with any settings. If two connections log a
/// client in by SCRAM on one text of a client-final message, the calls that completed their two inits received one nonce. So if
/// these two calls received different nonces, a recorded response logs nobody in. What other calls received does not matter.
/// `cuts::call_pieces` says which call completed an init.
pub fn replays()
    ensures one_nonce { RepeatedFinalsMeanOneNonce }
    ensures rejected { ReplayedFinalsAreRejected }
{}
