//! What several calls over one struct of a server are together. Each function has an empty body and states only its contract.

ghost use Rattle.sasl_c.specs.ServerCalls.{CallsWithOneStoreConnect, CallsWithOneUserConnect, ReturnsAreCalls, StoredUsersAreHad, ZerosAreFresh};
ghost use Rattle.sasl_c.specs.ServerMessages.{ChallengesReturn, MessagesAreOfServer, OutcomesReturn};

/// Any number of calls of `fe2o3_sasl_server_receive` over one struct that begins with zeros, over any stream in any pieces,
/// are one connection of the library's `Server`. Each call that returned FE2O3_OK takes the same bytes and sends the same,
/// with the same nonce. The struct after the calls has the progress of that connection, what is expected, the bytes that
/// are held, and the user and the identity of the login. Calls that returned an error change nothing, and may be repeated
/// or left out.
///
/// In `one_user` each call is passed the same values. In `one_store` the user differs from call to call: each call is passed
/// one configuration (`OneConfiguration`) and, if the bytes complete a frame that names a user, what one store has of that
/// user (`RecordsOfOneStore`). So the records that are passed with a response are those that were passed with its init.
///
/// `returns` says by the number that a call returns what it has done. By `fresh` a struct of zeros is that of a new server,
/// and by `stored` a user of the store meets the premise.
pub fn server_calls()
    ensures returns { ReturnsAreCalls }
    ensures fresh { ZerosAreFresh }
    ensures one_user { CallsWithOneUserConnect }
    ensures one_store { CallsWithOneStoreConnect }
    ensures stored { StoredUsersAreHad }
{}

/// Any number of calls of `fe2o3_scram_server_first` and `fe2o3_scram_server_final` over one struct that
/// begins with zeros, in any order, are calls of one `ScramAuthenticator`, if each call is passed the same rules and what one
/// store has of the user that is named (`PassesRecord`). Each call that returned FE2O3_OK writes the same message. The
/// struct after the calls shows the state of that server: the challenge that is open, or the user who has logged in and the
/// identity that it acts for.
///
/// `first` and `last` say by the number that a call returns what it has done. A call that returned an error does not
/// change the struct.
pub fn server_messages()
    ensures first { ChallengesReturn }
    ensures last { OutcomesReturn }
    ensures one_store { MessagesAreOfServer }
{}
