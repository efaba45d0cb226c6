//! What several calls over one struct of a client are together. Each function has an empty body and states only its contract.

ghost use Rattle.sasl_c.specs.ClientCalls.{CallsWithOneLoginConnect, LoginsSpellClients, ReturnsAreClientCalls, ZerosAreNewClients};
ghost use Rattle.sasl_c.specs.ClientMessages.{FinalCallsReturn, FirstCallsReturn, MessagesAreOfClient, MessagesSpellClients, VerifyCallsReturn};

/// Any number of calls of `fe2o3_sasl_client_receive` over one struct that begins with zeros, over any stream in any pieces,
/// are one connection of the library's `ClientNegotiation`, if each call is passed the same login (`SameLogin`). Each call
/// that returned FE2O3_OK takes the same bytes and sends the same, with the same nonce. The struct after the calls has the
/// progress of that connection, what is expected, the bytes that are held, and the state and the keys of its SCRAM client.
/// Calls that returned an error change nothing, and may be repeated or left out.
///
/// `returns` says by the number that a call returns what it has done. By `fresh` a struct of zeros is that of a new client,
/// and by `spelled` each login by which a call returned FE2O3_OK has such a client.
pub fn client_calls()
    ensures returns { ReturnsAreClientCalls }
    ensures fresh { ZerosAreNewClients }
    ensures spelled { LoginsSpellClients }
    ensures one_login { CallsWithOneLoginConnect }
{}

/// Any number of calls of `fe2o3_scram_client_first`, `fe2o3_scram_client_final` and `fe2o3_scram_client_verify` over one
/// struct that begins with zeros, in any order, are calls of one `ScramClient`, if each call is passed the same login
/// (`SameWords`). Each call that returned FE2O3_OK writes the same message. The struct after the calls has the state of that
/// client, the signature that it expects, and its keys.
///
/// `first`, `last` and `verify` say by the number that a call returns what it has done. A call that returned an error does
/// not change the struct. By `spelled` each login by which a call returned FE2O3_OK has such a client.
pub fn client_messages()
    ensures first { FirstCallsReturn }
    ensures last { FinalCallsReturn }
    ensures verify { VerifyCallsReturn }
    ensures spelled { MessagesSpellClients }
    ensures one_login { MessagesAreOfClient }
{}
