//! A law of calls that run out of memory. A function with an empty body states its contract, which the check has
//! proved for every list of bytes.

ghost use Rattle.fe2o3_sasl_negotiation.specs.Retries.{ServersRetry, ClientsRetry};

/// Bounds the cost of a connection whose calls run out of memory and are repeated. A SCRAM server makes at most two
/// HMAC values, with mock authentication five, and at most as many again for each such call. A SCRAM client makes at
/// most as many as its limit of iterations and four more, and at most that again for each such call.
pub fn retries()
    ensures server { ServersRetry }
    ensures client { ClientsRetry }
{}
