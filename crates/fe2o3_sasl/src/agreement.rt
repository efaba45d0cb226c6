//! What both sides of a SCRAM login will agree on, by their options.

ghost use Rattle.std.specs.Prelude.{◌≡◌, true};
ghost use Rattle.fe2o3_sasl.specs.Agreement.{agree_on_all};

use fe2o3_sasl_core::{ClientOptions, ServerOptions};

/// Returns whether both sides of a SCRAM login agree on all of it, whatever an attacker alters: hash, channel, identity, user
/// name, both nonces, salt and iteration count. They do if one side rejects an attribute of RFC 5802 in the place of an
/// extension (`connection_laws::server_pairs::options`), unless two AuthMessages have one HMAC.
///
/// - A server rejects it by `strict`, `reject_misplaced`, which is the default, or `accept_authzid`. Where a connection has a
///   channel it rejects it in any case.
/// - A client rejects it if it is strict or has a channel. One that names an identity rejects it in any case.
///
/// With `false` they agree on user name and client nonce.
pub fn agrees_on_all(server: &ServerOptions, client: &ClientOptions) -> bool
    ensures value { result ≡ agree_on_all server.now client.now }
    ensures default { server.now.reject_misplaced ≡ true → result ≡ true }
{
    let server_rejects = server.accept_authzid || server.reject_misplaced || server.strict;
    let client_rejects = client.channel.is_there() || client.strict;
    server_rejects || client_rejects
}
