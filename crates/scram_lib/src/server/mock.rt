//! Mock records, with which a server answers unknown users like known ones.

ghost use Rattle.std.specs.Prelude.{◌≡◌, IfSome, None, option_map};
ghost use Rattle.fe2o3_scram.specs.ScramServer.{mock_in, provider_in, state_in};
ghost use Rattle.scram_lib.specs.Forms.{mock_len};

use crate::form::Form;
use fe2o3_scram::{RecordStore, ScramAuthenticator};

/// The longest salt of a mock record, in bytes.
const LONGEST_SALT: usize = 64;

/// Returns this server, which has no mock records, with those of a secret, if there is one. They have this form, but a
/// longer salt than a mock record can have is cut to that length.
pub(crate) fn with_mock(
    server: ScramAuthenticator<RecordStore>,
    secret: Option<Vec<u8>>,
    form: Form,
) -> ScramAuthenticator<RecordStore>
    requires { mock_in server ≡ None }
    ensures secret { option_map (λ mock. mock.secret) (mock_in result) ≡ option_map (λ secret. secret.items) secret }
    ensures salt_len { IfSome (mock_in result) (λ mock. mock.salt_len ≡ mock_len form) }
    ensures iterations { IfSome (mock_in result) (λ mock. mock.count ≡ form.iterations) }
    ensures same { (provider_in result ≡ provider_in server) × (state_in result ≡ state_in server) }
{
    let Some(secret) = secret else {
        return server;
    };
    let salt_len = form.salt_len.min(LONGEST_SALT);
    match server.mock_unknown_users(secret, salt_len, form.iterations) {
        Ok(server) => server,
        Err(_) => unreachable!(),
    }
}
