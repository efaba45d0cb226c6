//! Mock authentication: a server that answers unknown users as known ones.

ghost use Rattle.std.specs.Prelude.{◌≡◌, ◌≤◌, ◌<◌, ◌+◌, ◌^◌, Option, Some, MatchResult, option_map};
ghost use Rattle.fe2o3_scram.specs.Credentials.{Record, record_at, kept};
ghost use Rattle.fe2o3_scram.specs.MockSettings.{mock_cost, mock_record, stored_or};
ghost use Rattle.fe2o3_scram.specs.ScramServer.{lent_mock, provider_in, state_in, rights_in, rules_in, mock_in};

use crate::credentials::MockValues;
use crate::hmac::{Meter, ScramVersion};
use crate::provider::{ScramCredentialProvider, StoredPassword};
use crate::scram_server::ScramAuthenticator;
use crate::secrets::SecretBytes;
use std::alloc::AllocError;
use std::marker::Model;
use thiserror::Error;

/// The longest mock salt, in bytes: a digest of SHA-512.
const MAX_SALT_LEN: usize = 64;

/// The salts are longer than 64 bytes, the length of the longest mock salt.
#[derive(Debug, Clone, Copy, PartialEq, Eq, Error)]
#[error("Salt too long")]
pub struct SaltTooLong;

/// The settings of mock authentication for a version: a secret of at least 32 random bytes, the length of a salt, of which
/// at most 64 bytes count, and the iteration count.
#[derive(Clone, Copy)]
pub struct MockUsers<'a> {
    /// The version of the records.
    pub scram_version: ScramVersion,

    /// The secret.
    pub secret: &'a [u8],

    /// The length of a salt, in bytes.
    pub salt_len: usize,

    /// The iteration count.
    pub iterations: u32,
}

/// Settings of mock authentication with a secret of their own.
#[derive(Drop)]
pub(crate) struct KeptMock {
    scram_version: ScramVersion,
    secret: SecretBytes,
    salt_len: usize,
    iterations: u32,
}

impl Model for KeptMock {
    ghost use Rattle.fe2o3_scram.specs.MockSettings.{MockSettings};

    ghost Value = { MockSettings };

    ghost view = { λ users. record {
      version = users.scram_version;
      secret = users.secret;
      salt_len = users.salt_len;
      count = users.iterations;
    } };
}

impl KeptMock {
    /// Lends the settings.
    pub(crate) fn lent(&self) -> MockUsers<'_>
        ensures { lent_mock result ≡ self.now }
    {
        MockUsers {
            scram_version: self.scram_version,
            secret: self.secret.as_slice(),
            salt_len: self.salt_len,
            iterations: self.iterations,
        }
    }
}

impl Clone for KeptMock {
    ghost is_clone = { λ users copy. copy ≡ users };

    fn clone(&self) -> Result<Self, AllocError> {
        Ok(Self {
            scram_version: self.scram_version,
            secret: self.secret.clone()?,
            salt_len: self.salt_len,
            iterations: self.iterations,
        })
    }
}

impl<C: ScramCredentialProvider> ScramAuthenticator<C> {
    /// Returns this server with mock authentication: it answers an unknown user like a known one, by the mock record of
    /// the name (`ScramRecord::mock`), which no login is known to meet. Known and unknown users cost three HMAC values
    /// each at their client-first message, and make the same allocations.
    ///
    /// The secret is that of `ScramRecord::mock`: at least 32 random bytes, stored beside the records. `salt_len` is
    /// the length of the salts of the store's records, in bytes, and `iterations` their iteration count.
    ///
    /// The only error is `SaltTooLong`, for salts of more than 64 bytes.
    pub fn mock_unknown_users(
        mut self,
        secret: Vec<u8>,
        salt_len: usize,
        iterations: u32,
    ) -> Result<Self, SaltTooLong>
        ensures { MatchResult result (λ server. (salt_len ≤ 64) × (provider_in server ≡ provider_in self)
            × (rules_in server ≡ rules_in self) × (state_in server ≡ state_in self) × (rights_in server ≡ rights_in self)
            × (mock_in server ≡ Some (record {
              version = (C.meaning (provider_in self)).version;
              secret = secret.items;
              salt_len = salt_len;
              count = iterations;
            }))) (λ _. 64 < salt_len) }
    {
        if salt_len > MAX_SALT_LEN {
            return Err(SaltTooLong);
        }
        let scram_version = *self.credentials.scram_version();
        self.mock = Some(KeptMock {
            scram_version,
            secret: SecretBytes::new(secret),
            salt_len,
            iterations,
        });
        Ok(self)
    }
}

/// Computes the mock record of a user, if there are mock users. It allocates nothing, and no store is a
/// parameter: a known user has the same cost. The meter counts three HMAC values.
pub(crate) fn mock_values(
    mock: Option<MockUsers<'_>>,
    username: &str,
    meter: &mut Meter,
) -> Option<MockValues>
    requires { meter.old ≤ 2 ^ 63 }
    ensures record { result
        ≡ option_map (λ settings. mock_record settings username.now) (option_map lent_mock mock.entry) }
    ensures counted { meter.new ≡ meter.old + mock_cost (option_map lent_mock mock.entry) }
{
    let users = mock?;
    Some(MockValues::new(
        users.scram_version,
        users.secret,
        username,
        users.salt_len,
        users.iterations,
        meter,
    ))
}

/// Returns the record of a user from the store, or the mock record for an unknown user. This is the one look-up of a
/// login.
pub(crate) fn look_up<'a, C: ScramCredentialProvider>(
    credentials: &'a C,
    username: &str,
    mock: &'a Option<MockValues>,
) -> Option<StoredPassword<'a>>
    ensures { option_map kept result
        ≡ stored_or mock.now (record_at (C.meaning credentials.now).records username.now) }
{
    match credentials.get_stored_password(username) {
        Some(stored) => Some(stored),
        None => Some(mock.as_ref()?.as_stored_password()),
    }
}
