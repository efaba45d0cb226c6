//! The SCRAM profiles: one type over the versions (RFC 5802, section 5), and a name for each of the three.

ghost use Rattle.std.specs.Prelude.{◌≡◌, ◌↔◌, IfOk, MatchOption, Some, None, string_bytes};
ghost use Rattle.fe2o3_scram.specs.declared.hmac.ScramVersion.{ScramVersion};
ghost use Rattle.fe2o3_scram.specs.declared.hmac.ScramVersion.TheVariants.{Sha1, Sha256, Sha512};
ghost use Rattle.fe2o3_scram.specs.ClientSecret.{IsOfVersion, no_limit, secret_of};
ghost use Rattle.fe2o3_scram.specs.ScramClient.{fresh_client, login_keys, with_maximum, with_options};
ghost use Rattle.fe2o3_sasl_core.specs.Profiles.{ScramProfile, scram_profile};
ghost use Rattle.fe2o3_sasl_core.specs.Runs.{login_of};
ghost use Rattle.fe2o3_sasl_core.specs.SaslProfile.{profile_of, variant_version};

use super::SaslProfile;
use fe2o3_scram::ClientOptions;
use fe2o3_scram::cached_keys::CachedKeys;
use fe2o3_scram::client_secret::{ClientSecret, ClientSecretError};
use fe2o3_scram::hmac::ScramVersion;
use fe2o3_scram::scram_client::ScramClient;
use std::alloc::{AllocError, Global};
use std::fmt;
use std::marker::{Model, PhantomData};

/// SCRAM-SHA-1 (RFC 5802). New applications should use SHA-256.
pub type SaslScramSha1 = SaslScram<OfSha1>;

/// SCRAM-SHA-256 (RFC 7677).
pub type SaslScramSha256 = SaslScram<OfSha256>;

/// SCRAM-SHA-512.
pub type SaslScramSha512 = SaslScram<OfSha512>;

/// A version of SCRAM as a type. It has no public path, so there are only these three.
pub trait OfVersion {
    ghost version: { ScramVersion };

    /// Returns the version.
    fn version() -> ScramVersion
        ensures { result ≡ version };
}

/// SHA-1.
pub struct OfSha1 {}

/// SHA-256.
pub struct OfSha256 {}

/// SHA-512.
pub struct OfSha512 {}

impl OfVersion for OfSha1 {
    ghost version = { Sha1 };

    fn version() -> ScramVersion {
        ScramVersion::Sha1
    }
}

impl OfVersion for OfSha256 {
    ghost version = { Sha256 };

    fn version() -> ScramVersion {
        ScramVersion::Sha256
    }
}

impl OfVersion for OfSha512 {
    ghost version = { Sha512 };

    fn version() -> ScramVersion {
        ScramVersion::Sha512
    }
}

/// A client of one user, by SCRAM of the version that `V` names.
#[derive(Drop)]
pub struct SaslScram<V: OfVersion> {
    pub(super) client: ScramClient,
    pub(super) version: PhantomData<V>,
}

impl<V: OfVersion> Model for SaslScram<V> {
    ghost use Rattle.std.specs.Prelude.{◌≡◌};
    ghost use Rattle.fe2o3_scram.specs.ScramClient.{ClientSide};

    ghost Value = { ClientSide };

    ghost view = { λ scram. scram.client };

    ghost invariant = { λ scram. scram.client.version ≡ V.version };
}

impl<V: OfVersion> SaslScram<V> {
    /// Returns the profile of a client of this version.
    pub(super) fn of(client: ScramClient) -> Self
        requires { client.version ≡ V.version }
        ensures { result ≡ client }
    {
        Self {
            client,
            version: PhantomData,
        }
    }

    /// Makes a client of this user with this password, which accepts every iteration count from 1 on.
    pub fn new(username: String, password: String) -> Self
        ensures { ScramProfile result ≡ scram_profile (login_of V.version (string_bytes username)
            (string_bytes password) no_limit) }
    {
        Self::of(ScramClient::new(username, password, V::version()))
    }

    /// Returns a client of this user that proves who it is by a copy of this secret (RFC 5802, section 3), and accepts
    /// every iteration count from 1 on. [`ScramClient::with_secret`] says how each kind of secret answers a challenge.
    ///
    /// The errors are, in this order: `VersionMismatch` if the secret has keys of another version than `V`, and
    /// `OutOfMemory`.
    pub fn with_secret(
        alloc: Global,
        username: String,
        secret: ClientSecret<'_>,
    ) -> Result<Self, ClientSecretError>
        ensures ok { IfOk result (λ scram. IsOfVersion V.version (secret_of secret.entry)
            × (scram ≡ fresh_client (string_bytes username) V.version (secret_of secret.entry))) }
        ensures mismatch { (result ≡ Err ClientSecretError.VersionMismatch)
            ↔ ¬ IsOfVersion V.version (secret_of secret.entry) }
    {
        match ScramClient::with_secret(alloc, username, secret, V::version()) {
            Ok(client) => Ok(Self::of(client)),
            Err(error) => Err(error),
        }
    }

    /// Returns this client, but with a maximum iteration count, above which it rejects a challenge. The limit is for
    /// each challenge: it does not bound how many challenges are answered.
    pub fn with_iteration_limit(self, limit: u32) -> Self
        ensures { result ≡ with_maximum self limit }
    {
        Self::of(self.client.with_iteration_limit(limit))
    }

    /// Returns this client, but with these options ([`ScramClient::with_options`]). With `ClientChannel::Bound` its
    /// mechanism is the one with `-PLUS`.
    pub fn with_options(self, options: ClientOptions) -> Self
        ensures { result ≡ with_options self options }
    {
        Self::of(self.client.with_options(options))
    }

    /// Returns the keys of the login, once it has ended with a verified server, and `None` before that (RFC 5802,
    /// section 3).
    pub fn keys(&self) -> Option<&CachedKeys>
        ensures { MatchOption result (login_keys self.now.state ≡ None)
            (λ keys. login_keys self.now.state ≡ Some keys.now) }
    {
        self.client.keys()
    }
}

impl<V: OfVersion> Clone for SaslScram<V> {
    ghost is_clone = { λ scram copy. copy ≡ scram };

    fn clone(&self) -> Result<Self, AllocError> {
        Ok(Self::of(self.client.clone()?))
    }
}

impl<V: OfVersion> fmt::Debug for SaslScram<V> {
    /// Writes the name of the version's profile, and the client without its secrets.
    fn fmt<W: fmt::Write>(&self, f: &mut fmt::Formatter<W>) -> fmt::Result {
        let name = match V::version() {
            ScramVersion::Sha1 => "SaslScramSha1",
            ScramVersion::Sha256 => "SaslScramSha256",
            ScramVersion::Sha512 => "SaslScramSha512",
        };
        f.debug_struct(name).field("client", &self.client).finish()
    }
}

impl SaslProfile {
    /// Returns the SCRAM profile of this client, in the variant of the client's version.
    pub(crate) fn scram_of(client: ScramClient) -> SaslProfile
        ensures profile { profile_of result ≡ ScramProfile client }
        ensures variant { variant_version result ≡ Some client.version }
    {
        match client.version() {
            ScramVersion::Sha1 => SaslProfile::ScramSha1(SaslScramSha1::of(client)),
            ScramVersion::Sha256 => SaslProfile::ScramSha256(SaslScramSha256::of(client)),
            ScramVersion::Sha512 => SaslProfile::ScramSha512(SaslScramSha512::of(client)),
        }
    }
}
