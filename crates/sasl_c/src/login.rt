//! What a client logs in with, as a struct, and the client of it that has sent nothing.

ghost use Rattle.std.specs.Prelude.{false, ◌≡◌, ◌≢◌, IfOk, IfErr, OnErr, MatchOption, MatchResult};
ghost use Rattle.std.specs.String.{string_bytes};
ghost use Rattle.fe2o3_scram.specs.ClientSecret.{IsOfVersion, secret_of};
ghost use Rattle.fe2o3_scram.specs.ScramClient.{ClientInitial};
ghost use Rattle.fe2o3_scram.specs.Readings.{IsFirst, NoneHolds, Reads};
ghost use Rattle.sasl_c.specs.Records.{IsVersion};
ghost use Rattle.sasl_c.specs.Client.{HasSecret, HoldsNone, IsChannelOf, IsClientOf, IsHeaderOf, IsTestedLogin, IsNoLogin, IsNoSecret, IsSecretOf, header_tests, keys_tests, name_tests, secret_used};
ghost use Rattle.sasl_c.specs.Channels.{channel_tests};
ghost use Rattle.sasl_c.specs.Keys.{ShowsKeys, ShowsSomeKeys};
ghost use Rattle.sasl_c.specs.Status.{AsksWhere};
ghost use Rattle.sasl_c.specs.declared.status.Status.TheVariants.{OutOfMemory as StatusOutOfMemory};

use crate::channels::channel_in;
use crate::flags::is_set;
use crate::identity::identity_in;
use crate::keys::ScramKeys;
use crate::passwords::password_in;
use crate::status::{Status, text, version_of};
use fe2o3_scram::{
    CachedKeys, ClientChannel, ClientHeader, ClientOptions, ClientSecret, IterationLimits,
    ScramClient as Machine, ScramVersion,
};
use std::alloc::Global;

/// A user and a secret. You lend the struct to each call of an exchange, always with the same values.
#[repr(C)]
#[derive(Drop)]
pub struct Login<'a> {
    /// The hash of the mechanism: one of enum fe2o3_scram_version.
    pub version: u32,

    /// What the client logs in with: one of enum fe2o3_secret.
    pub secret: u32,

    /// The form of the password: one of enum fe2o3_password_form.
    pub form: u32,

    /// The minimum iteration count that the client accepts. RFC 7677 requires at least 4096.
    pub min_iterations: u32,

    /// The maximum iteration count that the client accepts.
    pub max_iterations: u32,

    /// The user name, without escapes.
    pub username: &'a [u8],

    /// The identity that the client acts for, without escapes (RFC 4422, section 2), of 256 bytes at most. If empty, the
    /// client acts for itself. The server decides whether the user may act for it.
    ///
    /// - SCRAM sends it in the GS2 header (RFC 5802, section 7). A client that names one tests the extensions like one
    ///   that has a channel.
    /// - PLAIN sends it as the first part of its message (RFC 4616, section 2), by `fe2o3_sasl_client_receive`. A client
    ///   that names one tests its words like a strict one.
    /// - ANONYMOUS and EXTERNAL do not send it: with one this call returns FE2O3_NOT_IMPLEMENTED. FE2O3_EXTERNAL_AS sends
    ///   `username` as the identity.
    pub acts_for: &'a [u8],

    /// The password.
    pub password: &'a [u8],

    /// The keys of an earlier login, or a struct of zeros. You can replace them between the calls of an exchange: after
    /// FE2O3_CLIENT_STALE_KEYS repeat the call with keys of the salt and the count that the server names.
    pub keys: &'a ScramKeys,

    /// Whether the client accepts the server's signature in a challenge too, before an outcome without data (RFC 4422,
    /// section 5). 0 means that the signature has to come in the outcome. Any other value accepts it in both. Only
    /// `fe2o3_sasl_client_receive` uses this field.
    pub signature_by_challenge: u32,

    /// Whether the client is strict: it reads messages by the grammar of RFC 5802, section 7. 0 is no, any other value
    /// yes. The server's part of the nonce has to be printable and not empty (FE2O3_CLIENT_CLIENT_NONCE_MISMATCH), the
    /// iteration count without a sign or leading zeros (FE2O3_CLIENT_ITERATION_COUNT_PARSE_ERROR), and what follows the
    /// count or the signature an extension (FE2O3_CLIENT_MISPLACED_ATTRIBUTE). A client that has a channel or names an
    /// identity tests the extensions in any case.
    ///
    /// A strict client sends a user name and a password by PLAIN only if a message can have them (RFC 4616, section 2).
    /// Otherwise the call returns FE2O3_NAMES_NO_USER or FE2O3_EMPTY_PASSWORD for an empty one, and
    /// FE2O3_PROHIBITED_CHARACTER for a zero byte.
    pub strict: u32,

    /// What the client says of its channel (RFC 5802, section 6): one of enum fe2o3_channel_use.
    pub channel_use: u32,

    /// The kind of the channel that is bound: one of enum fe2o3_channel_kind. Only for FE2O3_CHANNEL_BOUND.
    pub channel_kind: u32,

    /// The number of bytes of `channel_data` in use, from 1 to 64. Only for FE2O3_CHANNEL_BOUND.
    pub channel_data_len: u32,

    /// The data of the channel that is bound, which identify it. You have them from TLS. Only for FE2O3_CHANNEL_BOUND.
    pub channel_data: [u8; 64],
}

/// Returns the keys that a struct holds, if it holds some. `OutOfMemory` is the only error.
#[tactic(auto, using(crate::proofs::LoginLemmas::none_shown))]
pub fn shown(alloc: Global, keys: &ScramKeys) -> Result<Option<CachedKeys>, Status>
    ensures ok { IfOk result (λ shown. MatchOption shown (HoldsNone keys.now) (λ shown. ShowsKeys keys.now shown)) }
    ensures err { IfErr result (λ status. status ≡ StatusOutOfMemory) }
    ensures memory { OnErr result (ShowsSomeKeys keys.now) }
{
    if !keys.shows() {
        return Ok(None);
    }
    match keys.read(alloc) {
        Ok(keys) => Ok(Some(keys)),
        Err(Status::OutOfMemory) => Err(Status::OutOfMemory),
        Err(_) => Ok(None),
    }
}

/// Returns a client by this secret, whose keys, if it has any, are of this version. `OutOfMemory` is the only error.
fn client_by(
    alloc: Global,
    username: String,
    secret: ClientSecret<'_>,
    version: ScramVersion,
) -> Result<Machine, Status>
    requires { IsOfVersion version (secret_of secret) }
    ensures ok { IfOk result (λ side. (side.secret ≡ secret_of secret.entry) × (side.user ≡ string_bytes username)
        × (side.version ≡ version) × (side.state ≡ ClientInitial)) }
    ensures err { IfErr result (λ status. status ≡ StatusOutOfMemory) }
{
    match Machine::with_secret(alloc, username, secret, version) {
        Ok(client) => Ok(client),
        Err(_) => Err(Status::OutOfMemory),
    }
}

impl Login<'_> {
    /// Returns the iteration counts that the client accepts.
    pub fn limits(&self) -> IterationLimits
        ensures { result ≡ record { min_iterations = self.now.min_iterations; max_iterations = self.now.max_iterations } }
    {
        IterationLimits {
            min_iterations: self.min_iterations,
            max_iterations: self.max_iterations,
        }
    }

    /// Returns the number of the secret that the login uses: instead of both the password, where there are no keys yet.
    pub fn secret_used(&self) -> u32
        ensures { result ≡ secret_used self.now }
    {
        if self.secret == 2 && self.keys.version == 0 {
            0
        } else {
            self.secret
        }
    }

    /// Returns what the client says of its channel. `NoSuchChannel` and `ChannelDataLength`.
    pub fn channel(&self) -> Result<ClientChannel, Status>
        ensures tested { MatchResult result (λ channel. IsChannelOf self.now channel
            × NoneHolds (channel_tests self.now.channel_use self.now.channel_kind self.now.channel_data_len))
            (λ status. IsFirst (channel_tests self.now.channel_use self.now.channel_kind self.now.channel_data_len)
            status) }
        ensures memory { IfErr result (λ status. status ≢ StatusOutOfMemory) }
    {
        channel_in(
            self.channel_use,
            self.channel_kind,
            &self.channel_data,
            self.channel_data_len,
        )
    }

    /// Returns what the client says in the header of its messages: its channel, and the identity that it acts for. The
    /// errors are those of the identity, `NoSuchChannel` and `ChannelDataLength`.
    #[tactic(auto, using(crate::proofs::LoginLemmas::headers))]
    pub fn header(&self) -> Result<ClientHeader<'_>, Status>
        ensures tested { MatchResult result (λ header. IsHeaderOf self.now header × NoneHolds (header_tests self.now))
            (λ status. IsFirst (header_tests self.now) status) }
        ensures memory { IfErr result (λ status. status ≢ StatusOutOfMemory) }
    {
        let name = match identity_in(self.acts_for) {
            Ok(name) => name,
            Err(status) => return Err(status),
        };
        match self.channel() {
            Ok(channel) if name.is_empty() => Ok(ClientHeader::new(channel, None)),
            Ok(channel) => Ok(ClientHeader::new(channel, Some(name))),
            Err(status) => Err(status),
        }
    }

    /// Returns the version, after a test of the version, of the user's name, of the identity and of the channel.
    #[tactic(auto, using(crate::proofs::LoginLemmas::names))]
    pub fn named_version(&self) -> Result<ScramVersion, Status>
        ensures { Reads (name_tests self.now) (λ version. IsVersion self.now.version version) result }
    {
        let version = version_of(self.version).ok_or(Status::NoSuchVersion)?;
        text(self.username)?;
        match self.header() {
            Ok(_) => Ok(version),
            Err(status) => Err(status),
        }
    }

    /// Tests the keys, without memory.
    #[tactic(auto, using(crate::proofs::LoginLemmas::keys_there))]
    fn has_keys(&self) -> Result<(), Status>
        ensures tested { MatchResult result (λ _. NoneHolds (keys_tests self.now) × ShowsSomeKeys self.now.keys.now)
            (λ status. IsFirst (keys_tests self.now) status) }
        ensures status { IfErr result (λ status. status ≢ StatusOutOfMemory) }
    {
        if !self.keys.shows() {
            return Err(Status::NoKeys);
        }
        if self.keys.version != self.version {
            return Err(Status::OtherVersion);
        }
        Ok(())
    }

    /// Tests the secret, without memory.
    #[tactic(auto, using(crate::proofs::LoginLemmas::secret_tests))]
    fn has_secret(&self) -> Result<(), Status>
        ensures tested { MatchResult result (λ _. HasSecret self.now) (λ status. IsNoSecret self.now status) }
        ensures status { IfErr result (λ status. status ≢ StatusOutOfMemory) }
    {
        match self.secret_used() {
            0 => match password_in(self.form, self.password) {
                Ok(_) => Ok(()),
                Err(status) => Err(status),
            },
            1 => match self.has_keys() {
                Ok(()) => Ok(()),
                Err(status) => Err(status),
            },
            2 => {
                if let Err(status) = password_in(self.form, self.password) {
                    return Err(status);
                }
                match self.has_keys() {
                    Ok(()) => Ok(()),
                    Err(status) => Err(status),
                }
            }
            _ => Err(Status::NoSuchSecret),
        }
    }

    /// Tests the version, the user's name, the identity, the channel and the secret, in this order, without memory.
    /// Returns the version.
    #[tactic(auto, using(crate::proofs::LoginLemmas::login_tests))]
    pub fn tested(&self) -> Result<ScramVersion, Status>
        ensures ok { IfOk result (λ version. IsVersion self.now.version version × IsTestedLogin self.now) }
        ensures err { IfErr result (λ status. IsNoLogin self.now status) }
        ensures status { IfErr result (λ status. status ≢ StatusOutOfMemory) }
    {
        let version = match self.named_version() {
            Ok(version) => version,
            Err(status) => return Err(status),
        };
        match self.has_secret() {
            Ok(()) => Ok(version),
            Err(status) => Err(status),
        }
    }

    /// Returns the keys, which are of the login's version.
    pub fn keys(&self, alloc: Global) -> Result<CachedKeys, Status>
        ensures ok { IfOk result (λ keys. ShowsKeys self.now.keys.now keys × IsVersion self.now.version keys.version) }
        ensures err { IfErr result (λ status. status ≢ StatusOutOfMemory
            → IsFirst (keys_tests self.now) status) }
    {
        let Some(keys) = shown(alloc, self.keys)? else {
            return Err(Status::NoKeys);
        };
        if self.keys.version != self.version {
            return Err(Status::OtherVersion);
        }
        Ok(keys)
    }

    /// Returns a client of this user and version, by the secret of the login.
    #[tactic(auto, using(crate::proofs::LoginLemmas::no_secrets))]
    fn by_secret(
        &self,
        alloc: Global,
        username: String,
        version: ScramVersion,
    ) -> Result<Machine, Status>
        requires version { IsVersion self.now.version version }
        ensures ok { IfOk result (λ side. IsSecretOf self.now side.secret × (side.user ≡ string_bytes username)
            × (side.state ≡ ClientInitial)) }
        ensures version { IfOk result (λ side. IsVersion self.now.version side.version) }
        ensures err { IfErr result (λ status. status ≢ StatusOutOfMemory → IsNoSecret self.now status) }
    {
        match self.secret_used() {
            0 => {
                let secret = ClientSecret::Password(password_in(self.form, self.password)?);
                client_by(alloc, username, secret, version)
            }
            1 => match self.keys(alloc) {
                Ok(keys) => client_by(alloc, username, ClientSecret::Keys(&keys), version),
                Err(status) => Err(status),
            },
            2 => {
                let password = password_in(self.form, self.password)?;
                let keys = self.keys(alloc)?;
                let secret = ClientSecret::PasswordAndKeys {
                    password,
                    keys: &keys,
                };
                client_by(alloc, username, secret, version)
            }
            _ => Err(Status::NoSuchSecret),
        }
    }

    /// Returns a client that has sent nothing.
    #[tactic(auto, using(crate::proofs::LoginLemmas::login_tests))]
    pub fn client(&self, alloc: Global) -> Result<Machine, Status>
        ensures ok { IfOk result (λ side. IsClientOf self.now side × (side.state ≡ ClientInitial)) }
        ensures login { IfOk result (λ _. IsTestedLogin self.now) }
        ensures err { IfErr result (λ status. status ≢ StatusOutOfMemory → IsNoLogin self.now status) }
        ensures memory { AsksWhere (IsTestedLogin self.now) result }
    {
        // The login is tested before memory is requested.
        let version = match self.tested() {
            Ok(version) => version,
            Err(status) => return Err(status),
        };
        let channel = match self.channel() {
            Ok(channel) => channel,
            Err(status) => return Err(status),
        };
        let acts_for = identity_in(self.acts_for)?.to_string(alloc)?;
        let username = text(self.username)?.to_string(alloc)?;
        match self.by_secret(alloc, username, version) {
            Ok(client) => {
                let options = ClientOptions {
                    limits: self.limits(),
                    signature_by_challenge: is_set(self.signature_by_challenge),
                    strict: is_set(self.strict),
                    channel,
                };
                Ok(client.with_options(options).acting_for(Some(acts_for)))
            }
            Err(status) => Err(status),
        }
    }
}
