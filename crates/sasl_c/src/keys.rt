//! What a client keeps in place of its password, as a struct.

ghost use Rattle.std.specs.Prelude.{◌≡◌, ◌≢◌, ◌↔◌, IsTrue, MatchOption, IfOk, IfErr, Some};
ghost use Rattle.fe2o3_scram.specs.Readings.{Gives, NoneHolds};
ghost use Rattle.sasl_c.specs.Keys.{KeysHaveRoom, MakesKeysStruct, ShowsKeys, ShowsNoKeys, ShowsSomeKeys, WritesKeys, keys_struct};
ghost use Rattle.sasl_c.specs.Records.{struct_making_tests};
ghost use Rattle.sasl_c.specs.Status.{Answers, Makes};
ghost use Rattle.sasl_c.specs.declared.keys.ScramKeys.{ScramKeys as Struct};
ghost use Rattle.sasl_c.specs.declared.status.Status.TheVariants.{OutOfMemory as StatusOutOfMemory};

use crate::arrays::{fill, head, padded, store};
use crate::passwords::password_in;
use crate::status::{Status, digest_len, number, number_of, version_of};
use fe2o3_scram::{CachedKeys, Meter};
use std::alloc::Global;

/// The keys that a client can cache in place of its password. They are secret: they suffice to log in.
#[repr(C)]
#[derive(Drop)]
pub struct ScramKeys {
    /// The hash of the mechanism: one of enum fe2o3_scram_version, or 0 if the struct holds no keys.
    pub version: u32,

    /// The iteration count for which the keys were derived.
    pub iterations: u32,

    /// The number of bytes of `salt` in use, at most 128.
    pub salt_len: u32,

    /// The salt for which the keys were derived.
    pub salt: [u8; 128],

    /// The ClientKey, with as many bytes as a digest of the hash.
    pub client_key: [u8; 64],

    /// The ServerKey, with as many bytes as a digest of the hash.
    pub server_key: [u8; 64],
}

impl ScramKeys {
    /// Returns the struct of keys, or `None` if they do not fit.
    pub fn of(keys: &CachedKeys) -> Option<ScramKeys>
        ensures { MatchOption result (¬ KeysHaveRoom keys.now) (λ shown. KeysHaveRoom keys.now × (shown ≡ keys_struct keys.now)) }
    {
        let (version, salt) = (keys.scram_version(), keys.salt());
        let len = digest_len(version);
        if keys.client_key().len() != len || keys.server_key().len() != len {
            return None;
        }
        Some(ScramKeys {
            version: number_of(version),
            iterations: keys.iterations(),
            salt: padded(salt)?,
            salt_len: salt.len() as u32,
            client_key: padded(keys.client_key())?,
            server_key: padded(keys.server_key())?,
        })
    }

    /// Turns the struct into that of these keys, or of no keys if they do not fit. The fields are written in place,
    /// since a copy would be a measurable part of a login by keys.
    pub fn hold(&mut self, keys: &CachedKeys)
        ensures { WritesKeys self.new (Some keys.now) }
    {
        let (version, salt) = (keys.scram_version(), keys.salt());
        let len = digest_len(version);
        if salt.len() > 128 || keys.client_key().len() != len || keys.server_key().len() != len {
            self.version = 0;
            self.iterations = 0;
            self.salt_len = 0;
            self.salt.fill(0);
            self.client_key.fill(0);
            self.server_key.fill(0);
            return;
        }
        self.version = number_of(version);
        self.iterations = keys.iterations();
        self.salt_len = salt.len() as u32;
        fill(&mut self.salt, salt);
        fill(&mut self.client_key, keys.client_key());
        fill(&mut self.server_key, keys.server_key());
    }

    /// Returns a copy of the struct.
    pub fn copied(&self) -> ScramKeys
        ensures { result ≡ self.now }
    {
        ScramKeys {
            version: self.version,
            iterations: self.iterations,
            salt_len: self.salt_len,
            salt: self.salt,
            client_key: self.client_key,
            server_key: self.server_key,
        }
    }

    /// Returns whether the struct holds keys.
    #[tactic(auto, using(crate::proofs::LoginLemmas::key_tests))]
    pub fn shows(&self) -> bool
        ensures { IsTrue result ↔ ShowsSomeKeys self.now }
    {
        match version_of(self.version) {
            Some(_) => self.salt_len <= 128,
            None => false,
        }
    }

    /// Returns the keys that the struct holds. The errors are `NoSuchVersion`, `TooLong` for a `salt_len` above 128,
    /// and `OutOfMemory`.
    pub fn read(&self, alloc: Global) -> Result<CachedKeys, Status>
        ensures ok { IfOk result (λ keys. ShowsKeys self.now keys) }
        ensures err { IfErr result (λ status. status ≢ StatusOutOfMemory → ShowsNoKeys self.now status) }
    {
        let version = version_of(self.version).ok_or(Status::NoSuchVersion)?;
        let salt = head(&self.salt, self.salt_len).ok_or(Status::TooLong)?;
        let len = digest_len(version);
        let keys = CachedKeys::from_parts(
            version,
            salt.to_vec(alloc)?,
            self.iterations,
            &self.client_key[..len],
            &self.server_key[..len],
        );
        match keys {
            Ok(keys) => Ok(keys),
            Err(_) => Err(Status::TooLong),
        }
    }
}

/// Derives the keys of a password, as a struct.
#[tactic(auto, using(crate::proofs::RecordLemmas::makes))]
fn compute_keys(
    alloc: Global,
    version: u32,
    form: u32,
    password: &[u8],
    salt: &[u8],
    iterations: u32,
) -> Result<ScramKeys, Status>
    ensures { Gives StatusOutOfMemory (NoneHolds (struct_making_tests version form password.now salt.now iterations))
        (λ (keys : Struct). keys) result (MakesKeysStruct version form password.now salt.now iterations) }
{
    let version = version_of(version).ok_or(Status::NoSuchVersion)?;
    let password = password_in(form, password)?;
    if salt.len() > 128 {
        return Err(Status::TooLong);
    }
    let mut meter = Meter::new();
    match CachedKeys::from_password(alloc, version, password, salt, iterations, &mut meter) {
        Ok(keys) => match ScramKeys::of(&keys) {
            Some(made) => Ok(made),
            None => Err(Status::TooLong),
        },
        Err(why) => Err(Status::from(why)),
    }
}

/// Derives the keys of a password, for a server that uses this salt and iteration count. `form` is one of enum
/// fe2o3_password_form.
///
/// The errors are those of `fe2o3_scram_record_make`, in the same order.
#[unsafe(no_mangle)]
pub extern "C" fn fe2o3_scram_keys_make(
    alloc: Global,
    version: u32,
    form: u32,
    password: &[u8],
    salt: &[u8],
    iterations: u32,
    keys: &mut ScramKeys,
) -> u32
    ensures { Answers result (Makes (NoneHolds (struct_making_tests version form password.now salt.now iterations))
        (MakesKeysStruct version form password.now salt.now iterations) keys.old keys.new) }
{
    number(store(
        compute_keys(alloc, version, form, password, salt, iterations),
        keys,
    ))
}
