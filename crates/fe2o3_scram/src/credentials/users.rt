//! The users of a store, in insertion order and by name.

ghost use Rattle.std.specs.Prelude.{◌≡◌, ◌++◌, ◌∷◌, [], OnErr, OnOk, is_some, option_map, true, not, nat_eq};
ghost use Rattle.std.specs.Cmp.Lexicographic.{pointwise};
ghost use Rattle.std.specs.String.{string_bytes};
ghost use Rattle.fe2o3_scram.specs.Credentials.{kept, record_at, records_with, records_without, versioned};

use crate::OutOfMemory;
use crate::credentials::scram_record::ScramRecord;
use crate::hmac::ScramVersion;
use crate::provider::StoredPassword;
use std::alloc::{AllocError, Global};
use std::collections::BTreeMap;
use std::marker::Model;
use std::sync::Arc;

/// A user and a shared record of the user's password.
#[derive(Drop)]
pub(crate) struct User {
    username: String,
    kept: Arc<ScramRecord>,
}

impl Model for User {
    ghost use Rattle.std.specs.Prelude.{ℕ, List};
    ghost use Rattle.std.specs.String.{string_bytes};
    ghost use Rattle.fe2o3_scram.specs.Credentials.{Record};

    ghost Value = { List ℕ × Record };

    ghost view = { λ user. (string_bytes user.username, user.kept.value.stored) };
}

impl User {
    /// Returns whether this is the user's name.
    fn is_named(&self, username: &str) -> bool
        ensures { result ≡ pointwise nat_eq self.now.0 username.now }
    {
        self.username.as_str() == username
    }

    /// Returns the user name, plain, not escaped.
    pub(crate) fn username(&self) -> &str
        ensures { result.now ≡ self.now.0 }
    {
        &self.username
    }

    /// Returns what is stored for the user's password.
    pub(crate) fn stored_password(&self) -> StoredPassword<'_>
        ensures { kept result ≡ self.now.1 }
    {
        self.kept.as_stored_password()
    }
}

impl Clone for User {
    ghost is_clone = { λ user copy. copy ≡ user };

    fn clone(&self) -> Result<Self, AllocError> {
        Ok(Self {
            username: self.username.clone()?,
            kept: self.kept.clone()?,
        })
    }
}

/// Users in insertion order, and a map from each name to the record of the first user who has it.
#[derive(Drop)]
pub(crate) struct Users {
    scram_version: ScramVersion,
    in_order: Vec<User>,
    by_name: BTreeMap<String, Arc<ScramRecord>>,
}

impl Model for Users {
    ghost use Rattle.fe2o3_scram.specs.Credentials.{Store};
    ghost use Rattle.fe2o3_scram.specs.private.ByName.{IsByName};
    ghost use Rattle.std.specs.Arc.{arc_value};

    ghost Value = { Store };

    ghost view = { λ users. record {
      version = users.scram_version;
      records = users.in_order.items;
    } };

    ghost invariant = { λ users.
        IsByName arc_value users.by_name users.scram_version users.in_order.items };
}

impl Users {
    /// Returns no users, for records of this version.
    pub(crate) fn new(alloc: Global, scram_version: ScramVersion) -> Self
        ensures { result ≡ record { version = scram_version; records = [] } }
    {
        Self {
            scram_version,
            in_order: Vec::new(alloc),
            by_name: BTreeMap::new(alloc),
        }
    }

    /// Returns the users in insertion order.
    pub(crate) fn in_order(&self) -> &[User]
        ensures { result.now ≡ self.now.records }
    {
        &self.in_order
    }

    /// Returns the record of the name.
    pub(crate) fn record(&self, username: &str) -> Option<&ScramRecord>
        ensures { option_map (λ found. found.now) result
            ≡ option_map (versioned self.now.version) (record_at self.now.records username.now) }
    {
        match self.by_name.get(username) {
            Some(shared) => Some(shared.as_ref()),
            None => None,
        }
    }

    /// Adds a user after the others. The record is for their version.
    pub(crate) fn add(
        &mut self,
        alloc: Global,
        username: String,
        kept: Arc<ScramRecord>,
    ) -> Result<(), OutOfMemory>
        requires { kept.value.version ≡ self.old.version }
        ensures ok { OnOk result (self.new ≡ record {
          version = self.old.version;
          records = self.old.records ++ ((string_bytes username, kept.value.stored) ∷ []);
        }) }
        ensures err { OnErr result (self.new ≡ self.old) }
    {
        if self.by_name.contains_key(username.as_str()) {
            self.in_order.push(User { username, kept })?;
            return Ok(());
        }
        let name = username.clone()?;
        let shared = kept.clone()?;
        self.in_order.push(User { username, kept })?;
        match self.by_name.insert(name, shared) {
            Ok(_) => Ok(()),
            Err(_) => {
                let _ = self.in_order.pop();
                Err(AllocError)
            }
        }
    }

    /// Replaces the first record of the name, which a user has, by this one, which is for the users' version.
    pub(crate) fn replace(
        &mut self,
        alloc: Global,
        username: &str,
        kept: ScramRecord,
    ) -> Result<(), OutOfMemory>
        requires version { kept.version ≡ self.old.version }
        requires named { is_some (record_at self.old.records username.now) ≡ true }
        ensures ok { OnOk result (self.new ≡ record {
          version = self.old.version;
          records = records_with self.old.records username.now kept.stored;
        }) }
        ensures err { OnErr result (self.new ≡ self.old) }
    {
        let name = username.to_string(alloc)?;
        let kept = Arc::new(alloc, kept)?;
        let shared = kept.clone()?;
        let _ = self.by_name.insert(name, shared)?;
        put_first(&mut self.in_order, username, kept);
        Ok(())
    }

    /// Removes every user of the name.
    pub(crate) fn remove(&mut self, username: &str)
        ensures { self.new ≡ record {
          version = self.old.version;
          records = records_without self.old.records username.now;
        } }
    {
        self.in_order.retain(|user| !user.is_named(username));
        let _ = self.by_name.remove(username);
    }
}

impl Clone for Users {
    ghost is_clone = { λ users copy. copy ≡ users };

    #[tactic(auto, using(std::proofs::lemmas::List::Elements::same_from_all_zip))]
    fn clone(&self) -> Result<Self, AllocError> {
        Ok(Self {
            scram_version: self.scram_version,
            in_order: self.in_order.clone()?,
            by_name: self.by_name.clone()?,
        })
    }
}

/// Replaces the first record of the name by this one.
fn put_first(users: &mut [User], username: &str, kept: Arc<ScramRecord>)
    ensures { users.new ≡ records_with users.old username.now kept.value.stored }
{
    for user in users.iter_mut() {
        if user.is_named(username) {
            user.kept = kept;
            return;
        }
    }
}
