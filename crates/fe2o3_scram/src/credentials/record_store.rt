//! A store for the records of several users.

ghost use Rattle.std.specs.Prelude.{◌≡◌, ◌≢◌, ◌↔◌, ◌++◌, [], ◌∷◌, IfOk, OnErr, OnOk, is_some, option_map, slice_get, true};
ghost use Rattle.std.specs.String.{string_bytes};
ghost use Rattle.fe2o3_scram.specs.Credentials.{kept, record_at, records_with, records_without, versioned};
ghost use Rattle.fe2o3_scram.specs.declared.credentials.record_store.AddRecordError.TheVariants.{OutOfMemory as OutOfMemoryError};

use crate::OutOfMemory;
use crate::credentials::scram_record::ScramRecord;
use crate::credentials::users::{User, Users};
use crate::hmac::ScramVersion;
use crate::provider::{ScramCredentialProvider, StoredPassword};
use std::alloc::{AllocError, AllocFailed, Global};
use std::fmt;
use std::marker::Model;
use std::sync::Arc;
use thiserror::Error;

/// Why a record is not added.
#[derive(Debug, Clone, Copy, PartialEq, Eq, Error)]
pub enum AddRecordError {
    /// The record is for another version than the store.
    #[error("Version mismatch")]
    VersionMismatch,

    /// An allocation failed.
    #[error("Out of memory")]
    OutOfMemory,
}

impl From<AllocError> for AddRecordError {
    ghost from_gives = { λ _ error. error ≡ OutOfMemoryError };

    fn from(_error: AllocError) -> Self {
        AddRecordError::OutOfMemory
    }
}

impl<T: Drop> From<AllocFailed<T>> for AddRecordError {
    ghost from_gives = { λ _ error. error ≡ OutOfMemoryError };

    fn from(_error: AllocFailed<T>) -> Self {
        AddRecordError::OutOfMemory
    }
}

/// The records of several users, all for one version. Of two with one name the first counts.
///
/// A clone shares the users and allocates nothing; another thread may have it. The first change of a store whose users
/// are shared copies them, with about two allocations for each user: for names and places, while the records stay
/// shared. From then on the store has its own users, and the other stores are unchanged.
///
/// Names are looked up in a map, in time logarithmic in the number of users. Each name is stored twice for it.
#[derive(Drop)]
pub struct RecordStore {
    alloc: Global,
    scram_version: ScramVersion,
    users: Option<Arc<Users>>,
}

impl Model for RecordStore {
    ghost use Rattle.std.specs.Prelude.{[], ◌≡◌};
    ghost use Rattle.std.specs.Option.{ForSome, option_map_or};
    ghost use Rattle.fe2o3_scram.specs.Credentials.{Store};

    ghost Value = { Store };

    ghost view = { λ store. record {
      version = store.scram_version;
      records = option_map_or (λ shared. shared.value.records) store.users [];
    } };

    ghost invariant = { λ store.
        ForSome store.users (λ shared. shared.value.version ≡ store.scram_version) };
}

impl RecordStore {
    /// Returns a store without users, for records of this version.
    pub fn new(alloc: Global, scram_version: ScramVersion) -> Self
        ensures { result ≡ record { version = scram_version; records = [] } }
    {
        Self {
            alloc,
            scram_version,
            users: None,
        }
    }

    /// Adds a user after the others. The name is plain, not escaped. If an earlier user has the name, the record of
    /// that one counts.
    ///
    /// The errors are, in this order: `VersionMismatch` if the record is for another version, and
    /// `OutOfMemory`. An error leaves the store as it was.
    pub fn add(&mut self, username: String, kept: ScramRecord) -> Result<(), AddRecordError>
        ensures ok { OnOk result (self.new ≡ record {
          version = self.old.version;
          records = self.old.records ++ ((string_bytes username, kept.stored) ∷ []);
        }) }
        ensures mismatch { (result ≡ Err AddRecordError.VersionMismatch) ↔ (kept.version ≢ self.old.version) }
        ensures err { OnErr result (self.new ≡ self.old) }
    {
        if *kept.scram_version() != self.scram_version {
            return Err(AddRecordError::VersionMismatch);
        }
        self.add_shared(username, Arc::new(self.alloc, kept)?)?;
        Ok(())
    }

    /// Adds a user with a shared record of the store's version after the others.
    pub(crate) fn add_shared(
        &mut self,
        username: String,
        kept: Arc<ScramRecord>,
    ) -> Result<(), OutOfMemory>
        requires { kept.value.version ≡ self.old.version }
        ensures ok { OnOk result (self.new ≡ record {
          version = self.old.version;
          records = self.old.records ++ ((string_bytes username, kept.value.stored) ∷ []);
        }) }
        ensures err { OnErr result (self.new ≡ self.old) }
    {
        if let Some(shared) = &mut self.users {
            return Arc::make_mut(shared)?.add(self.alloc, username, kept);
        }
        let mut users = Users::new(self.alloc, self.scram_version);
        users.add(self.alloc, username, kept)?;
        self.users = Some(Arc::new(self.alloc, users)?);
        Ok(())
    }

    /// Replaces the record that counts for the name, and returns whether there was one. An unknown name changes
    /// nothing. The name is plain, not escaped. The other records stay, in their order, also further ones of the name.
    /// Names are compared up to the first of this one.
    ///
    /// The errors are, in this order: `VersionMismatch` if the record is for another version, and
    /// `OutOfMemory`, only for a name that has a record. An error leaves the store as it was.
    #[tactic(auto, using(crate::proofs::lemmas::providers::ByNameLemmas::with_mock))]
    pub fn replace(&mut self, username: &str, kept: ScramRecord) -> Result<bool, AddRecordError>
        ensures ok { IfOk result (λ found.
            (found ≡ is_some (record_at self.old.records username.now))
            × (self.new ≡ record {
              version = self.old.version;
              records = records_with self.old.records username.now kept.stored;
            })) }
        ensures mismatch { (result ≡ Err AddRecordError.VersionMismatch)
            ↔ (kept.version ≢ self.old.version) }
        ensures err { OnErr result (self.new ≡ self.old) }
        ensures memory { result ≡ Err AddRecordError.OutOfMemory
            → is_some (record_at self.old.records username.now) ≡ true }
    {
        if *kept.scram_version() != self.scram_version {
            return Err(AddRecordError::VersionMismatch);
        }
        let found = self.has(username);
        if found {
            if let Some(shared) = &mut self.users {
                Arc::make_mut(shared)?.replace(self.alloc, username, kept)?;
            }
        }
        Ok(found)
    }

    /// Removes every record of the name, so that none of them counts later, and returns whether there was one. The name
    /// is plain, not escaped. The other records keep their order. Each user's name is compared if there is one to
    /// remove.
    ///
    /// The only error is `OutOfMemory`, for a name that has a record, in a store whose users are shared: it allocates
    /// only to copy them. An error leaves the store as it was.
    #[tactic(auto, using(crate::proofs::lemmas::providers::ByNameLemmas::without_mock))]
    pub fn remove(&mut self, username: &str) -> Result<bool, OutOfMemory>
        ensures ok { IfOk result (λ found.
            (found ≡ is_some (record_at self.old.records username.now))
            × (self.new ≡ record {
              version = self.old.version;
              records = records_without self.old.records username.now;
            })) }
        ensures err { OnErr result (self.new ≡ self.old) }
        ensures memory { OnErr result (is_some (record_at self.old.records username.now) ≡ true) }
    {
        if !self.has(username) {
            return Ok(false);
        }
        if let Some(shared) = &mut self.users {
            Arc::make_mut(shared)?.remove(username);
        }
        Ok(true)
    }

    /// Returns the record that counts for the name, or `None` for an unknown name. The name is plain, not escaped. To
    /// move a user, add a clone of the record to another store, and remove the name here.
    pub fn record(&self, username: &str) -> Option<&ScramRecord>
        ensures { option_map (λ found. found.now) result
            ≡ option_map (versioned self.now.version) (record_at self.now.records username.now) }
    {
        match &self.users {
            Some(shared) => shared.record(username),
            None => None,
        }
    }

    /// Returns what is stored for the user who was added first, or `None` for a store without users.
    pub fn first_stored_password(&self) -> Option<StoredPassword<'_>>
        ensures { option_map kept result ≡ option_map (λ user. user.1) (slice_get self.now.records 0) }
    {
        match self.users().first() {
            Some(user) => Some(user.stored_password()),
            None => None,
        }
    }

    /// Returns whether a user has this name.
    fn has(&self, username: &str) -> bool
        ensures { result ≡ is_some (record_at self.now.records username.now) }
    {
        self.record(username).is_some()
    }

    /// Returns the users in the order in which they were added.
    pub(crate) fn users(&self) -> &[User]
        ensures { result.now ≡ self.now.records }
    {
        match &self.users {
            Some(shared) => shared.in_order(),
            None => &[],
        }
    }
}

impl fmt::Debug for RecordStore {
    /// Writes the version only.
    fn fmt<W: fmt::Write>(&self, f: &mut fmt::Formatter<W>) -> fmt::Result {
        write!(
            f,
            "RecordStore {{ scram_version: {:?}, .. }}",
            self.scram_version
        )
    }
}

impl Clone for RecordStore {
    ghost is_clone = { λ store copy. copy ≡ store };

    fn clone(&self) -> Result<Self, AllocError> {
        let users = match &self.users {
            Some(shared) => Some(shared.clone()?),
            None => None,
        };
        Ok(Self {
            alloc: self.alloc,
            scram_version: self.scram_version,
            users,
        })
    }
}

impl ScramCredentialProvider for RecordStore {
    ghost meaning = { λ store. store };

    ghost clone_keeps = { λ provider copy same. same };

    fn scram_version(&self) -> &ScramVersion {
        &self.scram_version
    }

    fn get_stored_password<'a>(&'a self, username: &str) -> Option<StoredPassword<'a>> {
        match self.record(username) {
            Some(kept) => Some(kept.as_stored_password()),
            None => None,
        }
    }
}
