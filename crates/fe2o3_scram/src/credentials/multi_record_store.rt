//! A store for the records of several users and versions.

ghost use Rattle.std.specs.Prelude.{◌≡◌, ◌≢◌, ◌++◌, ◌∷◌, [], IfOk, OnErr, OnOk, map, nat_eq};
ghost use Rattle.std.specs.Borrow.{Bor};
ghost use Rattle.std.specs.Cmp.Lexicographic.{pointwise};
ghost use Rattle.std.specs.String.{string_bytes};
ghost use Rattle.fe2o3_scram.specs.Credentials.{VersionedRecord};
ghost use Rattle.fe2o3_scram.specs.Mixed.{all_have, provider_for, records_named};

use crate::OutOfMemory;
use crate::credentials::record_store::RecordStore;
use crate::credentials::scram_record::ScramRecord;
use crate::hmac::ScramVersion;
use std::alloc::Global;
use std::fmt;
use std::marker::Model;
use std::sync::Arc;

/// A user and a shared record of the user's password.
#[derive(Drop)]
pub(crate) struct MultiUser {
    username: String,
    kept: Arc<ScramRecord>,
}

impl Model for MultiUser {
    ghost use Rattle.std.specs.Prelude.{ℕ, List};
    ghost use Rattle.std.specs.String.{string_bytes};
    ghost use Rattle.fe2o3_scram.specs.Credentials.{VersionedRecord};

    ghost Value = { List ℕ × VersionedRecord };

    ghost view = { λ user. (string_bytes user.username, user.kept.value) };
}

impl MultiUser {
    /// Returns the user name, plain, not escaped.
    pub(crate) fn username(&self) -> &str
        ensures { result.now ≡ self.now.0 }
    {
        &self.username
    }

    /// Returns the user's record.
    pub(crate) fn record(&self) -> &ScramRecord
        ensures { result.now ≡ self.now.1 }
    {
        &self.kept
    }

    /// Returns whether this is the user's name.
    fn is_named(&self, username: &str) -> bool
        ensures { result ≡ pointwise nat_eq self.now.0 username.now }
    {
        self.username.as_str() == username
    }
}

/// The records of several users and versions, like a file that was migrated from one version to another (RFC 5803,
/// section 2). A user may have several, also for one version: of two with one name and one version the first counts.
///
/// Each version has a store of its own, in which a login looks users up. Each record is stored once, and each name
/// three times: in the order of all users, and twice in the store of its version.
#[derive(Drop)]
pub struct MultiRecordStore {
    alloc: Global,
    in_order: Vec<MultiUser>,
    sha1: RecordStore,
    sha256: RecordStore,
    sha512: RecordStore,
}

impl Model for MultiRecordStore {
    ghost use Rattle.std.specs.Prelude.{◌≡◌};
    ghost use Rattle.fe2o3_scram.specs.Mixed.{MultiRecords, provider_for};
    ghost use Rattle.fe2o3_scram.specs.declared.hmac.ScramVersion.TheVariants.{Sha1, Sha256, Sha512};

    ghost Value = { MultiRecords };

    ghost view = { λ store. store.in_order.items };

    ghost invariant = { λ store. (store.sha1 ≡ provider_for Sha1 store.in_order.items)
        × (store.sha256 ≡ provider_for Sha256 store.in_order.items)
        × (store.sha512 ≡ provider_for Sha512 store.in_order.items) };
}

impl MultiRecordStore {
    /// Returns a store without users.
    pub fn new(alloc: Global) -> Self
        ensures { result ≡ [] }
    {
        Self {
            alloc,
            in_order: Vec::new(alloc),
            sha1: RecordStore::new(alloc, ScramVersion::Sha1),
            sha256: RecordStore::new(alloc, ScramVersion::Sha256),
            sha512: RecordStore::new(alloc, ScramVersion::Sha512),
        }
    }

    /// Adds a user's record, of any version, after the others. The name is plain, not escaped. If an earlier record has
    /// the name and the version, that one counts.
    ///
    /// The only error is `OutOfMemory`, which leaves the store as it was.
    pub fn add(&mut self, username: String, kept: ScramRecord) -> Result<(), OutOfMemory>
        ensures ok { OnOk result (self.new ≡ self.old ++ ((string_bytes username, kept) ∷ [])) }
        ensures err { OnErr result (self.new ≡ self.old) }
    {
        let scram_version = *kept.scram_version();
        let kept = Arc::new(self.alloc, kept)?;
        let user = MultiUser {
            username: username.clone()?,
            kept: kept.clone()?,
        };
        self.in_order.push(user)?;
        let added = match scram_version {
            ScramVersion::Sha1 => self.sha1.add_shared(username, kept),
            ScramVersion::Sha256 => self.sha256.add_shared(username, kept),
            ScramVersion::Sha512 => self.sha512.add_shared(username, kept),
        };
        if added.is_err() {
            let _ = self.in_order.pop();
        }
        added
    }

    /// Returns the records of this version, in their order, as a provider. A clone of it shares the users and allocates
    /// nothing. Names are looked up in a map.
    pub fn for_version(&self, scram_version: ScramVersion) -> &RecordStore
        ensures { result.now ≡ provider_for scram_version self.now }
    {
        match scram_version {
            ScramVersion::Sha1 => &self.sha1,
            ScramVersion::Sha256 => &self.sha256,
            ScramVersion::Sha512 => &self.sha512,
        }
    }

    /// Returns whether each user of the store has a record of this version, so that a server over the store can offer the
    /// version to all of them. It is true of a store without users.
    pub fn all_have(&self, scram_version: ScramVersion) -> bool
        ensures { result ≡ all_have scram_version self.now }
    {
        let store = self.for_version(scram_version);
        self.in_order
            .iter()
            .all(|user| store.record(user.username()).is_some())
    }

    /// Returns the records of the name, for every version, in their order. The name is plain, not escaped. Each user's
    /// name is compared.
    ///
    /// The only error is `OutOfMemory`, for a name that has a record.
    pub fn records(&self, username: &str) -> Result<Vec<&ScramRecord>, OutOfMemory>
        ensures found { IfOk result (λ found. map (λ (kept : Bor VersionedRecord). kept.now) found.items
            ≡ records_named self.now username.now) }
        ensures memory { OnErr result (records_named self.now username.now ≢ []) }
    {
        let mut found = Vec::new(self.alloc);
        for user in self.in_order.iter() {
            if user.is_named(username) {
                found.push(user.record())?;
            }
        }
        Ok(found)
    }

    /// Returns the users in the order in which they were added.
    pub(crate) fn users(&self) -> &[MultiUser]
        ensures { result.now ≡ self.now }
    {
        &self.in_order
    }
}

impl fmt::Debug for MultiRecordStore {
    /// Writes only the name of the type: with the keys anyone can impersonate the server.
    fn fmt<W: fmt::Write>(&self, f: &mut fmt::Formatter<W>) -> fmt::Result {
        f.write_str("MultiRecordStore { .. }")
    }
}
