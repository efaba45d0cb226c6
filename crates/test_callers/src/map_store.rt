//! A caller-owned store: a map from names to records, which the lemma on look-ups makes a provider.

ghost use Rattle.std.specs.Prelude.{◌≡◌, option_map};
ghost use Rattle.std.specs.String.{string_bytes};
ghost use Rattle.fe2o3_scram.specs.Credentials.{record_at};
ghost use Rattle.fe2o3_scram.specs.Stores.{records_in};

use fe2o3_scram::credentials::{ScramCredentialProvider, ScramRecord, StoredPassword};
use fe2o3_scram::hmac::ScramVersion;
use fe2o3_scram::scram_server::ScramAuthenticator;
use std::alloc::AllocError;
use std::collections::BTreeMap;
use std::marker::Model;
use std::process::Abort;
use std::rc::Rc;

/// The records of a version, by name.
#[derive(Drop)]
struct MapStore {
    scram_version: ScramVersion,
    records: Rc<BTreeMap<String, ScramRecord>>,
}

impl Model for MapStore {
    ghost use Rattle.std.specs.String.{string_bytes};
    ghost use Rattle.fe2o3_scram.specs.Credentials.{Store};
    ghost use Rattle.fe2o3_scram.specs.Stores.{records_in};

    ghost Value = { Store };

    ghost view = { λ store. record {
      version = store.scram_version;
      records = records_in (λ entry. string_bytes entry.0) (λ entry. entry.1.stored) store.records.value.entries;
    } };
}

impl Clone for MapStore {
    ghost is_clone = { λ store copy. copy ≡ store };

    fn clone(&self) -> Result<Self, AllocError> {
        Ok(Self {
            scram_version: self.scram_version,
            records: self.records.clone()?,
        })
    }
}

impl ScramCredentialProvider for MapStore {
    ghost meaning = { λ store. store };

    ghost clone_keeps = { λ provider copy same. same };

    fn scram_version(&self) -> &ScramVersion {
        &self.scram_version
    }

    fn get_stored_password<'a>(&'a self, username: &str) -> Option<StoredPassword<'a>> {
        let records: &'a BTreeMap<String, ScramRecord> = &self.records;
        match record_of(records, username) {
            Some(record) => Some(record.as_stored_password()),
            None => None,
        }
    }
}

/// Returns the record of the name.
fn record_of<'a>(
    records: &'a BTreeMap<String, ScramRecord>,
    username: &str,
) -> Option<&'a ScramRecord>
    ensures { option_map (λ found. found.now.stored) result ≡ record_at (records_in
        (λ entry. string_bytes entry.0) (λ entry. entry.1.stored) records.now.entries) username.now }
{
    records.get(username)
}

/// The record of `user` with the password `pencil`, computed with Python's `hashlib` and `hmac`.
static RECORD: &str = "SCRAM-SHA-256$4096:AwMDAwMDAwMDAwMDAwMDAwMDAwMDAwMDAwMDAwMDAwM=$\
    bSqDc2nsVd+d5pD9odZM6kFNedQ0ntQqYaOXJD2q2NE=:hinEcAuJjoOQ+aEn5iUnX8Hiq0kkSbIYlC+FV8dUDpU=";

/// Returns a store of the user.
fn store<R: Abort + AllocGlobal>(rt: &R) -> MapStore {
    let mut records = BTreeMap::new(rt.alloc());
    let name = "user".to_string(rt.alloc()).expect(rt, "memory");
    let record = ScramRecord::parse(rt.alloc(), RECORD).expect(rt, "a record");
    let added: Result<_, _> = records.insert(name, record);
    assert!(rt; added.is_ok());
    let records: Result<_, _> = Rc::new(rt.alloc(), records);
    MapStore {
        scram_version: ScramVersion::Sha256,
        records: records.expect(rt, "memory"),
    }
}

/// Client-first messages, each with whether the store has a record of its user.
static MESSAGES: [(&str, bool); 3] = [
    ("n,,n=user,r=a", true),
    ("n,,n=nobody,r=a", false),
    ("n,,n=users,r=a", false),
];

#[test]
fn a_map_of_records_is_a_store(rt: HostRuntime) {
    let mut server = ScramAuthenticator::new(store(&rt));
    for &(message, is_known) in &MESSAGES {
        let answer = server.compute_server_first_message(rt.alloc(), message.as_bytes(), &[2; 32]);
        assert!(rt;
            answer.expect(&rt, "memory").is_some() == is_known,
            "{message}"
        );
    }
}
