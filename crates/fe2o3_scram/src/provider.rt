//! What a server asks of its store of credentials (RFC 5802, section 3).

ghost use Rattle.std.specs.Prelude.{◌≡◌, option_map};
ghost use Rattle.std.proofs.Common.{ap};
ghost use Rattle.fe2o3_scram.specs.Credentials.{Store, record_at, kept};

use crate::hmac::ScramVersion;
use std::fmt;
use std::rc::Rc;

/// The record of a password, borrowed from a provider.
#[derive(Drop)]
pub struct StoredPassword<'a> {
    /// The salt, of any length.
    pub salt: &'a [u8],

    /// The iteration count. A client rejects 0.
    pub iterations: u32,

    /// StoredKey := H(ClientKey)
    pub stored_key: &'a [u8],

    /// ServerKey := HMAC(SaltedPassword, "Server Key")
    pub server_key: &'a [u8],
}

impl fmt::Debug for StoredPassword<'_> {
    /// Writes only the iteration count: with the keys anyone can impersonate the server.
    fn fmt<W: fmt::Write>(&self, f: &mut fmt::Formatter<W>) -> fmt::Result {
        write!(
            f,
            "StoredPassword {{ iterations: {}, .. }}",
            self.iterations
        )
    }
}

/// A store of credentials: a version, and a finite map from user names to records. User names are plain, not escaped.
///
/// The meaning of a caller-owned store is its entries in order, by `records_in` of `specs/Stores.antt`. Its look-up is
/// proved by a lemma of `proofs/lemmas/providers/LookUpLemmas.antt`:
/// `slice_looked_up` for the first of a name in a slice, `hash_map_looked_up` and
/// `btree_map_looked_up` for `get` of a map, `looked_up` for any test of names. With a map from names
/// to records the look-up is a function of one line, and its proof one line besides the imports:
///
/// ```text
/// fn record_of<'a>(records: &'a BTreeMap<String, ScramRecord>, username: &str) -> Option<&'a ScramRecord>
///     ensures { option_map (λ found. found.now.stored) result ≡ record_at (records_in
///         (λ entry. string_bytes entry.0) (λ entry. entry.1.stored) records.now.entries) username.now }
/// {
///     records.get(username)
/// }
///
/// returns c = btree_map_looked_up string_bytes (λ (kept : VersionedRecord). kept.stored)
///     c.args.records.now.entries c.args.username.now c.get.result c.get.ensures.value
/// ```
pub trait ScramCredentialProvider: Clone {
    /// The provider's meaning: a version, and a record for each of its users.
    ghost meaning: { Self → Store };

    /// Returns the version of every record.
    fn scram_version(&self) -> &ScramVersion
        ensures { result.now ≡ (meaning self.now).version };

    /// Returns what is stored for the user's password, or `None` for an unknown user. The name is plain, not escaped.
    fn get_stored_password<'a>(&'a self, username: &str) -> Option<StoredPassword<'a>>
        ensures { option_map kept result ≡ record_at (meaning self.now).records username.now };

    /// A clone has the same meaning.
    ghost clone_keeps: { (provider copy : Self) → Self.is_clone provider copy → meaning copy ≡ meaning provider };
}

impl<T: ScramCredentialProvider> ScramCredentialProvider for Rc<T> {
    ghost meaning = { λ shared. T.meaning shared.value };

    ghost clone_keeps = { λ provider copy same. ap (λ value. T.meaning value) same };

    fn scram_version(&self) -> &ScramVersion {
        let provider: &T = self;
        provider.scram_version()
    }

    fn get_stored_password<'a>(&'a self, username: &str) -> Option<StoredPassword<'a>> {
        let provider: &'a T = self;
        provider.get_stored_password(username)
    }
}
