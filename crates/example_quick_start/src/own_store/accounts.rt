//! The accounts of a broker, which keep more of a user than SCRAM asks for, as a provider.

ghost use Rattle.std.specs.Prelude.{◌≡◌, option_map, nat_eq};
ghost use Rattle.std.specs.Cmp.Lexicographic.{pointwise};
ghost use Rattle.fe2o3_scram.specs.Credentials.{record_at};

use anyhow::{Result, ensure};
use fe2o3_scram::{ScramCredentialProvider, ScramRecord, ScramVersion, StoredPassword};
use std::alloc::{AllocError, Global};
use std::marker::Model;

/// What the broker keeps of one user.
#[derive(Drop)]
pub struct Account {
    /// The name, plain.
    pub name: String,

    /// What is kept of the password.
    pub kept: ScramRecord,

    /// How many sessions the user may open.
    pub sessions: u32,
}

/// To a proof an account is its name and its record.
impl Model for Account {
    ghost use Rattle.std.specs.Prelude.{ℕ, List};
    ghost use Rattle.std.specs.String.{string_bytes};
    ghost use Rattle.fe2o3_scram.specs.Credentials.{Record};

    ghost Value = { List ℕ × Record };

    ghost view = { λ account. (string_bytes account.name, account.kept.stored) };
}

impl Account {
    /// Whether the account is of this user.
    fn is_of(&self, username: &str) -> bool
        ensures { result ≡ pointwise nat_eq self.now.0 username.now }
    {
        self.name.as_str() == username
    }
}

impl Clone for Account {
    ghost is_clone = { λ account copy. copy ≡ account };

    fn clone(&self) -> Result<Account, AllocError> {
        Ok(Account {
            name: self.name.clone()?,
            kept: self.kept.clone()?,
            sessions: self.sessions,
        })
    }
}

/// All accounts, of one version. Of two with one name the first counts.
#[derive(Drop)]
pub struct Accounts {
    version: ScramVersion,
    accounts: Vec<Account>,
}

/// To a proof the accounts are a version, and a list of names and records.
impl Model for Accounts {
    ghost use Rattle.fe2o3_scram.specs.Credentials.{Store};

    ghost Value = { Store };

    ghost view = { λ store. record { version = store.version; records = store.accounts.items } };
}

impl Accounts {
    /// No account yet.
    pub fn new(alloc: Global, version: ScramVersion) -> Accounts {
        Accounts {
            version,
            accounts: Vec::new(alloc),
        }
    }

    /// Adds an account behind the others. One of another version is refused.
    pub fn add(&mut self, account: Account) -> Result<()> {
        ensure!(
            *account.kept.scram_version() == self.version,
            "another version"
        );
        self.accounts.push(account)?;
        Ok(())
    }

    /// The account of the user, if there is one.
    pub fn account(&self, username: &str) -> Option<&Account>
        ensures { option_map (λ account. account.now.1) result ≡ record_at self.now.records username.now }
    {
        for account in &self.accounts {
            if account.is_of(username) {
                return Some(account);
            }
        }
        None
    }
}

impl Clone for Accounts {
    ghost is_clone = { λ store copy. copy ≡ store };

    #[tactic(auto, using(std::proofs::lemmas::List::Elements::same_from_all_zip))]
    fn clone(&self) -> Result<Accounts, AllocError> {
        Ok(Accounts {
            version: self.version,
            accounts: self.accounts.clone()?,
        })
    }
}

impl ScramCredentialProvider for Accounts {
    ghost meaning = { λ store. store };

    ghost clone_keeps = { λ store copy same. same };

    fn scram_version(&self) -> &ScramVersion {
        &self.version
    }

    fn get_stored_password<'a>(&'a self, username: &str) -> Option<StoredPassword<'a>> {
        let account = self.account(username)?;
        Some(account.kept.as_stored_password())
    }
}
