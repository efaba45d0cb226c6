//! Who may act as whom (RFC 4422, section 2).

ghost use Rattle.std.specs.Prelude.{◌≡◌, ◌++◌, ◌∷◌, ◌&&◌, ℕ, List, [], OnErr, OnOk, nat_eq, option_map};
ghost use Rattle.std.specs.List.{list_any};
ghost use Rattle.std.specs.Cmp.Lexicographic.{pointwise};
ghost use Rattle.fe2o3_scram.specs.ActingRights.{may_act};

use crate::OutOfMemory;
use std::alloc::{AllocError, Global};
use std::marker::Model;
use std::sync::Arc;

/// A user, and an identity that the user may act for.
#[derive(Drop)]
struct ActingRight {
    user: String,
    acts_for: String,
}

impl Model for ActingRight {
    ghost use Rattle.std.specs.Prelude.{ℕ, List};
    ghost use Rattle.std.specs.String.{string_bytes};

    ghost Value = { List ℕ × List ℕ };

    ghost view = { λ right. (string_bytes right.user, string_bytes right.acts_for) };
}

impl ActingRight {
    /// Returns whether this is the right of this user to act for this identity.
    fn is_of(&self, user: &str, acts_for: &str) -> bool
        ensures { result ≡ (pointwise nat_eq self.now.0 user.now && pointwise nat_eq self.now.1 acts_for.now) }
    {
        self.user.as_str() == user && self.acts_for.as_str() == acts_for
    }
}

/// Which users may act for which other identities (RFC 4422, section 2). Without a right each user may act only for
/// itself. Names are plain, not escaped, and are compared byte by byte.
#[derive(Drop)]
pub struct ActingRights {
    rights: Vec<ActingRight>,
}

impl Model for ActingRights {
    ghost use Rattle.fe2o3_scram.specs.ActingRights.{Rights};

    ghost Value = { Rights };

    ghost view = { λ rights. rights.rights.items };
}

impl ActingRights {
    /// Returns no rights.
    pub fn new(alloc: Global) -> Self
        ensures { result ≡ [] }
    {
        Self {
            rights: Vec::new(alloc),
        }
    }

    /// Lets this user act for this identity.
    ///
    /// The only error is `OutOfMemory`. It changes nothing.
    pub fn allow(&mut self, alloc: Global, user: &str, acts_for: &str) -> Result<(), OutOfMemory>
        ensures ok { OnOk result (self.new ≡ self.old ++ ((user.now, acts_for.now) ∷ [])) }
        ensures err { OnErr result (self.new ≡ self.old) }
    {
        let right = ActingRight {
            user: user.to_string(alloc)?,
            acts_for: acts_for.to_string(alloc)?,
        };
        self.rights.push(right)?;
        Ok(())
    }

    /// Returns whether the user may act for this identity: it has the user's own name, or the user has a right to it.
    /// `None` is a client that acts for itself, which each user may.
    pub fn may_act(&self, user: &str, acts_for: Option<&str>) -> bool
        ensures { result ≡ may_act self.now user.now (option_map (λ name. name.now) acts_for.entry) }
    {
        let Some(name) = acts_for else {
            return true;
        };
        user == name || self.has_right(user, name)
    }

    /// Returns whether the user has a right to act for this identity.
    fn has_right(&self, user: &str, acts_for: &str) -> bool
        ensures { result ≡ list_any (λ (right : List ℕ × List ℕ). pointwise nat_eq right.0 user.now
            && pointwise nat_eq right.1 acts_for.now) self.now }
    {
        self.rights.iter().any(|right| right.is_of(user, acts_for))
    }
}

/// The rights of a server, which servers share, or none.
#[derive(Drop)]
pub(crate) struct SharedRights {
    rights: Option<Arc<ActingRights>>,
}

impl Model for SharedRights {
    ghost use Rattle.std.specs.Arc.{arc_value};
    ghost use Rattle.std.specs.Prelude.{option_map};
    ghost use Rattle.fe2o3_scram.specs.ActingRights.{Rights, some_rights};

    ghost Value = { Rights };

    ghost view = { λ shared. some_rights (option_map arc_value shared.rights) };
}

impl SharedRights {
    /// Returns no rights.
    pub(crate) fn none() -> Self
        ensures { result ≡ [] }
    {
        Self { rights: None }
    }

    /// Returns these rights.
    pub(crate) fn of(rights: Arc<ActingRights>) -> Self
        ensures { result ≡ rights.value }
    {
        Self {
            rights: Some(rights),
        }
    }

    /// Returns whether the user may act for this identity, or for itself.
    pub(crate) fn may_act(&self, user: &str, acts_for: Option<&str>) -> bool
        ensures { result ≡ may_act self.now user.now (option_map (λ name. name.now) acts_for.entry) }
    {
        match &self.rights {
            Some(rights) => rights.may_act(user, acts_for),
            None => match acts_for {
                Some(name) => user == name,
                None => true,
            },
        }
    }
}

impl Clone for SharedRights {
    ghost is_clone = { λ rights copy. copy ≡ rights };

    fn clone(&self) -> Result<Self, AllocError> {
        Ok(Self {
            rights: self.rights.clone()?,
        })
    }
}
