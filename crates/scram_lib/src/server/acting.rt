//! Who may act as whom at a server (RFC 4422, section 2).

ghost use Rattle.std.specs.Prelude.{◌≡◌, ◌++◌, ◌↔◌, IfErr, IfOk, IfSome, IsOk, OnOk, flat_map, map, option_map, true};
ghost use Rattle.std.specs.List.{list_all};
ghost use Rattle.scram_lib.specs.Acting.{AreRightsOf, names_both, right_by};

use crate::server::Service;
use fe2o3_scram::{ActingRights, OutOfMemory};
use scram_base_lib::channel::parts_of;
use scram_base_lib::stop::Stop;
use std::alloc::Global;

impl Service<'_, '_> {
    /// Checks that each argument with a right names a user and an identity.
    pub(crate) fn test_rights(&self) -> Result<(), Stop>
        ensures ok { IsOk result ↔ IfSome self.now.may_act (λ words.
            list_all (λ word. names_both word.now) words.now ≡ true) }
        ensures err { IfErr result (λ stop. stop ≡ Stop.WrongRight) }
    {
        match self.may_act {
            Some(words) if !are_rights(words) => Err(Stop::WrongRight),
            _ => Ok(()),
        }
    }

    /// Returns the rights of the user whom a client claims, if it claims one: to act for the name of its records, and for
    /// each identity that the arguments give to that name.
    pub(crate) fn rights(
        &self,
        alloc: Global,
        claimed: Option<&str>,
    ) -> Result<ActingRights, OutOfMemory>
        ensures { IfOk result (AreRightsOf self.now.saslprep
            (option_map (λ words. map (λ word. word.now) words.now) self.now.may_act)
            (option_map (λ sent. sent.now) claimed.entry)) }
    {
        let mut rights = ActingRights::new(alloc);
        let Some(sent) = claimed else {
            return Ok(rights);
        };
        let Some(name) = self.name_of(alloc, sent)? else {
            return Ok(rights);
        };
        rights.allow(alloc, sent, &name)?;
        if let Some(words) = self.may_act {
            allow_by(alloc, &mut rights, words, sent, &name)?;
        }
        Ok(rights)
    }
}

/// Adds the rights that arguments give to the user whose records have a name, and who sends another one or the same.
fn allow_by(
    alloc: Global,
    rights: &mut ActingRights,
    words: &[&str],
    sent: &str,
    name: &str,
) -> Result<(), OutOfMemory>
    ensures { OnOk result (rights.new
        ≡ rights.old ++ flat_map (right_by sent.now name.now) (map (λ word. word.now) words.now)) }
{
    for word in words {
        allow_word(alloc, rights, word, sent, name)?;
    }
    Ok(())
}

/// Adds the right that an argument gives to this user, if it names the user.
fn allow_word(
    alloc: Global,
    rights: &mut ActingRights,
    word: &str,
    sent: &str,
    name: &str,
) -> Result<(), OutOfMemory>
    ensures { OnOk result (rights.new ≡ rights.old ++ right_by sent.now name.now word.now) }
{
    let (user, identity) = parts_of(word);
    if user == name {
        rights.allow(alloc, sent, identity)?;
    }
    Ok(())
}

/// Returns whether each argument names a user and an identity.
fn are_rights(words: &[&str]) -> bool
    ensures { result ≡ list_all (λ word. names_both word.now) words.now }
{
    words.iter().all(|word| names_both(word))
}

/// Returns whether an argument names a user and an identity.
fn names_both(word: &str) -> bool
    ensures { result ≡ names_both word.now }
{
    let (user, identity) = parts_of(word);
    !user.is_empty() && !identity.is_empty()
}
