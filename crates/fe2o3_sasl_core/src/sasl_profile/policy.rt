//! A client that selects its mechanism from the server's offer, by a policy (AMQP 1.0, part 5, section 5.3.3.2).

ghost use Rattle.std.specs.Prelude.{◌≡◌, IfOk, OnErr, MatchOption, Some, None, string_bytes};
ghost use Rattle.fe2o3_scram.specs.ClientSecret.{secret_of};
ghost use Rattle.fe2o3_sasl_core.specs.ActingProfiles.{acting_profile};
ghost use Rattle.fe2o3_sasl_core.specs.ProfileMachine.{IsSelected, NoneCanBeTaken, NoneIsSelected};
ghost use Rattle.fe2o3_sasl_core.specs.Profiles.{PolicyProfile};
ghost use Rattle.fe2o3_sasl_core.specs.SaslProfile.{profile_of, selection_of};

use super::SaslProfile;
use super::selection::{ChoiceError, select_mechanism};
use crate::OutOfMemory;
use crate::client_policy::ClientPolicy;
use crate::offer::Offer;
use fe2o3_scram::client_secret::{ClientSecret, OwnedSecret};
use std::alloc::{AllocError, Global};

/// What a client selects its mechanism by. [`SaslProfile::by_policy`] makes it.
#[derive(Drop)]
pub struct PolicyLogin {
    pub(super) username: String,
    secret: OwnedSecret,
    policy: ClientPolicy,
    pub(super) acts_for: Option<String>,
}

impl PolicyLogin {
    /// Returns what a client of this user selects by, with a copy of its secret. It acts for itself.
    pub(super) fn new(
        alloc: Global,
        username: String,
        secret: ClientSecret<'_>,
        policy: ClientPolicy,
    ) -> Result<Self, OutOfMemory>
        ensures { IfOk result (λ login. selection_of login ≡ record {
          user = string_bytes username;
          secret = secret_of secret.entry;
          policy = policy;
          acts_for = None;
        }) }
    {
        Ok(Self {
            username,
            secret: OwnedSecret::of(alloc, secret)?,
            policy,
            acts_for: None,
        })
    }

    /// Asks to act for the identity.
    pub(super) fn act_for(&mut self, identity: String)
        ensures { PolicyProfile (selection_of self.new)
            ≡ acting_profile (PolicyProfile (selection_of self.old)) (string_bytes identity) }
    {
        self.acts_for = Some(identity);
    }

    /// Returns the profile that is selected from an offer, which asks to act for the client's identity. `None` if no offered
    /// mechanism can be selected, or the selected one cannot ask to act for the identity.
    pub(super) fn selected<O: Offer>(
        &self,
        alloc: Global,
        offer: &O,
    ) -> Result<Option<SaslProfile>, OutOfMemory>
        ensures ok { IfOk result (λ selected. MatchOption selected (NoneIsSelected (selection_of self.now) (O.names offer.now))
            (λ profile. IsSelected (selection_of self.now) (O.names offer.now) (profile_of profile))) }
        ensures err { OnErr result (¬ NoneCanBeTaken (selection_of self.now) (O.names offer.now)) }
    {
        let secret = self.secret.lent();
        let chosen = match select_mechanism(alloc, offer, &self.username, &secret, self.policy) {
            Ok(chosen) => chosen,
            Err(ChoiceError::NoAcceptableMechanism) => return Ok(None),
            Err(ChoiceError::OutOfMemory) => return Err(OutOfMemory),
        };
        match &self.acts_for {
            Some(identity) => {
                let identity = String::from_str(alloc, identity)?;
                Ok(chosen.acting_for(identity))
            }
            None => Ok(Some(chosen)),
        }
    }
}

impl Clone for PolicyLogin {
    ghost is_clone = { λ login copy. selection_of copy ≡ selection_of login };

    fn clone(&self) -> Result<Self, AllocError> {
        Ok(Self {
            username: self.username.clone()?,
            secret: self.secret.clone()?,
            policy: self.policy,
            acts_for: self.acts_for.clone()?,
        })
    }
}
