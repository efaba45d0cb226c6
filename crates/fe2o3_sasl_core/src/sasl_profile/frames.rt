//! Answers the frames of a server (AMQP 1.0, part 5, section 5.3.2).

ghost use Rattle.std.specs.Prelude.{◌≡◌, ◌≢◌, ◌≤◌, ◌^◌, Option, Some, ℕ, List, IfOk, IfErr, OnOk, OnErr, MatchOption};
ghost use Rattle.fe2o3_sasl_core.specs.declared.sasl_profile.error.ProfileError.TheVariants.{OutOfMemory as FaultOfMemory};
ghost use Rattle.fe2o3_sasl_wire.specs.AmqpTypes.{init_frame, response_frame, outcome_frame};
ghost use Rattle.fe2o3_sasl_wire.specs.FrameView.{shown};
ghost use Rattle.fe2o3_sasl_wire.specs.Owned.{owned_frame};
ghost use Rattle.fe2o3_sasl_wire.specs.SaslFrames.{Init, Challenge, Mechanisms, Outcome};
ghost use Rattle.fe2o3_sasl_core.specs.Costs.{ProfileCosts};
ghost use Rattle.fe2o3_sasl_core.specs.Profiles.{profile_name, initial_response, after_init};
ghost use Rattle.fe2o3_sasl_core.specs.ProfileMachine.{FrameAllocates, OfferAllocates, StepAllocates, ProfileAnswers};
ghost use Rattle.fe2o3_sasl_core.specs.ProfileFaults.{answered};
ghost use Rattle.fe2o3_sasl_core.specs.SaslProfile.{negotiated_frame, profile_of};
ghost use Rattle.fe2o3_sasl_core.specs.private.Writing.{AnswersAlways, IsFor, NoneIsFor, RefusesAlways, is_by_policy};

use super::scram_frames::{answer, outcome_refusal_unread, refusal_unread, verify};
use super::{Negotiation, ProfileError, SaslProfile};
use crate::OutOfMemory;
use crate::offer::Offer;
use fe2o3_sasl_wire::{Binary, Frame, SaslCode, SaslInit, SaslOutcome, SaslResponse};
use fe2o3_scram::hmac::Meter;
use std::alloc::Global;

impl SaslProfile {
    /// Answers a frame of the server: mechanisms with the profile's name by an init with this hostname, a challenge by
    /// a response, an outcome by itself. A client by a policy becomes the profile that it selects from the mechanisms.
    /// Errors: NotImplemented for mechanisms without the name, or from which none is selected; before that for every other
    /// frame; for a challenge to a profile other than SCRAM, unless `answers_empty_challenge` and it is empty; and for an init
    /// or a response; otherwise those of SCRAM. An error leaves the profile unchanged.
    pub fn on_frame(
        &mut self,
        alloc: Global,
        frame: Frame,
        hostname: Option<&str>,
        nonce: &[u8; 32],
    ) -> Result<Negotiation, ProfileError>
        ensures answer { ProfileAnswers FrameAllocates (profile_of self.old) (shown hostname.entry) nonce.now
            (owned_frame frame) (answered negotiated_frame result) (profile_of self.new) }
        ensures err { OnErr result (profile_of self.new ≡ profile_of self.old) }
    {
        match frame {
            Frame::Mechanisms(mechanisms) => {
                Ok(Negotiation::Init(self.answer_offer(alloc, &mechanisms, hostname, nonce)?))
            }
            Frame::Challenge(challenge) => {
                match self.respond(alloc, &challenge.challenge.0, &mut Meter::new()) {
                    Ok(response) => Ok(Negotiation::Response(response)),
                    Err(fault) => Err(fault),
                }
            }
            Frame::Outcome(outcome) => {
                self.conclude(alloc, &outcome)?;
                Ok(Negotiation::Outcome(outcome))
            }
            Frame::Init(_) | Frame::Response(_) => Err(ProfileError::NotImplemented),
        }
    }

    /// Returns the profile that answers an offer: a copy of this one if its mechanism is offered, and of a client by a
    /// policy the one that it selects.
    pub(crate) fn for_offer<O: Offer>(
        &self,
        alloc: Global,
        offer: &O,
    ) -> Result<Option<SaslProfile>, OutOfMemory>
        ensures ok { IfOk result (λ next. MatchOption next (NoneIsFor (profile_of self.now) (O.names offer.now))
            (λ next. IsFor (profile_of self.now) (O.names offer.now) (profile_of next))) }
        ensures err { OnErr result (OfferAllocates (profile_of self.now) (O.names offer.now)) }
    {
        match self {
            SaslProfile::ByPolicy(login) => login.selected(alloc, offer),
            profile if offer.offers(profile.name()) => Ok(Some(profile.clone()?)),
            _ => Ok(None),
        }
    }

    /// Returns the init for an offer. Errors: NotImplemented if no profile answers it, and OutOfMemory.
    fn answer_offer<O: Offer>(
        &mut self,
        alloc: Global,
        offer: &O,
        hostname: Option<&str>,
        nonce: &[u8; 32],
    ) -> Result<SaslInit, ProfileError>
        ensures answer { ProfileAnswers FrameAllocates (profile_of self.old) (shown hostname.entry) nonce.now
            (Mechanisms (O.names offer.now)) (answered init_frame result) (profile_of self.new) }
        ensures err { OnErr result (profile_of self.new ≡ profile_of self.old) }
    {
        let Some(mut next) = self.for_offer(alloc, offer)? else {
            return Err(ProfileError::NotImplemented);
        };
        let init = next.start(alloc, hostname, nonce)?;
        *self = next;
        Ok(init)
    }

    /// Returns the init for a server that has the mechanism.
    pub(crate) fn start(
        &mut self,
        alloc: Global,
        hostname: Option<&str>,
        nonce: &[u8; 32],
    ) -> Result<SaslInit, OutOfMemory>
        ensures ok { IfOk result (λ init. init_frame init ≡ Init (profile_name (profile_of self.old))
            (initial_response (profile_of self.old) nonce.now) (shown hostname.entry)) }
        ensures started { OnOk result (profile_of self.new ≡ after_init (profile_of self.old) nonce.now) }
        ensures err { OnErr result (profile_of self.new ≡ profile_of self.old) }
    {
        let mechanism = self.mechanism(alloc)?;
        let hostname = match hostname {
            Some(hostname) => Some(String::from_str(alloc, hostname)?),
            None => None,
        };
        let initial_response = self.initial_response(alloc, nonce)?;
        Ok(SaslInit {
            mechanism,
            initial_response,
            hostname,
        })
    }

    /// Returns why a challenge is rejected before a part of it is read: the profile expects none, or SCRAM's is not
    /// UTF-8, or not expected.
    pub(crate) fn refusal_unread(&self, challenge: &[u8]) -> Option<ProfileError>
        ensures { MatchOption result (StepAllocates (profile_of self.now) (Challenge challenge.now))
            (λ fault. RefusesAlways (profile_of self.now) (Challenge challenge.now) fault) }
    {
        match self {
            SaslProfile::Anonymous | SaslProfile::External => Some(ProfileError::NotImplemented),
            SaslProfile::Plain { .. } | SaslProfile::PlainAs { .. } => {
                Some(ProfileError::NotImplemented)
            }
            SaslProfile::ByPolicy(_) => Some(ProfileError::NotImplemented),
            SaslProfile::AnonymousAs(single) => single.refusal_unread(challenge),
            SaslProfile::ExternalAs(single) => single.refusal_unread(challenge),
            SaslProfile::ScramSha1(scram) => refusal_unread(&scram.client, challenge),
            SaslProfile::ScramSha256(scram) => refusal_unread(&scram.client, challenge),
            SaslProfile::ScramSha512(scram) => refusal_unread(&scram.client, challenge),
        }
    }

    /// Returns whether the profile is by a policy, and has selected no mechanism yet.
    fn is_by_policy(&self) -> bool
        ensures { result ≡ is_by_policy (profile_of self.now) }
    {
        matches!(self, SaslProfile::ByPolicy(_))
    }

    /// Returns why an outcome is rejected before its data are copied: no mechanism is selected; or SCRAM reads them, and they
    /// are not expected, or not UTF-8.
    pub(crate) fn outcome_refusal_unread(
        &self,
        code: SaslCode,
        additional_data: Option<&[u8]>,
    ) -> Option<ProfileError>
        ensures { MatchOption result ((text : List ℕ) → shown additional_data.entry ≡ Some text
            → StepAllocates (profile_of self.now) (Outcome code (Some text)))
            (λ fault. (fault ≢ FaultOfMemory)
            × RefusesAlways (profile_of self.now) (Outcome code (shown additional_data.entry)) fault) }
    {
        match self.scram_client() {
            Some(client) => match outcome_refusal_unread(client, code, additional_data) {
                Some(kind) => Some(ProfileError::Scram(kind)),
                None => None,
            },
            None if self.is_by_policy() => Some(ProfileError::NotImplemented),
            None => None,
        }
    }

    /// Returns the response to a challenge.
    pub(crate) fn respond(
        &mut self,
        alloc: Global,
        challenge: &[u8],
        meter: &mut Meter,
    ) -> Result<SaslResponse, ProfileError>
        requires { meter.old ≤ 2 ^ 63 }
        ensures answer { AnswersAlways (profile_of self.old) (Challenge challenge.now) (answered response_frame result)
            (profile_of self.new) }
        ensures err { OnErr result (profile_of self.new ≡ profile_of self.old) }
        ensures cost { ProfileCosts (Challenge challenge.now) (profile_of self.old) result meter.old meter.new }
    {
        match self {
            SaslProfile::Anonymous | SaslProfile::External => Err(ProfileError::NotImplemented),
            SaslProfile::Plain { .. } | SaslProfile::PlainAs { .. } => {
                Err(ProfileError::NotImplemented)
            }
            SaslProfile::ByPolicy(_) => Err(ProfileError::NotImplemented),
            SaslProfile::AnonymousAs(single) => single.respond(alloc, challenge),
            SaslProfile::ExternalAs(single) => single.respond(alloc, challenge),
            SaslProfile::ScramSha1(scram) => answer(&mut scram.client, alloc, challenge, meter),
            SaslProfile::ScramSha256(scram) => answer(&mut scram.client, alloc, challenge, meter),
            SaslProfile::ScramSha512(scram) => answer(&mut scram.client, alloc, challenge, meter),
        }
    }

    /// Returns whether the outcome is reported.
    pub(crate) fn conclude(
        &mut self,
        alloc: Global,
        outcome: &SaslOutcome,
    ) -> Result<(), ProfileError>
        ensures answer { (hostname : Option (List ℕ)) (nonce : List ℕ) → ProfileAnswers FrameAllocates
            (profile_of self.old) hostname nonce (outcome_frame outcome.now) (answered (λ _. outcome_frame outcome.now) result)
            (profile_of self.new) }
        ensures err { OnErr result (profile_of self.new ≡ profile_of self.old) }
    {
        match self {
            SaslProfile::Anonymous | SaslProfile::External => Ok(()),
            SaslProfile::Plain { .. } | SaslProfile::PlainAs { .. } => Ok(()),
            SaslProfile::AnonymousAs(_) | SaslProfile::ExternalAs(_) => Ok(()),
            SaslProfile::ByPolicy(_) => Err(ProfileError::NotImplemented),
            SaslProfile::ScramSha1(scram) => verify(&mut scram.client, alloc, outcome),
            SaslProfile::ScramSha256(scram) => verify(&mut scram.client, alloc, outcome),
            SaslProfile::ScramSha512(scram) => verify(&mut scram.client, alloc, outcome),
        }
    }
}

/// Returns an outcome with a copy of its data.
pub(crate) fn outcome_of(
    alloc: Global,
    code: SaslCode,
    additional_data: Option<&[u8]>,
) -> Result<SaslOutcome, OutOfMemory>
    ensures ok { IfOk result (λ outcome. outcome_frame outcome ≡ Outcome code (shown additional_data.entry)) }
    ensures err { IfErr result (λ _. (text : List ℕ) × (shown additional_data.entry ≡ Some text)) }
{
    let additional_data = match additional_data {
        Some(data) => Some(Binary(Vec::from_slice(alloc, data)?)),
        None => None,
    };
    Ok(SaslOutcome {
        code,
        additional_data,
    })
}
