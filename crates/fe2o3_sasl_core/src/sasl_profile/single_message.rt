//! The message of a mechanism of one message, which a client sends with its init (RFC 4422, section 5).

ghost use Rattle.std.specs.Prelude.{◌≡◌, IfOk, MatchBool, MatchOption, OnErr, OnOk, true, false, string_bytes};
ghost use Rattle.fe2o3_sasl_wire.specs.AmqpTypes.{binary_bytes, response_frame};
ghost use Rattle.fe2o3_sasl_wire.specs.SaslFrames.{Challenge};
ghost use Rattle.fe2o3_sasl_core.specs.Profiles.{MessageMechanism};
ghost use Rattle.fe2o3_sasl_core.specs.ProfileMachine.{StepAllocates};
ghost use Rattle.fe2o3_sasl_core.specs.ProfileFaults.{answered};
ghost use Rattle.fe2o3_sasl_core.specs.declared.sasl_profile.error.ProfileError.TheVariants.{NotImplemented};
ghost use Rattle.fe2o3_sasl_core.specs.SaslProfile.{message_profile};
ghost use Rattle.fe2o3_sasl_core.specs.private.Writing.{AnswersAlways, RefusesAlways};

use crate::OutOfMemory;
use crate::sasl_profile::error::ProfileError;
use fe2o3_sasl_wire::{Binary, SaslResponse};
use std::alloc::{AllocError, Global};

/// The message that a client of ANONYMOUS or EXTERNAL sends as its initial response. If the server asks for it by an
/// empty challenge nevertheless, the client sends it again, once for each init (RFC 4422, section 5).
#[derive(Debug, Drop)]
pub struct SingleMessage {
    message: String,
    is_due: bool,
}

impl SingleMessage {
    /// Returns this message, before its init.
    pub(super) fn new(message: String) -> SingleMessage
        ensures message { string_bytes result.message ≡ string_bytes message }
        ensures due { result.is_due ≡ false }
    {
        SingleMessage {
            message,
            is_due: false,
        }
    }

    /// Returns whether an empty challenge is answered by the message.
    pub(super) fn is_due(&self) -> bool
        ensures { result ≡ self.now.is_due }
    {
        self.is_due
    }

    /// Returns the message as it is sent.
    fn sent(&self, alloc: Global) -> Result<Binary, OutOfMemory>
        ensures { IfOk result (λ sent. binary_bytes sent ≡ string_bytes self.now.message) }
    {
        Ok(Binary(Vec::from_slice(alloc, self.message.as_bytes())?))
    }

    /// Returns the initial response, after which an empty challenge is answered.
    pub(super) fn start(&mut self, alloc: Global) -> Result<Binary, OutOfMemory>
        ensures ok { IfOk result (λ response. binary_bytes response ≡ string_bytes self.old.message) }
        ensures started { OnOk result ((self.new.message ≡ self.old.message) × (self.new.is_due ≡ true)) }
        ensures err { OnErr result (self.new ≡ self.old) }
    {
        let response = self.sent(alloc)?;
        self.is_due = true;
        Ok(response)
    }

    /// Returns whether a challenge asks for the message: it is empty, and expected.
    fn is_asked_by(&self, challenge: &[u8]) -> bool
        ensures { (mechanism : MessageMechanism) → MatchBool result
            (StepAllocates (message_profile mechanism self.now) (Challenge challenge.now))
            (RefusesAlways (message_profile mechanism self.now) (Challenge challenge.now) NotImplemented) }
    {
        self.is_due && challenge.is_empty()
    }

    /// Returns why a challenge is rejected before anything is allocated: it is not empty, or no empty one is expected.
    pub(super) fn refusal_unread(&self, challenge: &[u8]) -> Option<ProfileError>
        ensures { (mechanism : MessageMechanism) → MatchOption result
            (StepAllocates (message_profile mechanism self.now) (Challenge challenge.now))
            (λ fault. RefusesAlways (message_profile mechanism self.now) (Challenge challenge.now) fault) }
    {
        if self.is_asked_by(challenge) {
            None
        } else {
            Some(ProfileError::NotImplemented)
        }
    }

    /// Returns the response to an empty challenge, after which no other is answered.
    pub(super) fn respond(
        &mut self,
        alloc: Global,
        challenge: &[u8],
    ) -> Result<SaslResponse, ProfileError>
        ensures answer { (mechanism : MessageMechanism) → AnswersAlways (message_profile mechanism self.old)
            (Challenge challenge.now) (answered response_frame result) (message_profile mechanism self.new) }
        ensures err { OnErr result (self.new ≡ self.old) }
    {
        if !self.is_asked_by(challenge) {
            return Err(ProfileError::NotImplemented);
        }
        let response = self.sent(alloc)?;
        self.is_due = false;
        Ok(SaslResponse { response })
    }
}

impl Clone for SingleMessage {
    ghost is_clone = { λ single copy.
        (string_bytes copy.message ≡ string_bytes single.message) × (copy.is_due ≡ single.is_due) };

    fn clone(&self) -> Result<Self, AllocError> {
        Ok(SingleMessage {
            message: self.message.clone()?,
            is_due: self.is_due,
        })
    }
}
