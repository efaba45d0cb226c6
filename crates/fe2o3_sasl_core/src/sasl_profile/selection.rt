//! Selects the profile of a mechanism that a client accepts of a server's offer (AMQP 1.0, part 5, section 5.3.3.2).

ghost use Rattle.std.specs.Prelude.{◌≡◌, ◌≢◌, IfOk, IfErr, option_map};
ghost use Rattle.std.specs.List.{AllByRecursion};
ghost use Rattle.fe2o3_scram.specs.ClientSecret.{secret_of};
ghost use Rattle.fe2o3_sasl_core.specs.ClientPolicy.{by_strength, secret_for, scram_by, plain_by, profile_by, CanTake, SelectsProfile};
ghost use Rattle.fe2o3_sasl_core.specs.SaslProfile.{profile_of};
ghost use Rattle.fe2o3_sasl_core.specs.declared.sasl_profile.selection.ChoiceError.TheVariants.{OutOfMemory as OutOfMemoryError};

use super::SaslProfile;
use crate::OutOfMemory;
use crate::client_policy::{BY_STRENGTH, ClientPolicy, first_taken, scram_options, secret_for};
use crate::mechanism::Mechanism;
use crate::offer::Offer;
use fe2o3_scram::ClientOptions;
use fe2o3_scram::client_secret::{ClientSecret, ClientSecretError};
use fe2o3_scram::hmac::ScramVersion;
use fe2o3_scram::scram_client::ScramClient;
use std::alloc::{AllocError, AllocFailed, Global};
use thiserror::Error;

/// Why a client selects no mechanism.
#[derive(Clone, Copy, Debug, PartialEq, Eq, Error)]
pub enum ChoiceError {
    /// The offer has no mechanism that the policy allows and the secret serves for.
    #[error("No offered mechanism can be used")]
    NoAcceptableMechanism,

    /// An allocation failed.
    #[error("Out of memory")]
    OutOfMemory,
}

impl From<AllocError> for ChoiceError {
    ghost from_gives = { λ _ error. error ≡ OutOfMemoryError };

    fn from(_error: AllocError) -> Self {
        ChoiceError::OutOfMemory
    }
}

impl<T: Drop> From<AllocFailed<T>> for ChoiceError {
    ghost from_gives = { λ _ error. error ≡ OutOfMemoryError };

    fn from(_error: AllocFailed<T>) -> Self {
        ChoiceError::OutOfMemory
    }
}

/// Returns the user's profile for SCRAM of this version with these options, if the secret serves for it.
fn scram_profile(
    alloc: Global,
    username: &str,
    secret: &ClientSecret<'_>,
    version: ScramVersion,
    options: ClientOptions,
) -> Result<Option<SaslProfile>, OutOfMemory>
    ensures { IfOk result (λ profile. option_map profile_of profile
        ≡ scram_by options username.now version (secret_for version (secret_of secret.now))) }
{
    let Some(secret) = secret_for(secret, version) else {
        return Ok(None);
    };
    let username = String::from_str(alloc, username)?;
    match ScramClient::with_secret(alloc, username, secret, version) {
        Ok(client) => Ok(Some(SaslProfile::scram_of(client.with_options(options)))),
        Err(ClientSecretError::OutOfMemory) => Err(OutOfMemory),
        Err(ClientSecretError::VersionMismatch) => unreachable!(),
    }
}

/// Returns the user's profile for PLAIN, if the secret has a password.
fn plain_profile(
    alloc: Global,
    username: &str,
    secret: &ClientSecret<'_>,
) -> Result<Option<SaslProfile>, OutOfMemory>
    ensures { IfOk result (λ profile. option_map profile_of profile ≡ plain_by username.now (secret_of secret.now)) }
{
    let password = match secret {
        ClientSecret::Password(password) | ClientSecret::PasswordAndKeys { password, .. } => {
            password.as_str()
        }
        ClientSecret::Keys(_) => return Ok(None),
    };
    Ok(Some(SaslProfile::plain(
        String::from_str(alloc, username)?,
        String::from_str(alloc, password)?,
    )))
}

/// Returns the user's profile for the mechanism, if the secret serves for it.
fn profile_by_mechanism(
    alloc: Global,
    username: &str,
    secret: &ClientSecret<'_>,
    policy: ClientPolicy,
    mechanism: Mechanism,
) -> Result<Option<SaslProfile>, OutOfMemory>
    ensures { IfOk result (λ profile. option_map profile_of profile
        ≡ profile_by policy username.now (secret_of secret.now) mechanism) }
{
    match mechanism {
        Mechanism::Scram(version, plus) => {
            let options = scram_options(policy, plus);
            scram_profile(alloc, username, secret, version, options)
        }
        Mechanism::External => Ok(Some(SaslProfile::External)),
        Mechanism::Plain => plain_profile(alloc, username, secret),
        Mechanism::Anonymous => Ok(Some(SaslProfile::Anonymous)),
    }
}

/// Returns the profile for the strongest mechanism that is offered, that the policy allows and for which the secret
/// serves. The order is SCRAM-SHA-512-PLUS, SCRAM-SHA-256-PLUS, SCRAM-SHA-1-PLUS, these three without `-PLUS`,
/// EXTERNAL, PLAIN, ANONYMOUS. Keys serve for SCRAM of their own version; of a password with keys, other versions and
/// PLAIN use the password. The profile has sent nothing. `laws::selected_channels` says what it does with a channel.
///
/// Errors: `NoAcceptableMechanism` if there is no such mechanism, and otherwise `OutOfMemory`.
pub fn select_mechanism<O: Offer>(
    alloc: Global,
    offer: &O,
    username: &str,
    secret: &ClientSecret<'_>,
    policy: ClientPolicy,
) -> Result<SaslProfile, ChoiceError>
    ensures ok { IfOk result (λ profile.
        SelectsProfile policy username.now (secret_of secret.now) (O.names offer.now) (profile_of profile)) }
    ensures err { IfErr result (λ error. error ≢ ChoiceError.OutOfMemory
        → AllByRecursion (λ other. ¬ CanTake policy username.now (secret_of secret.now) (O.names offer.now) other) by_strength) }
    ensures memory { (result ≡ Err ChoiceError.OutOfMemory)
        → ¬ AllByRecursion (λ other. ¬ CanTake policy username.now (secret_of secret.now) (O.names offer.now) other) by_strength }
{
    let Some(mechanism) = first_taken(&BY_STRENGTH, offer, secret, policy) else {
        return Err(ChoiceError::NoAcceptableMechanism);
    };
    match profile_by_mechanism(alloc, username, secret, policy, mechanism)? {
        Some(profile) => Ok(profile),
        None => unreachable!(),
    }
}
