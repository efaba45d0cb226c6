//! Profiles that ask to act for another identity than their user (RFC 4422, section 2).

ghost use Rattle.std.specs.Prelude.{◌≡◌, MatchOption, Some, option_map, string_bytes};
ghost use Rattle.fe2o3_scram.specs.ScramClient.{acting_for};
ghost use Rattle.fe2o3_sasl_core.specs.ActingProfiles.{CanActFor, acting_profile};
ghost use Rattle.fe2o3_sasl_core.specs.PlainWords.{ArePlainWords};
ghost use Rattle.fe2o3_sasl_core.specs.Profiles.{PlainProfile, ScramProfile};
ghost use Rattle.fe2o3_sasl_core.specs.SaslProfile.{profile_of};

use super::SaslProfile;
use crate::plain_server::{is_plain_word, lacks_zero};
use fe2o3_scram::scram_client::ScramClient;
use fe2o3_scram::secrets::SecretText;

impl SaslProfile {
    /// Returns this profile, but it asks to act for this identity (RFC 4422, section 2), or for its user if the identity is
    /// empty. Call it before the profile has sent anything. The server has to accept that the user acts for the identity.
    ///
    /// - SCRAM names it in the GS2 header, like [`ScramClient::acting_for`](fe2o3_scram::scram_client::ScramClient::acting_for).
    /// - PLAIN names it in the first part of its message (RFC 4616, section 2).
    /// - EXTERNAL sends it as its initial response, like [`SaslProfile::external_as`].
    /// - A client by a policy names it by the profile that it selects.
    ///
    /// Returns `None`
    /// - for ANONYMOUS, which names no identity;
    /// - if the identity has a zero byte (RFC 4422, section 3.4.1);
    /// - for PLAIN if the user name or the password is empty or has a zero byte, as no message may have it.
    pub fn acting_for(self, identity: String) -> Option<SaslProfile>
        ensures { MatchOption result (¬ CanActFor (profile_of self) (string_bytes identity))
            (λ profile. CanActFor (profile_of self) (string_bytes identity)
            × (profile_of profile ≡ acting_profile (profile_of self) (string_bytes identity))) }
    {
        if !lacks_zero(&identity) {
            return None;
        }
        match self {
            SaslProfile::Anonymous => None,
            SaslProfile::AnonymousAs(_) => None,
            SaslProfile::Plain { username, password } => plain_as(identity, username, password),
            SaslProfile::PlainAs {
                username,
                password,
                ..
            } => plain_as(identity, username, password),
            SaslProfile::External => Some(SaslProfile::external_as(identity)),
            SaslProfile::ExternalAs(_) => Some(SaslProfile::external_as(identity)),
            SaslProfile::ScramSha1(scram) => scram_as(identity, scram.client),
            SaslProfile::ScramSha256(scram) => scram_as(identity, scram.client),
            SaslProfile::ScramSha512(scram) => scram_as(identity, scram.client),
            SaslProfile::ByPolicy(login) => {
                let mut login = login;
                login.act_for(identity);
                Some(SaslProfile::ByPolicy(login))
            }
        }
    }
}

/// Returns the profile of a SCRAM client that names this identity.
fn scram_as(identity: String, client: ScramClient) -> Option<SaslProfile>
    ensures { option_map profile_of result ≡ Some (ScramProfile (acting_for client (Some (string_bytes identity)))) }
{
    Some(SaslProfile::scram_of(client.acting_for(Some(identity))))
}

/// Returns the profile of PLAIN that names this identity, or `None` if no message may have the other words.
fn plain_as(identity: String, username: String, password: SecretText) -> Option<SaslProfile>
    ensures { MatchOption result (¬ ArePlainWords (string_bytes username) password)
        (λ profile. ArePlainWords (string_bytes username) password
        × (profile_of profile ≡ PlainProfile (string_bytes identity) (string_bytes username) password)) }
{
    if is_plain_word(&username) && is_plain_word(password.as_str()) {
        Some(SaslProfile::PlainAs {
            identity,
            username,
            password,
        })
    } else {
        None
    }
}
