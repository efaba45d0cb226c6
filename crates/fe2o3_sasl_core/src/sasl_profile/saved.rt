//! Reads the state of a profile, to save a client in the middle of a login, and restores it.

ghost use Rattle.std.specs.Prelude.{◌≡◌, ◌≢◌, Option, Some, None, false, ℕ, List, MatchOption};
ghost use Rattle.fe2o3_scram.specs.ClientKeys.{ClientKeys};
ghost use Rattle.fe2o3_scram.specs.ScramClient.{ClientInitial, ClientFirstSent, ClientFinalSent, SignatureVerified, answer_keys, login_keys, with_state};
ghost use Rattle.fe2o3_scram.specs.Texts.{base64_text};
ghost use Rattle.fe2o3_sasl_core.specs.Profiles.{ScramProfile, accepts_signature_by_challenge, answers_empty_challenge, is_scram, profile_state, in_state};
ghost use Rattle.fe2o3_sasl_core.specs.SaslProfile.{profile_of, variant_version};

use super::SaslProfile;
use fe2o3_scram::cached_keys::CachedKeys;
use fe2o3_scram::scram_client::ScramClient;

impl SaslProfile {
    /// Returns the client of a SCRAM profile, and `None` of another profile. The variant of the profile names the
    /// version of that client.
    pub fn scram_client(&self) -> Option<&ScramClient>
        ensures state { MatchOption result (profile_state (profile_of self.now) ≡ ClientInitial)
            (λ client. profile_state (profile_of self.now) ≡ client.now.state) }
        ensures side { MatchOption result (is_scram (profile_of self.now) ≡ false)
            (λ client. profile_of self.now ≡ ScramProfile client.now) }
        ensures version { MatchOption result (variant_version self.now ≡ None)
            (λ client. variant_version self.now ≡ Some client.now.version) }
    {
        match self {
            SaslProfile::Anonymous | SaslProfile::External => None,
            SaslProfile::Plain { .. } | SaslProfile::PlainAs { .. } => None,
            SaslProfile::AnonymousAs(_) | SaslProfile::ExternalAs(_) => None,
            SaslProfile::ByPolicy(_) => None,
            SaslProfile::ScramSha1(scram) => Some(&scram.client),
            SaslProfile::ScramSha256(scram) => Some(&scram.client),
            SaslProfile::ScramSha512(scram) => Some(&scram.client),
        }
    }

    /// Returns the keys of the SCRAM login, once it has ended with a verified server, and `None` before that and for
    /// another profile. The next login by them takes two HMAC values, as long as the server keeps its salt and
    /// iteration count (RFC 5802, section 3).
    pub fn keys(&self) -> Option<&CachedKeys>
        ensures { MatchOption result (login_keys (profile_state (profile_of self.now)) ≡ None)
            (λ keys. login_keys (profile_state (profile_of self.now)) ≡ Some keys.now) }
    {
        self.scram_client()?.keys()
    }

    /// Returns the nonce of SCRAM's client-first message, if the client has sent that last. Restore a client that is
    /// saved here by `initial_response` with this nonce.
    pub fn nonce(&self) -> Option<&[u8; 32]>
        ensures { MatchOption result
            ((nonce bare : List ℕ) → profile_state (profile_of self.now) ≢ ClientFirstSent nonce bare)
            (λ nonce. (bare : List ℕ)
            × (profile_state (profile_of self.now) ≡ ClientFirstSent (base64_text nonce.now) bare)) }
    {
        self.scram_client()?.nonce()
    }

    /// Returns the signature that a SCRAM client waits for, if it has sent its client-final message last. Restore a
    /// client that is saved here by `restore_client_final_sent`.
    pub fn server_signature(&self) -> Option<&[u8]>
        ensures { MatchOption result ((signature : List ℕ) (keys : Option ClientKeys)
            → profile_state (profile_of self.now) ≢ ClientFinalSent signature keys)
            (λ signature. (keys : Option ClientKeys)
            × (profile_state (profile_of self.now) ≡ ClientFinalSent signature.now keys)) }
    {
        self.scram_client()?.server_signature()
    }

    /// Returns the keys of the answer of a SCRAM client, while it waits for a signature or for the outcome after it. Use
    /// them only to save the client: until the server is verified anybody may have named their salt, so do not keep
    /// them for another login.
    pub fn answer_keys(&self) -> Option<&CachedKeys>
        ensures { MatchOption result (answer_keys (profile_state (profile_of self.now)) ≡ None)
            (λ keys. answer_keys (profile_state (profile_of self.now)) ≡ Some keys.now) }
    {
        self.scram_client()?.answer_keys()
    }

    /// Returns this profile in the state after SCRAM's client-final message, in which it waits for this signature. With
    /// the keys of that answer it returns them by `keys` once the server is verified. A profile of another mechanism is
    /// returned unchanged.
    pub fn restore_client_final_sent(
        self,
        server_signature: Vec<u8>,
        keys: Option<CachedKeys>,
    ) -> Self
        ensures { profile_of result ≡ in_state (profile_of self) (ClientFinalSent server_signature.items keys) }
    {
        match self {
            SaslProfile::ScramSha1(scram) => final_sent(scram.client, server_signature, keys),
            SaslProfile::ScramSha256(scram) => final_sent(scram.client, server_signature, keys),
            SaslProfile::ScramSha512(scram) => final_sent(scram.client, server_signature, keys),
            profile => profile,
        }
    }

    /// Returns this profile in the state after a challenge with the server's signature, in which it waits for an outcome
    /// without data. With the keys of its answer it returns them by `keys` after that outcome. A profile of another
    /// mechanism is returned unchanged.
    pub fn restore_signature_verified(self, keys: Option<CachedKeys>) -> Self
        ensures { profile_of result ≡ in_state (profile_of self) (SignatureVerified keys) }
    {
        match self {
            SaslProfile::ScramSha1(scram) => {
                SaslProfile::scram_of(scram.client.restore_signature_verified(keys))
            }
            SaslProfile::ScramSha256(scram) => {
                SaslProfile::scram_of(scram.client.restore_signature_verified(keys))
            }
            SaslProfile::ScramSha512(scram) => {
                SaslProfile::scram_of(scram.client.restore_signature_verified(keys))
            }
            profile => profile,
        }
    }

    /// Returns whether the server's signature is accepted in a challenge too, by the option
    /// `ClientOptions::signature_by_challenge` of a SCRAM profile.
    pub fn accepts_signature_by_challenge(&self) -> bool
        ensures { result ≡ accepts_signature_by_challenge (profile_of self.now) }
    {
        match self.scram_client() {
            Some(client) => client.accepts_signature_by_challenge(),
            None => false,
        }
    }

    /// Returns whether an empty challenge is answered: the profile has sent its message with its init, and no response
    /// since. Restore such a profile by `initial_response`.
    pub fn answers_empty_challenge(&self) -> bool
        ensures { result ≡ answers_empty_challenge (profile_of self.now) }
    {
        match self {
            SaslProfile::AnonymousAs(single) => single.is_due(),
            SaslProfile::ExternalAs(single) => single.is_due(),
            _ => false,
        }
    }
}

/// Returns the profile of a client in the state after its client-final message.
fn final_sent(
    client: ScramClient,
    server_signature: Vec<u8>,
    keys: Option<CachedKeys>,
) -> SaslProfile
    ensures { profile_of result ≡ ScramProfile (with_state client (ClientFinalSent server_signature.items keys)) }
{
    SaslProfile::scram_of(client.restore_client_final_sent(server_signature, keys))
}
