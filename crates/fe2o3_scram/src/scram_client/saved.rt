//! What a client is in, for those who save it between two messages, and a client that is restored.

ghost use Rattle.std.specs.Prelude.{◌≡◌, ◌≢◌, ℕ, List, Option, Some, MatchOption};
ghost use Rattle.fe2o3_scram.specs.Texts.{base64_text};
ghost use Rattle.fe2o3_scram.specs.ClientKeys.{ClientKeys};
ghost use Rattle.fe2o3_scram.specs.ScramClient.{ClientFirstSent, ClientFinalSent, SignatureVerified, answer_keys, is_complete, is_signature_verified, with_state};

use crate::keys::CachedKeys;
use crate::scram_client::{ScramClient, ScramClientState};

impl ScramClient {
    /// Returns whether the exchange has ended with a verified server.
    pub fn is_complete(&self) -> bool
        ensures { result ≡ is_complete self.now.state }
    {
        match &self.state {
            ScramClientState::Complete => true,
            _ => false,
        }
    }

    /// Returns the nonce of the client-first message, if the client has sent that last. Restore a client that is saved
    /// here by `compute_client_first_message` with this nonce.
    pub fn nonce(&self) -> Option<&[u8; 32]>
        ensures { MatchOption result ((nonce bare : List ℕ) → self.now.state ≢ ClientFirstSent nonce bare)
            (λ nonce. (bare : List ℕ) × (self.now.state ≡ ClientFirstSent (base64_text nonce.now) bare)) }
    {
        match &self.state {
            ScramClientState::ClientFirstSent { nonce, .. } => Some(nonce),
            _ => None,
        }
    }

    /// Returns the signature that the client waits for, if it has sent its client-final message last. Restore a client
    /// that is saved here by `restore_client_final_sent`.
    pub fn server_signature(&self) -> Option<&[u8]>
        ensures { MatchOption result
            ((signature : List ℕ) (keys : Option ClientKeys) → self.now.state ≢ ClientFinalSent signature keys)
            (λ signature. (keys : Option ClientKeys) × (self.now.state ≡ ClientFinalSent signature.now keys)) }
    {
        match &self.state {
            ScramClientState::ClientFinalSent {
                server_signature,
                ..
            } => Some(server_signature),
            _ => None,
        }
    }

    /// Returns whether the server was verified by a challenge, and the client waits for an outcome without data. Restore
    /// a client that is saved here by `restore_signature_verified`.
    pub fn is_signature_verified(&self) -> bool
        ensures { result ≡ is_signature_verified self.now.state }
    {
        match &self.state {
            ScramClientState::SignatureVerified => true,
            _ => false,
        }
    }

    /// Returns the keys of the answer, while the client waits for a signature or for the outcome after it. Use them only
    /// to save the client: until the server is verified anybody may have named their salt, so do not keep them for
    /// another login.
    pub fn answer_keys(&self) -> Option<&CachedKeys>
        ensures { MatchOption result (answer_keys self.now.state ≡ None)
            (λ keys. answer_keys self.now.state ≡ Some keys.now) }
    {
        match &self.state {
            ScramClientState::ClientFinalSent { .. } => self.keys.as_ref(),
            ScramClientState::SignatureVerified => self.keys.as_ref(),
            _ => None,
        }
    }

    /// Returns this client in the state after its client-final message, in which it waits for this
    /// signature. With the keys of that answer it returns them by `keys` once the server is verified.
    pub fn restore_client_final_sent(
        mut self,
        server_signature: Vec<u8>,
        keys: Option<CachedKeys>,
    ) -> Self
        ensures { result ≡ with_state self (ClientFinalSent server_signature.items keys) }
    {
        self.state = ScramClientState::ClientFinalSent { server_signature };
        self.keys = keys;
        self
    }

    /// Returns this client in the state after a challenge with the server's signature, in which it waits for an outcome
    /// without data. With the keys of its answer it returns them by `keys` after that outcome.
    pub fn restore_signature_verified(mut self, keys: Option<CachedKeys>) -> Self
        ensures { result ≡ with_state self (SignatureVerified keys) }
    {
        self.state = ScramClientState::SignatureVerified;
        self.keys = keys;
        self
    }
}
