//! The struct of a SCRAM client, and the client that it is.

ghost use Rattle.std.specs.Prelude.{◌≡◌, ◌≢◌, ◌<◌, ◌≤◌, length, IfOk, IfErr, IfSome, MatchOption, Option, Some, List, ℕ, option_map, take};
ghost use Rattle.fe2o3_scram.specs.ScramClient.{ClientFinalSent, ClientInitial};
ghost use Rattle.fe2o3_scram.specs.ClientKeys.{ClientKeys as Keys};
ghost use Rattle.sasl_c.specs.Client.{AwaitsSignature, Holds, HoldsNone, IsTestedLogin, IsNoLogin, IsReached, IsSide, IsState, WritesClient, complete_struct, fresh_client_struct, started_struct};
ghost use Rattle.sasl_c.specs.Keys.{WritesKeys, no_keys_struct};
ghost use Rattle.sasl_c.specs.Status.{AsksWhere};
ghost use Rattle.sasl_c.specs.declared.status.Status.TheVariants.{OutOfMemory as StatusOutOfMemory};

use crate::arrays::{fill, head, padded};
use crate::keys::ScramKeys;
use crate::login::{Login, shown};
use crate::status::Status;
use fe2o3_scram::{CachedKeys, ClientAnswer, ScramClient as Machine};
use std::alloc::Global;

/// The state of a SCRAM client between calls. All zeros is a client that has sent nothing.
///
/// A call that succeeds writes zeros to every field that its new state does not use, and after every length. The
/// struct never holds a password, and it holds keys only in `keys`.
#[repr(C)]
#[derive(Drop)]
pub struct ScramClient {
    /// How far the exchange is: one of enum fe2o3_scram_client_state.
    pub state: u32,

    /// The number of bytes of `signature` in use.
    pub signature_len: u32,

    /// The nonce of the client-first message.
    pub nonce: [u8; 32],

    /// The ServerSignature that the client expects.
    pub signature: [u8; 64],

    /// The keys with which the client-final message was computed.
    pub keys: ScramKeys,
}

/// Returns the struct of no keys.
fn no_keys() -> ScramKeys
    ensures none { HoldsNone result }
    ensures writes { result ≡ no_keys_struct }
{
    ScramKeys {
        version: 0,
        iterations: 0,
        salt_len: 0,
        salt: [0; 128],
        client_key: [0; 64],
        server_key: [0; 64],
    }
}

/// Returns the struct of a client's keys, or of no keys if it has none or they do not fit.
fn held(keys: Option<&CachedKeys>) -> ScramKeys
    ensures holds { Holds result (option_map (λ held. held.now) keys.entry) }
    ensures writes { WritesKeys result (option_map (λ held. held.now) keys.entry) }
{
    match keys {
        Some(keys) => match ScramKeys::of(keys) {
            Some(held) => held,
            None => no_keys(),
        },
        None => no_keys(),
    }
}

impl ScramClient {
    /// Returns the struct of a client that has sent nothing.
    pub fn fresh() -> ScramClient
        ensures state { (user : List ℕ) → IsState user result ClientInitial }
        ensures writes { result ≡ fresh_client_struct }
    {
        ScramClient {
            state: 0,
            signature_len: 0,
            nonce: [0; 32],
            signature: [0; 64],
            keys: no_keys(),
        }
    }

    /// Returns the struct of a client that has sent its client-first message, with this nonce.
    pub fn started(nonce: &[u8; 32]) -> ScramClient
        ensures sent { result.state ≡ 1 }
        ensures nonce { result.nonce ≡ nonce.now }
        ensures writes { result ≡ started_struct nonce.now }
    {
        ScramClient {
            state: 1,
            signature_len: 0,
            nonce: *nonce,
            signature: [0; 64],
            keys: no_keys(),
        }
    }

    /// Returns the struct of a client, or `None` if the signature that it expects does not fit.
    #[tactic(auto, using(crate::proofs::StateLemmas::of_state))]
    pub fn of(machine: &Machine) -> Option<ScramClient>
        ensures state { (user : List ℕ) → IsReached user machine.now.state
            → MatchOption result ⊥ (λ client. IsState user client machine.now.state) }
        ensures writes { IfSome result (λ client. WritesClient client machine.now.state) }
    {
        if let Some(nonce) = machine.nonce() {
            return Some(ScramClient::started(nonce));
        }
        if machine.is_complete() {
            return Some(ScramClient {
                state: 3,
                signature_len: 0,
                nonce: [0; 32],
                signature: [0; 64],
                keys: held(machine.keys()),
            });
        }
        if machine.is_signature_verified() {
            return Some(ScramClient {
                state: 4,
                signature_len: 0,
                nonce: [0; 32],
                signature: [0; 64],
                keys: held(machine.answer_keys()),
            });
        }
        match machine.server_signature() {
            Some(_) => ScramClient::waiting(machine),
            None => Some(ScramClient::fresh()),
        }
    }

    /// Returns the struct of a client that expects this signature, with the keys of its answer if they fit, or `None`
    /// if the signature does not fit.
    fn waiting_for(signature: &[u8], keys: Option<&CachedKeys>) -> Option<ScramClient>
        ensures state { MatchOption result (64 < length signature.now) (λ client. (user : List ℕ)
            → IsState user client (ClientFinalSent signature.now (option_map (λ held. held.now) keys.entry))) }
        ensures writes { IfSome result (λ client.
            WritesClient client (ClientFinalSent signature.now (option_map (λ held. held.now) keys.entry))) }
    {
        Some(ScramClient {
            state: 2,
            signature: padded(signature)?,
            signature_len: signature.len() as u32,
            nonce: [0; 32],
            keys: held(keys),
        })
    }

    /// Turns the struct into that of a client that has sent this answer.
    pub fn wait(&mut self, answer: &ClientAnswer)
        requires { length answer.now.signature.items ≤ 64 }
        ensures state { (user : List ℕ)
            → IsState user self.new (ClientFinalSent answer.now.signature.items (Some answer.now.keys)) }
        ensures writes { WritesClient self.new (ClientFinalSent answer.now.signature.items (Some answer.now.keys)) }
    {
        self.state = 2;
        self.signature_len = answer.signature.len() as u32;
        self.nonce.fill(0);
        fill(&mut self.signature, &answer.signature);
        self.keys.hold(&answer.keys);
    }

    /// Returns the struct of a client that has sent its client-final message, or `None` if it has not, or if the
    /// signature that it expects does not fit.
    fn waiting(machine: &Machine) -> Option<ScramClient>
        ensures state { MatchOption result
            ((signature : List ℕ) (keys : Option Keys) → machine.now.state ≡ ClientFinalSent signature keys
            → 64 < length signature) (λ client. (user : List ℕ) → IsState user client machine.now.state) }
        ensures writes { IfSome result (λ client. WritesClient client machine.now.state) }
    {
        ScramClient::waiting_for(machine.server_signature()?, machine.answer_keys())
    }

    /// Returns the signature that the struct expects, or `None` if it expects none.
    pub fn awaited(&self) -> Option<&[u8]>
        ensures { MatchOption result (¬ AwaitsSignature self.now) (λ signature. AwaitsSignature self.now
            × (signature.now ≡ take self.now.signature_len self.now.signature)) }
    {
        if self.state != 2 {
            return None;
        }
        head(&self.signature, self.signature_len)
    }

    /// Turns the struct into that of a client whose login is complete, which keeps only the keys of the exchange.
    pub fn complete(&mut self)
        ensures { self.new ≡ complete_struct self.old.keys }
    {
        self.state = 3;
        self.signature_len = 0;
        self.nonce = [0; 32];
        self.signature = [0; 64];
    }

    /// Restores the client of this login from the struct.
    pub fn read(&self, alloc: Global, login: &Login<'_>) -> Result<Machine, Status>
        ensures ok { IfOk result (λ side. IsSide login.now self.now side) }
        ensures err { IfErr result (λ status. status ≢ StatusOutOfMemory → IsNoLogin login.now status) }
        ensures memory { AsksWhere (IsTestedLogin login.now) result }
    {
        match self.state {
            1 => self.after_first(alloc, login),
            2 => self.after_final(alloc, login),
            4 => self.after_signature(alloc, login),
            _ => login.client(alloc),
        }
    }

    /// Restores a client that has sent its client-first message.
    fn after_first(&self, alloc: Global, login: &Login<'_>) -> Result<Machine, Status>
        ensures ok { IfOk result (λ side. self.now.state ≡ 1 → IsSide login.now self.now side) }
        ensures err { IfErr result (λ status. status ≢ StatusOutOfMemory → IsNoLogin login.now status) }
        ensures memory { AsksWhere (IsTestedLogin login.now) result }
    {
        let mut machine = match login.client(alloc) {
            Ok(machine) => machine,
            Err(status) => return Err(status),
        };
        match machine.compute_client_first_message(alloc, &self.nonce) {
            Ok(_) => Ok(machine),
            Err(_) => {
                drop(machine);
                Err(Status::OutOfMemory)
            }
        }
    }

    /// Restores a client that expects a signature; if its length is none, a client that has sent nothing.
    fn after_final(&self, alloc: Global, login: &Login<'_>) -> Result<Machine, Status>
        ensures ok { IfOk result (λ side. self.now.state ≡ 2 → IsSide login.now self.now side) }
        ensures err { IfErr result (λ status. status ≢ StatusOutOfMemory → IsNoLogin login.now status) }
        ensures memory { AsksWhere (IsTestedLogin login.now) result }
    {
        let Some(signature) = head(&self.signature, self.signature_len) else {
            return login.client(alloc);
        };
        // The login is tested before memory is requested.
        if let Err(status) = login.tested() {
            return Err(status);
        }
        let signature = signature.to_vec(alloc)?;
        let keys = shown(alloc, &self.keys)?;
        match login.client(alloc) {
            Ok(machine) => Ok(machine.restore_client_final_sent(signature, keys)),
            Err(status) => Err(status),
        }
    }

    /// Restores a client whose server was verified by a challenge, and which waits for an outcome without data.
    fn after_signature(&self, alloc: Global, login: &Login<'_>) -> Result<Machine, Status>
        ensures ok { IfOk result (λ side. self.now.state ≡ 4 → IsSide login.now self.now side) }
        ensures err { IfErr result (λ status. status ≢ StatusOutOfMemory → IsNoLogin login.now status) }
        ensures memory { AsksWhere (IsTestedLogin login.now) result }
    {
        // The login is tested before memory is requested.
        if let Err(status) = login.tested() {
            return Err(status);
        }
        let keys = shown(alloc, &self.keys)?;
        match login.client(alloc) {
            Ok(machine) => Ok(machine.restore_signature_verified(keys)),
            Err(status) => Err(status),
        }
    }
}
