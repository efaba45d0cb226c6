//! The SCRAM client as a state machine over messages (RFC 5802, section 5).

ghost use Rattle.std.specs.Prelude.{◌≡◌, ◌≤◌, ◌^◌, ◌↔◌, Option, Some, IfOk, OnOk, OnErr, MatchOption, option_map};
ghost use Rattle.std.specs.String.{string_bytes};
ghost use Rattle.fe2o3_scram.specs.Texts.{base64_text};
ghost use Rattle.fe2o3_scram.specs.ChannelBinding.{header_of, is_bound, mechanism_of};
ghost use Rattle.fe2o3_scram.specs.ClientFirst.{client_first_with};
ghost use Rattle.fe2o3_scram.specs.ClientKeys.{ClientKeys};
ghost use Rattle.fe2o3_scram.specs.ClientSecret.{Password as ByPassword, IsOfVersion, kept_secret, secret_of};
ghost use Rattle.fe2o3_scram.specs.Passwords.{Typed};
ghost use Rattle.fe2o3_scram.specs.ScramClient.{ClientFirstSent, ClientFinalSent, SignatureVerified, AnswersIn, AnswerCostsIn, ChecksSignatureIn, ConcludesIn, VerifiesIn, ReachesSaltIn, ReachesVerifierIn, expects_signature, fresh_client, acting_for, header_in, identity_named, started, client_state_of, login_keys, with_maximum, with_options};
ghost use Rattle.fe2o3_scram.specs.Readings.{Gives};

mod saved;

use crate::OutOfMemory;
use crate::client_options::ClientOptions;
use crate::client_secret::{ClientSecret, ClientSecretError, OwnedPassword, OwnedSecret};
use crate::hmac::{Meter, ScramVersion};
use crate::keys::CachedKeys;
use crate::scram_messages::error::ScramErrorKind;
use crate::scram_messages::{ClientChannel, ClientHeader};
use crate::secrets::SecretText;
use crate::texts::base64_of_nonce;
use bytes::Bytes;
use std::alloc::{AllocError, Global};
use std::fmt;
use std::marker::Model;

/// What a client has sent last, and what it waits for.
#[derive(Drop)]
enum ScramClientState {
    Initial,
    ClientFirstSent {
        /// The nonce as bytes: its text is written again for the answer, without an allocation.
        nonce: [u8; 32],
        client_first_message_bare: Vec<u8>,
    },
    ClientFinalSent {
        server_signature: Vec<u8>,
    },
    SignatureVerified,
    Complete,
}

impl ScramClientState {
    /// Copies the state.
    fn copy(&self) -> Result<ScramClientState, OutOfMemory>
        ensures { IfOk result (λ copy. (keys : Option ClientKeys) → client_state_of copy keys ≡ client_state_of self.now keys) }
    {
        Ok(match self {
            ScramClientState::Initial => ScramClientState::Initial,
            ScramClientState::ClientFirstSent {
                nonce,
                client_first_message_bare,
            } => ScramClientState::ClientFirstSent {
                nonce: *nonce,
                client_first_message_bare: client_first_message_bare.clone()?,
            },
            ScramClientState::ClientFinalSent { server_signature } => {
                ScramClientState::ClientFinalSent {
                    server_signature: server_signature.clone()?,
                }
            }
            ScramClientState::SignatureVerified => ScramClientState::SignatureVerified,
            ScramClientState::Complete => ScramClientState::Complete,
        })
    }
}

/// A client of one user. The calls come in the order `compute_client_first_message`, `compute_client_final_message`,
/// `validate_server_final`. The first restarts the exchange at any time. A call that returns an error leaves the client
/// unchanged.
#[derive(Drop)]
pub struct ScramClient {
    username: String,
    secret: OwnedSecret,
    scram: ScramVersion,
    options: ClientOptions,
    acts_for: Option<String>,
    state: ScramClientState,

    /// The keys of the client-final message that was sent last, if the client still has them.
    keys: Option<CachedKeys>,
}

impl Model for ScramClient {
    ghost use Rattle.std.specs.Prelude.{option_map};
    ghost use Rattle.std.specs.String.{string_bytes};
    ghost use Rattle.fe2o3_scram.specs.ClientSecret.{kept_secret};
    ghost use Rattle.fe2o3_scram.specs.ScramClient.{ClientSide, client_state_of};

    ghost Value = { ClientSide };

    ghost view = { λ client. record {
      user = string_bytes client.username;
      secret = kept_secret client.secret;
      version = client.scram;
      limits = client.options.limits;
      channel = client.options.channel;
      acts_for = option_map (λ name. string_bytes name) client.acts_for;
      strict = client.options.strict;
      signature_by_challenge = client.options.signature_by_challenge;
      state = client_state_of client.state client.keys;
    } };
}

impl ScramClient {
    /// Returns a client that has sent nothing, and accepts every iteration count from 1 to 4294967295. The user name is
    /// plain, and the password as the user typed it ([`Password::Typed`]): neither is prepared or tested here. A
    /// password that is not printable ASCII is rejected by `NormalizeError` when it is needed. A user name is any text,
    /// which the caller prepares like a password.
    pub fn new(username: String, password: String, scram_version: ScramVersion) -> Self
        ensures { result ≡ fresh_client (string_bytes username) scram_version
            (ByPassword (Typed (string_bytes password))) }
    {
        let secret = OwnedSecret::Password(OwnedPassword::Typed(SecretText::new(password)));
        ScramClient::by(username, secret, scram_version)
    }

    /// Returns a client that has sent nothing, accepts every iteration count from 1 to 4294967295, and proves who it is
    /// by a copy of this secret. The user name is plain. Neither it nor the password is prepared or tested here.
    ///
    /// - [`ClientSecret::Password`]: a typed password that is not printable ASCII is rejected by `NormalizeError` when
    ///   it is needed. A prepared one logs in if the record was made of that very text.
    /// - [`ClientSecret::Keys`]: the client answers if the server names the salt and the iteration count of the keys,
    ///   by two HMAC values, and rejects any other challenge by `StaleKeys`.
    /// - [`ClientSecret::PasswordAndKeys`]: the client answers by the keys if the server names their salt and iteration
    ///   count, and by the password otherwise.
    ///
    /// The errors are, in this order: `VersionMismatch` if the secret has keys of another version than this, and
    /// `OutOfMemory`.
    pub fn with_secret(
        alloc: Global,
        username: String,
        secret: ClientSecret<'_>,
        scram_version: ScramVersion,
    ) -> Result<Self, ClientSecretError>
        ensures ok { IfOk result (λ client. IsOfVersion scram_version (secret_of secret.entry)
            × (client ≡ fresh_client (string_bytes username) scram_version (secret_of secret.entry))) }
        ensures mismatch { (result ≡ Err ClientSecretError.VersionMismatch)
            ↔ ¬ IsOfVersion scram_version (secret_of secret.entry) }
    {
        if !secret.is_of_version(scram_version) {
            return Err(ClientSecretError::VersionMismatch);
        }
        let secret = OwnedSecret::of(alloc, secret)?;
        Ok(ScramClient::by(username, secret, scram_version))
    }

    /// Returns a client by this secret, which has sent nothing and accepts every count.
    fn by(username: String, secret: OwnedSecret, scram: ScramVersion) -> Self
        ensures { result ≡ fresh_client (string_bytes username) scram (kept_secret secret) }
    {
        Self {
            username,
            secret,
            scram,
            options: ClientOptions::new(),
            acts_for: None,
            state: ScramClientState::Initial,
            keys: None,
        }
    }

    /// Returns this client, but with these options. Set them before the client-first message is sent. With
    /// [`ClientChannel::Bound`] the client selects the mechanism with `-PLUS`.
    ///
    /// A strict client reads messages by the grammar of RFC 5802, section 7, after its other tests of a text:
    ///
    /// - the server's part of the nonce has to be printable and not empty (`ClientNonceMismatch`);
    /// - the iteration count has to be without a sign or leading zeros (`IterationCountParseError`);
    /// - what follows the count, or the signature, has to be an extension (`MisplacedAttribute`), also if the client
    ///   has a channel, bound or not, or sends an authorization identity.
    ///
    /// If it verifies a server's signature, both agree on the whole login, collisions of HMAC values aside
    /// (`laws::accepted_messages`), whether the server is strict or not.
    pub fn with_options(mut self, options: ClientOptions) -> Self
        ensures { result ≡ with_options self options }
    {
        self.options = options;
        self
    }

    /// Returns this client, but with a maximum iteration count, above which it rejects a challenge. The limit is for
    /// each challenge: it does not bound how many challenges are answered.
    pub fn with_iteration_limit(mut self, limit: u32) -> Self
        ensures { result ≡ with_maximum self limit }
    {
        self.options.limits.max_iterations = limit;
        self
    }

    /// Returns what the client says of its channel.
    pub fn channel(&self) -> ClientChannel
        ensures { result ≡ self.now.channel }
    {
        self.options.channel
    }

    /// Returns this client, but it acts for this identity (RFC 5802, section 5.1, `a=`), or for itself if there is none or
    /// it is empty. Set it before the client-first message is sent. The server has to accept that its user acts for the
    /// identity. A client that names one tests extensions like a strict one, so that nobody on the way can change it.
    pub fn acting_for(mut self, acts_for: Option<String>) -> Self
        ensures { result ≡ acting_for self (option_map (λ name. string_bytes name) acts_for) }
    {
        self.acts_for = identity_named(acts_for);
        self
    }

    /// Returns the identity that the client acts for, or `None` if it acts for itself.
    pub fn acts_for(&self) -> Option<&str>
        ensures { option_map (λ name. name.now) result ≡ self.now.acts_for }
    {
        match &self.acts_for {
            Some(name) => Some(name.as_str()),
            None => None,
        }
    }

    /// Returns the header of the client's messages.
    fn header(&self) -> ClientHeader<'_>
        ensures { result ≡ header_in self.now }
    {
        ClientHeader::new(self.options.channel, self.acts_for())
    }

    /// Returns whether this client accepts the server's signature in a challenge too.
    pub fn accepts_signature_by_challenge(&self) -> bool
        ensures { result ≡ self.now.signature_by_challenge }
    {
        self.options.signature_by_challenge
    }

    /// Returns the version, which is that of the client's mechanism (RFC 5802, section 4).
    pub fn version(&self) -> ScramVersion
        ensures { result ≡ self.now.version }
    {
        self.scram
    }

    /// Returns the name of the client's mechanism (RFC 5802, sections 4 and 6), which ends with `-PLUS` if the client
    /// binds a channel.
    pub fn mechanism(&self) -> &'static str
        ensures { result.now ≡ mechanism_of self.now.version (is_bound self.now.channel) }
    {
        self.scram.mechanism_with(self.options.channel.is_bound())
    }

    /// Writes the client-first message (RFC 5802, section 7), with its GS2 header, and restarts the exchange in every
    /// state. The nonce is 32 bytes, new for each exchange. It is written in base64, as 44 symbols.
    ///
    /// The only error is `OutOfMemory`.
    pub fn compute_client_first_message(
        &mut self,
        alloc: Global,
        nonce: &[u8; 32],
    ) -> Result<Bytes, OutOfMemory>
        ensures message { IfOk result (λ message. message
            ≡ client_first_with (header_of (header_in self.old)) self.old.user (base64_text nonce.now)) }
        ensures started { OnOk result (self.new ≡ started self.old nonce.now) }
        ensures err { OnErr result (self.new ≡ self.old) }
    {
        let mut room = [0; 44];
        let client_nonce = base64_of_nonce(nonce, &mut room);
        let (client_first_message, client_first_message_bare) = self
            .scram
            .client_first_message_with(
                alloc,
                &self.header(),
                self.username.as_bytes(),
                client_nonce.as_bytes(),
            )?;
        self.state = ScramClientState::ClientFirstSent {
            nonce: *nonce,
            client_first_message_bare: client_first_message_bare.to_vec(alloc)?,
        };
        self.keys = None;
        Ok(client_first_message)
    }

    /// Answers the server-first message with the client-final message (RFC 5802, sections 5 and 7).
    ///
    /// The errors are, in this order: `IllegalClientState` if the client has not sent the client-first message last;
    /// then those of `ScramVersion::answer_server_first`, in its order, with the client's nonce, secret and limits.
    /// `OutOfMemory` is returned only if no error before `Base64DecodeError` applies.
    pub fn compute_client_final_message(
        &mut self,
        alloc: Global,
        server_first: &str,
    ) -> Result<Vec<u8>, ScramErrorKind>
        ensures answer { Gives ScramErrorKind.OutOfMemory (ReachesSaltIn self.old.state server_first.now)
            (λ message. message.items) result
            (λ answer. AnswersIn self.old.state self.old server_first.now answer self.new) }
        ensures err { OnErr result (self.new ≡ self.old) }
    {
        self.compute_client_final_message_metered(alloc, server_first, &mut Meter::new())
    }

    /// Like `compute_client_final_message`; the meter, of at most 2^63, counts the HMAC values: two by keys, by the
    /// password four more than the iterations, and none for an error.
    pub fn compute_client_final_message_metered(
        &mut self,
        alloc: Global,
        server_first: &str,
        meter: &mut Meter,
    ) -> Result<Vec<u8>, ScramErrorKind>
        requires { meter.old ≤ 2 ^ 63 }
        ensures answer { Gives ScramErrorKind.OutOfMemory (ReachesSaltIn self.old.state server_first.now)
            (λ message. message.items) result
            (λ answer. AnswersIn self.old.state self.old server_first.now answer self.new) }
        ensures err { OnErr result (self.new ≡ self.old) }
        ensures cost { AnswerCostsIn self.old.state self.old server_first.now result meter.old meter.new }
    {
        match &self.state {
            ScramClientState::ClientFirstSent {
                nonce,
                client_first_message_bare,
            } => {
                let mut room = [0; 44];
                let client_nonce = base64_of_nonce(nonce, &mut room);
                let answer = self.scram.answer_server_first(
                    alloc,
                    client_nonce,
                    self.secret.lent(),
                    server_first,
                    client_first_message_bare,
                    self.options.limits,
                    &self.header(),
                    self.options.strict,
                    meter,
                )?;
                self.state = ScramClientState::ClientFinalSent {
                    server_signature: answer.signature,
                };
                self.keys = Some(answer.keys);
                Ok(answer.message)
            }
            _ => Err(ScramErrorKind::IllegalClientState),
        }
    }

    /// Verifies the server-final message (RFC 5802, section 5).
    ///
    /// The errors are, in this order: `IllegalClientState` if the client has not sent the client-final message last;
    /// `Utf8Error`; `ServerSignatureMismatch` if the first part does not begin with `v=`; `Base64DecodeError`;
    /// `MisplacedAttribute` of a client that is strict, has a channel or sends an authorization identity if a part
    /// after the signature is no extension; `ServerSignatureMismatch` for another signature. `OutOfMemory` is returned
    /// only if none of the first three errors applies. After `ServerSignatureMismatch`, `ServerError::parse` says
    /// whether the message is an error of the server.
    pub fn validate_server_final(
        &mut self,
        alloc: Global,
        server_final: &[u8],
    ) -> Result<(), ScramErrorKind>
        ensures answer { Gives ScramErrorKind.OutOfMemory (ReachesVerifierIn self.old.state server_final.now)
            (λ verified. verified) result
            (λ answer. VerifiesIn self.old.state self.old server_final.now answer self.new) }
        ensures err { OnErr result (self.new ≡ self.old) }
    {
        match &self.state {
            ScramClientState::ClientFinalSent { server_signature } => {
                self.scram.validate_server_final_with_header(
                    alloc,
                    &self.header(),
                    self.options.strict,
                    server_final,
                    server_signature,
                )?;
                self.state = ScramClientState::Complete;
                Ok(())
            }
            _ => Err(ScramErrorKind::IllegalClientState),
        }
    }

    /// Returns whether the client takes the next challenge as the server-final message: it accepts the signature in a
    /// challenge, and has sent its client-final message last.
    pub fn expects_signature(&self) -> bool
        ensures { result ≡ expects_signature self.now }
    {
        self.options.signature_by_challenge && self.server_signature().is_some()
    }

    /// Verifies a server-final message that came in a challenge (RFC 4422, section 5). Answer it by an empty response,
    /// and pass the outcome to `conclude_without_data`.
    ///
    /// The errors are those of `validate_server_final`, in its order.
    pub fn validate_signature_challenge(
        &mut self,
        alloc: Global,
        server_final: &[u8],
    ) -> Result<(), ScramErrorKind>
        ensures answer { Gives ScramErrorKind.OutOfMemory (ReachesVerifierIn self.old.state server_final.now)
            (λ verified. verified) result
            (λ answer. ChecksSignatureIn self.old.state self.old server_final.now answer self.new) }
        ensures err { OnErr result (self.new ≡ self.old) }
    {
        match &self.state {
            ScramClientState::ClientFinalSent { server_signature } => {
                self.scram.validate_server_final_with_header(
                    alloc,
                    &self.header(),
                    self.options.strict,
                    server_final,
                    server_signature,
                )?;
                self.state = ScramClientState::SignatureVerified;
                Ok(())
            }
            _ => Err(ScramErrorKind::IllegalClientState),
        }
    }

    /// Ends the exchange at an outcome without data, if the signature came in a challenge (RFC 4422, section 5). The
    /// only error is `ServerSignatureMismatch`: no challenge with the signature was verified before.
    pub fn conclude_without_data(&mut self) -> Result<(), ScramErrorKind>
        ensures answer { ConcludesIn self.old.state self.old result self.new }
        ensures err { OnErr result (self.new ≡ self.old) }
    {
        let ScramClientState::SignatureVerified = &self.state else {
            return Err(ScramErrorKind::ServerSignatureMismatch);
        };
        self.state = ScramClientState::Complete;
        Ok(())
    }

    /// Returns the keys that the client answered by, once the exchange has ended with a verified server, and `None`
    /// before that. The next login by them takes two HMAC values, as long as the server keeps its salt and iteration
    /// count (RFC 5802, section 3).
    pub fn keys(&self) -> Option<&CachedKeys>
        ensures { MatchOption result (login_keys self.now.state ≡ None)
            (λ keys. login_keys self.now.state ≡ Some keys.now) }
    {
        match &self.state {
            ScramClientState::Complete => self.keys.as_ref(),
            _ => None,
        }
    }
}

/// Returns the identity that a client names: none if it is empty.
fn identity_named(acts_for: Option<String>) -> Option<String>
    ensures { option_map string_bytes result ≡ identity_named (option_map string_bytes acts_for) }
{
    let name = acts_for?;
    if name.is_empty() { None } else { Some(name) }
}

impl fmt::Debug for ScramClient {
    /// Writes the user name, the version and the limits, without the secret and the state.
    fn fmt<W: fmt::Write>(&self, f: &mut fmt::Formatter<W>) -> fmt::Result {
        write!(
            f,
            "ScramClient {{ username: {:?}, scram: {:?}, iteration_limit: {}, .. }}",
            self.username, self.scram, self.options.limits.max_iterations
        )
    }
}

impl Clone for ScramClient {
    ghost is_clone = { λ client copy. copy ≡ client };

    fn clone(&self) -> Result<Self, AllocError> {
        Ok(Self {
            username: self.username.clone()?,
            secret: self.secret.clone()?,
            scram: self.scram,
            options: self.options,
            acts_for: self.acts_for.clone()?,
            state: self.state.copy()?,
            keys: self.keys.clone()?,
        })
    }
}
