//! The client's side of a negotiation: what it answers to the frames of a server (AMQP 1.0, part 5, section 5.3.2).

ghost use Rattle.std.specs.Prelude.{◌≡◌, ◌++◌, ◌∷◌, [], false, None, IfOk, IfErr, OnOk, OnErr, MatchOption, IsAscii, option_map, string_bytes};
ghost use Rattle.fe2o3_sasl_wire.specs.AmqpTypes.{binary_bytes};
ghost use Rattle.fe2o3_scram.specs.ClientSecret.{secret_of};
ghost use Rattle.fe2o3_sasl_core.specs.Profiles.{ScramProfile, PlainProfile, MessageProfile, PolicyProfile, AnonymousMessage, ExternalMessage, scram_profile, profile_name, initial_response, after_init};
ghost use Rattle.fe2o3_sasl_core.specs.PlainWords.{ArePlainWords};
ghost use Rattle.fe2o3_sasl_core.specs.Runs.{login_with};
ghost use Rattle.fe2o3_sasl_core.specs.SaslProfile.{RefusesUrl, HasCredentials, profile_of};

mod acting;
mod error;
mod frames;
mod policy;
mod saved;
mod scram;
mod scram_frames;
mod selection;
mod single_message;

use crate::OutOfMemory;
use crate::client_policy::ClientPolicy;
use crate::mechanism::{ANONYMOUS, EXTERNAL, PLAIN, symbol_of};
use crate::plain_server::is_plain_word;
pub use error::{ProfileError, UrlError};
use fe2o3_sasl_wire::{Binary, SaslInit, SaslOutcome, SaslResponse, Symbol};
use fe2o3_scram::ClientOptions;
use fe2o3_scram::client_secret::ClientSecret;
use fe2o3_scram::hmac::ScramVersion;
use fe2o3_scram::scram_client::ScramClient;
use fe2o3_scram::secrets::SecretText;
pub(crate) use frames::outcome_of;
pub use policy::PolicyLogin;
pub use scram::{SaslScram, SaslScramSha1, SaslScramSha256, SaslScramSha512};
use scram_frames::first_message;
pub use selection::{ChoiceError, select_mechanism};
pub use single_message::SingleMessage;
use std::alloc::{AllocError, Global};
use std::fmt;
use url::Url;

/// The profile that a client logs in with.
#[derive(Drop)]
pub enum SaslProfile {
    /// ANONYMOUS (RFC 4505).
    Anonymous,

    /// PLAIN (RFC 4616).
    Plain {
        /// The user name.
        username: String,

        /// The password, which is overwritten before its memory is freed.
        password: SecretText,
    },

    /// PLAIN that asks to act for an identity, made by [`SaslProfile::acting_for`].
    PlainAs {
        /// The identity.
        identity: String,

        /// The user name.
        username: String,

        /// The password, which is overwritten before its memory is freed.
        password: SecretText,
    },

    /// EXTERNAL (RFC 4422, appendix A).
    External,

    /// ANONYMOUS with trace information as its initial response, made by [`SaslProfile::anonymous_as`].
    AnonymousAs(SingleMessage),

    /// EXTERNAL with an authorization identity as its initial response, made by [`SaslProfile::external_as`].
    ExternalAs(SingleMessage),

    /// SCRAM-SHA-1.
    ScramSha1(SaslScramSha1),

    /// SCRAM-SHA-256.
    ScramSha256(SaslScramSha256),

    /// SCRAM-SHA-512.
    ScramSha512(SaslScramSha512),

    /// A client that selects its mechanism from the server's offer, made by [`SaslProfile::by_policy`].
    ByPolicy(Box<PolicyLogin>),
}

/// A profile's answer.
#[derive(Drop)]
pub enum Negotiation {
    /// An init, to the mechanisms of the server.
    Init(SaslInit),

    /// A response, to a challenge.
    Response(SaslResponse),

    /// The outcome that the server sent, which ends the negotiation.
    Outcome(SaslOutcome),
}

impl SaslProfile {
    /// Makes a PLAIN profile for this user with this password. The words are sent unchanged: an empty word is not
    /// rejected, nor a zero byte, at which the reader splits the message (RFC 4616, section 2, allows neither).
    pub fn plain(username: String, password: String) -> SaslProfile
        ensures { profile_of result ≡ PlainProfile [] (string_bytes username) (string_bytes password) }
    {
        SaslProfile::Plain {
            username,
            password: SecretText::new(password),
        }
    }

    /// Makes a PLAIN profile like [`SaslProfile::plain`], or returns `None` if the user name or the password is empty or
    /// has a zero byte, as no message may have it (RFC 4616, section 2).
    pub fn plain_checked(username: String, password: String) -> Option<SaslProfile>
        ensures { MatchOption result (¬ ArePlainWords (string_bytes username) (string_bytes password))
            (λ profile. ArePlainWords (string_bytes username) (string_bytes password)
            × (profile_of profile ≡ PlainProfile [] (string_bytes username) (string_bytes password))) }
    {
        if is_plain_word(&username) && is_plain_word(&password) {
            Some(SaslProfile::plain(username, password))
        } else {
            None
        }
    }

    /// Makes an ANONYMOUS profile that sends this trace information, which may be empty, as its initial response (RFC
    /// 4505, section 2). Like that of [`SaslProfile::external_as`], it answers one empty challenge. The text is sent
    /// unchanged: that of the RFC has at most 255 characters.
    pub fn anonymous_as(trace: String) -> SaslProfile
        ensures { profile_of result ≡ MessageProfile AnonymousMessage (string_bytes trace) false }
    {
        SaslProfile::AnonymousAs(SingleMessage::new(trace))
    }

    /// Makes an EXTERNAL profile that sends this authorization identity as its initial response (RFC 4422, appendix A).
    /// The empty identity asks for the user whom the transport authenticated, and is sent as an empty response, unlike
    /// that of `SaslProfile::External`, which sends none. Some servers reject an init without a response, and others ask
    /// for it by an empty challenge: the profile answers one after each init. The text is sent unchanged: that of the RFC
    /// has no zero byte.
    pub fn external_as(identity: String) -> SaslProfile
        ensures { profile_of result ≡ MessageProfile ExternalMessage (string_bytes identity) false }
    {
        SaslProfile::ExternalAs(SingleMessage::new(identity))
    }

    /// Makes a profile that selects its mechanism from the server's offer, with a copy of the secret. When it receives the
    /// offer, it becomes the profile that [`select_mechanism`](crate::select_mechanism) selects. If none can be selected, or
    /// the selected one cannot ask to act for the identity of [`SaslProfile::acting_for`], it returns `NotImplemented`. Before
    /// that it sends nothing, and rejects every other frame. OutOfMemory is the only error.
    pub fn by_policy(
        alloc: Global,
        username: String,
        secret: ClientSecret<'_>,
        policy: ClientPolicy,
    ) -> Result<SaslProfile, OutOfMemory>
        ensures { IfOk result (λ profile. profile_of profile ≡ PolicyProfile (record {
          user = string_bytes username;
          secret = secret_of secret.entry;
          policy = policy;
          acts_for = None;
        })) }
    {
        let login = PolicyLogin::new(alloc, username, secret, policy)?;
        Ok(SaslProfile::ByPolicy(Box::new(alloc, login)?))
    }

    /// Makes a PLAIN profile for the user name and the password of an address, in the spelling of `url`. That escapes
    /// blanks, controls, some signs and non-ASCII with percent signs, and no escape is decoded. The scheme is ignored,
    /// so `amqp` sends the password like `amqps` does. NoCredentials if one of the two is empty or absent.
    pub fn from_url(alloc: Global, url: &Url) -> Result<SaslProfile, UrlError>
        ensures ok { IfOk result (λ profile. profile_of profile ≡ PlainProfile [] url.now.username url.now.password) }
        ensures both { IfOk result (λ _. HasCredentials url.now) }
        ensures err { IfErr result (λ fault. RefusesUrl url.now fault) }
    {
        let username = url.username();
        if username.is_empty() {
            return Err(UrlError::NoCredentials);
        }
        let Some(password) = url.password() else {
            return Err(UrlError::NoCredentials);
        };
        Ok(SaslProfile::Plain {
            username: String::from_str(alloc, username)?,
            password: SecretText::from_str(alloc, password)?,
        })
    }

    /// Returns a SCRAM profile of this version with these options, which has sent nothing.
    pub(crate) fn scram(
        username: String,
        password: String,
        version: ScramVersion,
        options: ClientOptions,
    ) -> SaslProfile
        ensures { profile_of result
            ≡ scram_profile (login_with options version (string_bytes username) (string_bytes password)) }
    {
        SaslProfile::scram_of(ScramClient::new(username, password, version).with_options(options))
    }

    /// Returns the name of the mechanism, which is empty before one is selected.
    pub(crate) fn name(&self) -> &'static str
        ensures name { result.now ≡ profile_name (profile_of self.now) }
        ensures ascii { IsAscii result.now }
    {
        match self {
            SaslProfile::Anonymous => ANONYMOUS,
            SaslProfile::Plain { .. } | SaslProfile::PlainAs { .. } => PLAIN,
            SaslProfile::External => EXTERNAL,
            SaslProfile::AnonymousAs(_) => ANONYMOUS,
            SaslProfile::ExternalAs(_) => EXTERNAL,
            SaslProfile::ScramSha1(scram) => scram.client.mechanism(),
            SaslProfile::ScramSha256(scram) => scram.client.mechanism(),
            SaslProfile::ScramSha512(scram) => scram.client.mechanism(),
            SaslProfile::ByPolicy(_) => "",
        }
    }

    /// Returns the name of the mechanism, as a symbol. It is empty before a client by a policy has selected one.
    pub fn mechanism(&self, alloc: Global) -> Result<Symbol, OutOfMemory>
        ensures { IfOk result (λ symbol. symbol ≡ profile_name (profile_of self.now)) }
    {
        symbol_of(alloc, self.name())
    }

    /// Returns the initial response: nothing for ANONYMOUS and EXTERNAL, unless they were made with one, and for a client
    /// that has selected no mechanism; the message of
    /// PLAIN; and for SCRAM the client-first message of a restart, with a nonce of 32 bytes. An error leaves the profile
    /// unchanged.
    pub fn initial_response(
        &mut self,
        alloc: Global,
        nonce: &[u8; 32],
    ) -> Result<Option<Binary>, OutOfMemory>
        ensures ok { IfOk result (λ response.
            option_map binary_bytes response ≡ initial_response (profile_of self.old) nonce.now) }
        ensures started { OnOk result (profile_of self.new ≡ after_init (profile_of self.old) nonce.now) }
        ensures err { OnErr result (profile_of self.new ≡ profile_of self.old) }
    {
        match self {
            SaslProfile::Anonymous | SaslProfile::External | SaslProfile::ByPolicy(_) => Ok(None),
            SaslProfile::Plain { username, password } => {
                Ok(Some(plain_message(alloc, "", username, password.as_str())?))
            }
            SaslProfile::PlainAs {
                identity,
                username,
                password,
            } => Ok(Some(plain_message(alloc, identity, username, password.as_str())?)),
            SaslProfile::AnonymousAs(single) => Ok(Some(single.start(alloc)?)),
            SaslProfile::ExternalAs(single) => Ok(Some(single.start(alloc)?)),
            SaslProfile::ScramSha1(scram) => {
                Ok(Some(first_message(&mut scram.client, alloc, nonce)?))
            }
            SaslProfile::ScramSha256(scram) => {
                Ok(Some(first_message(&mut scram.client, alloc, nonce)?))
            }
            SaslProfile::ScramSha512(scram) => {
                Ok(Some(first_message(&mut scram.client, alloc, nonce)?))
            }
        }
    }
}

impl Clone for SaslProfile {
    ghost is_clone = { λ profile copy. profile_of copy ≡ profile_of profile };

    fn clone(&self) -> Result<Self, AllocError> {
        Ok(match self {
            SaslProfile::Anonymous => SaslProfile::Anonymous,
            SaslProfile::Plain { username, password } => SaslProfile::Plain {
                username: username.clone()?,
                password: password.clone()?,
            },
            SaslProfile::PlainAs {
                identity,
                username,
                password,
            } => SaslProfile::PlainAs {
                identity: identity.clone()?,
                username: username.clone()?,
                password: password.clone()?,
            },
            SaslProfile::External => SaslProfile::External,
            SaslProfile::AnonymousAs(single) => SaslProfile::AnonymousAs(single.clone()?),
            SaslProfile::ExternalAs(single) => SaslProfile::ExternalAs(single.clone()?),
            SaslProfile::ScramSha1(scram) => SaslProfile::ScramSha1(scram.clone()?),
            SaslProfile::ScramSha256(scram) => SaslProfile::ScramSha256(scram.clone()?),
            SaslProfile::ScramSha512(scram) => SaslProfile::ScramSha512(scram.clone()?),
            SaslProfile::ByPolicy(login) => SaslProfile::ByPolicy(login.clone()?),
        })
    }
}

impl From<ScramClient> for SaslProfile {
    ghost from_gives = { λ client profile. profile_of profile ≡ ScramProfile client };

    fn from(client: ScramClient) -> Self {
        SaslProfile::scram_of(client)
    }
}

impl From<SaslScramSha1> for SaslProfile {
    ghost from_gives = { λ scram profile. profile_of profile ≡ ScramProfile scram };

    fn from(scram: SaslScramSha1) -> Self {
        SaslProfile::ScramSha1(scram)
    }
}

impl From<SaslScramSha256> for SaslProfile {
    ghost from_gives = { λ scram profile. profile_of profile ≡ ScramProfile scram };

    fn from(scram: SaslScramSha256) -> Self {
        SaslProfile::ScramSha256(scram)
    }
}

impl From<SaslScramSha512> for SaslProfile {
    ghost from_gives = { λ scram profile. profile_of profile ≡ ScramProfile scram };

    fn from(scram: SaslScramSha512) -> Self {
        SaslProfile::ScramSha512(scram)
    }
}

impl fmt::Debug for SaslProfile {
    /// Writes the mechanism, the user name and the identity, without the password.
    fn fmt<W: fmt::Write>(&self, f: &mut fmt::Formatter<W>) -> fmt::Result {
        match self {
            SaslProfile::Anonymous => f.write_str("Anonymous"),
            SaslProfile::Plain { username, .. } => {
                write!(f, "Plain {{ username: {username:?}, .. }}")
            }
            SaslProfile::PlainAs {
                identity,
                username,
                ..
            } => {
                write!(
                    f,
                    "PlainAs {{ identity: {identity:?}, username: {username:?}, .. }}"
                )
            }
            SaslProfile::External => f.write_str("External"),
            SaslProfile::AnonymousAs(single) => write!(f, "AnonymousAs({single:?})"),
            SaslProfile::ExternalAs(single) => write!(f, "ExternalAs({single:?})"),
            SaslProfile::ScramSha1(scram) => write!(f, "ScramSha1({scram:?})"),
            SaslProfile::ScramSha256(scram) => write!(f, "ScramSha256({scram:?})"),
            SaslProfile::ScramSha512(scram) => write!(f, "ScramSha512({scram:?})"),
            SaslProfile::ByPolicy(login) => {
                let username = &login.username;
                write!(f, "ByPolicy {{ username: {username:?}, .. }}")
            }
        }
    }
}

impl fmt::Debug for Negotiation {
    /// Writes the mechanism of an init and the code of an outcome, without the mechanism's messages.
    fn fmt<W: fmt::Write>(&self, f: &mut fmt::Formatter<W>) -> fmt::Result {
        match self {
            Negotiation::Init(init) => {
                let mechanism = init.mechanism.as_str();
                write!(f, "Init {{ mechanism: {mechanism:?}, .. }}")
            }
            Negotiation::Response(_) => f.write_str("Response { .. }"),
            Negotiation::Outcome(outcome) => {
                let code = outcome.code;
                write!(f, "Outcome {{ code: {code:?}, .. }}")
            }
        }
    }
}

/// Returns the message of PLAIN: the identity to act for, which is empty for the user's own, a zero byte, the user name, a
/// zero byte and the password (RFC 4616, section 2).
fn plain_message(
    alloc: Global,
    identity: &str,
    username: &str,
    password: &str,
) -> Result<Binary, OutOfMemory>
    ensures { IfOk result (λ message. binary_bytes message ≡ identity.now ++ 0 ∷ username.now ++ 0 ∷ password.now) }
{
    let room = identity
        .len()
        .saturating_add(username.len())
        .saturating_add(password.len())
        .saturating_add(2);
    let mut message = Vec::with_capacity(alloc, room)?;
    message.extend_from_slice(identity.as_bytes())?;
    message.push(0)?;
    message.extend_from_slice(username.as_bytes())?;
    message.push(0)?;
    message.extend_from_slice(password.as_bytes())?;
    Ok(Binary(message))
}
