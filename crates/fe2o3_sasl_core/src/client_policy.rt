//! Which mechanisms a client may select of a server's offer (AMQP 1.0, part 5, section 5.3.3.2).

ghost use Rattle.std.specs.Prelude.{◌≡◌, false, MatchBool, MatchOption, List, ℕ, None, option_map, is_some};
ghost use Rattle.std.specs.List.{AllByRecursion, Contains};
ghost use Rattle.fe2o3_scram.specs.ClientSecret.{IsOfVersion, secret_of, up_to, no_limit};
ghost use Rattle.fe2o3_sasl_core.specs.ClientPolicy.{is_allowed, is_from, secret_for, profile_by, scram_options, CanTake, IsFirstTaken};
ghost use Rattle.fe2o3_sasl_core.specs.declared.client_policy.ClientPolicy.{ClientPolicy as PolicyOf};

pub mod laws;

use crate::mechanism::Mechanism;
use crate::offer::Offer;
use fe2o3_scram::ClientOptions;
use fe2o3_scram::channel_binding::ChannelBinding;
use fe2o3_scram::client_secret::{ClientSecret, IterationLimits};
use fe2o3_scram::hmac::ScramVersion;
use fe2o3_scram::scram_messages::ClientChannel;

/// The mechanisms of clients, the strongest first.
pub(crate) const BY_STRENGTH: [Mechanism; 9] = [
    Mechanism::Scram(ScramVersion::Sha512, true),
    Mechanism::Scram(ScramVersion::Sha256, true),
    Mechanism::Scram(ScramVersion::Sha1, true),
    Mechanism::Scram(ScramVersion::Sha512, false),
    Mechanism::Scram(ScramVersion::Sha256, false),
    Mechanism::Scram(ScramVersion::Sha1, false),
    Mechanism::External,
    Mechanism::Plain,
    Mechanism::Anonymous,
];

/// Which mechanisms a client may log in by. An attacker can alter an offer on its way, but the client selects nothing
/// that is not allowed here. Of what is offered and allowed it selects the strongest.
#[derive(Clone, Copy, Debug, PartialEq, Eq)]
pub struct ClientPolicy {
    /// The weakest hash by which SCRAM is allowed. SHA-1 is weaker than SHA-256, and that than SHA-512.
    pub floor: ScramVersion,

    /// The iteration counts of SCRAM that the client accepts. RFC 7677, section 4, asks for at least 4096.
    pub limits: IterationLimits,

    /// The channel that the client binds (RFC 5802, section 6), if there is one: it prefers the mechanisms with `-PLUS`. If
    /// the server offers none that it can select, it says so by SCRAM (`y,,`), and a server that did offer one has to
    /// reject it (`laws::selected_channels`). Against a server that accepts `y,,` all the same, only `must_bind` protects.
    pub channel: Option<ChannelBinding>,

    /// Whether SCRAM is only allowed with `-PLUS`. Without a channel no SCRAM is then.
    pub must_bind: bool,

    /// Whether SCRAM is strict, as by [`ClientOptions`](fe2o3_scram::ClientOptions).
    pub strict: bool,

    /// Whether EXTERNAL is allowed too, if nothing stronger can be selected.
    pub external: bool,

    /// Whether PLAIN is allowed too, if nothing stronger can be selected. It shows the password to anyone who reads the
    /// connection: allow it only under TLS.
    pub plain: bool,

    /// Whether ANONYMOUS is allowed too, if nothing stronger can be selected.
    pub anonymous: bool,
}

impl ClientPolicy {
    /// Allows SCRAM with the hash of this version and stronger ones, without limits and without a channel, and nothing
    /// else. It is not strict.
    pub fn scram_from(floor: ScramVersion) -> Self
        ensures { result ≡ record {
          floor = floor;
          limits = up_to no_limit;
          channel = None;
          must_bind = false;
          strict = false;
          external = false;
          plain = false;
          anonymous = false;
        } }
    {
        Self {
            floor,
            limits: IterationLimits::none(),
            channel: None,
            must_bind: false,
            strict: false,
            external: false,
            plain: false,
            anonymous: false,
        }
    }

    /// Returns whether the policy allows the mechanism.
    pub fn allows(&self, mechanism: Mechanism) -> bool
        ensures { result ≡ is_allowed self.now mechanism }
    {
        match mechanism {
            Mechanism::Scram(version, true) => {
                self.channel.is_some() && is_from(self.floor, version)
            }
            Mechanism::Scram(version, false) => !self.must_bind && is_from(self.floor, version),
            Mechanism::External => self.external,
            Mechanism::Plain => self.plain,
            Mechanism::Anonymous => self.anonymous,
        }
    }
}

/// Returns whether the hash is no weaker than the floor.
fn is_from(floor: ScramVersion, version: ScramVersion) -> bool
    ensures { result ≡ is_from floor version }
{
    match floor {
        ScramVersion::Sha1 => true,
        ScramVersion::Sha256 => version != ScramVersion::Sha1,
        ScramVersion::Sha512 => version == ScramVersion::Sha512,
    }
}

/// Returns what the secret is for SCRAM of this version, if it serves for it.
#[tactic(auto, using(crate::proofs::lemmas::machines::PolicyLemmas::keys))]
pub(crate) fn secret_for<'a>(
    secret: &ClientSecret<'a>,
    version: ScramVersion,
) -> Option<ClientSecret<'a>>
    ensures secret { option_map secret_of result ≡ secret_for version (secret_of secret.now) }
    ensures version { MatchOption result (is_some (secret_for version (secret_of secret.now)) ≡ false)
        (λ secret. IsOfVersion version (secret_of secret)) }
{
    match secret {
        ClientSecret::Keys(keys) if keys.scram_version() != version => None,
        ClientSecret::PasswordAndKeys { password, keys } if keys.scram_version() != version => {
            Some(ClientSecret::Password(*password))
        }
        secret => Some(*secret),
    }
}

/// Returns whether the secret serves for the mechanism.
fn serves(secret: &ClientSecret<'_>, mechanism: Mechanism) -> bool
    ensures { (policy : PolicyOf) (user : List ℕ)
        → result ≡ is_some (profile_by policy user (secret_of secret.now) mechanism) }
{
    match mechanism {
        Mechanism::Scram(version, _) => secret_for(secret, version).is_some(),
        Mechanism::Plain => !matches!(secret, ClientSecret::Keys(_)),
        Mechanism::External | Mechanism::Anonymous => true,
    }
}

/// Returns whether the mechanism can be selected.
#[tactic(auto, using(crate::proofs::lemmas::machines::PolicyLemmas::taking))]
fn can_take<O: Offer>(
    mechanism: Mechanism,
    offer: &O,
    secret: &ClientSecret<'_>,
    policy: ClientPolicy,
) -> bool
    ensures { (user : List ℕ) → MatchBool result (CanTake policy user (secret_of secret.now) (O.names offer.now) mechanism)
        (¬ CanTake policy user (secret_of secret.now) (O.names offer.now) mechanism) }
{
    policy.allows(mechanism) && serves(secret, mechanism) && offer.offers(mechanism.name())
}

/// Returns the first of the mechanisms that can be selected.
pub(crate) fn first_taken<O: Offer>(
    mechanisms: &[Mechanism],
    offer: &O,
    secret: &ClientSecret<'_>,
    policy: ClientPolicy,
) -> Option<Mechanism>
    ensures { (user : List ℕ) → MatchOption result
        (AllByRecursion (λ other. ¬ CanTake policy user (secret_of secret.now) (O.names offer.now) other) mechanisms.now)
        (IsFirstTaken policy user (secret_of secret.now) (O.names offer.now) mechanisms.now) }
{
    for mechanism in mechanisms {
        if can_take(*mechanism, offer, secret, policy) {
            return Some(*mechanism);
        }
    }
    None
}

/// Returns the options of a client of SCRAM by the policy, with `-PLUS` or without it.
pub(crate) fn scram_options(policy: ClientPolicy, plus: bool) -> ClientOptions
    ensures { result ≡ scram_options policy plus }
{
    let channel = match policy.channel {
        Some(binding) if plus => ClientChannel::Bound(binding),
        Some(_) => ClientChannel::NotOffered,
        None => ClientChannel::Absent,
    };
    ClientOptions {
        limits: policy.limits,
        signature_by_challenge: false,
        strict: policy.strict,
        channel,
    }
}
