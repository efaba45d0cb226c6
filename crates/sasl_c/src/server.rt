//! A SCRAM server whose state is a struct between its calls.

ghost use Rattle.std.specs.Prelude.{◌≡◌, ◌≢◌, ◌<◌, ◌≤◌, ◌↔◌, ◌⊎◌, ℕ, List, Option, IsTrue, length, take, MatchBool, MatchOption};
ghost use Rattle.std.specs.Str.{IsUtf8};
ghost use Rattle.fe2o3_sasl_wire.specs.FrameView.{shown};
ghost use Rattle.fe2o3_scram.specs.ServerFirst.{ServerChallenge};
ghost use Rattle.fe2o3_scram.specs.declared.hmac.ScramVersion.{ScramVersion as ScramVersions};
ghost use Rattle.fe2o3_scram.specs.ScramServer.{challenge_kept};
ghost use Rattle.fe2o3_scram.specs.declared.scram_messages.channel_binding_flag.ChannelBindingFlag.{ChannelBindingFlag as HeaderOf};
ghost use Rattle.sasl_c.specs.Server.{ChallengeHasRoom, HoldsIdentity, IdentityHasRoom, IsLoggedIn, IsOpen, IsOpenBy, IsOpenFor, authenticated_struct, fresh_server_struct, identity_in, named_struct, open_number, open_struct, or_empty, rejected_struct, user_struct};

use crate::arrays::{cleared, fill, head, padded};
use crate::rules::takes;
use crate::status::version_of;
use fe2o3_scram::{ChannelBindingFlag, ChannelKind, OpenChallenge, ScramVersion, ServerRules};

/// The state of a SCRAM server between calls. All zeros is a server without an open challenge.
///
/// A call that succeeds writes zeros to every field that its new state does not use, and after every length. The
/// struct never holds a password or a key of a record.
#[repr(C)]
#[derive(Drop)]
pub struct ScramServer {
    /// How far the exchange is: one of enum fe2o3_scram_server_state.
    pub state: u32,

    /// The hash of the open challenge: one of enum fe2o3_scram_version.
    pub version: u32,

    /// The number of bytes of `user` in use.
    pub user_len: u32,

    /// The number of bytes of `bare` in use.
    pub bare_len: u32,

    /// The number of bytes of `nonce` in use.
    pub nonce_len: u32,

    /// The number of bytes of `first` in use.
    pub first_len: u32,

    /// The number of bytes of `acts_for` in use, or 0 if the client acts for itself.
    pub acts_for_len: u32,

    /// Why the last frame was answered by the outcome Auth, for the server's log only: one of enum fe2o3_rejection, or the
    /// error of a SCRAM message, one of enum fe2o3_status. Written by `fe2o3_sasl_server_receive`.
    pub rejection: u32,

    /// The user name, without escapes. It is authenticated in the state FE2O3_SCRAM_SERVER_AUTHENTICATED only; before, the
    /// client claims it.
    pub user: [u8; 256],

    /// The client-first message without its GS2 header.
    pub bare: [u8; 1024],

    /// The nonces of both sides.
    pub nonce: [u8; 512],

    /// The server-first message.
    pub first: [u8; 1024],

    /// The identity that the client acts for, without escapes (RFC 5802, section 5.1). While a challenge is open the client
    /// only names it; afterwards the user may act for it.
    pub acts_for: [u8; 256],
}

impl ScramServer {
    /// Turns the struct into that of a server without an open challenge and without an authenticated user.
    pub fn clear(&mut self)
        ensures state { self.new.state ≡ 0 }
        ensures writes { self.new ≡ fresh_server_struct }
    {
        self.state = 0;
        self.version = 0;
        self.user_len = 0;
        self.bare_len = 0;
        self.nonce_len = 0;
        self.first_len = 0;
        self.acts_for_len = 0;
        self.rejection = 0;
        self.user = [0; 256];
        self.bare = [0; 1024];
        self.nonce = [0; 512];
        self.first = [0; 1024];
        self.acts_for = [0; 256];
    }

    /// Turns the struct into that of a server that has rejected a login, for the reason of this number.
    pub fn reject(&mut self, rejection: u32)
        ensures state { self.new.state ≡ 0 }
        ensures writes { self.new ≡ rejected_struct rejection }
    {
        self.clear();
        self.rejection = rejection;
    }

    /// Turns the struct into that of a server that keeps only a user and an identity, the first bytes of these arrays, in
    /// this state.
    fn hold_names(
        &mut self,
        state: u32,
        user: &[u8; 256],
        user_len: u32,
        acts_for: &[u8; 256],
        acts_for_len: u32,
    )
        ensures { self.new ≡ user_struct state user_len user.now acts_for_len acts_for.now }
    {
        self.clear();
        self.state = state;
        self.user_len = user_len;
        self.acts_for_len = acts_for_len;
        self.user = *user;
        self.acts_for = *acts_for;
    }

    /// Turns the struct into that of a server that keeps only this user and the identity that it acts for, in this state. If
    /// a name does not fit, returns false, and nothing changes.
    pub fn hold_user(&mut self, state: u32, user: &str, acts_for: Option<&str>) -> bool
        ensures room { MatchBool result ((length user.now ≤ 256) × IdentityHasRoom (shown acts_for.entry))
            ((256 < length user.now) ⊎ ¬ IdentityHasRoom (shown acts_for.entry)) }
        ensures writes { MatchBool result (self.new ≡ named_struct state user.now (shown acts_for.entry))
            (self.new ≡ self.old) }
    {
        let Some(name) = padded(user.as_bytes()) else {
            return false;
        };
        if !identity_fits(acts_for) {
            return false;
        }
        let identity = identity_text(acts_for);
        let mut named = [0; 256];
        fill(&mut named, identity.as_bytes());
        self.hold_names(
            state,
            &name,
            user.len() as u32,
            &named,
            identity.len() as u32,
        );
        true
    }

    /// Turns the struct into that of a server that has authenticated this user for this identity. If a name does not fit,
    /// returns false, and nothing changes.
    #[tactic(auto, using(crate::proofs::IdentityLemmas::logged_in))]
    pub fn hold_authenticated(&mut self, user: &str, acts_for: Option<&str>) -> bool
        ensures user { MatchBool result (IsLoggedIn self.new user.now (shown acts_for.entry))
            ((256 < length user.now) ⊎ ¬ IdentityHasRoom (shown acts_for.entry)) }
        ensures writes { MatchBool result (self.new ≡ authenticated_struct user.now (shown acts_for.entry))
            (self.new ≡ self.old) }
    {
        self.hold_user(2, user, acts_for)
    }

    /// Turns the struct into that of a server that has authenticated the user of the challenge, which keeps only the names
    /// of the exchange.
    #[tactic(auto, using(crate::proofs::IdentityLemmas::kept_identity))]
    pub fn log_in(&mut self)
        requires user { self.old.user_len ≤ 256 }
        requires identity { self.old.acts_for_len ≤ 256 }
        ensures { self.new ≡ authenticated_struct (take self.old.user_len self.old.user)
            (identity_in self.old.acts_for_len self.old.acts_for) }
    {
        let user = cleared(&self.user, self.user_len);
        let acts_for = cleared(&self.acts_for, self.acts_for_len);
        self.hold_names(2, &user, self.user_len, &acts_for, self.acts_for_len);
    }

    /// Turns the struct into that of a server with this open challenge, by the hash of this number. If a text of the
    /// challenge does not fit, returns false, and nothing changes.
    pub fn hold_challenge(&mut self, version: u32, challenge: &OpenChallenge<'_>) -> bool
        ensures open { MatchBool result (ChallengeHasRoom (challenge_kept challenge.now) × (self.new.version ≡ version)
            × IsOpen self.new (challenge_kept challenge.now)) (¬ ChallengeHasRoom (challenge_kept challenge.now)) }
        ensures writes { MatchBool result (self.new ≡ open_struct version (challenge_kept challenge.now))
            (self.new ≡ self.old) }
    {
        if !fits(challenge) {
            return false;
        }
        self.open(version, challenge);
        true
    }

    /// Turns the struct into that of a server with this open challenge, by the hash of this number.
    pub fn open(&mut self, version: u32, challenge: &OpenChallenge<'_>)
        requires { ChallengeHasRoom (challenge_kept challenge.now) }
        ensures open { IsOpen self.new (challenge_kept challenge.now) }
        ensures writes { self.new ≡ open_struct version (challenge_kept challenge.now) }
    {
        let identity = identity_text(challenge.acts_for);
        self.state = open_number(challenge.header);
        self.version = version;
        self.user_len = challenge.username.len() as u32;
        self.bare_len = challenge.client_first_message_bare.len() as u32;
        self.nonce_len = challenge.client_server_nonce.len() as u32;
        self.first_len = challenge.server_first_message.len() as u32;
        self.acts_for_len = identity.len() as u32;
        self.rejection = 0;
        fill(&mut self.user, challenge.username.as_bytes());
        fill(&mut self.bare, challenge.client_first_message_bare);
        fill(&mut self.nonce, challenge.client_server_nonce);
        fill(&mut self.first, challenge.server_first_message);
        fill(&mut self.acts_for, identity.as_bytes());
    }
}

/// Returns whether the texts of a challenge fit into the struct.
pub fn fits(challenge: &OpenChallenge<'_>) -> bool
    ensures { IsTrue result ↔ ChallengeHasRoom (challenge_kept challenge.now) }
{
    challenge.username.len() <= 256
        && challenge.client_first_message_bare.len() <= 1024
        && challenge.client_server_nonce.len() <= 512
        && challenge.server_first_message.len() <= 1024
        && identity_fits(challenge.acts_for)
}

/// Returns whether an identity fits into the struct, where no bytes are none.
fn identity_fits(acts_for: Option<&str>) -> bool
    ensures { IsTrue result ↔ IdentityHasRoom (shown acts_for.entry) }
{
    match acts_for {
        Some(name) => !name.is_empty() && name.len() <= 256,
        None => true,
    }
}

/// Returns the identity, or the empty text if there is none.
pub fn identity_text(acts_for: Option<&str>) -> &str
    ensures text { result.now ≡ or_empty (shown acts_for.entry) }
    ensures utf8 { IsUtf8 (or_empty (shown acts_for.entry)) }
{
    match acts_for {
        Some(name) => name,
        None => "",
    }
}

/// Returns the state of a struct with an open challenge to a client with this GS2 header.
fn open_number(header: ChannelBindingFlag) -> u32
    ensures { result ≡ open_number header }
{
    match header {
        ChannelBindingFlag::NotSupported => 1,
        ChannelBindingFlag::ClientSupports => 3,
        ChannelBindingFlag::Required(ChannelKind::TlsUnique) => 7,
        ChannelBindingFlag::Required(ChannelKind::TlsServerEndPoint) => 8,
        ChannelBindingFlag::Required(ChannelKind::TlsExporter) => 9,
    }
}

/// Returns the GS2 header of the challenge that is open in this state, if one is.
#[tactic(auto, using(crate::proofs::OpenLemmas::no_header))]
fn open_header(state: u32) -> Option<ChannelBindingFlag>
    ensures { MatchOption result ((header : HeaderOf) → open_number header ≢ state)
        (λ header. state ≡ open_number header) }
{
    match state {
        1 => Some(ChannelBindingFlag::NotSupported),
        3 => Some(ChannelBindingFlag::ClientSupports),
        7 => Some(ChannelBindingFlag::Required(ChannelKind::TlsUnique)),
        8 => Some(ChannelBindingFlag::Required(ChannelKind::TlsServerEndPoint)),
        9 => Some(ChannelBindingFlag::Required(ChannelKind::TlsExporter)),
        _ => None,
    }
}

impl ScramServer {
    /// Returns the open challenge with its hash, if the struct holds both.
    pub fn exchange(&self) -> Option<(ScramVersion, OpenChallenge<'_>)>
        ensures { MatchOption result
            ((version : ScramVersions) (challenge : ServerChallenge) → ¬ IsOpenBy self.now version challenge)
            (λ shown. IsOpenBy self.now shown.0 (challenge_kept shown.1)) }
    {
        let version = version_of(self.version)?;
        let challenge = self.challenge()?;
        Some((version, challenge))
    }

    /// Returns the open challenge, if the struct holds one for a server with these rules.
    #[tactic(auto, using(crate::proofs::OpenLemmas::never_for))]
    pub fn challenge_for(&self, rules: &ServerRules) -> Option<OpenChallenge<'_>>
        ensures { MatchOption result ((challenge : ServerChallenge) → ¬ IsOpenFor rules.now self.now challenge)
            (λ challenge. IsOpenFor rules.now self.now (challenge_kept challenge)) }
    {
        let challenge = self.challenge()?;
        if !takes(rules, challenge.header) {
            return None;
        }
        Some(challenge)
    }

    /// Returns the identity that the struct holds, or none if it holds no bytes of one. `None` if these are no text.
    #[tactic(auto, using(crate::proofs::IdentityLemmas::identity))]
    pub fn identity(&self) -> Option<Option<&str>>
        ensures { MatchOption result
            ((acts_for : Option (List ℕ)) → HoldsIdentity self.now acts_for → ¬ IsUtf8 (or_empty acts_for))
            (λ acts_for. HoldsIdentity self.now (shown acts_for) × IsUtf8 (or_empty (shown acts_for))) }
    {
        let bytes = head(&self.acts_for, self.acts_for_len)?;
        match str::from_utf8(bytes) {
            Ok(name) if name.is_empty() => Some(None),
            Ok(name) => Some(Some(name)),
            Err(_) => None,
        }
    }

    /// Returns the open challenge, if the struct holds one.
    #[tactic(auto, using(crate::proofs::IdentityLemmas::challenge))]
    pub fn challenge(&self) -> Option<OpenChallenge<'_>>
        ensures { MatchOption result ((challenge : ServerChallenge) → ¬ IsOpen self.now challenge)
            (λ challenge. IsOpen self.now (challenge_kept challenge)) }
    {
        let header = open_header(self.state)?;
        let user = head(&self.user, self.user_len)?;
        let bare = head(&self.bare, self.bare_len)?;
        let nonce = head(&self.nonce, self.nonce_len)?;
        let first = head(&self.first, self.first_len)?;
        let acts_for = self.identity()?;
        match str::from_utf8(user) {
            Ok(username) => Some(OpenChallenge {
                username,
                header,
                acts_for,
                client_first_message_bare: bare,
                client_server_nonce: nonce,
                server_first_message: first,
            }),
            Err(_) => None,
        }
    }
}
