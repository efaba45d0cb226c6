//! How far the login of a server has come, as the struct of a SCRAM server holds it.

ghost use Rattle.std.specs.Prelude.{◌≡◌, ◌<◌, ◌⊎◌, List, ℕ, Option, MatchBool, MatchOption, length};
ghost use Rattle.fe2o3_sasl_core.specs.SavedServers.{saved_login, saved_stage};
ghost use Rattle.fe2o3_sasl_wire.specs.FrameView.{shown};
ghost use Rattle.sasl_c.specs.Server.{HasAsked, HasSigned, IdentityHasRoom, IsUnfinished, ShowsSigned, ShowsStage, ShowsUser, asked_struct, signed_struct, stage_struct, struct_where};
ghost use Rattle.fe2o3_sasl_core.specs.declared.mechanism.Mechanism.{Mechanism as MechanismOf};
ghost use Rattle.sasl_c.specs.declared.server.ScramServer.{ScramServer as ScramStruct};

use crate::arrays::{fill, head};
use crate::server::{ScramServer, identity_text};
use crate::status::number_of;
use fe2o3_sasl_core::{Mechanism, SavedLogin, SavedStage};
use fe2o3_scram::ScramVersion;

impl ScramServer {
    /// Returns how far the login has come. By which mechanism a signature was sent the struct does not say; it is taken as
    /// sent by SCRAM-SHA-256.
    pub fn saved_stage(&self) -> SavedStage<'_>
        ensures shows { ShowsStage self.now (saved_stage result) }
        ensures unfinished { IsUnfinished (saved_stage result) }
    {
        if let Some((user, acts_for)) = self.signed_user() {
            return SavedStage::SignatureSent(SavedLogin {
                mechanism: Mechanism::Scram(ScramVersion::Sha256, false),
                user: Some(user),
                acts_for,
            });
        }
        if let Some(asked) = self.asked_init() {
            let nonce = asked.1;
            return SavedStage::ResponseAsked {
                mechanism: asked.0,
                nonce,
            };
        }
        match self.exchange() {
            Some((version, challenge)) => SavedStage::ChallengeOpen { version, challenge },
            None => SavedStage::NotStarted,
        }
    }

    /// Returns the mechanism and the nonce of the init that was asked for its initial response, if the struct holds one.
    #[tactic(auto, using(crate::proofs::ExchangeLemmas::reads_asked))]
    pub fn asked_init(&self) -> Option<(Mechanism, [u8; 32])>
        ensures { MatchOption result ((mechanism : MechanismOf) (nonce : List ℕ) → ¬ HasAsked self.now mechanism nonce)
            (λ asked. HasAsked self.now asked.0 asked.1) }
    {
        if self.state != 5 || self.nonce_len != 32 {
            return None;
        }
        let Ok(name) = str::from_utf8(head(&self.first, self.first_len)?) else {
            return None;
        };
        let mechanism = Mechanism::of_name(name)?;
        let mut nonce = [0; 32];
        nonce.copy_from_slice(&self.nonce[..32]);
        Some((mechanism, nonce))
    }

    /// Returns the user to whom the server's signature was sent in a challenge, and the identity that it acts for, if the
    /// struct holds both.
    #[tactic(auto, using(crate::proofs::IdentityLemmas::signed))]
    fn signed_user(&self) -> Option<(&str, Option<&str>)>
        ensures { MatchOption result ((user : List ℕ) (acts_for : Option (List ℕ)) → ¬ HasSigned self.now user acts_for)
            (λ signed. HasSigned self.now signed.0.now (shown signed.1)) }
    {
        if self.state != 4 {
            return None;
        }
        let user = head(&self.user, self.user_len)?;
        let acts_for = self.identity()?;
        match str::from_utf8(user) {
            Ok(user) => Some((user, acts_for)),
            Err(_) => None,
        }
    }

    /// Turns the struct into that of a server that has sent its signature to this user in a challenge, who acts for this
    /// identity. If a name does not fit, returns false, and nothing changes.
    #[tactic(auto, using(crate::proofs::IdentityLemmas::signs))]
    fn hold_signed(&mut self, user: &str, acts_for: Option<&str>) -> bool
        ensures user { MatchBool result (HasSigned self.new user.now (shown acts_for.entry))
            ((256 < length user.now) ⊎ ¬ IdentityHasRoom (shown acts_for.entry)) }
        ensures writes { MatchBool result (self.new ≡ signed_struct user.now (shown acts_for.entry)) (self.new ≡ self.old) }
    {
        let _ = identity_text(acts_for);
        if !self.hold_user(4, user, acts_for) {
            return false;
        }
        true
    }

    /// Turns the struct into that of a server that has asked an init of this mechanism, with this nonce, for its initial
    /// response.
    fn hold_asked(&mut self, mechanism: Mechanism, nonce: &[u8; 32])
        ensures shows { HasAsked self.new mechanism nonce.now }
        ensures writes { self.new ≡ asked_struct mechanism nonce.now }
    {
        self.ask(mechanism, nonce);
    }

    /// Writes the struct of such a server.
    #[tactic(auto, using(crate::proofs::ExchangeLemmas::asks))]
    fn ask(&mut self, mechanism: Mechanism, nonce: &[u8; 32])
        ensures { self.new ≡ asked_struct mechanism nonce.now }
    {
        let name = mechanism.name().as_bytes();
        self.clear();
        self.state = 5;
        self.nonce_len = 32;
        self.first_len = name.len() as u32;
        fill(&mut self.nonce, nonce);
        fill(&mut self.first, name);
    }

    /// Turns the struct into that of a server that has sent its signature to the user of a login. If there is none or a name
    /// does not fit, returns false, and nothing changes.
    #[tactic(auto, using(crate::proofs::ExchangeLemmas::of_login))]
    fn sign_for(&mut self, login: &SavedLogin<'_>) -> bool
        ensures shows { MatchBool result
            (ShowsSigned self.new (saved_login login.now).user (saved_login login.now).acts_for) ((server : ScramStruct)
            → ¬ ShowsSigned server (saved_login login.now).user (saved_login login.now).acts_for) }
        ensures writes { MatchBool result
            (self.new ≡ struct_where 4 (saved_login login.now).user (saved_login login.now).acts_for) (self.new ≡ self.old) }
    {
        match login.user {
            Some(user) => self.hold_signed(user, login.acts_for),
            None => false,
        }
    }

    /// Turns the struct into that of a server that has logged in the user of a login, or nobody. If a name does not fit,
    /// returns false, and nothing changes.
    #[tactic(auto, using(crate::proofs::ExchangeLemmas::of_login))]
    fn log_in_for(&mut self, login: &SavedLogin<'_>) -> bool
        ensures shows { MatchBool result
            (ShowsUser self.new (saved_login login.now).user (saved_login login.now).acts_for) ((server : ScramStruct)
            → ¬ ShowsUser server (saved_login login.now).user (saved_login login.now).acts_for) }
        ensures writes { MatchBool result
            (self.new ≡ struct_where 2 (saved_login login.now).user (saved_login login.now).acts_for) (self.new ≡ self.old) }
    {
        match login.user {
            Some(user) => self.hold_authenticated(user, login.acts_for),
            None => {
                self.clear();
                true
            }
        }
    }

    /// Turns the struct into that of a server whose login has come this far. If a text does not fit, returns false, and
    /// nothing changes. The fields are written in place, since copies of the struct would be a measurable part of a login.
    #[tactic(auto, using(crate::proofs::ExchangeLemmas::of_stage))]
    pub fn hold_stage(&mut self, stage: &SavedStage<'_>) -> bool
        ensures shows { MatchBool result (ShowsStage self.new (saved_stage stage.now))
            ((server : ScramStruct) → ¬ ShowsStage server (saved_stage stage.now)) }
        ensures writes { MatchBool result (self.new ≡ stage_struct (saved_stage stage.now)) (self.new ≡ self.old) }
    {
        match stage {
            SavedStage::NotStarted => {
                self.clear();
                true
            }
            SavedStage::ResponseAsked { mechanism, nonce } => {
                self.hold_asked(*mechanism, nonce);
                true
            }
            SavedStage::ChallengeOpen { version, challenge } => {
                self.hold_challenge(number_of(*version), challenge)
            }
            SavedStage::SignatureSent(login) => self.sign_for(login),
            SavedStage::Authenticated(login) => self.log_in_for(login),
        }
    }
}
