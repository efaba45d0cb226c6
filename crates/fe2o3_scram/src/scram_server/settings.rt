//! Reads the settings of a server.

ghost use Rattle.std.specs.Prelude.{◌≡◌, option_map};
ghost use Rattle.fe2o3_scram.specs.ActingRights.{may_act};
ghost use Rattle.fe2o3_scram.specs.ScramServer.{rights_in, rules_in};

use crate::provider::ScramCredentialProvider;
use crate::scram_messages::ServerRules;
use crate::scram_server::ScramAuthenticator;

impl<C: ScramCredentialProvider> ScramAuthenticator<C> {
    /// Returns what the server accepts in a client's messages.
    pub fn rules(&self) -> ServerRules
        ensures { result ≡ rules_in self.now }
    {
        self.rules
    }

    /// Returns whether the user may act for this identity at this server, or for itself if it is `None`.
    pub fn may_act(&self, user: &str, acts_for: Option<&str>) -> bool
        ensures { result ≡ may_act (rights_in self.now) user.now (option_map (λ name. name.now) acts_for.entry) }
    {
        self.rights.may_act(user, acts_for)
    }
}
