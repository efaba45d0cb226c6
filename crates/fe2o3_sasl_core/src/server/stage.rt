//! How far a login has come at a server.

ghost use Rattle.std.specs.Prelude.{◌≡◌, Some, IfOk, option_map, string_bytes};
ghost use Rattle.fe2o3_sasl_core.specs.Servers.{exchange_login, server_login, stage_of};
ghost use Rattle.fe2o3_sasl_core.specs.private.ServerMoves.{after, authenticated, restarted, signed};

use crate::mechanism::Mechanism;
use fe2o3_scram::ServerExchange;
use fe2o3_scram::hmac::ScramVersion;
use std::alloc::AllocError;

/// Who has logged in: by this mechanism, as this user, or as nobody by ANONYMOUS, for this identity, or for itself.
#[derive(Drop)]
pub(crate) struct LoginOf {
    pub(crate) mechanism: Mechanism,
    pub(crate) user: Option<String>,
    pub(crate) acts_for: Option<String>,
}

impl Clone for LoginOf {
    ghost is_clone = { λ login copy. server_login copy ≡ server_login login };

    fn clone(&self) -> Result<Self, AllocError> {
        Ok(Self {
            mechanism: self.mechanism,
            user: self.user.clone()?,
            acts_for: self.acts_for.clone()?,
        })
    }
}

/// How far a login has come.
#[derive(Drop)]
pub(crate) enum Stage {
    /// No init is accepted.
    Start,

    /// An init without an initial response was answered by an empty challenge.
    Asked {
        mechanism: Mechanism,
        nonce: [u8; 32],
    },

    /// A challenge of SCRAM is open.
    Open {
        version: ScramVersion,
        plus: bool,
        exchange: ServerExchange,
    },

    /// The signature of an accepted exchange was sent in a challenge, which the client has not answered.
    Signed(LoginOf),

    /// A user has logged in.
    Authenticated(LoginOf),
}

/// What an answer changes.
#[derive(Drop)]
pub(crate) enum Move {
    /// Nothing.
    Stay,

    /// The stage is this one from then on.
    To(Stage),

    /// The signature of the open exchange was sent in a challenge.
    Sign,

    /// The user of the open exchange, or of the signature that was sent, has logged in.
    Authenticate,
}

impl Stage {
    /// Returns the stage after the signature of the open exchange was sent in a challenge.
    fn signed(self) -> Stage
        ensures { stage_of result ≡ signed (stage_of self) }
    {
        match self {
            Stage::Open {
                version,
                plus,
                exchange,
            } => Stage::Signed(login_by(version, plus, exchange)),
            other => other,
        }
    }

    /// Returns the stage in which the user of the open exchange, or of the signature that was sent, has logged in.
    fn authenticated(self) -> Stage
        ensures { stage_of result ≡ authenticated (stage_of self) }
    {
        match self {
            Stage::Open {
                version,
                plus,
                exchange,
            } => Stage::Authenticated(login_by(version, plus, exchange)),
            Stage::Signed(login) => Stage::Authenticated(login),
            other => other,
        }
    }
}

impl Move {
    /// Returns the stage after this one.
    pub(crate) fn after(self, stage: Stage) -> Stage
        ensures { stage_of result ≡ after (stage_of stage) self }
    {
        match self {
            Move::Stay => stage,
            Move::To(next) => next,
            Move::Sign => stage.signed(),
            Move::Authenticate => stage.authenticated(),
        }
    }

    /// Returns this move, but the server starts again unless it moves to a stage.
    pub(crate) fn or_restart(self) -> Move
        ensures { result ≡ restarted self }
    {
        match self {
            Move::To(next) => Move::To(next),
            Move::Stay | Move::Sign | Move::Authenticate => Move::To(Stage::Start),
        }
    }
}

impl Clone for Stage {
    ghost is_clone = { λ stage copy. stage_of copy ≡ stage_of stage };

    fn clone(&self) -> Result<Self, AllocError> {
        Ok(match self {
            Stage::Start => Stage::Start,
            Stage::Asked { mechanism, nonce } => Stage::Asked {
                mechanism: *mechanism,
                nonce: *nonce,
            },
            Stage::Open {
                version,
                plus,
                exchange,
            } => Stage::Open {
                version: *version,
                plus: *plus,
                exchange: exchange.clone()?,
            },
            Stage::Signed(login) => Stage::Signed(login.clone()?),
            Stage::Authenticated(login) => Stage::Authenticated(login.clone()?),
        })
    }
}

/// Returns who an accepted exchange logs in.
fn login_by(version: ScramVersion, plus: bool, exchange: ServerExchange) -> LoginOf
    ensures { server_login result ≡ exchange_login version plus exchange }
{
    let (user, acts_for) = exchange.into_names();
    LoginOf {
        mechanism: Mechanism::Scram(version, plus),
        user: Some(user),
        acts_for,
    }
}
