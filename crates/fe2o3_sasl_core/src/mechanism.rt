//! The mechanisms of clients and servers, and their names as symbols (AMQP 1.0, part 5, section 5.3.3.1).

ghost use Rattle.std.specs.Prelude.{◌≡◌, ◌≢◌, IfOk, IsAscii, MatchOption};
ghost use Rattle.fe2o3_sasl_core.specs.Mechanisms.{mechanism_symbol};
ghost use Rattle.fe2o3_sasl_core.specs.declared.mechanism.Mechanism.{Mechanism as MechanismOf};

use crate::OutOfMemory;
use fe2o3_sasl_wire::{Symbol, SymbolError};
use fe2o3_scram::hmac::{
    SCRAM_SHA_1, SCRAM_SHA_1_PLUS, SCRAM_SHA_256, SCRAM_SHA_256_PLUS, SCRAM_SHA_512,
    SCRAM_SHA_512_PLUS, ScramVersion,
};
use std::alloc::Global;

/// A mechanism.
#[derive(Clone, Copy, Debug, PartialEq, Eq)]
pub enum Mechanism {
    /// SCRAM by this hash (RFC 5802, RFC 7677), with `-PLUS` or without it. With it, it binds the channel.
    Scram(ScramVersion, bool),

    /// EXTERNAL (RFC 4422, appendix A).
    External,

    /// PLAIN (RFC 4616), which shows the password to the server.
    Plain,

    /// ANONYMOUS (RFC 4505), which proves nothing.
    Anonymous,
}

/// The name of ANONYMOUS (RFC 4505).
pub(crate) const ANONYMOUS: &str = "ANONYMOUS";

/// The name of PLAIN (RFC 4616).
pub(crate) const PLAIN: &str = "PLAIN";

/// The name of EXTERNAL (RFC 4422, appendix A).
pub(crate) const EXTERNAL: &str = "EXTERNAL";

/// Returns the symbol of an ASCII name.
pub(crate) fn symbol_of(alloc: Global, name: &str) -> Result<Symbol, OutOfMemory>
    requires { IsAscii name.now }
    ensures { IfOk result (λ symbol. symbol ≡ name.now) }
{
    match Symbol::new(alloc, name) {
        Ok(symbol) => Ok(symbol),
        Err(SymbolError::OutOfMemory) => Err(OutOfMemory),
        Err(SymbolError::NotAscii) => unreachable!(),
    }
}

impl Mechanism {
    /// Returns the mechanism's name.
    pub fn name(self) -> &'static str
        ensures { result.now ≡ mechanism_symbol self }
    {
        match self {
            Mechanism::Scram(version, plus) => version.mechanism_with(plus),
            Mechanism::External => EXTERNAL,
            Mechanism::Plain => PLAIN,
            Mechanism::Anonymous => ANONYMOUS,
        }
    }

    /// Returns the mechanism of this name.
    pub fn of_name(name: &str) -> Option<Self>
        ensures { MatchOption result ((mechanism : MechanismOf) → mechanism_symbol mechanism ≢ name.now)
            (λ mechanism. mechanism_symbol mechanism ≡ name.now) }
    {
        match name {
            SCRAM_SHA_512_PLUS => Some(Mechanism::Scram(ScramVersion::Sha512, true)),
            SCRAM_SHA_256_PLUS => Some(Mechanism::Scram(ScramVersion::Sha256, true)),
            SCRAM_SHA_1_PLUS => Some(Mechanism::Scram(ScramVersion::Sha1, true)),
            SCRAM_SHA_512 => Some(Mechanism::Scram(ScramVersion::Sha512, false)),
            SCRAM_SHA_256 => Some(Mechanism::Scram(ScramVersion::Sha256, false)),
            SCRAM_SHA_1 => Some(Mechanism::Scram(ScramVersion::Sha1, false)),
            EXTERNAL => Some(Mechanism::External),
            PLAIN => Some(Mechanism::Plain),
            ANONYMOUS => Some(Mechanism::Anonymous),
            _ => None,
        }
    }
}
