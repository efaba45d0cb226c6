//! Symbols (AMQP 1.0, part 1, section 1.6.21).

ghost use Rattle.std.specs.Prelude.{◌≡◌, IfOk, IfErr, IsAscii};
ghost use Rattle.fe2o3_sasl_wire.specs.declared.amqp_types.symbols.SymbolError.TheVariants.{OutOfMemory};

use crate::OutOfMemory;
use std::alloc::{AllocError, AllocFailed, Global};
use std::marker::Model;
use thiserror::Error;

/// A text of ASCII characters, of any length.
#[derive(Debug, Drop)]
pub struct Symbol {
    text: String,
}

impl Model for Symbol {
    ghost use Rattle.std.specs.Prelude.{List, ℕ, IsAscii, string_bytes};

    ghost Value = { List ℕ };

    ghost view = { λ symbol. string_bytes symbol.text };

    ghost invariant = { λ symbol. IsAscii (string_bytes symbol.text) };
}

/// Why a text is not a symbol.
#[derive(Clone, Copy, Debug, PartialEq, Eq, Error)]
pub enum SymbolError {
    /// A byte of the text is not ASCII.
    #[error("NotAscii")]
    NotAscii,

    /// An allocation failed. The call can be repeated.
    #[error("OutOfMemory")]
    OutOfMemory,
}

impl From<AllocError> for SymbolError {
    ghost from_gives = { λ _ error. error ≡ OutOfMemory };

    fn from(_error: AllocError) -> Self {
        SymbolError::OutOfMemory
    }
}

impl<T: Drop> From<AllocFailed<T>> for SymbolError {
    ghost from_gives = { λ _ error. error ≡ OutOfMemory };

    fn from(_error: AllocFailed<T>) -> Self {
        SymbolError::OutOfMemory
    }
}

impl Symbol {
    ghost use Rattle.fe2o3_sasl_wire.specs.AmqpTypes.{RefusesText};

    /// Returns the symbol of a text. NotAscii if a byte of the text is 128 or more (AMQP 1.0, part 1, section 1.6.21);
    /// OutOfMemory if all are ASCII and allocation fails.
    pub fn new(alloc: Global, text: &str) -> Result<Symbol, SymbolError>
        ensures ok { IfOk result (λ symbol. symbol ≡ text.now) }
        ensures ascii { IfOk result (λ _. IsAscii text.now) }
        ensures err { IfErr result (λ fault. RefusesText text.now fault) }
    {
        if !text.is_ascii() {
            return Err(SymbolError::NotAscii);
        }
        Ok(Symbol::of_ascii(alloc, text)?)
    }

    /// Returns the symbol of a text that is ASCII.
    pub(crate) fn of_ascii(alloc: Global, text: &str) -> Result<Symbol, OutOfMemory>
        requires { IsAscii text.now }
        ensures { IfOk result (λ symbol. symbol ≡ text.now) }
    {
        Ok(Symbol {
            text: String::from_str(alloc, text)?,
        })
    }

    /// Returns the text of the symbol, which is ASCII.
    pub fn as_str(&self) -> &str
        ensures text { result.now ≡ self.now }
        ensures ascii { IsAscii self.now }
    {
        self.text.as_str()
    }
}

impl Clone for Symbol {
    ghost is_clone = { λ symbol copy. copy ≡ symbol };

    fn clone(&self) -> Result<Symbol, AllocError> {
        Ok(Symbol {
            text: self.text.clone()?,
        })
    }
}

impl PartialEq for Symbol {
    ghost use Rattle.std.specs.Prelude.{nat_eq};
    ghost use Rattle.std.specs.Cmp;
    ghost use Rattle.std.specs.Cmp.Lexicographic.{pointwise, nat_list_eq_equiv};

    ghost eq = { pointwise nat_eq };

    ghost laws = { Cmp.partial_equiv_from_equiv nat_list_eq_equiv };

    fn eq(&self, other: &Symbol) -> bool {
        self.text == other.text
    }
}

impl Eq for Symbol {
    ghost use Rattle.std.specs.Cmp.Lexicographic.{nat_list_eq_equiv};

    ghost laws = { nat_list_eq_equiv };
}
