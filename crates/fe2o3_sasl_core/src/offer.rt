//! The mechanisms that a server offers (AMQP 1.0, part 5, section 5.3.3.1).

ghost use Rattle.std.specs.Prelude.{◌↔◌, IsTrue, List, ℕ};
ghost use Rattle.std.specs.List.{Contains};

use fe2o3_sasl_wire::{SaslMechanisms, SymbolsView};

/// A list of mechanisms that a server offers: that of a frame, or of a frame that is read in place.
pub trait Offer {
    ghost names: { Self → List (List ℕ) };

    /// Returns whether a mechanism of this name is offered.
    fn offers(&self, name: &str) -> bool
        ensures { IsTrue result ↔ Contains (names self.now) name.now };
}

impl Offer for SymbolsView<'_> {
    ghost names = { λ symbols. symbols };

    fn offers(&self, name: &str) -> bool {
        self.contains(name)
    }
}

impl Offer for SaslMechanisms {
    ghost names = { λ mechanisms. mechanisms.sasl_server_mechanisms.0.items };

    fn offers(&self, name: &str) -> bool {
        has_name(self, name)
    }
}

/// Returns whether the name is among the mechanisms.
fn has_name(mechanisms: &SaslMechanisms, name: &str) -> bool
    ensures { IsTrue result ↔ Contains mechanisms.now.sasl_server_mechanisms.0.items name.now }
{
    for symbol in &mechanisms.sasl_server_mechanisms.0 {
        if symbol.as_str() == name {
            return true;
        }
    }
    false
}
