//! Counts HMAC values.

ghost use Rattle.std.specs.Prelude.{◌≡◌, ◌+◌, ◌<◌, ◌^◌};

use std::marker::Model;

/// Counts computed HMAC values, as the cost of a stranger's message.
#[derive(Debug, Drop)]
pub struct Meter {
    count: u64,
}

impl Model for Meter {
    ghost use Rattle.std.specs.Prelude.{ℕ};

    ghost Value = { ℕ };

    ghost view = { λ meter. meter.count };
}

impl Meter {
    /// Returns a meter at zero.
    pub fn new() -> Meter
        ensures { result ≡ 0 }
    {
        Meter { count: 0 }
    }

    /// Returns how many HMAC values were computed.
    pub fn count(&self) -> u64
        ensures { result ≡ self.now }
    {
        self.count
    }

    /// Counts one more value.
    pub(crate) fn add_one(&mut self)
        requires { self.old + 1 < 2 ^ 64 }
        ensures { self.new ≡ self.old + 1 }
    {
        self.count += 1;
    }
}
