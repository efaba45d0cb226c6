//! Passwords, typed or already prepared (RFC 4013; RFC 5802, section 2.2).

ghost use Rattle.std.specs.Prelude.{◌≡◌, MatchResult};
ghost use Rattle.fe2o3_scram.specs.Passwords.{IsNormal, password_bytes, password_of};

use crate::saslprep_ascii::{NormalizeError, saslprep};

/// A password, typed or already prepared (RFC 4013; RFC 5802, section 2.2).
#[derive(Clone, Copy)]
pub enum Password<'a> {
    /// The password as the user typed it. It is prepared by the ASCII subset of SASLprep, which leaves
    /// printable ASCII unchanged. Where it is needed, any other text is rejected by `NormalizeError`.
    Typed(&'a str),

    /// The password as its caller prepared it, for example by the crate `saslprep` (RFC 4013). Any text is accepted and
    /// used unchanged.
    Prepared(&'a str),
}

impl<'a> Password<'a> {
    /// Returns the text of the password, in either form.
    pub fn as_str(self) -> &'a str
        ensures { result.now ≡ password_bytes (password_of self.entry) }
    {
        match self {
            Password::Typed(text) | Password::Prepared(text) => text,
        }
    }

    /// Returns the text that keys are made of, or `NormalizeError` for a typed password that is not
    /// printable ASCII.
    pub(crate) fn normalized(self) -> Result<&'a str, NormalizeError>
        ensures { MatchResult result
            (λ text. IsNormal (password_of self.entry) × (text.now ≡ password_bytes (password_of self.entry)))
            (λ _. ¬ IsNormal (password_of self.entry)) }
    {
        match self {
            Password::Typed(text) => saslprep(text),
            Password::Prepared(text) => Ok(text),
        }
    }
}
