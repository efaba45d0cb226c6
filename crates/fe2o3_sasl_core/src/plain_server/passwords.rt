//! Which password a server of PLAIN tests for the password of a message (RFC 4616, section 2).

ghost use Rattle.std.specs.Prelude.{◌≡◌, List, ℕ, IfOk, IfErr, MatchOption};
ghost use Rattle.std.specs.Str.{IsAscii};
ghost use Rattle.fe2o3_scram.specs.Passwords.{PasswordText, Prepared as PreparedText};
ghost use Rattle.fe2o3_sasl_core.specs.PlainServer.{TestedPassword, prepared_bytes};
ghost use Rattle.fe2o3_sasl_core.specs.declared.plain_server.passwords.PlainPasswords.TheVariants.{Saslprep as FormSaslprep};

use crate::OutOfMemory;
use fe2o3_scram::secrets::SecretText;
use saslprep::{SaslprepError, Unassigned, saslprep};
use std::alloc::Global;
use std::borrow::CowStr;

/// Which password a server of PLAIN tests for the password of a message. User names are compared as received.
#[derive(Clone, Copy, Debug, PartialEq, Eq)]
pub enum PlainPasswords {
    /// The password as typed, which is printable ASCII. Every other password is rejected.
    Typed,

    /// The password as received, as a prepared text. It is for clients that prepare their passwords.
    Prepared,

    /// The text that SASLprep (RFC 4013) prepares the password to (RFC 4616, section 2). Unassigned code points are
    /// allowed, as in every query. The records are of prepared passwords. A password that SASLprep rejects, or whose
    /// prepared text is empty, is rejected.
    Saslprep,
}

/// A password that SASLprep has prepared. A text that is not the received one is overwritten with zeros before its memory
/// is freed.
#[derive(Drop)]
pub(crate) enum PreparedPassword<'a> {
    AsReceived(&'a str),
    Changed(SecretText),
}

impl PreparedPassword<'_> {
    /// Returns the text.
    pub(crate) fn as_str(&self) -> &str
        ensures value { result.now ≡ prepared_bytes self.now }
    {
        match self {
            PreparedPassword::AsReceived(text) => text,
            PreparedPassword::Changed(text) => text.as_str(),
        }
    }
}

/// Returns the text that SASLprep prepares the password to, or `None` if SASLprep rejects it or the text is empty. Only
/// a non-ASCII password needs memory.
pub(crate) fn prepare(
    alloc: Global,
    password: &str,
) -> Result<Option<PreparedPassword<'_>>, OutOfMemory>
    ensures text { IfOk result (λ prepared. MatchOption prepared
        ((tested : PasswordText) → ¬ TestedPassword FormSaslprep password.now tested)
        (λ text. TestedPassword FormSaslprep password.now (PreparedText (prepared_bytes text)))) }
    ensures memory { IfErr result (λ _. ¬ IsAscii password.now) }
{
    match saslprep(alloc, password, Unassigned::Allowed) {
        Ok(text) if text.is_empty() => Ok(None),
        Ok(CowStr::Borrowed(text)) => Ok(Some(PreparedPassword::AsReceived(text))),
        Ok(CowStr::Owned(text)) => Ok(Some(PreparedPassword::Changed(SecretText::new(text)))),
        Err(SaslprepError::OutOfMemory) => Err(OutOfMemory),
        Err(_) => Ok(None),
    }
}
