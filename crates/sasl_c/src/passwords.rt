//! A password as C passes it: its bytes, and the number of its form (RFC 5802, section 2.2).

ghost use Rattle.std.specs.Prelude.{◌≡◌, ◌≢◌, IfErr, MatchResult};
ghost use Rattle.fe2o3_scram.specs.Passwords.{password_of};
ghost use Rattle.fe2o3_scram.specs.Readings.{IsFirst, NoneHolds};
ghost use Rattle.sasl_c.specs.Passwords.{IsPassword, password_tests};
ghost use Rattle.sasl_c.specs.Status.{record_status};
ghost use Rattle.sasl_c.specs.declared.status.Status.TheVariants.{OutOfMemory as StatusOutOfMemory};

use crate::status::{Status, text};
use fe2o3_scram::{Password, RecordError};

/// Returns the password of these bytes, in a form of enum fe2o3_password_form. `NoSuchChoice` for another form, and
/// `NotUtf8`.
pub fn password_in(form: u32, bytes: &[u8]) -> Result<Password<'_>, Status>
    ensures tested { MatchResult result (λ password. IsPassword form bytes.now (password_of password)
        × NoneHolds (password_tests form bytes.now)) (λ status. IsFirst (password_tests form bytes.now) status) }
    ensures memory { IfErr result (λ status. status ≢ StatusOutOfMemory) }
{
    match form {
        0 => Ok(Password::Typed(text(bytes)?)),
        1 => Ok(Password::Prepared(text(bytes)?)),
        _ => Err(Status::NoSuchChoice),
    }
}

impl From<RecordError> for Status {
    ghost from_gives = { λ why status. status ≡ record_status why };

    fn from(why: RecordError) -> Self {
        match why {
            RecordError::NormalizeError => Status::NotPrintable,
            RecordError::ZeroIterations => Status::ZeroIterations,
            RecordError::OutOfMemory => Status::OutOfMemory,
        }
    }
}
