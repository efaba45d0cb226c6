//! `record`: the record of a password.

ghost use Rattle.std.specs.Prelude.{◌≡◌, IfOk, length};
ghost use Rattle.scram_lib.specs.Forms.{IsNewRecord, IsNewSalt};

use crate::form::Form;
use crate::task::Process;
use fe2o3_scram::{Meter, Password, ScramRecord, ScramVersion};
use scram_base_lib::backend::Backend;
use scram_base_lib::stop::Stop;
use scram_base_lib::store::System;
use scram_base_lib::wire::hex_bytes;
use std::io::{BufRead, Write};
use std::random::RandomSource;

/// The arguments of a new record.
#[derive(Clone, Copy)]
pub struct NewRecord<'a> {
    /// The length of a random salt, or `None` for that of the first record.
    pub salt_len: Option<usize>,
    /// The iteration count, or `None` for that of the first record.
    pub iterations: Option<u32>,
    /// The salt in hexadecimal, or `None` for a random one.
    pub salt: Option<&'a str>,
}

impl NewRecord<'_> {
    /// Makes the record of a password for a version. It has the form of the arguments, or otherwise this one.
    pub fn make<R: RandomSource + AllocGlobal>(
        &self,
        rt: &R,
        version: ScramVersion,
        first: Form,
        password: &str,
    ) -> Result<ScramRecord, Stop>
        ensures { IfOk result (IsNewRecord self.now version first password.now) }
    {
        let salt = self.salt(rt, first)?;
        let iterations = self.iterations.unwrap_or(first.iterations);
        let (password, meter) = (Password::Prepared(password), &mut Meter::new());
        Ok(ScramRecord::from_password(rt.alloc(), version, password, &salt, iterations, meter)?)
    }

    /// Returns the salt of the argument, or random bytes: as many as the argument says, or otherwise as this form has.
    fn salt<R: RandomSource + AllocGlobal>(&self, rt: &R, first: Form) -> Result<Vec<u8>, Stop>
        ensures { IfOk result (λ salt. IsNewSalt self.now first salt.items) }
    {
        match self.salt {
            Some("") => Err(Stop::WrongSalt),
            Some(digits) => hex_bytes(rt.alloc(), digits, Stop::WrongSalt),
            None => random_salt(rt, self.salt_len.unwrap_or(first.salt_len)),
        }
    }

    /// Returns the form of the new record where the first one has this form.
    pub fn form(&self, first: Form) -> Form {
        let salt_len = match self.salt {
            Some(digits) => digits.len() / 2,
            None => self.salt_len.unwrap_or(first.salt_len),
        };
        let iterations = self.iterations.unwrap_or(first.iterations);
        Form {
            salt_len,
            iterations,
        }
    }
}

/// Returns random bytes.
fn random_salt<R: RandomSource + AllocGlobal>(rt: &R, len: usize) -> Result<Vec<u8>, Stop>
    ensures { IfOk result (λ salt. length salt.items ≡ len) }
{
    let mut salt = vec![in rt.alloc(); 0; len]?;
    rt.fill_bytes(&mut salt).map_err(Stop::of_random)?;
    Ok(salt)
}

impl<R: System, I: BufRead, O: Write, E: Write, B: Backend<R>> Process<'_, R, I, O, E, B> {
    /// Reads a password, and prints the text of its record.
    pub(crate) fn print_record(
        &mut self,
        version: ScramVersion,
        record: &NewRecord<'_>,
    ) -> Result<(), Stop> {
        let password = self.new_password()?;
        let record = record.make(self.rt, version, Form::new(), password.as_str())?;
        let text = record.to_text(self.rt.alloc())?;
        writeln!(self.output, "{text}").map_err(Stop::of_output)
    }
}
