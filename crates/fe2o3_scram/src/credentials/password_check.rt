//! Tests a password against a record (RFC 5802, section 3).

ghost use Rattle.std.specs.Prelude.{◌≡◌, ◌<◌, ◌≤◌, ◌+◌, ◌^◌, ◌↔◌, IsTrue};
ghost use Rattle.fe2o3_scram.specs.Credentials.{CheckingCosts, MeetsRecord, kept, record_of, record_of_salted};
ghost use Rattle.fe2o3_scram.specs.Passwords.{password_of};

use crate::hmac::{Meter, ScramVersion};
use crate::passwords::Password;
use crate::provider::StoredPassword;
use crate::same_bytes::same_bytes;

impl StoredPassword<'_> {
    /// Returns whether this record is of the password, for the provider's version. A server that receives the password
    /// itself, for example by PLAIN (RFC 4616), asks this. The result is `false` for a typed password that is not
    /// printable ASCII, and for every password if the iteration count is 0 or a key is not as long as a digest. The
    /// call allocates nothing.
    ///
    /// The meter, of at most 2^63, counts the HMAC values: two more than the iterations, and none for a typed password
    /// that is not printable ASCII or if the count is 0.
    ///
    /// Keys are compared over the whole length, whatever the bytes are. That is read in the code and not proved; no
    /// claim is made about time.
    pub fn verify_password(
        &self,
        scram_version: ScramVersion,
        password: Password<'_>,
        meter: &mut Meter,
    ) -> bool
        requires { meter.old ≤ 2 ^ 63 }
        ensures verdict { IsTrue result ↔ MeetsRecord scram_version (password_of password.entry) (kept self.now) }
        ensures cost { CheckingCosts (password_of password.entry) self.now.iterations meter.old meter.new }
    {
        let Ok(text) = password.normalized() else {
            return false;
        };
        if self.iterations == 0 {
            return false;
        }
        self.has_keys_of(scram_version, text, meter)
    }

    /// Returns whether the keys of this record are those of a salted password (RFC 5802, section 3), for the provider's
    /// version. The caller computed the salted password with the salt and the iteration count of this record, for
    /// example in a library that uses SHA instructions. The call allocates nothing. It tests neither the iteration
    /// count nor the length of the salted password, which is any bytes: that of a login is as long as a digest.
    ///
    /// The meter has to be below 2^64 - 2 before the call. It counts two HMAC values.
    ///
    /// Keys are compared over the whole length, whatever the bytes are. That is read in the code and not proved; no
    /// claim is made about time.
    pub fn verify_salted_password(
        &self,
        scram_version: ScramVersion,
        salted_password: &[u8],
        meter: &mut Meter,
    ) -> bool
        requires { meter.old + 2 < 2 ^ 64 }
        ensures same { IsTrue result ↔ (record_of_salted scram_version salted_password.now self.now.salt.now
            self.now.iterations ≡ kept self.now) }
        ensures counted { meter.new ≡ meter.old + 2 }
    {
        let (client_key, server_key) = scram_version.client_and_server_key(salted_password, meter);
        let stored_key = scram_version.stored_key(client_key.as_slice());
        let is_stored_key = same_bytes(stored_key.as_slice(), self.stored_key);
        let is_server_key = same_bytes(server_key.as_slice(), self.server_key);
        is_stored_key && is_server_key
    }

    /// Returns whether the keys are those of the password with this salt and this count, of at least 1.
    fn has_keys_of(&self, scram_version: ScramVersion, password: &str, meter: &mut Meter) -> bool
        requires some { 1 ≤ self.now.iterations }
        requires room { meter.old ≤ 2 ^ 63 }
        ensures same { IsTrue result ↔ (record_of scram_version password.now self.now.salt.now self.now.iterations
            ≡ kept self.now) }
        ensures counted { meter.new ≡ meter.old + (self.now.iterations + 2) }
    {
        let salted_password = scram_version.salted_password(
            password.as_bytes(),
            self.salt,
            self.iterations,
            meter,
        );
        self.verify_salted_password(scram_version, salted_password.as_slice(), meter)
    }
}
