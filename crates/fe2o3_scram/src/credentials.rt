//! What a server stores for its users (RFC 5802, section 3).

ghost use Rattle.std.specs.Prelude.{◌≡◌, ◌↔◌, ◌⊎◌, [], ◌∷◌, IfOk, IfErr};
ghost use Rattle.std.specs.String.{string_bytes};
ghost use Rattle.fe2o3_scram.specs.Credentials.{record_of};
ghost use Rattle.fe2o3_scram.specs.SaslprepAscii.{IsPrintable};

pub mod mock_record;
pub mod multi_record_lines;
pub mod multi_record_store;
pub mod password_check;
pub mod record_lines;
pub mod record_store;
pub mod record_text;
pub mod scram_record;
pub mod user_record;
mod users;

pub(crate) use crate::credentials::mock_record::MockValues;
pub use crate::credentials::multi_record_store::MultiRecordStore;
pub use crate::credentials::record_lines::{ReadLinesError, ReadLinesErrorKind, WriteLinesError};
pub use crate::credentials::record_store::{AddRecordError, RecordStore};
pub use crate::credentials::record_text::RecordTextError;
pub use crate::credentials::scram_record::ScramRecord;
pub use crate::credentials::user_record::UserRecord;
use crate::hmac::{Meter, ScramVersion};
pub use crate::keys::RecordError;
use crate::passwords::Password;
pub use crate::provider::{ScramCredentialProvider, StoredPassword};
use crate::scram_messages::error::ServerScramErrorKind;
use std::alloc::{AllocError, Global};
use std::fmt;
use std::marker::Model;

/// The iteration count of a credential that names none: the minimum that RFC 7677, section 4, asks for.
pub const DEFAULT_SCRAM_ITERATIONS: u32 = 4096;

/// The length in bytes of the salt of a new record, and of the mock salt of an unknown user. All languages and the
/// program `scram` take it. Credentials that make their own salt ([`SingleScramCredential`]) have 32 bytes.
pub const DEFAULT_SALT_LEN: usize = 16;

/// The credential of one user, made of the user's password.
#[derive(Drop)]
pub struct SingleScramCredential {
    stored: UserRecord,
}

impl Model for SingleScramCredential {
    ghost use Rattle.fe2o3_scram.specs.Credentials.{Store};

    ghost Value = { Store };

    ghost view = { λ credential. credential.stored };
}

impl SingleScramCredential {
    /// Makes the credential of a user with this password, with 4096 iterations (RFC 5802, section 3). The user name is
    /// plain, not escaped. The salt is new for each credential. Only the keys are kept, not the password.
    ///
    /// The errors are `NormalizeError`, exactly if the password is not printable ASCII (RFC 4013, section 2), and
    /// `OutOfMemory`.
    pub fn new(
        alloc: Global,
        username: String,
        password: &str,
        scram_version: ScramVersion,
        salt: [u8; 32],
    ) -> Result<Self, ServerScramErrorKind>
        ensures ok { IfOk result (λ credential. IsPrintable password.now
            × (credential ≡ record {
              version = scram_version;
              records =
                  (string_bytes username, record_of scram_version password.now salt 4096) ∷ [];
            })) }
        ensures not_printable { (result ≡ Err ServerScramErrorKind.NormalizeError) ↔ ¬ IsPrintable password.now }
        ensures err { IfErr result (λ kind. (kind ≡ ServerScramErrorKind.NormalizeError)
            ⊎ (kind ≡ ServerScramErrorKind.OutOfMemory)) }
    {
        let kept = ScramRecord::from_password(
            alloc,
            scram_version,
            Password::Typed(password),
            &salt,
            DEFAULT_SCRAM_ITERATIONS,
            &mut Meter::new(),
        );
        match kept {
            Ok(kept) => Ok(Self {
                stored: UserRecord::new(username, kept),
            }),
            Err(RecordError::NormalizeError) => Err(ServerScramErrorKind::NormalizeError),
            Err(RecordError::ZeroIterations) => unreachable!(),
            Err(RecordError::OutOfMemory) => Err(ServerScramErrorKind::OutOfMemory),
        }
    }
}

impl fmt::Debug for SingleScramCredential {
    /// Writes the version, the user name and the iteration count, and no key: with the keys anyone can impersonate the
    /// server.
    fn fmt<W: fmt::Write>(&self, f: &mut fmt::Formatter<W>) -> fmt::Result {
        write!(
            f,
            "SingleScramCredential {{ scram_version: {:?}, username: {:?}, iterations: {}, .. }}",
            self.stored.scram_version(),
            self.stored.username(),
            self.stored.iterations()
        )
    }
}

impl Clone for SingleScramCredential {
    ghost is_clone = { λ credential copy. copy ≡ credential };

    fn clone(&self) -> Result<Self, AllocError> {
        Ok(Self {
            stored: self.stored.clone()?,
        })
    }
}

impl ScramCredentialProvider for SingleScramCredential {
    ghost meaning = { λ credential. credential };

    ghost clone_keeps = { λ provider copy same. same };

    fn scram_version(&self) -> &ScramVersion {
        self.stored.scram_version()
    }

    fn get_stored_password<'a>(&'a self, username: &str) -> Option<StoredPassword<'a>> {
        self.stored.get_stored_password(username)
    }
}
