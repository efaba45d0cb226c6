//! What the connections of a server have in common, and what a connection brings.

ghost use Rattle.std.specs.Prelude.{◌≡◌, ◌≤◌, ◌<◌, [], None, MatchResult, false, true};
ghost use Rattle.fe2o3_scram.specs.Mixed.{all_have};
ghost use Rattle.fe2o3_scram.specs.ScramServer.{lent_mock};
ghost use Rattle.fe2o3_sasl_core.specs.MockChoices.{mock_for};
ghost use Rattle.fe2o3_sasl_core.specs.Servers.{has_hash};
ghost use Rattle.fe2o3_sasl_core.specs.declared.plain_server.passwords.PlainPasswords.TheVariants.{Typed as FormTyped};
ghost use Rattle.fe2o3_scram.specs.declared.hmac.ScramVersion.TheVariants.{Sha1, Sha256, Sha512};

use crate::plain_server::PlainPasswords;
use fe2o3_scram::hmac::ScramVersion;
use fe2o3_scram::secrets::SecretBytes;
use fe2o3_scram::{ActingRights, ChannelBindings, MockUsers, MultiRecordStore, SaltTooLong};
use std::alloc::Global;
use std::marker::Model;

/// The longest salt of a mock record, in bytes: a digest of SHA-512.
const MAX_SALT_LEN: usize = 64;

/// Which mechanisms a server may offer. The connection decides too: SCRAM is also offered with `-PLUS` where the connection
/// has a channel, PLAIN only under TLS, and EXTERNAL only where the transport authenticated a name ([`Transport`]).
#[derive(Clone, Copy, Debug, PartialEq, Eq)]
pub struct Mechanisms {
    /// SCRAM-SHA-512.
    pub scram_sha_512: bool,

    /// SCRAM-SHA-256 (RFC 7677).
    pub scram_sha_256: bool,

    /// SCRAM-SHA-1 (RFC 5802), for clients that have no other hash.
    pub scram_sha_1: bool,

    /// PLAIN (RFC 4616), which shows the password to the server.
    pub plain: bool,

    /// ANONYMOUS (RFC 4505), which lets everybody in.
    pub anonymous: bool,

    /// EXTERNAL (RFC 4422, appendix A).
    pub external: bool,
}

impl Mechanisms {
    /// Returns SCRAM-SHA-512 and SCRAM-SHA-256.
    pub fn scram() -> Self
        ensures { result ≡ record {
          scram_sha_512 = true;
          scram_sha_256 = true;
          scram_sha_1 = false;
          plain = false;
          anonymous = false;
          external = false;
        } }
    {
        Self {
            scram_sha_512: true,
            scram_sha_256: true,
            scram_sha_1: false,
            plain: false,
            anonymous: false,
            external: false,
        }
    }

    /// Returns SCRAM by the hashes for which each user of these records has a record, so that no client selects a hash by
    /// which its user cannot log in.
    pub fn of_all_users(records: &MultiRecordStore) -> Self
        ensures { result ≡ record {
          scram_sha_512 = all_have Sha512 records.now;
          scram_sha_256 = all_have Sha256 records.now;
          scram_sha_1 = all_have Sha1 records.now;
          plain = false;
          anonymous = false;
          external = false;
        } }
    {
        Self {
            scram_sha_512: records.all_have(ScramVersion::Sha512),
            scram_sha_256: records.all_have(ScramVersion::Sha256),
            scram_sha_1: records.all_have(ScramVersion::Sha1),
            plain: false,
            anonymous: false,
            external: false,
        }
    }

    /// Returns whether SCRAM by this hash is one of them.
    pub(crate) fn has_hash(&self, version: ScramVersion) -> bool
        ensures { result ≡ has_hash self.now version }
    {
        match version {
            ScramVersion::Sha1 => self.scram_sha_1,
            ScramVersion::Sha256 => self.scram_sha_256,
            ScramVersion::Sha512 => self.scram_sha_512,
        }
    }
}

/// Mock authentication: a server answers an unknown name like a known one, by a mock record (`ScramRecord::mock`).
#[derive(Drop)]
pub struct MockAuthentication {
    secret: SecretBytes,
    salt_len: usize,
    iterations: u32,
}

impl Model for MockAuthentication {
    ghost use Rattle.fe2o3_sasl_core.specs.MockChoices.{MockChoice};

    ghost Value = { MockChoice };

    ghost view = { λ mock. record { secret = mock.secret; salt_len = mock.salt_len; count = mock.iterations } };
}

impl MockAuthentication {
    /// Returns the settings with this secret, of at least 32 random bytes, which is stored beside the records; with the
    /// length of the records' salts, in bytes; and with their iteration count.
    ///
    /// The only error is `SaltTooLong`, for salts of more than 64 bytes.
    pub fn new(secret: Vec<u8>, salt_len: usize, iterations: u32) -> Result<Self, SaltTooLong>
        ensures { MatchResult result (λ mock. (salt_len ≤ 64)
            × (mock ≡ record { secret = secret.items; salt_len = salt_len; count = iterations })) (λ _. 64 < salt_len) }
    {
        if salt_len > MAX_SALT_LEN {
            return Err(SaltTooLong);
        }
        Ok(Self {
            secret: SecretBytes::new(secret),
            salt_len,
            iterations,
        })
    }

    /// Lends the settings for this hash.
    pub(crate) fn users(&self, version: ScramVersion) -> MockUsers<'_>
        ensures { lent_mock result ≡ mock_for version self.now }
    {
        MockUsers {
            scram_version: version,
            secret: self.secret.as_slice(),
            salt_len: self.salt_len,
            iterations: self.iterations,
        }
    }

    /// Returns the iteration count.
    pub(crate) fn iterations(&self) -> u32
        ensures { result ≡ self.now.count }
    {
        self.iterations
    }
}

/// Which challenges a server sends beyond those of its mechanisms. By default it sends none.
#[derive(Clone, Copy, Debug, PartialEq, Eq, Default)]
pub struct ExtraChallenges {
    /// Whether an init without an initial response is answered by an empty challenge. The response is then the initial
    /// response (RFC 4422, section 5). Inits of ANONYMOUS and EXTERNAL may go without one, and are not asked.
    pub initial_response: bool,

    /// Whether the data of an outcome Ok, like SCRAM's server signature, are sent in a challenge before it. An empty
    /// response is then answered by Ok (RFC 4422, section 5). For clients that do not read the data of an outcome.
    pub signature: bool,
}

/// What the connections of a server have in common. They share it: make it once, with [`ServerOptions::new`], and set the
/// fields that differ.
#[derive(Drop)]
pub struct ServerOptions {
    /// Which mechanisms the server may offer.
    pub mechanisms: Mechanisms,

    /// Mock authentication, if unknown names are to be answered like known ones.
    pub mock: Option<MockAuthentication>,

    /// Who may act for whom, by SCRAM and PLAIN.
    pub rights: ActingRights,

    /// Whether a client of SCRAM or PLAIN may name an identity to act for (RFC 5802, section 5.1; RFC 4616, section 2). By
    /// itself it lets each user name only itself.
    pub accept_authzid: bool,

    /// Whether SCRAM reads messages by the whole grammar of RFC 5802, section 7 (`ServerRules::strict`).
    pub strict: bool,

    /// Whether SCRAM rejects what is no extension in the place of one (`ServerRules::reject_misplaced`). It does so in any
    /// case where the connection has a channel.
    pub reject_misplaced: bool,

    /// Whether SCRAM accepts the GS2 flag `y`, where the connection has no channel (`ServerRules::accept_cbind_flag_y`).
    pub accept_cbind_flag_y: bool,

    /// The hash of the records that PLAIN tests passwords against.
    pub plain_version: ScramVersion,

    /// How many times PLAIN hashes the password of an unknown user. `None` is the count of the mock records, or 4096.
    pub plain_iterations: Option<u32>,

    /// The form in which PLAIN tests passwords.
    pub plain_passwords: PlainPasswords,

    /// Which challenges the server sends beyond those of its mechanisms.
    pub extra_challenges: ExtraChallenges,
}

impl ServerOptions {
    /// Returns the options of a server that offers these mechanisms. It has no mock authentication, rejects what is no
    /// extension, and accepts no identity and no flag `y`; PLAIN tests typed passwords against the records of SHA-256; and
    /// no challenge is added.
    pub fn new(alloc: Global, mechanisms: Mechanisms) -> Self
        ensures { result ≡ record {
          mechanisms = mechanisms;
          mock = None;
          rights = [];
          accept_authzid = false;
          strict = false;
          reject_misplaced = true;
          accept_cbind_flag_y = false;
          plain_version = Sha256;
          plain_iterations = None;
          plain_passwords = FormTyped;
          extra_challenges = record { initial_response = false; signature = false };
        } }
    {
        Self {
            mechanisms,
            mock: None,
            rights: ActingRights::new(alloc),
            accept_authzid: false,
            strict: false,
            reject_misplaced: true,
            accept_cbind_flag_y: false,
            plain_version: ScramVersion::Sha256,
            plain_iterations: None,
            plain_passwords: PlainPasswords::Typed,
            extra_challenges: ExtraChallenges {
                initial_response: false,
                signature: false,
            },
        }
    }
}

/// What a connection brings to its server.
#[derive(Clone, Copy)]
pub struct Transport<'a> {
    /// Whether the connection is under TLS. Otherwise PLAIN is not offered.
    pub is_tls: bool,

    /// The data of the connection's channel (RFC 5802, section 6). With them SCRAM is offered with `-PLUS` too.
    pub channels: Option<ChannelBindings>,

    /// The name that the transport authenticated, such as the subject of a client's TLS certificate. If it is empty, EXTERNAL
    /// is not offered.
    pub external: &'a str,
}

impl Transport<'_> {
    /// Returns a connection that is not under TLS.
    pub fn plaintext() -> Self
        ensures value { (result.is_tls ≡ false) × (result.channels ≡ None) × (result.external.now ≡ []) }
    {
        Self {
            is_tls: false,
            channels: None,
            external: "",
        }
    }
}
