//! Tests messages of PLAIN against the records of SCRAM (RFC 4616).

ghost use Rattle.std.specs.Prelude.{◌≡◌, ◌≤◌, ◌+◌, ◌^◌, ◌↔◌, ℕ, List, [], ◌∷◌, None, Some, IsTrue, IfOk, IfErr, MatchOption, option_map, true};
ghost use Rattle.std.specs.Str.{IsAscii};
ghost use Rattle.fe2o3_scram.specs.ActingRights.{may_act};
ghost use Rattle.fe2o3_scram.specs.Credentials.{CheckingCosts, record_at};
ghost use Rattle.fe2o3_scram.specs.Passwords.{password_of};
ghost use Rattle.fe2o3_scram.specs.Texts.{Cut, Without};
ghost use Rattle.fe2o3_sasl_core.specs.PlainServer.{HasPassword, IsLetIn, IsTaken, MeetsUser, PlainLogsIn, PlainParts, PreparesPassword, SpellsPlain, TestingCosts, asked_identity, count_or, parts_of, plain_hmacs, plain_rules};
ghost use Rattle.fe2o3_sasl_core.specs.PlainWords.{IsPlainWord};
ghost use Rattle.fe2o3_sasl_core.specs.declared.plain_server.passwords.PlainPasswords.TheVariants.{Saslprep as FormSaslprep};

mod passwords;

use crate::OutOfMemory;
pub use crate::plain_server::passwords::PlainPasswords;
use crate::plain_server::passwords::prepare;
use fe2o3_scram::ActingRights;
use fe2o3_scram::credentials::ScramCredentialProvider;
use fe2o3_scram::hmac::Meter;
use fe2o3_scram::passwords::Password;
use fe2o3_scram::provider::StoredPassword;
use std::alloc::Global;

/// The maximum length of a password that is tested, in bytes as received. RFC 4616 asks a server to accept at least 255.
pub const MAX_PASSWORD_LEN: usize = 1024;

/// The salt with which the password of an unknown user is hashed.
const NO_SALT: [u8; 16] = [0; 16];

/// The test of PLAIN's messages against the SCRAM records of a store. PLAIN sends the password itself, so accept its
/// messages only under TLS.
///
/// A message logs its user in if
/// - it is UTF-8 in three parts with zero bytes between them;
/// - the first part, the identity to act for, is empty or the user's name, or with `accept_authzid` one that the user may
///   act for by `rights` (RFC 4616, section 2);
/// - the password is that of the user's record and has 1 to 1024 bytes of printable ASCII. [`PlainPasswords`] has the
///   forms of other passwords.
///
/// A password that is to be tested is hashed for an unknown user too, with `iterations` as its count. That takes as many
/// HMAC values as the record of a known user with this count.
#[derive(Drop)]
pub struct PlainTest<'a, C: ScramCredentialProvider> {
    /// The store of records.
    pub credentials: &'a C,

    /// The iteration count for an unknown user.
    pub iterations: u32,

    /// The form of passwords.
    pub passwords: PlainPasswords,

    /// Whether a message may name an identity other than its user.
    pub accept_authzid: bool,

    /// Who may act for whom.
    pub rights: &'a ActingRights,
}

impl<C: ScramCredentialProvider> PlainTest<'_, C> {
    /// Returns whether a message logs its user in. The meter counts the HMAC values. The only error is `OutOfMemory`, for
    /// a password that is prepared.
    pub fn logs_in(
        &self,
        alloc: Global,
        text: &[u8],
        meter: &mut Meter,
    ) -> Result<bool, OutOfMemory>
        requires { meter.old ≤ 2 ^ 63 }
        ensures verdict { IfOk result (λ is. IsTrue is
            ↔ ((parts : PlainParts) × PlainLogsIn (plain_rules C.meaning self.now) text.now parts)) }
        ensures cost { IfOk result (λ _. (n : ℕ) → plain_hmacs (plain_rules C.meaning self.now) text.now n
            → meter.new ≡ meter.old + n) }
        ensures memory { IfErr result (λ _. PreparesPassword (plain_rules C.meaning self.now) text.now
            × (meter.new ≡ meter.old)) }
    {
        match PlainMessage::read_taken(self.accept_authzid, text) {
            Some(message) => self.lets_in(alloc, &message, meter),
            None => Ok(false),
        }
    }

    /// Returns whether a message that is accepted for a test has the password of its user, who may act for the identity
    /// that it asks for. The meter counts the HMAC values. The only error is `OutOfMemory`, for a password that is
    /// prepared.
    pub(crate) fn lets_in(
        &self,
        alloc: Global,
        message: &PlainMessage<'_>,
        meter: &mut Meter,
    ) -> Result<bool, OutOfMemory>
        requires { meter.old ≤ 2 ^ 63 }
        ensures verdict { IfOk result (λ is. IsTrue is
            ↔ IsLetIn (plain_rules C.meaning self.now) (parts_of message.now)) }
        ensures cost { IfOk result (λ _. TestingCosts self.now.passwords message.now.password.now (count_or self.now.iterations
            (record_at (C.meaning self.now.credentials.now).records message.now.username.now)) meter.old meter.new) }
        ensures memory { IfErr result (λ _. (self.now.passwords ≡ FormSaslprep) × ¬ IsAscii message.now.password.now
            × (meter.new ≡ meter.old)) }
    {
        // The right is tested after the password, so that a client learns it only by the password.
        if self.has_password(alloc, message, meter)? {
            Ok(
                self.rights
                    .may_act(message.username, message.asked_identity()),
            )
        } else {
            Ok(false)
        }
    }

    /// Returns whether the message has the password of its user. The meter counts the HMAC values. The only error is
    /// `OutOfMemory`, for a password that is prepared.
    fn has_password(
        &self,
        alloc: Global,
        message: &PlainMessage<'_>,
        meter: &mut Meter,
    ) -> Result<bool, OutOfMemory>
        requires { meter.old ≤ 2 ^ 63 }
        ensures verdict { IfOk result (λ has. IsTrue has
            ↔ HasPassword self.now.passwords (C.meaning self.now.credentials.now) (parts_of message.now)) }
        ensures cost { IfOk result (λ _. TestingCosts self.now.passwords message.now.password.now (count_or self.now.iterations
            (record_at (C.meaning self.now.credentials.now).records message.now.username.now)) meter.old meter.new) }
        ensures memory { IfErr result (λ _. (self.now.passwords ≡ FormSaslprep) × ¬ IsAscii message.now.password.now
            × (meter.new ≡ meter.old)) }
    {
        let (username, password) = (message.username, message.password);
        match self.passwords {
            PlainPasswords::Typed => Ok(self.meets(username, Password::Typed(password), meter)),
            PlainPasswords::Prepared => {
                Ok(self.meets(username, Password::Prepared(password), meter))
            }
            PlainPasswords::Saslprep => {
                let Some(text) = prepare(alloc, password)? else {
                    return Ok(false);
                };
                Ok(self.meets(username, Password::Prepared(text.as_str()), meter))
            }
        }
    }

    /// Returns whether the password is that of the user. The meter counts the HMAC values.
    fn meets(&self, username: &str, password: Password<'_>, meter: &mut Meter) -> bool
        requires { meter.old ≤ 2 ^ 63 }
        ensures verdict { IsTrue result
            ↔ MeetsUser (C.meaning self.now.credentials.now) username.now (password_of password.entry) }
        ensures cost { CheckingCosts (password_of password.entry) (count_or self.now.iterations
            (record_at (C.meaning self.now.credentials.now).records username.now)) meter.old meter.new }
    {
        let scram_version = *self.credentials.scram_version();
        match self.credentials.get_stored_password(username) {
            Some(stored_password) => stored_password.verify_password(
                scram_version,
                password,
                meter,
            ),
            None => mock(self.iterations).verify_password(scram_version, password, meter),
        }
    }
}

/// Returns the user of a message of PLAIN (RFC 4616, section 2), whose record you fetch, or `None` if the bytes are no
/// acceptable message. The name is only claimed: the password is not tested yet, nor the identity to act for.
pub fn plain_user(message: &[u8]) -> Option<&str>
    ensures { MatchOption result ((parts : PlainParts) → SpellsPlain parts message.now → ¬ IsTaken true parts)
        (λ user. (parts : PlainParts) × SpellsPlain parts message.now × IsTaken true parts × (user.now ≡ parts.user)) }
{
    match PlainMessage::read_taken(true, message) {
        Some(message) => Some(message.username),
        None => None,
    }
}

/// Returns the identity to act for that a message of PLAIN names (RFC 4616, section 2), or `None` if it names none, or if
/// the bytes are no acceptable message. It is only claimed: neither the password nor the right is tested yet.
pub fn plain_identity(message: &[u8]) -> Option<&str>
    ensures { MatchOption result
        ((parts : PlainParts) → SpellsPlain parts message.now → IsTaken true parts → asked_identity parts ≡ None)
        (λ identity. (parts : PlainParts) × SpellsPlain parts message.now × IsTaken true parts
        × (asked_identity parts ≡ Some identity.now)) }
{
    match PlainMessage::read_taken(true, message) {
        Some(message) => message.asked_identity(),
        None => None,
    }
}

/// Returns a mock record for an unknown user. It has no keys, so no password meets it.
fn mock(iterations: u32) -> StoredPassword<'static>
    ensures count { result.iterations ≡ iterations }
    ensures keyless { result.stored_key.now ≡ [] }
{
    StoredPassword {
        salt: &NO_SALT,
        iterations,
        stored_key: &[],
        server_key: &[],
    }
}

/// A message of PLAIN, borrowed from an init.
#[derive(Drop)]
pub(crate) struct PlainMessage<'a> {
    pub(crate) identity: &'a str,
    pub(crate) username: &'a str,
    pub(crate) password: &'a str,
}

impl<'a> PlainMessage<'a> {
    /// Reads the message, or returns `None` if the bytes are none that is accepted for a test. `accepts` says whether it may
    /// name any identity.
    pub(crate) fn read_taken(accepts: bool, bytes: &'a [u8]) -> Option<PlainMessage<'a>>
        ensures { MatchOption result ((parts : PlainParts) → SpellsPlain parts bytes.now → ¬ IsTaken accepts parts)
            (λ message. SpellsPlain (parts_of message) bytes.now × IsTaken accepts (parts_of message)) }
    {
        let message = PlainMessage::read(bytes)?;
        if message.is_taken(accepts) {
            Some(message)
        } else {
            None
        }
    }

    /// Reads the message, or returns `None` if the bytes are none.
    fn read(bytes: &'a [u8]) -> Option<PlainMessage<'a>>
        ensures { MatchOption result ((parts : PlainParts) → ¬ SpellsPlain parts bytes.now)
            (λ message. SpellsPlain (parts_of message) bytes.now) }
    {
        match str::from_utf8(bytes) {
            Ok(text) => PlainMessage::parse(text),
            Err(_) => None,
        }
    }

    /// Parses the message, or returns `None` if the text is none.
    fn parse(text: &'a str) -> Option<PlainMessage<'a>>
        ensures { MatchOption result ((parts : PlainParts) → ¬ SpellsPlain parts text.now)
            (λ message. SpellsPlain (parts_of message) text.now) }
    {
        let (identity, rest) = cut_at_zero(text)?;
        let (username, password) = cut_at_zero(rest)?;
        match cut_at_zero(password) {
            Some(_) => None,
            None => Some(PlainMessage {
                identity,
                username,
                password,
            }),
        }
    }

    /// Returns whether the message names a user, with a password, and an identity that is accepted for a test.
    fn is_taken(&self, accepts: bool) -> bool
        ensures { IsTrue result ↔ IsTaken accepts (parts_of self.now) }
    {
        if self.username.is_empty() || self.password.is_empty() {
            return false;
        }
        if self.password.len() > MAX_PASSWORD_LEN {
            return false;
        }
        accepts || self.identity.is_empty() || self.identity == self.username
    }

    /// Returns the identity that the message asks to act for, or `None` if its user acts for itself.
    pub(crate) fn asked_identity(&self) -> Option<&'a str>
        ensures { option_map (λ name. name.now) result ≡ asked_identity (parts_of self.now) }
    {
        if self.identity.is_empty() {
            None
        } else {
            Some(self.identity)
        }
    }
}

/// Returns whether the text can be a user name or a password of a message (RFC 4616, section 2).
#[tactic(auto, using(crate::proofs::lemmas::machines::PlainMessageLemmas::plain_word))]
pub(crate) fn is_plain_word(word: &str) -> bool
    ensures { IsTrue result ↔ IsPlainWord word.now }
{
    !word.is_empty() && lacks_zero(word)
}

/// Returns whether the text has no zero byte.
#[tactic(auto, using(crate::proofs::lemmas::machines::PlainMessageLemmas::plain_word))]
pub(crate) fn lacks_zero(text: &str) -> bool
    ensures { IsTrue result ↔ Without 0 text.now }
{
    match cut_at_zero(text) {
        Some(_) => false,
        None => true,
    }
}

/// Splits the text at its first zero byte.
fn cut_at_zero(text: &str) -> Option<(&str, &str)>
    ensures { MatchOption result ((before rest : List ℕ) → ¬ Cut 0 text.now before rest)
        (λ both. Cut 0 text.now both.0.now both.1.now) }
{
    text.split_once('\0')
}
