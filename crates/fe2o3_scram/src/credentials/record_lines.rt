//! Reads and writes the records of several users as the lines of a text.

ghost use Rattle.std.specs.Prelude.{◌≡◌, ◌≢◌, ◌↔◌, ◌⊎◌, ◌<◌, ◌+◌, ◌++◌, [], ◌∷◌, ℕ, List, IsTrue, IfOk, IfErr, OnErr, OnOk, MatchOption, length, string_bytes};
ghost use Rattle.std.specs.List.{AllByRecursion};
ghost use Rattle.fe2o3_scram.specs.Credentials.{Record, VersionedRecord, kept};
ghost use Rattle.fe2o3_scram.specs.Escape.{escaped};
ghost use Rattle.fe2o3_scram.specs.MultiRecordLines.{IsMixedReadable, MixedFault, mixed_line};
ghost use Rattle.fe2o3_scram.specs.RecordLines.{HeadFault, IsLineReadable, IsWritable, LastCut, LineFault, ReachesName, ReachesUser, ReadsUsers, SpellsUsers, UpToLine, UserFault, user_line, users_text};
ghost use Rattle.fe2o3_scram.specs.RecordText.{ReachesValues, ReadsRecord};
ghost use Rattle.fe2o3_scram.specs.Texts.{NoComma, Without};
ghost use Rattle.fe2o3_scram.specs.declared.credentials.record_lines.ReadLinesErrorKind.TheVariants.{OutOfMemory as OutOfMemoryKind};
ghost use Rattle.fe2o3_scram.specs.declared.credentials.record_lines.WriteLinesError.TheVariants.{OutOfMemory as OutOfMemoryError};

use crate::OutOfMemory;
use crate::credentials::record_store::{AddRecordError, RecordStore};
use crate::credentials::record_text::{RecordTextError, record_text};
use crate::credentials::scram_record::ScramRecord;
use crate::credentials::users::User;
use crate::hmac::ScramVersion;
use crate::provider::{ScramCredentialProvider, StoredPassword};
use crate::scram_messages::escape::{UnescapeError, push_escaped, unescape_username};
use crate::secrets::SecretText;
use crate::texts::cut;
use std::alloc::{AllocError, AllocFailed, Global};
use thiserror::Error;

/// Why a line is not read as a user.
#[derive(Debug, Clone, Copy, PartialEq, Eq, Error)]
pub enum ReadLinesErrorKind {
    /// The last line does not end with a line feed.
    #[error("Line feed missing")]
    LineFeedMissing,

    /// The line has no space.
    #[error("Space missing")]
    SpaceMissing,

    /// The text before the last space is not an escaped name.
    #[error("Cannot parse username")]
    InvalidName,

    /// The text after the last space is not a record.
    #[error("{0}")]
    InvalidRecord(RecordTextError),

    /// The record is for another version than the requested one.
    #[error("Version mismatch")]
    VersionMismatch,

    /// An allocation failed.
    #[error("Out of memory")]
    OutOfMemory,
}

/// The first malformed line, and why.
#[derive(Debug, Clone, Copy, PartialEq, Eq, Error)]
#[error("Line {line}: {kind}")]
pub struct ReadLinesError {
    /// The line, counted from 1.
    pub line: usize,

    /// What is wrong with it.
    pub kind: ReadLinesErrorKind,
}

/// Why users are not written as lines.
#[derive(Debug, Clone, Copy, PartialEq, Eq, Error)]
pub enum WriteLinesError {
    /// A user's line would not be read again: the name has a line feed, the count is 0, or a key is not as long as a
    /// digest.
    #[error("The line cannot be written")]
    UserNotWritable,

    /// An allocation failed.
    #[error("Out of memory")]
    OutOfMemory,
}

impl From<AllocError> for ReadLinesErrorKind {
    ghost from_gives = { λ _ error. error ≡ OutOfMemoryKind };

    fn from(_error: AllocError) -> Self {
        ReadLinesErrorKind::OutOfMemory
    }
}

impl<T: Drop> From<AllocFailed<T>> for ReadLinesErrorKind {
    ghost from_gives = { λ _ error. error ≡ OutOfMemoryKind };

    fn from(_error: AllocFailed<T>) -> Self {
        ReadLinesErrorKind::OutOfMemory
    }
}

impl From<AllocError> for WriteLinesError {
    ghost from_gives = { λ _ error. error ≡ OutOfMemoryError };

    fn from(_error: AllocError) -> Self {
        WriteLinesError::OutOfMemory
    }
}

impl RecordStore {
    /// Reads a text with a line for each user: the name, with each comma as `=2C` and each equals sign as `=3D` (RFC
    /// 5802, section 5.1), a space, the text of the record (RFC 5803, section 2), and a line feed. The users keep the
    /// order of their lines. A name may be empty and may have spaces, since only the last space of a line ends it. The
    /// empty text has no user.
    ///
    /// The error is that of the first malformed line. It has the line's number, from 1, and the first kind that
    /// applies: `LineFeedMissing`, `SpaceMissing`, `InvalidName`, `InvalidRecord` with the error of
    /// `ScramRecord::parse`, or `VersionMismatch` if the record is for another version than this. `OutOfMemory` is
    /// returned only for a line with a line feed and a space, no comma before its last space, and no malformed line
    /// before it.
    pub fn parse_lines(
        alloc: Global,
        scram_version: ScramVersion,
        text: &str,
    ) -> Result<Self, ReadLinesError>
        ensures ok { IfOk result (λ store. (store.version ≡ scram_version)
            × SpellsUsers scram_version text.now store.records) }
        ensures err { IfErr result (λ error. error.kind ≢ ReadLinesErrorKind.OutOfMemory
            → ReadsUsers scram_version text.now (Err error)) }
        ensures memory { IfErr result (λ error. error.kind ≡ ReadLinesErrorKind.OutOfMemory
            → UpToLine scram_version text.now error.line ReachesUser) }
    {
        let mut store = Self::new(alloc, scram_version);
        let mut rest = text;
        while !rest.is_empty() {
            match store.read_line(alloc, rest) {
                Ok(more) => rest = more,
                Err(kind) => {
                    let line = store.users().len() + 1;
                    return Err(ReadLinesError { line, kind });
                }
            }
        }
        Ok(store)
    }

    /// Reads the first line of a text that is not empty, adds its user, and returns what follows the line.
    fn read_line<'a>(&mut self, alloc: Global, text: &'a str) -> Result<&'a str, ReadLinesErrorKind>
        requires { text.now ≢ [] }
        ensures ok { IfOk result (λ rest. (user : List ℕ × Record) × IsLineReadable self.old.version user
            × (text.now ≡ user_line self.old.version user ++ 10 ∷ rest.now)
            × (self.new ≡ record { version = self.old.version; records = self.old.records ++ (user ∷ []) })) }
        ensures err { IfErr result (λ kind. kind ≢ ReadLinesErrorKind.OutOfMemory
            → HeadFault self.old.version text.now kind) }
        ensures memory { IfErr result (λ kind. kind ≡ ReadLinesErrorKind.OutOfMemory → ReachesUser text.now) }
        ensures unchanged { IfErr result (λ _. self.new ≡ self.old) }
    {
        let (username, kept, rest) = read_head(alloc, text)?;
        match self.add(username, kept) {
            Ok(()) => Ok(rest),
            Err(AddRecordError::VersionMismatch) => Err(ReadLinesErrorKind::VersionMismatch),
            Err(AddRecordError::OutOfMemory) => Err(ReadLinesErrorKind::OutOfMemory),
        }
    }

    /// Writes the users as UTF-8 text, a line for each, in one spelling. `parse_lines` reads the text again.
    ///
    /// The errors are `UserNotWritable`, exactly if a name has a line feed, a count is 0, or a key is not as long as a
    /// digest, and `OutOfMemory`, only if there is a user.
    pub fn to_lines(&self, alloc: Global) -> Result<Vec<u8>, WriteLinesError>
        ensures ok { IfOk result (λ text. text.items ≡ users_text self.now.version self.now.records) }
        ensures refused { (result ≡ Err WriteLinesError.UserNotWritable)
            ↔ ¬ AllByRecursion (IsWritable self.now.version) self.now.records }
        ensures memory { result ≡ Err WriteLinesError.OutOfMemory → 0 < length self.now.records }
    {
        let scram_version = *self.scram_version();
        if !are_writable(self.users(), scram_version) {
            return Err(WriteLinesError::UserNotWritable);
        }
        let mut text = Vec::new(alloc);
        push_users(alloc, &mut text, self.users(), scram_version)?;
        Ok(text)
    }
}

/// Splits the text at its last separator, which is ASCII.
fn last_cut(text: &str, separator: char) -> Option<(&str, &str)>
    requires { separator < 128 }
    ensures { MatchOption result ((before rest : List ℕ) → ¬ LastCut separator text.now before rest)
        (λ both. LastCut separator text.now both.0.now both.1.now) }
{
    text.rsplit_once(separator)
}

/// Returns the name and the record, of any version, of the first line of a text that is not empty, and the text after
/// the line.
pub(crate) fn read_head(
    alloc: Global,
    text: &str,
) -> Result<(String, ScramRecord, &str), ReadLinesErrorKind>
    requires { text.now ≢ [] }
    ensures ok { IfOk result (λ head. IsMixedReadable (string_bytes head.0, head.1)
        × (text.now ≡ mixed_line (string_bytes head.0, head.1) ++ 10 ∷ head.2.now)) }
    ensures err { IfErr result (λ kind. kind ≢ ReadLinesErrorKind.OutOfMemory → MixedFault text.now kind) }
    ensures memory { IfErr result (λ kind. kind ≡ ReadLinesErrorKind.OutOfMemory → ReachesUser text.now) }
    ensures reached { IfOk result (λ _. ReachesUser text.now) }
{
    let Some((line, rest)) = cut(text, '\n') else {
        return Err(ReadLinesErrorKind::LineFeedMissing);
    };
    let (username, kept) = read_user(alloc, line)?;
    Ok((username, kept, rest))
}

/// Returns the name and the record, of any version, of a line without its line feed.
fn read_user(alloc: Global, line: &str) -> Result<(String, ScramRecord), ReadLinesErrorKind>
    requires { Without 10 line.now }
    ensures ok { IfOk result (λ user. IsMixedReadable (string_bytes user.0, user.1)
        × (line.now ≡ mixed_line (string_bytes user.0, user.1))) }
    ensures err { IfErr result (λ kind. kind ≢ ReadLinesErrorKind.OutOfMemory
        → (version : ScramVersion) → LineFault version line.now kind) }
    ensures memory { IfErr result (λ kind. kind ≡ ReadLinesErrorKind.OutOfMemory → ReachesName line.now) }
    ensures reached { IfOk result (λ _. ReachesName line.now) }
{
    let Some((name, kept)) = last_cut(line, ' ') else {
        return Err(ReadLinesErrorKind::SpaceMissing);
    };
    let username = read_name(alloc, name)?;
    let kept = read_record(alloc, kept)?;
    Ok((username, kept))
}

/// Returns the name that the text escapes.
#[tactic(auto, using(crate::proofs::lemmas::messages::RecordLinesLemmas::read_names))]
fn read_name(alloc: Global, name: &str) -> Result<String, ReadLinesErrorKind>
    ensures ok { IfOk result (λ plain. escaped (string_bytes plain) ≡ name.now) }
    ensures plain { IfOk result (λ _. NoComma name.now) }
    ensures err { IfErr result (λ kind. (kind ≡ ReadLinesErrorKind.OutOfMemory)
        ⊎ ((kind ≡ ReadLinesErrorKind.InvalidName) × ((plain : List ℕ) → escaped plain ≢ name.now))) }
    ensures memory { IfErr result (λ kind. kind ≡ ReadLinesErrorKind.OutOfMemory → NoComma name.now) }
{
    match unescape_username(alloc, name) {
        Ok(plain) => Ok(plain.into_owned(alloc)?),
        Err(UnescapeError::Invalid) => Err(ReadLinesErrorKind::InvalidName),
        Err(UnescapeError::OutOfMemory) => Err(ReadLinesErrorKind::OutOfMemory),
    }
}

/// Returns the record that the text spells.
fn read_record(alloc: Global, text: &str) -> Result<ScramRecord, ReadLinesErrorKind>
    ensures ok { IfOk result (λ read. ReadsRecord text.now (Ok read)) }
    ensures err { IfErr result (λ kind. (kind ≡ ReadLinesErrorKind.OutOfMemory)
        ⊎ ((fault : RecordTextError) × (kind ≡ ReadLinesErrorKind.InvalidRecord fault)
        × ReadsRecord text.now (Err fault))) }
    ensures memory { IfErr result (λ kind. kind ≡ ReadLinesErrorKind.OutOfMemory → ReachesValues text.now) }
{
    match ScramRecord::parse(alloc, text) {
        Ok(read) => Ok(read),
        Err(RecordTextError::OutOfMemory) => Err(ReadLinesErrorKind::OutOfMemory),
        Err(fault) => Err(ReadLinesErrorKind::InvalidRecord(fault)),
    }
}

/// Returns whether the user's line would be read again.
pub(crate) fn is_writable(
    username: &str,
    scram_version: ScramVersion,
    stored_password: &StoredPassword<'_>,
) -> bool
    ensures { IsTrue result ↔ IsWritable scram_version (username.now, kept stored_password.now) }
{
    let digest_len = scram_version.digest_len();
    has_no_line_feed(username)
        && stored_password.iterations != 0
        && stored_password.stored_key.len() == digest_len
        && stored_password.server_key.len() == digest_len
}

/// Appends a user's line and its line feed to the text.
pub(crate) fn push_line(
    alloc: Global,
    text: &mut Vec<u8>,
    username: &str,
    scram_version: ScramVersion,
    stored_password: &StoredPassword<'_>,
) -> Result<(), OutOfMemory>
    ensures { OnOk result (text.new.items ≡ text.old.items
        ++ (user_line scram_version (username.now, kept stored_password.now) ++ (10 ∷ []))) }
{
    let record = SecretText::new(record_text(alloc, scram_version, stored_password)?);
    push_escaped(text, username.as_bytes())?;
    text.push(b' ')?;
    text.extend_from_slice(record.as_str().as_bytes())?;
    text.push(b'\n')?;
    Ok(())
}

/// Returns whether the name has no line feed.
#[tactic(auto, using(crate::proofs::lemmas::texts::CutLemmas::cuts))]
fn has_no_line_feed(name: &str) -> bool
    ensures { IsTrue result ↔ Without 10 name.now }
{
    cut(name, '\n').is_none()
}

/// Returns whether each user's line would be read again.
#[tactic(auto, using(crate::proofs::lemmas::messages::RecordLinesLemmas::each_user))]
fn are_writable(users: &[User], scram_version: ScramVersion) -> bool
    ensures { IsTrue result ↔ AllByRecursion (IsWritable scram_version) users.now }
{
    for user in users {
        if !is_writable(user.username(), scram_version, &user.stored_password()) {
            return false;
        }
    }
    true
}

/// Appends the users' lines to the text.
#[tactic(auto, using(crate::proofs::lemmas::messages::RecordLinesLemmas::writing))]
fn push_users(
    alloc: Global,
    text: &mut Vec<u8>,
    users: &[User],
    scram_version: ScramVersion,
) -> Result<(), OutOfMemory>
    ensures ok { OnOk result (text.new.items ≡ text.old.items ++ users_text scram_version users.now) }
    ensures memory { OnErr result (0 < length users.now) }
{
    for user in users {
        push_line(
            alloc,
            text,
            user.username(),
            scram_version,
            &user.stored_password(),
        )?;
    }
    Ok(())
}
