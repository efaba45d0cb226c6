//! Reads and writes records of several users and versions as the lines of a text.

ghost use Rattle.std.specs.Prelude.{◌≡◌, ◌≢◌, ◌↔◌, ◌<◌, ◌++◌, [], ◌∷◌, ℕ, List, IsTrue, IfOk, IfErr, OnErr, OnOk, length};
ghost use Rattle.std.specs.List.{AllByRecursion};
ghost use Rattle.fe2o3_scram.specs.Credentials.{VersionedRecord};
ghost use Rattle.fe2o3_scram.specs.MultiRecordLines.{IsMixedReadable, IsMixedWritable, MixedFault, ReadsMixed, SpellsMixed, UpToMixed, mixed_line, mixed_text};
ghost use Rattle.fe2o3_scram.specs.RecordLines.{ReachesUser};

use crate::OutOfMemory;
use crate::credentials::multi_record_store::{MultiRecordStore, MultiUser};
use crate::credentials::record_lines::{
    ReadLinesError, ReadLinesErrorKind, WriteLinesError, is_writable, push_line, read_head,
};
use std::alloc::Global;

impl MultiRecordStore {
    /// Reads a text with a line for each user, like `RecordStore::parse_lines`, but each record may be of any version
    /// (RFC 5803, section 2). The empty text has no user.
    ///
    /// The error is that of the first malformed line. It has the line's number, from 1, and the first kind that
    /// applies: `LineFeedMissing`, `SpaceMissing`, `InvalidName`, or `InvalidRecord` with the error of
    /// `ScramRecord::parse`. `VersionMismatch` is never returned. `OutOfMemory` is returned only for a line with a line
    /// feed and a space, no comma before its last space, and no malformed line before it.
    pub fn parse_lines(alloc: Global, text: &str) -> Result<Self, ReadLinesError>
        ensures ok { IfOk result (SpellsMixed text.now) }
        ensures err { IfErr result (λ error. error.kind ≢ ReadLinesErrorKind.OutOfMemory
            → ReadsMixed text.now (Err error)) }
        ensures memory { IfErr result (λ error. error.kind ≡ ReadLinesErrorKind.OutOfMemory
            → UpToMixed text.now error.line ReachesUser) }
    {
        let mut store = Self::new(alloc);
        let mut rest = text;
        while !rest.is_empty() {
            match store.read_line(alloc, rest) {
                Ok(more) => rest = more,
                Err(kind) => {
                    let line = store.users().len() + 1;
                    return Err(ReadLinesError { line, kind });
                }
            }
        }
        Ok(store)
    }

    /// Reads the first line of a text that is not empty, adds its user, and returns what follows the line.
    fn read_line<'a>(&mut self, alloc: Global, text: &'a str) -> Result<&'a str, ReadLinesErrorKind>
        requires { text.now ≢ [] }
        ensures ok { IfOk result (λ rest. (user : List ℕ × VersionedRecord) × IsMixedReadable user
            × (text.now ≡ mixed_line user ++ 10 ∷ rest.now)
            × (self.new ≡ self.old ++ (user ∷ []))) }
        ensures err { IfErr result (λ kind. kind ≢ ReadLinesErrorKind.OutOfMemory → MixedFault text.now kind) }
        ensures memory { IfErr result (λ kind. kind ≡ ReadLinesErrorKind.OutOfMemory → ReachesUser text.now) }
        ensures unchanged { IfErr result (λ _. self.new ≡ self.old) }
    {
        let (username, kept, rest) = read_head(alloc, text)?;
        self.add(username, kept)?;
        Ok(rest)
    }

    /// Writes the users as UTF-8 text, a line for each, in one spelling. `parse_lines` reads the text again.
    ///
    /// Users that `parse_lines` has read are written as the text that it read.
    ///
    /// The errors are `UserNotWritable`, exactly if a name has a line feed, a count is 0, or a key is not as long as a
    /// digest, and `OutOfMemory`, only if there is a user.
    pub fn to_lines(&self, alloc: Global) -> Result<Vec<u8>, WriteLinesError>
        ensures ok { IfOk result (λ text. text.items ≡ mixed_text self.now) }
        ensures refused { (result ≡ Err WriteLinesError.UserNotWritable)
            ↔ ¬ AllByRecursion IsMixedWritable self.now }
        ensures memory { result ≡ Err WriteLinesError.OutOfMemory → 0 < length self.now }
    {
        if !are_writable(self.users()) {
            return Err(WriteLinesError::UserNotWritable);
        }
        let mut text = Vec::new(alloc);
        push_users(alloc, &mut text, self.users())?;
        Ok(text)
    }
}

impl MultiUser {
    /// Returns whether `parse_lines` would read the user's line again.
    fn is_writable(&self) -> bool
        ensures { IsTrue result ↔ IsMixedWritable self.now }
    {
        let record = self.record();
        is_writable(
            self.username(),
            *record.scram_version(),
            &record.as_stored_password(),
        )
    }

    /// Appends the user's line and its line feed to the text.
    fn push_line(&self, alloc: Global, text: &mut Vec<u8>) -> Result<(), OutOfMemory>
        ensures { OnOk result (text.new.items ≡ text.old.items
            ++ (mixed_line self.now ++ (10 ∷ []))) }
    {
        let record = self.record();
        push_line(
            alloc,
            text,
            self.username(),
            *record.scram_version(),
            &record.as_stored_password(),
        )
    }
}

/// Returns whether `parse_lines` would read each user's line again.
#[tactic(auto, using(crate::proofs::lemmas::messages::RecordLinesLemmas::each_user))]
fn are_writable(users: &[MultiUser]) -> bool
    ensures { IsTrue result ↔ AllByRecursion IsMixedWritable users.now }
{
    for user in users {
        if !user.is_writable() {
            return false;
        }
    }
    true
}

/// Appends the users' lines to the text.
#[tactic(auto, using(crate::proofs::lemmas::messages::MixedLinesLemmas::mixed_writing))]
fn push_users(alloc: Global, text: &mut Vec<u8>, users: &[MultiUser]) -> Result<(), OutOfMemory>
    ensures ok { OnOk result (text.new.items ≡ text.old.items ++ mixed_text users.now) }
    ensures memory { OnErr result (0 < length users.now) }
{
    for user in users {
        user.push_line(alloc, text)?;
    }
    Ok(())
}
