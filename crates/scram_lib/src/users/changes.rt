//! Changes of a file of records. The other lines stay byte for byte.

ghost use Rattle.std.specs.Prelude.{◌↔◌, IfOk, IsTrue};
ghost use Rattle.std.specs.String.{string_bytes};
ghost use Rattle.scram_lib.specs.Forms.{IsMade, IsNewLine, form_for};

use crate::form::Form;
use crate::record::NewRecord;
use fe2o3_scram::{MultiRecordStore, ScramVersion};
use scram_base_lib::lines;
use scram_base_lib::lines::UserLine;
use scram_base_lib::stop::Stop;
use scram_base_lib::store::{Change, Changed};
use std::alloc::Global;
use std::random::RandomSource;

/// The versions, in the order of the lines that a change adds. PLAIN takes the first record of a user.
static ADDED: [ScramVersion; 3] = [
    ScramVersion::Sha256,
    ScramVersion::Sha512,
    ScramVersion::Sha1,
];

/// New records of a user. They replace those for the same mechanisms, or are added at the end.
#[derive(Clone, Copy)]
pub struct Put<'a> {
    /// The name, not escaped.
    pub name: &'a str,
    /// The mechanism, or `None` for SHA-256 and SHA-512, which servers offer by default, and, if the user has to exist, those
    /// of its records.
    pub version: Option<ScramVersion>,
    /// Whether the user has to have a record that the change replaces.
    pub must_exist: bool,
    pub password: &'a str,
    /// The arguments of the records.
    pub asked: NewRecord<'a>,
}

/// The removal of all lines of a user, or of those for one mechanism.
#[derive(Clone, Copy)]
pub struct Taken {
    /// The mechanism, or `None` for all.
    pub version: Option<ScramVersion>,
}

impl<'a> Put<'a> {
    /// Returns whether the change makes a record for a version. `has` says whether the user has one.
    fn wants(&self, version: ScramVersion, has: bool) -> bool
        ensures { IsTrue result ↔ IsMade self.now.version self.now.must_exist version has }
    {
        match self.version {
            Some(asked) => asked == version,
            None => version != ScramVersion::Sha1 || (self.must_exist && has),
        }
    }

    /// Returns the lines of the user after the change. The first records of all users are these.
    fn text<R: RandomSource + AllocGlobal>(
        &self,
        rt: &R,
        text: &str,
        firsts: &MultiRecordStore,
    ) -> Result<String, Stop> {
        let mut changed = String::new(rt.alloc());
        for line in text.split_inclusive('\n') {
            match ScramVersion::from_mechanism(UserLine::of(line).mechanism) {
                Some(version) if self.wants(version, true) => {
                    changed.push_str(&self.line(rt, version, firsts)?)?;
                }
                _ => changed.push_str(line)?,
            }
        }
        for version in &ADDED {
            if self.wants(*version, false) && !has_record(text, Some(*version)) {
                changed.push_str(&self.line(rt, *version, firsts)?)?;
            }
        }
        Ok(changed)
    }

    /// Returns the line of a new record, in the form of the first record for the version or of the arguments.
    fn line<R: RandomSource + AllocGlobal>(
        &self,
        rt: &R,
        version: ScramVersion,
        firsts: &MultiRecordStore,
    ) -> Result<String, Stop>
        ensures { IfOk result (λ line. IsNewLine self.now version (form_for version firsts.now) (string_bytes line)) }
    {
        let first = Form::of_first(firsts.for_version(version));
        let record = self.asked.make(rt, version, first, self.password)?;
        lines::line_of(rt.alloc(), self.name, record)
    }

    /// Returns a line for each version for which the new record has another form than the first of the file.
    fn notes(&self, alloc: Global, text: &str, firsts: &MultiRecordStore) -> Result<String, Stop> {
        let mut notes = String::new(alloc);
        for version in &ADDED {
            let first = firsts.for_version(*version);
            let is_made = self.wants(*version, has_record(text, Some(*version)));
            if !is_made || first.first_stored_password().is_none() {
                continue;
            }
            let (mechanism, first) = (version.mechanism(), Form::of_first(first));
            let new = self.asked.form(first);
            if new != first {
                notes.push_str(&format!(in alloc;
                    "scram: the new record for {mechanism} has a salt of {} bytes and {} iterations, but the first has {} and \
                     {}: clients see the difference\n",
                    new.salt_len, new.iterations, first.salt_len, first.iterations
                )?)?;
            }
        }
        Ok(notes)
    }

    /// Returns what the change did, where a text has the old records of the user.
    fn done(&self, text: &str) -> &'static str {
        let replaces = |version: &ScramVersion| {
            self.wants(*version, true) && has_record(text, Some(*version))
        };
        if self.must_exist {
            "changed"
        } else if ADDED.iter().any(replaces) {
            "replaced"
        } else {
            "added"
        }
    }
}

impl Change for Put<'_> {
    fn makes_files(&self) -> bool {
        !self.must_exist
    }

    fn makes_record(&self, text: &str, version: ScramVersion) -> bool {
        self.wants(version, has_record(text, Some(version)))
    }

    fn apply<R: RandomSource + AllocGlobal>(
        &self,
        rt: &R,
        text: &str,
        firsts: &str,
    ) -> Result<Changed, Stop> {
        let firsts = MultiRecordStore::parse_lines(rt.alloc(), firsts)?;
        if self.must_exist && !has_record(text, self.version) {
            return Err(Stop::NoSuchRecord);
        }
        Ok(Changed {
            text: self.text(rt, text, &firsts)?,
            done: self.done(text),
            notes: self.notes(rt.alloc(), text, &firsts)?,
        })
    }
}

/// Returns whether a line has a record for this mechanism, or for any.
fn is_for(line: &str, version: Option<ScramVersion>) -> bool {
    version.is_none_or(|version| version.mechanism() == UserLine::of(line).mechanism)
}

/// Returns whether a text has a record for this mechanism, or for any.
fn has_record(text: &str, version: Option<ScramVersion>) -> bool {
    text.lines().any(|line| is_for(line, version))
}

impl Change for Taken {
    fn apply<R: RandomSource + AllocGlobal>(
        &self,
        rt: &R,
        text: &str,
        _firsts: &str,
    ) -> Result<Changed, Stop> {
        let alloc = rt.alloc();
        let mut kept = String::new(alloc);
        for line in text.split_inclusive('\n') {
            if !is_for(line, self.version) {
                kept.push_str(line)?;
            }
        }
        if kept.len() == text.len() {
            return Err(Stop::NoSuchRecord);
        }
        Ok(Changed {
            text: kept,
            done: "removed",
            notes: String::new(alloc),
        })
    }
}
