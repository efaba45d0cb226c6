//! The form of records: what a client sees of a record before it has logged in.

ghost use Rattle.std.specs.Prelude.{◌≡◌, IfOk};
ghost use Rattle.scram_lib.specs.Forms.{form_of, new_form};

use fe2o3_scram::{
    DEFAULT_SALT_LEN, DEFAULT_SCRAM_ITERATIONS, MultiRecordStore, ReadLinesErrorKind, RecordStore,
    ScramVersion,
};
use scram_base_lib::lines::UserLine;
use scram_base_lib::stop::Stop;
use std::alloc::Global;

/// The length of a record's salt, and its iteration count.
#[derive(Clone, Copy, PartialEq, Eq)]
pub struct Form {
    /// The length of the salt, in bytes.
    pub salt_len: usize,
    pub iterations: u32,
}

impl Form {
    /// Returns the form of the records in a new file.
    pub fn new() -> Form
        ensures { result ≡ new_form }
    {
        Form {
            salt_len: DEFAULT_SALT_LEN,
            iterations: DEFAULT_SCRAM_ITERATIONS,
        }
    }

    /// Returns the form of the first record of a store, or, if there is none, that of a new file.
    pub fn of_first(users: &RecordStore) -> Form
        ensures { result ≡ form_of users.now.records }
    {
        match users.first_stored_password() {
            Some(first) => Form {
                salt_len: first.salt.len(),
                iterations: first.iterations,
            },
            None => Form::new(),
        }
    }

    /// Returns the form of the first record for a version in a text, or, if there is none, that of a new file. Lines that
    /// are not valid are passed over. Only one line is parsed, since a server's file may have many.
    pub fn in_text(alloc: Global, text: &str, version: ScramVersion) -> Result<Form, Stop> {
        for line in text.split_inclusive('\n') {
            if UserLine::of(line).mechanism != version.mechanism() {
                continue;
            }
            match MultiRecordStore::parse_lines(alloc, line) {
                Ok(users) => return Ok(Form::of_first(users.for_version(version))),
                Err(fault) if fault.kind == ReadLinesErrorKind::OutOfMemory => {
                    return Err(Stop::OutOfMemory);
                }
                Err(_) => {}
            }
        }
        Ok(Form::new())
    }

    /// Returns the form of a valid line, by the length of its salt in base64 (RFC 4648, section 4).
    pub fn of_line(line: &UserLine<'_>) -> Form {
        let digits = line.salt.trim_end_matches('=').len();
        Form {
            salt_len: digits / 4 * 3 + digits % 4 * 3 / 4,
            iterations: line.iterations.parse::<u32>().unwrap_or(0),
        }
    }
}

/// Returns whether the records for a version in a text have several forms.
pub fn has_several(text: &str, version: ScramVersion) -> bool {
    let (mechanism, mut first) = (version.mechanism(), None);
    for line in text.lines() {
        let line = UserLine::of(line);
        let form = Form::of_line(&line);
        if line.mechanism == mechanism && *first.get_or_insert(form) != form {
            return true;
        }
    }
    false
}
