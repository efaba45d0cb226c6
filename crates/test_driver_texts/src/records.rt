//! Texts of records, lines of users, and mock records.

use crate::stores::say_record;
use crate::words::{compare_text, version};
use fe2o3_scram::{Meter, Password, RecordStore, ScramRecord, ScramVersion};
use saslprep::{Unassigned, saslprep};
use test_rows::{Row, call};

/// Says whether a record is written as it was read, and made again of its password: `RECORD PASSWORD`.
pub fn record(row: &mut Row<'_>) {
    let (alloc, text, password) = (row.alloc, row.word(), row.text());
    let read = call!(row: "ScramRecord::parse" => ScramRecord::parse(alloc, text));
    if let Some(record) = row.get(read) {
        let written = row.made(record.to_text(alloc), String::new(alloc));
        compare_text(row, &written, text, "written and");
        let made = made_again(row, &record, Password::Typed(&password));
        compare_text(row, &made, text, "made again");
    }
}

/// Says what a typed password is prepared to, whether that meets the record, and which it makes: `RECORD TYPED`.
pub fn prepared_record(row: &mut Row<'_>) {
    let (alloc, text, typed) = (row.alloc, row.word(), row.text());
    let read = ScramRecord::parse(alloc, text);
    let prepared = saslprep(alloc, &typed, Unassigned::Refused);
    let (Ok(record), Ok(prepared)) = (&read, &prepared) else {
        return row.refuse("no record, or not prepared");
    };
    let (kept, version) = (record.as_stored_password(), *record.scram_version());
    row.say(prepared.as_str());
    let prepared = Password::Prepared(prepared.as_str());
    if !kept.verify_password(version, prepared, &mut Meter::new()) {
        row.say("not met");
    }
    let made = made_again(row, record, prepared);
    compare_text(row, &made, text, "made again and met,");
    let typed = made_again(row, record, Password::Typed(&typed));
    row.say(typed);
    row.say("by the plain call");
}

/// Returns the text of the record of a password with the salt and the count of another, or the name of the error.
fn made_again(row: &mut Row<'_>, record: &ScramRecord, password: Password<'_>) -> String {
    let (alloc, version, kept) = (
        row.alloc,
        *record.scram_version(),
        record.as_stored_password(),
    );
    let (salt, count, mut meter) = (kept.salt, kept.iterations, Meter::new());
    let made = call!(row: "ScramRecord::from_password" =>
        ScramRecord::from_password(alloc, version, password, salt, count, &mut meter));
    let text = match &made {
        Ok(record) => record.to_text(alloc),
        Err(kind) => format!(in alloc; "{kind:?}"),
    };
    row.made(text, String::new(alloc))
}

/// Says why a text is no record: `TEXT`.
pub fn record_fault(row: &mut Row<'_>) {
    let (alloc, text) = (row.alloc, row.text());
    row.judge(&ScramRecord::parse(alloc, &text), "a record");
}

/// Says which line is not read and why, of a text and of the same after other lines: `VERSION LINES TEXT`.
pub fn record_lines(row: &mut Row<'_>) {
    let (version, mut lines, text) = (version(row), row.text(), row.text());
    refusal(row, version, &text);
    row.made(lines.push_str(&text), ());
    refusal(row, version, &lines);
}

/// Says the first line of a text that is not read, and why.
fn refusal(row: &mut Row<'_>, version: ScramVersion, text: &str) {
    match &RecordStore::parse_lines(row.alloc, version, text) {
        Ok(_) => row.say("users"),
        Err(error) => {
            row.say(error.line);
            row.show(&error.kind);
        }
    }
}

/// Says the mock record of a name, and its HMAC values: `VERSION SECRET NAME LENGTH COUNT`, with the salt's length.
pub fn made_up(row: &mut Row<'_>) {
    let (alloc, version, secret, name) = (row.alloc, version(row), row.bytes(), row.text());
    let (len, count, mut meter) = (row.number() as usize, row.number(), Meter::new());
    let made = call!(row: "ScramRecord::mock" =>
        ScramRecord::mock(alloc, version, &secret, &name, len, count, &mut meter));
    if let Some(record) = row.get(made) {
        say_record(row, &record);
    }
    row.say(meter.count());
}
