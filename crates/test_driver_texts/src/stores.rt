//! Stores of users, which are read from lines, asked, changed, and written as lines.

use crate::options::record_of;
use crate::words::version;
use fe2o3_scram::{MultiRecordStore, RecordStore, ScramRecord, WriteLinesError};
use test_rows::{Row, call, free_call};

/// Adds the lines of a store to the answer, with `|` after each, or the error.
fn say_lines(row: &mut Row<'_>, written: Result<Vec<u8>, WriteLinesError>) {
    if let Some(lines) = row.get(written) {
        let text = row.made(str::from_utf8(&lines), "");
        for line in text.lines() {
            row.say(line);
            row.say("|");
        }
    }
}

/// Adds the text of a record to the answer, and returns whether it was written.
pub fn say_record(row: &mut Row<'_>, record: &ScramRecord) -> bool {
    let text = call!(row: "ScramRecord::to_text" => record.to_text(row.alloc));
    let is_written = text.is_ok();
    if let Some(text) = row.get(text) {
        row.say(text);
    }
    is_written
}

/// Says what a call on the store of these lines gives, and the lines thereafter: `VERSION LINES CALL`. A store that a failed
/// call changed is reported, and a clone that a call changed, if there is one: the call then begins with `shared`.
pub fn store(row: &mut Row<'_>) {
    let (alloc, version, lines) = (row.alloc, version(row), row.text());
    let read = call!(row: "RecordStore::parse_lines" =>
        RecordStore::parse_lines(alloc, version, &lines));
    let Some(mut users) = row.get(read) else {
        return drop(row.rest());
    };
    let clone = free_call!(row: "RecordStore::clone" => users.clone().ok());
    let kept = if row.takes("shared") { clone } else { None };
    if change(row, &mut users) {
        let written = call!(row: "RecordStore::to_lines" => users.to_lines(alloc));
        say_lines(row, written);
    } else {
        say_if_changed(row, &users, &lines);
    }
    if let Some(kept) = &kept {
        say_if_changed(row, kept, &lines);
    }
    drop(users);
}

/// Reports a store of other lines.
fn say_if_changed(row: &mut Row<'_>, users: &RecordStore, lines: &str) {
    match users.to_lines(row.alloc) {
        Ok(found) if found.as_slice() == lines.as_bytes() => (),
        _ => row.refuse("changed"),
    }
}

/// Makes a call on a store, and returns whether it did not fail.
fn change(row: &mut Row<'_>, users: &mut RecordStore) -> bool {
    let (call, name) = (row.word(), row.text());
    let found = match call {
        "add" => {
            let record = record_of(row);
            let added = call!(row: "RecordStore::add" => users.add(name, record));
            row.judge(&added, "added");
            return added.is_ok();
        }
        "replace" => {
            let record = record_of(row);
            let found = call!(row: "RecordStore::replace" => users.replace(&name, record));
            row.get(found)
        }
        "remove" => {
            let found = call!(row: "RecordStore::remove" => users.remove(&name));
            row.get(found)
        }
        _ => {
            return match users.record(&name) {
                Some(record) => say_record(row, record),
                None => true,
            };
        }
    };
    if let Some(found) = found {
        row.say(if found { "found" } else { "unknown" });
    }
    found.is_some()
}

/// Says what a call on the store of these lines, which are of several versions, gives, and the lines thereafter: `LINES CALL`.
pub fn versions(row: &mut Row<'_>) {
    let (alloc, lines, call, name) = (row.alloc, row.text(), row.word(), row.text());
    let read = call!(row: "MultiRecordStore::parse_lines" =>
        MultiRecordStore::parse_lines(alloc, &lines));
    let Some(mut users) = row.get(read) else {
        return drop(row.rest());
    };
    if call == "records" {
        let records = call!(row: "MultiRecordStore::records" => users.records(&name));
        if let Some(records) = row.get(records) {
            for record in records.iter() {
                say_record(row, record);
            }
        }
        return drop(users);
    }
    if call == "add" {
        let record = record_of(row);
        let added = call!(row: "MultiRecordStore::add" => users.add(name, record));
        row.judge(&added, "added");
        if added.is_err() {
            return drop(users);
        }
    }
    let written = call!(row: "MultiRecordStore::to_lines" => users.to_lines(alloc));
    say_lines(row, written);
    drop(users);
}
