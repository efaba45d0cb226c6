//! What SASLprep makes of texts. Texts are code points in hexadecimal digits, with `+` between them.

use saslprep::{SaslprepError, Unassigned, saslprep};
use std::borrow::CowStr;
use std::fmt::Write;
use test_rows::{Row, call};

/// Says what each code point by itself is prepared to, once for neighbors with one answer: `FIRST-LAST`. The answer is that
/// of a stored text, and `unassigned` for a point that a query keeps, or changes.
pub fn code_points(row: &mut Row<'_>) {
    let points = row.word();
    let (first, last) = points.split_once('-').unwrap_or((points, points));
    let (first, last) = (code_of(row, first), code_of(row, last));
    let mut before = String::new(row.alloc);
    for code in first..=last {
        if let Some(c) = char::from_u32(code) {
            let mut bytes = [0; 4];
            say_point(row, c.encode_utf8(&mut bytes));
            let answer = row.take_answer();
            if answer != before {
                row.say(before.as_str());
                before = answer;
            }
        }
    }
    row.say(before.as_str());
}

/// Says what a code point is prepared to.
fn say_point(row: &mut Row<'_>, text: &str) {
    let stored = saslprep(row.alloc, text, Unassigned::Refused);
    let query = saslprep(row.alloc, text, Unassigned::Allowed);
    match (&stored, &query) {
        (Err(SaslprepError::UnassignedCodePoint(_)), Ok(out)) if out.as_str() == text => {
            row.say("unassigned")
        }
        (Err(SaslprepError::UnassignedCodePoint(_)), Ok(_)) => row.say("unassigned, changed"),
        (Err(SaslprepError::ProhibitedCharacter(_)), Err(_)) => row.say("prohibited"),
        _ if stored == query => say_prepared(row, text, &stored),
        _ => row.refuse(query),
    }
}

/// Says what a text is prepared to in a mode: `TEXT MODE`. A comma and the answers of others may follow the mode.
pub fn text(row: &mut Row<'_>) {
    let (alloc, points, mut text) = (row.alloc, row.word(), String::new(row.alloc));
    for point in points.split('+') {
        let c = char::from_u32(code_of(row, point)).unwrap_or(char::REPLACEMENT_CHARACTER);
        row.made(text.push(c), ());
    }
    let unassigned = match row.rest().split(',').next() {
        Some("query") => Unassigned::Allowed,
        _ => Unassigned::Refused,
    };
    let prepared = call!(row: "saslprep" => saslprep(alloc, &text, unassigned));
    say_prepared(row, &text, &prepared);
}

/// Says what a text is prepared to: `kept`, `nothing`, the code points, or the error with its code point.
fn say_prepared(row: &mut Row<'_>, text: &str, prepared: &Result<CowStr<'_>, SaslprepError>) {
    match prepared {
        Ok(out) if out.as_str() == text => row.say("kept"),
        Ok(out) if out.is_empty() => row.say("nothing"),
        Ok(out) => say_points(row, out),
        Err(SaslprepError::ProhibitedCharacter(c)) => {
            row.say(format_args!("prohibited {:04X}", u32::from(*c)));
        }
        Err(SaslprepError::MixedDirections) => row.say("mixed"),
        Err(SaslprepError::UnassignedCodePoint(c)) => {
            row.say(format_args!("unassigned {:04X}", u32::from(*c)));
        }
        Err(error) => row.show(error),
    }
}

/// Says the code points of a text.
fn say_points(row: &mut Row<'_>, text: &str) {
    let mut points = String::new(row.alloc);
    for c in text.chars() {
        let separator = if points.is_empty() { "" } else { "+" };
        let written = write!(points, "{separator}{:04X}", u32::from(c));
        row.made(written, ());
    }
    row.say(points);
}

/// Returns the number of hexadecimal digits.
fn code_of(row: &mut Row<'_>, digits: &str) -> u32 {
    row.made(u32::from_str_radix(digits, 16), 0)
}
