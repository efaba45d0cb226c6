//! The text of a store: a line for each user and record (RFC 5802, section 5.1; RFC 5803, section 2).

ghost use Rattle.std.specs.Prelude.{◌≡◌, ◌≢◌, Ok, Err, IfOk, IfErr};
ghost use Rattle.std.specs.Str.{IsUtf8};
ghost use Rattle.sasl_c.specs.Lines.{AllAsks, Chosen, FindAsks, FindsRecord, FindsInto, NotChosen, SpellsLine, TellsAll, TellsAllInto, line_status};
ghost use Rattle.sasl_c.specs.Status.{Answers, AnswersText, AsksText, AsksWhere, Fills};
ghost use Rattle.sasl_c.specs.declared.status.Status.TheVariants.{OutOfMemory as StatusOutOfMemory};

use crate::arrays::write;
use crate::flags::flag_number;
use crate::records::ScramRecord;
use crate::status::{Status, WriteError, number, text, text_number, version_of};
use fe2o3_scram::{
    MultiRecordStore, ReadLinesErrorKind, RecordTextError, ScramVersion, WriteLinesError,
};
use std::alloc::Global;

/// Returns why a line cannot be parsed, as a status.
fn of_line(kind: ReadLinesErrorKind) -> Status
    ensures { result ≡ line_status kind }
{
    match kind {
        ReadLinesErrorKind::LineFeedMissing => Status::LineFeedMissing,
        ReadLinesErrorKind::SpaceMissing => Status::SpaceMissing,
        ReadLinesErrorKind::InvalidName => Status::InvalidName,
        ReadLinesErrorKind::InvalidRecord(RecordTextError::OutOfMemory) => Status::OutOfMemory,
        ReadLinesErrorKind::InvalidRecord(why) => Status::NoRecord(why),
        ReadLinesErrorKind::VersionMismatch => Status::OtherVersion,
        ReadLinesErrorKind::OutOfMemory => Status::OutOfMemory,
    }
}

/// Returns the record of this version that a user has, as a struct.
fn chosen(
    users: &MultiRecordStore,
    username: &str,
    version: ScramVersion,
) -> Result<ScramRecord, Status>
    ensures ok { IfOk result (λ made. Chosen users.now username.now version made) }
    ensures err { IfErr result (λ status. NotChosen users.now username.now version status) }
{
    match users.for_version(version).record(username) {
        Some(kept) => match ScramRecord::of(kept) {
            Some(made) => Ok(made),
            None => Err(Status::TooLong),
        },
        None => Err(Status::NoSuchUser),
    }
}

/// Why no record is found, and the number of the bad line, counted from 1; 0 if every line can be parsed.
#[derive(Clone, Copy)]
struct NotFound {
    why: Status,
    line: usize,
}

impl From<Status> for NotFound {
    ghost from_gives = { λ status found. found ≡ record { why = status; line = 0 } };

    fn from(why: Status) -> Self {
        NotFound { why, line: 0 }
    }
}

/// Finds the record that a user has in a text, as a struct.
#[tactic(auto, using(crate::proofs::LineLemmas::finds))]
fn found(
    alloc: Global,
    lines: &[u8],
    username: &[u8],
    version: u32,
) -> Result<ScramRecord, NotFound>
    ensures ok { IfOk result (λ made. FindsRecord lines.now username.now version 0 (Ok made)) }
    ensures err { IfErr result (λ none. none.why ≢ StatusOutOfMemory
        → FindsRecord lines.now username.now version none.line (Err none.why)) }
    ensures memory { IfErr result (λ none. none.why ≡ StatusOutOfMemory
        → FindAsks lines.now username.now version) }
{
    let Some(known) = version_of(version) else {
        return Err(NotFound::from(Status::NoSuchVersion));
    };
    let username = text(username)?;
    let lines = text(lines)?;
    match MultiRecordStore::parse_lines(alloc, lines) {
        Ok(users) => match chosen(&users, username, known) {
            Ok(made) => {
                drop(users);
                Ok(made)
            }
            Err(status) => {
                drop(users);
                Err(NotFound::from(status))
            }
        },
        Err(error) => Err(NotFound {
            why: of_line(error.kind),
            line: error.line,
        }),
    }
}

/// Writes the number of the line, unless an allocation failed.
fn tell(none: NotFound, line: &mut usize)
    ensures memory { none.why ≡ StatusOutOfMemory → line.new ≡ line.old }
    ensures told { none.why ≢ StatusOutOfMemory → line.new ≡ none.line }
{
    if !matches!(none.why, Status::OutOfMemory) {
        *line = none.line;
    }
}

/// Finds the record that a user has in a text, and writes it.
fn find(
    alloc: Global,
    lines: &[u8],
    username: &[u8],
    version: u32,
    line: &mut usize,
    kept: &mut ScramRecord,
) -> Result<(), Status>
    ensures finds { FindsInto lines.now username.now version line.old line.new kept.old kept.new result }
    ensures memory { AsksWhere (FindAsks lines.now username.now version) result }
{
    match found(alloc, lines, username, version) {
        Ok(made) => {
            *kept = made;
            Ok(())
        }
        Err(none) => {
            tell(none, line);
            Err(none.why)
        }
    }
}

/// Finds the record of a user in a text that has a line for each record: the name with each comma as `=2C` and each
/// equals sign as `=3D`, a space, the text of the record, and a line feed. Of several lines for a name and version,
/// the first counts.
///
/// If nothing is found, `line` is the number of the line that cannot be parsed, counted from 1, or 0 if every line
/// can.
///
/// The errors are, in this order: FE2O3_NO_SUCH_VERSION; FE2O3_NOT_UTF8 for the name or the text; the fault of the
/// first line that cannot be parsed; and FE2O3_NO_SUCH_USER, or FE2O3_TOO_LONG for a salt of more than 128 bytes.
#[unsafe(no_mangle)]
pub extern "C" fn fe2o3_scram_lines_find(
    alloc: Global,
    lines: &[u8],
    username: &[u8],
    version: u32,
    line: &mut usize,
    kept: &mut ScramRecord,
) -> u32
    ensures { Answers result (λ answer. FindsInto lines.now username.now version line.old line.new kept.old kept.new
        answer × AsksWhere (FindAsks lines.now username.now version) answer) }
{
    number(find(alloc, lines, username, version, line, kept))
}

/// Returns whether each user of a text has a record of this version.
#[tactic(auto, using(crate::proofs::LineLemmas::tells))]
fn all_have(alloc: Global, lines: &[u8], version: u32) -> Result<bool, NotFound>
    ensures ok { IfOk result (λ all. TellsAll lines.now version 0 (Ok all)) }
    ensures err { IfErr result (λ none. none.why ≢ StatusOutOfMemory
        → TellsAll lines.now version none.line (Err none.why)) }
    ensures memory { IfErr result (λ none. none.why ≡ StatusOutOfMemory → AllAsks lines.now version) }
{
    let Some(version) = version_of(version) else {
        return Err(NotFound::from(Status::NoSuchVersion));
    };
    let lines = text(lines)?;
    match MultiRecordStore::parse_lines(alloc, lines) {
        Ok(users) => {
            let all = users.all_have(version);
            drop(users);
            Ok(all)
        }
        Err(fault) => Err(NotFound {
            why: of_line(fault.kind),
            line: fault.line,
        }),
    }
}

/// Writes whether each user of a text has a record of this version.
fn tell_all(
    alloc: Global,
    lines: &[u8],
    version: u32,
    line: &mut usize,
    all: &mut u32,
) -> Result<(), Status>
    ensures tells { TellsAllInto lines.now version line.old line.new all.old all.new result }
    ensures memory { AsksWhere (AllAsks lines.now version) result }
{
    match all_have(alloc, lines, version) {
        Ok(each) => {
            *all = flag_number(each);
            Ok(())
        }
        Err(none) => {
            tell(none, line);
            Err(none.why)
        }
    }
}

/// Writes 1 to `all` if each user of a text has a record of this version, and 0 if one has none. The text is one that
/// `fe2o3_scram_lines_find` reads. Offer only hashes by which all users can log in: a client selects the strongest hash that
/// is offered, whether its user has a record of it or not. A text without users has 1 for every version.
///
/// If the text cannot be parsed, `line` is the number of the first line that cannot, counted from 1. It is 0 after the other
/// errors, except FE2O3_OUT_OF_MEMORY, which leaves it unchanged.
///
/// The errors are, in this order: FE2O3_NO_SUCH_VERSION; FE2O3_NOT_UTF8; and the fault of the first line that cannot
/// be parsed.
#[unsafe(no_mangle)]
pub extern "C" fn fe2o3_scram_lines_all_have(
    alloc: Global,
    lines: &[u8],
    version: u32,
    line: &mut usize,
    all: &mut u32,
) -> u32
    ensures { Answers result (λ answer. TellsAllInto lines.now version line.old line.new all.old all.new answer
        × AsksWhere (AllAsks lines.now version) answer) }
{
    number(tell_all(alloc, lines, version, line, all))
}

/// Returns the line of a user and a record.
fn compute_line(alloc: Global, username: &[u8], kept: &ScramRecord) -> Result<Vec<u8>, Status>
    ensures ok { IfOk result (λ text. SpellsLine username.now kept.now (Ok text.items)) }
    ensures err { IfErr result (λ status. status ≢ StatusOutOfMemory
        → SpellsLine username.now kept.now (Err status)) }
    ensures memory { AsksWhere (IsUtf8 username.now) result }
{
    let username = text(username)?.to_string(alloc)?;
    let kept = match kept.read(alloc) {
        Ok(kept) => kept,
        Err(status) => return Err(status),
    };
    let mut users = MultiRecordStore::new(alloc);
    if let Err(error) = users.add(username, kept) {
        drop(users);
        return Err(Status::from(error));
    }
    let text = users.to_lines(alloc);
    drop(users);
    match text {
        Ok(text) => Ok(text),
        Err(WriteLinesError::UserNotWritable) => Err(Status::NotWritable),
        Err(WriteLinesError::OutOfMemory) => Err(Status::OutOfMemory),
    }
}

/// Writes the line of a user and a record, with its line feed, as `fe2o3_scram_lines_find` reads it.
///
/// The errors are, in this order: FE2O3_NOT_UTF8 for the name; FE2O3_NO_SUCH_VERSION, and FE2O3_TOO_LONG for a `salt_len`
/// above 128, if the struct holds no record; FE2O3_NOT_WRITABLE if the name contains a line feed or the iteration count
/// is 0; and FE2O3_ROOM_TOO_SMALL.
#[unsafe(no_mangle)]
#[tactic(auto, using(crate::proofs::StatusLemmas::written))]
pub extern "C" fn fe2o3_scram_line(
    alloc: Global,
    username: &[u8],
    kept: &ScramRecord,
    out: &mut [u8],
    out_len: &mut usize,
) -> u32
    ensures { AnswersText result (λ answer. Fills (SpellsLine username.now kept.now)
        (record { bytes = out.old; len = out_len.old })
        (record { bytes = out.new; len = out_len.new }) answer × AsksText (IsUtf8 username.now) answer) }
{
    text_number(write(compute_line(alloc, username, kept), out, out_len))
}
