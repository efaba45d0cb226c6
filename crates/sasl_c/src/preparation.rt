//! SASLprep (RFC 4013), for non-ASCII passwords.

ghost use Rattle.std.specs.Prelude.{◌≡◌, ◌≢◌, Ok, Err, IfOk, IfErr, MatchOption};
ghost use Rattle.std.specs.Cow.{cow_str_bytes};
ghost use Rattle.saslprep.specs.declared.Unassigned.{Unassigned as Choice};
ghost use Rattle.sasl_c.specs.Saslprep.{PrepareAsks, PreparesTo, choice_number, saslprep_status};
ghost use Rattle.sasl_c.specs.Status.{AnswersText, AsksText, AsksWhere, Fills};
ghost use Rattle.sasl_c.specs.declared.status.Status.TheVariants.{OutOfMemory as StatusOutOfMemory};

use crate::arrays::put;
use crate::status::{Status, WriteError, text, text_number};
use saslprep::{SaslprepError, Unassigned, saslprep};
use std::alloc::Global;
use std::borrow::CowStr;

impl From<SaslprepError> for Status {
    ghost from_gives = { λ why status. status ≡ saslprep_status why };

    fn from(why: SaslprepError) -> Self {
        match why {
            SaslprepError::ProhibitedCharacter(_) => Status::ProhibitedCharacter,
            SaslprepError::MixedDirections => Status::MixedDirections,
            SaslprepError::UnassignedCodePoint(_) => Status::UnassignedCodePoint,
            SaslprepError::OutOfMemory => Status::OutOfMemory,
        }
    }
}

/// Returns the choice of a number.
fn choice_of(number: u32) -> Option<Unassigned>
    ensures { MatchOption result ((choice : Choice) → choice_number choice ≢ number)
        (λ choice. choice_number choice ≡ number) }
{
    match number {
        0 => Some(Unassigned::Refused),
        1 => Some(Unassigned::Allowed),
        _ => None,
    }
}

/// Returns the text that the bytes are prepared to.
#[tactic(auto, using(crate::proofs::SaslprepLemmas::prepares_to))]
fn prepared(alloc: Global, bytes: &[u8], unassigned: u32) -> Result<CowStr<'_>, Status>
    ensures ok { IfOk result (λ out. PreparesTo unassigned bytes.now (Ok (cow_str_bytes out))) }
    ensures err { IfErr result (λ status. status ≢ StatusOutOfMemory → PreparesTo unassigned bytes.now (Err status)) }
    ensures memory { AsksWhere (PrepareAsks unassigned bytes.now) result }
{
    let Some(choice) = choice_of(unassigned) else {
        return Err(Status::NoSuchChoice);
    };
    let Ok(text) = text(bytes) else {
        return Err(Status::NotUtf8);
    };
    match saslprep(alloc, text, choice) {
        Ok(out) => Ok(out),
        Err(why) => Err(Status::from(why)),
    }
}

/// Writes the text that SASLprep (RFC 4013) prepares `text` to. Printable ASCII is prepared to itself; other ASCII is
/// rejected.
///
/// Prepare a non-ASCII password before you store or use it, and pass the result where a prepared password is expected.
/// `unassigned` is FE2O3_UNASSIGNED_REFUSED for a text that is stored, and FE2O3_UNASSIGNED_ALLOWED for one that is
/// only compared with stored texts (RFC 3454, section 7).
///
/// The errors are, in this order: FE2O3_NO_SUCH_CHOICE for another `unassigned`; FE2O3_NOT_UTF8;
/// FE2O3_PROHIBITED_CHARACTER; FE2O3_MIXED_DIRECTIONS; FE2O3_UNASSIGNED_CODE_POINT; and FE2O3_ROOM_TOO_SMALL.
#[unsafe(no_mangle)]
pub extern "C" fn fe2o3_saslprep(
    alloc: Global,
    text: &[u8],
    unassigned: u32,
    out: &mut [u8],
    out_len: &mut usize,
) -> u32
    ensures { AnswersText result (λ answer. Fills (PreparesTo unassigned text.now) (record { bytes = out.old; len = out_len.old })
        (record { bytes = out.new; len = out_len.new }) answer × AsksText (PrepareAsks unassigned text.now) answer) }
{
    match prepared(alloc, text, unassigned) {
        Ok(text) => text_number(put(text.as_bytes(), out, out_len)),
        Err(status) => text_number(Err(WriteError::Other(status))),
    }
}
