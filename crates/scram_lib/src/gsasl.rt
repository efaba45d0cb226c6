//! Records as `gsasl --mkpasswd` writes them: `{MECHANISM}COUNT,SALT,STOREDKEY,SERVERKEY`.

ghost use Rattle.std.specs.Prelude.{◌≡◌, ◌⊎◌, ◌++◌, IfOk, Ok, OnOk, string_bytes};
ghost use Rattle.fe2o3_scram.specs.RecordText.{ReadsRecord};
ghost use Rattle.fe2o3_scram.specs.Texts.{base64_text};
ghost use Rattle.scram_lib.specs.Gsasl.{gsasl_text};

use base64::engine::general_purpose::STANDARD;
use fe2o3_scram::{OutOfMemory, RecordTextError, ScramRecord};
use std::alloc::Global;

/// Returns the text of a record as `gsasl --mkpasswd` writes it.
pub fn gsasl_text(alloc: Global, kept: &ScramRecord) -> Result<String, OutOfMemory>
    ensures { IfOk result (λ text. string_bytes text ≡ gsasl_text kept.now) }
{
    let stored = kept.as_stored_password();
    let mut text = String::new(alloc);
    text.push_str("{")?;
    text.push_str(kept.scram_version().mechanism())?;
    text.push_str("}")?;
    text.write(stored.iterations)?;
    text.push_str(",")?;
    push_base64(&mut text, stored.salt)?;
    text.push_str(",")?;
    push_base64(&mut text, stored.stored_key)?;
    text.push_str(",")?;
    push_base64(&mut text, stored.server_key)?;
    Ok(text)
}

/// Appends bytes in base64.
fn push_base64(text: &mut String, bytes: &[u8]) -> Result<(), OutOfMemory>
    ensures { OnOk result (string_bytes text.new ≡ string_bytes text.old ++ base64_text bytes.now) }
{
    STANDARD.encode_string(bytes, text)
}

/// Reads a record as `gsasl --mkpasswd` writes it, or as RFC 5803, section 2, and PostgreSQL do.
pub fn record_of(alloc: Global, text: &str) -> Result<ScramRecord, RecordTextError>
    ensures { IfOk result (λ kept. ReadsRecord text.now (Ok kept) ⊎ (text.now ≡ gsasl_text kept)) }
{
    let Some((mechanism, rest)) = text.strip_prefix('{').and_then(|rest| rest.split_once('}'))
    else {
        return ScramRecord::parse(alloc, text);
    };
    let words: Vec<&str> = rest.split(',').collect(alloc)?;
    let [count, salt, stored_key, server_key] = words.as_slice() else {
        return Err(RecordTextError::PartsMismatch);
    };
    let plain = format!(in alloc; "{mechanism}${count}:{salt}${stored_key}:{server_key}")?;
    let record = ScramRecord::parse(alloc, &plain)?;
    // A field with a dollar sign or a colon would be read otherwise.
    if gsasl_text(alloc, &record)?.as_str() != text {
        return Err(RecordTextError::PartsMismatch);
    }
    Ok(record)
}
