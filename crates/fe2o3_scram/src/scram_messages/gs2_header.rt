//! Reads the GS2 header (RFC 5802, section 7): what a client says of channel binding, and whom it acts for.

ghost use Rattle.std.specs.Prelude.{◌≡◌, ◌⊎◌, ◌++◌, List, ℕ, IfErr, IfOk, Option, Some, T, codes};
ghost use Rattle.std.specs.Cow.{IsBorrowedStr, cow_str_bytes};
ghost use Rattle.fe2o3_scram.specs.ChannelBinding.{Gs2Header, TakesHeader, TakesIdentity, authzid_text, header_text};
ghost use Rattle.fe2o3_scram.specs.ClientFirst.{HasEscapedIdentity};
ghost use Rattle.fe2o3_scram.specs.Escape.{NoEquals, escaped};
ghost use Rattle.fe2o3_scram.specs.Texts.{StartsWith};
ghost use Rattle.fe2o3_scram.specs.private.Headers.{cut_identity_of, header_cut};

use crate::scram_messages::attributes::AUTHZID_KEY;
use crate::scram_messages::channel_binding_flag::{ChannelBindingFlag, cut_flag};
use crate::scram_messages::escape::{UnescapeError, unescape_username};
use crate::scram_messages::grammar::is_value;
use crate::scram_messages::server_rules::ServerRules;
use crate::texts::{after, cut};
use std::alloc::Global;
use std::borrow::CowStr;

/// A GS2 header, and the text after it.
#[derive(Drop)]
pub(crate) struct CutHeader<'a> {
    pub(crate) flag: ChannelBindingFlag,
    pub(crate) acts_for: Option<CowStr<'a>>,
    pub(crate) rest: &'a str,
}

/// Splits the header off a client-first message. The errors are `Invalid` if the rules accept no header of the text, and
/// `OutOfMemory`, only for an identity with escapes.
pub(crate) fn cut_header<'a>(
    alloc: Global,
    text: &'a str,
    rules: ServerRules,
) -> Result<CutHeader<'a>, UnescapeError>
    ensures ok { IfOk result (λ cut. TakesHeader rules (header_cut cut)
        × (text.now ≡ header_text (header_cut cut) ++ cut.rest.now)) }
    ensures err { IfErr result (λ error. ((error ≡ UnescapeError.Invalid)
        × ((header : Gs2Header) → TakesHeader rules header → ¬ StartsWith text.now (header_text header)))
        ⊎ ((error ≡ UnescapeError.OutOfMemory) × HasEscapedIdentity rules text.now)) }
{
    let Some((flag, rest)) = cut_flag(text, rules) else {
        return Err(UnescapeError::Invalid);
    };
    let (acts_for, rest) = cut_identity(alloc, rest, rules.accept_authzid)?;
    Ok(CutHeader {
        flag,
        acts_for,
        rest,
    })
}

/// Splits the identity, if there is one, and the comma after it off the text.
fn cut_identity(
    alloc: Global,
    text: &str,
    accept: bool,
) -> Result<(Option<CowStr<'_>>, &str), UnescapeError>
    ensures ok { IfOk result (λ cut. TakesIdentity accept (cut_identity_of cut.0)
        × (text.now ≡ (authzid_text (cut_identity_of cut.0) ++ codes ",") ++ cut.1.now)) }
    ensures err { IfErr result (λ error. ((error ≡ UnescapeError.Invalid) × ((acts_for : Option (List ℕ))
        → TakesIdentity accept acts_for → ¬ StartsWith text.now (authzid_text acts_for ++ codes ",")))
        ⊎ ((error ≡ UnescapeError.OutOfMemory) × T accept × ((name : List ℕ) × (rest : List ℕ)
        × (text.now ≡ (authzid_text (Some name) ++ codes ",") ++ rest) × ¬ NoEquals (escaped name)))) }
{
    if let Some(rest) = after(text, ",") {
        return Ok((None, rest));
    }
    if !accept {
        return Err(UnescapeError::Invalid);
    }
    let Some(named) = after(text, AUTHZID_KEY) else {
        return Err(UnescapeError::Invalid);
    };
    let Some((escaped, rest)) = cut(named, ',') else {
        return Err(UnescapeError::Invalid);
    };
    let name = unescape_username(alloc, escaped)?;
    if is_value(name.as_bytes()) {
        Ok((Some(name), rest))
    } else {
        Err(UnescapeError::Invalid)
    }
}
