//! The channel of an argument `KIND:HEX`, and what a client and a server do with it (RFC 5802, section 6).

ghost use Rattle.std.specs.Prelude.{◌≡◌, ◌||◌, IfOk, IfErr, is_some, option_map};
ghost use Rattle.scram_base_lib.specs.Channel.{BindsOnly, RejectsChannel, SaysChannel, SpellsChannel, digits_in, name_in, only_data};

use crate::stop::Stop;
use crate::wire::hex_bytes;
use fe2o3_scram::{
    ChannelBinding, ChannelBindings, ChannelData, ChannelKind, ClientChannel, ServerRules,
};
use std::alloc::Global;

/// Parses a channel `KIND:HEX`: its kind is the text before the first colon, and its data are the rest.
///
/// The errors are `WrongChannelKind`, `WrongChannelData`, `WrongChannelLength` and `OutOfMemory`.
pub fn parse_channel(alloc: Global, word: &str) -> Result<ChannelBinding, Stop>
    ensures ok { IfOk result (SpellsChannel word.now) }
    ensures err { IfErr result (RejectsChannel word.now) }
{
    let (name, digits) = parts_of(word);
    let Some(kind) = ChannelKind::from_name(name) else {
        return Err(Stop::WrongChannelKind);
    };
    let bytes = hex_bytes(alloc, digits, Stop::WrongChannelData)?;
    match ChannelData::new(&bytes) {
        Ok(cbind_data) => Ok(ChannelBinding { kind, cbind_data }),
        Err(_) => Err(Stop::WrongChannelLength),
    }
}

/// Splits a word at its first colon. Without a colon the second part is empty.
pub fn parts_of(word: &str) -> (&str, &str)
    ensures name { result.0.now ≡ name_in word.now }
    ensures digits { result.1.now ≡ digits_in word.now }
{
    match word.split_once(':') {
        Some(parts) => parts,
        None => (word, ""),
    }
}

/// Returns what a client says of its channel: it binds the channel of the argument, if there is one. The errors are
/// those of [`parse_channel`].
pub fn client_channel(
    alloc: Global,
    word: Option<&str>,
    not_offered: bool,
) -> Result<ClientChannel, Stop>
    ensures { IfOk result (SaysChannel (option_map (λ word. word.now) word.entry) not_offered) }
{
    match word {
        Some(word) => Ok(ClientChannel::Bound(parse_channel(alloc, word)?)),
        None if not_offered => Ok(ClientChannel::NotOffered),
        None => Ok(ClientChannel::Absent),
    }
}

/// Returns what a server accepts: only clients that bind the channel of the argument, if there is one, and an identity to
/// act for only with `accept_authzid`. A server with a channel rejects misplaced text, also without `reject_misplaced`. The
/// errors are those of [`parse_channel`].
pub fn server_rules(
    alloc: Global,
    word: Option<&str>,
    accept_y: bool,
    strict: bool,
    reject_misplaced: bool,
    accept_authzid: bool,
) -> Result<ServerRules, Stop>
    ensures channels { IfOk result (λ rules. BindsOnly (option_map (λ word. word.now) word.entry) rules.channels) }
    ensures options { IfOk result (λ rules. (rules.accept_cbind_flag_y ≡ accept_y) × (rules.strict ≡ strict)
        × (rules.accept_authzid ≡ accept_authzid)) }
    ensures misplaced { IfOk result (λ rules. rules.reject_misplaced ≡ (reject_misplaced || is_some word.entry)) }
{
    Ok(ServerRules {
        accept_cbind_flag_y: accept_y,
        strict,
        reject_misplaced: reject_misplaced || word.is_some(),
        channels: channels(alloc, word)?,
        accept_authzid,
    })
}

/// Returns the channel as a server knows it, if there is an argument with one.
fn channels(alloc: Global, word: Option<&str>) -> Result<Option<ChannelBindings>, Stop>
    ensures { IfOk result (BindsOnly (option_map (λ word. word.now) word.entry)) }
{
    match word {
        Some(word) => Ok(Some(only(parse_channel(alloc, word)?))),
        None => Ok(None),
    }
}

/// Returns the channel as a server knows it that has the data of this kind only.
fn only(binding: ChannelBinding) -> ChannelBindings
    ensures { result ≡ only_data binding.kind binding.cbind_data }
{
    let (tls_unique, tls_server_end_point, tls_exporter) = match binding.kind {
        ChannelKind::TlsUnique => (Some(binding.cbind_data), None, None),
        ChannelKind::TlsServerEndPoint => (None, Some(binding.cbind_data), None),
        ChannelKind::TlsExporter => (None, None, Some(binding.cbind_data)),
    };
    ChannelBindings {
        tls_unique,
        tls_server_end_point,
        tls_exporter,
    }
}
