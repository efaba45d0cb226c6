//! What the messages of a login say of its channel, and of the identity that the client acts for (RFC 5802, sections 6
//! and 7).

ghost use Rattle.std.specs.Prelude.{◌&&◌, ◌≡◌, ◌≤◌, true, false, length, Ok, IfOk, option_map};
ghost use Rattle.fe2o3_scram.specs.ChannelBinding.{AcceptsFlag, ClientHeader as ClientHeaderOf, data_bytes, flag_of, header_text, needs_strict};
ghost use Rattle.fe2o3_scram.specs.ClientFinal.{ReadsFinalText, client_final_values};
ghost use Rattle.fe2o3_scram.specs.ClientFirst.{default_rules};
ghost use Rattle.fe2o3_scram.specs.declared.channel_binding.ChannelKind.TheVariants.{TlsUnique, TlsServerEndPoint, TlsExporter};
ghost use Rattle.fe2o3_scram.specs.declared.scram_messages.channel_binding_flag.ChannelBindingFlag.TheVariants.{NotSupported, ClientSupports, Required};

use base64::DecodeAllocError;
use base64::engine::general_purpose::STANDARD;
use fe2o3_scram::{
    ChannelBinding, ChannelBindingFlag, ChannelBindings, ChannelData, ClientChannel, ClientFinal,
    ClientHeader, ServerRules, ServerScramErrorKind, escape_username,
};
use std::alloc::{AllocError, Global};

/// Returns the rules that accept the GS2 header of a client-first message: of one that binds a channel, each kind, and
/// otherwise `n,,` and, with `any_header`, `y,,`. With `any_header` they accept the identity of a message that names one.
pub fn rules_for(any_header: bool, bound: bool, named: bool) -> ServerRules
    ensures identity { result.accept_authzid ≡ (any_header && named) }
    ensures plain { any_header ≡ false → result ≡ default_rules }
    ensures unbound { any_header ≡ true → bound ≡ false → AcceptsFlag result NotSupported
        × AcceptsFlag result ClientSupports }
    ensures bound { any_header ≡ true → bound ≡ true → AcceptsFlag result (Required TlsUnique)
        × AcceptsFlag result (Required TlsServerEndPoint) × AcceptsFlag result (Required TlsExporter) }
{
    // The parser only asks of which kinds the server has data.
    let known = Some(ChannelData {
        bytes: [0; 64],
        len: 1,
    });
    let every_kind = ChannelBindings {
        tls_unique: known,
        tls_server_end_point: known,
        tls_exporter: known,
    };
    ServerRules {
        accept_cbind_flag_y: any_header,
        strict: false,
        reject_misplaced: false,
        channels: if any_header && bound {
            Some(every_kind)
        } else {
            None
        },
        accept_authzid: any_header && named,
    }
}

/// Returns whether a client-first message names an identity to act for: `a=` follows its first comma.
pub fn names_identity(message: &[u8]) -> bool {
    let text = str::from_utf8(message).unwrap_or("");
    let (_, rest) = text.split_once(',').unwrap_or(("", ""));
    rest.starts_with("a=")
}

/// Returns what a client-first message says of the identity that the client acts for, if it names one.
pub fn identity_said(alloc: Global, acts_for: Option<&str>) -> Result<String, AllocError> {
    match acts_for {
        Some(name) => format!(in alloc; "acts for {name:?}, "),
        None => Ok(String::new(alloc)),
    }
}

/// Returns what a GS2 header says of the channel, before the rest of its message. `n,,` says nothing.
pub fn header_said(alloc: Global, header: ChannelBindingFlag) -> Result<String, AllocError> {
    match header {
        ChannelBindingFlag::NotSupported => Ok(String::new(alloc)),
        ChannelBindingFlag::ClientSupports => {
            String::from_str(alloc, "channel binding not offered, ")
        }
        ChannelBindingFlag::Required(kind) => {
            let kind = kind.name();
            format!(in alloc; "channel binding {kind}, ")
        }
    }
}

/// Returns what the channel binding of a client-final message says, before the rest of it. That of `n,,` says nothing.
pub fn channel_said(
    alloc: Global,
    channel: &ClientChannel,
    acts_for: Option<&str>,
) -> Result<String, AllocError> {
    let header = header_of(alloc, channel.flag(), acts_for)?;
    let header = String::from_utf8_lossy(alloc, &header)?;
    let header = header.as_str();
    match channel {
        ClientChannel::Absent if acts_for.is_none() => Ok(String::new(alloc)),
        ClientChannel::Absent | ClientChannel::NotOffered => format!(in alloc;
            "header {header:?}, "
        ),
        ClientChannel::Bound(binding) => {
            let digits = hex::encode(alloc, binding.cbind_data.as_slice())?;
            format!(in alloc; "header {header:?}, data {digits}, ")
        }
    }
}

/// Returns the GS2 header with this flag of a client that acts for this identity, or for itself (RFC 5802, section 7).
fn header_of(
    alloc: Global,
    flag: ChannelBindingFlag,
    acts_for: Option<&str>,
) -> Result<Vec<u8>, AllocError>
    ensures { IfOk result (λ text. text.items ≡ header_text (record {
      flag = flag;
      acts_for = option_map (λ name. name.now) acts_for.entry;
    })) }
{
    let Some(name) = acts_for else {
        return flag.text().as_bytes().to_vec(alloc);
    };
    let mut text = flag.name().as_bytes().to_vec(alloc)?;
    text.extend_from_slice(b",a=")?;
    text.extend_from_slice(&escape_username(alloc, name.as_bytes())?)?;
    text.push(b',')?;
    Ok(text)
}

/// Reads a client-final message after the GS2 header with this flag and this identity, of a client that binds a channel
/// with the data in the message.
pub fn read_final<'a>(
    alloc: Global,
    header: ChannelBindingFlag,
    acts_for: Option<&str>,
    nonce: &[u8],
    message: &'a [u8],
) -> Result<(ClientChannel, ClientFinal<'a>), ServerScramErrorKind>
    ensures channel { IfOk result (λ read. flag_of read.0 ≡ header) }
    ensures text { IfOk result (λ read.
        let sent : ClientHeaderOf = record { channel = read.0; acts_for = option_map (λ name. name.now) acts_for.entry } in
        ReadsFinalText sent (needs_strict sent) nonce.now message.now (Ok (client_final_values read.1))) }
{
    let channel = channel_in(alloc, header, acts_for, message)?;
    let sent = ClientHeader::new(channel, acts_for);
    let strict = sent.needs_strict();
    let last = ClientFinal::parse_with_header(alloc, &sent, strict, nonce, message)?;
    Ok((channel, last))
}

/// Returns the channel that a client-final message binds after this GS2 header, with the data in the message.
fn channel_in(
    alloc: Global,
    header: ChannelBindingFlag,
    acts_for: Option<&str>,
    message: &[u8],
) -> Result<ClientChannel, ServerScramErrorKind>
    ensures { IfOk result (λ channel. flag_of channel ≡ header) }
{
    match header {
        ChannelBindingFlag::NotSupported => Ok(ClientChannel::Absent),
        ChannelBindingFlag::ClientSupports => Ok(ClientChannel::NotOffered),
        ChannelBindingFlag::Required(kind) => Ok(ClientChannel::Bound(ChannelBinding {
            kind,
            cbind_data: data_in(alloc, &header_of(alloc, header, acts_for)?, message)?,
        })),
    }
}

/// Returns the data of the channel in a client-final message, after the text of a GS2 header. The errors are those of
/// the library's parser up to its test of the channel binding.
fn data_in(
    alloc: Global,
    header: &[u8],
    message: &[u8],
) -> Result<ChannelData, ServerScramErrorKind>
    ensures { IfOk result (λ found. 1 ≤ length (data_bytes found)) }
{
    let text = str::from_utf8(message).map_err(|_| ServerScramErrorKind::Utf8Error)?;
    let (first, _) = text.split_once(',').unwrap_or((text, ""));
    let Some(binding) = first.strip_prefix("c=") else {
        return Err(ServerScramErrorKind::CannotParseClientFinalMessage);
    };
    let input = match STANDARD.decode(alloc, binding.as_bytes()) {
        Ok(input) => input,
        Err(DecodeAllocError::OutOfMemory) => return Err(ServerScramErrorKind::OutOfMemory),
        Err(_) => return Err(ServerScramErrorKind::Base64DecodeError),
    };
    let Some(cbind_data) = input.strip_prefix(header) else {
        return Err(ServerScramErrorKind::InvalidChannelBinding);
    };
    ChannelData::new(cbind_data).map_err(|_| ServerScramErrorKind::InvalidChannelBinding)
}
