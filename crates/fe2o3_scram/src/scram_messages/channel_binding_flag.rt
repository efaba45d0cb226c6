//! What a GS2 header says of channel binding (RFC 5802, sections 6 and 7).

ghost use Rattle.std.specs.Prelude.{◌≡◌, ◌++◌, IsTrue, MatchOption, codes};
ghost use Rattle.fe2o3_scram.specs.ChannelBinding.{AcceptsFlag, TakesBound, TakesUnbound, flag_text, header_text, is_required, own_header};
ghost use Rattle.fe2o3_scram.specs.declared.channel_binding.ChannelKind.{ChannelKind as KindOf};
ghost use Rattle.fe2o3_scram.specs.Texts.{StartsWith};

use crate::channel_binding::{ChannelBindings, ChannelKind};
use crate::scram_messages::attributes::{
    CLIENT_SUPPORTS_FLAG, EXPORTER_FLAG, EXPORTER_GS2_HEADER, GS2_HEADER, NOT_SUPPORTED_FLAG,
    SERVER_END_POINT_FLAG, SERVER_END_POINT_GS2_HEADER, UNIQUE_FLAG, UNIQUE_GS2_HEADER,
    UNOFFERED_GS2_HEADER,
};
use crate::scram_messages::server_rules::ServerRules;
use crate::texts::after;

/// What a GS2 header says of channel binding (RFC 5802, sections 6 and 7, `gs2-cbind-flag`).
#[derive(Debug, Clone, Copy, PartialEq, Eq)]
pub enum ChannelBindingFlag {
    /// `n`: the client does not support channel binding.
    NotSupported,

    /// `y`: the client supports it, and assumes that the server does not, which offered no mechanism with `-PLUS`.
    ClientSupports,

    /// `p=` and a kind: the client requires channel binding of this kind.
    Required(ChannelKind),
}

impl ChannelBindingFlag {
    /// Returns the flag as it is written (RFC 5802, section 7, `gs2-cbind-flag`).
    pub fn name(self) -> &'static str
        ensures { result.now ≡ flag_text self }
    {
        match self {
            ChannelBindingFlag::NotSupported => "n",
            ChannelBindingFlag::ClientSupports => "y",
            ChannelBindingFlag::Required(ChannelKind::TlsUnique) => "p=tls-unique",
            ChannelBindingFlag::Required(ChannelKind::TlsServerEndPoint) => {
                "p=tls-server-end-point"
            }
            ChannelBindingFlag::Required(ChannelKind::TlsExporter) => "p=tls-exporter",
        }
    }

    /// Returns the GS2 header with this flag of a client that acts for itself.
    pub fn text(self) -> &'static str
        ensures { result.now ≡ header_text (own_header self) }
    {
        match self {
            ChannelBindingFlag::NotSupported => GS2_HEADER,
            ChannelBindingFlag::ClientSupports => UNOFFERED_GS2_HEADER,
            ChannelBindingFlag::Required(ChannelKind::TlsUnique) => UNIQUE_GS2_HEADER,
            ChannelBindingFlag::Required(ChannelKind::TlsServerEndPoint) => {
                SERVER_END_POINT_GS2_HEADER
            }
            ChannelBindingFlag::Required(ChannelKind::TlsExporter) => EXPORTER_GS2_HEADER,
        }
    }

    /// Returns whether the client requires channel binding: whether the header is `p=` and a kind.
    pub fn is_required(self) -> bool
        ensures { result ≡ is_required self }
    {
        matches!(self, ChannelBindingFlag::Required(_))
    }
}

/// Splits the flag and its comma off a client-first message, if the rules accept it.
pub(crate) fn cut_flag(text: &str, rules: ServerRules) -> Option<(ChannelBindingFlag, &str)>
    ensures { MatchOption result
        ((flag : ChannelBindingFlag) → AcceptsFlag rules flag → ¬ StartsWith text.now (flag_text flag ++ codes ","))
        (λ cut. AcceptsFlag rules cut.0 × (text.now ≡ (flag_text cut.0 ++ codes ",") ++ cut.1.now)) }
{
    match rules.channels {
        Some(channels) => cut_bound(text, channels),
        None => cut_unbound(text, rules.accept_cbind_flag_y),
    }
}

/// Splits off the flag of a client that binds no channel: `n`, or `y` if that is accepted.
fn cut_unbound(text: &str, accept_y: bool) -> Option<(ChannelBindingFlag, &str)>
    ensures { MatchOption result
        ((flag : ChannelBindingFlag) → TakesUnbound accept_y flag → ¬ StartsWith text.now (flag_text flag ++ codes ","))
        (λ cut. TakesUnbound accept_y cut.0 × (text.now ≡ (flag_text cut.0 ++ codes ",") ++ cut.1.now)) }
{
    if let Some(rest) = after(text, NOT_SUPPORTED_FLAG) {
        return Some((ChannelBindingFlag::NotSupported, rest));
    }
    if !accept_y {
        return None;
    }
    let rest = after(text, CLIENT_SUPPORTS_FLAG)?;
    Some((ChannelBindingFlag::ClientSupports, rest))
}

/// Splits off the flag of a client that binds a channel, if the server has the data of its kind.
fn cut_bound(text: &str, channels: ChannelBindings) -> Option<(ChannelBindingFlag, &str)>
    ensures { MatchOption result
        ((flag : ChannelBindingFlag) → TakesBound channels flag → ¬ StartsWith text.now (flag_text flag ++ codes ","))
        (λ cut. TakesBound channels cut.0 × (text.now ≡ (flag_text cut.0 ++ codes ",") ++ cut.1.now)) }
{
    let (kind, rest) = cut_kind(text)?;
    let _ = channels.data(kind)?;
    Some((ChannelBindingFlag::Required(kind), rest))
}

/// Splits off the flag of a client that binds a channel, of any kind.
fn cut_kind(text: &str) -> Option<(ChannelKind, &str)>
    ensures { MatchOption result
        ((kind : KindOf) → ¬ StartsWith text.now (flag_text (ChannelBindingFlag.Required kind) ++ codes ","))
        (λ cut. text.now ≡ (flag_text (ChannelBindingFlag.Required cut.0) ++ codes ",") ++ cut.1.now) }
{
    if let Some(rest) = after(text, UNIQUE_FLAG) {
        return Some((ChannelKind::TlsUnique, rest));
    }
    if let Some(rest) = after(text, SERVER_END_POINT_FLAG) {
        return Some((ChannelKind::TlsServerEndPoint, rest));
    }
    let rest = after(text, EXPORTER_FLAG)?;
    Some((ChannelKind::TlsExporter, rest))
}
