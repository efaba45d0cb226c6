//! Channel binding (RFC 5056; RFC 5802, section 6): what identifies the channel under an exchange.

ghost use Rattle.std.specs.Prelude.{◌≡◌, ◌≢◌, ◌⊎◌, ◌≤◌, ◌<◌, length, MatchOption, MatchResult};
ghost use Rattle.fe2o3_scram.specs.declared.channel_binding.ChannelKind.{ChannelKind as KindOf};
ghost use Rattle.fe2o3_scram.specs.ChannelBinding.{data_bytes, data_of_kind, kind_name};

use thiserror::Error;

/// The longest data of a channel, in bytes.
const MAX_DATA_LEN: usize = 64;

/// A kind of channel binding, by its registered name. Both sides have to use one kind: a client selects it, and cannot
/// ask a server which kinds it has.
#[derive(Debug, Clone, Copy, PartialEq, Eq)]
pub enum ChannelKind {
    /// `tls-unique` (RFC 5929, section 3): the first Finished message of the TLS handshake. Only for TLS 1.2 and older,
    /// and only with the extended master secret (RFC 7627).
    TlsUnique,

    /// `tls-server-end-point` (RFC 5929, section 4): the hash of the server's certificate. It does not protect against
    /// someone who has the server's private key.
    TlsServerEndPoint,

    /// `tls-exporter` (RFC 9266): 32 bytes of exported keying material. For TLS 1.3, and for TLS 1.2 with the extended
    /// master secret.
    TlsExporter,
}

impl ChannelKind {
    /// Returns the registered name.
    pub fn name(self) -> &'static str
        ensures { result.now ≡ kind_name self }
    {
        match self {
            ChannelKind::TlsUnique => "tls-unique",
            ChannelKind::TlsServerEndPoint => "tls-server-end-point",
            ChannelKind::TlsExporter => "tls-exporter",
        }
    }

    /// Returns the kind with this registered name, or `None` for any other name.
    pub fn from_name(name: &str) -> Option<ChannelKind>
        ensures { MatchOption result ((kind : KindOf) → kind_name kind ≢ name.now)
            (λ kind. kind_name kind ≡ name.now) }
    {
        match name {
            "tls-unique" => Some(ChannelKind::TlsUnique),
            "tls-server-end-point" => Some(ChannelKind::TlsServerEndPoint),
            "tls-exporter" => Some(ChannelKind::TlsExporter),
            _ => None,
        }
    }
}

/// The data of a channel are empty, or have more than 64 bytes, which no registered kind has.
#[derive(Debug, Clone, Copy, PartialEq, Eq, Error)]
#[error("Channel binding data of a wrong length")]
pub struct ChannelDataLength;

/// The data that identify a channel, of 1 to 64 bytes (RFC 5802, section 7): the caller has them from TLS.
#[derive(Debug, Clone, Copy, PartialEq, Eq)]
pub struct ChannelData {
    /// The data, and zeros.
    pub bytes: [u8; 64],

    /// How many bytes the data has.
    pub len: usize,
}

impl ChannelData {
    /// Copies the data of a channel.
    ///
    /// The only error is `ChannelDataLength`, for no bytes and for more than 64.
    pub fn new(cbind_data: &[u8]) -> Result<Self, ChannelDataLength>
        ensures { MatchResult result (λ copied. (1 ≤ length cbind_data.now) × (length cbind_data.now ≤ 64)
            × (data_bytes copied ≡ cbind_data.now))
            (λ _. (length cbind_data.now ≡ 0) ⊎ (64 < length cbind_data.now)) }
    {
        if cbind_data.is_empty() || cbind_data.len() > MAX_DATA_LEN {
            return Err(ChannelDataLength);
        }
        let mut bytes = [0; MAX_DATA_LEN];
        bytes[..cbind_data.len()].copy_from_slice(cbind_data);
        Ok(Self {
            bytes,
            len: cbind_data.len(),
        })
    }

    /// Returns the data.
    pub fn as_slice(&self) -> &[u8]
        ensures { result.now ≡ data_bytes self.now }
    {
        if self.len < MAX_DATA_LEN {
            &self.bytes[..self.len]
        } else {
            &self.bytes
        }
    }
}

/// A channel: its kind and its data.
#[derive(Debug, Clone, Copy, PartialEq, Eq)]
pub struct ChannelBinding {
    /// The kind.
    pub kind: ChannelKind,

    /// The data.
    pub cbind_data: ChannelData,
}

/// The channel as a server knows it: its data, by each kind that the server accepts.
#[derive(Debug, Clone, Copy, PartialEq, Eq)]
pub struct ChannelBindings {
    /// The data of `tls-unique`.
    pub tls_unique: Option<ChannelData>,

    /// The data of `tls-server-end-point`.
    pub tls_server_end_point: Option<ChannelData>,

    /// The data of `tls-exporter`.
    pub tls_exporter: Option<ChannelData>,
}

impl ChannelBindings {
    /// Returns the data of a kind, or `None` if the server does not accept that kind.
    pub fn data(&self, kind: ChannelKind) -> Option<ChannelData>
        ensures { result ≡ data_of_kind self.now kind }
    {
        match kind {
            ChannelKind::TlsUnique => self.tls_unique,
            ChannelKind::TlsServerEndPoint => self.tls_server_end_point,
            ChannelKind::TlsExporter => self.tls_exporter,
        }
    }
}
