//! What a SCRAM server accepts, as a struct.

ghost use Rattle.std.specs.Prelude.{true, ◌≡◌, ◌<◌, ◌≤◌, ◌↔◌, IsTrue, MatchResult, Ok};
ghost use Rattle.fe2o3_scram.specs.ChannelBinding.{TakesBound, TakesFlag, TakesUnbound};
ghost use Rattle.fe2o3_scram.specs.ClientFirst.{default_rules};
ghost use Rattle.sasl_c.specs.Rules.{HasLongKind, ShowsChannels, ShowsRules, channels_in, data_in, with_cbind_flag_y};
ghost use Rattle.sasl_c.specs.declared.status.Status.TheVariants.{ChannelDataLength as StatusChannelDataLength};

use crate::arrays::cleared;
use crate::flags::is_set;
use crate::status::Status;
use fe2o3_scram::{ChannelBindingFlag, ChannelBindings, ChannelData, ServerRules};

/// What identifies the channel of a server (RFC 5802, section 6). All zeros is a server that binds no channel.
#[repr(C)]
#[derive(Drop)]
pub struct ServerChannels {
    /// Whether the server binds channels: by a mechanism with `-PLUS` it accepts only clients that bind the channel, by a
    /// kind of which the struct has data (RFC 5802, section 6). 0 is no, and the data are then not used. Any other value
    /// is yes. Without data of any kind such a mechanism accepts no client.
    pub binds_channel: u32,

    /// The number of bytes of `tls_unique` in use, at most 64, or 0 if the server does not accept this kind.
    pub tls_unique_len: u32,

    /// The data of `tls-unique` (RFC 5929, section 3): the first Finished message of the TLS handshake. Only for TLS 1.2
    /// and older, and only with the extended master secret (RFC 7627).
    pub tls_unique: [u8; 64],

    /// The number of bytes of `tls_server_end_point` in use, at most 64, or 0 if the server does not accept this kind.
    pub tls_server_end_point_len: u32,

    /// The data of `tls-server-end-point` (RFC 5929, section 4): the hash of the server's certificate.
    pub tls_server_end_point: [u8; 64],

    /// The number of bytes of `tls_exporter` in use, at most 64, or 0 if the server does not accept this kind.
    pub tls_exporter_len: u32,

    /// The data of `tls-exporter` (RFC 9266): 32 bytes of exported keying material. For TLS 1.3, and for TLS 1.2 with
    /// the extended master secret.
    pub tls_exporter: [u8; 64],
}

/// What a SCRAM server accepts, where RFC 5802 leaves it a choice. You lend the struct to each call of an exchange,
/// always with the same values.
#[repr(C)]
#[derive(Drop)]
pub struct ScramRules<'a> {
    /// Whether the GS2 header may be `y,,` too: the client supports channel binding, and was offered no mechanism with
    /// `-PLUS` (RFC 5802, section 6). 0 is no, any other value yes. Only for a server that offers no such mechanism. It
    /// has no effect if the server binds channels.
    pub accept_cbind_flag_y: u32,

    /// Whether the server is strict: it reads messages by the grammar of RFC 5802, section 7. 0 is no, any other value
    /// yes. A user name has to be of one or more characters and without NUL (FE2O3_SERVER_CANNOT_PARSE_USERNAME), a nonce
    /// printable and not empty (FE2O3_SERVER_CANNOT_PARSE_CLIENT_NONCE), and what follows the nonce an extension
    /// (FE2O3_SERVER_MISPLACED_ATTRIBUTE). A server that binds channels or accepts identities tests the extensions in any
    /// case.
    pub strict: u32,

    /// The server's channel, if it is of the mechanism with `-PLUS`.
    pub channels: ServerChannels,

    /// Whether a client may name an identity to act for (RFC 5802, section 5.1). 0 is no, any other value yes. The identity
    /// is of one or more characters and without NUL (FE2O3_SERVER_CANNOT_PARSE_GS2_HEADER), and such a server tests the
    /// extensions like a strict one. By itself the option lets each user name only itself.
    pub accept_authzid: u32,

    /// Whether the server rejects what is no extension in the place of one (FE2O3_SERVER_MISPLACED_ATTRIBUTE), like a strict
    /// one, and nothing more: an empty user name is accepted. 0 is no, any other value yes. A server that binds channels
    /// rejects it in any case. If you offer a mechanism with `-PLUS` beside one without it, set the field for both, and
    /// accept `y,,` by neither. Then nobody on the way can make a client that has a channel log in without binding it,
    /// whatever library the client is of.
    pub reject_misplaced: u32,

    /// The identities that the claimed user may act for besides itself (RFC 4422, section 2), without escapes, with a zero
    /// byte after each but the last, which may have one too. It is read with the client-final message: look up the
    /// identities of the user (`fe2o3_scram_server_claimed_user`), or only whether it may act for the one that
    /// the client names (`fe2o3_scram_server_claimed_identity`). A user who may not act for the identity gets
    /// FE2O3_SERVER_AUTHENTICATION_FAILED, like one with a wrong password.
    pub identities: &'a [u8],
}

/// Returns the data of a kind of channel: the first bytes of an array, or no data if there are none.
#[tactic(auto, using(crate::proofs::RulesLemmas::data_of))]
fn data_of(array: &[u8; 64], len: u32) -> Result<Option<ChannelData>, Status>
    ensures { MatchResult result (λ known. (known ≡ data_in len array.now) × (len ≤ 64))
        (λ status. (status ≡ StatusChannelDataLength) × (64 < len)) }
{
    if len == 0 {
        return Ok(None);
    }
    if len > 64 {
        return Err(Status::ChannelDataLength);
    }
    Ok(Some(ChannelData {
        bytes: cleared(array, len),
        len: len as usize,
    }))
}

impl ServerChannels {
    /// Returns the data of each kind.
    fn data(&self) -> Result<ChannelBindings, Status>
        ensures { MatchResult result (λ channels. (channels ≡ channels_in self.now) × ¬ HasLongKind self.now)
            (λ status. (status ≡ StatusChannelDataLength) × HasLongKind self.now) }
    {
        Ok(ChannelBindings {
            tls_unique: data_of(&self.tls_unique, self.tls_unique_len)?,
            tls_server_end_point: data_of(
                &self.tls_server_end_point,
                self.tls_server_end_point_len,
            )?,
            tls_exporter: data_of(&self.tls_exporter, self.tls_exporter_len)?,
        })
    }

    /// Returns the channels that the struct means, if the server binds any.
    pub fn shown(&self) -> Result<Option<ChannelBindings>, Status>
        ensures { ShowsChannels self.now result }
    {
        match self.binds_channel {
            0 => Ok(None),
            _ => Ok(Some(self.data()?)),
        }
    }
}

impl ScramRules<'_> {
    /// Returns the rules that the struct means. Those of zeros are the rules of a server without options.
    #[tactic(auto, using(crate::proofs::RulesLemmas::zeros))]
    pub fn shown(&self) -> Result<ServerRules, Status>
        ensures shows { ShowsRules self.now result }
        ensures zeros { self.now.accept_cbind_flag_y ≡ 0 → self.now.strict ≡ 0 → self.now.channels.binds_channel ≡ 0
            → self.now.accept_authzid ≡ 0 → self.now.reject_misplaced ≡ 0 → result ≡ Ok default_rules }
    {
        self.read()
    }

    /// Returns the rules that the struct means. It is a function of its own because clause `zeros` of `shown` follows
    /// from this contract.
    fn read(&self) -> Result<ServerRules, Status>
        ensures { ShowsRules self.now result }
    {
        Ok(ServerRules {
            accept_cbind_flag_y: is_set(self.accept_cbind_flag_y),
            strict: is_set(self.strict),
            reject_misplaced: is_set(self.reject_misplaced),
            channels: self.channels.shown()?,
            accept_authzid: is_set(self.accept_authzid),
        })
    }
}

/// Returns these rules, but with the GS2 header `y,,` accepted if no channel is bound.
pub fn with_cbind_flag_y(rules: ServerRules) -> ServerRules
    ensures { result ≡ with_cbind_flag_y rules }
{
    ServerRules {
        accept_cbind_flag_y: true,
        ..rules
    }
}

/// Returns whether a server with these rules can have an open challenge to a client with this GS2 header: it has the data
/// of the client's kind, or both bind no channel.
pub fn takes(rules: &ServerRules, header: ChannelBindingFlag) -> bool
    ensures { IsTrue result ↔ TakesFlag rules.now.channels true header }
{
    match rules.channels {
        Some(channels) => takes_bound(&channels, header),
        None => takes_unbound(header),
    }
}

/// Returns whether a server that binds these channels takes a client with this GS2 header: it has the data of its kind.
fn takes_bound(channels: &ChannelBindings, header: ChannelBindingFlag) -> bool
    ensures { IsTrue result ↔ TakesBound channels.now header }
{
    match header {
        ChannelBindingFlag::Required(kind) => channels.data(kind).is_some(),
        ChannelBindingFlag::NotSupported | ChannelBindingFlag::ClientSupports => false,
    }
}

/// Returns whether a server that binds no channel takes a client with this GS2 header, `y,,` included.
fn takes_unbound(header: ChannelBindingFlag) -> bool
    ensures { IsTrue result ↔ TakesUnbound true header }
{
    match header {
        ChannelBindingFlag::NotSupported | ChannelBindingFlag::ClientSupports => true,
        ChannelBindingFlag::Required(_) => false,
    }
}
