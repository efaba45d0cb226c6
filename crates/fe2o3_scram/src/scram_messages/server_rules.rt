//! What a server accepts in a client's messages.

ghost use Rattle.std.specs.Prelude.{◌≡◌};
ghost use Rattle.fe2o3_scram.specs.ChannelBinding.{data_of_server, expected_channel, is_strict, known_data};
ghost use Rattle.fe2o3_scram.specs.ClientFirst.{default_rules};

use crate::channel_binding::{ChannelBinding, ChannelBindings, ChannelData, ChannelKind};
use crate::scram_messages::channel_binding_flag::ChannelBindingFlag;
use crate::scram_messages::client_channel::ClientChannel;

/// What a server accepts in a client's messages, where RFC 5802 leaves it a choice.
#[derive(Debug, Clone, Copy, PartialEq, Eq)]
pub struct ServerRules {
    /// Whether the GS2 header may be `y,,` too: that of a client which supports channel binding, and assumes that the
    /// server does not, since it was offered no mechanism with `-PLUS` (RFC 5802, section 6). A server that offers such
    /// a mechanism must not accept that client. It has no effect if the server binds channels.
    pub accept_cbind_flag_y: bool,

    /// Whether messages are read by the grammar of RFC 5802, section 7: a user name has to be of one or more characters
    /// and without NUL, a nonce printable and not empty, and what follows the nonce an extension. Extensions are ignored in
    /// any case. A server that binds channels or accepts identities tests what follows the nonce in any case.
    pub strict: bool,

    /// Whether the server rejects what is no extension in the place of one, as one that binds channels does, and
    /// nothing more: an empty user name is accepted. A server that offers SCRAM with and without `-PLUS` sets it for
    /// both, so that no attacker can make a client that has a channel skip channel binding, whatever the client tests
    /// itself.
    pub reject_misplaced: bool,

    /// The channel, if the server is of a mechanism with `-PLUS` (RFC 5802, section 6). It then accepts only clients
    /// that bind that channel, by a kind of which it has the data.
    pub channels: Option<ChannelBindings>,

    /// Whether a client may name an identity to act for (RFC 5802, section 5.1, `a=`), of one or more characters and
    /// without NUL. Such a server tests extensions like a strict one. Who may act as whom is decided after the proof.
    pub accept_authzid: bool,
}

impl ServerRules {
    /// Returns the rules of a server without options: the GS2 header has to be `n,,`, and the server is not strict.
    pub fn new() -> Self
        ensures { result ≡ default_rules }
    {
        ServerRules {
            accept_cbind_flag_y: false,
            strict: false,
            reject_misplaced: false,
            channels: None,
            accept_authzid: false,
        }
    }

    /// Returns whether the server rejects what is no extension in the place of one: it is strict, binds channels,
    /// accepts identities, or is set to it alone.
    pub fn is_strict(&self) -> bool
        ensures { result ≡ is_strict self.now }
    {
        self.channels.is_some() || (self.accept_authzid || (self.reject_misplaced || self.strict))
    }

    /// Returns the channel that the server expects of a client with this flag in its GS2 header. If the server has no
    /// data of the client's kind, no channel has the data that it expects.
    pub fn expected_channel(&self, flag: ChannelBindingFlag) -> ClientChannel
        ensures { result ≡ expected_channel self.now.channels flag }
    {
        match flag {
            ChannelBindingFlag::NotSupported => ClientChannel::Absent,
            ChannelBindingFlag::ClientSupports => ClientChannel::NotOffered,
            ChannelBindingFlag::Required(kind) => ClientChannel::Bound(ChannelBinding {
                kind,
                cbind_data: self.data(kind),
            }),
        }
    }

    /// Returns the server's data of a kind, or no data.
    fn data(&self, kind: ChannelKind) -> ChannelData
        ensures { result ≡ known_data (data_of_server self.now.channels kind) }
    {
        let known = match self.channels {
            Some(channels) => channels.data(kind),
            None => None,
        };
        match known {
            Some(data) => data,
            None => ChannelData {
                bytes: [0; 64],
                len: 0,
            },
        }
    }
}
