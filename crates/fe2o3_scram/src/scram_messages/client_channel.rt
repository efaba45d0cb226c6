//! What a client says of its channel (RFC 5802, sections 6 and 7).

ghost use Rattle.std.specs.Prelude.{◌≡◌};
ghost use Rattle.fe2o3_scram.specs.ChannelBinding.{cbind_data, flag_of, has_channel, is_bound};

use crate::channel_binding::ChannelBinding;
use crate::scram_messages::channel_binding_flag::ChannelBindingFlag;

/// What a client says of its channel (RFC 5802, section 6).
#[derive(Debug, Clone, Copy, PartialEq, Eq)]
pub enum ClientChannel {
    /// The client does not support channel binding, or has no channel: its GS2 header is `n,,`.
    Absent,

    /// The client has a channel, but was offered no mechanism with `-PLUS`: its GS2 header is `y,,`. A server that
    /// offered one has to reject it, so that nobody on the way can remove the mechanism from the offer. The client tests
    /// extensions, so that nobody can hide the flag from such a server by moving text between the messages.
    NotOffered,

    /// The client binds this channel, by a mechanism with `-PLUS`: its GS2 header is `p=` and the kind.
    Bound(ChannelBinding),
}

impl ClientChannel {
    /// Returns the flag of the client's GS2 header.
    pub fn flag(&self) -> ChannelBindingFlag
        ensures { result ≡ flag_of self.now }
    {
        match self {
            ClientChannel::Absent => ChannelBindingFlag::NotSupported,
            ClientChannel::NotOffered => ChannelBindingFlag::ClientSupports,
            ClientChannel::Bound(binding) => ChannelBindingFlag::Required(binding.kind),
        }
    }

    /// Returns whether the client binds a channel.
    pub fn is_bound(&self) -> bool
        ensures { result ≡ is_bound self.now }
    {
        match self {
            ClientChannel::Absent | ClientChannel::NotOffered => false,
            ClientChannel::Bound(_) => true,
        }
    }

    /// Returns whether the client has a channel, whether it binds it or not.
    pub fn is_there(&self) -> bool
        ensures { result ≡ has_channel self.now }
    {
        match self {
            ClientChannel::Absent => false,
            ClientChannel::NotOffered | ClientChannel::Bound(_) => true,
        }
    }

    /// Returns the data of the channel, which is empty if none is bound.
    pub fn data(&self) -> &[u8]
        ensures { result.now ≡ cbind_data self.now }
    {
        match self {
            ClientChannel::Absent | ClientChannel::NotOffered => &[],
            ClientChannel::Bound(binding) => binding.cbind_data.as_slice(),
        }
    }
}
