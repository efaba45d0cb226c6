//! The options of a SCRAM client.

ghost use Rattle.std.specs.Prelude.{◌≡◌, false};
ghost use Rattle.fe2o3_scram.specs.ClientSecret.{no_limit, up_to};
ghost use Rattle.fe2o3_scram.specs.declared.scram_messages.client_channel.ClientChannel.TheVariants.{Absent};

use crate::client_secret::IterationLimits;
use crate::scram_messages::ClientChannel;

/// The options of a SCRAM client.
#[derive(Debug, Clone, Copy, PartialEq, Eq)]
pub struct ClientOptions {
    /// The iteration counts that the client accepts. RFC 7677, section 4, asks for at least 4096.
    pub limits: IterationLimits,

    /// Whether the client accepts the server's signature in a challenge too, which it answers by an empty response. It
    /// then reports an Ok without data (RFC 4422, section 5).
    pub signature_by_challenge: bool,

    /// Whether the client is strict: it rejects messages that the grammar of RFC 5802, section 7, does not allow
    /// (`ScramClient::with_options`).
    pub strict: bool,

    /// What the client says of its channel (RFC 5802, section 6). With `ClientChannel::Bound` its mechanism is the one
    /// with `-PLUS`.
    pub channel: ClientChannel,
}

impl ClientOptions {
    /// Returns the options of a client that accepts every iteration count from 1 on, and has no channel. It is not
    /// strict, and accepts the server's signature only in the outcome.
    pub fn new() -> Self
        ensures { result ≡ record {
          limits = up_to no_limit;
          signature_by_challenge = false;
          strict = false;
          channel = Absent;
        } }
    {
        ClientOptions {
            limits: IterationLimits::none(),
            signature_by_challenge: false,
            strict: false,
            channel: ClientChannel::Absent,
        }
    }
}
