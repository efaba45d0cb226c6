//! What a client says of its channel, as C passes it (RFC 5802, section 6).

ghost use Rattle.std.specs.Prelude.{◌≡◌, ◌≢◌, ◌≤◌, ◌<◌, ◌⊎◌, take, IfErr, MatchOption, MatchResult};
ghost use Rattle.fe2o3_scram.specs.ChannelBinding.{data_bytes};
ghost use Rattle.fe2o3_scram.specs.Readings.{IsFirst, NoneHolds};
ghost use Rattle.fe2o3_scram.specs.declared.channel_binding.ChannelKind.{ChannelKind as KindOf};
ghost use Rattle.sasl_c.specs.Channels.{IsChannel, channel_tests, kind_number};
ghost use Rattle.sasl_c.specs.declared.status.Status.TheVariants.{ChannelDataLength as StatusChannelDataLength, OutOfMemory as StatusOutOfMemory};

use crate::arrays::head;
use crate::status::Status;
use fe2o3_scram::{ChannelBinding, ChannelData, ChannelKind, ClientChannel};

/// Returns the kind of channel binding of a number of enum fe2o3_channel_kind.
fn kind_of(number: u32) -> Option<ChannelKind>
    ensures { MatchOption result ((known : KindOf) → number ≢ kind_number known) (λ kind. number ≡ kind_number kind) }
{
    match number {
        1 => Some(ChannelKind::TlsUnique),
        2 => Some(ChannelKind::TlsServerEndPoint),
        3 => Some(ChannelKind::TlsExporter),
        _ => None,
    }
}

/// Returns the data of a channel: the first bytes of an array. The only error is `ChannelDataLength`.
fn data_in(array: &[u8; 64], len: u32) -> Result<ChannelData, Status>
    ensures { MatchResult result (λ copied. (1 ≤ len) × (len ≤ 64) × (data_bytes copied ≡ take len array.now))
        (λ status. (status ≡ StatusChannelDataLength) × ((len ≡ 0) ⊎ (64 < len))) }
{
    let Some(bytes) = head(array, len) else {
        return Err(Status::ChannelDataLength);
    };
    match ChannelData::new(bytes) {
        Ok(cbind_data) => Ok(cbind_data),
        Err(_) => Err(Status::ChannelDataLength),
    }
}

/// Returns what a client says of its channel, by a number of enum fe2o3_channel_use, and if it binds the channel by its
/// kind and its data. `NoSuchChannel` for another number or another kind, and `ChannelDataLength`.
#[tactic(auto, using(crate::proofs::ChannelLemmas::channels))]
pub fn channel_in(
    number: u32,
    kind: u32,
    array: &[u8; 64],
    len: u32,
) -> Result<ClientChannel, Status>
    ensures tested { MatchResult result (λ channel. IsChannel number kind len array.now channel
        × NoneHolds (channel_tests number kind len)) (λ status. IsFirst (channel_tests number kind len) status) }
    ensures memory { IfErr result (λ status. status ≢ StatusOutOfMemory) }
{
    match number {
        0 => Ok(ClientChannel::Absent),
        1 => Ok(ClientChannel::NotOffered),
        2 => match kind_of(kind) {
            Some(kind) => match data_in(array, len) {
                Ok(cbind_data) => Ok(ClientChannel::Bound(ChannelBinding { kind, cbind_data })),
                Err(status) => Err(status),
            },
            None => Err(Status::NoSuchChannel),
        },
        _ => Err(Status::NoSuchChannel),
    }
}
