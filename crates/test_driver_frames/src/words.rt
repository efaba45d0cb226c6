//! Values of the words of a row.

use fe2o3_sasl::*;
use test_rows::Row;

/// Returns the version of SCRAM of a mechanism.
pub fn version(row: &mut Row<'_>) -> ScramVersion {
    let version = row.word().parse::<ScramVersion>();
    row.made(version, ScramVersion::Sha1)
}

/// Returns the keys of a password, a salt and a count, or says why there are none.
pub fn keys_of(row: &mut Row<'_>, version: ScramVersion, text: Password<'_>) -> Option<CachedKeys> {
    let (alloc, salt, count) = (row.alloc, row.digits(), row.number());
    let keys = CachedKeys::from_password(alloc, version, text, &salt, count, &mut Meter::new());
    row.get(keys)
}

/// Returns the channel of a kind, by its registered name, and of data in hexadecimal digits.
pub fn channel(row: &mut Row<'_>) -> Option<ChannelBinding> {
    let (kind, data) = (ChannelKind::from_name(row.word())?, row.digits());
    let cbind_data = row.get(ChannelData::new(&data))?;
    Some(ChannelBinding { kind, cbind_data })
}

/// Returns what a client says of the channel of a kind and data that it binds.
pub fn bound_channel(row: &mut Row<'_>) -> ClientChannel {
    channel(row).map_or(ClientChannel::Absent, |it| ClientChannel::Bound(it))
}

/// Returns what a server knows of the channel of a kind and data, by no other kind.
pub fn channels(row: &mut Row<'_>) -> Option<ChannelBindings> {
    let channel = channel(row)?;
    let of = |kind| (channel.kind == kind).then_some(channel.cbind_data);
    Some(ChannelBindings {
        tls_unique: of(ChannelKind::TlsUnique),
        tls_server_end_point: of(ChannelKind::TlsServerEndPoint),
        tls_exporter: of(ChannelKind::TlsExporter),
    })
}

/// Returns the form of PLAIN's passwords.
pub fn passwords(row: &mut Row<'_>) -> PlainPasswords {
    match row.word() {
        "Typed" => PlainPasswords::Typed,
        "Prepared" => PlainPasswords::Prepared,
        _ => PlainPasswords::Saslprep,
    }
}
