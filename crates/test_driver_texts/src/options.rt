//! Clients and servers as rows describe them: users, secrets, and options.

use crate::words::{Secret, channel_of, data_of, version};
use fe2o3_scram::*;
use std::sync::Arc;
use test_rows::{Row, call};

/// Reads the record with these very values: `VERSION SALT COUNT STORED-KEY SERVER-KEY`, in base64.
pub fn record_of(row: &mut Row<'_>) -> ScramRecord {
    let (version, salt, count) = (version(row), row.base64(), row.number());
    ScramRecord::from_parts(version, salt, count, row.base64(), row.base64())
}

/// Reads the users of these lines: `VERSION LINES`.
pub fn users_of(row: &mut Row<'_>) -> RecordStore {
    let (alloc, version, lines) = (row.alloc, version(row), row.text());
    let users = RecordStore::parse_lines(alloc, version, &lines);
    row.made(users, RecordStore::new(alloc, version))
}

/// Reads the one user with this record: `NAME` and the words of `record_of`.
pub fn user_of(row: &mut Row<'_>) -> UserRecord {
    UserRecord::new(row.text(), record_of(row))
}

/// Reads the one user as one of many: the words of `user_of`.
pub fn many_of(row: &mut Row<'_>) -> RecordStore {
    let (name, record) = (row.text(), record_of(row));
    let mut users = RecordStore::new(row.alloc, *record.scram_version());
    row.made(users.add(name, record), ());
    users
}

/// Reads the one user with this password: `NAME PASSWORD VERSION SALT`.
pub fn single_of(row: &mut Row<'_>) -> Option<SingleScramCredential> {
    let (name, password, version, salt) = (row.text(), row.text(), version(row), row.nonce());
    SingleScramCredential::new(row.alloc, name, &password, version, salt).ok()
}

/// The channel of a server that has no data.
const NO_CHANNELS: ChannelBindings = ChannelBindings {
    tls_unique: None,
    tls_server_end_point: None,
    tls_exporter: None,
};

/// Reads a server's options up to the end or the word `.`: rules, rights, and secret, salt length and count of mock users.
fn options_of(row: &mut Row<'_>) -> (ServerRules, ActingRights, Option<(Vec<u8>, u32, u32)>) {
    let (mut rules, mut channels) = (ServerRules::new(), NO_CHANNELS);
    let (mut rights, mut mock) = (ActingRights::new(row.alloc), None);
    for _ in 0..9 {
        if row.is_over() || row.takes(".") {
            break;
        }
        match row.word() {
            "strict" => rules.strict = true,
            "reject_misplaced" => rules.reject_misplaced = true,
            "cbind_flag_y" => rules.accept_cbind_flag_y = true,
            "authzid" => rules.accept_authzid = true,
            "channels" => rules.channels = Some(NO_CHANNELS),
            "tls-unique" => channels.tls_unique = data_of(row),
            "tls-server-end-point" => channels.tls_server_end_point = data_of(row),
            "tls-exporter" => channels.tls_exporter = data_of(row),
            "right" => {
                let (user, acts_for) = (row.text(), row.text());
                row.made(rights.allow(row.alloc, &user, &acts_for), ());
            }
            "mock" => mock = Some((row.bytes(), row.number(), row.number())),
            word => row.refuse(word),
        }
    }
    if channels != NO_CHANNELS {
        rules.channels = Some(channels);
    }
    (rules, rights, mock)
}

/// Reads the options of a server, and returns a server of these users with them, or `None` if its salts are too long.
pub fn server_of<C: ScramCredentialProvider + Drop>(
    row: &mut Row<'_>,
    users: C,
) -> Option<ScramAuthenticator<C>> {
    let (rules, rights, mock) = options_of(row);
    let server = ScramAuthenticator::new(users).with_rules(rules);
    let server = match Arc::new(row.alloc, rights) {
        Ok(rights) => server.with_acting_rights(rights),
        Err(_) => return None,
    };
    match mock {
        Some((secret, len, count)) => server.mock_unknown_users(secret, len as usize, count).ok(),
        None => Some(server),
    }
}

/// Reads a client: `VERSION NAME SECRET OPTION..`. The answer is the error, if there is one.
pub fn client_of(row: &mut Row<'_>) -> Option<ScramClient> {
    let (alloc, version, name) = (row.alloc, version(row), row.text());
    let secret = Secret::read(row);
    let client = call!(row: "ScramClient::with_secret" =>
        ScramClient::with_secret(alloc, name, secret.get(), version));
    let Some(client) = row.get(client) else {
        row.rest();
        return None;
    };
    Some(with_options(row, client))
}

/// Returns the client with the options of the words, up to their end or the word `.`.
fn with_options(row: &mut Row<'_>, mut client: ScramClient) -> ScramClient {
    let mut options = ClientOptions::new();
    for _ in 0..9 {
        if row.is_over() || row.takes(".") {
            break;
        }
        match row.word() {
            "strict" => options.strict = true,
            "by_challenge" => options.signature_by_challenge = true,
            "limits" => {
                options.limits.min_iterations = row.number();
                options.limits.max_iterations = row.number();
            }
            "channel" => options.channel = channel_of(row),
            "acts_for" => client = client.acting_for(Some(row.text())),
            word => row.refuse(word),
        }
    }
    client.with_options(options)
}
