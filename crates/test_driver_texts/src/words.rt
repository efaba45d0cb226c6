//! Words that several calls read, and answers that several say.

use fe2o3_scram::*;
use test_rows::Row;

/// Returns the version that the next word names.
pub fn version(row: &mut Row<'_>) -> ScramVersion {
    let version = row.word().parse::<ScramVersion>();
    row.made(version, ScramVersion::Sha1)
}

/// Adds a word to the answer if a text is this one, and otherwise the text.
pub fn compare_text(row: &mut Row<'_>, text: &str, wanted: &str, word: &str) {
    row.say(if text == wanted { word } else { text });
}

/// Returns the password of a kind: `prepared`, or as typed.
pub fn password_of<'a>(kind: &str, text: &'a str) -> Password<'a> {
    match kind {
        "prepared" | "prepared-both" => Password::Prepared(text),
        _ => Password::Typed(text),
    }
}

/// A secret of a client: the text of a password, cached keys, or both.
#[derive(Drop)]
pub struct Secret<'a> {
    kind: &'a str,
    text: String,
    keys: Option<CachedKeys>,
}

impl<'a> Secret<'a> {
    /// Reads a secret: `password PASSWORD`, `keys KEYS`, `both PASSWORD KEYS`; `prepared` or `prepared-both` of a prepared one.
    pub fn read(row: &mut Row<'a>) -> Secret<'a> {
        let kind = row.word();
        let text = match kind {
            "keys" => String::new(row.alloc),
            _ => row.text(),
        };
        let keys = match kind {
            "password" | "prepared" => None,
            _ => keys_of(row),
        };
        Secret { kind, text, keys }
    }

    /// Returns the secret.
    pub fn get(&self) -> ClientSecret<'_> {
        let password = password_of(self.kind, &self.text);
        match (self.kind, &self.keys) {
            (_, None) => ClientSecret::Password(password),
            ("keys", Some(keys)) => ClientSecret::Keys(keys),
            (_, Some(keys)) => ClientSecret::PasswordAndKeys { password, keys },
        }
    }
}

/// Reads cached keys: `VERSION SALT COUNT CLIENT-KEY SERVER-KEY`, in base64.
pub fn keys_of(row: &mut Row<'_>) -> Option<CachedKeys> {
    let (version, salt, count) = (version(row), row.base64(), row.number());
    let (client_key, server_key) = (row.base64(), row.base64());
    row.get(CachedKeys::from_parts(version, salt, count, &client_key, &server_key))
}

/// Adds the words of cached keys to the answer.
pub fn say_keys(row: &mut Row<'_>, keys: &CachedKeys) {
    row.say(keys.scram_version().mechanism());
    row.say_base64(keys.salt());
    row.say(keys.iterations());
    row.say_base64(keys.client_key());
    row.say_base64(keys.server_key());
}

/// Reads the data of a channel, in hexadecimal digits.
pub fn data_of(row: &mut Row<'_>) -> Option<ChannelData> {
    let data = ChannelData::new(&row.digits());
    row.get(data)
}

/// Reads what a client says of its channel: `absent`, `unoffered`, or `KIND DATA` of a channel that it binds.
pub fn channel_of(row: &mut Row<'_>) -> ClientChannel {
    let word = row.word();
    match (word, ChannelKind::from_name(word)) {
        ("absent", _) => ClientChannel::Absent,
        ("unoffered", _) => ClientChannel::NotOffered,
        (_, Some(kind)) => match data_of(row) {
            Some(cbind_data) => ClientChannel::Bound(ChannelBinding { kind, cbind_data }),
            None => ClientChannel::Absent,
        },
        _ => {
            row.refuse(word);
            ClientChannel::Absent
        }
    }
}
