//! Clients, by the words of a row.

use crate::events::{Side, answer_events};
use crate::servers::take_restored;
use fe2o3_sasl_negotiation::{
    ChannelBinding, ChannelData, ChannelKind, ClientNegotiation, ClientOptions, ClientPolicy,
    ClientSecret, Password, SaslProfile, ScramClient, ScramVersion, Snapshot, restored_client,
};
use test_rows::{Row, call};

/// Reads a text after a word, if that is next.
pub fn text_after(row: &mut Row<'_>, word: &str) -> Option<String> {
    if row.takes(word) {
        return Some(row.text_of_digits());
    }
    None
}

/// Reads the maximum size of a frame: `limit N`, or 512 without these words.
pub fn frame_limit(row: &mut Row<'_>) -> usize {
    if row.takes("limit") {
        return row.number() as usize;
    }
    512
}

/// Reads a client: `MECHANISM USER PASSWORD ITERATIONS HOSTNAME`, where `none` is no hostname, and the options `by-challenge`,
/// `for IDENTITY` and `limit N`. Returns its profile, the hostname of its init, and the maximum size of a frame.
pub fn named_by(row: &mut Row<'_>) -> Option<(SaslProfile, Option<String>, usize)> {
    let (mechanism, user, password) = (row.word(), row.text_of_digits(), row.text_of_digits());
    let iterations = row.number();
    let hostname = match row.takes("none") {
        true => None,
        false => Some(row.text_of_digits()),
    };
    let by_challenge = row.takes("by-challenge");
    let (identity, limit) = (text_after(row, "for"), frame_limit(row));
    let profile = match mechanism {
        "ANONYMOUS" => SaslProfile::Anonymous,
        "EXTERNAL" => SaslProfile::External,
        "ANONYMOUS-AS" => SaslProfile::anonymous_as(user),
        "EXTERNAL-AS" => SaslProfile::external_as(user),
        "PLAIN" => SaslProfile::plain(user, password),
        name => {
            let version = ScramVersion::from_mechanism(name)?;
            let mut options = ClientOptions::new();
            options.limits.max_iterations = iterations;
            options.signature_by_challenge = by_challenge;
            let client = ScramClient::new(user, password, version).with_options(options);
            SaslProfile::from(client.acting_for(identity))
        }
    };
    Some((profile, hostname, limit))
}

impl Side<()> for ClientNegotiation {
    fn wants_nonce(&self) -> bool {
        self.wants_nonce()
    }

    fn saved(&self) -> Option<Snapshot<'_>> {
        Some(self.snapshot())
    }

    fn restore(&mut self, row: &mut Row<'_>, _over: (), is_copy: bool) {
        let hostname = text_after(row, "hostname");
        // By `match`: `Row::get` has no contract, and `restored_client` requires a profile in the same state.
        let profile = match self.profile().clone() {
            Ok(profile) => profile,
            Err(error) => return row.refuse(error),
        };
        let restored = if is_copy {
            call!(row: "restored_client" => restored_client(row.alloc, self, profile, hostname))
        } else {
            call!(row: "ClientNegotiation::restore" =>
                ClientNegotiation::restore(row.alloc, profile, hostname, &self.snapshot()))
        };
        take_restored(row, self, restored);
    }
}

/// Answers the lines of a paragraph by a client of a profile.
pub fn answer_paragraph<'a>(row: &mut Row<'a>, lines: &'a str) {
    let Some((profile, hostname, limit)) = named_by(row) else {
        return row.refuse("no profile");
    };
    let mut side = ClientNegotiation::with_frame_limit(row.alloc, profile, hostname, limit);
    answer_events(row, &mut side, (), lines);
    drop(side);
}

/// Reads what a client may log in by: `MECHANISM`, the weakest SCRAM, and `plain`, `channel KIND DATA` and `must-bind`.
fn policy_of(row: &mut Row<'_>, mechanism: &str) -> Option<ClientPolicy> {
    let mut policy = ClientPolicy::scram_from(ScramVersion::from_mechanism(mechanism)?);
    if row.takes("plain") {
        policy.plain = true;
    }
    if row.takes("channel") {
        let kind = ChannelKind::from_name(row.word())?;
        let cbind_data = ChannelData::new(&row.digits()).ok()?;
        policy.channel = Some(ChannelBinding { kind, cbind_data });
    }
    if row.takes("must-bind") {
        policy.must_bind = true;
    }
    Some(policy)
}

/// Answers lines by a client of a policy: `MECHANISM USER PASSWORD`, its options, `for IDENTITY`, `hostname NAME`, `limit N`.
pub fn answer_policy_paragraph<'a>(row: &mut Row<'a>, lines: &'a str) {
    let (mechanism, user, password) = (row.word(), row.text_of_digits(), row.text_of_digits());
    let Some(policy) = policy_of(row, mechanism) else {
        return row.refuse("no policy");
    };
    let (identity, hostname) = (text_after(row, "for"), text_after(row, "hostname"));
    let secret = ClientSecret::Password(Password::Typed(&password));
    let made = SaslProfile::by_policy(row.alloc, user, secret, policy).ok();
    let profile = match (made, identity) {
        (Some(profile), Some(identity)) => profile.acting_for(identity),
        (made, _) => made,
    };
    let Some(profile) = profile else {
        return row.refuse("no profile");
    };
    let limit = frame_limit(row);
    let mut side = ClientNegotiation::with_frame_limit(row.alloc, profile, hostname, limit);
    answer_events(row, &mut side, (), lines);
    drop(side);
}
