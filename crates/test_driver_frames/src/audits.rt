//! Audits of two transcripts.

use crate::replies::{Reply, say_all};
use crate::runs::Run;
use crate::servers::credential_of;
use crate::words::{bound_channel, channels, version};
use fe2o3_sasl::audit::audit;
use fe2o3_sasl::scram_messages::ServerRules;
use fe2o3_sasl::*;
use test_rows::{Row, again, call};

impl Reply for Finding {
    fn say(&self, row: &mut Row<'_>) {
        row.say(match self.kind {
            FindingKind::Verifier => "verifier",
            FindingKind::Proof => "proof",
        });
        row.say(self.client);
        row.say(self.server);
        match &self.verdict {
            Verdict::Agreed {
                username,
                client_nonce,
                parameters,
            } => {
                row.say("agreed");
                row.say_digits(username.as_bytes());
                row.say_digits(client_nonce.as_bytes());
                if let Some(parameters) = parameters {
                    row.say_digits(parameters.full_nonce.as_bytes());
                    row.say_digits(&parameters.salt);
                    row.say(parameters.iterations);
                }
            }
            Verdict::OtherKey => row.say("other-key"),
            collision => row.show(collision),
        }
    }
}

/// Checks an audit: `VERSION USER PASSWORD SERVER-USER SERVER-PASSWORD SALT`, followed by options.
pub fn check<'a>(row: &mut Row<'a>, run: &Run<'a>) {
    again!(row: answer(row, run));
    run.agree(row);
}

/// Says the findings of an audit, by the call for its options.
fn answer<'a>(row: &mut Row<'a>, run: &Run<'a>) {
    row.turn_to(run.side.strip_prefix("audit ").unwrap_or(""));
    let (alloc, version) = (row.alloc, version(row));
    let (user, password) = (row.text_of_digits(), row.text_of_digits());
    let (client, server) = (run.client_events.as_slice(), run.events.as_slice());
    let made = credential_of(row, version);
    let Some(credential) = &made else {
        return drop(made);
    };
    let (options, rules) = options_of(row);
    let limit = options.limits.max_iterations;
    let (no_options, no_rules) = (ClientOptions::new(), ServerRules::new());
    let mut limited = no_options;
    limited.limits.max_iterations = limit;
    let found = if options == no_options && rules == no_rules {
        call!(row: "audit" => audit(alloc, &user, &password, version, client, credential, server))
    } else if options == limited && rules == no_rules {
        call!(row: "audit_limited" => audit_limited(alloc, &user, &password, version, limit, client, credential, server))
    } else if options == limited {
        call!(row: "audit_with_rules" =>
            audit_with_rules(alloc, &user, &password, version, limit, client, rules, credential, server))
    } else {
        call!(row: "audit_with_options" =>
            audit_with_options(alloc, &user, &password, version, options, client, rules, credential, server))
    };
    say_all(row, found);
    drop(made);
}

/// Returns the options of a client and the rules of a server, as the head of `channel-audits.txt` has them.
fn options_of(row: &mut Row<'_>) -> (ClientOptions, ServerRules) {
    let (mut options, mut rules) = (ClientOptions::new(), ServerRules::new());
    for _ in 0..8 {
        if !row.is_over() {
            match row.word() {
                "client" => options.channel = bound_channel(row),
                "unoffered" => options.channel = ClientChannel::NotOffered,
                "strict" => options.strict = true,
                "signature_by_challenge" => options.signature_by_challenge = true,
                "least" => options.limits.min_iterations = row.number(),
                "most" => options.limits.max_iterations = row.number(),
                "server" => rules.channels = channels(row),
                "cbind_flag_y" => rules.accept_cbind_flag_y = true,
                "reject_misplaced" => rules.reject_misplaced = true,
                _ => row.refuse("no option"),
            }
        }
    }
    (options, rules)
}
