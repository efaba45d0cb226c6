//! Reads the client-first message.

ghost use Rattle.std.specs.Prelude.{IfOk, MatchResult};
ghost use Rattle.std.specs.Cow.{IsBorrowedStr};
ghost use Rattle.fe2o3_scram.specs.ClientFirst.{HasEscapes, ReadsClientFirst, client_first_values, default_rules};
ghost use Rattle.fe2o3_scram.specs.Readings.{Gives, IsFirst, NoneHolds};
ghost use Rattle.fe2o3_scram.specs.private.Tests.{bare_grammar_tests};

use crate::scram_messages::attributes::{NONCE_KEY, USERNAME_KEY};
use crate::scram_messages::channel_binding_flag::ChannelBindingFlag;
use crate::scram_messages::error::ServerScramErrorKind;
use crate::scram_messages::escape::{UnescapeError, unescape_username};
use crate::scram_messages::grammar::{is_misplaced, is_nonce, is_value};
use crate::scram_messages::gs2_header::{CutHeader, cut_header};
use crate::scram_messages::server_rules::ServerRules;
use crate::texts::attribute;
use std::alloc::Global;
use std::borrow::CowStr;

/// What a client-first message names (RFC 5802, section 7).
#[derive(Debug, Drop)]
pub struct ClientFirst<'a> {
    /// What the GS2 header says of channel binding.
    pub header: ChannelBindingFlag,

    /// The identity that the client acts for, plain, not escaped, or `None` if it acts for itself. It is borrowed if the
    /// client escaped nothing.
    pub acts_for: Option<CowStr<'a>>,

    /// The plain user name, unescaped like by `unescape_username`. It is borrowed if the client escaped nothing.
    pub username: CowStr<'a>,

    /// The client's nonce.
    pub client_nonce: &'a str,

    /// The message without its GS2 header.
    pub client_first_message_bare: &'a str,
}

impl<'a> ClientFirst<'a> {
    /// Reads a client-first message (RFC 5802, sections 5.1 and 7), with its GS2 header, which has to be
    /// `n,,`.
    ///
    /// The errors are, in this order: `Utf8Error` if the text is not UTF-8 (RFC 3629),
    /// `CannotParseGs2Header`, `CannotParseUsername` and `CannotParseClientNonce`. Parts after the nonce
    /// are ignored. Only a user name with escapes takes memory: `OutOfMemory` is returned only for a
    /// text whose part of the name spells one.
    pub fn parse(alloc: Global, text: &'a [u8]) -> Result<Self, ServerScramErrorKind>
        ensures answer { Gives ServerScramErrorKind.OutOfMemory (HasEscapes default_rules text.now) client_first_values
            result (ReadsClientFirst default_rules text.now) }
        ensures borrowed { IfOk result (λ first. ¬ HasEscapes default_rules text.now → IsBorrowedStr first.username) }
    {
        ClientFirst::parse_with_rules(alloc, text, ServerRules::new())
    }

    /// Like `parse`, but by these rules: the GS2 header may be `y,,` too, or has to bind a channel, and may name an
    /// identity. An identity with escapes takes memory too.
    ///
    /// After the other errors, a strict server returns `CannotParseUsername` if the name is empty or has NUL, and
    /// `CannotParseClientNonce` if the nonce is empty or not printable. Last, a server that tests extensions
    /// (`ServerRules::is_strict`) returns `MisplacedAttribute` if a part after the nonce is no extension (RFC 5802,
    /// section 7).
    pub fn parse_with_rules(
        alloc: Global,
        text: &'a [u8],
        rules: ServerRules,
    ) -> Result<Self, ServerScramErrorKind>
        ensures answer { Gives ServerScramErrorKind.OutOfMemory (HasEscapes rules text.now)
            client_first_values result (ReadsClientFirst rules text.now) }
        ensures borrowed { IfOk result (λ first. ¬ HasEscapes rules text.now
            → IsBorrowedStr first.username) }
    {
        let Ok(client_first) = str::from_utf8(text) else {
            return Err(ServerScramErrorKind::Utf8Error);
        };
        let CutHeader {
            flag,
            acts_for,
            rest,
        } = match cut_header(alloc, client_first, rules) {
            Ok(cut) => cut,
            Err(UnescapeError::Invalid) => return Err(ServerScramErrorKind::CannotParseGs2Header),
            Err(UnescapeError::OutOfMemory) => return Err(ServerScramErrorKind::OutOfMemory),
        };
        let Some(escaped) = attribute(rest, 0, USERNAME_KEY) else {
            return Err(ServerScramErrorKind::CannotParseUsername);
        };
        let username = match unescape_username(alloc, escaped) {
            Ok(username) => username,
            Err(UnescapeError::Invalid) => return Err(ServerScramErrorKind::CannotParseUsername),
            Err(UnescapeError::OutOfMemory) => return Err(ServerScramErrorKind::OutOfMemory),
        };
        let Some(client_nonce) = attribute(rest, 1, NONCE_KEY) else {
            return Err(ServerScramErrorKind::CannotParseClientNonce);
        };
        let first = ClientFirst {
            header: flag,
            acts_for,
            username,
            client_nonce,
            client_first_message_bare: rest,
        };
        test_grammar(rules, &first)?;
        Ok(first)
    }
}

/// Tests what a strict server tests besides: the user name, the nonce, and the parts after it.
fn test_grammar(rules: ServerRules, first: &ClientFirst<'_>) -> Result<(), ServerScramErrorKind>
    ensures { MatchResult result (λ _. NoneHolds (bare_grammar_tests rules (client_first_values first.now)))
        (IsFirst (bare_grammar_tests rules (client_first_values first.now))) }
{
    if rules.strict && !is_value(first.username.as_bytes()) {
        return Err(ServerScramErrorKind::CannotParseUsername);
    }
    if rules.strict && !is_nonce(first.client_nonce.as_bytes()) {
        return Err(ServerScramErrorKind::CannotParseClientNonce);
    }
    if is_misplaced(rules.is_strict(), first.client_first_message_bare, 2) {
        return Err(ServerScramErrorKind::MisplacedAttribute);
    }
    Ok(())
}
