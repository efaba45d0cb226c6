//! `server`: the server side of a login, for the users of a file. The input has the client's messages.

ghost use Rattle.std.specs.Prelude.{◌≡◌, ◌↔◌, ℕ, List, Option, Ok, Some, IsSome, IfOk, IfSome, OnOk, false, is_some, true, map, option_map};
ghost use Rattle.std.specs.List.{list_all};
ghost use Rattle.fe2o3_scram.specs.ChannelBinding.{mechanism_of};
ghost use Rattle.fe2o3_scram.specs.ScramServer.{ChallengesFrom, ConcludesFrom, provider_in, rights_in, rules_in, state_in};
ghost use Rattle.mock_secret.specs.Secrets.{IsRead};
ghost use Rattle.scram_lib.specs.Acting.{names_both};
ghost use Rattle.scram_lib.specs.Done.{AreRulesOf, AreSettingsOf, AreUsers, HasAccepted, IsClaim, IsMessage, IsSameServer, IsServerAsked, IsServerFor, HasServed, provider_of};
ghost use Rattle.scram_lib.specs.OwnLines.{source_text};

mod acting;
mod login_line;
mod mock;
mod names;
pub(crate) mod rejected;
pub mod source;

use crate::done::Done;
use crate::nonces;
use crate::server::login_line::login_line;
use crate::server::mock::with_mock;
use crate::server::rejected::{reason_of, tell_rejected};
use crate::server::source::Source;
use crate::task::Process;
use fe2o3_sasl_negotiation::{AuthenticatedUser, FrameView, Rejection, claimed_user};
use fe2o3_scram::{
    MultiRecordStore, RecordStore, ScramAuthenticator, ScramVersion, ServerError, ServerRules,
    ServerScramErrorKind,
};
use mock_secret::secret_of;
use scram_base_lib::backend::Backend;
use scram_base_lib::channel::server_rules;
use scram_base_lib::stop::Stop;
use scram_base_lib::store::System;
use scram_base_lib::wire;
use std::alloc::Global;
use std::io::{BufRead, Write};
use std::random::RandomSource;
use std::rt::Files;
use std::sync::Arc;

/// The arguments of a server.
#[derive(Clone, Copy)]
pub struct Service<'a, 'm> {
    pub version: ScramVersion,
    pub file: &'a str,
    /// Whether the file is a database.
    pub is_db: bool,
    /// How long a look-up in a database waits for another program that changes it, in seconds, or `None` for the default.
    pub wait: Option<u32>,
    /// Whether the names that clients send are prepared by SASLprep before the look-up.
    pub saslprep: bool,
    /// Whether an unknown user is answered with an error, and not like a known one.
    pub tells_unknown_users: bool,
    /// The channel that clients have to bind, `KIND:HEX`, if any.
    pub channel: Option<&'a str>,
    /// Whether the GS2 header `y,,` is accepted too. It has no effect beside `channel`.
    pub accept_y: bool,
    /// Whether the server rejects what is no extension in the place of one. A server with a channel does so in any case.
    pub reject_misplaced: bool,
    /// Whether a client may name an identity to act for.
    pub accept_authzid: bool,
    /// The rights to act for identities, each `USER:IDENTITY`, if any. They have no effect without `accept_authzid`.
    pub may_act: Option<&'m [&'a str]>,
    pub strict: bool,
    /// The nonce in hexadecimal, or `None` for a random one.
    pub nonce: Option<&'a str>,
    /// Whether the input has the bytes of an AMQP connection in place of lines.
    pub frames: bool,
}

impl<R: System, I: BufRead, O: Write, E: Write, B: Backend<R>> Process<'_, R, I, O, E, B> {
    /// Serves a login, and prints on the errors who has logged in, or whose login is rejected.
    pub(crate) fn serve_by(&mut self, service: &Service<'_, '_>) -> Result<Done, Stop>
        ensures { IfOk result (λ done. HasServed service.now done) }
    {
        let rt = self.rt;
        let rules = service.rules(rt.alloc())?;
        let source = Source::open(rt, self.backend, service)?;
        let secret = service.secret(rt)?;
        if secret.is_some() {
            source.tell_forms(service, &mut self.errors);
        }
        if service.frames {
            return self.serve_frames(service, rules, secret, &source);
        }
        self.serve_lines(service, rules, secret, &source)
    }

    /// Serves a login over lines.
    fn serve_lines(
        &mut self,
        service: &Service<'_, '_>,
        rules: ServerRules,
        secret: Option<Vec<u8>>,
        source: &Source<'_, B>,
    ) -> Result<Done, Stop>
        ensures { AreSettingsOf service.now rules (option_map (λ secret. secret.items) secret)
            → IfOk result (HasServed service.now) }
    {
        let alloc = self.rt.alloc();
        let message = wire::receive_first(alloc, service.mechanism(), &mut self.input)?;
        let done = self.log_in_by(service, rules, secret, source, &message);
        if let Err(stop) = &done {
            let claimed = claimed_user(alloc, service.mechanism(), &message)?;
            tell_rejected(alloc, service, claimed.as_deref(), stop, &mut self.errors)?;
        }
        done
    }

    /// Runs a login by the lines of the user whom the client's first message claims.
    fn log_in_by(
        &mut self,
        service: &Service<'_, '_>,
        rules: ServerRules,
        secret: Option<Vec<u8>>,
        source: &Source<'_, B>,
        message: &[u8],
    ) -> Result<Done, Stop>
        ensures { AreSettingsOf service.now rules (option_map (λ secret. secret.items) secret)
            → IfOk result (HasServed service.now) }
    {
        let claimed = claimed_user(self.rt.alloc(), service.mechanism(), message)?;
        let server = server_for(self.rt, service, rules, secret, source, claimed.as_deref())?;
        self.answer_client(service, server, message)
    }

    /// Answers the messages of a login, of which the first is received.
    fn answer_client(
        &mut self,
        service: &Service<'_, '_>,
        server: ScramAuthenticator<RecordStore>,
        message: &[u8],
    ) -> Result<Done, Stop>
        ensures { (claimed : Option (List ℕ)) → IsClaim service.now message.now claimed
            → IsServerAsked service.now claimed server → IfOk result (HasServed service.now) }
    {
        let alloc = self.rt.alloc();
        let mut server = Box::new(alloc, server)?;
        let nonce = nonces::nonce(self.rt, service.nonce)?;
        exchange(
            alloc,
            &mut *server,
            message,
            &nonce,
            &mut self.input,
            &mut self.output,
        )?;
        let user = server.authenticated_user();
        tell_user(alloc, service, user, server.acts_for(), &mut self.errors);
        Ok(Done::Server(server))
    }
}

/// Prints on the errors who has logged in, and the identity that the user acts for, if the client named one.
pub(crate) fn tell_user<E: Write>(
    alloc: Global,
    service: &Service<'_, '_>,
    sent: Option<&str>,
    acts_for: Option<&str>,
    errors: &mut E,
) {
    let Some(sent) = sent else {
        return;
    };
    // The user has logged in, whether or not that can be written.
    if let Ok(line) = login_line(alloc, service, sent, acts_for) {
        let _ = errors.write_all(&line);
    }
}

impl Service<'_, '_> {
    /// Returns the name of the mechanism, with `-PLUS` if the server binds a channel.
    fn mechanism(&self) -> &'static str
        ensures { result.now ≡ mechanism_of self.now.version (is_some self.now.channel) }
    {
        self.version.mechanism_with(self.channel.is_some())
    }

    /// Returns what the server accepts, if each of its rights names a user and an identity.
    fn rules(&self, alloc: Global) -> Result<ServerRules, Stop>
        ensures rules { IfOk result (λ rules. AreRulesOf self.now rules) }
        ensures rights { IfOk result (λ _. IfSome self.now.may_act (λ words.
            list_all (λ word. names_both word.now) words.now ≡ true)) }
    {
        self.test_rights()?;
        server_rules(
            alloc,
            self.channel,
            self.accept_y,
            self.strict,
            self.reject_misplaced,
            self.accept_authzid,
        )
    }

    /// Returns the secret of mock records, or `None` if mock authentication is off.
    fn secret<R: Files + RandomSource + AllocGlobal>(&self, rt: &R) -> Result<Option<Vec<u8>>, Stop>
        ensures off { IfOk result (λ secret.
            IsSome (option_map (λ secret. secret.items) secret) ↔ (self.now.tells_unknown_users ≡ false)) }
        ensures held { IfOk result (λ secret. IfSome secret (λ bytes. IsRead R.File.remaining bytes.items)) }
    {
        if self.tells_unknown_users {
            return Ok(None);
        }
        Ok(Some(secret_of(rt, self.file)?))
    }
}

/// Returns the server for a client that claims this name, if any. It has only the records of that user.
pub(crate) fn server_for<R: AllocGlobal, B: Backend<R>>(
    rt: &R,
    service: &Service<'_, '_>,
    rules: ServerRules,
    secret: Option<Vec<u8>>,
    source: &Source<'_, B>,
    claimed: Option<&str>,
) -> Result<ScramAuthenticator<RecordStore>, Stop>
    ensures { AreSettingsOf service.now rules (option_map (λ secret. secret.items) secret) → IfOk result
        (IsServerFor service.now (source_text source.now) (option_map (λ sent. sent.now) claimed.entry)
        (option_map (λ secret. secret.items) secret)) }
{
    let alloc = rt.alloc();
    let own = source.lines_for(rt, service, claimed)?;
    let text = match source {
        Source::Text(text) => text.as_str(),
        Source::Database(_) => own.as_str(),
    };
    let form = source.form(rt, service)?;
    let rights = Arc::new(alloc, service.rights(alloc, claimed)?)?;
    let users = users_of(alloc, service, text, &own)?;
    let server = with_mock(ScramAuthenticator::new(users), secret, form);
    Ok(server.with_rules(rules).with_acting_rights(rights))
}

/// Parses the users in these lines of a text that have records for the mechanism. The error at a malformed line is that of
/// the whole text, which has the line's number.
fn users_of(
    alloc: Global,
    service: &Service<'_, '_>,
    text: &str,
    own: &str,
) -> Result<RecordStore, Stop>
    ensures { IfOk result (AreUsers service.now.version own.now) }
{
    match users(alloc, service, own) {
        Err(Stop::Line(fault)) => {
            users(alloc, service, text)?;
            Err(Stop::Line(fault))
        }
        found => found,
    }
}

/// Parses the users of a text that have records for the mechanism.
fn users(alloc: Global, service: &Service<'_, '_>, text: &str) -> Result<RecordStore, Stop>
    ensures { IfOk result (AreUsers service.now.version text.now) }
{
    let users = MultiRecordStore::parse_lines(alloc, text)?;
    Ok(users.for_version(service.version).clone()?)
}

/// Runs the exchange, of which the first message is received. After `Ok` the server has accepted a proof.
fn exchange<I: BufRead, O: Write>(
    alloc: Global,
    server: &mut ScramAuthenticator<RecordStore>,
    message: &[u8],
    nonce: &[u8; 32],
    input: &mut I,
    output: &mut O,
) -> Result<(), Stop>
    ensures { OnOk result (HasAccepted message.now server.old server.new) }
{
    challenge(alloc, server, message, nonce, output)?;
    conclude(alloc, server, input, output)?;
    Ok(())
}

/// Answers the client's first message with a challenge.
fn challenge<O: Write>(
    alloc: Global,
    server: &mut ScramAuthenticator<RecordStore>,
    message: &[u8],
    nonce: &[u8; 32],
    output: &mut O,
) -> Result<(), Stop>
    ensures opens { OnOk result ((challenge : List ℕ) × ChallengesFrom (state_in server.old) (provider_of server.old)
        nonce.now message.now (Ok (Some challenge)) (state_in server.new)) }
    ensures keeps { IsSameServer server.old server.new }
{
    let replied = send_challenge(alloc, server, message, nonce, output);
    if let Err(Stop::Rejected(_)) = replied {
        let frame = FrameView::Init {
            mechanism: server.mechanism(),
            initial_response: Some(message),
            hostname: None,
        };
        return Err(Stop::Rejected(reason_of(alloc, server, &frame)?));
    }
    replied
}

/// Sends the answer to the client's first message, and says only that a login is rejected.
fn send_challenge<O: Write>(
    alloc: Global,
    server: &mut ScramAuthenticator<RecordStore>,
    message: &[u8],
    nonce: &[u8; 32],
    output: &mut O,
) -> Result<(), Stop>
    ensures opens { OnOk result ((challenge : List ℕ) × ChallengesFrom (state_in server.old) (provider_of server.old)
        nonce.now message.now (Ok (Some challenge)) (state_in server.new)) }
    ensures keeps { IsSameServer server.old server.new }
{
    let answer = server.compute_server_first_message(alloc, message, nonce);
    reply(alloc, answer, output)
}

/// Answers the client's response with the signature. After `Ok` the server has accepted a proof.
fn conclude<I: BufRead, O: Write>(
    alloc: Global,
    server: &mut ScramAuthenticator<RecordStore>,
    input: &mut I,
    output: &mut O,
) -> Result<(), Stop>
    ensures { OnOk result ((text : List ℕ) × (signature : List ℕ) × ConcludesFrom (state_in server.old)
        (provider_of server.old).version (rules_in server.old) (rights_in server.old) text (Ok (Some signature))
        (state_in server.new)) }
{
    let message = wire::receive(alloc, input)?;
    let answer = server.compute_server_final_message(alloc, &message);
    let frame = FrameView::Response(&message);
    let replied = reply(alloc, answer, output);
    if let Err(Stop::Rejected(_)) = replied {
        return Err(Stop::Rejected(reason_of(alloc, server, &frame)?));
    }
    replied
}

/// Sends an answer, or the error (RFC 5802, section 7, `server-error`).
fn reply<O: Write>(
    alloc: Global,
    answer: Result<Option<Vec<u8>>, ServerScramErrorKind>,
    output: &mut O,
) -> Result<(), Stop>
    ensures { OnOk result (IsMessage answer) }
{
    match answer {
        Ok(Some(message)) => wire::send(alloc, output, &message),
        Ok(None) => {
            wire::send(alloc, output, b"e=unknown-user")?;
            Err(Stop::Rejected(Rejection::UnknownUser))
        }
        Err(kind) => {
            wire::send(alloc, output, ServerError::of(kind).message().as_bytes())?;
            Err(Stop::from(kind))
        }
    }
}
