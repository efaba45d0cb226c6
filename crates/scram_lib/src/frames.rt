//! `--frames`: a login over the bytes of an AMQP connection.

ghost use Rattle.std.specs.Prelude.{◌≡◌, [], IfOk, IfSome, OnOk, box_value};
ghost use Rattle.fe2o3_sasl_core.specs.Profiles.{ScramProfile};
ghost use Rattle.fe2o3_sasl_negotiation.specs.Sides.{acceptor_in, client_side, server_side, connection_side};
ghost use Rattle.fe2o3_sasl_negotiation.specs.declared.progress.Progress.TheVariants.{Authenticated};
ghost use Rattle.fe2o3_scram.specs.ScramServer.{provider_in, rules_in};
ghost use Rattle.scram_lib.specs.Done.{HasLoggedIn, HasServed, IsWaiting};

use crate::client::Login;
use crate::done::Done;
use crate::nonces;
use crate::server::rejected::{reason_of, tell_rejected};
use crate::server::source::Source;
use crate::server::{Service, server_for, tell_user};
use crate::task::Process;
use bytes::BytesMut;
use fe2o3_sasl_negotiation::{
    AuthenticatedUser, ClientNegotiation, CloseReason, ConnectionSide, Endpoint, FrameView, Meter,
    Progress, Received, RestoreError, Role, SaslProfile, ServerNegotiation, claimed_user,
    view_frame,
};
use fe2o3_scram::{OutOfMemory, RecordStore, ScramAuthenticator, ScramClient, ServerRules};
use scram_base_lib::backend::Backend;
use scram_base_lib::stop::Stop;
use scram_base_lib::store::System;
use std::alloc::Global;
use std::io::{BufRead, Result as Written, Write};
use std::random::RandomSource;

/// A server's side.
type Side = ServerNegotiation<ScramAuthenticator<RecordStore>>;

/// Passes received bytes to a side once, and sends its answer.
fn pass<R: RandomSource + AllocGlobal, E: Endpoint<K>, K: Role, I: BufRead, O: Write>(
    rt: &R,
    side: &mut ConnectionSide<E, K>,
    word: Option<&str>,
    sent: &mut BytesMut,
    input: &mut I,
    output: &mut O,
) -> Result<Received, Stop>
    ensures { IfOk result (λ received. received.progress ≡ (connection_side E.state side.new).progress) }
{
    let nonce = nonces::nonce(rt, word)?;
    let bytes = input.fill_buf().map_err(Stop::of_input)?;
    let received = side.receive(rt.alloc(), bytes, &nonce, &mut Meter::new(), sent)?;
    input.consume(received.taken);
    send(output, sent).map_err(Stop::of_output)?;
    Ok(received)
}

/// Sends the pending bytes.
fn send<O: Write>(output: &mut O, sent: &mut BytesMut) -> Written<()> {
    output.write_all(sent.as_slice())?;
    sent.clear();
    output.flush()
}

impl<R: System, I: BufRead, O: Write, E: Write, B: Backend<R>> Process<'_, R, I, O, E, B> {
    /// Logs in.
    pub(crate) fn log_in_frames(
        &mut self,
        login: &Login<'_>,
        client: Box<ScramClient>,
    ) -> Result<Done, Stop>
        ensures { IfOk result (λ done. HasLoggedIn login.now done) }
    {
        let mut client = negotiation(self.rt.alloc(), client)?;
        let (input, output) = (&mut self.input, &mut self.output);
        log_in_over(self.rt, login, &mut *client, input, output)?;
        login.keep(self.rt, client.profile().keys())?;
        Ok(Done::ClientOfFrames(client))
    }

    /// Serves a login, and prints on the errors who has logged in, or whose login is rejected. The server is made at the
    /// client's init, which claims a user name.
    pub(crate) fn serve_frames(
        &mut self,
        service: &Service<'_, '_>,
        rules: ServerRules,
        secret: Option<Vec<u8>>,
        source: &Source<'_, B>,
    ) -> Result<Done, Stop>
        ensures { IfOk result (λ done. HasServed service.now done) }
    {
        let (rt, alloc) = (self.rt, self.rt.alloc());
        let opener = opener(alloc, service, rules);
        let mut opener = Box::new(alloc, ServerNegotiation::new(alloc, opener))?;
        let claimed = receive_init(rt, service, &mut *opener, &mut self.input, &mut self.output)?;
        let server = server_for(rt, service, rules, secret, source, claimed.as_deref())?;
        let mut server = Box::new(alloc, continued(alloc, &opener, server)?)?;
        let (input, output) = (&mut self.input, &mut self.output);
        if let Err(stop) = serve_over(rt, service, &mut *server, input, output) {
            tell_rejected(alloc, service, claimed.as_deref(), &stop, &mut self.errors)?;
            return Err(stop);
        }
        let user = server.authenticated_user();
        tell_user(alloc, service, user, server.acts_for(), &mut self.errors);
        Ok(Done::ServerOfFrames(server))
    }
}

/// Logs in with a client's side. After `Ok` the side has logged in.
fn log_in_over<R: RandomSource + AllocGlobal, I: BufRead, O: Write>(
    rt: &R,
    login: &Login<'_>,
    client: &mut ClientNegotiation,
    input: &mut I,
    output: &mut O,
) -> Result<(), Stop>
    ensures { OnOk result ((client_side client.new).progress ≡ Authenticated) }
{
    let mut sent = BytesMut::new(rt.alloc());
    ClientNegotiation::open(&mut sent)?;
    send(output, &mut sent).map_err(Stop::of_output)?;
    for _ in 0..u64::MAX {
        let received = pass(rt, client, login.nonce, &mut sent, input, output)?;
        match received.progress {
            Progress::Authenticated => return Ok(()),
            Progress::Failed(CloseReason::Refused(_)) => return Err(Stop::RefusedByServer),
            Progress::Failed(why) => return Err(Stop::Closed(why)),
            Progress::InProgress if received.taken == 0 => return Err(Stop::Ended),
            Progress::InProgress => {}
        }
    }
    Err(Stop::Ended)
}

/// Returns the client's side. Its mechanism is that of the client, with its channel.
fn negotiation(
    alloc: Global,
    client: Box<ScramClient>,
) -> Result<Box<ClientNegotiation>, OutOfMemory>
    ensures { IfOk result (λ side. (client_side (box_value side)).state ≡ ScramProfile (box_value client)) }
{
    let profile = SaslProfile::from(Box::into_inner(client));
    Ok(Box::new(alloc, ClientNegotiation::new(alloc, profile, None))?)
}

/// Returns a server without users, which answers up to the client's init.
fn opener(
    alloc: Global,
    service: &Service<'_, '_>,
    rules: ServerRules,
) -> ScramAuthenticator<RecordStore>
    ensures rules { rules_in result ≡ rules }
    ensures nobody { provider_in result ≡ record { version = service.now.version; records = [] } }
{
    ScramAuthenticator::new(RecordStore::new(alloc, service.version)).with_rules(rules)
}

/// Answers the client up to its init, and returns the user name that the init claims, if any. The init is not taken.
fn receive_init<R: RandomSource + AllocGlobal, I: BufRead, O: Write>(
    rt: &R,
    service: &Service<'_, '_>,
    opener: &mut Side,
    input: &mut I,
    output: &mut O,
) -> Result<Option<String>, Stop>
    ensures { OnOk result (IsWaiting opener.new) }
{
    let mut sent = BytesMut::new(rt.alloc());
    for _ in 0..u64::MAX {
        let bytes = input.fill_buf().map_err(Stop::of_input)?;
        if let Some(body) = frame_in(rt.alloc(), opener, bytes)? {
            return user_of(rt.alloc(), &body);
        }
        let received = pass(rt, opener, service.nonce, &mut sent, input, output)?;
        if let Progress::Failed(why) = received.progress {
            return Err(Stop::Closed(why));
        }
        if received.taken == 0 {
            return Err(Stop::Ended);
        }
    }
    Err(Stop::Ended)
}

/// Returns the body of the frame that these bytes complete, if they do. Nothing is taken.
fn frame_in(alloc: Global, opener: &Side, bytes: &[u8]) -> Result<Option<Vec<u8>>, Stop>
    ensures { IfOk result (λ body. IfSome body (λ _. IsWaiting opener.now)) }
{
    match opener.snapshot().peek_frame(alloc, bytes) {
        Ok(body) => Ok(body),
        Err(RestoreError::OutOfMemory) => Err(Stop::OutOfMemory),
        Err(_) => unreachable!(),
    }
}

/// Returns the user name that the body of an init claims, if any.
fn user_of(alloc: Global, body: &[u8]) -> Result<Option<String>, Stop> {
    let Ok((frame, _)) = view_frame(body) else {
        return Ok(None);
    };
    let FrameView::Init {
        mechanism,
        initial_response: Some(message),
        ..
    } = frame
    else {
        return Ok(None);
    };
    Ok(claimed_user(alloc, mechanism, message)?)
}

/// Returns the side with this server in place of the one without users.
fn continued(
    alloc: Global,
    opener: &Side,
    server: ScramAuthenticator<RecordStore>,
) -> Result<Side, Stop>
    requires { IsWaiting opener.now }
    ensures { IfOk result (λ side. acceptor_in side ≡ server) }
{
    match ServerNegotiation::restore(alloc, server, &opener.snapshot()) {
        Ok(side) => Ok(side),
        Err(RestoreError::OutOfMemory) => Err(Stop::OutOfMemory),
        Err(_) => unreachable!(),
    }
}

/// Serves a login with a server's side. After `Ok` the side has logged its client in.
fn serve_over<R: RandomSource + AllocGlobal, I: BufRead, O: Write>(
    rt: &R,
    service: &Service<'_, '_>,
    server: &mut Side,
    input: &mut I,
    output: &mut O,
) -> Result<(), Stop>
    ensures { OnOk result ((server_side (λ server. server) server.new).progress ≡ Authenticated) }
{
    let (mut sent, mut last) = (BytesMut::new(rt.alloc()), Vec::new(rt.alloc()));
    for _ in 0..u64::MAX {
        let bytes = input.fill_buf().map_err(Stop::of_input)?;
        if let Some(body) = frame_in(rt.alloc(), server, bytes)? {
            last = body;
        }
        let received = pass(rt, server, service.nonce, &mut sent, input, output)?;
        match received.progress {
            Progress::Authenticated => return Ok(()),
            Progress::Failed(why) => return Err(stop_of(rt.alloc(), server, why, &last)?),
            Progress::InProgress if received.taken == 0 => return Err(Stop::Ended),
            Progress::InProgress => {}
        }
    }
    Err(Stop::Ended)
}

/// Returns why a login stops at a client's frame, after which the server has closed.
fn stop_of(
    alloc: Global,
    server: &Side,
    why: CloseReason,
    body: &[u8],
) -> Result<Stop, OutOfMemory> {
    match (why, view_frame(body)) {
        (CloseReason::Refused(_), Ok((frame, _))) => {
            let reason = reason_of(alloc, server.acceptor(), &frame)?;
            Ok(Stop::Rejected(reason))
        }
        _ => Ok(Stop::Closed(why)),
    }
}
