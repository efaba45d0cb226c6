//! What a server prints of a login that it rejects: the user that the client claims, the mechanism, the kind of the
//! channel, and the reason.

ghost use Rattle.std.specs.Prelude.{◌≡◌, IfOk, option_map};
ghost use Rattle.scram_lib.specs.LoginLine.{channel_said, rejected_line, user_said};

use crate::server::Service;
use fe2o3_sasl_negotiation::{Frame, FrameView, Rejection, SaslAcceptor, SaslServerFrame};
use fe2o3_scram::{OutOfMemory, ServerScramErrorKind};
use scram_base_lib::channel::parts_of;
use scram_base_lib::shown::shown;
use scram_base_lib::stop::Stop;
use std::alloc::{AllocError, Global};
use std::io::Write;

/// Returns why the library rejects a frame that this server has rejected, which left the server as it was.
pub(crate) fn reason_of<A: SaslAcceptor>(
    alloc: Global,
    server: &A,
    frame: &FrameView<'_>,
) -> Result<Rejection, OutOfMemory> {
    let mut server = server.clone()?;
    let reply = match frame.to_frame(alloc) {
        Ok(Frame::Init(init)) => server.on_init(alloc, init, &[0; 32])?,
        Ok(Frame::Response(response)) => server.on_response(alloc, response)?,
        _ => return Ok(Rejection::Other),
    };
    match reply {
        SaslServerFrame::Rejected(reason) => Ok(reason),
        _ => Ok(Rejection::Other),
    }
}

/// Prints on the errors that the login of a client that claims this name, if any, is rejected.
pub(crate) fn tell_rejected<E: Write>(
    alloc: Global,
    service: &Service<'_, '_>,
    claimed: Option<&str>,
    stop: &Stop,
    errors: &mut E,
) -> Result<(), OutOfMemory> {
    let Stop::Rejected(reason) = stop else {
        return Ok(());
    };
    let reason = match reason {
        Rejection::Scram(ServerScramErrorKind::XorLengthMismatch) => {
            String::from_str(alloc, "SCRAM: The proof is of another hash")?
        }
        _ => format!(in alloc; "{reason}")?,
    };
    let line = line_of(
        alloc,
        claimed,
        service.mechanism(),
        service.channel,
        &reason,
    )?;
    // The login is rejected, whether or not that can be written.
    let _ = errors.write_all(&line);
    Ok(())
}

/// Returns the line of a rejected login. The channel is `KIND:HEX`, as the argument has it.
fn line_of(
    alloc: Global,
    claimed: Option<&str>,
    mechanism: &str,
    channel: Option<&str>,
    reason: &str,
) -> Result<Vec<u8>, AllocError>
    ensures { IfOk result (λ line. line.items ≡ rejected_line (option_map (λ name. name.now) claimed.entry) mechanism.now
        (channel_said (option_map (λ word. word.now) channel.entry)) reason.now) }
{
    let mut line = b"scram: login rejected: ".to_vec(alloc)?;
    line.extend_from_slice(&user_said(alloc, claimed)?)?;
    line.extend_from_slice(b", ")?;
    line.extend_from_slice(mechanism.as_bytes())?;
    line.extend_from_slice(b", channel ")?;
    line.extend_from_slice(kind_of(channel).as_bytes())?;
    line.extend_from_slice(b": ")?;
    line.extend_from_slice(reason.as_bytes())?;
    line.push(b'\n')?;
    Ok(line)
}

/// Returns what the line says of the user.
fn user_said(alloc: Global, claimed: Option<&str>) -> Result<Vec<u8>, AllocError>
    ensures { IfOk result (λ text. text.items ≡ user_said (option_map (λ name. name.now) claimed.entry)) }
{
    let Some(name) = claimed else {
        return b"no user".to_vec(alloc);
    };
    let mut text = b"user ".to_vec(alloc)?;
    text.extend_from_slice(&shown(alloc, name.as_bytes())?)?;
    Ok(text)
}

/// Returns the kind of a channel `KIND:HEX`, or `none`.
fn kind_of(channel: Option<&str>) -> &str
    ensures { result.now ≡ channel_said (option_map (λ word. word.now) channel.entry) }
{
    match channel {
        Some(word) => parts_of(word).0,
        None => "none",
    }
}
