//! What a server prints of a login: the user, and the identity that the user acts for (RFC 4422, section 2).

ghost use Rattle.std.specs.Prelude.{◌≡◌, ◌++◌, ℕ, List, Option, IfOk, OnOk, option_map};
ghost use Rattle.scram_base_lib.specs.Shown.{shown_as};
ghost use Rattle.scram_lib.specs.LoginLine.{login_line, user_named};
ghost use Rattle.scram_lib.specs.Names.{IsLookedUp};

use crate::server::Service;
use fe2o3_scram::OutOfMemory;
use scram_base_lib::shown::shown;
use std::alloc::{AllocError, Global};

/// Returns the line that says who has logged in: the user who sent this name, by the name of its records.
pub(crate) fn login_line(
    alloc: Global,
    service: &Service<'_, '_>,
    sent: &str,
    acts_for: Option<&str>,
) -> Result<Vec<u8>, OutOfMemory>
    ensures { IfOk result (λ line. (name : Option (List ℕ)) × IsLookedUp service.now.saslprep sent.now name
        × (line.items ≡ login_line (user_named sent.now name) sent.now (option_map (λ name. name.now) acts_for.entry))) }
{
    match service.name_of(alloc, sent)? {
        Some(user) => Ok(line_of(alloc, &user, sent, acts_for)?),
        None => Ok(line_of(alloc, sent, sent, acts_for)?),
    }
}

/// Returns the line of this user. An identity that is the name which the client sent is printed as the user.
fn line_of(
    alloc: Global,
    user: &str,
    sent: &str,
    acts_for: Option<&str>,
) -> Result<Vec<u8>, AllocError>
    ensures { IfOk result (λ line.
        line.items ≡ login_line user.now sent.now (option_map (λ name. name.now) acts_for.entry)) }
{
    let mut line = b"scram: ".to_vec(alloc)?;
    push_name(alloc, &mut line, user)?;
    line.extend_from_slice(b" logged in")?;
    if let Some(identity) = acts_for {
        line.extend_from_slice(b", acts for ")?;
        if identity == sent {
            push_name(alloc, &mut line, user)?;
        } else {
            push_name(alloc, &mut line, identity)?;
        }
    }
    line.push(b'\n')?;
    Ok(line)
}

/// Appends a name, as it is printed.
fn push_name(alloc: Global, line: &mut Vec<u8>, name: &str) -> Result<(), AllocError>
    ensures { OnOk result (line.new.items ≡ line.old.items ++ shown_as name.now) }
{
    line.extend_from_slice(&shown(alloc, name.as_bytes())?)
}
