//! Where the records of a server are, of which it holds only those of the user that a client claims.

ghost use Rattle.std.specs.Prelude.{◌≡◌, ◌++◌, None, Some, IfOk, OnOk, option_map, string_bytes};
ghost use Rattle.scram_lib.specs.OwnLines.{AreLinesAs, AreLinesFor, AreLinesOfName, head_of, line_as, source_text};

use crate::form::{Form, has_several};
use crate::server::Service;
use fe2o3_scram::{OutOfMemory, escape_username};
use scram_base_lib::backend::{Backend, Named};
use scram_base_lib::stop::Stop;
use scram_base_lib::store;
use std::alloc::{AllocError, Global};
use std::io::Write;
use std::rt::Files;

impl Service<'_, '_> {
    /// Returns where the records of a user are. The name is not escaped.
    fn named<'b>(&'b self, name: &'b str) -> Named<'b> {
        Named {
            file: self.file,
            is_db: self.is_db,
            name,
            version: Some(self.version),
            wait: self.wait,
        }
    }
}

/// Where the records of a server are.
#[derive(Drop)]
pub enum Source<'a, B> {
    /// The text of a file of lines.
    Text(String),
    /// A database, which is open only while a record is fetched.
    Database(&'a B),
}

impl<'a, B> Source<'a, B> {
    /// Reads the file of lines, or takes the database.
    pub(crate) fn open<R: Files + AllocGlobal>(
        rt: &R,
        db: &'a B,
        service: &Service<'_, '_>,
    ) -> Result<Source<'a, B>, Stop> {
        if service.is_db {
            return Ok(Source::Database(db));
        }
        Ok(Source::Text(store::read(rt, service.file)?))
    }

    /// Returns the lines of the user that a client claims, with the name as the client sends it. Without a claim there are
    /// none, and the server rejects the message.
    pub(crate) fn lines_for<R: AllocGlobal>(
        &self,
        rt: &R,
        service: &Service<'_, '_>,
        claimed: Option<&str>,
    ) -> Result<String, Stop>
    where
        B: Backend<R>,
        ensures { IfOk result (λ own. AreLinesFor service.now.saslprep (source_text self.now)
            (option_map (λ sent. sent.now) claimed.entry) (string_bytes own)) }
    {
        let alloc = rt.alloc();
        let Some(sent) = claimed else {
            return Ok(String::new(alloc));
        };
        let Some(name) = service.name_of(alloc, sent)? else {
            return Ok(String::new(alloc));
        };
        self.user_lines(rt, service, &name, sent)
    }

    /// Returns the lines of the user of this name, with the name as the client sends it.
    fn user_lines<R: AllocGlobal>(
        &self,
        rt: &R,
        service: &Service<'_, '_>,
        name: &str,
        sent: &str,
    ) -> Result<String, Stop>
    where
        B: Backend<R>,
        ensures { IfOk result (λ own.
            AreLinesOfName (source_text self.now) sent.now (Some name.now) (string_bytes own)) }
    {
        match self {
            Source::Text(text) => lines_as(rt.alloc(), text, name, sent),
            Source::Database(db) => {
                let text = db.lines_of(rt, &service.named(name))?;
                lines_as(rt.alloc(), &text, name, sent)
            }
        }
    }

    /// Returns the form of the first record for the mechanism, or, if there is none, that of a new file.
    pub(crate) fn form<R: AllocGlobal>(
        &self,
        rt: &R,
        service: &Service<'_, '_>,
    ) -> Result<Form, Stop>
    where
        B: Backend<R>,
    {
        let version = service.version;
        match self {
            Source::Text(text) => Form::in_text(rt.alloc(), text, version),
            Source::Database(db) => {
                let line = db.first_line(rt, &service.named(""), version)?;
                Form::in_text(rt.alloc(), &line, version)
            }
        }
    }

    /// Prints a line on the errors if a file of lines has records of several forms for the mechanism. A database is not read
    /// for that.
    pub(crate) fn tell_forms<E: Write>(&self, service: &Service<'_, '_>, errors: &mut E) {
        let (version, file) = (service.version, service.file);
        let Source::Text(text) = self else {
            return;
        };
        if has_several(text, version) {
            let mechanism = version.mechanism();
            // The server goes on, whether or not that can be written.
            let _ = writeln!(
                errors,
                "scram: {file}: the records for {mechanism} have several forms, so clients can tell which users exist; \
                 scram users check shows them"
            );
        }
    }
}

/// Returns the lines of a user in a text, with another name in place of the user's. The names are not escaped.
fn lines_as(alloc: Global, text: &str, name: &str, other: &str) -> Result<String, Stop>
    ensures { IfOk result (λ own. AreLinesAs text.now name.now other.now (string_bytes own)) }
{
    let (user, other) = (head_of(alloc, name)?, head_of(alloc, other)?);
    let mut own = Vec::new(alloc);
    for line in text.split_inclusive('\n') {
        push_as(&mut own, line.as_bytes(), &user, &other)?;
    }
    match String::from_utf8(own) {
        Ok(own) => Ok(own),
        Err(_) => Err(Stop::NotUtf8),
    }
}

/// Returns how the lines of a user begin: with the name, escaped, and a space.
fn head_of(alloc: Global, name: &str) -> Result<Vec<u8>, OutOfMemory>
    ensures { IfOk result (λ head. head.items ≡ head_of name.now) }
{
    let mut head = escape_username(alloc, name.as_bytes())?;
    head.push(b' ')?;
    Ok(head)
}

/// Appends a line with another start in place of the user's, if it is one of the user.
fn push_as(own: &mut Vec<u8>, line: &[u8], user: &[u8], other: &[u8]) -> Result<(), AllocError>
    ensures { OnOk result (own.new.items ≡ own.old.items ++ line_as user.now other.now line.now) }
{
    match line.strip_prefix(user) {
        Some(record) if !record.contains(&b' ') => {
            own.extend_from_slice(other)?;
            own.extend_from_slice(record)
        }
        _ => Ok(()),
    }
}
