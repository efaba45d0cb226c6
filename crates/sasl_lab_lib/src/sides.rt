//! `explain --audit` of the program `scram`: what a client and a server agree on. Both sides are replayed over the bodies
//! that the real ones received, the client with the password and the server with its users.

ghost use Rattle.std.specs.Prelude.{◌≡◌, IfOk, OnOk, is_ok};
ghost use Rattle.std.specs.List.{list_all, list_any};
ghost use Rattle.sasl_lab_lib.specs.private.Audit.{FindsAll, FindsWhole, verifies, is_whole, means_one};

mod answers;
mod half;
mod lines;
mod sentences;

use crate::sides::answers::print_answers;
use crate::sides::half::{Given, Half};
use crate::sides::lines::Line;
use crate::sides::sentences::sentence_of;
use fe2o3_sasl::audit::{AuditError, Finding, FindingKind, Verdict, audit_limited};
use fe2o3_sasl::{scram_client_run_limited, scram_server_run};
use fe2o3_scram::{MultiRecordStore, RecordStore, ScramCredentialProvider, ScramVersion};
use saslprep::Unassigned;
use scram_base_lib::input;
use scram_base_lib::lines::users;
use scram_base_lib::stop::Stop;
use std::alloc::Global;
use std::io::{BufRead, Result as Written, Write};
use std::rt::Files;

/// The bodies of both sides.
#[derive(Drop)]
struct Sides {
    client: Half,
    server: Half,
}

/// The login that is audited.
#[derive(Clone, Copy)]
struct Login<'a> {
    user: &'a str,
    password: &'a str,
    version: ScramVersion,
    limit: u32,
    credentials: &'a RecordStore,
}

/// Prints what each body says, up to the first that is rejected, and then an audit of both sides against a file of users,
/// for a client that accepts this many iterations.
pub fn audit<R: Files + AllocGlobal, I: BufRead, O: Write>(
    rt: &R,
    file: &str,
    max_iterations: u32,
    input: &mut I,
    output: &mut O,
) -> Result<(), Stop> {
    let alloc = rt.alloc();
    let password = input::password(alloc, input, Unassigned::Allowed)?;
    if !password.as_str().is_ascii() {
        return Err(Stop::NotAscii);
    }
    let users = users(rt, file)?;
    let mut sides = Sides {
        client: Half::new(alloc, true),
        server: Half::new(alloc, false),
    };
    sides.run(
        alloc,
        password.as_str(),
        &users,
        max_iterations,
        input,
        output,
    )
}

impl Sides {
    /// Reads the bodies, and audits them.
    fn run<I: BufRead, O: Write>(
        &mut self,
        alloc: Global,
        password: &str,
        users: &MultiRecordStore,
        limit: u32,
        input: &mut I,
        output: &mut O,
    ) -> Result<(), Stop> {
        self.read(alloc, input, output)?;
        let login = self.login(password, users, limit)?;
        self.audit(alloc, &login, output)
    }

    /// Reads the lines after the password, each with a side and a body, and prints what they say. Without a body that its
    /// side sent, each side is taken to have sent what the other one received.
    fn read<I: BufRead, O: Write>(
        &mut self,
        alloc: Global,
        input: &mut I,
        output: &mut O,
    ) -> Result<(), Stop> {
        let mut lines = Vec::new(alloc);
        let read = lines::read(alloc, input, &mut lines);
        if lines.iter().any(|line| line.is_sent()) {
            self.take(alloc, &lines, output)?;
        } else {
            self.take_in_turn(alloc, &lines, output)?;
        }
        read
    }

    /// Takes the bodies in their order, those that were received and those that were sent.
    fn take<O: Write>(
        &mut self,
        alloc: Global,
        lines: &[Line],
        output: &mut O,
    ) -> Result<(), Stop> {
        for line in lines {
            let body = line.body.clone()?;
            let taken = if line.is_client {
                self.client.take(alloc, line.number, body, output)
            } else {
                self.server.take(alloc, line.number, body, output)
            };
            taken.map_err(|stop| stop.at_line(line.number))?;
        }
        Ok(())
    }

    /// Takes bodies that were received, in the order of a login: one of each side in turn, from the list of mechanisms or
    /// the init on. Without a list the client is taken to have received one with the mechanism of the first init.
    fn take_in_turn<O: Write>(
        &mut self,
        alloc: Global,
        lines: &[Line],
        output: &mut O,
    ) -> Result<(), Stop> {
        let begins = lines.iter().any(|line| line.is_offer());
        if !begins {
            self.offer(alloc, lines)?;
        }
        let (mut first, mut second) = (Vec::new(alloc), Vec::new(alloc));
        for line in lines {
            if line.is_client == begins {
                first.push(line)?;
            } else {
                second.push(line)?;
            }
        }
        for turn in 0..first.len().max(second.len()) {
            self.pass(alloc, first.get(turn), output)?;
            self.pass(alloc, second.get(turn), output)?;
        }
        Ok(())
    }

    /// Passes to the client a list with the mechanism of the first init. Nothing is printed of it.
    fn offer(&mut self, alloc: Global, lines: &[Line]) -> Result<(), Stop> {
        for line in lines {
            if let Some(body) = line.offer(alloc)? {
                let mut unseen = Vec::new(alloc);
                return self.client.take(alloc, line.number, body, &mut unseen);
            }
        }
        Ok(())
    }

    /// Passes a body, if there is one, to both sides.
    fn pass<O: Write>(
        &mut self,
        alloc: Global,
        line: Option<&&Line>,
        output: &mut O,
    ) -> Result<(), Stop> {
        match line {
            Some(line) if line.is_client => {
                line.pass(alloc, &mut self.client, &mut self.server, output)
            }
            Some(line) => line.pass(alloc, &mut self.server, &mut self.client, output),
            None => Ok(()),
        }
    }

    /// Returns the login of the client's bodies, or why it cannot be audited.
    fn login<'a>(
        &'a self,
        password: &'a str,
        users: &'a MultiRecordStore,
        limit: u32,
    ) -> Result<Login<'a>, Stop> {
        if let Some(stop) = self.client.unfit.or(self.server.unfit) {
            return Err(stop);
        }
        let Some(asked) = &self.client.asked else {
            return Err(Stop::NoLogin);
        };
        let credentials = users.for_version(asked.version);
        if credentials.get_stored_password(&asked.user).is_none() {
            return Err(Stop::UnknownUser);
        }
        Ok(Login {
            user: &asked.user,
            password,
            version: asked.version,
            limit,
            credentials,
        })
    }

    /// Prints an audit: whom each side authenticates, and what both agree on. `Ok` says that both completed a login.
    fn audit<O: Write>(&self, alloc: Global, login: &Login<'_>, output: &mut O) -> Result<(), Stop>
        ensures { OnOk result (FindsWhole self.now login.now) }
    {
        self.print_client(alloc, login, output)?;
        self.print_server(alloc, login, output)?;
        let findings = self.findings(alloc, login)?;
        self.print_all(alloc, login.version, &findings, output)?;
        conclude(&findings)
    }

    /// Prints the findings.
    fn print_all<O: Write>(
        &self,
        alloc: Global,
        version: ScramVersion,
        findings: &[Finding],
        output: &mut O,
    ) -> Result<(), Stop> {
        if findings.is_empty() {
            writeln!(output, "audit: the two sides have no login in common").map_err(
                Stop::of_output,
            )?;
        }
        for finding in findings {
            let sentence = sentence_of(alloc, version, &finding.verdict)?;
            self.print(finding, &sentence, output)
                .map_err(Stop::of_output)?;
        }
        Ok(())
    }

    /// Prints a finding.
    fn print<O: Write>(&self, finding: &Finding, sentence: &str, output: &mut O) -> Written<()> {
        let client = line_at(&self.client.given, finding.client);
        let server = line_at(&self.server.given, finding.server);
        let authenticated = match finding.kind {
            FindingKind::Verifier => "the client authenticates this server",
            FindingKind::Proof => "the server accepts this client",
        };
        writeln!(
            output,
            "audit: lines {client} and {server}: {authenticated}, {sentence}"
        )
    }

    /// Prints whether the client authenticates a server.
    fn print_client<O: Write>(
        &self,
        alloc: Global,
        login: &Login<'_>,
        output: &mut O,
    ) -> Result<(), Stop> {
        let replies = scram_client_run_limited(
            alloc,
            login.user,
            login.password,
            login.version,
            login.limit,
            &self.client.events,
        )?;
        print_answers(&self.client, &replies, output)
    }

    /// Prints which users the server accepts.
    fn print_server<O: Write>(
        &self,
        alloc: Global,
        login: &Login<'_>,
        output: &mut O,
    ) -> Result<(), Stop> {
        let replies = scram_server_run(alloc, login.credentials, &self.server.events)?;
        print_answers(&self.server, &replies, output)
    }

    /// Returns the findings of the audit.
    fn findings(&self, alloc: Global, login: &Login<'_>) -> Result<Vec<Finding>, Stop>
        ensures { IfOk result (λ findings. FindsAll self.now login.now findings.items) }
    {
        match audit_limited(
            alloc,
            login.user,
            login.password,
            login.version,
            login.limit,
            &self.client.events,
            login.credentials,
            &self.server.events,
        ) {
            Ok(findings) => Ok(findings),
            Err(AuditError::OutOfMemory) => Err(Stop::OutOfMemory),
        }
    }
}

/// Returns the line number of the body at a position.
fn line_at(given: &[Given], position: usize) -> u64 {
    given.get(position).map_or(0, |given| given.line)
}

/// Returns `Ok` if both sides completed a login and each finding is agreed, and otherwise what is wrong.
fn conclude(findings: &[Finding]) -> Result<(), Stop>
    ensures { is_ok result ≡ is_whole findings.now }
{
    if !all_agreed(findings) {
        Err(Stop::OneProofOfTwo)
    } else if some_verified(findings) {
        Ok(())
    } else if findings.is_empty() {
        Err(Stop::NothingInCommon)
    } else {
        Err(Stop::NotVerified)
    }
}

/// Returns whether each finding is agreed.
fn all_agreed(findings: &[Finding]) -> bool
    ensures { result ≡ list_all means_one findings.now }
{
    findings.iter().all(|finding| is_agreed(finding))
}

/// Returns whether the client authenticates the server in a finding.
fn some_verified(findings: &[Finding]) -> bool
    ensures { result ≡ list_any verifies findings.now }
{
    findings.iter().any(|finding| is_verified(finding))
}

/// Returns whether both sides agree on the login of a finding.
fn is_agreed(finding: &Finding) -> bool
    ensures { result ≡ means_one finding.now }
{
    matches!(finding.verdict, Verdict::Agreed { .. })
}

/// Returns whether a finding is of a verifier, with which the client authenticates the server.
fn is_verified(finding: &Finding) -> bool
    ensures { result ≡ verifies finding.now }
{
    matches!(finding.kind, FindingKind::Verifier)
}
