//! Runs over bodies of frames, each with the replies of one side.

use crate::frames::body_of;
use crate::{clients, offers, servers};
use fe2o3_sasl::Event;
use std::fmt::Write;
use test_rows::{Row, again};

/// A paragraph of a file.
#[derive(Drop)]
pub struct Run<'a> {
    /// The words for the side or the two sides of an audit.
    pub side: &'a str,
    /// The events that arrive, of an audit at its server.
    pub events: Vec<Event>,
    /// The call that answers each event in a step.
    pub calls: Vec<&'a str>,
    /// The events that arrive at the client of an audit.
    pub client_events: Vec<Event>,
    /// The answer to each event, or the findings of an audit.
    pub wanted: Vec<&'a str>,
}

/// Reads a paragraph: a line for the side, and one for each event with its answer, or for the findings of an audit.
pub fn read<'a>(row: &mut Row<'a>) -> Run<'a> {
    let mut run = Run {
        side: "",
        events: Vec::new(row.alloc),
        calls: Vec::new(row.alloc),
        client_events: Vec::new(row.alloc),
        wanted: Vec::new(row.alloc),
    };
    for line in row.rest().lines() {
        if line.is_empty() || line.starts_with('#') {
            continue;
        }
        if let Some((asked, answer)) = line.split_once(" => ") {
            let call = push_event(row, asked, &mut run.events);
            row.push(&mut run.calls, call);
            row.push(&mut run.wanted, answer);
        } else if let Some(asked) = line.strip_prefix("< c ") {
            push_event(row, asked, &mut run.client_events);
        } else if let Some(asked) = line.strip_prefix("< s ") {
            push_event(row, asked, &mut run.events);
        } else if let Some(finding) = line.strip_prefix("> ") {
            row.push(&mut run.wanted, finding);
        } else {
            run.side = line;
        }
    }
    run
}

/// Adds the event of a nonce and a body, or of none, and returns its call: that after the word `by`, or `step`.
fn push_event<'a>(row: &mut Row<'a>, asked: &'a str, events: &mut Vec<Event>) -> &'a str {
    row.turn_to(asked);
    let call = if row.takes("by") { row.word() } else { "step" };
    let (nonce, body) = if row.is_over() {
        ([0; 32], Vec::new(row.alloc))
    } else {
        (row.nonce(), body_of(row))
    };
    row.push(events, Event { body, nonce });
    call
}

impl Run<'_> {
    /// Compares the answers to all events, or all findings, in one answer.
    pub fn agree(&self, row: &mut Row<'_>) {
        let mut wanted = String::new(row.alloc);
        for answer in &self.wanted {
            let space = if wanted.is_empty() { "" } else { " " };
            row.made(write!(wanted, "{space}{answer}"), ());
        }
        row.agree(&wanted);
    }
}

/// A side of a run.
pub trait Side {
    /// Says the answers of a copy in a whole run.
    fn run(&self, row: &mut Row<'_>, events: &[Event]);

    /// Says the answer to an event by this call.
    fn step(&mut self, row: &mut Row<'_>, call: &str, event: &Event);
}

/// Checks the answers of a side in a whole run, unless another call than a step answers an event, and step by step.
pub fn check_side<S: Side>(row: &mut Row<'_>, run: &Run<'_>, side: &mut S) {
    if run.calls.iter().all(|call| *call == "step") {
        again!(row: side.run(row, &run.events));
        run.agree(row);
    }
    check_steps(row, run, side);
}

/// Checks the answers of a side step by step, again each time that memory runs out.
pub fn check_steps<S: Side>(row: &mut Row<'_>, run: &Run<'_>, side: &mut S) {
    let asked = run.events.iter().zip(run.calls.iter());
    for ((event, call), wanted) in asked.zip(run.wanted.iter()) {
        again!(row: side.step(row, call, event));
        row.agree(wanted);
    }
}

/// Checks the answers of the side of a paragraph.
pub fn check<'a>(row: &mut Row<'a>, run: &Run<'a>) {
    row.turn_to(run.side);
    let kind = row.word();
    match kind {
        "acceptor" => servers::check_acceptor(row, run),
        "offers" => offers::check(row, run),
        "records" => servers::check_records(row, run),
        "server" | "server_plus" | "cbind_flag_y" | "reject_misplaced" => {
            servers::check_scram(row, run, kind)
        }
        "client" | "client_plus" | "client_unoffered" => clients::check_scram(row, run, kind),
        _ => clients::check_profile(row, run, kind),
    }
}

/// Checks that a strict SCRAM client or server answers like one that is not, of a paragraph of another program. Sides
/// with other words are left out, and so is libpq, which sends an empty user name: the grammar does not allow it.
pub fn check_strictly<'a>(row: &mut Row<'a>, run: &Run<'a>) {
    row.turn_to(run.side);
    match (row.word(), run.side.split(' ').nth(2)) {
        (_, Some("-")) => drop(row.rest()),
        ("server", _) => servers::check_scram(row, run, "strict"),
        ("client", _) => clients::check_scram(row, run, "strict"),
        _ => drop(row.rest()),
    }
}
