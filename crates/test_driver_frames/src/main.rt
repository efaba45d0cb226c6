//! Answers the rows of `data/` about frames, mechanisms, runs over bodies of frames, and audits.
#![tactic(auto)]

/// Makes a call that may run out of memory, and says its result.
macro_rules! show_call {
    ($row:ident: $name:expr => $made:expr) => {{
        let made = call!($row: $name => $made);
        $row.show_made(&made);
        drop(made)
    }};
}

mod audits;
mod clients;
mod frames;
mod offers;
mod replies;
mod runs;
mod servers;
mod texts;
mod values;
mod words;

use std::process::ExitCode;
use test_rows::{Answers, Row, replay};

/// Answers rows.
#[derive(Drop)]
struct Driver;

impl Answers for Driver {
    fn answer(&mut self, row: &mut Row<'_>) {
        match row.word() {
            "frame" => frames::answer(row),
            "view" => values::view(row),
            "frame-copy" => values::frame_copy(row),
            "symbol" => values::symbol(row),
            "anonymous" => values::anonymous(row),
            "header" => values::header(row),
            "event" => values::event(row),
            "claims" => values::claims(row),
            "plain" => values::plain(row),
            "restored" => values::restored(row),
            "from_url" => values::from_url(row),
            "select" => values::select(row),
            "keyed" => values::keyed(row),
            "by_policy" => values::by_policy(row),
            "mechanism" => values::mechanism(row),
            "errors" => texts::errors(row),
            "shown" => texts::shown(row),
            name => row.refuse(name),
        }
    }

    fn answer_paragraph(&mut self, words: &str, row: &mut Row<'_>) {
        let run = runs::read(row);
        match words {
            "audit" => audits::check(row, &run),
            "run and strict run" => {
                runs::check(row, &run);
                runs::check_strictly(row, &run);
            }
            _ => runs::check(row, &run),
        }
    }
}

fn main(rt: HostRuntime) -> ExitCode {
    replay(&rt, &mut Driver)
}
