//! Answers the rows of `data/`: runs of the programs `scram`, `example_broker` and `sasl_lab`.
#![tactic(auto)]

mod disk;
mod no_database;
mod paragraphs;
mod runs;
mod streams;

use std::fs::{self, Metadata, OpenOptions};
use std::io;
use std::os::unix::fs::OpenOptionsExt;
use std::process::ExitCode;
use test_rows::{Answers, Row, replay};

/// The programs, with the metadata of a file that only its owner can use.
#[derive(Drop)]
struct Programs {
    private: Metadata,
}

impl Answers for Programs {
    fn answer(&mut self, row: &mut Row<'_>) {
        row.refuse("no call");
    }

    fn answer_paragraph(&mut self, _words: &str, row: &mut Row<'_>) {
        let text = row.rest();
        let answered = runs::answer(row, text, &self.private);
        row.made(answered, ());
    }
}

/// Returns the metadata of a file that only its owner can use. The file is made for this and removed.
fn private(rt: &HostRuntime) -> io::Result<Metadata> {
    let mut options = OpenOptions::new();
    options.write(true).create_new(true).mode(0o600);
    let metadata = options.open(rt, "private")?.metadata()?;
    fs::remove_file(rt, "private")?;
    Ok(metadata)
}

fn main(rt: HostRuntime) -> ExitCode {
    match private(&rt) {
        Ok(private) => replay(&rt, &mut Programs { private }),
        Err(_) => ExitCode::FAILURE,
    }
}
