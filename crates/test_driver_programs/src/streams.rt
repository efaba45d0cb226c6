//! An output with limited room, the end of an input, and lines after a mark.

use std::alloc::Global;
use std::io::{Error, ErrorKind, Read, Result, Write};

/// A writer with limited room, which rejects what it has no room for.
#[derive(Drop)]
pub struct Output {
    /// How much room is left.
    pub room: usize,

    /// What was written.
    pub written: Vec<u8>,

    /// How many writes were rejected.
    pub rejected: u32,
}

impl Output {
    /// Returns a writer with room for all.
    pub fn new(alloc: Global) -> Output {
        Output {
            room: usize::MAX,
            written: Vec::new(alloc),
            rejected: 0,
        }
    }
}

impl Write for Output {
    fn write(&mut self, bytes: &[u8]) -> Result<usize> {
        let taken = &bytes[..bytes.len().min(self.room)];
        if taken.is_empty() {
            self.rejected = self.rejected.saturating_add(1);
            return Err(Error::from(ErrorKind::BrokenPipe));
        }
        self.written.extend_from_slice(taken)?;
        self.room = self.room.saturating_sub(taken.len());
        Ok(taken.len())
    }

    fn flush(&mut self) -> Result<()> {
        Ok(())
    }
}

/// The end of an input, with an error if there is one.
#[derive(Drop)]
pub struct End(pub Option<ErrorKind>);

impl Read for End {
    fn read(&mut self, _buffer: &mut [u8]) -> Result<usize> {
        match self.0 {
            Some(kind) => Err(Error::from(kind)),
            None => Ok(0),
        }
    }
}

/// Writes lines, each after a mark.
pub fn tell_lines(told: &mut String, mark: &str, bytes: &[u8]) -> Result<()> {
    let text = String::from_utf8_lossy(*told.allocator(), bytes)?;
    for line in text.as_str().lines() {
        write!(told, "{mark} {line}\n")?;
    }
    Ok(())
}
