//! Real sinks. What they hold is told by no clause.

ghost use Rattle.std.specs.Prelude.{◌≡◌, None, [], ◌≤◌, IfOk, length};

use crate::history::History;
use crate::sink::{Sink, WriteError};
use std::io::{self, Write};
use std::{fs, rt};

/// The runtime's standard output.
#[derive(Drop)]
pub struct StdSink<'a, R> {
    rt: &'a R,
    given: History,
    faults: u64,
}

impl<'a, R: Print> StdSink<'a, R> {
    /// The standard output of this runtime, which was given nothing yet.
    pub fn new(rt: &'a R) -> StdSink<'a, R>
        ensures writes { result.given.items ≡ [] }
        ensures faults { result.faults ≡ 0 }
    {
        StdSink {
            rt,
            given: History::new(),
            faults: 0,
        }
    }
}

impl<R: Print> Sink for StdSink<'_, R> {
    ghost bytes = { λ _. None };

    ghost writes = { λ s. length s.given.items };

    ghost faults = { λ s. s.faults };

    fn write(&mut self, piece: &[u8]) -> Result<usize, WriteError> {
        let faults = self.faults;
        if piece.is_empty() {
            return Ok(0);
        }
        self.given.note(piece);
        match io::writer(self.rt).write(piece) {
            Ok(taken) if taken > 0 => Ok(taken),
            _ => {
                self.faults = faults.saturating_add(1);
                Err(WriteError::Failed)
            }
        }
    }
}

/// A file of the runtime, which is made at the first write of some bytes, and empties one that was
/// there. One that can't be made is a failed write.
#[derive(Drop)]
pub struct FileSink<'a, R: rt::Files> {
    rt: &'a R,
    name: &'a str,
    file: Option<R::File>,
    given: History,
    faults: u64,
}

impl<'a, R: rt::Files> FileSink<'a, R> {
    /// The file at this path, which was given nothing yet. It isn't made, or emptied, before the
    /// first write of some bytes.
    pub fn new(rt: &'a R, name: &'a str) -> FileSink<'a, R>
        ensures name { result.name.now ≡ name.now }
        ensures writes { result.given.items ≡ [] }
        ensures faults { result.faults ≡ 0 }
    {
        FileSink {
            rt,
            name,
            file: None,
            given: History::new(),
            faults: 0,
        }
    }
}

impl<R: rt::Files> Sink for FileSink<'_, R> {
    ghost bytes = { λ _. None };

    ghost writes = { λ s. length s.given.items };

    ghost faults = { λ s. s.faults };

    fn write(&mut self, piece: &[u8]) -> Result<usize, WriteError> {
        let faults = self.faults;
        if piece.is_empty() {
            return Ok(0);
        }
        self.given.note(piece);
        match write_to(self.rt, self.name, &mut self.file, piece) {
            Ok(taken) if taken > 0 => Ok(taken),
            _ => {
                self.faults = faults.saturating_add(1);
                Err(WriteError::Failed)
            }
        }
    }
}

/// Writes a first part of the piece to the file, which is made where it isn't open yet.
fn write_to<R: rt::Files>(
    rt: &R,
    name: &str,
    file: &mut Option<R::File>,
    piece: &[u8],
) -> io::Result<usize>
    ensures { IfOk result (λ taken. taken ≤ length piece.now) }
{
    if let Some(open) = file {
        return open.write(piece);
    }
    let mut made = fs::create(rt, name)?;
    let taken = made.write(piece);
    *file = Some(made);
    taken
}
