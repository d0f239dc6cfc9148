//! Real files. What they hold is told by no clause.

ghost use Rattle.std.specs.Prelude.{◌≡◌, ◌+◌, ◌≤◌, None, [], IfOk, vec_len};

use crate::files::{Files, ReadError};
use crate::history::History;
use jv_types::{Bytes, List};
use std::alloc::Global;
use std::io::{self, ErrorKind, Read};
use std::{fs, rt};

/// The files of the runtime, by their paths.
#[derive(Drop)]
pub struct DiskFiles<'a, R> {
    rt: &'a R,
    asked: History,
    faults: u64,
}

impl<'a, R: rt::Files> DiskFiles<'a, R> {
    /// The files of this runtime, of which none was asked for yet.
    pub fn new(rt: &'a R) -> DiskFiles<'a, R>
        ensures asked { result.asked.items ≡ [] }
        ensures faults { result.faults ≡ 0 }
    {
        DiskFiles {
            rt,
            asked: History::new(),
            faults: 0,
        }
    }
}

impl<R: rt::Files> Files for DiskFiles<'_, R> {
    ghost folder = { λ _. None };

    ghost asked = { λ d. d.asked.items };

    ghost faults = { λ d. d.faults };

    fn read(&mut self, alloc: Global, name: &str, limit: u64) -> Result<Bytes, ReadError> {
        let faults = self.faults;
        self.asked.note(name.as_bytes());
        match read_front(self.rt, alloc, name, limit) {
            Ok(bytes) => List::from_vec(bytes).map_err(|_| ReadError::NoMemory),
            Err(error) if error.kind() == ErrorKind::OutOfMemory => Err(ReadError::NoMemory),
            Err(_) => {
                self.faults = faults.saturating_add(1);
                Err(ReadError::Failed)
            }
        }
    }
}

/// The first `limit + 1` bytes of the file of this name, or all of them.
fn read_front<R: rt::Files>(rt: &R, alloc: Global, name: &str, limit: u64) -> io::Result<Vec<u8>>
    ensures { IfOk result (λ bytes. vec_len bytes ≤ limit + 1) }
{
    let mut bytes = Vec::new(alloc);
    let file = fs::open(rt, name)?;
    let most = limit.saturating_add(1);
    file.take(most).read_to_end(&mut bytes)?;
    // It cuts nothing: no contract of a reader says that `take` gives no more than it was told to.
    bytes.truncate(most as usize);
    Ok(bytes)
}
