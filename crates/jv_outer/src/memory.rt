//! Files and a sink in memory, which fail where they are told to.

ghost use Rattle.std.specs.Prelude.{◌≡◌, ◌+◌, ◌<◌, ◌≤◌, [], ◌∷◌, ◌++◌, Some, Ok, IsOk, IfOk, OnErr, IsErrOf, Contains, length, take, min, map, option_map, ◌⊎◌, ◌↔◌};
ghost use Rattle.jv_model.specs.Outside.{followed_by, counted, most_counted_calls};
ghost use Rattle.jv_outer.specs.Outside.{IsReadOf, HasCause};
ghost use Rattle.jv_outer.specs.Memory.{file_of, folder_of, file_with, ReadIsToFail, WriteIsToFail};

use crate::files::{Files, ReadError};
use crate::history::History;
use crate::sink::{Sink, WriteError};
use jv_types::text::units;
use jv_types::{Bytes, List, NoMemory, Text};
use std::alloc::Global;
use std::marker::Model;

/// Files in memory. The reads whose numbers, from 0, are listed fail, and so do those of a name
/// that no file has. Of files with equal names the first one counts.
#[derive(Drop)]
pub struct MemFiles {
    files: List<(Text, Bytes)>,
    fails: List<u64>,
    asked: History,
    calls: u64,
    faults: u64,
}

impl Model for MemFiles {
    ghost use Rattle.std.specs.Prelude.{map};
    ghost use Rattle.jv_outer.specs.Memory.{MemoryFiles, file_of};

    ghost Value = { MemoryFiles };

    ghost view = { λ m. record {
      files = map file_of m.files.items;
      fails = m.fails.items;
      asked = m.asked.items;
      calls = m.calls;
      faults = m.faults;
    } };
}

impl MemFiles {
    /// Files by their names, and the numbers of the reads that fail.
    pub fn new(files: List<(Text, Bytes)>, fails: List<u64>) -> MemFiles
        ensures files { result.files ≡ map file_of files.items }
        ensures fails { result.fails ≡ fails.items }
        ensures asked { result.asked ≡ [] }
        ensures calls { result.calls ≡ 0 }
        ensures faults { result.faults ≡ 0 }
    {
        MemFiles {
            files,
            fails,
            asked: History::new(),
            calls: 0,
            faults: 0,
        }
    }
}

impl Files for MemFiles {
    ghost folder = { λ m. Some (folder_of m) };

    ghost asked = { λ m. m.asked };

    ghost faults = { λ m. m.faults };

    fn read(&mut self, alloc: Global, name: &str, limit: u64) -> Result<Bytes, ReadError>
        ensures bytes { IfOk result (λ bytes.
            IsReadOf (Some (folder_of self.old)) name.now limit bytes.items) }
        ensures within { IfOk result (λ bytes. length bytes.items ≤ limit + 1) }
        ensures folder { Some (folder_of self.new) ≡ Some (folder_of self.old) }
        ensures asked { self.new.asked ≡ self.old.asked ++ name.now ∷ [] }
        ensures cause { HasCause ReadError.Failed ReadError.NoMemory
            self.old.faults self.new.faults result }
        ensures bound { self.new.faults ≤ most_counted_calls }

        // It fails exactly where it is to, unless memory runs out.
        ensures failed { IsErrOf result ReadError.Failed → ReadIsToFail self.old name.now }
        ensures fails { ReadIsToFail self.old name.now
            → IsErrOf result ReadError.Failed ⊎ IsErrOf result ReadError.NoMemory }
        ensures listed { Contains self.old.fails self.old.calls → IsErrOf result ReadError.Failed }

        // Each read counts, and the same reads are to fail after it.
        ensures calls { self.new.calls ≡ counted self.old.calls }
        ensures same { self.new.fails ≡ self.old.fails }
    {
        self.asked.note(name.as_bytes());
        let call = self.calls;
        self.calls = call.saturating_add(1);
        let listed = self.fails.as_slice().contains(&call);
        if !listed {
            let Ok(wanted) = units(alloc, name) else {
                return Err(ReadError::NoMemory);
            };
            if let Some(file) = file_named(self.files.as_slice(), wanted.as_slice()) {
                return front_of(alloc, file, limit);
            }
        }
        self.faults = self.faults.saturating_add(1);
        Err(ReadError::Failed)
    }
}

/// The first file of this name.
fn file_named<'a>(files: &'a [(Text, Bytes)], name: &[u16]) -> Option<&'a Bytes>
    ensures { option_map (λ file. file.now.items) result
        ≡ file_with name.now (map file_of files.now) }
{
    for file in files {
        if file.0.as_slice() == name {
            return Some(&file.1);
        }
    }
    None
}

/// A copy of a file that is no longer than the limit, or else of its first `limit + 1` bytes.
fn front_of(alloc: Global, file: &Bytes, limit: u64) -> Result<Bytes, ReadError>
    ensures front { IfOk result (λ bytes. bytes.items ≡ take (limit + 1) file.now.items) }
    ensures memory { OnErr result (IsErrOf result ReadError.NoMemory) }
{
    let mut bytes = file.as_slice();
    if limit < u64::from(file.len()) {
        bytes = &bytes[..limit as usize + 1];
    }
    List::from_slice(alloc, bytes).map_err(|_| ReadError::NoMemory)
}

/// A sink in memory, which takes at most `piece` bytes a write. Of the writes of some bytes those
/// whose numbers, from 0, are listed fail, and all of them where `piece` is 0.
#[derive(Drop)]
pub struct MemSink {
    held: Bytes,
    piece: u32,
    fails: List<u64>,
    given: History,
    calls: u64,
    faults: u64,
}

impl Model for MemSink {
    ghost use Rattle.std.specs.Prelude.{length};
    ghost use Rattle.jv_outer.specs.Memory.{MemorySink};

    ghost Value = { MemorySink };

    ghost view = { λ s. record {
      held = s.held.items;
      piece = s.piece;
      fails = s.fails.items;
      writes = length s.given.items;
      calls = s.calls;
      faults = s.faults;
    } };
}

impl MemSink {
    /// A sink that holds nothing, with the most bytes that a write takes and the numbers of the
    /// writes that fail. It takes no memory yet, and so it can't fail.
    pub fn new(alloc: Global, piece: u32, fails: List<u64>) -> Result<MemSink, NoMemory>
        ensures sink { IfOk result (λ sink. sink ≡ record {
          held = [];
          piece = piece;
          fails = fails.items;
          writes = 0;
          calls = 0;
          faults = 0;
        }) }
        ensures succeeds { IsOk result }
    {
        Ok(MemSink {
            held: List::new(alloc),
            piece,
            fails,
            given: History::new(),
            calls: 0,
            faults: 0,
        })
    }

    /// The bytes that it took so far.
    pub fn bytes(&self) -> &[u8]
        ensures { result.now ≡ self.now.held }
    {
        self.held.as_slice()
    }
}

impl Sink for MemSink {
    ghost bytes = { λ s. Some s.held };

    ghost writes = { λ s. s.writes };

    ghost faults = { λ s. s.faults };

    fn write(&mut self, piece: &[u8]) -> Result<usize, WriteError>
        ensures part { IfOk result (λ taken. taken ≤ length piece.now) }
        ensures some { IfOk result (λ taken. 0 < length piece.now → 0 < taken) }
        ensures taken { IfOk result (λ taken.
            Some self.new.held ≡ followed_by (Some self.old.held) (take taken piece.now)) }
        ensures none { OnErr result (Some self.new.held ≡ Some self.old.held) }
        ensures writes { 0 < length piece.now → self.new.writes ≡ self.old.writes + 1 }
        ensures empty { piece.now ≡ [] → (result ≡ Ok 0) × (self.new ≡ self.old) }
        ensures cause { HasCause WriteError.Failed WriteError.NoMemory
            self.old.faults self.new.faults result }
        ensures bound { self.new.faults ≤ most_counted_calls }

        // It takes no more than a piece, and fails exactly where it is to.
        ensures least { IfOk result (λ taken. taken ≡ min self.old.piece (length piece.now)) }
        ensures fails { IsErrOf result WriteError.Failed ↔ WriteIsToFail self.old piece.now }

        // Each write of some bytes counts, and the same writes are to fail after it.
        ensures calls { 0 < length piece.now → self.new.calls ≡ counted self.old.calls }
        ensures same { (self.new.piece ≡ self.old.piece) × (self.new.fails ≡ self.old.fails) }
    {
        let faults = self.faults;
        if piece.is_empty() {
            return Ok(0);
        }
        self.given.note(piece);
        let call = self.calls;
        self.calls = call.saturating_add(1);
        let listed = self.fails.as_slice().contains(&call);
        if listed || self.piece == 0 {
            self.faults = faults.saturating_add(1);
            return Err(WriteError::Failed);
        }
        let taken = piece.len().min(self.piece as usize);
        match self.held.append(&piece[..taken]) {
            Ok(()) => Ok(taken),
            Err(NoMemory) => Err(WriteError::NoMemory),
        }
    }
}
