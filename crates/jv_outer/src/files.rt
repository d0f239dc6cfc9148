//! Files by name.

ghost use Rattle.std.specs.Prelude.{◌≡◌, ◌≤◌, ◌+◌, ℕ, List, ◌++◌, ◌∷◌, [], Option, IfOk, length};
ghost use Rattle.jv_model.specs.Outside.{Folder, most_counted_calls};
ghost use Rattle.jv_outer.specs.Outside.{IsReadOf, HasCause};

use jv_types::Bytes;
use std::alloc::Global;
use thiserror::Error;

/// Why a file wasn't read.
#[derive(Debug, Drop, Error)]
pub enum ReadError {
    /// The file isn't there, or can't be read.
    #[error("a file could not be read")]
    Failed,
    /// There was no memory for its bytes.
    #[error("out of memory")]
    NoMemory,
}

/// Files by name.
pub trait Files {
    /// The file that each name stands for, where that is told.
    ghost folder: { Self → Option Folder };

    /// The names that were asked for so far, in order, whatever came of it.
    ghost asked: { Self → List (List ℕ) };

    /// How many reads have failed. It never falls, and stands still at 2^64 - 1.
    ghost faults: { Self → ℕ };

    /// Reads the whole file of this name, or its first `limit + 1` bytes where it is longer than
    /// `limit` bytes. A name that no file has is a failed read.
    fn read(&mut self, alloc: Global, name: &str, limit: u64) -> Result<Bytes, ReadError>
        ensures bytes { IfOk result (λ bytes.
            IsReadOf (folder self.old) name.now limit bytes.items) }
        ensures within { IfOk result (λ bytes. length bytes.items ≤ limit + 1) }
        ensures folder { folder self.new ≡ folder self.old }
        ensures asked { asked self.new ≡ asked self.old ++ name.now ∷ [] }
        ensures cause { HasCause ReadError.Failed ReadError.NoMemory
            (faults self.old) (faults self.new) result }
        ensures bound { faults self.new ≤ most_counted_calls };
}
