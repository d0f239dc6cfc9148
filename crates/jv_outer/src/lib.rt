//! What lies outside a machine: the files that it reads and the sinks that it writes to.
//!
//! It stands on `jv_model`, `jv_types` and `thiserror`. The contract above it is that of the two
//! traits. `Files::read` gives the named file, or its first bytes where it is longer than a limit,
//! and lists each name that it's asked for. `Sink::write` takes a first part of what it's given,
//! and at least a byte where it is given any; each such call counts, and an empty piece touches
//! nothing. A count of faults rises by exactly one where `Failed` is answered, up to 2^64 - 1, and
//! stays where a call is `Ok`; where memory runs out it does one or the other. Code above raises a
//! count only by a call that fails, such as a read of a name that isn't there. `MemFiles` and
//! `MemSink` fail exactly where they're told to; the real parts are a few lines each, and what a
//! real file or terminal holds is told by no clause. The lists and counts of calls that only
//! clauses read are a `History` each, which takes no memory.
#![tactic(auto)]

pub mod disk;
pub mod files;
mod history;
pub mod memory;
pub mod sink;
pub mod stream;

pub use disk::DiskFiles;
pub use files::{Files, ReadError};
pub use memory::{MemFiles, MemSink};
pub use sink::{Sink, WriteError, write_all};
pub use stream::{FileSink, StdSink};

#[cfg(test)]
mod tests;
