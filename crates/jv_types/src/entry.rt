//! The entries of a journal.

use crate::number::ThreadNo;

/// One event of a run.
#[derive(Clone, Copy, Debug, PartialEq, Eq)]
pub enum Entry {
    /// A thread made so many steps, 1 to 4,096.
    Run { thread: ThreadNo, steps: u32 },
    /// An update was tried.
    Attempt,
}
