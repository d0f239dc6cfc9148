//! How a run ends.

use crate::number::{ClassNo, ThreadNo};

/// How a run ends, over the numbers of its program's classes.
#[derive(Clone, Copy, Debug, PartialEq, Eq)]
pub enum End {
    /// Every thread has ended, and none by a throwable.
    AllEnded,
    /// Every thread has ended, and a throwable of this class ended the thread, the least such one.
    Uncaught { class: ClassNo, thread: ThreadNo },
    /// As many steps were made as the program may make.
    StepsSpent { n: u32 },
    /// A step or the start asked for so many words; so many can be reached; half of the heap has so
    /// many.
    HeapFull { asked: u32, reach: u32, half: u32 },
    /// No live thread can make a step.
    Stuck,
    /// The output would pass its limit.
    OutputFull,
    /// The stack of the thread would pass its limit.
    StackDeep { thread: ThreadNo },
    /// There would be more threads than there may be.
    ThreadsFull,
}
