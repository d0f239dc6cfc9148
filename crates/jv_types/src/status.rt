//! How a call ends.

use crate::number::ThreadNo;
use crate::refusal::Cause;
use crate::text::Text;

/// How a call of the program ends.
#[derive(Debug, Drop)]
pub enum Status {
    /// Every thread ended, and none by a throwable; or the work of a mode without a run is done.
    Finished,
    /// Every thread ended, and a throwable of this class ended the thread, the least such one.
    Uncaught { class: Text, thread: ThreadNo },
    /// The words of the command are none that are served.
    BadWords,
    /// The input is refused. `item` is the number of the manifest's item, from 1, or 0 where it is
    /// none of them, and `sub` the number of a class within that item, from 1, or 0.
    BadInput { item: u32, sub: u32, cause: Cause },
    /// A file could not be read.
    ReadFault,
    /// A sink did not take all of its text.
    WriteFault,
    /// Memory ran out.
    NoMemory,
    /// As many steps were made as the program may make.
    StepsSpent { n: u32 },
    /// So many words were asked for; so many can be reached; half of the heap has so many.
    HeapFull { asked: u32, reach: u32, half: u32 },
    /// No live thread can make a step.
    Stuck,
    /// The output would pass its limit.
    OutputFull,
    /// The entry of the journal with this number, from 0, is none, or isn't legal.
    BadJournal { entry: u64 },
    /// The stack of the thread would pass its limit.
    StackDeep { thread: ThreadNo },
    /// There would be more threads than there may be.
    ThreadsFull,
}
