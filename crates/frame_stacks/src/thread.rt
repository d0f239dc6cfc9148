//! A thread.

use crate::starts::Starts;
use jv_types::{ClassNo, NoMemory};
use std::alloc::Global;
use thread_frames::ThreadFrames;

/// A thread (JVMS 2.5.2).
#[derive(Drop)]
pub struct Thread {
    pub frames: ThreadFrames,
    /// The methods that it is to run once its oldest frame has returned.
    pub to_start: Starts,
    /// Whether its last step reached a safe point.
    pub mark: bool,
    pub ended: bool,
    /// The class of the throwable that ended it, where one did.
    pub thrown: Option<ClassNo>,
}

impl Thread {
    ghost use Rattle.std.specs.Prelude.{◌≡◌, IfOk};
    ghost use Rattle.frame_stacks.specs.Kept.{unused};

    /// A thread with nothing in it, in room for all that it may have.
    pub fn new(alloc: Global) -> Result<Thread, NoMemory>
        ensures { IfOk result (λ thread. thread ≡ unused) }
    {
        Ok(Thread {
            frames: ThreadFrames::open(alloc)?,
            to_start: Starts::new(alloc)?,
            mark: false,
            ended: false,
            thrown: None,
        })
    }
}
