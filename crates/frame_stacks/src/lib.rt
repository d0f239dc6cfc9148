//! The stacks of all threads of a run (JVMS 2.5.2): for each its frames, the methods that it is
//! still to start, whether its last step reached a safe point, and how it ended.
//!
//! It stands on `thread_frames` for the frames of one thread. The contract above it is that of a
//! list of threads by their numbers (`specs/Threads`): each call of `Stacks` says which thread it
//! shows or changes, and how, and leaves all others. `specs/Machine` says which threads of
//! `machine_model` these are. `open` takes all memory; no other call takes any, and none refuses but
//! `add_thread`, where there are as many threads as there may ever be.
#![tactic(auto)]

mod stacks;
mod starts;
mod thread;

pub use stacks::{MOST_THREADS, Stacks};
pub use starts::{MOST_STARTS, Starts};
pub use thread::Thread;

#[cfg(test)]
mod tests;
