//! Which threads of the definitions the threads of a machine are.
//!
//! It stands on `frame_stacks` for threads, on `member_names` for the names of methods, and on
//! `heap_objects` for what the addresses in frames name. The contract above it is
//! `specs/Threads.antt`, by which threads are read with addresses in place of ids first, and then with
//! the ids that these stand for; and that of its laws: where the newest frame of a thread goes on with
//! other operands, the threads are those of the definitions with that frame, and what the next
//! instruction of a thread comes to is what the definitions say of the one at the place of that frame.
#![tactic(auto)]

mod laws;

pub use laws::{deeds_are_at_instructions, threads_go_on};
