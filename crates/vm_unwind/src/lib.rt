//! Throws that end frames (JVMS 2.10): which frame of a thread catches, which monitors the frames
//! above it leave, and what the thread is then.
//!
//! It stands on `vm_throw` for the handler in one frame, and on `frame_stacks` for the frames of
//! threads. The contract above it is that of `find_catching`, which gives the newest frame that has a
//! handler and the place of the handler, and none exactly where no frame has one; of `held_monitor`,
//! which gives the monitor that the method of a frame holds, where it's synchronized; and of
//! `catch_in_newest` and `end_by_throwable`, which leave a thread as the definitions do. The laws say
//! of the definitions alone what a loop over frames needs: a throw ends the frames above the one that
//! catches, one after the other and each with its monitor (`unwinding_goes_by_frames`), and the place
//! that is found is where the definitions catch (`places_are_catches`). Nothing here takes memory, and
//! nothing is recursive on the depth of the stack.
#![tactic(auto)]

mod catching;
mod held;
mod law;
mod outcome;

pub use catching::{Catching, find_catching};
pub use held::{HeldMonitor, held_monitor, method_flags};
pub use law::{
    frames_hold_as_defined, names_find_methods, places_are_catches, unwinding_goes_by_frames,
    unwinding_has_parts,
};
pub use outcome::{catch_in_newest, caught_as_defined, end_by_throwable};
