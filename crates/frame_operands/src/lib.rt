//! The operands on top of the newest frame of a thread: what an instruction finds there, and what it
//! leaves.
//!
//! It stands on `frame_stacks` for the frames of threads, on `jv_values` for operands in words, and on
//! `machine_threads` for the newest frame of a thread. The contract above it is `specs/Operands.antt`:
//! `HasOne`, `HasTwo` and `HasThree` say of which kinds the values on top are, and what lies below
//! them. An instruction that may throw looks at its operands first, and takes them only where it
//! doesn't throw, so that a throw leaves the frame as it was. No call takes memory.
#![tactic(auto)]

mod leave;
mod look;
mod values;

pub use leave::{go_on, push_and_go_on, replace_one, replace_two, take_three};
pub use look::{one_on_top, three_on_top, two_on_top};
pub use values::{as_int, as_long};
