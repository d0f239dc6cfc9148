//! Laws of states, of the definitions alone: what the machine itself keeps, whatever code it runs. There are
//! no more threads, frames, words and bytes than the limits say, a thread that has ended is done, the owner of
//! a monitor is a thread that there is, and a literal has one string (`WellKept` of machine_model).
//!
//! Each law is the contract of a function that does nothing, and `specs/Laws` says it. The lemmas behind
//! them are for the crates above: `proofs/Changes` for changes of a state, `Families` and `Calls` for
//! instructions, `Steps` for steps.
#![tactic(auto)]

mod keeping;

pub use keeping::{deed_is_kept, run_is_kept, step_is_kept};
