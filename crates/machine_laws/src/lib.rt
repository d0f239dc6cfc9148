//! Laws of the machine, of the definitions alone: verified code never gets stuck, and what it leads to
//! conforms.
//!
//! Each law is the contract of a function that does nothing, and `specs/Laws` says it; `specs/Runnable`
//! has what is asked of a world, its native methods among it, and `specs/Deeds` what a right deed is.
//! What the machine keeps whatever code it runs is `state_laws`'s.
//! The lemmas behind them are for the crates above: `proofs/Heaps` for changes of the heap, `Ready` for
//! a thread at an instruction, a module for each family of instructions, `Natives` and `Threads` for
//! native methods, `Catching` for throws, `Deeds` for all instructions, `Steps` for steps.
#![tactic(auto)]

mod progress;

pub use progress::{
    can_go_on, deed_is_right, journal_conforms, reached_conforms, run_conforms, step_is_right,
};
