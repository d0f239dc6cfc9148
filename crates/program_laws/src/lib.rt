//! Laws of programs, of the definitions alone: a program that was linked and verified never gets
//! stuck, and where its run has no end it can go on.
//!
//! Each law is the contract of a function that does nothing, and `specs/Laws` says it;
//! `specs/Verified` says what a verified program is. The crate joins `linked_world_laws`, what
//! linking gives, with `machine_laws` and `start_laws`, which ask it.
#![tactic(auto)]

mod program;

pub use program::{
    verified_conforms, verified_goes_on, verified_is_runnable, verified_is_startable,
};
