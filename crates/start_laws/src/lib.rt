//! Laws of the start, of the definitions alone: the machine as a program starts conforms, and so it does
//! after every legal list of entries of steps.
//!
//! Each law is the contract of a function that does nothing, and `specs/Laws` says it; `specs/Startable`
//! has what is asked of a program. The crate stands on `machine_laws`, whose laws of steps it begins.
#![tactic(auto)]

mod start;

pub use start::{start_conforms, started_conforms, started_goes_on};
