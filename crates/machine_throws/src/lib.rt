//! What an instruction that may throw comes to.
//!
//! It stands on `machine_parts` for what the parts of a machine stand for. The contract above it is
//! `ComesTo` of `specs/Outcomes.antt`: where a step answers `Made`, the machine is in the state that
//! the instruction leads to, and where it answers `Throws`, the definitions throw an object of that
//! class there, and the machine is still in the state in which it was. So whoever makes the step makes
//! the throw from what was before it.
#![tactic(auto)]

mod outcome;

pub use outcome::{Outcome, Throwable};
