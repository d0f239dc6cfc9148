//! Laws of frames, of the definitions alone: a step of verified code that touches the current frame
//! alone isn't wrong, and leads to a frame that fits the types that typing finds there.
//!
//! The law is the contract of a function that does nothing, and `specs/Laws` says it; `specs/Worlds`
//! has what is asked of a world. The lemmas behind it are for the crates above: `proofs/Standing` for
//! the instruction at which a frame stands, `Onward` for where it goes, `Taking` and `Outcome` for what
//! instructions take and push, `Subsumption` for values of a type, `Growing` for more objects.
#![tactic(auto)]

mod steps;

pub use steps::local_step_keeps;
