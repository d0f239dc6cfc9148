//! Laws of linked code, of the definitions alone: in a world that was linked, all that code names
//! is there.
//!
//! Each law is the contract of a function that does nothing, and `specs/Laws` says it; `specs/Code`
//! says what code of which all classes are there is, and `specs/Worlds` what a linked world is. The
//! crate stands on `link_laws`, whose laws say what linking keeps of the classes that were read.
//! The lemmas behind its own are for the crates above: `proofs/Classes` for what holds of each
//! class of a linked world, `Types` and `Members` for members and references, `Methods` for what
//! holds of all code.
#![tactic(auto)]

mod code;

pub use code::{codes_are_linked, ground_is_there};
