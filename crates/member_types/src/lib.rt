//! The typing of instructions that name constants, classes and members (JVMS 4.10.1.9).
//!
//! It stands on `instruction_types` for operands that are taken and put, on `numbered_types` for
//! the types that descriptors spell, and on `class_world` for classes and fields. The contract above
//! it is that each function leaves exactly the frame that the rule gives, and answers `Misfit`
//! exactly where it gives none, for operands whose classes are there; of a frame that an error
//! leaves nothing is said.
#![tactic(auto)]

pub mod calls;
pub mod constants;
pub mod constructors;
pub mod fields;
pub mod names;
pub mod objects;
pub mod replacements;
pub mod signatures;
