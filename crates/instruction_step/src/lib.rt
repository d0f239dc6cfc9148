//! The typing of each instruction (JVMS 4.10.1.9): what it makes of the types of a frame, in place.
//!
//! It stands on `instruction_types` and `member_types`, which type the families of instructions.
//! The contract above it is that `type_step` leaves exactly the frame that the definitions give
//! after an instruction, and answers `Misfit` exactly where they give none, for an instruction whose
//! classes are there; of a frame that an error leaves nothing is said.
#![tactic(auto)]

mod operands;
mod step;

pub use step::type_step;
