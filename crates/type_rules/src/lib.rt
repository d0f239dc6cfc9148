//! The types of the verifier by number (JVMS 4.10.1.2), frames of them (JVMS 4.10.1.4), and which
//! types go where which types are wanted.
//!
//! It stands on `class_world`, whose classes the types name by their numbers, and on
//! `typing_model`, where types have names. The contract above it is that `assignable`,
//! `operand_assignable` and `frame_assignable` answer what the definitions answer of the types by
//! name, for classes that are there. A type is copied as a number is; nothing takes memory but a
//! frame that grows.
#![tactic(auto)]

pub mod assignment;
pub mod class;
pub mod frame;
pub mod frame_assignment;
pub mod types;

pub use assignment::{assignable, operand_assignable};
pub use frame::TypeFrame;
pub use frame_assignment::{frame_assignable, has_this, types_assignable};
pub use types::{ElementType, FieldType, VerificationType};

#[cfg(test)]
mod tests;
