//! The names of the methods of a world by their numbers, and what else a world has at numbers.
//!
//! It stands on `class_world` for numbers. The contract above it is `specs/Names.antt`, by which the
//! machine's numbers become the names that the definitions have, and `methods_are_named`: in a world
//! in which no name stands twice, the method of a number is the one that look-up by its name gives.
#![tactic(auto)]

mod laws;

pub use laws::methods_are_named;
