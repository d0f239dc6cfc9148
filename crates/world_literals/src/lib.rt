//! The literals of a world by number: the Strings in the constant pools of its classes (JVMS 4.4.3,
//! 5.1).
//!
//! It stands on `class_world` for the classes, on `class_names` for numbers and on `literal_table`
//! for the table. The contract above it is that of `literals` and `open_literals`: a number for
//! each String constant, in the order of classes and of the entries of their pools, equal ones
//! sharing one; among them is each literal that code loads, and each that a static field starts
//! with (`specs/Literals.antt`). Time is linear in the pools.
#![tactic(auto)]

mod pools;

pub use pools::{literals, open_literals};
