//! Which method a call runs on an object of a class (JVMS 6.5), by a table for each class.
//!
//! It stands on `class_methods` for the signatures of methods, on `world_tables` for the superclasses
//! of each class, and on `selection_table` for the tables. The contract above it is that of
//! `ClassDispatch`: what it selects for a class and a signature is what the definitions select in
//! that class and upwards, by one look at a table (`specs/Dispatch.antt`). What it asks of a world is
//! so of each linked one, by `linked_worlds_are_apart`.
#![tactic(auto)]

mod rows;
mod tables;
mod worlds;

pub use tables::ClassDispatch;
pub use worlds::linked_worlds_are_apart;
