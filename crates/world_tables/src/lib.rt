//! What is kept of the classes of a world, in tables with a row for each class, by its number.
//!
//! It stands on `class_world` and on `class_members`. The contract above it is that of its functions:
//! `chains` gives for each class the class itself, its superclass, and so on upwards, as the
//! definitions have them, but for names of which no class is there; `fields` gives what is kept of
//! its fields. The cost of each is that of what it gives.
#![tactic(auto)]

mod chain;
mod members;

pub use chain::chains;
pub use members::fields;
