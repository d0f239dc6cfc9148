//! The values of the machine (JVMS 2.2 to 2.4), and operands in the words of a frame (JVMS 2.6.2).
//!
//! It stands on `jv_types` and on `machine_model`, whose values they are (`specs/Values.antt`). The
//! contract above it is that operands are taken from words, and put there, as the definitions take
//! them from a list of operands from the top down: a long takes two words. Nothing here takes
//! memory or refuses; that operands are there, of the kind that is asked for, and that there is room
//! for what is put there, is for the caller to know.
#![tactic(auto)]

pub mod locals;
pub mod operands;
pub mod value;

pub use value::Value;

#[cfg(test)]
mod tests;
