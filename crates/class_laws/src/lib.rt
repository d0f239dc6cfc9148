//! Laws of class files, of the definitions alone: what is read of bytes is what they spell, and
//! what they spell is read.
//!
//! Each law is the contract of a function that does nothing, and `specs/Laws` says it. The lemmas
//! behind them are for the crates above: `proofs/Numbers` and `proofs/Readers` for readings and
//! spellings of any kind, the other modules for the parts of a class file.
#![tactic(auto)]

mod class_file;

pub use class_file::{class_is_read, counts_fit, one_spelling, refused_is_unspelled};
