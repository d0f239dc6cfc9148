//! Laws of the texts of a run, of the definitions alone: a journal is read back from its text, and no
//! journal has two texts.
//!
//! Each law is the contract of a function that does nothing, and `specs/Laws` says it.
#![tactic(auto)]

mod journal;

pub use journal::{journals_are_read_back, journals_have_one_spelling};
