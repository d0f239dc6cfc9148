//! Laws of assembler texts, of the definitions alone: what assembles is in the profile of class
//! files.
//!
//! It stands on `assembler_model`, whose definitions say which class a text describes. Each law is
//! the contract of a function that does nothing, and `specs/Laws` says it. A line by itself says
//! only numbers and texts that a class file takes (`proofs/SaidLemmas`); what lines need is in the
//! pool, at indices of two bytes, where no fault is told (`proofs/KnownLemmas`); and so the members
//! are those of a class file (`proofs/MemberLemmas`). The grammar bounds no length, but each line
//! comes to a few bytes for each byte that it has (`proofs/SizeLemmas`), and blocks are no longer
//! than their text (`proofs/ShortLemmas`).
#![tactic(auto)]

mod assembled;

pub use assembled::{assembled_fits, assembled_is_in_profile};
