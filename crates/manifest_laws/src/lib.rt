//! Laws of manifests, of the definitions alone: which fault of a text is told, what a block is
//! by its lines, and how long it may be.
//!
//! Each law is the contract of a function that does nothing, and `Laws` of its definitions says it.
//! `Blocks` says of a block by its lines what `manifest_model` says of it by cutting a text, and
//! `Faults` what is wrong with the rest of a manifest: a reader that goes through a text line by
//! line, and stops at the first faulty one, is proved by them and by the lemmas here.
#![tactic(auto)]

mod laws;

pub use laws::{blocks_are_cut, blocks_are_shorter, first_fault_is_told};
