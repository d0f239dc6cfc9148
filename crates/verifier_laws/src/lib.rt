//! Laws of verifying a world, of the definitions alone: a world has no failure exactly where each
//! of its methods is well typed, and its failure is that of the first method that isn't.
//!
//! Each law is the contract of a function that does nothing, and `specs/Laws` says it; the words
//! stand in `specs/Failures`. They stand on `typing_laws`, which says the same of one method. The
//! lemmas behind them are for the verifier: `proofs/Failures` for the first failure, class by class
//! and method by method, `proofs/Visits` for the pass over the instructions of a method, and
//! `proofs/Rules` for the rules at one instruction, in their order.
#![tactic(auto)]

mod worlds;

pub use worlds::{first_failure_is_told, no_failure_is_typed};
