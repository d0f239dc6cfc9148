//! Texts by number, so that names are compared as numbers, and the signatures of members.
//!
//! It stands on `jv_types` and on `indexmap`. The contract above it is that of `Names` and of
//! `Signatures`: each is a list without repeats, in the order in which its items were added, and
//! the place of an item is found without a scan of the others.
#![tactic(auto)]

mod names;
mod signatures;

pub use names::Names;
pub use signatures::{Signature, Signatures};

#[cfg(test)]
mod tests;
