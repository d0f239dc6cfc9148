//! Members of classes by one number each: those of the first class from 0 on, then those of the next.
//!
//! It stands on `jv_types`. The contract above it is that of `MemberNumbers`: the number of a member
//! is the number of members in the classes before its own, and its index there, so that no two have
//! one (`specs/Numbers.antt`), and it's found without a scan.
#![tactic(auto)]

mod numbers;

pub use numbers::{MemberNumbers, numbers_are_apart};

#[cfg(test)]
mod tests;
