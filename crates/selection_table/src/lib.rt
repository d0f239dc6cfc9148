//! Methods by signature, as calls on the objects of a class select them.
//!
//! It stands on `jv_types` and `class_names`. The contract above it is that of `SelectionTable`: of
//! the methods that were added it has the first of each signature, and finds it without a scan.
#![tactic(auto)]

mod table;

pub use table::SelectionTable;

#[cfg(test)]
mod tests;
