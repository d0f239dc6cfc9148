//! The literals of a program by number, and the strings that stand for them (JVMS 5.1).
//!
//! It stands on `jv_types` and `class_names`, and on `heap_face` for addresses. The contract above
//! it is that of `LiteralTable`: the number of a literal is that of its units, each has at most one
//! string, and the strings stand in the order in which they were interned. Each call but `open`
//! takes constant time and no memory.
#![tactic(auto)]

mod table;

pub use table::LiteralTable;

#[cfg(test)]
mod tests;
