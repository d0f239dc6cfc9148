//! The assembler: from the text of a class to class data.
//!
//! It stands on `assembler_model`, whose definitions say which class a text describes or what its
//! first fault is, on `assembler_laws` for what follows from them, on the crates `asm_lines` to
//! `asm_bytes` for the steps between, and on `jv_types` for class data. The contract above it is
//! that of `assemble`: exactly the class that the text describes, or the first of its lines that is
//! outside the grammar, with what is wrong with it. Only want of memory may come instead, and not
//! where the first line is faulty. The class is in the profile of class files, where the text is no
//! longer than a file may be.
//!
//! A text is read once into parts, whose lines lend their words from it. Then the needs of the lines
//! make the constant pool, whose indices tell how long instructions are; then each method is placed
//! and its faults are noted; and where there is none, the class is built.
#![tactic(auto)]

mod assembler;
mod blocks;
mod error;
mod faults;
mod head;
mod members;
mod numbers;
mod sections;
#[cfg(test)]
mod tests;

pub use assembler::assemble;
pub use error::AsmError;
