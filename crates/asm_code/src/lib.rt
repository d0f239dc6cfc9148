//! The lines of a method's code in an assembler text: where each stands, where its labels stand, and
//! what is wrong with the lines.
//!
//! It stands on `assembler_model`, whose definitions say how many bytes an instruction takes and
//! what is wrong with a line where it stands, on `asm_parts` and `asm_pool` for the constant pool,
//! whose indices tell lengths, and on `indexmap` for labels by their words. The contract above it is
//! that of two calls. `read_code` gives exactly the lines with their pcs and their own faults, and a
//! table that finds the labels as the definitions find them; `note_code` notes all faults of a
//! method's code: those of the lines themselves, labels that aren't there, branches, handlers and
//! frames that go too far, and what stands more often than two bytes count.
#![tactic(auto)]

pub mod code_line;
pub mod faults;
pub mod labels;
pub mod lines;
pub mod names;
pub mod place;
pub mod sizes;
#[cfg(test)]
mod tests;
