//! The parts of an assembler text, and the entries of its constant pool.
//!
//! It stands on `assembler_model`, whose definitions say what the parts of a text are and which
//! entries a class needs, on `asm_lines` for lines, on `jv_types` for lists and refusals, and on
//! `indexmap` for entries by their names. The contract above it is that of a few calls: `read_parts`
//! gives exactly the parts of a text behind its first line, each with the block of the method that it
//! begins; `note_order` notes which lines outside methods stand out of order; `need` adds an entry to
//! a pool behind its parts, each where it is first needed, and `index_of` and `is_too_far` tell the
//! indices that the definitions give it. Of the faults that were noted, the one of the least line and
//! of the least rank there is told, in whichever order they came.
#![tactic(auto)]

pub mod entry;
pub mod fault;
pub mod first_fault;
pub mod order;
pub mod part;
pub mod parts;
pub mod pool;
pub mod pool_entries;
pub mod section;
#[cfg(test)]
mod tests;
