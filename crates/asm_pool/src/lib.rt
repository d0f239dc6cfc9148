//! What an assembler text needs of the constant pool, and the pool as a class has it.
//!
//! It stands on `assembler_model`, whose definitions say which entries each line needs and what the
//! pool of a class is, on `asm_parts` for the parts of a text and for the pool while it is filled,
//! and on `jv_types` for class data. The contract above it is that of a few calls: `all_needs` gives
//! exactly what a text needs, in order, each with the line that needs it; `fill` gives the pool that
//! these needs make; `note_far` notes the lines that need an index which two bytes don't hold, and
//! where it finds none, `constants` gives the pool as the definitions have it, and `near_index` the
//! index of an entry that is needed.
#![tactic(auto)]

pub mod constants;
pub mod fill;
pub mod need;
pub mod needs;
#[cfg(test)]
mod tests;
