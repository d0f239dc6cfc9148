//! The bytes of a method's code, from the lines of an assembler text.
//!
//! It stands on `assembler_model`, whose definitions say which bytes an instruction, a frame and a
//! handler are, on `asm_code` for the lines with their pcs and their labels, on `asm_pool` and
//! `asm_parts` for the constant pool, and on `method_descriptors` for the count of invokeinterface.
//! The contract above it is that of `code_bytes`: the contents of a method's Code attribute (JVMS
//! 4.7.3), exactly as the definitions have them. Numbers and distances are cut to the bytes that
//! they have; in a text without a fault there is nothing to cut.
#![tactic(auto)]

pub mod bytes;
pub mod code;
pub mod frames;
pub mod instruction;
#[cfg(test)]
mod tests;
