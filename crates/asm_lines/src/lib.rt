//! The lines of an assembler text, each by itself: what a line says, or what is least wrong with it.
//!
//! It stands on `assembler_model` and `text_model`, whose definitions say what a line says, on
//! `jv_types` for lists, lines and refusals, and on `smallvec` for the words of a line. The contract
//! above it is that of `read_line`: the form of the line's first word, and what the line says or the
//! kind of its least fault, exactly as the definitions have it. What a line says lends its words from
//! the text.
#![tactic(auto)]

pub mod error;
pub mod form;
mod frame;
mod hexadecimal;
pub mod line;
pub mod mnemonic;
pub mod numbered_line;
pub mod numeral;
pub mod operation;
pub mod term;
#[cfg(test)]
mod tests;
pub mod words;
