//! The reader of code: from the Code attribute of a method (JVMS 4.7.3) to instructions, handlers
//! and absolute frames, so that nothing above it looks at bytes again.
//!
//! It stands on `code_model`, whose definitions say which bytes spell which code, on `code_laws`
//! for what follows from them, on `class_pool` for what constant pools and descriptors say, on
//! `class_reader` for lemmas on lists that are read by a count, and on `jv_types` for code and for
//! bytes that are read from the front. The contract above it is that of two calls. `read_code`
//! gives the code of one method, `load_class` that of all with the file: what they read is spelled
//! so, what is spelled so they read, and their error is the first refusal, in the order of the
//! methods. Only want of memory may come instead.
//!
//! A table says the format of each opcode, and a function reads the operands of a family of
//! formats. Targets, handlers and places of frames are looked up in the table of starts that
//! `Instructions` has.
#![tactic(auto)]

mod body;
mod error;
mod format;
mod frames;
mod instruction;
mod map_entry;
mod method;
mod opcode;
mod operands;
mod parts;
mod places;
mod switch;

pub use error::CodeError;
pub use method::{load_class, read_code};

#[cfg(test)]
mod tests;
