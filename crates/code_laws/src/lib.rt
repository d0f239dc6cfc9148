//! Laws of code and of descriptors, of the definitions alone: what is read of a Code attribute is
//! what its bytes spell, and what they spell is read.
//!
//! Each law is the contract of a function that does nothing, and `code_model`'s `Laws` says it. The
//! lemmas behind them are for the crates above. They stand on `class_laws`' readers and spellings:
//! `Operands` for what stands behind an opcode, `Instructions` and `Places` for instructions,
//! `Parts` over `Handlers` and `Inners` for the attribute, `Maps` over `MapEntries` and `MapFrames`
//! for stack maps, `Bodies` and `Loading` for a method and a class, `FieldDescriptors` and
//! `MethodDescriptors` for types.
#![tactic(auto)]

mod code;
mod descriptors;

pub use code::{code_is_read, codes_are_loaded, one_body, one_opcode, refused_is_unspelled};
pub use descriptors::{one_field_descriptor, one_method_descriptor};
