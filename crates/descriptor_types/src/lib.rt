//! The types that descriptors spell (JVMS 4.3.2, 4.3.3), with the names of classes as they stand in
//! the text.
//!
//! It stands on `code_model`, whose definitions say what a descriptor spells, and on `jv_types` for
//! lists. The contract above it is that of `field_type` and of `method_type`: each gives the type
//! that the whole text spells, and none where it spells none. Dimensions are counted, so that
//! nothing is recursive. Only the list of a method's parameters takes memory.
#![tactic(auto)]

mod field;
mod method;
mod types;

pub use field::field_type;
pub use method::method_type;
pub use types::{ElementType, FieldType, MethodType};

#[cfg(test)]
mod tests;
