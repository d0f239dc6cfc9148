//! What a class declares, as far as a running machine keeps it: the fields by their kinds and first
//! values, and the methods by their signatures.
//!
//! It stands on `jv_types` for boot classes and for classes that were read, on `class_names` for the
//! numbers of texts, and on `heap_face` and `jv_values` for what fields hold. The contract above it
//! is that a row tells of its field or method what the definitions say of that one
//! (`specs/Members.antt`), each list in the order of the class.
#![tactic(auto)]

mod constant;
mod field;
mod pool;

pub use field::{FieldRow, boot_fields, loaded_fields};
