//! The types that descriptors spell (JVMS 4.3), by the numbers of the classes in them.
//!
//! It stands on `class_world`, which knows the number of a class, on `type_rules` for types by
//! number, and on `method_descriptors`, which tells whether the descriptor of a method is well
//! formed. The contract above it is that `field_type` and `method_type` give exactly the types that
//! the definitions read, where these read some and each class in them is there. Only want of memory
//! may come instead.
#![tactic(auto)]

mod field_types;
mod method_types;
mod units;

pub use field_types::field_type;
pub use method_types::{MethodType, method_type};
