//! Which static fields, monitors of classes and interned strings of the definitions a machine has.
//!
//! It stands on `static_fields`, `literal_table` and `vm_monitors` for what the machine keeps of each,
//! and on `heap_objects` for what the addresses in them name. The contract above it is
//! `specs/Shared.antt`, by which each is read with addresses in place of ids first, and then with the
//! ids that these stand for; and that of `statics_are_read` and `statics_are_written`: the place of a
//! static field has the value that the definitions find by name, and where one is put there, no other
//! field changes.
#![tactic(auto)]

mod laws;

pub use laws::{statics_are_read, statics_are_written};
