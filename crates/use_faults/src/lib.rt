//! What is wrong with the classes of a world when a program is linked (JVMS 4.6, 4.9.1, 5.4.3): the
//! entries that they use and that name nothing, or something of the wrong kind; final classes and
//! methods above them; and the main class.
//!
//! It stands on `class_world` for look-ups, on `class_faults` for the entries that a class uses, on
//! `descriptor_types` for what descriptors spell, and on `link_model`, whose definitions say what is
//! wrong. The contract above it is that of three passes: `first_unresolved`, `first_final_override`
//! and `main_fault` each give the first fault of their kind. Each entry is looked up once for each
//! kind of use, and a method is compared with the final ones above its class by number. Only want
//! of memory may come instead. `find_field` and `find_method` give the member that a reference
//! names.
#![tactic(auto)]

mod classes;
mod final_methods;
mod members;
mod overrides;
mod references;
mod start;
mod types;
mod uses;

pub use members::{find_field, find_method};
pub use overrides::first_final_override;
pub use references::{MemberReference, member_at};
pub use start::main_fault;
pub use uses::first_unresolved;

#[cfg(test)]
mod tests;
