//! The linker: from the classes of a program and the boot classes to their world, or to the first
//! refusal (JVMS 5.4).
//!
//! It stands on `class_faults`, `class_infos` and `use_faults`, which each tell the first fault of
//! one kind, and on `class_world`, which holds the classes by number. The contract above it is that
//! of `link`: it gives the world exactly where the definitions refuse nothing, and else their first
//! refusal. Only want of memory may come instead.
#![tactic(auto)]

mod error;
mod faults;
mod linker;

pub use error::LinkError;
pub use linker::link;

#[cfg(test)]
mod tests;
