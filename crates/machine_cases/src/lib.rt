//! Tests over linked worlds: the tables of the classes of a large program, and what a throw leaves of
//! a frame, against what JVMS says.
//!
//! It stands on `linked_samples`, which links the programs, and on `class_versions` and `vm_unwind`,
//! whose contracts say what each gives in the words of the definitions; here the answers come from
//! outside.
#![tactic(auto)]

#[cfg(test)]
mod opened;
#[cfg(test)]
mod unwinding;
#[cfg(test)]
mod versions;
