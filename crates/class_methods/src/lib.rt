//! The signatures of the methods of a world's classes: a number for each name and descriptor that
//! they have (JVMS 4.6).
//!
//! It stands on `class_world` for the classes, and on `class_names` for the numbers of names and
//! descriptors. The contract above it is that of `MethodSignatures`: methods of one name and
//! descriptor share a number, and others don't (`specs/Signatures.antt`). Each call but `open` takes
//! constant time and no memory.
#![tactic(auto)]

mod filling;
mod signatures;

pub use signatures::MethodSignatures;
