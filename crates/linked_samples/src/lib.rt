//! Linked worlds for tests and benchmarks: programs of manifests, what they link to, and what a
//! linked world has by name.
//!
//! It stands on `manifest_reader`, `class_loader`, `boot_classes` and `class_linker`, whose contracts
//! say what is loaded and linked, on `use_faults` for the look-up of members, and on the laws of
//! linked worlds. The contract above it is that of `linked_world`: the world is one that was linked,
//! and so has what the crates above linking ask of a world; and of `class_named` and
//! `method_named`, whose answers are what look-up by name finds in it.
#![tactic(auto)]

mod error;
mod named;
mod program;
mod world;

pub use error::SampleError;
pub use named::{class_named, method_named};
pub use program::{Program, link_program, load_program};
pub use world::linked_world;
