//! The top call, which does all that the program does, over files and sinks that are handed in.
//!
//! It stands on `run_model`, whose `Headline` is what is promised, and on the definitions below it;
//! on `class_loader` for classes, on `manifest_reader` for manifests, on `boot_classes`,
//! `class_linker` and `stackmap_verify` for their world, on `straight_line` for programs and their
//! run, on `class_writer` for class files, on `jv_outer` for files and sinks, on `run_text` for the
//! texts of a journal and a status, and on `jv_types`. The contract above it is that of
//! `jvolve_alone`.
#![tactic(auto)]

mod asm;
mod call;
mod deliver;
mod load;
mod program;
mod words;
mod world;

pub use call::{Reply, jvolve_alone};
pub use run_text::{exit_status, status_line};
