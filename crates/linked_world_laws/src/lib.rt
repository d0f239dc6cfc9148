//! Laws of linked worlds, of the definitions alone: what the laws of the machine ask of a world and
//! of a program, apart from what typing gives, is so in a world that was linked.
//!
//! Each law is the contract of a function that does nothing, and `specs/Laws` says it. The crate
//! stands on `linked_laws`, which says what a linked world is, and on `machine_laws` and
//! `start_laws`, whose `IsRunnable` and `IsStartable` ask what is proved here, part by part. The
//! lemmas: `proofs/Orders`, `Chains` and `Above` for the order of classes and what stands for what,
//! `Bodies`, `Standing` and `RightCode` for code as it was read, `Described`, `MethodKinds` and
//! `Found` for what the members of classes are, `Layouts` for places of fields, `Referred`,
//! `Using`, `Selecting`, `Calling` and `UsesThere` for instructions, `StringsAlone`, `Beginning`
//! and `Constants` for the rest.
#![tactic(auto)]

mod code;
mod objects;
mod start;

pub use code::{
    boot_classes_are_there, code_stands_right, frames_are_small, instructions_use_what_is_there,
    worlds_are_orderly,
};
pub use objects::{fields_have_types, strings_stand_alone};
pub use start::{first_methods_can_begin, statics_start_declared, strings_are_for_strings};
