//! Laws of the boot classes in a program's world, of the definitions alone: what the laws of the machine ask of
//! them is there, whatever the program's classes are.
//!
//! The law is the contract of a function that does nothing, and `specs/Laws` says it: a part of `IsRunnable` of
//! machine_laws and of `IsStartable` of start_laws.
#![tactic(auto)]

mod boot;

pub use boot::boot_classes_hold;
