//! The classes of a program by number, as its world has them, and what is wrong with their names,
//! their members and the types above them (JVMS 4.1, 4.5, 4.6).
//!
//! It stands on `jv_types`, `class_names`, `class_world` and the laws of linking. The contract
//! above it is that of three calls. `first_twice` tells the first class of which the name stands
//! before it, or of which a member stands twice. `number_classes` makes, of boot classes and of a
//! program's classes whose names are apart, the classes of the definitions' world by number.
//! `first_cycle` tells the first of the program's classes that is above itself. Only want of memory
//! may come instead.
#![tactic(auto)]

mod cycles;
mod infos;
mod names;
mod programs;
mod twice;

pub use cycles::first_cycle;
pub use infos::{NumberedClasses, number_classes};
pub use twice::first_twice;
