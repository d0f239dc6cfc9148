//! The handler that takes a throwable (JVMS 2.10).
//!
//! It stands on `class_world`, whose classes keep the code of their methods, and on `machine_model`
//! and `jv_types`. The contract above it is that of `find_handler`: it gives the place of the handler
//! that the definitions choose in a method's code, the first one in the order of the exception table
//! that covers the instruction and whose class is the throwable's own or above it, and none exactly
//! where there is none. A class that a row catches is found by its name at once. Each class that is
//! looked at above the throwable's is a step. Nothing takes memory.
#![tactic(auto)]

mod handlers;
mod rows;

pub use handlers::find_handler;
