//! What the indices of a class's constant pool name (JVMS 4.4), and what a class says of a call of a
//! method: how many words its arguments take, and which locals it fills (JVMS 4.3.3, 4.10.1.6).
//!
//! It stands on `code_model`, whose definitions say it, on `method_descriptors` for what descriptors
//! say, and on `jv_types` for class data. The contract above it is that each function gives what the
//! definition of its name gives. Only want of memory may come instead.
#![tactic(auto)]

mod arguments;
mod locals;
mod pool;

pub use arguments::is_argument_count;
pub use locals::first_locals;
pub use pool::{is_named, names, names_one_of};
