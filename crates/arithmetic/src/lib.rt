//! The arithmetic of ints and longs (JVMS 6.5), which takes no memory and refuses nothing.
//!
//! It stands on `jv_types` for the operations' names and on `machine_model`. The contract above it
//! is that each function gives what `machine_model` computes over whole numbers, of whose result
//! 32 or 64 bits are left. A division asks of its caller that the divisor isn't 0: the exception
//! that JVMS has for it is made above.
#![tactic(auto)]

pub mod comparison;
pub mod conversion;
pub mod int;
pub mod long;

pub use comparison::{compares, order};
pub use conversion::{low_int, to_byte, to_char, to_short};
pub use int::{int_negate, int_op, int_shift};
pub use long::{long_negate, long_op, long_shift};

#[cfg(test)]
mod tests;
