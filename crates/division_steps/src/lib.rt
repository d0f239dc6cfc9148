//! Instructions that divide (JVMS 6.5: idiv, irem, ldiv, lrem), as steps of a machine.
//!
//! It stands on `machine_throws` for what a step that may throw comes to, on `frame_operands` for the
//! operands of a frame and on `arithmetic` for quotients and remainders. The contract above it is that
//! of each step (`ComesTo` in `machine_throws`): where the divisor is 0 it answers that an
//! ArithmeticException is to be thrown, and else the quotient or the remainder stands in place of the
//! two operands. No step takes memory.
#![tactic(auto)]

mod division;

pub use division::{divide_ints, divide_longs};
