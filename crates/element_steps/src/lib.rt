//! Instructions over elements of arrays (JVMS 6.5: arraylength, the array loads, and array stores of
//! ints, longs, chars and shorts), as steps of a machine.
//!
//! It stands on `machine_throws` for what a step that may throw comes to, on `frame_operands` for the
//! operands of a frame, and on `element_values` for which elements the words of a heap are. The
//! contract above it is that of each step (`ComesTo` in `machine_throws`): from whichever state of the
//! definitions the parts are in, they are after it in the one that the instruction leads to there, or
//! the step answers what is thrown there and changes nothing. No step takes memory.
#![tactic(auto)]

mod element;
mod lengths;
mod load;
mod store;

pub use lengths::array_length;
pub use load::load_element;
pub use store::store_element;
