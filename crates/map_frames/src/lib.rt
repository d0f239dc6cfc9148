//! The frames of types that a method's code begins with, and that its stack map says (JVMS
//! 4.7.4, 4.10.1.6), by the numbers of their classes.
//!
//! It stands on `type_rules` for frames, on `numbered_types` for the types of a descriptor, and on
//! `member_types` for what the entries of a pool name. The contract above it is that `start_frame`
//! and `map_frame` give exactly the frames that the definitions give, for code of which all classes
//! are there. Only want of memory may come instead.
#![tactic(auto)]

mod frames;
mod locals;
mod method;
mod types;

pub use frames::{has_room, map_frame, start_frame};
pub use method::{MethodCode, method_types};
pub use types::map_type;
