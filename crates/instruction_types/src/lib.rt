//! The typing of instructions, by family (JVMS 4.10.1.9): what each makes of the types of a frame,
//! in place.
//!
//! It stands on `type_rules`, and on `typing_model`, whose rules say what each family makes of a
//! frame. The contract above it is that each function leaves exactly the frame that the rule gives,
//! and answers `Misfit` exactly where it gives none; of a frame that an error leaves nothing is
//! said. Only a frame that grows takes memory.
#![tactic(auto)]

pub mod arrays;
pub mod environment;
pub mod locals;
pub mod operands;
pub mod returns;
pub mod stack_forms;

pub use arrays::{array_load, array_store};
pub use environment::{Environment, TypingError};
pub use locals::{increment, load, store};
pub use operands::{Wanted, change, pop_all, push_all};
pub use returns::{return_value, return_void};
pub use stack_forms::stack_form;
