//! Programs of one class whose main is a straight line: which they are, and their run.
//!
//! It stands on `straight_line_model`, whose definitions say what the machine of such a program
//! does, on `run_model` for which classes are one and for journals, on the laws of typing, since a
//! well typed main finds its operands, and on `jv_types`. The contract above it is that of two
//! calls. `main_body` gives the code of main where the classes of a verified world are such a
//! program, and nothing for all others, which aren't run yet. `run_to_end` runs it to its end,
//! thread 0 alone in turns of 64 steps: its journal is the round-robin one, and its output that of
//! the machine that the journal leads to.
#![tactic(auto)]

mod body;
mod instruction;
mod machine;
mod main_code;
mod names;

pub use body::Body;
pub use machine::{Run, run_to_end};
pub use main_code::main_body;
