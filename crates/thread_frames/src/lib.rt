//! The frames of one thread (JVMS 2.6), their words one after another in room that is taken once.
//!
//! It stands on `jv_values` for values and operands, on `code_store` for marks of code and on
//! `local_runs` for local steps. The contract above it is that of a list of frames, the newest first
//! (`specs/Frames`): each call of `ThreadFrames` says which frame it shows or changes, and how, and
//! leaves all others. `specs/Machine` says which frames of `machine_model` these are. Local steps
//! are made on the words of the newest frame where they lie. No call but `open` takes memory.
#![tactic(auto)]

mod frames;
mod view;
mod words;

pub use frames::{MOST_FRAMES, ThreadFrames};
pub use view::FrameView;
pub use words::MOST_STACK_WORDS;

#[cfg(test)]
mod tests;
