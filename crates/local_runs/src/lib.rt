//! Local steps in the code of a method, one after another, on the words of a frame that are lent.
//!
//! It stands on `local_steps`, which makes the step of an instruction, and on `code_store`, which
//! shows the code. The contract above it is that the words, the place and the safe points are those
//! that `machine_model`'s local steps give, and that no more steps could have been made than were,
//! wherever no step is wrong, as none is in verified code. `step_at` and `run` work on the words
//! where they stand; `Lent` is a copy of a frame, whose type keeps that what the frame is now is
//! what so many steps of its code make of the frame as it was lent, and `run_local` makes steps of
//! it. What is said of the frame of the words holds of a frame of any method (`law`). Nothing here
//! waits, only making a `Lent` takes memory, and no instruction is searched for.
#![tactic(auto)]

mod frame;
pub mod law;
pub mod lent;
pub mod run;
pub mod step;

pub use lent::{Lent, LentFrame, run_local};
pub use run::Ran;
pub use step::{Place, Stepped, step_at};

#[cfg(test)]
mod tests;
