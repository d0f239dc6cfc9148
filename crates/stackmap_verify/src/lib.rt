//! The verifier by type checking (JVMS 4.10.1): from a linked world to a verified one, or to the
//! first rule that a method of it breaks.
//!
//! It stands on `instruction_step`, which types an instruction, on `map_frames` for the frames that
//! a method begins with and that its stack map has, on `type_rules` for which frames go where, and
//! on `typing_model`, whose rules say what fails. The contract above it is that of `verify_world`:
//! it gives the world exactly where no method fails, and else exactly the first failure. Of one
//! method `verify_method` says the same, and gives the frames of its instructions. Only want of
//! memory may come instead. Each instruction is visited once.
//!
//! ```text
//! match verify_world(alloc, world) {
//!     Ok(verified) => run(verified),
//!     Err((_, VerifyError::NotVerified { pc, rule, .. })) => refuse(pc, rule),
//!     Err((world, VerifyError::NoMemory)) => later(world),
//! }
//! ```
#![tactic(auto)]

mod code;
mod cover;
mod environment;
mod error;
mod failure;
mod flow;
mod frame_numbers;
mod handlers;
mod kept;
mod maps;
mod method;
mod methods;
mod pass;
mod typing;
mod verified;
mod visit;
mod world;

pub use error::VerifyError;
pub use typing::{Typed, verify_method};
pub use verified::Verified;
pub use world::verify_world;

#[cfg(test)]
mod tests;
