//! Local steps on the words of a frame, in place (JVMS 6.5): instructions that touch the current frame
//! alone and never throw.
//!
//! It stands on `arithmetic` and `jv_values`, and on `machine_model`, whose definitions say what a
//! local step is. The contract above it is that of `local_step`: where the definitions' step of an
//! instruction isn't wrong, as it never is in verified code, the words, where the code goes on and
//! whether the instruction is local are exactly theirs. It asks which family an instruction is of
//! (`family`), and each family has its functions: `operate` makes operands of operands, `moves` moves
//! words and adds to a local variable, `branch` says where a branch goes, and `constant` which number
//! stands at an index of the pool. Nothing takes memory or refuses.
#![tactic(auto)]

pub mod branch;
pub mod constant;
pub mod family;
pub mod moves;
pub mod operate;
pub mod step;

pub use step::{Next, local_step};
