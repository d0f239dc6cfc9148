//! Laws of reach, of the definitions alone: whatever code it runs, a step reaches only what was in
//! reach before and the one object that it makes, and nothing that was out of reach comes back.
//! They need no typing: an instruction gets references from its frame, from objects in reach, from
//! static fields and literals, or from the object that it makes.
//!
//! Each law is the contract of a function that does nothing, and `specs/Laws` says it. The lemmas
//! behind them: `proofs/Holding` for values that name no other objects, `Changes` for changes of a
//! state, `Roots` for what that says of reach, `Going` for the words of deeds, `Locals`,
//! `Families` and `Calls` for instructions, `Steps` for steps, `Listed` for reach order.
#![tactic(auto)]

mod reaching;

pub use reaching::{
    conforming_lists, deed_reaches, journal_reaches, nothing_comes_back, run_reaches, step_reaches,
    typed_reaches,
};
