//! Laws of typing, of the definitions alone: the pass that finds where a method fails to be well typed
//! finds what the relation says, and a method has one typing.
//!
//! Each law is the contract of a function that does nothing, and `specs/Laws` says it. The lemmas
//! behind them are for the crates above: `proofs/Passes` for the pass, `proofs/Frames` for lists of
//! frames, `proofs/Instructions` for what a typing says of an instruction and of the next one.
#![tactic(auto)]

mod typing;

pub use typing::{
    frame_at_is_typed, no_place_is_typed, one_typing, place_is_first, typed_applies, typed_goes_on,
};
