//! Elements of arrays: which of the definitions the words of a heap are, and what writing one leaves.
//!
//! It stands on `heap_objects`, which says of which objects a heap is. The contract above it is that
//! of `elements_are_read` and `elements_are_written`: an array of the machine is the array of its
//! serial, word by word, and where a word is replaced, that element is the value of the new word, and
//! no other element and no other object changes.
#![tactic(auto)]

mod laws;

pub use laws::{elements_are_read, elements_are_written};
