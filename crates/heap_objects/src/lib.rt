//! Which objects of the definitions the objects of a heap are.
//!
//! It stands on `heap_face` for heaps, on `jv_values` for values and on `vm_monitors` for lock words.
//! The contract above it is that of `word_of` and `value_in`, by which values lie in the words of
//! objects, and `specs/Objects.antt`, which says of which objects a heap is: references are addresses
//! in a heap and ids in the definitions (`specs/Ids.antt`), classes are numbers and have names there.
#![tactic(auto)]

mod words;

pub use words::{value_in, word_of};
