//! The plain heap: a row for each object, and the words of all of them one after another.
//!
//! It stands on `heap_face` for what a heap is, on `run_laws` for reach order as a loop finds it, and
//! on `machine_model` and `jv_types`. The contract above it is that `RowHeap` is an `ObjectHeap`. It
//! takes all memory where it is opened. A collection first finds what is reached, in order
//! (`search`), then copies it to a second table (`copying`), and forwards the roots. Its time is
//! linear in the words of the reached objects and the number of all objects, and nothing is
//! recursive on the depth of the graph. Beside the trait's calls a caller can ask what their
//! conditions want to know: whether an address is live, how many words lie there, the next serial,
//! and whether a collection can follow everything.
#![tactic(auto)]

mod checks;
mod copying;
mod fill;
mod heap;
mod rows;
mod search;

pub use heap::RowHeap;

#[cfg(test)]
mod tests;
