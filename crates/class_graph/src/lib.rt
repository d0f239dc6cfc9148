//! Walks through graphs over numbers: from a node upwards through all that it leads to.
//!
//! It stands on `jv_types` and on `indexmap`. The contract above it is that of `preorder`: the
//! nodes that a node reaches, each once, in the order in which an unfolding of the graph lists
//! them. It isn't recursive, and looks at each edge once. `each_once` lists numbers, each where it
//! first stands.
#![tactic(auto)]

mod walk;

pub use walk::{each_once, preorder};

#[cfg(test)]
mod tests;
