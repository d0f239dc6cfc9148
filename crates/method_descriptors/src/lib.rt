//! What the descriptor of a method (JVMS 4.3.3) says of its parameters.
//!
//! It stands on `code_model`, whose definitions say what a descriptor spells, and on `jv_types` for
//! lists. The contract above it is that of `parameter_kinds`, what each parameter is, and of
//! `parameter_words`, how many words they take, both where the descriptor is well formed. Only want
//! of memory may come instead.
#![tactic(auto)]

mod descriptor;

pub use descriptor::{ParameterKind, parameter_kinds, parameter_words};
