//! Reading a class file and writing it again, and writing class data and reading them again.
//!
//! It stands on `class_reader` and `class_writer`. The contract above it is that each undoes the
//! other: what is written of what was read is the same bytes, and what is read of what was written
//! of a class file's data is the same data.
#![tactic(auto)]

mod error;
mod round_trip;

pub use error::RoundTripError;
pub use round_trip::{read_again, written_again};

#[cfg(test)]
mod tests;
