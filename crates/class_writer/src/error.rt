//! Why class data aren't written.

ghost use Rattle.std.specs.Prelude.{◌≡◌};
ghost use Rattle.class_writer.specs.declared.error.WriteClassError.TheVariants as errors;

use jv_types::{NoMemory, What};
use thiserror::Error;

/// Why class data aren't written.
#[derive(Clone, Copy, Debug, PartialEq, Eq, Error)]
pub enum WriteClassError {
    /// A list is too long for its count, the first such one in writing order. It has `n` items, or
    /// bytes if it is a text.
    #[error("{n} are too many for a count of two bytes ({what:?})")]
    Limit { what: What, n: u64 },
    /// There was no memory for the bytes. It says nothing about the data.
    #[error("out of memory")]
    NoMemory,
}

impl From<NoMemory> for WriteClassError {
    ghost from_gives = { λ _ error. error ≡ errors.NoMemory };

    fn from(_error: NoMemory) -> WriteClassError {
        WriteClassError::NoMemory
    }
}
