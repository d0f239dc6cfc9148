//! Why a program isn't linked.

ghost use Rattle.std.specs.Prelude.{◌≡◌};
ghost use Rattle.class_linker.specs.declared.error.LinkError.TheVariants as errors;

use jv_types::{Cause, NoMemory};
use thiserror::Error;

/// Why classes make no world.
#[derive(Debug, Drop, Error)]
pub enum LinkError {
    /// The first thing that is wrong with them.
    #[error("the program is refused ({0:?})")]
    Refused(Cause),
    /// There was no memory for the world. It says nothing about the classes.
    #[error("out of memory")]
    NoMemory,
}

impl From<Cause> for LinkError {
    ghost from_gives = { λ cause error. error ≡ errors.Refused cause };

    fn from(cause: Cause) -> LinkError {
        LinkError::Refused(cause)
    }
}

impl From<NoMemory> for LinkError {
    ghost from_gives = { λ _ error. error ≡ errors.NoMemory };

    fn from(_error: NoMemory) -> LinkError {
        LinkError::NoMemory
    }
}
