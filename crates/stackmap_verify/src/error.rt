//! Why a world or a method isn't verified.

ghost use Rattle.std.specs.Prelude.{◌≡◌};
ghost use Rattle.stackmap_verify.specs.declared.error.VerifyError.TheVariants as errors;

use jv_types::{NoMemory, Rule, Text};
use thiserror::Error;

/// Why a world isn't verified.
#[derive(Debug, Drop, Error)]
pub enum VerifyError {
    /// The first method, in the order of classes and of their methods, that breaks a rule of the
    /// verifier (JVMS 4.10.1), the place of the first instruction at which it does, and the first
    /// rule that it breaks there.
    #[error("a method breaks a rule of the verifier at {pc} ({rule:?})")]
    NotVerified {
        class: Text,
        method: Text,
        descriptor: Text,
        pc: u32,
        rule: Rule,
    },
    /// There was no memory to verify the world. It says nothing about its methods.
    #[error("out of memory")]
    NoMemory,
}

impl From<NoMemory> for VerifyError {
    ghost from_gives = { λ _ error. error ≡ errors.NoMemory };

    fn from(_error: NoMemory) -> VerifyError {
        VerifyError::NoMemory
    }
}
