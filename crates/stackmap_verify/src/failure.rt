//! What stops the pass over the code of a method.

ghost use Rattle.std.specs.Prelude.{◌≡◌};
ghost use Rattle.stackmap_verify.specs.declared.failure.Failure.TheVariants as failures;
ghost use Rattle.stackmap_verify.specs.Visits.{failure_of};

use instruction_types::TypingError;
use jv_types::{NoMemory, Rule};

/// Why the pass goes no further than an instruction.
#[derive(Clone, Copy, Debug)]
pub enum Failure {
    /// It breaks this rule first.
    Breaks(Rule),
    NoMemory,
}

/// Where a method breaks a rule first.
#[derive(Clone, Copy, Debug)]
pub struct Place {
    pub pc: u32,
    pub rule: Rule,
}

impl From<NoMemory> for Failure {
    ghost from_gives = { λ _ failure. failure ≡ failures.NoMemory };

    fn from(_error: NoMemory) -> Failure {
        Failure::NoMemory
    }
}

impl From<TypingError> for Failure {
    ghost from_gives = { λ error failure. failure ≡ failure_of error };

    fn from(error: TypingError) -> Failure {
        match error {
            TypingError::Misfit => Failure::Breaks(Rule::Operand),
            TypingError::NoMemory => Failure::NoMemory,
        }
    }
}
