//! What the typing of a method's instructions looks at, and how it fails.

ghost use Rattle.std.specs.Prelude.{◌≡◌};
ghost use Rattle.instruction_types.specs.declared.environment.TypingError.TheVariants as errors;

use jv_types::{ClassNo, NoMemory};
use thiserror::Error;
use type_rules::VerificationType;

/// What the typing of a method's instructions looks at beside its world and its code (JVMS
/// 4.10.1.1).
#[derive(Clone, Copy, Debug)]
pub struct Environment {
    /// The words of an operand stack, a Long counted as two.
    pub max_stack: u16,
    /// The class of the method.
    pub class: ClassNo,
    /// Its superclass, where it has one.
    pub superclass: Option<ClassNo>,
    /// Whether the method is an `<init>`.
    pub is_constructor: bool,
    /// What the method returns is to the verifier, where it returns something.
    pub result: Option<VerificationType>,
    /// `java/lang/Object`.
    pub object: ClassNo,
    /// `java/lang/String`.
    pub string: ClassNo,
    /// `java/lang/Throwable`.
    pub throwable: ClassNo,
}

/// Why there is no frame after an instruction.
#[derive(Clone, Copy, Debug, PartialEq, Eq, Error)]
pub enum TypingError {
    #[error("the instruction can't be applied to its frame")]
    Misfit,
    #[error("out of memory")]
    NoMemory,
}

impl From<NoMemory> for TypingError {
    ghost from_gives = { λ _ error. error ≡ errors.NoMemory };

    fn from(_error: NoMemory) -> TypingError {
        TypingError::NoMemory
    }
}
