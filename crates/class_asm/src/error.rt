//! Why a text isn't assembled.

ghost use Rattle.std.specs.Prelude.{◌≡◌};
ghost use Rattle.class_asm.specs.declared.error.AsmError.TheVariants as errors;

use asm_parts::first_fault::LineFault;
use jv_types::NoMemory;

/// Why a text isn't assembled.
#[derive(Clone, Copy, Debug)]
pub enum AsmError {
    /// The first of its faults: 22 of the refusals.
    Line(LineFault),
    /// There was no memory for the class. It says nothing about the text.
    NoMemory,
}

impl From<LineFault> for AsmError {
    ghost from_gives = { λ fault error. error ≡ errors.Line fault };

    fn from(fault: LineFault) -> AsmError {
        AsmError::Line(fault)
    }
}

impl From<NoMemory> for AsmError {
    ghost from_gives = { λ _ error. error ≡ errors.NoMemory };

    fn from(_error: NoMemory) -> AsmError {
        AsmError::NoMemory
    }
}
