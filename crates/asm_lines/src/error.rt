//! Why a line isn't read.

ghost use Rattle.std.specs.Prelude.{◌≡◌};
ghost use Rattle.asm_lines.specs.declared.error.ReadError.TheVariants as errors;

use jv_types::{LineKind, NoMemory};

/// Why a line isn't read.
#[derive(Clone, Copy, Debug)]
pub enum ReadError {
    /// It is faulty, and this is the kind of its least fault.
    Line(LineKind),
    /// There was no memory for what it says.
    NoMemory,
}

impl From<LineKind> for ReadError {
    ghost from_gives = { λ kind error. error ≡ errors.Line kind };

    fn from(kind: LineKind) -> ReadError {
        ReadError::Line(kind)
    }
}

impl From<NoMemory> for ReadError {
    ghost from_gives = { λ _ error. error ≡ errors.NoMemory };

    fn from(_error: NoMemory) -> ReadError {
        ReadError::NoMemory
    }
}
