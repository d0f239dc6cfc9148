//! Why a manifest isn't read.

ghost use Rattle.std.specs.Prelude.{◌≡◌};
ghost use Rattle.manifest_reader.specs.declared.error.ManifestError.TheVariants as errors;

use asm_parts::first_fault::LineFault;
use jv_types::NoMemory;

/// Why a manifest isn't read.
#[derive(Clone, Copy, Debug)]
pub enum ManifestError {
    /// The first of its faults: 71 of the refusals.
    Line(LineFault),
    /// There was no memory for what it says.
    NoMemory,
}

impl From<LineFault> for ManifestError {
    ghost from_gives = { λ fault error. error ≡ errors.Line fault };

    fn from(fault: LineFault) -> ManifestError {
        ManifestError::Line(fault)
    }
}

impl From<NoMemory> for ManifestError {
    ghost from_gives = { λ _ error. error ≡ errors.NoMemory };

    fn from(_error: NoMemory) -> ManifestError {
        ManifestError::NoMemory
    }
}
