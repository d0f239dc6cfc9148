//! Why there was no round trip.

ghost use Rattle.std.specs.Prelude.{◌≡◌};
ghost use Rattle.class_round_trip.specs.declared.error.RoundTripError.TheVariants as errors;

use class_reader::ClassError;
use class_writer::WriteClassError;
use thiserror::Error;

/// Why a class file wasn't read and written, or written and read.
#[derive(Clone, Copy, Debug, PartialEq, Eq, Error)]
pub enum RoundTripError {
    /// The bytes weren't read.
    #[error("not read: {0}")]
    Read(ClassError),
    /// The data weren't written.
    #[error("not written: {0}")]
    Write(WriteClassError),
}

impl From<ClassError> for RoundTripError {
    ghost from_gives = { λ reading error. error ≡ errors.Read reading };

    fn from(error: ClassError) -> RoundTripError {
        RoundTripError::Read(error)
    }
}

impl From<WriteClassError> for RoundTripError {
    ghost from_gives = { λ writing error. error ≡ errors.Write writing };

    fn from(error: WriteClassError) -> RoundTripError {
        RoundTripError::Write(error)
    }
}
