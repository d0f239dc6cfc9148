//! Why there is no sample.

use class_loader::Stop;
use jv_types::{Cause, NoMemory};

/// Why there is no world, or nothing of a name in it.
#[derive(Debug, Drop)]
pub enum SampleError {
    /// The program is refused at this item of its manifest, or as a whole at item 0.
    Refused { item: u32, cause: Cause },
    /// A file could not be read.
    ReadFault,
    /// The world has no class or method of the name.
    Missing,
    NoMemory,
}

impl From<Stop> for SampleError {
    fn from(stop: Stop) -> SampleError {
        match stop {
            Stop::Refused { item, cause, .. } => SampleError::Refused { item, cause },
            Stop::ReadFault => SampleError::ReadFault,
            Stop::NoMemory => SampleError::NoMemory,
        }
    }
}

impl From<NoMemory> for SampleError {
    fn from(_error: NoMemory) -> SampleError {
        SampleError::NoMemory
    }
}
