//! Why loading stops.

ghost use Rattle.std.specs.Prelude.{◌≡◌};
ghost use Rattle.class_loader.specs.declared.stop.Stop.TheVariants as stops;
ghost use Rattle.class_loader.specs.Stops.{read_stop, manifest_stop, stop_status, stop_at};

use jv_outer::ReadError;
use jv_types::{Cause, NoMemory, Status};
use manifest_reader::ManifestError;

/// Why nothing was loaded.
#[derive(Drop)]
pub enum Stop {
    /// The input is refused: the number of the manifest's item or 0, that of a class within the
    /// item or 0, and why.
    Refused { item: u32, sub: u32, cause: Cause },
    /// A file could not be read.
    ReadFault,
    /// Memory ran out.
    NoMemory,
}

impl From<ReadError> for Stop {
    ghost from_gives = { λ error stop. stop ≡ read_stop error };

    fn from(error: ReadError) -> Stop {
        match error {
            ReadError::Failed => Stop::ReadFault,
            ReadError::NoMemory => Stop::NoMemory,
        }
    }
}

impl From<ManifestError> for Stop {
    ghost from_gives = { λ error stop. stop ≡ manifest_stop error };

    fn from(error: ManifestError) -> Stop {
        match error {
            ManifestError::Line(fault) => Stop::Refused {
                item: 0,
                sub: 0,
                cause: Cause::ManifestLine {
                    line: fault.line,
                    kind: fault.kind,
                },
            },
            ManifestError::NoMemory => Stop::NoMemory,
        }
    }
}

impl From<NoMemory> for Stop {
    ghost from_gives = { λ _ stop. stop ≡ stops.NoMemory };

    fn from(_error: NoMemory) -> Stop {
        Stop::NoMemory
    }
}

impl From<Stop> for Status {
    ghost from_gives = { λ stop status. status ≡ stop_status stop };

    fn from(stop: Stop) -> Status {
        match stop {
            Stop::Refused { item, sub, cause } => Status::BadInput { item, sub, cause },
            Stop::ReadFault => Status::ReadFault,
            Stop::NoMemory => Status::NoMemory,
        }
    }
}

/// The stop at an item, for a cause, or where there was no memory, for none.
pub(crate) fn stop_at(item: u32, cause: Option<Cause>) -> Stop
    ensures { result ≡ stop_at item cause }
{
    match cause {
        Some(cause) => Stop::Refused {
            item,
            sub: 0,
            cause,
        },
        None => Stop::NoMemory,
    }
}
