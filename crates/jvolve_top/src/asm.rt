//! The class file of an assembler text.

ghost use Rattle.run_model.specs.LoadWork.{class_file_of, written};
ghost use Rattle.jv_types.specs.ClassData.{class_data_of};
ghost use Rattle.class_loader.specs.Placed.{IsPlaced};

use class_loader::{Stop, read_lines};
use class_writer::{WriteClassError, write_class};
use jv_types::{Bytes, Cause, ClassData};
use std::alloc::Global;

/// The bytes of class data whose lists aren't too long for their counts.
fn write(alloc: Global, class: &ClassData) -> Result<Bytes, Stop>
    ensures { IsPlaced (λ bytes. bytes.items) result (written (class_data_of class.now)) }
{
    match write_class(alloc, class) {
        Ok(bytes) => Ok(bytes),
        Err(WriteClassError::Limit { what, n }) => Err(Stop::Refused {
            item: 0,
            sub: 0,
            cause: Cause::CountLimit { what, n },
        }),
        Err(WriteClassError::NoMemory) => Err(Stop::NoMemory),
    }
}

/// The bytes of the class file of an assembler text, or its first fault, or the first list that is
/// too long for its count.
pub(crate) fn class_file_of(alloc: Global, text: &[u8]) -> Result<Bytes, Stop>
    ensures { IsPlaced (λ bytes. bytes.items) result (class_file_of text.now) }
{
    let class = read_lines(alloc, 0, text)?;
    write(alloc, &class)
}
