//! The interfaces of a class (JVMS 4.1), each by its index.

ghost use Rattle.std.specs.Prelude.{ℕ, length};
ghost use Rattle.jv_model.specs.Refusal.{class_interfaces};
ghost use Rattle.jv_model.specs.ClassBytes.{u2, table};
ghost use Rattle.jv_model.specs.ClassLimits.{over};
ghost use Rattle.class_writer.specs.Written.{Appends, unlimited};

use crate::error::WriteClassError;
use crate::output::Output;
use crate::table::{Item, write_table};
use jv_types::{List, What};

impl Item for u16 {
    ghost Meaning = { ℕ };

    ghost meaning = { λ index. index };

    ghost spelling = { u2 };

    ghost limit = { unlimited };

    fn write(&self, out: &mut Output) -> Result<(), WriteClassError> {
        out.u2(*self)?;
        Ok(())
    }
}

/// Writes the interfaces of a class.
pub fn write_interfaces(out: &mut Output, interfaces: &List<u16>) -> Result<(), WriteClassError>
    ensures { Appends result out.old out.new (table u2 interfaces.now.items)
        (over class_interfaces (length interfaces.now.items)) }
{
    write_table(out, What::Interfaces, interfaces)
}
