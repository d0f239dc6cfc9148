//! An attribute (JVMS 4.7).

ghost use Rattle.std.specs.Prelude.{length};
ghost use Rattle.jv_model.specs.ClassData.{Attr as ModelAttr};
ghost use Rattle.jv_model.specs.ClassBytes.{table, attribute_bytes};
ghost use Rattle.jv_model.specs.ClassLimits.{over};
ghost use Rattle.jv_model.specs.Refusal.{attribute_list};
ghost use Rattle.jv_types.specs.ClassData.{attr_of, attrs_of};
ghost use Rattle.class_writer.specs.Written.{Appends, unlimited};

use crate::error::WriteClassError;
use crate::output::Output;
use crate::table::{Item, write_table};
use jv_types::{Attr, List, What};

impl Item for Attr {
    ghost Meaning = { ModelAttr };

    ghost meaning = { attr_of };

    ghost spelling = { attribute_bytes };

    // The length of its contents has four bytes, and no `List` is too long for that.
    ghost limit = { unlimited };

    fn write(&self, out: &mut Output) -> Result<(), WriteClassError> {
        out.u2(self.name)?;
        out.u4(self.bytes.len())?;
        out.run(self.bytes.as_slice())?;
        Ok(())
    }
}

/// Writes the attributes of a class, a field or a method.
pub fn write_attributes(out: &mut Output, attributes: &List<Attr>) -> Result<(), WriteClassError>
    ensures { Appends result out.old out.new (table attribute_bytes (attrs_of attributes.now.items))
        (over attribute_list (length (attrs_of attributes.now.items))) }
{
    write_table(out, What::Attributes, attributes)
}
