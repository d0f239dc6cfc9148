//! A field (JVMS 4.5) or a method (JVMS 4.6).

ghost use Rattle.jv_model.specs.ClassData.{Member as ModelMember};
ghost use Rattle.jv_model.specs.ClassBytes.{member_bytes};
ghost use Rattle.jv_model.specs.ClassLimits.{member_limit};
ghost use Rattle.jv_types.specs.ClassData.{member_of};

use crate::attribute::write_attributes;
use crate::error::WriteClassError;
use crate::output::Output;
use crate::table::Item;
use jv_types::Member;

impl Item for Member {
    ghost Meaning = { ModelMember };

    ghost meaning = { member_of };

    ghost spelling = { member_bytes };

    ghost limit = { member_limit };

    fn write(&self, out: &mut Output) -> Result<(), WriteClassError> {
        out.u2(self.flags)?;
        out.u2(self.name)?;
        out.u2(self.descriptor)?;
        write_attributes(out, &self.attributes)
    }
}
