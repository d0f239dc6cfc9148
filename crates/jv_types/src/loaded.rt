//! A class with the code of its methods.

ghost use Rattle.std.specs.Prelude.{◌≡◌, IfOk};
ghost use Rattle.jv_types.specs.Loaded.{loaded_of};

use crate::class_data::ClassData;
use crate::code::CodeBody;
use crate::duplicate::{Duplicate, copy_list};
use crate::list::List;
use crate::memory::NoMemory;
use std::alloc::Global;

/// A class that was read: its data, and the code of each of its methods, in their order.
#[derive(Debug, Drop)]
pub struct Loaded {
    pub file: ClassData,
    /// A method that is native or abstract has none.
    pub codes: List<Option<CodeBody>>,
    /// The number of its first code among those of a whole program.
    pub base: u32,
}

impl Duplicate for Option<CodeBody> {
    ghost use Rattle.std.specs.Prelude.{ℕ, Option};
    ghost use Rattle.jv_model.specs.Code.{Body};
    ghost use Rattle.jv_types.specs.Loaded.{code_of};

    ghost Meaning = { Option (Body ℕ) };

    ghost meaning = { code_of };

    fn copy(&self, alloc: Global) -> Result<Option<CodeBody>, NoMemory> {
        match self {
            Some(body) => Ok(Some(body.copy(alloc)?)),
            None => Ok(None),
        }
    }
}

impl Loaded {
    /// An equal class, unless there is no memory for it.
    pub fn copy(&self, alloc: Global) -> Result<Loaded, NoMemory>
        ensures loaded { IfOk result (λ copy. loaded_of copy ≡ loaded_of self.now) }
        ensures base { IfOk result (λ copy. copy.base ≡ self.now.base) }
    {
        Ok(Loaded {
            file: self.file.copy(alloc)?,
            codes: copy_list(alloc, &self.codes)?,
            base: self.base,
        })
    }
}
