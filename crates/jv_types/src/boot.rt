//! The classes that every program finds there, as they are before they are linked (JVMS 5.3.1).

ghost use Rattle.std.specs.Prelude.{◌≡◌, IfOk};

use crate::duplicate::{Duplicate, copy_list};
use crate::list::List;
use crate::memory::NoMemory;
use crate::number::ClassNo;
use crate::text::Text;
use std::alloc::Global;

/// A field of a boot class.
#[derive(Debug, Drop)]
pub struct BootField {
    pub name: Text,
    pub descriptor: Text,
    pub is_static: bool,
}

/// A method of a boot class.
#[derive(Debug, Drop)]
pub struct BootMethod {
    pub name: Text,
    pub descriptor: Text,
    pub is_static: bool,
    /// Whether it is a method of this machine's own; any other is abstract.
    pub is_native: bool,
}

/// A boot class. Classes are named by their numbers in the list that it stands in.
#[derive(Debug, Drop)]
pub struct BootClass {
    pub name: Text,
    /// Only `java/lang/Object` has none.
    pub superclass: Option<ClassNo>,
    pub interfaces: List<ClassNo>,
    pub is_interface: bool,
    pub is_final: bool,
    pub fields: List<BootField>,
    pub methods: List<BootMethod>,
}

impl Duplicate for BootField {
    ghost use Rattle.world_model.specs.World.{Field};
    ghost use Rattle.jv_types.specs.Boot.{boot_field_of};

    ghost Meaning = { Field };

    ghost meaning = { boot_field_of };

    fn copy(&self, alloc: Global) -> Result<BootField, NoMemory> {
        Ok(BootField {
            name: self.name.copy(alloc)?,
            descriptor: self.descriptor.copy(alloc)?,
            is_static: self.is_static,
        })
    }
}

impl Duplicate for BootMethod {
    ghost use Rattle.world_model.specs.World.{Method};
    ghost use Rattle.jv_types.specs.Boot.{boot_method_of};

    ghost Meaning = { Method };

    ghost meaning = { boot_method_of };

    fn copy(&self, alloc: Global) -> Result<BootMethod, NoMemory> {
        Ok(BootMethod {
            name: self.name.copy(alloc)?,
            descriptor: self.descriptor.copy(alloc)?,
            is_static: self.is_static,
            is_native: self.is_native,
        })
    }
}

impl BootClass {
    ghost use Rattle.jv_types.specs.Boot.{numbered_class_of};

    /// An equal class, unless there is no memory for it.
    pub fn copy(&self, alloc: Global) -> Result<BootClass, NoMemory>
        ensures { IfOk result (λ copy. numbered_class_of copy ≡ numbered_class_of self.now) }
    {
        Ok(BootClass {
            name: self.name.copy(alloc)?,
            superclass: self.superclass,
            interfaces: self.interfaces.copy(alloc)?,
            is_interface: self.is_interface,
            is_final: self.is_final,
            fields: copy_list(alloc, &self.fields)?,
            methods: copy_list(alloc, &self.methods)?,
        })
    }
}
