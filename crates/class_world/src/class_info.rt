//! The classes of a world.

ghost use Rattle.std.specs.Prelude.{◌≡◌, map, IfOk};
ghost use Rattle.class_world.specs.Parts.{source_of, parts_of};

use jv_types::{BootClass, ClassNo, List, Loaded, NoMemory, Text};
use std::alloc::Global;

/// A class of a world. Its supertypes are numbers.
#[derive(Debug, Drop)]
pub struct ClassInfo {
    pub name: Text,
    /// Only `java/lang/Object` has none.
    pub superclass: Option<ClassNo>,
    pub interfaces: List<ClassNo>,
    pub origin: Origin,
}

/// Where a class comes from.
#[derive(Debug, Drop)]
pub enum Origin {
    /// Every program finds it there.
    Boot(BootClass),
    /// It is of the program, and this is how it was read.
    Program(Loaded),
}

/// A field, by the number of its class and its index among the class's fields.
#[derive(Clone, Copy, Debug, PartialEq, Eq)]
pub struct FieldPlace {
    pub class: ClassNo,
    pub index: u32,
}

impl Origin {
    /// An equal origin, unless there is no memory for it.
    fn copy(&self, alloc: Global) -> Result<Origin, NoMemory>
        ensures { IfOk result (λ copy. source_of copy ≡ source_of self.now) }
    {
        match self {
            Origin::Boot(class) => Ok(Origin::Boot(class.copy(alloc)?)),
            Origin::Program(loaded) => Ok(Origin::Program(loaded.copy(alloc)?)),
        }
    }
}

impl ClassInfo {
    /// An equal class, unless there is no memory for it.
    fn copy(&self, alloc: Global) -> Result<ClassInfo, NoMemory>
        ensures { IfOk result (λ copy. parts_of copy ≡ parts_of self.now) }
    {
        Ok(ClassInfo {
            name: self.name.copy(alloc)?,
            superclass: self.superclass,
            interfaces: self.interfaces.copy(alloc)?,
            origin: self.origin.copy(alloc)?,
        })
    }
}

/// Equal classes, unless there is no memory for them.
pub fn copy_classes(alloc: Global, classes: &[ClassInfo]) -> Result<List<ClassInfo>, NoMemory>
    ensures { IfOk result (λ copies. map parts_of copies.items ≡ map parts_of classes.now) }
{
    let mut copies = List::new(alloc);
    for class in classes {
        copies.push(class.copy(alloc)?)?;
    }
    Ok(copies)
}
