//! A linked world with the tables of its classes, asked by name.

ghost use Rattle.std.specs.Prelude.{◌<◌, IfOk, IsSome, length};
ghost use Rattle.class_world.specs.World.{method_at};
ghost use Rattle.class_versions.specs.Slots.{method_of};

use class_versions::Versions;
use class_world::{FieldPlace, World};
use jv_types::{ClassNo, List, MethodNo};
use linked_samples::{SampleError, class_named, linked_world, method_named};
use std::alloc::Global;
use std::marker::Model;

/// The class, the name and the descriptor of a member.
#[derive(Clone, Copy, Debug)]
pub struct Named(pub &'static str, pub &'static str, pub &'static str);

/// A linked world with the tables of its classes.
#[derive(Drop)]
pub struct Opened {
    world: World,
    versions: Versions,
}

impl Model for Opened {
    ghost use Rattle.machine_cases.specs.Opened.{IsOpened, OpenedWorld};

    ghost Value = { OpenedWorld };

    ghost view = { λ it. record { world = it.world; tables = it.versions } };

    ghost invariant = { λ it. IsOpened it.world it.versions };
}

impl Opened {
    /// The world of the program that the text of a manifest says, as the program starts.
    pub fn open(alloc: Global, manifest: &[u8]) -> Result<Opened, SampleError> {
        let world = linked_world(alloc, manifest)?;
        let versions = Versions::open(alloc, &world, 0)?;
        Ok(Opened { world, versions })
    }

    /// The class of a name.
    pub fn class(&self, alloc: Global, name: &str) -> Result<ClassNo, SampleError>
        ensures { IfOk result (λ class. class.0 < length self.now.world.classes) }
    {
        class_named(alloc, &self.world, name)
    }

    /// The method that a class has with a name and a descriptor.
    pub fn method(&self, alloc: Global, named: Named) -> Result<MethodNo, SampleError>
        ensures { IfOk result (λ method. IsSome (method_at self.now.world method)) }
    {
        method_named(alloc, &self.world, named.0, named.1, named.2)
    }

    /// The fields of the objects of a class, in the order of its layout.
    pub fn layout(&self, alloc: Global, class: &str) -> Result<&List<FieldPlace>, SampleError> {
        let class = class_named(alloc, &self.world, class)?;
        Ok(self.versions.layout(class))
    }

    /// The slot of a method.
    pub fn slot(&self, alloc: Global, named: Named) -> Result<u32, SampleError>
        ensures { IfOk result (λ slot. IsSome (method_of self.now.tables.slots slot)) }
    {
        let method = self.method(alloc, named)?;
        Ok(self.versions.slot(method))
    }

    /// The method that a call of a method's name and descriptor selects on an object of a class.
    pub fn selected(
        &self,
        alloc: Global,
        class: &str,
        called: Named,
    ) -> Result<Option<MethodNo>, SampleError> {
        let class = class_named(alloc, &self.world, class)?;
        let slot = self.slot(alloc, called)?;
        Ok(self.versions.select(class, slot))
    }
}
