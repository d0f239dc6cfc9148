//! The parts of the tables of a world.

ghost use Rattle.std.specs.Prelude.{◌≡◌, ◌<◌, ◌≤◌, [], IfOk, IsSome, None, bytes_eq, length, option_map, replicate, true};
ghost use Rattle.std.specs.List.{IsDistinct};
ghost use Rattle.jv_values.specs.Values.{value_of};
ghost use Rattle.class_world.specs.World.{HaveMembersOnce, names_of};
ghost use Rattle.class_layouts.specs.Layouts.{AreLayouts};
ghost use Rattle.static_fields.specs.Statics.{Place, first_at, value_at};
ghost use Rattle.world_literals.specs.Literals.{have, literals_of, named_literals};
ghost use Rattle.class_versions.specs.Slots.{method_of};
ghost use Rattle.class_versions.specs.Versions.{AreCalls, selected_for};

use crate::slots::SlotTable;
use class_dispatch::ClassDispatch;
use class_layouts::ClassLayouts;
use class_methods::MethodSignatures;
use class_world::World;
use jv_types::{ClassNo, List, MethodNo, NoMemory};
use literal_table::LiteralTable;
use static_fields::StaticFields;
use std::alloc::Global;
use world_literals::open_literals;

/// The slots of methods, and which method a call selects.
#[derive(Drop)]
pub struct Calls {
    pub slots: SlotTable,
    pub dispatch: ClassDispatch,
}

impl Calls {
    /// Those of a world.
    pub fn open(alloc: Global, world: &World) -> Result<Calls, NoMemory>
        requires apart { IsDistinct bytes_eq (names_of world.now) }
        requires once { HaveMembersOnce world.now }
        ensures { IfOk result (λ calls. AreCalls world.now calls.slots calls.dispatch) }
    {
        let signatures = MethodSignatures::open(alloc, world)?;
        let slots = SlotTable::open(alloc, &signatures)?;
        let dispatch = ClassDispatch::open(alloc, world, &signatures)?;
        Ok(Calls { slots, dispatch })
    }

    /// The method that a call of the name and descriptor of a slot's method selects on an object of
    /// a class.
    pub fn select(&self, class: ClassNo, slot: u32) -> Option<MethodNo>
        requires class { class.0 < length self.now.dispatch }
        requires slot { IsSome (method_of self.now.slots slot) }
        ensures { result ≡ selected_for self.now.slots self.now.dispatch class slot }
    {
        self.dispatch.select(class, self.slots.signature(slot))
    }
}

/// The fields of classes: where those of objects stand, and the values of static ones.
#[derive(Drop)]
pub struct Fields {
    pub layouts: ClassLayouts,
    pub statics: StaticFields,
}

impl Fields {
    /// Those of a world, static ones with their first values.
    pub fn open(alloc: Global, world: &World) -> Result<Fields, NoMemory>
        requires { IsDistinct bytes_eq (names_of world.now) }
        ensures layouts { IfOk result (λ fields. AreLayouts world.now fields.layouts) }
        ensures values { IfOk result (λ fields. (place : Place)
            → option_map value_of (value_at fields.statics place) ≡ first_at world.now place) }
    {
        let layouts = ClassLayouts::open(alloc, world)?;
        let statics = StaticFields::open(alloc, world)?;
        Ok(Fields { layouts, statics })
    }
}

/// The lock words of classes, and the literals with the strings that stand for them.
#[derive(Drop)]
pub struct Strings {
    pub locks: List<u64>,
    pub literals: LiteralTable,
}

/// So many words of locks that no thread has.
fn free_locks(alloc: Global, count: u32) -> Result<List<u64>, NoMemory>
    ensures { IfOk result (λ locks. locks.items ≡ replicate count 0) }
{
    List::from_vec(vec![in alloc; 0; count as usize]?)
}

impl Strings {
    /// Those of a world, with places for so many strings and for one of each literal.
    pub fn open(alloc: Global, world: &World, room: u32) -> Result<Strings, NoMemory>
        ensures locks { IfOk result (λ strings.
            strings.locks.items ≡ replicate (length world.now.classes) 0) }
        ensures texts { IfOk result (λ strings.
            strings.literals.texts ≡ literals_of world.now) }
        ensures named { IfOk result (λ strings.
            have strings.literals.texts (named_literals world.now) ≡ true) }
        ensures addresses { IfOk result (λ strings. strings.literals.addresses
            ≡ replicate (length strings.literals.texts) None) }
        ensures order { IfOk result (λ strings. strings.literals.order ≡ []) }
        ensures room { IfOk result (λ strings. room ≤ strings.literals.left) }
        ensures each { IfOk result (λ strings.
            length strings.literals.texts ≤ strings.literals.left) }
    {
        let locks = free_locks(alloc, world.classes())?;
        let literals = open_literals(alloc, world, room)?;
        Ok(Strings { locks, literals })
    }
}
