//! What was looked up.

ghost use Rattle.std.specs.Prelude.{◌≡◌, ◌+◌, ◌<◌, ◌≤◌, [], ℕ, Some, None, IfOk, IsSome, bytes_eq, is_some, length, map, option_and_then, replicate};
ghost use Rattle.std.specs.List.{IsDistinct};
ghost use Rattle.jv_types.specs.ClassData.{pool_of};
ghost use Rattle.jv_types.specs.declared.number.ClassNo.{ClassNo as Number};
ghost use Rattle.class_world.specs.World.{HaveMembersOnce, class_of_origin, names_of};
ghost use Rattle.class_versions.specs.Versions.{AreVersions};
ghost use Rattle.look_up_cache.specs.Kept.{IsTrueOf, StaysKept, kept_at, place_at, places_in, with_kept};
ghost use Rattle.look_up_cache.specs.Slots.{IsSlotAt};
ghost use Rattle.look_up_cache.specs.Targets.{most_steps, pool_at, pool_in, target_at};
ghost use Rattle.look_up_cache.specs.declared.slot.Slot.{Slot as Standing};

use crate::slot::Slot;
use crate::slots::{is_target, look_up_slot};
use crate::words::FieldWords;
use class_versions::Versions;
use class_world::{Origin, World};
use jv_types::{ClassNo, Const, List, MethodNo, NoMemory, Steps};
use std::alloc::Global;
use std::marker::Model;
use std::sync::ledger::Ledger;

/// A place for each entry of the constant pool of each class, which all code of the class shares.
/// Contracts see what is kept at each, and the places of fields in objects.
#[derive(Drop)]
pub struct Cache {
    places: Vec<List<Option<Slot>>>,
    words: FieldWords,
}

impl Model for Cache {
    ghost use Rattle.std.specs.Prelude.{map, Option};
    ghost use Rattle.jv_types.specs.Sequence.{Sequence};
    ghost use Rattle.look_up_cache.specs.declared.slot.Slot.{Slot as Standing};
    ghost use Rattle.look_up_cache.specs.Kept.{Kept};

    ghost Value = { Kept };

    ghost view = { λ it. record {
      places = map (λ (row : Sequence (Option Standing)). row.items) it.places.items;
      words = it.words;
    } };
}

/// The constant pool of a class; a boot class has none.
fn pool_in(origin: &Origin) -> &[Const]
    ensures { pool_of result.now ≡ pool_in (class_of_origin [] origin.now).loaded }
{
    match origin {
        Origin::Boot(_) => &[],
        Origin::Program(loaded) => loaded.file.pool.as_slice(),
    }
}

/// An empty place for each entry of a pool.
fn empty_places(alloc: Global, pool: &[Const]) -> Result<List<Option<Slot>>, NoMemory>
    ensures { IfOk result (λ places. places.items ≡ replicate (length pool.now) None) }
{
    List::from_vec(vec![in alloc; None; pool.len()]?)
}

/// An empty place for each entry of the pool of each class.
fn all_places(alloc: Global, world: &World) -> Result<Vec<List<Option<Slot>>>, NoMemory>
    ensures { IfOk result (λ rows. map (λ row. row.items) rows.items ≡ places_in world.now) }
{
    let mut rows = Vec::new(alloc);
    for class in 0..world.classes() {
        let pool = pool_in(&world.class(ClassNo(class)).origin);
        rows.push(empty_places(alloc, pool)?)?;
    }
    Ok(rows)
}

/// Whether the entry at an index of the pool of a class leads anywhere, as `Cache::resolve` asks.
pub fn leads<L: Ledger>(world: &World, class: ClassNo, index: u16, steps: &mut Steps<L>) -> bool
    requires { class.0 < length world.now.classes }
    ensures leads { result ≡ is_some (target_at world.now class index) }
    ensures steps { steps.new
        ≤ steps.old + most_steps world.now (pool_at world.now class) index }
{
    let pool = pool_in(&world.class(class).origin);
    is_target(world, pool, index, steps)
}

impl Cache {
    /// A cache of a world in which nothing was looked up. All memory is taken now. In a linked world
    /// no name and no member stands twice.
    pub fn open(alloc: Global, world: &World, versions: &Versions) -> Result<Cache, NoMemory>
        requires apart { IsDistinct bytes_eq (names_of world.now) }
        requires once { HaveMembersOnce world.now }
        requires versions { AreVersions world.now versions.now }
        ensures truth { IfOk result (λ cache.
            IsTrueOf world.now versions.now.slots versions.now.literals.texts cache) }
        ensures empty { IfOk result (λ cache.
            (class : Number) (index : ℕ) → kept_at cache class index ≡ None) }
    {
        let places = all_places(alloc, world)?;
        let words = FieldWords::open(alloc, world, versions)?;
        Ok(Cache { places, words })
    }

    /// What is kept at a place.
    fn kept(&self, class: ClassNo, index: u16) -> Option<Slot>
        requires { IsSome (place_at self.now.places class index) }
        ensures { place_at self.now.places class index ≡ Some result }
    {
        *self.places[class.0 as usize].get(u32::from(index))
    }

    /// Keeps something there.
    fn keep(&mut self, class: ClassNo, index: u16, slot: Slot)
        requires { IsSome (place_at self.old.places class index) }
        ensures { self.new ≡ with_kept class index slot self.old }
    {
        self.places[class.0 as usize].set(u32::from(index), Some(slot));
    }

    /// What stands for what the entry at an index of a class's pool leads to. It's looked up, and then
    /// it's kept.
    fn fill<L: Ledger>(
        &mut self,
        world: &World,
        versions: &Versions,
        class: ClassNo,
        index: u16,
        steps: &mut Steps<L>,
    ) -> Slot
        requires versions { AreVersions world.now versions.now }
        requires truth { IsTrueOf world.now versions.now.slots versions.now.literals.texts self.old }
        requires there { IsSome (target_at world.now class index) }
        requires empty { place_at self.old.places class index ≡ Some None }
        ensures found { IsSlotAt world.now versions.now.slots versions.now.literals.texts
            class index result }
        ensures truth { IsTrueOf world.now versions.now.slots versions.now.literals.texts self.new }
        ensures keeps { self.new ≡ with_kept class index result self.old }
        ensures stays { StaysKept self.old self.new }
        ensures steps { steps.new
            ≤ steps.old + most_steps world.now (pool_at world.now class) index }
    {
        let pool = pool_in(&world.class(class).origin);
        let slot = look_up_slot(world, versions, &self.words, pool, index, steps);
        self.keep(class, index, slot);
        slot
    }

    /// What stands for what the entry at an index of the pool of a method's class leads to. It's
    /// looked up unless it's kept, and then it's kept.
    pub fn resolve<L: Ledger>(
        &mut self,
        world: &World,
        versions: &Versions,
        method: MethodNo,
        index: u16,
        steps: &mut Steps<L>,
    ) -> Slot
        requires versions { AreVersions world.now versions.now }
        requires truth { IsTrueOf world.now versions.now.slots versions.now.literals.texts self.old }
        requires there { IsSome (target_at world.now method.class index) }
        ensures found { IsSlotAt world.now versions.now.slots versions.now.literals.texts
            method.class index result }
        ensures truth { IsTrueOf world.now versions.now.slots versions.now.literals.texts self.new }
        ensures keeps { self.new ≡ with_kept method.class index result self.old }
        ensures stays { StaysKept self.old self.new }

        // What is kept is given at once.
        ensures once { (slot : Standing) → kept_at self.old method.class index ≡ Some slot
            → (result ≡ slot) × (steps.new ≡ steps.old) }
        ensures steps { steps.new
            ≤ steps.old + most_steps world.now (pool_at world.now method.class) index }
    {
        match self.kept(method.class, index) {
            Some(slot) => slot,
            None => self.fill(world, versions, method.class, index, steps),
        }
    }
}
