//! What stands for what an entry of a constant pool leads to.

ghost use Rattle.std.specs.Prelude.{◌≡◌, ◌+◌, ◌≤◌, ℕ, IsSome, Some, bytes_eq, is_some, option_map, position, true};
ghost use Rattle.jv_model.specs.ConstantPool.{const_at};
ghost use Rattle.jv_types.specs.ClassData.{pool_of};
ghost use Rattle.world_literals.specs.Literals.{have, pool_strings, string_in};
ghost use Rattle.class_versions.specs.Versions.{AreVersions};
ghost use Rattle.look_up_cache.specs.Found.{slot_in};
ghost use Rattle.look_up_cache.specs.Slots.{IsSlotOf};
ghost use Rattle.look_up_cache.specs.Targets.{Target, most_steps, named_target, target_of};
ghost use Rattle.look_up_cache.specs.Words.{AreWords};
ghost use Rattle.look_up_cache.specs.declared.slot.Slot.{Slot as Standing};
ghost use Rattle.look_up_cache.specs.declared.slot.Slot.TheVariants as standing;

use crate::by_name::{Resolved, look_up};
use crate::slot::Slot;
use crate::words::FieldWords;
use class_versions::Versions;
use class_world::World;
use jv_types::{Const, Steps, text_at};
use std::sync::ledger::Ledger;

/// What stands for a class, a field or a method.
fn slot_of(resolved: Resolved, versions: &Versions, words: &FieldWords) -> Slot
    requires { IsSome (slot_in versions.now.slots words.now resolved) }
    ensures { slot_in versions.now.slots words.now resolved ≡ Some result }
{
    match resolved {
        Resolved::Class(class) => Slot::Class(class),
        Resolved::Field(place) => words.slot(place),
        Resolved::Method(method) => Slot::Method(versions.slot(method)),
    }
}

/// What stands for the literal of these units.
fn literal(versions: &Versions, units: &[u16]) -> Slot
    requires { IsSome (position (bytes_eq units.now) versions.now.literals.texts) }
    ensures { (number : ℕ) × (position (bytes_eq units.now) versions.now.literals.texts ≡ Some number)
        × (result ≡ standing.Literal number) }
{
    let Some(number) = versions.literal_of(units) else {
        unreachable!();
    };
    Slot::Literal(number)
}

/// The units of the String at an index, or none where another entry is there.
fn string_at(pool: &[Const], index: u16) -> Option<&[u16]>
    ensures { option_map (λ units. units.now) result
        ≡ string_in (pool_of pool.now) (const_at (pool_of pool.now) index) }
{
    match pool.get(usize::from(index)) {
        Some(Const::String(text)) => Some(text_at(pool, *text)),
        _ => None,
    }
}

/// What stands for what the name at an index of a pool leads to, by look-up.
fn named_slot<L: Ledger>(
    world: &World,
    versions: &Versions,
    words: &FieldWords,
    pool: &[Const],
    index: u16,
    steps: &mut Steps<L>,
) -> Slot
    requires versions { AreVersions world.now versions.now }
    requires words { AreWords world.now words.now }
    requires there { IsSome (named_target world.now (pool_of pool.now) index) }
    ensures found { (target : Target)
        → named_target world.now (pool_of pool.now) index ≡ Some target
        → IsSlotOf world.now versions.now.slots versions.now.literals.texts target result }
    ensures steps { steps.new ≤ steps.old + most_steps world.now (pool_of pool.now) index }
{
    let Some(resolved) = look_up(world, pool, index, steps) else {
        unreachable!();
    };
    slot_of(resolved, versions, words)
}

/// What stands for what the entry at an index of a pool leads to, by look-up.
pub fn look_up_slot<L: Ledger>(
    world: &World,
    versions: &Versions,
    words: &FieldWords,
    pool: &[Const],
    index: u16,
    steps: &mut Steps<L>,
) -> Slot
    requires versions { AreVersions world.now versions.now }
    requires words { AreWords world.now words.now }
    requires literals { have versions.now.literals.texts (pool_strings (pool_of pool.now)) ≡ true }
    requires there { IsSome (target_of world.now (pool_of pool.now) index) }
    ensures found { (target : Target)
        → target_of world.now (pool_of pool.now) index ≡ Some target
        → IsSlotOf world.now versions.now.slots versions.now.literals.texts target result }
    ensures steps { steps.new ≤ steps.old + most_steps world.now (pool_of pool.now) index }
{
    match string_at(pool, index) {
        Some(units) => literal(versions, units),
        None => named_slot(world, versions, words, pool, index, steps),
    }
}

/// Whether the name at an index of a pool leads anywhere.
fn is_named<L: Ledger>(world: &World, pool: &[Const], index: u16, steps: &mut Steps<L>) -> bool
    ensures named { result ≡ is_some (named_target world.now (pool_of pool.now) index) }
    ensures steps { steps.new ≤ steps.old + most_steps world.now (pool_of pool.now) index }
{
    look_up(world, pool, index, steps).is_some()
}

/// Whether the entry at an index of a pool leads anywhere.
pub fn is_target<L: Ledger>(world: &World, pool: &[Const], index: u16, steps: &mut Steps<L>) -> bool
    ensures target { result ≡ is_some (target_of world.now (pool_of pool.now) index) }
    ensures steps { steps.new ≤ steps.old + most_steps world.now (pool_of pool.now) index }
{
    match string_at(pool, index) {
        Some(_) => true,
        None => is_named(world, pool, index, steps),
    }
}
