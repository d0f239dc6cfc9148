//! getfield and putfield (JVMS 6.5).

ghost use Rattle.std.specs.Prelude.{◌≡◌, Some, slice_get};
ghost use Rattle.jv_model.specs.Instruction.{getfield, putfield};
ghost use Rattle.world_model.specs.World.{Field};
ghost use Rattle.world_model.specs.LookUp.{Found};
ghost use Rattle.jv_types.specs.declared.number.MethodNo.{MethodNo as Number};
ghost use Rattle.class_versions.specs.Versions.{AreVersions};
ghost use Rattle.look_up_cache.specs.Kept.{IsTrueOf, with_kept};
ghost use Rattle.look_up_cache.specs.Targets.{a_field, target_at};
ghost use Rattle.look_up_cache.specs.Words.{word_of};
ghost use Rattle.look_up_cache.specs.declared.slot.Slot.TheVariants.{Field as AtPlace};
ghost use Rattle.machine_parts.specs.Parts.{machine_of};
ghost use Rattle.machine_parts.specs.Steps.{CanStep, Makes};
ghost use Rattle.field_steps.specs.Fields.{IsAtField, IsLookedUp, LeadsToPlace, method_in};
ghost use Rattle.field_steps.specs.Receivers.{FindsNull};
ghost use Rattle.field_steps.specs.declared.objects.FieldStep.TheVariants.{Made, Null};

use crate::threads::{go_on, newest_method, object_below, words_on_top};
use class_versions::Versions;
use class_world::World;
use heap_face::ObjectHeap;
use jv_types::{MethodNo, Pc, Steps, ThreadNo};
use look_up_cache::{Cache, Slot};
use machine_parts::Parts;
use object_fields::{read_field, write_field};
use std::sync::ledger::Ledger;

/// What a step over a field of an object comes to.
#[derive(Clone, Copy, Debug, PartialEq, Eq)]
pub enum FieldStep {
    /// It's made.
    Made,
    /// The reference to the object is null. Nothing is changed, and nothing looked up: the step is
    /// to throw a NullPointerException.
    Null,
}

/// The place, among the fields of an object, of the field to which an entry of the pool of a
/// method's class leads.
fn object_place<L: Ledger>(
    caches: &mut Cache,
    world: &World,
    versions: &Versions,
    method: MethodNo,
    index: u16,
    steps: &mut Steps<L>,
) -> u32
    requires versions { AreVersions world.now versions.now }
    requires truth { IsTrueOf world.now versions.now.slots versions.now.literals.texts caches.old }
    requires there { LeadsToPlace world.now method.class index }
    ensures found { (found : Found Field)
        → target_at world.now method.class index ≡ Some (a_field found)
        → word_of world.now found ≡ Some result }
    ensures truth { IsTrueOf world.now versions.now.slots versions.now.literals.texts caches.new }
    ensures kept { caches.new ≡ with_kept method.class index (AtPlace result) caches.old }
    ensures looked_up { IsLookedUp world.now method.class index caches.old caches.new
        steps.old steps.new }
{
    match caches.resolve(world, versions, method, index, steps) {
        Slot::Field(place) => place,
        _ => unreachable!(),
    }
}

/// Makes the step of a thread that is at getfield with an index: it pops a reference to an object,
/// and pushes the value of the field of that object to which the index leads.
pub fn get_field<H: ObjectHeap, L: Ledger>(
    parts: &mut Parts<H>,
    t: ThreadNo,
    index: u16,
    next: Pc,
    steps: &mut Steps<L>,
) -> FieldStep
    requires at { IsAtField (machine_of H.heap parts.old) t.0 next.0 index (getfield index) }
    requires step { CanStep (machine_of H.heap parts.old) t.0 }
    ensures made { result ≡ Made
        → Makes t.0 (machine_of H.heap parts.old) (machine_of H.heap parts.new) }
    ensures null { result ≡ Null → FindsNull t.0 (machine_of H.heap parts.old) }
    ensures stays { result ≡ Null
        → (machine_of H.heap parts.new ≡ machine_of H.heap parts.old) × (steps.new ≡ steps.old) }
    ensures rest { machine_of H.heap parts.new ≡ record (machine_of H.heap parts.old) {
      stacks = parts.new.stacks;
      caches = parts.new.caches;
    } }
    ensures looked_up { (method : Number) → result ≡ Made
        → method_in (slice_get parts.old.stacks.threads t.0) ≡ Some method
        → IsLookedUp parts.old.world method.class index parts.old.caches parts.new.caches
        steps.old steps.new }
{
    let Some(object) = object_below(&parts.stacks, t, 0) else {
        return FieldStep::Null;
    };
    let method = newest_method(&parts.stacks, t);
    let place = object_place(
        &mut parts.caches,
        &parts.world,
        &parts.versions,
        method,
        index,
        steps,
    );
    let value = read_field(&parts.heap, parts.versions.layouts(), object, place);
    parts.stacks.pop_value(t);
    parts.stacks.push_value(t, value);
    go_on(&mut parts.stacks, t, next);
    FieldStep::Made
}

/// Makes the step of a thread that is at putfield with an index: it pops a value and below it a
/// reference to an object, and puts the value into the field of that object to which the index leads.
pub fn put_field<H: ObjectHeap, L: Ledger>(
    parts: &mut Parts<H>,
    t: ThreadNo,
    index: u16,
    next: Pc,
    steps: &mut Steps<L>,
) -> FieldStep
    requires at { IsAtField (machine_of H.heap parts.old) t.0 next.0 index (putfield index) }
    requires step { CanStep (machine_of H.heap parts.old) t.0 }
    ensures made { result ≡ Made
        → Makes t.0 (machine_of H.heap parts.old) (machine_of H.heap parts.new) }
    ensures null { result ≡ Null → FindsNull t.0 (machine_of H.heap parts.old) }
    ensures stays { result ≡ Null
        → (machine_of H.heap parts.new ≡ machine_of H.heap parts.old) × (steps.new ≡ steps.old) }
    ensures rest { machine_of H.heap parts.new ≡ record (machine_of H.heap parts.old) {
      stacks = parts.new.stacks;
      caches = parts.new.caches;
      heap = record (H.heap parts.old.heap) { objects = (H.heap parts.new.heap).objects };
    } }
    ensures looked_up { (method : Number) → result ≡ Made
        → method_in (slice_get parts.old.stacks.threads t.0) ≡ Some method
        → IsLookedUp parts.old.world method.class index parts.old.caches parts.new.caches
        steps.old steps.new }
{
    let above = words_on_top(&parts.stacks, t);
    let Some(object) = object_below(&parts.stacks, t, above) else {
        return FieldStep::Null;
    };
    let method = newest_method(&parts.stacks, t);
    let place = object_place(
        &mut parts.caches,
        &parts.world,
        &parts.versions,
        method,
        index,
        steps,
    );
    let value = parts.stacks.pop_value(t);
    parts.stacks.pop_value(t);
    write_field(
        &mut parts.heap,
        parts.versions.layouts(),
        object,
        place,
        value,
    );
    go_on(&mut parts.stacks, t, next);
    FieldStep::Made
}
