//! getstatic and putstatic (JVMS 6.5).

ghost use Rattle.std.specs.Prelude.{◌≡◌, Some, slice_get};
ghost use Rattle.jv_model.specs.Instruction.{getstatic, putstatic};
ghost use Rattle.world_model.specs.World.{Field};
ghost use Rattle.world_model.specs.LookUp.{Found};
ghost use Rattle.jv_types.specs.declared.number.MethodNo.{MethodNo as Number};
ghost use Rattle.class_world.specs.World.{field_at};
ghost use Rattle.class_versions.specs.Versions.{AreVersions};
ghost use Rattle.look_up_cache.specs.Kept.{IsTrueOf, with_kept};
ghost use Rattle.look_up_cache.specs.Targets.{a_field, target_at};
ghost use Rattle.look_up_cache.specs.declared.slot.Slot.TheVariants.{Static};
ghost use Rattle.machine_parts.specs.Parts.{machine_of};
ghost use Rattle.machine_parts.specs.Steps.{CanStep, Makes};
ghost use Rattle.field_steps.specs.Fields.{IsAtField, IsLookedUp, LeadsToStatic, method_in};

use crate::threads::{go_on, newest_method};
use class_versions::Versions;
use class_world::{FieldPlace, World};
use heap_face::ObjectHeap;
use jv_types::{MethodNo, Pc, Steps, ThreadNo};
use look_up_cache::{Cache, Slot};
use machine_parts::Parts;
use std::sync::ledger::Ledger;

/// The place of the static field to which an entry of the pool of a method's class leads.
fn static_place<L: Ledger>(
    caches: &mut Cache,
    world: &World,
    versions: &Versions,
    method: MethodNo,
    index: u16,
    steps: &mut Steps<L>,
) -> FieldPlace
    requires versions { AreVersions world.now versions.now }
    requires truth { IsTrueOf world.now versions.now.slots versions.now.literals.texts caches.old }
    requires there { LeadsToStatic world.now method.class index }
    ensures found { (found : Found Field)
        → target_at world.now method.class index ≡ Some (a_field found)
        → field_at world.now result ≡ Some found }
    ensures truth { IsTrueOf world.now versions.now.slots versions.now.literals.texts caches.new }
    ensures kept { caches.new ≡ with_kept method.class index (Static result) caches.old }
    ensures looked_up { IsLookedUp world.now method.class index caches.old caches.new
        steps.old steps.new }
{
    match caches.resolve(world, versions, method, index, steps) {
        Slot::Static(place) => place,
        _ => unreachable!(),
    }
}

/// Makes the step of a thread that is at getstatic with an index: it pushes the value of the static
/// field to which the index leads.
pub fn get_static<H: ObjectHeap, L: Ledger>(
    parts: &mut Parts<H>,
    t: ThreadNo,
    index: u16,
    next: Pc,
    steps: &mut Steps<L>,
)
    requires at { IsAtField (machine_of H.heap parts.old) t.0 next.0 index (getstatic index) }
    requires step { CanStep (machine_of H.heap parts.old) t.0 }
    ensures made { Makes t.0 (machine_of H.heap parts.old) (machine_of H.heap parts.new) }
    ensures rest { machine_of H.heap parts.new ≡ record (machine_of H.heap parts.old) {
      stacks = parts.new.stacks;
      caches = parts.new.caches;
    } }
    ensures looked_up { (method : Number)
        → method_in (slice_get parts.old.stacks.threads t.0) ≡ Some method
        → IsLookedUp parts.old.world method.class index parts.old.caches parts.new.caches
        steps.old steps.new }
{
    let method = newest_method(&parts.stacks, t);
    let place = static_place(
        &mut parts.caches,
        &parts.world,
        &parts.versions,
        method,
        index,
        steps,
    );
    let value = parts.versions.get_static(place);
    parts.stacks.push_value(t, value);
    go_on(&mut parts.stacks, t, next);
}

/// Makes the step of a thread that is at putstatic with an index: it pops a value and puts it into
/// the static field to which the index leads.
pub fn put_static<H: ObjectHeap, L: Ledger>(
    parts: &mut Parts<H>,
    t: ThreadNo,
    index: u16,
    next: Pc,
    steps: &mut Steps<L>,
)
    requires at { IsAtField (machine_of H.heap parts.old) t.0 next.0 index (putstatic index) }
    requires step { CanStep (machine_of H.heap parts.old) t.0 }
    ensures made { Makes t.0 (machine_of H.heap parts.old) (machine_of H.heap parts.new) }
    ensures rest { machine_of H.heap parts.new ≡ record (machine_of H.heap parts.old) {
      stacks = parts.new.stacks;
      caches = parts.new.caches;
      versions = record parts.old.versions { statics = parts.new.versions.statics };
    } }
    ensures looked_up { (method : Number)
        → method_in (slice_get parts.old.stacks.threads t.0) ≡ Some method
        → IsLookedUp parts.old.world method.class index parts.old.caches parts.new.caches
        steps.old steps.new }
{
    let method = newest_method(&parts.stacks, t);
    let place = static_place(
        &mut parts.caches,
        &parts.world,
        &parts.versions,
        method,
        index,
        steps,
    );
    let value = parts.stacks.pop_value(t);
    parts.versions.put_static(place, value);
    go_on(&mut parts.stacks, t, next);
}
