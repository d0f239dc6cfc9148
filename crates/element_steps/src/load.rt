//! iaload, laload, aaload, baload, caload and saload (JVMS 6.5).

ghost use Rattle.std.specs.Prelude.{◌≡◌};
ghost use Rattle.jv_model.specs.Instruction.{of_int, of_reference, array_load};
ghost use Rattle.jv_types.specs.Instruction.{element_kind_of};
ghost use Rattle.jv_values.specs.declared.value.Value.TheVariants.{Int};
ghost use Rattle.frame_operands.specs.Operands.{HasTwo};
ghost use Rattle.machine_parts.specs.Parts.{machine_of};
ghost use Rattle.machine_parts.specs.Steps.{IsAt, CanStep};
ghost use Rattle.machine_throws.specs.Outcomes.{ComesTo};

use crate::element::{cell, find_element};
use frame_operands::{as_int, replace_two, two_on_top};
use frame_stacks::Stacks;
use heap_face::ObjectHeap;
use heap_objects::value_in;
use jv_types::{ElementKind, Pc, ThreadNo, ValueKind};
use jv_values::Value;
use machine_parts::Parts;
use machine_throws::Outcome;

/// The operands of an array load: what names the array, and the index.
fn array_and_index(stacks: &Stacks, t: ThreadNo) -> (Value, i32)
    requires { HasTwo stacks.now t.0 of_reference of_int }
    ensures array { (has : HasTwo stacks.now t.0 of_reference of_int) → has.first ≡ result.0 }
    ensures index { (has : HasTwo stacks.now t.0 of_reference of_int) → has.second ≡ Int result.1 }
{
    let (array, index) = two_on_top(stacks, t, ValueKind::Reference, ValueKind::Int);
    (array, as_int(index))
}

/// Makes the step of a thread that is at an array load: the element at an index of an array takes the
/// place of both.
pub fn load_element<H: ObjectHeap>(
    parts: &mut Parts<H>,
    t: ThreadNo,
    kind: ElementKind,
    next: Pc,
) -> Outcome
    requires at { IsAt (machine_of H.heap parts.old) t.0 next.0 (array_load (element_kind_of kind)) }
    requires step { CanStep (machine_of H.heap parts.old) t.0 }
    ensures made { ComesTo t.0 (machine_of H.heap parts.old) (machine_of H.heap parts.new) result }
    ensures rest { machine_of H.heap parts.new ≡ record (machine_of H.heap parts.old) {
      stacks = parts.new.stacks;
    } }
{
    let (array, index) = array_and_index(&parts.stacks, t);
    match find_element(&parts.heap, array, index) {
        Ok(element) => {
            let word = parts.heap.get(element.array, element.index);
            replace_two(&mut parts.stacks, t, value_in(cell(kind), word), next);
            Outcome::Made
        }
        Err(thrown) => Outcome::Throws(thrown),
    }
}
