//! iastore, lastore, castore and sastore (JVMS 6.5).

ghost use Rattle.std.specs.Prelude.{◌≡◌, true};
ghost use Rattle.jv_model.specs.Instruction.{of_int, of_reference, array_store};
ghost use Rattle.jv_types.specs.Instruction.{element_kind_of, value_kind_of};
ghost use Rattle.jv_values.specs.declared.value.Value.TheVariants.{Int};
ghost use Rattle.frame_operands.specs.Operands.{HasThree};
ghost use Rattle.machine_parts.specs.Parts.{machine_of};
ghost use Rattle.machine_parts.specs.Steps.{IsAt, CanStep};
ghost use Rattle.machine_throws.specs.Outcomes.{ComesTo};
ghost use Rattle.element_steps.specs.Arrays.{is_whole, narrowed_to};

use crate::element::{cell, find_element, value_kind};
use arithmetic::{to_char, to_short};
use frame_operands::{as_int, take_three, three_on_top};
use frame_stacks::Stacks;
use heap_face::ObjectHeap;
use heap_objects::word_of;
use jv_types::{ElementKind, Pc, ThreadNo, ValueKind};
use jv_values::Value;
use machine_parts::Parts;
use machine_throws::Outcome;

/// What a store leaves of an operand: the low 16 bits of a char or a short.
fn narrowed(kind: ElementKind, value: Value) -> Value
    ensures { narrowed_to (element_kind_of kind) value ≡ result }
{
    match (kind, value) {
        (ElementKind::Char, Value::Int(n)) => Value::Int(to_char(n)),
        (ElementKind::Short, Value::Int(n)) => Value::Int(to_short(n)),
        _ => value,
    }
}

/// The operands of an array store: what names the array, the index, and a value of that kind.
fn array_index_and_value(stacks: &Stacks, t: ThreadNo, kind: ValueKind) -> (Value, i32, Value)
    requires { HasThree stacks.now t.0 of_reference of_int (value_kind_of kind) }
    ensures array { (has : HasThree stacks.now t.0 of_reference of_int (value_kind_of kind))
        → has.first ≡ result.0 }
    ensures index { (has : HasThree stacks.now t.0 of_reference of_int (value_kind_of kind))
        → has.second ≡ Int result.1 }
    ensures value { (has : HasThree stacks.now t.0 of_reference of_int (value_kind_of kind))
        → has.third ≡ result.2 }
{
    let (array, index, value) = three_on_top(stacks, t, ValueKind::Reference, ValueKind::Int, kind);
    (array, as_int(index), value)
}

/// Makes the step of a thread that is at an array store of ints, longs, chars or shorts: it takes a
/// value, which becomes the element at an index of an array.
pub fn store_element<H: ObjectHeap>(
    parts: &mut Parts<H>,
    t: ThreadNo,
    kind: ElementKind,
    next: Pc,
) -> Outcome
    requires at { IsAt (machine_of H.heap parts.old) t.0 next.0
        (array_store (element_kind_of kind)) }
    requires whole { is_whole (element_kind_of kind) ≡ true }
    requires step { CanStep (machine_of H.heap parts.old) t.0 }
    ensures made { ComesTo t.0 (machine_of H.heap parts.old) (machine_of H.heap parts.new) result }
    ensures rest { machine_of H.heap parts.new ≡ record (machine_of H.heap parts.old) {
      heap = H.heap parts.new.heap;
      stacks = parts.new.stacks;
    } }
{
    let (array, index, value) = array_index_and_value(&parts.stacks, t, value_kind(kind));
    match find_element(&parts.heap, array, index) {
        Ok(element) => {
            let word = word_of(cell(kind), narrowed(kind, value));
            parts.heap.put(element.array, element.index, word);
            take_three(&mut parts.stacks, t, next);
            Outcome::Made
        }
        Err(thrown) => Outcome::Throws(thrown),
    }
}
