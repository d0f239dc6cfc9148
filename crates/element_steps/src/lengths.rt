//! arraylength (JVMS 6.5).

ghost use Rattle.std.specs.Prelude.{◌≡◌, ◌<◌, ◌^◌};
ghost use Rattle.jv_model.specs.Instruction.{arraylength};
ghost use Rattle.machine_parts.specs.Parts.{machine_of};
ghost use Rattle.machine_parts.specs.Steps.{IsAt, CanStep};
ghost use Rattle.machine_throws.specs.Outcomes.{ComesTo};

use crate::element::element_count;
use frame_operands::{one_on_top, replace_one};
use heap_face::{Addr, ObjectHeap};
use jv_types::{Pc, ThreadNo, ValueKind};
use jv_values::Value;
use machine_parts::Parts;
use machine_throws::{Outcome, Throwable};

/// Makes the step of a thread that is at arraylength: how many elements an array has takes its place.
/// The heap has less than 2^31 words, so that this is an int.
pub fn array_length<H: ObjectHeap>(parts: &mut Parts<H>, t: ThreadNo, next: Pc) -> Outcome
    requires at { IsAt (machine_of H.heap parts.old) t.0 next.0 arraylength }
    requires step { CanStep (machine_of H.heap parts.old) t.0 }
    requires small { (H.heap parts.old.heap).half < 2 ^ 31 }
    ensures made { ComesTo t.0 (machine_of H.heap parts.old) (machine_of H.heap parts.new) result }
    ensures rest { machine_of H.heap parts.new ≡ record (machine_of H.heap parts.old) {
      stacks = parts.new.stacks;
    } }
{
    match one_on_top(&parts.stacks, t, ValueKind::Reference) {
        Value::Ref(address) => {
            let count = element_count(&parts.heap, Addr(address as u32));
            replace_one(&mut parts.stacks, t, Value::Int(count as i32), next);
            Outcome::Made
        }
        _ => Outcome::Throws(Throwable::NullPointer),
    }
}
