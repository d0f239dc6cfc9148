//! idiv, irem, ldiv and lrem (JVMS 6.5).

ghost use Rattle.std.specs.Prelude.{◌≡◌, true};
ghost use Rattle.jv_model.specs.Instruction.{of_int, of_long, int_arithmetic, long_arithmetic};
ghost use Rattle.jv_types.specs.Instruction.{arithmetic_of};
ghost use Rattle.machine_model.specs.Arithmetic.{is_division};
ghost use Rattle.jv_values.specs.declared.value.Value.TheVariants.{Int, Long};
ghost use Rattle.frame_operands.specs.Operands.{HasTwo};
ghost use Rattle.machine_parts.specs.Parts.{machine_of};
ghost use Rattle.machine_parts.specs.Steps.{IsAt, CanStep};
ghost use Rattle.machine_throws.specs.Outcomes.{ComesTo};

use arithmetic::{int_op, long_op};
use frame_operands::{as_int, as_long, replace_two, two_on_top};
use frame_stacks::Stacks;
use heap_face::ObjectHeap;
use jv_types::{Arithmetic, Pc, ThreadNo, ValueKind};
use jv_values::Value;
use machine_parts::Parts;
use machine_throws::{Outcome, Throwable};

/// The ints on top of the operands of a thread: value1, which lies deeper, and value2.
fn two_ints(stacks: &Stacks, t: ThreadNo) -> (i32, i32)
    requires { HasTwo stacks.now t.0 of_int of_int }
    ensures first { (has : HasTwo stacks.now t.0 of_int of_int) → has.first ≡ Int result.0 }
    ensures second { (has : HasTwo stacks.now t.0 of_int of_int) → has.second ≡ Int result.1 }
{
    let (a, b) = two_on_top(stacks, t, ValueKind::Int, ValueKind::Int);
    (as_int(a), as_int(b))
}

/// The longs on top of the operands of a thread: value1, which lies deeper, and value2.
fn two_longs(stacks: &Stacks, t: ThreadNo) -> (i64, i64)
    requires { HasTwo stacks.now t.0 of_long of_long }
    ensures first { (has : HasTwo stacks.now t.0 of_long of_long) → has.first ≡ Long result.0 }
    ensures second { (has : HasTwo stacks.now t.0 of_long of_long) → has.second ≡ Long result.1 }
{
    let (a, b) = two_on_top(stacks, t, ValueKind::Long, ValueKind::Long);
    (as_long(a), as_long(b))
}

/// Makes the step of a thread that is at idiv or irem: the quotient or the remainder of two ints
/// takes their place, where the divisor isn't 0.
pub fn divide_ints<H: ObjectHeap>(
    parts: &mut Parts<H>,
    t: ThreadNo,
    operation: Arithmetic,
    next: Pc,
) -> Outcome
    requires at { IsAt (machine_of H.heap parts.old) t.0 next.0
        (int_arithmetic (arithmetic_of operation)) }
    requires division { is_division (arithmetic_of operation) ≡ true }
    requires step { CanStep (machine_of H.heap parts.old) t.0 }
    ensures made { ComesTo t.0 (machine_of H.heap parts.old) (machine_of H.heap parts.new) result }
    ensures rest { machine_of H.heap parts.new ≡ record (machine_of H.heap parts.old) {
      stacks = parts.new.stacks;
    } }
{
    let (a, b) = two_ints(&parts.stacks, t);
    if b == 0 {
        return Outcome::Throws(Throwable::Arithmetic);
    }
    let value = Value::Int(int_op(operation, a, b));
    replace_two(&mut parts.stacks, t, value, next);
    Outcome::Made
}

/// Makes the step of a thread that is at ldiv or lrem: the quotient or the remainder of two longs
/// takes their place, where the divisor isn't 0.
pub fn divide_longs<H: ObjectHeap>(
    parts: &mut Parts<H>,
    t: ThreadNo,
    operation: Arithmetic,
    next: Pc,
) -> Outcome
    requires at { IsAt (machine_of H.heap parts.old) t.0 next.0
        (long_arithmetic (arithmetic_of operation)) }
    requires division { is_division (arithmetic_of operation) ≡ true }
    requires step { CanStep (machine_of H.heap parts.old) t.0 }
    ensures made { ComesTo t.0 (machine_of H.heap parts.old) (machine_of H.heap parts.new) result }
    ensures rest { machine_of H.heap parts.new ≡ record (machine_of H.heap parts.old) {
      stacks = parts.new.stacks;
    } }
{
    let (a, b) = two_longs(&parts.stacks, t);
    if b == 0 {
        return Outcome::Throws(Throwable::Arithmetic);
    }
    let value = Value::Long(long_op(operation, a, b));
    replace_two(&mut parts.stacks, t, value, next);
    Outcome::Made
}
