//! Looking at operands.

ghost use Rattle.std.specs.Prelude.{◌≡◌, ◌<◌, Some, length, slice_get};
ghost use Rattle.jv_types.specs.Instruction.{value_kind_of};
ghost use Rattle.frame_stacks.specs.Threads.{IsOf};
ghost use Rattle.frame_operands.specs.Operands.{HasOne, HasTwo, HasThree, operands_in_newest};

use frame_stacks::Stacks;
use jv_types::{ThreadNo, ValueKind};
use jv_values::Value;
use jv_values::operands::take;

/// The words of the operands of the newest frame of a thread, from the bottom up.
fn newest_operands(stacks: &Stacks, t: ThreadNo) -> &[Value]
    requires { IsOf stacks.now t.0 (λ thread. 0 < length thread.frames) }
    ensures { operands_in_newest (slice_get stacks.now.threads t.0) ≡ Some result.now }
{
    stacks.frame(t, stacks.depth(t) - 1).stack
}

/// The value of that kind on top of the operands of a thread.
pub fn one_on_top(stacks: &Stacks, t: ThreadNo, kind: ValueKind) -> Value
    requires { HasOne stacks.now t.0 (value_kind_of kind) }
    ensures { (has : HasOne stacks.now t.0 (value_kind_of kind)) → result ≡ has.value }
{
    let words = newest_operands(stacks, t);
    take(kind, words, words.len()).value
}

/// The values of these kinds on top of the operands of a thread, the lower one first.
pub fn two_on_top(
    stacks: &Stacks,
    t: ThreadNo,
    lower: ValueKind,
    upper: ValueKind,
) -> (Value, Value)
    requires { HasTwo stacks.now t.0 (value_kind_of lower) (value_kind_of upper) }
    ensures first { (has : HasTwo stacks.now t.0 (value_kind_of lower) (value_kind_of upper))
        → result.0 ≡ has.first }
    ensures second { (has : HasTwo stacks.now t.0 (value_kind_of lower) (value_kind_of upper))
        → result.1 ≡ has.second }
{
    let words = newest_operands(stacks, t);
    let second = take(upper, words, words.len());
    let first = take(lower, words, second.depth);
    (first.value, second.value)
}

/// The values of these kinds on top of the operands of a thread, the lowest one first.
pub fn three_on_top(
    stacks: &Stacks,
    t: ThreadNo,
    lower: ValueKind,
    middle: ValueKind,
    upper: ValueKind,
) -> (Value, Value, Value)
    requires { HasThree stacks.now t.0 (value_kind_of lower) (value_kind_of middle)
        (value_kind_of upper) }
    ensures first { (has : HasThree stacks.now t.0 (value_kind_of lower) (value_kind_of middle)
        (value_kind_of upper)) → result.0 ≡ has.first }
    ensures second { (has : HasThree stacks.now t.0 (value_kind_of lower) (value_kind_of middle)
        (value_kind_of upper)) → result.1 ≡ has.second }
    ensures third { (has : HasThree stacks.now t.0 (value_kind_of lower) (value_kind_of middle)
        (value_kind_of upper)) → result.2 ≡ has.third }
{
    let words = newest_operands(stacks, t);
    let third = take(upper, words, words.len());
    let second = take(middle, words, third.depth);
    let first = take(lower, words, second.depth);
    (first.value, second.value, third.value)
}
