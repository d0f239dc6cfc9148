//! Operations on longs.

ghost use Rattle.std.specs.Prelude.{◌≡◌, ◌≢◌, pos, true};
ghost use Rattle.std.specs.Int.{w64};
ghost use Rattle.jv_types.specs.Instruction.{arithmetic_of, shift_of};
ghost use Rattle.machine_model.specs.Arithmetic.{is_division, arithmetic_result, negated, shift_result};

use jv_types::{Arithmetic, Shift};

#[tactic(auto, using(std::proofs::lemmas::Int::wraps))]
/// The result of `ladd` to `lrem`, `land`, `lor` or `lxor` for value1 `a` and value2 `b`. The
/// quotient of the least long and -1 is the least long, and a remainder has the sign of `a`.
pub fn long_op(operation: Arithmetic, a: i64, b: i64) -> i64
    requires { is_division (arithmetic_of operation) ≡ true → b ≢ pos 0 }
    ensures { result ≡ arithmetic_result w64 (arithmetic_of operation) a b }
{
    match operation {
        Arithmetic::Add => a.wrapping_add(b),
        Arithmetic::Subtract => a.wrapping_sub(b),
        Arithmetic::Multiply => a.wrapping_mul(b),
        Arithmetic::Divide => a.wrapping_div(b),
        Arithmetic::Remainder => a.wrapping_rem(b),
        Arithmetic::And => a & b,
        Arithmetic::Or => a | b,
        Arithmetic::Xor => a ^ b,
    }
}

/// The result of `lshl`, `lshr` or `lushr` for value1 `a`. The distance is an int, of which the low
/// six bits count.
pub fn long_shift(shift: Shift, a: i64, distance: i32) -> i64
    ensures { result ≡ shift_result w64 (shift_of shift) a distance }
{
    let distance = distance.cast_unsigned();
    match shift {
        Shift::Left => a.wrapping_shl(distance),
        Shift::Right => a.wrapping_shr(distance),
        Shift::RightUnsigned => a.cast_unsigned().wrapping_shr(distance).cast_signed(),
    }
}

#[tactic(auto, using(std::proofs::lemmas::Int::wraps))]
/// The result of `lneg`. The negation of the least long is the least long.
pub fn long_negate(a: i64) -> i64
    ensures { result ≡ negated w64 a }
{
    a.wrapping_neg()
}
