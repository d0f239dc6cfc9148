//! Operations on ints.

ghost use Rattle.std.specs.Prelude.{◌≡◌, ◌≢◌, pos, true};
ghost use Rattle.std.specs.Int.{w32};
ghost use Rattle.jv_types.specs.Instruction.{arithmetic_of, shift_of};
ghost use Rattle.machine_model.specs.Arithmetic.{is_division, arithmetic_result, negated, shift_result};

use jv_types::{Arithmetic, Shift};

#[tactic(auto, using(std::proofs::lemmas::Int::wraps))]
/// The result of `iadd` to `irem`, `iand`, `ior` or `ixor` for value1 `a` and value2 `b`. The
/// quotient of the least int and -1 is the least int, and a remainder has the sign of `a`.
pub fn int_op(operation: Arithmetic, a: i32, b: i32) -> i32
    requires { is_division (arithmetic_of operation) ≡ true → b ≢ pos 0 }
    ensures { result ≡ arithmetic_result w32 (arithmetic_of operation) a b }
{
    match operation {
        Arithmetic::Add => a.wrapping_add(b),
        Arithmetic::Subtract => a.wrapping_sub(b),
        Arithmetic::Multiply => a.wrapping_mul(b),
        Arithmetic::Divide => a.wrapping_div(b),
        Arithmetic::Remainder => a.wrapping_rem(b),
        Arithmetic::And => a & b,
        Arithmetic::Or => a | b,
        Arithmetic::Xor => a ^ b,
    }
}

/// The result of `ishl`, `ishr` or `iushr` for value1 `a`. Of the distance its low five bits count.
pub fn int_shift(shift: Shift, a: i32, distance: i32) -> i32
    ensures { result ≡ shift_result w32 (shift_of shift) a distance }
{
    let distance = distance.cast_unsigned();
    match shift {
        Shift::Left => a.wrapping_shl(distance),
        Shift::Right => a.wrapping_shr(distance),
        Shift::RightUnsigned => a.cast_unsigned().wrapping_shr(distance).cast_signed(),
    }
}

#[tactic(auto, using(std::proofs::lemmas::Int::wraps))]
/// The result of `ineg`. The negation of the least int is the least int.
pub fn int_negate(a: i32) -> i32
    ensures { result ≡ negated w32 a }
{
    a.wrapping_neg()
}
