//! Comparisons.

ghost use Rattle.std.specs.Prelude.{◌≡◌};
ghost use Rattle.jv_types.specs.Instruction.{comparison_of};
ghost use Rattle.machine_model.specs.Arithmetic.{compares as holds, order_of};

use jv_types::Comparison;

/// Whether a comparison holds of value1 `a` and value2 `b`.
pub fn compares(comparison: Comparison, a: i32, b: i32) -> bool
    ensures { result ≡ holds (comparison_of comparison) a b }
{
    match comparison {
        Comparison::Equal => a == b,
        Comparison::NotEqual => a != b,
        Comparison::Less => a < b,
        Comparison::GreaterOrEqual => a >= b,
        Comparison::Greater => a > b,
        Comparison::LessOrEqual => a <= b,
    }
}

/// The result of `lcmp` for value1 `a` and value2 `b`: 1, 0 or -1, as `a` is greater, equal or less.
pub fn order(a: i64, b: i64) -> i32
    ensures { result ≡ order_of a b }
{
    if a > b {
        1
    } else if a < b {
        -1
    } else {
        0
    }
}
