//! The arithmetic of ints (JVMS 6.5).

ghost use Rattle.std.specs.Prelude.{◌≡◌};
ghost use Rattle.straight_line_model.specs.IntOperation.{int_result, int_negated};
ghost use Rattle.jv_types.specs.IntOperation.{operation_of};

/// What an instruction makes of two ints.
#[derive(Clone, Copy, Debug, PartialEq, Eq)]
pub enum IntOperation {
    /// `iadd`.
    Add,
    /// `isub`.
    Subtract,
    /// `imul`.
    Multiply,
    /// `iand`.
    Conjunction,
    /// `ior`.
    Disjunction,
    /// `ixor`.
    ExclusiveDisjunction,
}

/// The result for value1 `a` and value2 `b`: of the whole number, what is left in 32 bits.
#[tactic(auto, using(std::proofs::lemmas::Int::wraps))]
pub fn int_op(operation: IntOperation, a: i32, b: i32) -> i32
    ensures { result ≡ int_result (operation_of operation) a b }
{
    match operation {
        IntOperation::Add => a.wrapping_add(b),
        IntOperation::Subtract => a.wrapping_sub(b),
        IntOperation::Multiply => a.wrapping_mul(b),
        IntOperation::Conjunction => a & b,
        IntOperation::Disjunction => a | b,
        IntOperation::ExclusiveDisjunction => a ^ b,
    }
}

/// The result of `ineg`. The negation of the least int is the least int.
#[tactic(auto, using(std::proofs::lemmas::Int::wraps))]
pub fn int_negate(a: i32) -> i32
    ensures { result ≡ int_negated a }
{
    a.wrapping_neg()
}
