//! Instructions that make one operand of others.

ghost use Rattle.std.specs.Prelude.{◌≡◌, ◌≤◌, length, false, Some};
ghost use Rattle.std.specs.Int.{w32, w64};
ghost use Rattle.jv_types.specs.Instruction.{arithmetic_of, shift_of, conversion_of};
ghost use Rattle.machine_model.specs.Arithmetic.{is_division as divides, arithmetic_result, negated, shift_result, order_of};
ghost use Rattle.machine_model.specs.Value.{int, long};
ghost use Rattle.machine_model.specs.Operands.{on_int, on_two_ints, on_long, on_two_longs, on_long_and_int, converted};
ghost use Rattle.jv_values.specs.Values.{operands_in};
ghost use Rattle.local_steps.specs.Outcome.{Fits};

use arithmetic::{
    int_negate, int_op, int_shift, long_negate, long_op, long_shift, low_int, order, to_byte,
    to_char, to_short,
};
use jv_types::{Arithmetic, Conversion, Shift};
use jv_values::Value;
use jv_values::operands::{int_on_top, long_and_int, long_on_top, push, two_ints, two_longs};

/// Whether an operation divides, so that it can throw.
pub fn is_division(operation: Arithmetic) -> bool
    ensures { result ≡ divides (arithmetic_of operation) }
{
    matches!(operation, Arithmetic::Divide | Arithmetic::Remainder)
}

/// `iadd` to `imul`, `iand`, `ior` and `ixor`.
pub fn compute_int(operation: Arithmetic, stack: &mut [Value], depth: usize) -> usize
    requires local { divides (arithmetic_of operation) ≡ false }
    requires inside { depth ≤ length stack.old }
    requires right { Fits (length stack.old)
        (on_two_ints (λ a b. int (arithmetic_result w32 (arithmetic_of operation) a b)) (operands_in stack.old depth)) }
    ensures inside { result ≤ length stack.new }
    ensures operands { on_two_ints (λ a b. int (arithmetic_result w32 (arithmetic_of operation) a b)) (operands_in stack.old depth)
        ≡ Some (operands_in stack.new result) }
{
    let (a, b) = two_ints(stack, depth);
    push(stack, depth - 2, Value::Int(int_op(operation, a, b)))
}

/// `ishl`, `ishr` and `iushr`.
pub fn shift_int(shift: Shift, stack: &mut [Value], depth: usize) -> usize
    requires inside { depth ≤ length stack.old }
    requires right { Fits (length stack.old)
        (on_two_ints (λ a b. int (shift_result w32 (shift_of shift) a b)) (operands_in stack.old depth)) }
    ensures inside { result ≤ length stack.new }
    ensures operands { on_two_ints (λ a b. int (shift_result w32 (shift_of shift) a b)) (operands_in stack.old depth)
        ≡ Some (operands_in stack.new result) }
{
    let (a, b) = two_ints(stack, depth);
    push(stack, depth - 2, Value::Int(int_shift(shift, a, b)))
}

/// `ineg`.
pub fn negate_int(stack: &mut [Value], depth: usize) -> usize
    requires inside { depth ≤ length stack.old }
    requires right { Fits (length stack.old)
        (on_int (λ a. int (negated w32 a)) (operands_in stack.old depth)) }
    ensures inside { result ≤ length stack.new }
    ensures operands { on_int (λ a. int (negated w32 a)) (operands_in stack.old depth)
        ≡ Some (operands_in stack.new result) }
{
    let a = int_on_top(stack, depth);
    push(stack, depth - 1, Value::Int(int_negate(a)))
}

/// `ladd` to `lmul`, `land`, `lor` and `lxor`.
pub fn compute_long(operation: Arithmetic, stack: &mut [Value], depth: usize) -> usize
    requires local { divides (arithmetic_of operation) ≡ false }
    requires inside { depth ≤ length stack.old }
    requires right { Fits (length stack.old)
        (on_two_longs (λ a b. long (arithmetic_result w64 (arithmetic_of operation) a b)) (operands_in stack.old depth)) }
    ensures inside { result ≤ length stack.new }
    ensures operands { on_two_longs (λ a b. long (arithmetic_result w64 (arithmetic_of operation) a b)) (operands_in stack.old depth)
        ≡ Some (operands_in stack.new result) }
{
    let (a, b) = two_longs(stack, depth);
    push(stack, depth - 4, Value::Long(long_op(operation, a, b)))
}

/// `lshl`, `lshr` and `lushr`.
pub fn shift_long(shift: Shift, stack: &mut [Value], depth: usize) -> usize
    requires inside { depth ≤ length stack.old }
    requires right { Fits (length stack.old)
        (on_long_and_int (λ a b. long (shift_result w64 (shift_of shift) a b)) (operands_in stack.old depth)) }
    ensures inside { result ≤ length stack.new }
    ensures operands { on_long_and_int (λ a b. long (shift_result w64 (shift_of shift) a b)) (operands_in stack.old depth)
        ≡ Some (operands_in stack.new result) }
{
    let (a, b) = long_and_int(stack, depth);
    push(stack, depth - 3, Value::Long(long_shift(shift, a, b)))
}

/// `lneg`.
pub fn negate_long(stack: &mut [Value], depth: usize) -> usize
    requires inside { depth ≤ length stack.old }
    requires right { Fits (length stack.old)
        (on_long (λ a. long (negated w64 a)) (operands_in stack.old depth)) }
    ensures inside { result ≤ length stack.new }
    ensures operands { on_long (λ a. long (negated w64 a)) (operands_in stack.old depth)
        ≡ Some (operands_in stack.new result) }
{
    let a = long_on_top(stack, depth);
    push(stack, depth - 2, Value::Long(long_negate(a)))
}

/// `lcmp`.
pub fn compare_longs(stack: &mut [Value], depth: usize) -> usize
    requires inside { depth ≤ length stack.old }
    requires right { Fits (length stack.old)
        (on_two_longs (λ a b. int (order_of a b)) (operands_in stack.old depth)) }
    ensures inside { result ≤ length stack.new }
    ensures operands { on_two_longs (λ a b. int (order_of a b)) (operands_in stack.old depth)
        ≡ Some (operands_in stack.new result) }
{
    let (a, b) = two_longs(stack, depth);
    push(stack, depth - 4, Value::Int(order(a, b)))
}

/// `i2l` to `i2s`.
pub fn convert(conversion: Conversion, stack: &mut [Value], depth: usize) -> usize
    requires inside { depth ≤ length stack.old }
    requires right { Fits (length stack.old)
        (converted (conversion_of conversion) (operands_in stack.old depth)) }
    ensures inside { result ≤ length stack.new }
    ensures operands { converted (conversion_of conversion) (operands_in stack.old depth)
        ≡ Some (operands_in stack.new result) }
{
    match conversion {
        Conversion::IntToLong => {
            let a = int_on_top(stack, depth);
            push(stack, depth - 1, Value::Long(i64::from(a)))
        }
        Conversion::LongToInt => {
            let a = long_on_top(stack, depth);
            push(stack, depth - 2, Value::Int(low_int(a)))
        }
        Conversion::IntToByte => {
            let a = int_on_top(stack, depth);
            push(stack, depth - 1, Value::Int(to_byte(a)))
        }
        Conversion::IntToChar => {
            let a = int_on_top(stack, depth);
            push(stack, depth - 1, Value::Int(to_char(a)))
        }
        Conversion::IntToShort => {
            let a = int_on_top(stack, depth);
            push(stack, depth - 1, Value::Int(to_short(a)))
        }
    }
}
