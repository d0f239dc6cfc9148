//! Operands in words that are lent: as many as `depth`, from the bottom up.

ghost use Rattle.std.specs.Prelude.{◌≡◌, ◌∷◌, ◌++◌, ◌+◌, ◌-◌, ◌≤◌, length, reverse, IsSome, Some};
ghost use Rattle.jv_types.specs.Instruction.{value_kind_of};
ghost use Rattle.machine_model.specs.Value.{int, long, half, onto, taken_of};
ghost use Rattle.jv_values.specs.Taken.{taken_value_of};
ghost use Rattle.jv_values.specs.Values.{value_of, values_of, operands_in, places_of, HasInt, HasTwoInts, HasLong, HasTwoLongs, HasLongAndInt};

use crate::value::Value;
use jv_types::ValueKind;

/// A value that was taken from the operands, and how many words are left.
#[derive(Clone, Copy, Debug, PartialEq, Eq)]
pub struct Taken {
    pub value: Value,
    pub depth: usize,
}

/// The word on top.
pub fn word_on_top(words: &[Value], depth: usize) -> Value
    requires some { 1 ≤ depth }
    requires inside { depth ≤ length words.now }
    ensures { operands_in words.now depth ≡ value_of result ∷ operands_in words.now (depth - 1) }
{
    words[depth - 1]
}

/// The words on top, the upper one last.
pub fn two_words(words: &[Value], depth: usize) -> (Value, Value)
    requires some { 2 ≤ depth }
    requires inside { depth ≤ length words.now }
    ensures { operands_in words.now depth
        ≡ value_of result.1 ∷ value_of result.0 ∷ operands_in words.now (depth - 2) }
{
    let a = word_on_top(words, depth);
    let b = word_on_top(words, depth - 1);
    (b, a)
}

/// The int on top.
pub fn int_on_top(words: &[Value], depth: usize) -> i32
    requires inside { depth ≤ length words.now }
    requires kind { HasInt (operands_in words.now depth) }
    ensures some { 1 ≤ depth }
    ensures value { operands_in words.now depth ≡ int result ∷ operands_in words.now (depth - 1) }
{
    match words[depth - 1] {
        Value::Int(value) => value,
        _ => unreachable!(),
    }
}

/// The ints on top: value1, which lies deeper, and value2.
pub fn two_ints(words: &[Value], depth: usize) -> (i32, i32)
    requires inside { depth ≤ length words.now }
    requires kind { HasTwoInts (operands_in words.now depth) }
    ensures some { 2 ≤ depth }
    ensures values { operands_in words.now depth
        ≡ int result.1 ∷ int result.0 ∷ operands_in words.now (depth - 2) }
{
    let b = int_on_top(words, depth);
    let a = int_on_top(words, depth - 1);
    (a, b)
}

/// The long on top.
pub fn long_on_top(words: &[Value], depth: usize) -> i64
    requires inside { depth ≤ length words.now }
    requires kind { HasLong (operands_in words.now depth) }
    ensures some { 2 ≤ depth }
    ensures value { operands_in words.now depth
        ≡ half ∷ long result ∷ operands_in words.now (depth - 2) }
{
    match words[depth - 2] {
        Value::Long(value) => value,
        _ => unreachable!(),
    }
}

/// The longs on top: value1, which lies deeper, and value2.
pub fn two_longs(words: &[Value], depth: usize) -> (i64, i64)
    requires inside { depth ≤ length words.now }
    requires kind { HasTwoLongs (operands_in words.now depth) }
    ensures some { 4 ≤ depth }
    ensures values { operands_in words.now depth
        ≡ half ∷ long result.1 ∷ half ∷ long result.0 ∷ operands_in words.now (depth - 4) }
{
    let b = long_on_top(words, depth);
    let a = long_on_top(words, depth - 2);
    (a, b)
}

/// The int on top, last, and the long below it.
pub fn long_and_int(words: &[Value], depth: usize) -> (i64, i32)
    requires inside { depth ≤ length words.now }
    requires kind { HasLongAndInt (operands_in words.now depth) }
    ensures some { 3 ≤ depth }
    ensures values { operands_in words.now depth
        ≡ int result.1 ∷ half ∷ long result.0 ∷ operands_in words.now (depth - 3) }
{
    let b = int_on_top(words, depth);
    let a = long_on_top(words, depth - 1);
    (a, b)
}

/// The value of that kind on top.
pub fn take(kind: ValueKind, words: &[Value], depth: usize) -> Taken
    requires inside { depth ≤ length words.now }
    requires kind { IsSome (taken_of (value_kind_of kind) (operands_in words.now depth)) }
    ensures inside { result.depth ≤ depth }
    ensures value { taken_of (value_kind_of kind) (operands_in words.now depth)
        ≡ Some (taken_value_of words.now result) }
{
    match kind {
        ValueKind::Int => Taken {
            value: Value::Int(int_on_top(words, depth)),
            depth: depth - 1,
        },
        ValueKind::Long => Taken {
            value: Value::Long(long_on_top(words, depth)),
            depth: depth - 2,
        },
        ValueKind::Reference => Taken {
            value: word_on_top(words, depth),
            depth: depth - 1,
        },
    }
}

/// Puts a value on top, and gives the depth then.
pub fn push(words: &mut [Value], depth: usize, value: Value) -> usize
    requires { depth + places_of value ≤ length words.old }
    ensures depth { result ≡ depth + places_of value }
    ensures operands { operands_in words.new result
        ≡ onto (value_of value) (operands_in words.old depth) }
{
    words[depth] = value;
    match value {
        Value::Long(_) => {
            words[depth + 1] = Value::Half;
            depth + 2
        }
        _ => depth + 1,
    }
}

/// Puts words on top as they stand, the last one uppermost, and gives the depth then.
pub fn put(words: &mut [Value], depth: usize, group: &[Value]) -> usize
    requires { depth + length group.now ≤ length words.old }
    ensures depth { result ≡ depth + length group.now }
    ensures operands { operands_in words.new result
        ≡ values_of (reverse group.now) ++ operands_in words.old depth }
{
    let end = depth + group.len();
    words[depth..end].copy_from_slice(group);
    end
}
