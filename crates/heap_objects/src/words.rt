//! The words of values.

ghost use Rattle.std.specs.Prelude.{◌≡◌};
ghost use Rattle.jv_values.specs.Values.{value_of};
ghost use Rattle.heap_objects.specs.Words.{IsOfCell, value_in as value_of_word};

use heap_face::Cell;
use jv_values::Value;

/// The word in which an object holds a value.
pub fn word_of(cell: Cell, value: Value) -> u64
    requires { IsOfCell cell (value_of value) }
    ensures { value_of_word cell result ≡ value_of value }
{
    match value {
        Value::Int(n) => u64::from(n.cast_unsigned()),
        Value::Long(n) => n.cast_unsigned(),
        Value::Half | Value::Null => 0,
        Value::Ref(address) => address,
    }
}

/// The value that a word of an object is.
pub fn value_in(cell: Cell, word: u64) -> Value
    ensures { value_of result ≡ value_of_word cell word }
{
    match cell {
        Cell::Int => Value::Int(((word % 0x1_0000_0000) as u32).cast_signed()),
        Cell::Long => Value::Long(word.cast_signed()),
        Cell::Ref if word == 0 => Value::Null,
        Cell::Ref => Value::Ref(word),
    }
}
