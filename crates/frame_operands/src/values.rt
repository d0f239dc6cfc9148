//! Values of a known kind.

ghost use Rattle.std.specs.Prelude.{◌≡◌, true};
ghost use Rattle.jv_model.specs.Instruction.{of_int, of_long};
ghost use Rattle.machine_model.specs.Value.{is_of_kind};
ghost use Rattle.jv_values.specs.Values.{value_of};
ghost use Rattle.jv_values.specs.declared.value.Value.TheVariants.{Int, Long};

use jv_values::Value;

/// The int that a value is.
pub fn as_int(value: Value) -> i32
    requires { is_of_kind of_int (value_of value) ≡ true }
    ensures { value ≡ Int result }
{
    match value {
        Value::Int(n) => n,
        _ => unreachable!(),
    }
}

/// The long that a value is.
pub fn as_long(value: Value) -> i64
    requires { is_of_kind of_long (value_of value) ≡ true }
    ensures { value ≡ Long result }
{
    match value {
        Value::Long(n) => n,
        _ => unreachable!(),
    }
}
