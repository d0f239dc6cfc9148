//! Local variables in words that are lent.

ghost use Rattle.std.specs.Prelude.{◌≡◌, IsSome, Some};
ghost use Rattle.machine_model.specs.LocalStep.{with_local};
ghost use Rattle.jv_values.specs.Values.{value_of, values_of};

use crate::value::Value;

/// Puts a value into the local with that number: a long into it and the one after it.
pub fn set_local(locals: &mut [Value], local: usize, value: Value)
    requires { IsSome (with_local local (value_of value) (values_of locals.old)) }
    ensures { with_local local (value_of value) (values_of locals.old)
        ≡ Some (values_of locals.new) }
{
    locals[local] = value;
    if let Value::Long(_) = value {
        locals[local + 1] = Value::Half;
    }
}
