//! Where branches go.

ghost use Rattle.std.specs.Prelude.{◌≡◌, Some, IsSome};
ghost use Rattle.jv_types.specs.Instruction.{pairs_of};
ghost use Rattle.machine_model.specs.Branches.{same_reference as same, table_target as in_table, row_target};
ghost use Rattle.jv_values.specs.Values.{value_of};

use jv_types::SwitchPair;
use jv_values::Value;

/// Whether two references are of one object, or both null.
pub fn same_reference(a: Value, b: Value) -> bool
    requires { IsSome (same (value_of a) (value_of b)) }
    ensures { same (value_of a) (value_of b) ≡ Some result }
{
    match (a, b) {
        (Value::Ref(a), Value::Ref(b)) => a == b,
        (Value::Null, Value::Null) => true,
        _ => false,
    }
}

/// The target of a key in a `tableswitch`.
pub fn table_target(otherwise: u32, low: i32, targets: &[u32], key: i32) -> u32
    ensures { result ≡ in_table otherwise low targets.now key }
{
    let number = key.abs_diff(low) as usize;
    if key < low || number >= targets.len() {
        otherwise
    } else {
        targets[number]
    }
}

/// The target of a key in a `lookupswitch`.
pub fn pair_target(otherwise: u32, pairs: &[SwitchPair], key: i32) -> u32
    ensures { result ≡ row_target otherwise (pairs_of pairs.now) key }
{
    for pair in pairs {
        if pair.key == key {
            return pair.target;
        }
    }
    otherwise
}
