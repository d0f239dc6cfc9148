//! Constants of the pool.

ghost use Rattle.std.specs.Prelude.{◌≡◌, option_map};
ghost use Rattle.code_model.specs.Names.{operand_at};
ghost use Rattle.jv_types.specs.ClassData.{pool_of};
ghost use Rattle.local_steps.specs.Constants.{int_named, long_named};

use jv_types::Const;

/// The int at an index, where an Integer is there.
pub fn int_constant(pool: &[Const], index: u16) -> Option<i32>
    ensures { result ≡ int_named (operand_at (pool_of pool.now) index) }
{
    let index = usize::from(index);
    if index >= pool.len() {
        return None;
    }
    match &pool[index] {
        Const::Integer(value) => Some(*value),
        _ => None,
    }
}

/// The long at an index, where a Long is there.
pub fn long_constant(pool: &[Const], index: u16) -> Option<i64>
    ensures { result ≡ long_named (operand_at (pool_of pool.now) index) }
{
    let index = usize::from(index);
    if index >= pool.len() {
        return None;
    }
    match &pool[index] {
        Const::Long(value) => Some(*value),
        _ => None,
    }
}
