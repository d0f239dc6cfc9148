//! The values that ConstantValue attributes name (JVMS 4.7.2).

ghost use Rattle.std.specs.Prelude.{◌≡◌, ℕ, List, Some, option_map, slice_index};
ghost use Rattle.jv_model.specs.ClassData.{Const as ModelConst};
ghost use Rattle.code_model.specs.Names.{operand_at, operand_by};
ghost use Rattle.world_model.specs.World.{Field};
ghost use Rattle.machine_model.specs.Start.{first_value};
ghost use Rattle.machine_model.specs.Value.{zero_of, kind_of};
ghost use Rattle.jv_types.specs.ClassData.{const_of, pool_of, attrs_of};
ghost use Rattle.jv_values.specs.Values.{value_of};
ghost use Rattle.class_members.specs.Members.{cell_of, constant_index};

use crate::pool::is_named;
use heap_face::Cell;
use jv_types::{Attr, Const};
use jv_values::Value;

/// The byte at a place, or 0 behind the last one.
fn byte_at(bytes: &[u8], place: usize) -> u8
    ensures { result ≡ slice_index bytes.now place }
{
    match bytes.get(place) {
        Some(byte) => *byte,
        None => 0,
    }
}

/// The index in the first ConstantValue among some attributes.
pub fn constant_index(pool: &[Const], attributes: &[Attr]) -> Option<u16>
    ensures { result ≡ constant_index (pool_of pool.now) (attrs_of attributes.now) }
{
    for attribute in attributes {
        if is_named(pool, b"ConstantValue", attribute.name) {
            let bytes = attribute.bytes.as_slice();
            return Some(u16::from(byte_at(bytes, 0)) * 256 + u16::from(byte_at(bytes, 1)));
        }
    }
    None
}

/// What a field starts with that holds such values (JVMS 2.3, 2.4).
fn zero_value(cell: Cell) -> Value
    ensures { (descriptor : List ℕ) → cell ≡ cell_of descriptor
        → value_of result ≡ zero_of (kind_of descriptor) }
{
    match cell {
        Cell::Int => Value::Int(0),
        Cell::Long => Value::Long(0),
        Cell::Ref => Value::Null,
    }
}

/// What a field starts with whose ConstantValue names this entry (JVMS 5.5). Where it names a text,
/// this is null until the string of that text is made.
fn value_named(cell: Cell, constant: &Const) -> Value
    ensures { (field : Field) (pool : List ModelConst) → cell ≡ cell_of field.descriptor
        → value_of result ≡ first_value field (Some (operand_by pool (const_of constant.now))) }
{
    match constant {
        Const::Integer(value) => Value::Int(*value),
        Const::Long(value) => Value::Long(*value),
        _ => zero_value(cell),
    }
}

/// What a field starts with whose ConstantValue names the entry at that index, where it has one.
pub fn first_value(pool: &[Const], cell: Cell, constant: Option<u16>) -> Value
    ensures { (field : Field) → cell ≡ cell_of field.descriptor
        → value_of result ≡ first_value field (option_map (operand_at (pool_of pool.now)) constant) }
{
    match constant {
        Some(index) => match pool.get(usize::from(index)) {
            Some(entry) => value_named(cell, entry),
            None => zero_value(cell),
        },
        None => zero_value(cell),
    }
}
