//! The fields of a class (JVMS 4.5).

ghost use Rattle.std.specs.Prelude.{◌≡◌, IfOk, map};
ghost use Rattle.link_model.specs.WorldOf.{field_of};
ghost use Rattle.jv_types.specs.Boot.{boot_field_of};
ghost use Rattle.jv_types.specs.ClassData.{pool_of, member_of};
ghost use Rattle.class_members.specs.Members.{cell_of, kept_of, field_kept, fields_of_boot, fields_of_loaded};

use crate::constant::{constant_index, first_value};
use heap_face::Cell;
use jv_types::{BootClass, BootField, Const, List, Loaded, Member, NoMemory, text_at};
use jv_values::Value;
use std::alloc::Global;

/// ACC_STATIC (JVMS tables 4.5-A and 4.6-A).
const ACC_STATIC: u16 = 0x0008;

/// The first units of the descriptors of longs, of classes and of arrays (JVMS 4.3.2).
const LONG_UNIT: u16 = 0x4a;

const CLASS_UNIT: u16 = 0x4c;

const ARRAY_UNIT: u16 = 0x5b;

/// What is kept of a field.
#[derive(Clone, Copy, Debug, PartialEq, Eq)]
pub struct FieldRow {
    /// Whether the class has it once, and not each of its objects.
    pub is_static: bool,
    /// What it holds.
    pub cell: Cell,
    /// What it starts with: the int or the long that its ConstantValue names, or else zero.
    pub first: Value,
}

/// What a field of this descriptor holds.
fn cell_of(descriptor: &[u16]) -> Cell
    ensures { result ≡ cell_of descriptor.now }
{
    match descriptor {
        [LONG_UNIT, ..] => Cell::Long,
        [CLASS_UNIT | ARRAY_UNIT, ..] => Cell::Ref,
        _ => Cell::Int,
    }
}

/// What is kept of a field of a boot class.
fn boot_field(field: &BootField) -> FieldRow
    ensures { kept_of result ≡ field_kept (boot_field_of field.now) }
{
    let cell = cell_of(field.descriptor.as_slice());
    FieldRow {
        is_static: field.is_static,
        cell,
        first: first_value(&[], cell, None),
    }
}

/// What is kept of a field that was read.
fn read_field(pool: &[Const], field: &Member) -> FieldRow
    ensures { kept_of result ≡ field_kept (field_of (pool_of pool.now) (member_of field.now)) }
{
    let cell = cell_of(text_at(pool, field.descriptor));
    let constant = constant_index(pool, field.attributes.as_slice());
    FieldRow {
        is_static: field.flags & ACC_STATIC != 0,
        cell,
        first: first_value(pool, cell, constant),
    }
}

/// What is kept of each field of a boot class, in order.
pub fn boot_fields(alloc: Global, class: &BootClass) -> Result<List<FieldRow>, NoMemory>
    ensures { IfOk result (λ rows.
        map kept_of rows.items ≡ map field_kept (fields_of_boot class.now)) }
{
    let mut rows = List::new(alloc);
    for field in class.fields.as_slice() {
        rows.push(boot_field(field))?;
    }
    Ok(rows)
}

/// What is kept of each field of a class that was read, in order.
pub fn loaded_fields(alloc: Global, class: &Loaded) -> Result<List<FieldRow>, NoMemory>
    ensures { IfOk result (λ rows.
        map kept_of rows.items ≡ map field_kept (fields_of_loaded class.now)) }
{
    let pool = class.file.pool.as_slice();
    let mut rows = List::new(alloc);
    for field in class.file.fields.as_slice() {
        rows.push(read_field(pool, field))?;
    }
    Ok(rows)
}
