//! The boot classes: those that every program finds there.
//!
//! It stands on `jv_types` and the definitions of worlds. The contract above it is that of
//! `boot_table`: the classes that it gives are those of the definitions' boot table, row by row,
//! and it fails only for want of memory.
#![tactic(auto)]

ghost use Rattle.std.specs.Prelude.{◌≡◌, map, IfOk};
ghost use Rattle.jv_types.specs.Boot.{boot_classes_of, boot_field_of, boot_method_of, numbered_class_of};
ghost use Rattle.world_model.specs.BootTable.{boot_table as boot_rows};
ghost use Rattle.boot_classes.specs.Rows.{field_of, method_of, class_of};

mod rows;

use jv_types::{BootClass, BootField, BootMethod, List, NoMemory, Text};
use rows::{CLASSES, ClassRow, FieldRow, Kind, MethodKind, MethodRow};
use std::alloc::Global;

/// The units of a text of ASCII, which are its bytes.
fn units(alloc: Global, text: &str) -> Result<Text, NoMemory>
    ensures { IfOk result (λ units. units.items ≡ text.now) }
{
    let mut units = List::new(alloc);
    for byte in text.as_bytes() {
        units.push(u16::from(*byte))?;
    }
    Ok(units)
}

fn boot_field(alloc: Global, row: &FieldRow) -> Result<BootField, NoMemory>
    ensures { IfOk result (λ field. boot_field_of field ≡ field_of row.now) }
{
    Ok(BootField {
        name: units(alloc, row.0)?,
        descriptor: units(alloc, row.1)?,
        is_static: row.2,
    })
}

fn boot_method(alloc: Global, row: &MethodRow) -> Result<BootMethod, NoMemory>
    ensures { IfOk result (λ method. boot_method_of method ≡ method_of row.now) }
{
    Ok(BootMethod {
        name: units(alloc, row.1)?,
        descriptor: units(alloc, row.2)?,
        is_static: row.0 == MethodKind::StaticNative,
        is_native: row.0 != MethodKind::Abstract,
    })
}

fn boot_fields(alloc: Global, rows: &[FieldRow]) -> Result<List<BootField>, NoMemory>
    ensures { IfOk result (λ fields. map boot_field_of fields.items ≡ map field_of rows.now) }
{
    let mut fields = List::new(alloc);
    for row in rows {
        fields.push(boot_field(alloc, row)?)?;
    }
    Ok(fields)
}

fn boot_methods(alloc: Global, rows: &[MethodRow]) -> Result<List<BootMethod>, NoMemory>
    ensures { IfOk result (λ methods. map boot_method_of methods.items ≡ map method_of rows.now) }
{
    let mut methods = List::new(alloc);
    for row in rows {
        methods.push(boot_method(alloc, row)?)?;
    }
    Ok(methods)
}

fn boot_class(alloc: Global, row: &ClassRow) -> Result<BootClass, NoMemory>
    ensures { IfOk result (λ class. numbered_class_of class ≡ class_of row.now) }
{
    Ok(BootClass {
        name: units(alloc, row.name)?,
        superclass: row.superclass,
        interfaces: List::from_slice(alloc, row.interfaces)?,
        is_interface: row.kind == Kind::Interface,
        is_final: row.kind == Kind::Final,
        fields: boot_fields(alloc, row.fields)?,
        methods: boot_methods(alloc, row.methods)?,
    })
}

fn boot_classes(alloc: Global, rows: &[ClassRow]) -> Result<List<BootClass>, NoMemory>
    ensures { IfOk result (λ classes. map numbered_class_of classes.items ≡ map class_of rows.now) }
{
    let mut classes = List::new(alloc);
    for row in rows {
        classes.push(boot_class(alloc, row)?)?;
    }
    Ok(classes)
}

/// The boot classes in the order of their numbers, unless there is no memory for them.
pub fn boot_table(alloc: Global) -> Result<List<BootClass>, NoMemory>
    ensures { IfOk result (λ table. boot_classes_of table.items ≡ boot_rows) }
{
    let table = boot_classes(alloc, &CLASSES)?;
    Ok(table)
}

#[cfg(test)]
mod tests;
