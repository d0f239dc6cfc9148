//! What the classes of a world declare.

ghost use Rattle.std.specs.Prelude.{◌≡◌, IfOk, map};
ghost use Rattle.class_members.specs.Members.{kept_of, field_kept};
ghost use Rattle.world_tables.specs.Tables.{fields_in, fields_kept};

use class_members::{FieldRow, boot_fields, loaded_fields};
use class_world::{ClassInfo, Origin, World};
use jv_types::{ClassNo, List, NoMemory};
use std::alloc::Global;

/// What is kept of each field of a class, by index.
fn fields_of(alloc: Global, class: &ClassInfo) -> Result<List<FieldRow>, NoMemory>
    ensures { IfOk result (λ row.
        map kept_of row.items ≡ map field_kept (fields_in class.now.origin)) }
{
    match &class.origin {
        Origin::Boot(class) => boot_fields(alloc, class),
        Origin::Program(loaded) => loaded_fields(alloc, loaded),
    }
}

/// For each class, by number, what is kept of each of its fields, by index.
pub fn fields(alloc: Global, world: &World) -> Result<List<List<FieldRow>>, NoMemory>
    ensures { IfOk result (λ rows.
        map (λ row. map kept_of row.items) rows.items ≡ fields_kept world.now) }
{
    let mut rows = List::new(alloc);
    for class in 0..world.classes() {
        rows.push(fields_of(alloc, world.class(ClassNo(class)))?)?;
    }
    Ok(rows)
}
