//! Which methods of the classes of a world may be selected.

ghost use Rattle.std.specs.Prelude.{◌≡◌, IfOk, map};
ghost use Rattle.jv_types.specs.Boot.{boot_method_of};
ghost use Rattle.class_dispatch.specs.Rows.{flags_select, is_selectable, methods_in, selectable_in};

use class_world::{Origin, World};
use jv_types::{BootMethod, ClassNo, List, Member, NoMemory};
use std::alloc::Global;

/// ACC_PRIVATE and ACC_STATIC (JVMS table 4.6-A).
const ACC_PRIVATE: u16 = 0x0002;

const ACC_STATIC: u16 = 0x0008;

/// For each method of a boot class whether it may be selected.
fn boot_row(alloc: Global, methods: &[BootMethod]) -> Result<List<bool>, NoMemory>
    ensures { IfOk result (λ row.
        row.items ≡ map is_selectable (map boot_method_of methods.now)) }
{
    let mut row = List::new(alloc);
    for method in methods {
        row.push(!method.is_static)?;
    }
    Ok(row)
}

/// Whether a method with these flags may be selected.
fn flags_select(flags: u16) -> bool
    ensures { result ≡ flags_select flags }
{
    flags & ACC_STATIC == 0 && flags & ACC_PRIVATE == 0
}

/// For each method of a class that was read whether it may be selected.
fn read_row(alloc: Global, methods: &[Member]) -> Result<List<bool>, NoMemory>
    ensures { IfOk result (λ row. row.items ≡ map (λ m. flags_select m.flags) methods.now) }
{
    let mut row = List::new(alloc);
    for method in methods {
        row.push(flags_select(method.flags))?;
    }
    Ok(row)
}

/// For each method of a class whether it may be selected.
fn row_of(alloc: Global, origin: &Origin) -> Result<List<bool>, NoMemory>
    ensures { IfOk result (λ row. row.items ≡ map is_selectable (methods_in origin.now)) }
{
    match origin {
        Origin::Boot(class) => boot_row(alloc, class.methods.as_slice()),
        Origin::Program(loaded) => read_row(alloc, loaded.file.methods.as_slice()),
    }
}

/// The same for each class of a world.
pub fn rows(alloc: Global, world: &World) -> Result<List<List<bool>>, NoMemory>
    ensures { IfOk result (λ rows. map (λ row. row.items) rows.items ≡ selectable_in world.now) }
{
    let mut rows = List::new(alloc);
    for class in 0..world.classes() {
        rows.push(row_of(alloc, &world.class(ClassNo(class)).origin)?)?;
    }
    Ok(rows)
}
