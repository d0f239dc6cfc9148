//! Boot classes and a program's classes by number.

ghost use Rattle.std.specs.Prelude.{◌≡◌, map, bytes_eq, IfOk};
ghost use Rattle.std.specs.List.{IsDistinct};
ghost use Rattle.link_model.specs.WorldOf.{world_of};
ghost use Rattle.world_model.specs.BootTable.{boot_table};
ghost use Rattle.jv_types.specs.Boot.{boot_classes_of};
ghost use Rattle.jv_types.specs.Loaded.{loaded_of};
ghost use Rattle.class_world.specs.Parts.{parts_of};
ghost use Rattle.class_world.specs.World.{names_of};
ghost use Rattle.class_infos.specs.Numbered.{boot_parts, AreNumbered};

use crate::names::all_names;
use crate::programs::push_programs;
use class_names::Names;
use class_world::{ClassInfo, Origin};
use jv_types::{BootClass, List, Loaded, NoMemory};
use std::alloc::Global;

/// The classes of a world by number, boot classes first.
#[derive(Drop)]
pub struct NumberedClasses {
    /// Their names, by their numbers.
    pub names: Names,
    pub infos: List<ClassInfo>,
}

/// A boot class, with a copy of its row. It names classes by their numbers already.
fn boot_info(alloc: Global, class: &BootClass) -> Result<ClassInfo, NoMemory>
    ensures { IfOk result (λ info. parts_of info ≡ boot_parts class.now) }
{
    Ok(ClassInfo {
        name: class.name.copy(alloc)?,
        superclass: class.superclass,
        interfaces: class.interfaces.copy(alloc)?,
        origin: Origin::Boot(class.copy(alloc)?),
    })
}

/// The boot classes.
fn boot_infos(alloc: Global, boot: &[BootClass]) -> Result<List<ClassInfo>, NoMemory>
    ensures { IfOk result (λ infos. map parts_of infos.items ≡ map boot_parts boot.now) }
{
    let mut infos = List::new(alloc);
    for class in boot {
        infos.push(boot_info(alloc, class)?)?;
    }
    Ok(infos)
}

/// The classes of the world of boot classes and of a program's classes, by number, where no two of
/// them have one name. Each has the numbers of those of its supertypes that are there. It fails
/// only for want of memory.
pub fn number_classes(
    alloc: Global,
    boot: &[BootClass],
    classes: &[Loaded],
) -> Result<NumberedClasses, NoMemory>
    requires boot { boot_classes_of boot.now ≡ boot_table }
    requires apart { IsDistinct bytes_eq
        (names_of (world_of (boot_classes_of boot.now) (map loaded_of classes.now))) }
    ensures { IfOk result (λ numbered. AreNumbered
        (world_of (boot_classes_of boot.now) (map loaded_of classes.now))
        numbered.names numbered.infos.items) }
{
    let names = all_names(alloc, boot, classes)?;
    let mut infos = boot_infos(alloc, boot)?;
    push_programs(alloc, &mut infos, &names, classes)?;
    Ok(NumberedClasses { names, infos })
}
