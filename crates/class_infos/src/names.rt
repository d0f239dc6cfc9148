//! The names of classes.

ghost use Rattle.std.specs.Prelude.{◌≡◌, ◌++◌, map, bytes_eq, IfOk, OnOk};
ghost use Rattle.std.specs.List.{IsDistinct};
ghost use Rattle.link_model.specs.WorldOf.{name_of};
ghost use Rattle.jv_types.specs.Loaded.{loaded_of};
ghost use Rattle.class_infos.specs.Numbered.{boot_names, program_names};

use class_names::Names;
use class_world::class_name_at;
use jv_types::{BootClass, Loaded, NoMemory};
use std::alloc::Global;

/// The name of a class itself.
pub fn class_name(class: &Loaded) -> &[u16]
    ensures { result.now ≡ name_of (loaded_of class.now) }
{
    class_name_at(class.file.pool.as_slice(), class.file.this_class)
}

/// Adds the names of boot classes, which differ from those that are there and from each other.
fn add_boot_names(alloc: Global, names: &mut Names, boot: &[BootClass]) -> Result<(), NoMemory>
    requires { IsDistinct bytes_eq (names.old ++ boot_names boot.now) }
    ensures { OnOk result (names.new ≡ names.old ++ boot_names boot.now) }
{
    for class in boot {
        names.add(alloc, class.name.as_slice())?;
    }
    Ok(())
}

/// Adds the names of a program's classes, which differ from those that are there and from each
/// other.
fn add_program_names(alloc: Global, names: &mut Names, classes: &[Loaded]) -> Result<(), NoMemory>
    requires { IsDistinct bytes_eq (names.old ++ program_names (map loaded_of classes.now)) }
    ensures { OnOk result (names.new ≡ names.old ++ program_names (map loaded_of classes.now)) }
{
    for class in classes {
        names.add(alloc, class_name(class))?;
    }
    Ok(())
}

/// The names of boot classes and of a program's classes, which are apart, by their numbers.
pub fn all_names(alloc: Global, boot: &[BootClass], classes: &[Loaded]) -> Result<Names, NoMemory>
    requires { IsDistinct bytes_eq
        (boot_names boot.now ++ program_names (map loaded_of classes.now)) }
    ensures { IfOk result (λ names. names
        ≡ boot_names boot.now ++ program_names (map loaded_of classes.now)) }
{
    let mut names = Names::new(alloc);
    add_boot_names(alloc, &mut names, boot)?;
    add_program_names(alloc, &mut names, classes)?;
    Ok(names)
}
