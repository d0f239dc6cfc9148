//! Linking.

ghost use Rattle.std.specs.Prelude.{◌≡◌, map};
ghost use Rattle.link_model.specs.Link.{linked};
ghost use Rattle.world_model.specs.BootTable.{boot_table};
ghost use Rattle.jv_types.specs.Boot.{boot_classes_of};
ghost use Rattle.jv_types.specs.Loaded.{loaded_of};
ghost use Rattle.class_linker.specs.Linking.{LinksAs};

use crate::error::LinkError;
use crate::faults::{first_own_fault, first_use_fault};
use class_infos::{first_cycle, number_classes};
use class_world::World;
use jv_types::{BootClass, List, Loaded, Text};
use std::alloc::Global;

/// The world of a program's classes on the boot classes, which can be started at the class `main`
/// (JVMS 5.4). It keeps copies of the classes. The error is the first refusal: each test in its
/// order looks at the classes in their order. Only want of memory may come instead.
pub fn link(
    alloc: Global,
    boot: &List<BootClass>,
    classes: &List<Loaded>,
    main: &Text,
) -> Result<World, LinkError>
    requires { boot_classes_of boot.now.items ≡ boot_table }
    ensures { LinksAs (linked boot_table (map loaded_of classes.now.items) main.now.items) result }
{
    let boot = boot.as_slice();
    let classes = classes.as_slice();
    if let Some(cause) = first_own_fault(alloc, classes)? {
        return Err(LinkError::Refused(cause));
    }
    let numbered = number_classes(alloc, boot, classes)?;
    if let Some(cause) = first_cycle(alloc, numbered.infos.as_slice())? {
        return Err(LinkError::Refused(cause));
    }
    let world = World::of(alloc, numbered.names, numbered.infos)?;
    if let Some(cause) = first_use_fault(alloc, &world, main)? {
        return Err(LinkError::Refused(cause));
    }
    Ok(world)
}
