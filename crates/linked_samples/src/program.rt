//! Programs of manifests.

ghost use Rattle.std.specs.Prelude.{◌≡◌, IfOk};
ghost use Rattle.world_model.specs.BootTable.{boot_table as boot_rows};
ghost use Rattle.link_model.specs.Link.{linked};
ghost use Rattle.load_model.specs.Loading.{placed};
ghost use Rattle.linked_laws.specs.Worlds.{IsLinkedWorld};
ghost use Rattle.jv_types.specs.Boot.{boot_classes_of};
ghost use Rattle.class_loader.specs.Items.{classes_in, AreRead};
ghost use Rattle.class_loader.specs.Placed.{IsPlaced};

use class_linker::{LinkError, link};
use class_loader::{Stop, load_items, read_file};
use class_world::World;
use jv_outer::Files;
use jv_types::text::units;
use jv_types::{BootClass, List, Loaded, Text};
use manifest_reader::read_manifest;
use std::alloc::Global;

/// The classes of a program in the order of its items, and the name of its main class.
#[derive(Drop)]
pub struct Program {
    pub classes: List<Loaded>,
    pub main: Text,
}

/// The program that the manifest of this name and its class files say. Updates bring no class.
pub fn load_program<F: Files>(alloc: Global, files: &mut F, name: &str) -> Result<Program, Stop>
    ensures { IfOk result (λ program. AreRead program.classes) }
{
    let text = read_file(alloc, files, name, 0, 0)?;
    let manifest = read_manifest(alloc, text.as_slice())?;
    let classes = load_items(alloc, files, &manifest.items)?;
    let main = units(alloc, manifest.main)?;
    Ok(Program { classes, main })
}

/// The world of a program on the boot classes. What refuses it is told of no item.
pub fn link_program(alloc: Global, boot: &List<BootClass>, program: &Program) -> Result<World, Stop>
    requires boot { boot_classes_of boot.now.items ≡ boot_rows }
    requires read { AreRead program.now.classes }
    ensures placed { IsPlaced (λ world. world) result
        (placed 0 0 (linked boot_rows (classes_in program.now.classes) program.now.main.items)) }
    ensures linked { IfOk result IsLinkedWorld }
{
    match link(alloc, boot, &program.classes, &program.main) {
        Ok(world) => Ok(world),
        Err(LinkError::Refused(cause)) => Err(Stop::Refused {
            item: 0,
            sub: 0,
            cause,
        }),
        Err(LinkError::NoMemory) => Err(Stop::NoMemory),
    }
}
