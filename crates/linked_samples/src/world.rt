//! Worlds of texts.

ghost use Rattle.std.specs.Prelude.{IfOk, bytes_eq};
ghost use Rattle.std.specs.List.{IsDistinct};
ghost use Rattle.link_laws.specs.Above.{IsSound};
ghost use Rattle.linked_laws.specs.Worlds.{IsLinkedWorld};
ghost use Rattle.class_world.specs.World.{HaveMembersOnce, names_of};
ghost use Rattle.class_loader.specs.Items.{AreRead};

use crate::error::SampleError;
use crate::program::{Program, link_program, load_program};
use boot_classes::boot_table;
use class_loader::Stop;
use class_world::World;
use jv_outer::MemFiles;
use jv_types::text::units;
use jv_types::{List, NoMemory};
use std::alloc::Global;

/// The name under which the text of a manifest is kept.
const MANIFEST: &str = "manifest";

/// The files of a program that is all in its manifest.
fn manifest_alone(alloc: Global, manifest: &[u8]) -> Result<MemFiles, NoMemory> {
    let mut files = List::new(alloc);
    files.push((units(alloc, MANIFEST)?, List::from_slice(alloc, manifest)?))?;
    Ok(MemFiles::new(files, List::new(alloc)))
}

/// The world of a program on the boot classes.
fn world_of(alloc: Global, program: &Program) -> Result<World, Stop>
    requires { AreRead program.now.classes }
    ensures { IfOk result IsLinkedWorld }
{
    let boot = boot_table(alloc)?;
    link_program(alloc, &boot, program)
}

/// The world of the program that the text of a manifest says, with its classes as assembler texts.
/// Since it was linked, it has what the verifier, the tables of a world and the search of handlers
/// ask of one.
pub fn linked_world(alloc: Global, manifest: &[u8]) -> Result<World, SampleError>
    ensures linked { IfOk result IsLinkedWorld }
    ensures sound { IfOk result IsSound }
    ensures apart { IfOk result (λ world. IsDistinct bytes_eq (names_of world)) }
    ensures once { IfOk result HaveMembersOnce }
{
    let mut files = manifest_alone(alloc, manifest)?;
    let program = load_program(alloc, &mut files, MANIFEST)?;
    let world = world_of(alloc, &program)?;
    Ok(world)
}
