//! The classes that declare what the member references of a linked world name.

ghost use Rattle.std.specs.Prelude.{◌≡◌, option_map, IsSome};
ghost use Rattle.jv_types.specs.ClassData.{pool_of};
ghost use Rattle.class_world.specs.World.{field_at, method_at};
ghost use Rattle.use_faults.specs.References.{reference_of};
ghost use Rattle.link_bench.specs.Members.{field_class, method_class, declaring_at};

use class_faults::name_of;
use class_world::{Origin, World};
use jv_types::{Bytes, ClassNo, Const, List, Loaded, NoMemory};
use run_text::printed_units;
use std::alloc::Global;
use use_faults::{MemberReference, find_field, find_method, member_at};

/// The name of the class that declares the field that a reference names.
fn field_class<'a>(world: &'a World, reference: MemberReference<'_>) -> Option<&'a [u16]>
    ensures { option_map (λ name. name.now) result
        ≡ field_class world.now (reference_of reference.entry) }
{
    match find_field(world, reference) {
        Some(place) => Some(world.class(place.class).name.as_slice()),
        None => None,
    }
}

/// The name of the class that declares the method that a reference names.
fn method_class<'a>(world: &'a World, reference: MemberReference<'_>) -> Option<&'a [u16]>
    ensures { option_map (λ name. name.now) result
        ≡ method_class world.now (reference_of reference.entry) }
{
    match find_method(world, reference) {
        Some(place) => Some(world.class(place.class).name.as_slice()),
        None => None,
    }
}

/// The name of the class that declares what the entry at an index names, where that is a member
/// reference.
fn declaring_class<'a>(world: &'a World, pool: &[Const], index: u16) -> Option<&'a [u16]>
    ensures { option_map (λ name. name.now) result
        ≡ declaring_at world.now (pool_of pool.now) index }
{
    match pool.get(usize::from(index)) {
        Some(Const::Fieldref(_, _)) => field_class(world, member_at(pool, index)),
        Some(Const::Methodref(_, _) | Const::InterfaceMethodref(_, _)) => {
            method_class(world, member_at(pool, index))
        }
        _ => None,
    }
}

/// Adds the line of an entry: the class that it is of, its index, and the class that declares what
/// it names.
fn push_line(
    alloc: Global,
    text: &mut Bytes,
    class: &[u16],
    index: u16,
    declaring: &[u16],
) -> Result<(), NoMemory> {
    text.append(printed_units(alloc, class)?.as_slice())?;
    text.append(format!(in alloc; " {index} ")?.as_bytes())?;
    text.append(printed_units(alloc, declaring)?.as_slice())?;
    text.push(b'\n')
}

/// Adds the lines of a class.
fn push_members(
    alloc: Global,
    text: &mut Bytes,
    world: &World,
    class: &Loaded,
) -> Result<(), NoMemory> {
    let pool = class.file.pool.as_slice();
    for index in 0..pool.len() {
        let Ok(index) = u16::try_from(index) else {
            return Err(NoMemory);
        };
        if let Some(declaring) = declaring_class(world, pool, index) {
            push_line(alloc, text, name_of(class), index, declaring)?;
        }
    }
    Ok(())
}

/// A line for each member reference of the classes of a program, in their order, that names a
/// member.
pub fn member_lines(alloc: Global, world: &World) -> Result<Bytes, NoMemory> {
    let mut text = List::new(alloc);
    for class in 0..world.classes() {
        if let Origin::Program(class) = &world.class(ClassNo(class)).origin {
            push_members(alloc, &mut text, world, class)?;
        }
    }
    Ok(text)
}
