//! The classes of a program by number.

ghost use Rattle.std.specs.Prelude.{◌≡◌, ◌++◌, map, option_map, option_to_list, IfOk, OnOk};
ghost use Rattle.std.specs.List.{filter_map};
ghost use Rattle.code_model.specs.Names.{class_name_at};
ghost use Rattle.jv_types.specs.ClassData.{pool_of};
ghost use Rattle.jv_types.specs.Loaded.{loaded_of};
ghost use Rattle.class_world.specs.Parts.{parts_of};
ghost use Rattle.class_world.specs.World.{number_in};
ghost use Rattle.class_infos.specs.Numbered.{program_parts};

use crate::names::class_name;
use class_names::Names;
use class_world::{ClassInfo, Origin, class_name_at};
use jv_types::{ClassNo, Const, List, Loaded, NoMemory};
use std::alloc::Global;

/// Adds the number of a class, where it's there.
fn push_found(numbers: &mut List<ClassNo>, found: Option<u32>) -> Result<(), NoMemory>
    ensures { OnOk result (numbers.new.items ≡ numbers.old.items
        ++ option_to_list (option_map (λ n. record { 0 = n }) found)) }
{
    match found {
        Some(number) => numbers.push(ClassNo(number)),
        None => Ok(()),
    }
}

/// The numbers of those interfaces that are there.
fn interface_numbers(
    alloc: Global,
    names: &Names,
    pool: &[Const],
    interfaces: &[u16],
) -> Result<List<ClassNo>, NoMemory>
    ensures { IfOk result (λ numbers. numbers.items
        ≡ filter_map (number_in names.now)
        (map (class_name_at (pool_of pool.now)) interfaces.now)) }
{
    let mut numbers = List::new(alloc);
    for interface in interfaces {
        push_found(
            &mut numbers,
            names.number_of(class_name_at(pool, *interface)),
        )?;
    }
    Ok(numbers)
}

/// A class of the program, with a copy of how it was read.
fn program_info(alloc: Global, names: &Names, class: &Loaded) -> Result<ClassInfo, NoMemory>
    ensures { IfOk result (λ info.
        parts_of info ≡ program_parts names.now (loaded_of class.now)) }
{
    let pool = class.file.pool.as_slice();
    let superclass = names.number_of(class_name_at(pool, class.file.super_class));
    Ok(ClassInfo {
        name: List::from_slice(alloc, class_name(class))?,
        superclass: superclass.map(ClassNo),
        interfaces: interface_numbers(alloc, names, pool, class.file.interfaces.as_slice())?,
        origin: Origin::Program(class.copy(alloc)?),
    })
}

/// Adds the classes of a program.
pub fn push_programs(
    alloc: Global,
    infos: &mut List<ClassInfo>,
    names: &Names,
    classes: &[Loaded],
) -> Result<(), NoMemory>
    ensures { OnOk result (map parts_of infos.new.items ≡ map parts_of infos.old.items
        ++ map (program_parts names.now) (map loaded_of classes.now)) }
{
    for class in classes {
        infos.push(program_info(alloc, names, class)?)?;
    }
    Ok(())
}
