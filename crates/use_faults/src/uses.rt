//! Used entries that name nothing, or something of the wrong kind (JVMS 4.9.1, 5.4.3).

ghost use Rattle.std.specs.Prelude.{◌≡◌, ◌<◌, ℕ, List, Some, true, map, option_map, flat_map, length, slice_get, IfOk};
ghost use Rattle.jv_model.specs.Partial.{first_of, least};
ghost use Rattle.world_model.specs.World.{Class, user_classes, loaded_classes};
ghost use Rattle.link_model.specs.Uses as model;
ghost use Rattle.link_model.specs.UseFaults as faults;
ghost use Rattle.link_model.specs.UseFaults.{is_class_where, fits_superclass, can_be_new, names_type, wrong_uses, use_fault};
ghost use Rattle.jv_types.specs.ClassData.{class_data_of, pool_of};
ghost use Rattle.jv_types.specs.Loaded.{loaded_of};
ghost use Rattle.jv_types.specs.Refusal.{cause_of};
ghost use Rattle.class_faults.specs.Uses.{use_of, HaveOneLeast};
ghost use Rattle.use_faults.specs.Wrong.{wrong_read, use_fault_at};

use crate::classes::{
    class_flags, class_in, is_interface, is_there, names_interface, program_class,
};
use crate::members::{resolves_field, resolves_method};
use crate::references::member_at;
use crate::types::{field_type_is_there, method_type_is_there};
use class_faults::{ACC_ABSTRACT, ACC_INTERFACE, Use, Used, has_flag, lesser, list_uses, name_of};
use class_pool::names;
use class_world::{World, class_name_at};
use indexmap::IndexSet;
use jv_types::{Cause, ClassData, List, Loaded, NoMemory, is_text, tag, text_at};
use std::alloc::Global;

const BRACKET: u16 = 0x5b;

/// Whether a name is that of a class that a class may have as its superclass.
fn names_superclass(world: &World, file: &ClassData, name: &[u16]) -> bool
    ensures { result ≡ is_class_where world.now (fits_superclass (class_data_of file.now)) name.now }
{
    let Some(class) = class_in(world, name) else {
        return false;
    };
    if has_flag(file.flags, ACC_INTERFACE) {
        is_text(name, b"java/lang/Object")
    } else {
        !is_interface(class)
    }
}

/// Whether a name is that of a class of which objects are made, or of an array type.
fn names_new(world: &World, name: &[u16]) -> bool
    ensures { result ≡ names_type world.now can_be_new name.now }
{
    if let [BRACKET, ..] = name {
        return field_type_is_there(world, name);
    }
    match class_in(world, name) {
        Some(class) => !is_interface(class) && !has_flag(class_flags(class), ACC_ABSTRACT),
        None => false,
    }
}

/// Whether a name is that of a class or of an array type.
fn names_reference_type(world: &World, name: &[u16]) -> bool
    ensures { result ≡ names_type world.now (λ class. true) name.now }
{
    if let [BRACKET, ..] = name {
        return field_type_is_there(world, name);
    }
    is_there(world, name)
}

/// Whether a used entry names what its use wants.
#[tactic(auto, unfolding(link_model::specs::UseFaults::resolves))]
fn resolves(alloc: Global, world: &World, file: &ClassData, used: Used) -> Result<bool, NoMemory>
    ensures { IfOk result (λ does. does
        ≡ faults.resolves world.now (class_data_of file.now) used.index (use_of used.use_as)) }
{
    let pool = file.pool.as_slice();
    let index = used.index;
    match used.use_as {
        Use::Superclass => Ok(names_superclass(world, file, class_name_at(pool, index))),
        Use::Interface => Ok(names_interface(world, class_name_at(pool, index))),
        Use::FieldDescriptor => Ok(field_type_is_there(world, text_at(pool, index))),
        Use::MethodDescriptor => method_type_is_there(alloc, world, text_at(pool, index)),
        Use::Field { is_static } => Ok(resolves_field(world, is_static, member_at(pool, index))),
        Use::Method { is_static } => {
            let of_interface = names(&file.pool, tag::INTERFACE_METHODREF, index);
            Ok(resolves_method(world, of_interface, is_static, member_at(pool, index)))
        }
        Use::New => Ok(names_new(world, class_name_at(pool, index))),
        Use::ReferenceType => Ok(names_reference_type(world, class_name_at(pool, index))),
    }
}

/// Uses, each once.
fn distinct_uses(alloc: Global, uses: &[Used]) -> Result<IndexSet<Used>, NoMemory>
    ensures { IfOk result (λ distinct. HaveOneLeast distinct.keys uses.now) }
{
    let mut distinct = IndexSet::new(alloc);
    for used in uses {
        let _ = distinct.insert(*used)?;
    }
    Ok(distinct)
}

/// The least index of an entry that doesn't name what its use wants.
fn least_wrong(
    alloc: Global,
    world: &World,
    file: &ClassData,
    uses: &[Used],
) -> Result<Option<u16>, NoMemory>
    ensures { IfOk result (λ wrong. wrong
        ≡ least (flat_map (wrong_read world.now (class_data_of file.now)) uses.now)) }
{
    let mut wrong = None;
    for used in uses {
        if !resolves(alloc, world, file, *used)? {
            wrong = Some(lesser(used.index, wrong));
        }
    }
    Ok(wrong)
}

/// The least index of an entry of which some use of a class is wrong.
fn wrong_use(alloc: Global, world: &World, class: &Loaded) -> Result<Option<u16>, NoMemory>
    ensures { IfOk result (λ wrong. wrong
        ≡ least (map (λ (u : model.Used). u.index) (wrong_uses world.now (loaded_of class.now)))) }
{
    let uses = list_uses(alloc, class)?;
    let distinct = distinct_uses(alloc, uses.as_slice())?;
    let wrong = least_wrong(alloc, world, &class.file, distinct.as_slice())?;
    Ok(wrong)
}

/// What is wrong with the entries that a class uses.
fn use_fault(alloc: Global, world: &World, class: &Loaded) -> Result<Option<Cause>, NoMemory>
    ensures { IfOk result (λ fault.
        option_map cause_of fault ≡ use_fault world.now (loaded_of class.now)) }
{
    let Some(index) = wrong_use(alloc, world, class)? else {
        return Ok(None);
    };
    Ok(Some(Cause::Unresolved {
        class: List::from_slice(alloc, name_of(class))?,
        index: u32::from(index),
    }))
}

/// What is wrong with the entries that a class of the program uses, by the class's number.
fn use_fault_of(alloc: Global, world: &World, class: u32) -> Result<Option<Cause>, NoMemory>
    requires { class < length world.now.classes }
    ensures { (c : Class) × (slice_get world.now.classes class ≡ Some c)
        × IfOk result (λ fault. option_map cause_of fault ≡ use_fault_at world.now c) }
{
    match program_class(world, class) {
        Some(loaded) => use_fault(alloc, world, loaded),
        None => Ok(None),
    }
}

/// The first class of the program that uses an entry that names nothing or something of the wrong
/// kind, and the least index of such an entry. It fails only for want of memory.
pub fn first_unresolved(alloc: Global, world: &World) -> Result<Option<Cause>, NoMemory>
    ensures { IfOk result (λ fault. option_map cause_of fault
        ≡ first_of (use_fault world.now) (loaded_classes (user_classes world.now))) }
{
    for class in 0..world.classes() {
        if let Some(fault) = use_fault_of(alloc, world, class)? {
            return Ok(Some(fault));
        }
    }
    Ok(None)
}
