//! The final methods that the classes of a world declare (JVMS 4.6), by number, so that a method is
//! compared with those above its class without a look-up in each class.

ghost use Rattle.std.specs.Prelude.{◌≡◌, ◌<◌, ◌&&◌, Some, not, length, slice_get, IfOk, OnOk};
ghost use Rattle.world_model.specs.World.{Class, has_flag, acc_static, acc_private};
ghost use Rattle.world_model.specs.BootNames.{is_constructor_name};
ghost use Rattle.link_model.specs.WorldOf.{class_of};
ghost use Rattle.jv_types.specs.ClassData.{member_of, pool_of};
ghost use Rattle.jv_types.specs.Loaded.{loaded_of};
ghost use Rattle.use_faults.specs.Wrong.{declares_final};
ghost use Rattle.use_faults.specs.Finals.{Grows, IsNumberOf, AreFinals, AddsFinal, AreFinalMethods, numbers_at};

use crate::members::own_method_flags;
use class_faults::{ACC_FINAL, ACC_PRIVATE, ACC_STATIC, has_flag};
use class_world::{Origin, World};
use indexmap::IndexSet;
use jv_types::{ClassNo, Const, List, Loaded, Member, NoMemory, is_text, text_at};
use std::alloc::Global;

/// What methods that override each other have in common (JVMS 5.4.5).
#[derive(Clone, Copy, Debug, PartialEq, Eq, Hash)]
pub struct NameAndType<'a> {
    pub name: &'a [u16],
    pub descriptor: &'a [u16],
}

/// The final methods of a world.
#[derive(Drop)]
pub struct FinalMethods<'a> {
    /// Their names and descriptors, each once. The number of one is its place here.
    pub signatures: IndexSet<NameAndType<'a>>,
    /// For each class the numbers of those that it declares itself.
    pub declared: List<List<u32>>,
}

/// Whether a method of these flags and this name can override and be overridden.
pub fn is_virtual(flags: u16, name: &[u16]) -> bool
    ensures { result ≡ (not (has_flag acc_static flags) && not (has_flag acc_private flags)
        && not (is_constructor_name name.now)) }
{
    !has_flag(flags, ACC_STATIC) && !has_flag(flags, ACC_PRIVATE) && !is_text(name, b"<init>")
}

/// Whether a class itself declares a final method with a name and a descriptor.
fn declares_final(world: &World, class: ClassNo, name: &[u16], descriptor: &[u16]) -> bool
    requires { class.0 < length world.now.classes }
    ensures { (c : Class) × (slice_get world.now.classes class.0 ≡ Some c)
        × (result ≡ declares_final name.now descriptor.now c) }
{
    match own_method_flags(world, class, name, descriptor) {
        Some(flags) => is_virtual(flags, name) && has_flag(flags, ACC_FINAL),
        None => false,
    }
}

/// The number of a name and a descriptor among some, to which they are added where they weren't.
fn number_of<'a>(
    signatures: &mut IndexSet<NameAndType<'a>>,
    signature: NameAndType<'a>,
) -> Result<u32, NoMemory>
    ensures grows { OnOk result (Grows signatures.old.keys signatures.new.keys) }
    ensures inside { IfOk result (λ number. number < length signatures.new.keys) }
    ensures number { IfOk result (IsNumberOf signatures.new.keys signature.entry) }
{
    let (number, _) = signatures.insert_full(signature)?;
    match u32::try_from(number) {
        Ok(number) => Ok(number),
        Err(_) => Err(NoMemory),
    }
}

/// Adds the number of a method, where its class declares it as a final one.
fn push_final<'a>(
    signatures: &mut IndexSet<NameAndType<'a>>,
    numbers: &mut List<u32>,
    world: &World,
    class: ClassNo,
    pool: &'a [Const],
    method: &Member,
) -> Result<(), NoMemory>
    requires { class.0 < length world.now.classes }
    ensures { OnOk result ((c : Class) × (slice_get world.now.classes class.0 ≡ Some c)
        × AddsFinal c (pool_of pool.now) (member_of method.now)
        signatures.old.keys numbers.old.items signatures.new.keys numbers.new.items) }
{
    let name = text_at(pool, method.name);
    let descriptor = text_at(pool, method.descriptor);
    if !has_flag(method.flags, ACC_FINAL) || !declares_final(world, class, name, descriptor) {
        return Ok(());
    }
    let number = number_of(signatures, NameAndType { name, descriptor })?;
    numbers.push(number)?;
    Ok(())
}

/// The numbers of the final methods that a class of the program declares itself.
fn numbers_of<'a>(
    alloc: Global,
    signatures: &mut IndexSet<NameAndType<'a>>,
    world: &World,
    class: ClassNo,
    loaded: &'a Loaded,
) -> Result<List<u32>, NoMemory>
    requires { slice_get world.now.classes class.0 ≡ Some (class_of (loaded_of loaded.now)) }
    ensures grows { OnOk result (Grows signatures.old.keys signatures.new.keys) }
    ensures numbers { IfOk result (λ numbers.
        AreFinals signatures.new.keys (class_of (loaded_of loaded.now)) numbers.items) }
{
    let pool = loaded.file.pool.as_slice();
    let mut numbers = List::new(alloc);
    for method in loaded.file.methods.as_slice() {
        push_final(signatures, &mut numbers, world, class, pool, method)?;
    }
    Ok(numbers)
}

/// The numbers of the final methods that a class declares itself.
fn numbers_at<'a>(
    alloc: Global,
    signatures: &mut IndexSet<NameAndType<'a>>,
    world: &'a World,
    class: ClassNo,
) -> Result<List<u32>, NoMemory>
    requires { class.0 < length world.now.classes }
    ensures grows { OnOk result (Grows signatures.old.keys signatures.new.keys) }
    ensures numbers { IfOk result (λ numbers. (c : Class)
        × (slice_get world.now.classes class.0 ≡ Some c)
        × AreFinals signatures.new.keys c numbers.items) }
{
    match &world.class(class).origin {
        // None of them declares a final method.
        Origin::Boot(_) => Ok(List::new(alloc)),
        Origin::Program(loaded) => numbers_of(alloc, signatures, world, class, loaded),
    }
}

impl<'a> FinalMethods<'a> {
    /// The final methods of a world's classes. It fails only for want of memory.
    pub fn of(alloc: Global, world: &'a World) -> Result<FinalMethods<'a>, NoMemory>
        ensures { IfOk result (AreFinalMethods world.now) }
    {
        let mut signatures = IndexSet::new(alloc);
        let mut declared = List::new(alloc);
        for class in 0..world.classes() {
            declared.push(numbers_at(alloc, &mut signatures, world, ClassNo(class))?)?;
        }
        Ok(FinalMethods {
            signatures,
            declared,
        })
    }

    /// The numbers of those that a class declares itself.
    pub fn declared_by(&self, class: ClassNo) -> &[u32]
        ensures { result.now ≡ numbers_at self.now.declared.items class.0 }
    {
        match self.declared.as_slice().get(class.0 as usize) {
            Some(numbers) => numbers.as_slice(),
            None => &[],
        }
    }
}
