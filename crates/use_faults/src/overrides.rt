//! Final classes and methods above a class (JVMS 4.1, 4.6).

ghost use Rattle.std.specs.Prelude.{◌≡◌, ◌<◌, ◌==◌, ℕ, Some, length, option_map, slice_get, IfOk, OnOk, IfSome};
ghost use Rattle.std.specs.List.{list_any, IsDistinct};
ghost use Rattle.jv_model.specs.Partial.{first_of, passes};
ghost use Rattle.world_model.specs.World.{Class, user_classes};
ghost use Rattle.link_model.specs.WorldOf.{class_of};
ghost use Rattle.link_model.specs.SupertypeFaults as faults;
ghost use Rattle.link_model.specs.SupertypeFaults.{final_fault, is_final_class};
ghost use Rattle.jv_types.specs.ClassData.{member_of, pool_of};
ghost use Rattle.jv_types.specs.Loaded.{loaded_of};
ghost use Rattle.jv_types.specs.Refusal.{cause_of};
ghost use Rattle.use_faults.specs.Wrong.{IsKnown, final_fault_at, overrides_at};
ghost use Rattle.use_faults.specs.Finals.{AreFinalMethods, DeclareWith, DeclareUpwards, same_named, can_override_at, is_marked, has_mark};

use crate::classes::{class_flags, class_in, program_class};
use crate::final_methods::{FinalMethods, NameAndType, is_virtual};
use class_faults::{ACC_FINAL, has_flag, name_of};
use class_world::{World, class_name_at};
use jv_types::{Cause, ClassNo, Const, List, Loaded, Member, NoMemory, text_at};
use std::alloc::Global;

/// Adds a class that declares a final method itself.
fn push_declaring(
    classes: &mut List<ClassNo>,
    finals: &FinalMethods<'_>,
    class: ClassNo,
) -> Result<(), NoMemory>
    ensures { OnOk result (DeclareWith finals.now classes.old.items class classes.new.items) }
{
    if finals.declared_by(class).is_empty() {
        return Ok(());
    }
    classes.push(class)
}

/// The classes that declare a final method, from a class upwards.
fn declaring_upwards(
    alloc: Global,
    world: &World,
    finals: &FinalMethods<'_>,
    superclass: Option<ClassNo>,
) -> Result<List<ClassNo>, NoMemory>
    requires known { IfSome superclass (IsKnown world.now) }
    requires finals { AreFinalMethods world.now finals.now }
    ensures { IfOk result (λ classes.
        DeclareUpwards world.now finals.now superclass classes.items) }
{
    let mut classes = List::new(alloc);
    let mut next = superclass;
    for _ in 0..world.classes() {
        let Some(class) = next else {
            return Ok(classes);
        };
        push_declaring(&mut classes, finals, class)?;
        next = world.class(class).superclass;
    }
    Ok(classes)
}

/// The number of a method that can override, where it has one.
fn overriding_number(finals: &FinalMethods<'_>, pool: &[Const], method: &Member) -> Option<usize>
    requires { IsDistinct same_named finals.now.signatures.keys }
    ensures within { IfSome result (λ number. number < length finals.now.signatures.keys) }
    ensures number { (n : ℕ) → can_override_at finals.now.signatures.keys (pool_of pool.now) n
        (member_of method.now) ≡ passes (λ number. n == number) result }
{
    let name = text_at(pool, method.name);
    if !is_virtual(method.flags, name) {
        return None;
    }
    let descriptor = text_at(pool, method.descriptor);
    finals
        .signatures
        .get_index_of(&NameAndType { name, descriptor })
}

/// For each number whether one of some methods has it and can override.
fn marks_of(
    alloc: Global,
    finals: &FinalMethods<'_>,
    pool: &[Const],
    methods: &[Member],
) -> Result<Vec<bool>, NoMemory>
    ensures { IfOk result (λ marks. (number : ℕ) → is_marked marks.items number
        ≡ list_any (λ m. can_override_at finals.now.signatures.keys (pool_of pool.now) number
        (member_of m)) methods.now) }
{
    let mut marks = vec![in alloc; false; finals.signatures.len()]?;
    for method in methods {
        if let Some(number) = overriding_number(finals, pool, method) {
            marks[number] = true;
        }
    }
    Ok(marks)
}

/// Whether one of some numbers is marked.
fn is_one_marked(marks: &[bool], numbers: &[u32]) -> bool
    ensures { result ≡ list_any (is_marked marks.now) numbers.now }
{
    for number in numbers {
        if let Some(true) = marks.get(*number as usize) {
            return true;
        }
    }
    false
}

/// Whether one of some classes declares a final method whose number is marked.
fn declares_marked(finals: &FinalMethods<'_>, marks: &[bool], classes: &[ClassNo]) -> bool
    ensures { result ≡ list_any (has_mark finals.now.declared.items marks.now) classes.now }
{
    for class in classes {
        if is_one_marked(marks, finals.declared_by(*class)) {
            return true;
        }
    }
    false
}

/// Whether one of some methods overrides a final one of a class or above it. Where none is above,
/// the methods aren't looked at.
fn one_overrides_final(
    alloc: Global,
    world: &World,
    finals: &FinalMethods<'_>,
    superclass: Option<ClassNo>,
    pool: &[Const],
    methods: &[Member],
) -> Result<bool, NoMemory>
    requires known { IfSome superclass (IsKnown world.now) }
    requires finals { AreFinalMethods world.now finals.now }
    ensures { IfOk result (λ overrides. overrides
        ≡ list_any (λ m. overrides_at world.now superclass (pool_of pool.now) (member_of m))
        methods.now) }
{
    let classes = declaring_upwards(alloc, world, finals, superclass)?;
    if classes.is_empty() {
        return Ok(false);
    }
    let marks = marks_of(alloc, finals, pool, methods)?;
    Ok(declares_marked(finals, &marks, classes.as_slice()))
}

/// Whether a final class of that name is there.
fn names_final_class(world: &World, name: &[u16]) -> bool
    ensures { result ≡ is_final_class world.now name.now }
{
    match class_in(world, name) {
        Some(class) => has_flag(class_flags(class), ACC_FINAL),
        None => false,
    }
}

/// Whether the superclass of a class is final, or one of its methods overrides a final one.
fn breaks_final(
    alloc: Global,
    world: &World,
    finals: &FinalMethods<'_>,
    class: &Loaded,
) -> Result<bool, NoMemory>
    requires { AreFinalMethods world.now finals.now }
    ensures { IfOk result (λ breaks. breaks
        ≡ passes (faults.breaks_final world.now (class_of (loaded_of class.now)))
        (class_of (loaded_of class.now)).superclass) }
{
    let pool = class.file.pool.as_slice();
    let name = class_name_at(pool, class.file.super_class);
    if names_final_class(world, name) {
        return Ok(true);
    }
    let superclass = world.class_named(name);
    let methods = class.file.methods.as_slice();
    one_overrides_final(alloc, world, finals, superclass, pool, methods)
}

/// What is wrong with what is above a class.
fn final_fault(
    alloc: Global,
    world: &World,
    finals: &FinalMethods<'_>,
    class: &Loaded,
) -> Result<Option<Cause>, NoMemory>
    requires { AreFinalMethods world.now finals.now }
    ensures { IfOk result (λ fault.
        option_map cause_of fault ≡ final_fault world.now (class_of (loaded_of class.now))) }
{
    if !breaks_final(alloc, world, finals, class)? {
        return Ok(None);
    }
    Ok(Some(Cause::FinalOverride {
        class: List::from_slice(alloc, name_of(class))?,
    }))
}

/// What is wrong with what is above a class of the program, by the class's number.
fn final_fault_of(
    alloc: Global,
    world: &World,
    finals: &FinalMethods<'_>,
    class: u32,
) -> Result<Option<Cause>, NoMemory>
    requires class { class < length world.now.classes }
    requires finals { AreFinalMethods world.now finals.now }
    ensures { (c : Class) × (slice_get world.now.classes class ≡ Some c)
        × IfOk result (λ fault. option_map cause_of fault ≡ final_fault_at world.now c) }
{
    match program_class(world, class) {
        Some(loaded) => final_fault(alloc, world, finals, loaded),
        None => Ok(None),
    }
}

/// The first class of the program with a final superclass, or with a method that overrides a final
/// one above it. It fails only for want of memory.
pub fn first_final_override(alloc: Global, world: &World) -> Result<Option<Cause>, NoMemory>
    ensures { IfOk result (λ fault. option_map cause_of fault
        ≡ first_of (final_fault world.now) (user_classes world.now)) }
{
    let finals = FinalMethods::of(alloc, world)?;
    for class in 0..world.classes() {
        if let Some(fault) = final_fault_of(alloc, world, &finals, class)? {
            return Ok(Some(fault));
        }
    }
    Ok(None)
}
