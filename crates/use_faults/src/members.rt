//! Members of the classes of a world: their flags, and what member references name (JVMS 5.4.3).

ghost use Rattle.std.specs.Prelude.{◌≡◌, ◌<◌, ℕ, List, Some, length, option_map, slice_get, IsSome};
ghost use Rattle.jv_model.specs.Partial.{passes};
ghost use Rattle.std.specs.Bool.{beq};
ghost use Rattle.world_model.specs.World.{Class, Field, Method, declared_method, is_interface as interface};
ghost use Rattle.world_model.specs.LookUp.{find_field as field_found, find_method as method_found};
ghost use Rattle.link_model.specs.UseFaults.{fits_field, fits_method, resolves_field, resolves_method, is_run_of_thread, is_class_where};
ghost use Rattle.class_world.specs.World.{class_of_origin, field_at, method_at, name_at};
ghost use Rattle.use_faults.specs.References.{reference_of};

use crate::classes::{class_in, is_interface, names_interface};
use crate::references::MemberReference;
use class_faults::{ACC_ABSTRACT, ACC_NATIVE, ACC_STATIC, has_flag};
use class_world::{ClassInfo, FieldPlace, Origin, World};
use jv_types::{ClassNo, MethodNo, Steps, is_text};
use std::marker::Brand;
use std::sync::ledger::{Blank, Ledger};

/// The flags of a class's field, by its index, where it's there.
fn field_flags(class: &ClassInfo, field: u32) -> Option<u16>
    ensures { (names : List (List ℕ)) → result
        ≡ option_map (λ (f : Field). f.flags)
        (slice_get (class_of_origin names class.now.origin).fields field) }
{
    match &class.origin {
        Origin::Boot(boot) => match boot.fields.as_slice().get(field as usize) {
            Some(field) => Some(if field.is_static { ACC_STATIC } else { 0 }),
            None => None,
        },
        Origin::Program(loaded) => match loaded.file.fields.as_slice().get(field as usize) {
            Some(field) => Some(field.flags),
            None => None,
        },
    }
}

/// The flags of a class's method, by its index, where it's there.
fn method_flags(class: &ClassInfo, method: u32) -> Option<u16>
    ensures { (names : List (List ℕ)) → result
        ≡ option_map (λ (m : Method). m.flags)
        (slice_get (class_of_origin names class.now.origin).methods method) }
{
    match &class.origin {
        Origin::Boot(boot) => match boot.methods.as_slice().get(method as usize) {
            Some(method) => {
                let kind = if method.is_native {
                    ACC_NATIVE
                } else {
                    ACC_ABSTRACT
                };
                Some(kind + if method.is_static { ACC_STATIC } else { 0 })
            }
            None => None,
        },
        Origin::Program(loaded) => match loaded.file.methods.as_slice().get(method as usize) {
            Some(method) => Some(method.flags),
            None => None,
        },
    }
}

/// The flags of the method that a class itself declares with a name and a descriptor.
pub fn own_method_flags(
    world: &World,
    class: ClassNo,
    name: &[u16],
    descriptor: &[u16],
) -> Option<u16>
    requires { class.0 < length world.now.classes }
    ensures { (c : Class) × (slice_get world.now.classes class.0 ≡ Some c)
        × (result ≡ option_map (λ (m : Method). m.flags)
        (declared_method name.now descriptor.now c)) }
{
    let method = world.own_method(class, name, descriptor)?;
    method_flags(world.class(class), method)
}

/// The field that a class has with a name and a descriptor, over a ledger of its steps.
fn counted_field<L: Ledger>(
    blank: Blank,
    world: &World,
    class: ClassNo,
    reference: MemberReference<'_>,
) -> Option<FieldPlace>
    requires name { blank.name ≡ L.name }
    requires parts { blank.parts ≡ L.parts }
    requires shared { 0 < blank.parts }
    requires class { class.0 < length world.now.classes }
    ensures { option_map (field_at world.now) result
        ≡ option_map Some (field_found world.now (name_at world.now class)
        reference.entry.name.now reference.entry.descriptor.now) }
{
    let mut steps = Steps::<L>::new(blank);
    world.field_named(class, reference.name, reference.descriptor, &mut steps)
}

/// The method that a class has with a name and a descriptor, over a ledger of its steps.
fn counted_method<L: Ledger>(
    blank: Blank,
    world: &World,
    class: ClassNo,
    reference: MemberReference<'_>,
) -> Option<MethodNo>
    requires name { blank.name ≡ L.name }
    requires parts { blank.parts ≡ L.parts }
    requires shared { 0 < blank.parts }
    requires class { class.0 < length world.now.classes }
    ensures { option_map (method_at world.now) result
        ≡ option_map Some (method_found world.now (name_at world.now class)
        reference.entry.name.now reference.entry.descriptor.now) }
{
    let mut steps = Steps::<L>::new(blank);
    world.method_named(class, reference.name, reference.descriptor, &mut steps)
}

/// The field that a reference names (JVMS 5.4.3.2), where its class is there and has it.
pub fn find_field(world: &World, reference: MemberReference<'_>) -> Option<FieldPlace>
    ensures { option_map (field_at world.now) result
        ≡ option_map Some (field_found world.now reference.entry.class.now
        reference.entry.name.now reference.entry.descriptor.now) }
{
    let class = world.class_named(reference.class)?;
    counted_field::<Brand>(Blank::new(1), world, class, reference)
}

/// The method that a reference names (JVMS 5.4.3.3, 5.4.3.4), where its class is there and has it.
pub fn find_method(world: &World, reference: MemberReference<'_>) -> Option<MethodNo>
    ensures { option_map (method_at world.now) result
        ≡ option_map Some (method_found world.now reference.entry.class.now
        reference.entry.name.now reference.entry.descriptor.now) }
{
    let class = world.class_named(reference.class)?;
    counted_method::<Brand>(Blank::new(1), world, class, reference)
}

/// Whether a field is static as asked, and no instance field of an interface.
fn fits_field(world: &World, is_static: bool, place: FieldPlace) -> bool
    requires { IsSome (field_at world.now place) }
    ensures { result ≡ passes (fits_field world.now is_static) (field_at world.now place) }
{
    let class = world.class(place.class);
    let Some(flags) = field_flags(class, place.index) else {
        return false;
    };
    has_flag(flags, ACC_STATIC) == is_static
        && (is_static || !names_interface(world, class.name.as_slice()))
}

/// Whether a reference names a field that is static as asked.
pub fn resolves_field(world: &World, is_static: bool, reference: MemberReference<'_>) -> bool
    ensures { result ≡ resolves_field world.now is_static (reference_of reference.entry) }
{
    match find_field(world, reference) {
        Some(place) => fits_field(world, is_static, place),
        None => false,
    }
}

/// Whether a reference is to `run()V` of Thread itself, which no reference means.
fn is_run_of_thread(reference: MemberReference<'_>) -> bool
    ensures { result ≡ is_run_of_thread (reference_of reference.entry) }
{
    is_text(reference.class, b"java/lang/Thread")
        && is_text(reference.name, b"run")
        && is_text(reference.descriptor, b"()V")
}

/// Whether a method is static as asked, and a constructor the named class's own.
fn fits_method(
    world: &World,
    is_static: bool,
    reference: MemberReference<'_>,
    place: MethodNo,
) -> bool
    requires { IsSome (method_at world.now place) }
    ensures { result
        ≡ passes (fits_method is_static (reference_of reference.entry)) (method_at world.now place) }
{
    let class = world.class(place.class);
    let Some(flags) = method_flags(class, place.index) else {
        return false;
    };
    has_flag(flags, ACC_STATIC) == is_static
        && (!is_text(reference.name, b"<init>") || class.name.as_slice() == reference.class)
}

/// Whether a class of that name is there, and is an interface as asked.
fn names_kind(world: &World, of_interface: bool, name: &[u16]) -> bool
    ensures { result
        ≡ is_class_where world.now (λ class. beq (interface class) of_interface) name.now }
{
    match class_in(world, name) {
        Some(class) => is_interface(class) == of_interface,
        None => false,
    }
}

/// Whether a reference, which is to an interface or not, names a method that is static as asked.
pub fn resolves_method(
    world: &World,
    of_interface: bool,
    is_static: bool,
    reference: MemberReference<'_>,
) -> bool
    ensures { result
        ≡ resolves_method world.now of_interface is_static (reference_of reference.entry) }
{
    if !names_kind(world, of_interface, reference.class) || is_run_of_thread(reference) {
        return false;
    }
    match find_method(world, reference) {
        Some(place) => fits_method(world, is_static, reference, place),
        None => false,
    }
}
