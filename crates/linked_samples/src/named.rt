//! What a world has by name.

ghost use Rattle.std.specs.Prelude.{◌≡◌, ◌<◌, IfOk, IsSome, Some, length};
ghost use Rattle.jv_model.specs.Utf16.{units_of_utf8};
ghost use Rattle.class_world.specs.World.{method_at, number_of};
ghost use Rattle.world_model.specs.LookUp.{find_method as method_found};

use crate::error::SampleError;
use class_world::World;
use jv_types::text::units;
use jv_types::{ClassNo, MethodNo};
use std::alloc::Global;
use use_faults::{MemberReference, find_method};

/// The class of a name.
pub fn class_named(alloc: Global, world: &World, name: &str) -> Result<ClassNo, SampleError>
    ensures named { IfOk result (λ class.
        number_of world.now (units_of_utf8 name.now) ≡ Some class) }
    ensures there { IfOk result (λ class. class.0 < length world.now.classes) }
{
    let name = units(alloc, name)?;
    match world.find_class(&name) {
        Some(class) => Ok(class),
        None => Err(SampleError::Missing),
    }
}

/// The method that a class has with a name and a descriptor, its own or one from above it.
pub fn method_named(
    alloc: Global,
    world: &World,
    class: &str,
    name: &str,
    descriptor: &str,
) -> Result<MethodNo, SampleError>
    ensures found { IfOk result (λ method. method_at world.now method
        ≡ method_found world.now (units_of_utf8 class.now) (units_of_utf8 name.now)
        (units_of_utf8 descriptor.now)) }
    ensures there { IfOk result (λ method. IsSome (method_at world.now method)) }
{
    let class = units(alloc, class)?;
    let name = units(alloc, name)?;
    let descriptor = units(alloc, descriptor)?;
    let reference = MemberReference {
        class: class.as_slice(),
        name: name.as_slice(),
        descriptor: descriptor.as_slice(),
    };
    match find_method(world, reference) {
        Some(method) => Ok(method),
        None => Err(SampleError::Missing),
    }
}
