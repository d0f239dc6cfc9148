//! Types of which the classes are there (JVMS 4.3).

ghost use Rattle.std.specs.Prelude.{◌≡◌, true, IfOk};
ghost use Rattle.std.specs.List.{list_all};
ghost use Rattle.jv_model.specs.Partial.{passes};
ghost use Rattle.code_model.specs.TypeReading.{field_type_of as type_spelled, method_type_of as method_spelled};
ghost use Rattle.link_model.specs.UseFaults as faults;
ghost use Rattle.descriptor_types.specs.Types.{field_type_of, method_type_of};

use crate::classes::is_there;
use class_world::World;
use descriptor_types::{ElementType, FieldType, MethodType, field_type, method_type};
use jv_types::NoMemory;
use std::alloc::Global;

/// Whether a type's class, where it has one, is there.
fn is_type_there(world: &World, field_type: FieldType<'_>) -> bool
    ensures { result ≡ faults.is_type_there world.now (field_type_of field_type.entry) }
{
    match field_type.element {
        ElementType::Class(name) => is_there(world, name),
        _ => true,
    }
}

/// Whether the classes of a method's types are there.
fn are_types_there(world: &World, method_type: &MethodType<'_>) -> bool
    ensures { result ≡ faults.are_types_there world.now (method_type_of method_type.now) }
{
    for parameter in method_type.parameters.as_slice() {
        if !is_type_there(world, *parameter) {
            return false;
        }
    }
    match method_type.result {
        Some(result) => is_type_there(world, result),
        None => true,
    }
}

/// Whether a text is a field descriptor of which the class is there.
pub fn field_type_is_there(world: &World, descriptor: &[u16]) -> bool
    ensures { result
        ≡ passes (faults.is_type_there world.now) (type_spelled descriptor.now) }
{
    match field_type(descriptor) {
        Some(field_type) => is_type_there(world, field_type),
        None => false,
    }
}

/// Whether a text is a method descriptor of which the classes are there.
pub fn method_type_is_there(
    alloc: Global,
    world: &World,
    descriptor: &[u16],
) -> Result<bool, NoMemory>
    ensures { IfOk result (λ there. there
        ≡ passes (faults.are_types_there world.now) (method_spelled descriptor.now)) }
{
    match method_type(alloc, descriptor)? {
        Some(method_type) => Ok(are_types_there(world, &method_type)),
        None => Ok(false),
    }
}
