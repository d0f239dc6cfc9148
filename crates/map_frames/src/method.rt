//! The code of a method, and the types of its descriptor.

ghost use Rattle.std.specs.Prelude.{◌≡◌, true, IfOk};
ghost use Rattle.jv_model.specs.Partial.{passes};
ghost use Rattle.code_model.specs.TypeReading.{method_type_of};
ghost use Rattle.link_model.specs.UseFaults.{are_types_there};
ghost use Rattle.map_frames.specs.Methods.{IsMethodType};

use class_world::World;
use jv_types::{CodeBody, Const, NoMemory};
use numbered_types::{MethodType, method_type};
use std::alloc::Global;
use type_rules::FieldType;

/// What the frames of a method are made from, beside its class.
#[derive(Clone, Copy)]
pub struct MethodCode<'a> {
    /// The constant pool of the class.
    pub pool: &'a [Const],
    pub body: &'a CodeBody,
    pub is_static: bool,
    /// The types of the parameters, without the receiver.
    pub parameters: &'a [FieldType],
}

/// The types of a method whose descriptor is well formed, and the classes in it there.
pub fn method_types(
    alloc: Global,
    world: &World,
    descriptor: &[u16],
) -> Result<MethodType, NoMemory>
    requires { passes (are_types_there world.now) (method_type_of descriptor.now) ≡ true }
    ensures { IfOk result (λ types. IsMethodType world.now descriptor.now types) }
{
    Ok(method_type(alloc, world, descriptor)?.unwrap())
}
