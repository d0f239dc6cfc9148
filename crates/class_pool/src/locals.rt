//! The locals that a call of a method fills.

ghost use Rattle.std.specs.Prelude.{◌≡◌, ◌<◌, ◌≤◌, ◌^◌, ◌++◌, IfOk, OnOk, length};
ghost use Rattle.code_model.specs.FirstLocals.{first_locals, is_static, receiver_types};
ghost use Rattle.jv_types.specs.ClassData.{class_data_of, member_of};
ghost use Rattle.jv_types.specs.Code.{map_type_of, map_types_of};
ghost use Rattle.class_pool.specs.ParameterTypes.{type_of_kind, types_from};

use jv_types::{ClassData, List, MapType, Member, NoMemory, is_text, text_at};
use method_descriptors::{ParameterKind, parameter_kinds};
use std::alloc::Global;

/// Whether a method has no receiver.
fn is_static(member: &Member) -> bool
    ensures { result ≡ is_static (member_of member.now) }
{
    member.flags & 0x8 != 0
}

/// Adds the type of the receiver, where there is one.
fn push_receiver(
    types: &mut List<MapType>,
    class: &ClassData,
    member: &Member,
) -> Result<(), NoMemory>
    ensures { OnOk result (map_types_of types.new.items ≡ map_types_of types.old.items
        ++ receiver_types (class_data_of class.now) (member_of member.now)) }
{
    if is_static(member) {
        return Ok(());
    }
    if is_text(text_at(class.pool.as_slice(), member.name), b"<init>") {
        types.push(MapType::This)
    } else {
        types.push(MapType::Object(class.this_class))
    }
}

/// The type of the parameter with that number, in a frame.
fn parameter_type(number: u32, kind: ParameterKind) -> MapType
    requires { number < 2 ^ 16 }
    ensures { map_type_of result ≡ type_of_kind number kind }
{
    match kind {
        ParameterKind::Int => MapType::Int,
        ParameterKind::Long | ParameterKind::Double => MapType::Long,
        ParameterKind::Float => MapType::Top,
        ParameterKind::Reference => MapType::Argument(number as u16),
    }
}

/// Adds the types of parameters.
fn push_parameters(types: &mut List<MapType>, kinds: &[ParameterKind]) -> Result<(), NoMemory>
    requires { length kinds.now ≤ 255 }
    ensures { OnOk result (map_types_of types.new.items
        ≡ map_types_of types.old.items ++ types_from 0 kinds.now) }
{
    let mut number = 0;
    for kind in kinds {
        types.push(parameter_type(number, *kind))?;
        number += 1;
    }
    Ok(())
}

/// The locals that a call of the method fills, as frames keep them (JVMS 4.10.1.6).
pub fn first_locals(
    alloc: Global,
    class: &ClassData,
    member: &Member,
) -> Result<List<MapType>, NoMemory>
    ensures { IfOk result (λ types. map_types_of types.items
        ≡ first_locals (class_data_of class.now) (member_of member.now)) }
{
    let mut types = List::new(alloc);
    let descriptor = text_at(class.pool.as_slice(), member.descriptor);
    let Some(kinds) = parameter_kinds(alloc, descriptor)? else {
        return Ok(types);
    };
    push_receiver(&mut types, class, member)?;
    push_parameters(&mut types, kinds.as_slice())?;
    Ok(types)
}
