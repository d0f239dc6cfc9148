//! What the indices of a constant pool name, as texts (JVMS 4.4).

ghost use Rattle.std.specs.Prelude.{◌≡◌, ◌<◌, bytes_eq, length, option_map};
ghost use Rattle.code_model.specs.Names.{class_name_at, operand_at, member_of as model_member_of};
ghost use Rattle.jv_model.specs.ConstantPool.{const_at};
ghost use Rattle.typing_model.specs.Environment.{class_of, member_of};
ghost use Rattle.jv_types.specs.ClassData.{pool_of};
ghost use Rattle.class_world.specs.World.{name_at};
ghost use Rattle.member_types.specs.Names.{reference_of};

use class_world::{World, class_name_at};
use jv_types::{ClassNo, Const, text_at};

/// A symbolic reference to a field or a method (JVMS 5.1).
#[derive(Clone, Copy)]
pub struct MemberName<'a> {
    pub class: &'a [u16],
    pub name: &'a [u16],
    pub descriptor: &'a [u16],
}

/// The class or array that an operand names, where it isn't a member or a constant.
#[tactic(auto, unfolding(code_model::specs::Names::operand_at))]
pub fn class_name(pool: &[Const], index: u16) -> Option<&[u16]>
    ensures { option_map (λ name. name.now) result
        ≡ class_of (operand_at (pool_of pool.now) index) }
{
    match pool.get(usize::from(index)) {
        Some(
            Const::Integer(_)
            | Const::Long(_)
            | Const::String(_)
            | Const::Fieldref(_, _)
            | Const::Methodref(_, _)
            | Const::InterfaceMethodref(_, _),
        ) => None,
        _ => Some(class_name_at(pool, index)),
    }
}

/// The member of a class that the NameAndType entry at an index names.
fn member_of_pair<'a>(pool: &'a [Const], class: &'a [u16], pair: u16) -> MemberName<'a>
    ensures { reference_of result
        ≡ model_member_of (pool_of pool.now) class.now (const_at (pool_of pool.now) pair) }
{
    match pool.get(usize::from(pair)) {
        Some(Const::NameAndType(name, descriptor)) => MemberName {
            class,
            name: text_at(pool, *name),
            descriptor: text_at(pool, *descriptor),
        },
        _ => MemberName {
            class,
            name: &[],
            descriptor: &[],
        },
    }
}

/// The member that an operand names, where it names one.
#[tactic(auto, unfolding(code_model::specs::Names::operand_at))]
pub fn member_name<'a>(pool: &'a [Const], index: u16) -> Option<MemberName<'a>>
    ensures { option_map reference_of result
        ≡ member_of (operand_at (pool_of pool.now) index) }
{
    match pool.get(usize::from(index)) {
        Some(
            Const::Fieldref(owner, pair)
            | Const::Methodref(owner, pair)
            | Const::InterfaceMethodref(owner, pair),
        ) => Some(member_of_pair(pool, class_name_at(pool, *owner), *pair)),
        _ => None,
    }
}

/// Whether a class has a name.
pub fn has_name(world: &World, class: ClassNo, name: &[u16]) -> bool
    requires { class.0 < length world.now.classes }
    ensures { result ≡ bytes_eq (name_at world.now class) name.now }
{
    world.class(class).name.as_slice() == name
}
