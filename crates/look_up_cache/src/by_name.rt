//! Look-up of what an entry of a constant pool names.

ghost use Rattle.std.specs.Prelude.{◌≡◌, ◌+◌, ◌≤◌, Some, length, option_map};
ghost use Rattle.jv_model.specs.ConstantPool.{const_at};
ghost use Rattle.code_model.specs.Names.{class_name_at as class_name_in, member_of};
ghost use Rattle.world_model.specs.Resolution.{class_with_methods};
ghost use Rattle.world_model.specs.Supertypes.{field_order, method_order};
ghost use Rattle.jv_types.specs.ClassData.{pool_of};
ghost use Rattle.look_up_cache.specs.Found.{found_in};
ghost use Rattle.look_up_cache.specs.Targets.{named_target, most_steps, class_target, field_target, method_target};

use class_world::{FieldPlace, World, class_name_at};
use jv_types::{ClassNo, Const, MethodNo, Steps, text_at};
use std::sync::ledger::Ledger;

/// The class whose methods arrays have (JVMS 4.10.1.2), as units of UTF-16.
const OBJECT: [u16; 16] = [
    0x6a, 0x61, 0x76, 0x61, 0x2f, 0x6c, 0x61, 0x6e, 0x67, 0x2f, 0x4f, 0x62, 0x6a, 0x65, 0x63, 0x74,
];

/// With this unit the name of an array type begins (JVMS 4.3.2).
const ARRAY_UNIT: u16 = 0x5b;

/// A class, a field or a method of a world.
#[derive(Clone, Copy)]
pub enum Resolved {
    Class(ClassNo),
    Field(FieldPlace),
    Method(MethodNo),
}

/// The name of a member, as a constant pool has it.
#[derive(Clone, Copy)]
struct Member<'a> {
    class: &'a [u16],
    name: &'a [u16],
    descriptor: &'a [u16],
}

/// The member with that class, and with the name and the descriptor at an index (JVMS 4.4.6).
fn member_named<'a>(pool: &'a [Const], owner: u16, pair: u16) -> Member<'a>
    ensures class { result.class.now ≡ (member_of (pool_of pool.now)
        (class_name_in (pool_of pool.now) owner) (const_at (pool_of pool.now) pair)).class }
    ensures name { result.name.now ≡ (member_of (pool_of pool.now)
        (class_name_in (pool_of pool.now) owner) (const_at (pool_of pool.now) pair)).name }
    ensures descriptor { result.descriptor.now ≡ (member_of (pool_of pool.now)
        (class_name_in (pool_of pool.now) owner) (const_at (pool_of pool.now) pair)).descriptor }
{
    let class = class_name_at(pool, owner);
    match pool.get(usize::from(pair)) {
        Some(Const::NameAndType(name, descriptor)) => Member {
            class,
            name: text_at(pool, *name),
            descriptor: text_at(pool, *descriptor),
        },
        _ => Member {
            class,
            name: &[],
            descriptor: &[],
        },
    }
}

/// The class of a name.
fn look_up_class(world: &World, name: &[u16]) -> Option<Resolved>
    ensures { option_map (found_in world.now) result
        ≡ option_map Some (class_target world.now name.now) }
{
    Some(Resolved::Class(world.class_named(name)?))
}

/// The field of a name.
fn look_up_field<L: Ledger>(
    world: &World,
    member: &Member<'_>,
    steps: &mut Steps<L>,
) -> Option<Resolved>
    ensures found { option_map (found_in world.now) result ≡ option_map Some
        (field_target world.now (record {
          class = member.now.class.now;
          name = member.now.name.now;
          descriptor = member.now.descriptor.now;
        })) }
    ensures steps { steps.new
        ≤ steps.old + length (field_order world.now member.now.class.now) }
{
    let class = world.class_named(member.class)?;
    let place = world.field_named(class, member.name, member.descriptor, steps)?;
    Some(Resolved::Field(place))
}

/// The class in which the methods of a type are looked for, by its name.
fn class_with_methods(name: &[u16]) -> &[u16]
    ensures { result.now ≡ class_with_methods name.now }
{
    match name {
        [ARRAY_UNIT, ..] => &OBJECT,
        _ => name,
    }
}

/// The method of a name.
fn look_up_method<L: Ledger>(
    world: &World,
    member: &Member<'_>,
    steps: &mut Steps<L>,
) -> Option<Resolved>
    ensures found { option_map (found_in world.now) result ≡ option_map Some
        (method_target world.now (record {
          class = member.now.class.now;
          name = member.now.name.now;
          descriptor = member.now.descriptor.now;
        })) }
    ensures steps { steps.new
        ≤ steps.old + length (method_order world.now (class_with_methods member.now.class.now)) }
{
    let class = world.class_named(class_with_methods(member.class))?;
    let method = world.method_named(class, member.name, member.descriptor, steps)?;
    Some(Resolved::Method(method))
}

/// The class, the field or the method that the entry at an index names, where it's there.
pub fn look_up<L: Ledger>(
    world: &World,
    pool: &[Const],
    index: u16,
    steps: &mut Steps<L>,
) -> Option<Resolved>
    ensures found { option_map (found_in world.now) result
        ≡ option_map Some (named_target world.now (pool_of pool.now) index) }
    ensures steps { steps.new ≤ steps.old + most_steps world.now (pool_of pool.now) index }
{
    match pool.get(usize::from(index)) {
        Some(Const::Class(name)) => look_up_class(world, text_at(pool, *name)),
        Some(Const::Fieldref(owner, pair)) => {
            look_up_field(world, &member_named(pool, *owner, *pair), steps)
        }
        Some(Const::Methodref(owner, pair) | Const::InterfaceMethodref(owner, pair)) => {
            look_up_method(world, &member_named(pool, *owner, *pair), steps)
        }
        _ => None,
    }
}
