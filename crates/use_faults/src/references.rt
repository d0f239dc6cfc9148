//! Member references of a constant pool (JVMS 4.4.2).

ghost use Rattle.std.specs.Prelude.{◌≡◌};
ghost use Rattle.code_model.specs.Names.{member_at, member_of};
ghost use Rattle.jv_model.specs.ConstantPool.{const_at};
ghost use Rattle.jv_types.specs.ClassData.{pool_of};
ghost use Rattle.use_faults.specs.References.{reference_of};

use class_world::class_name_at;
use jv_types::{Const, text_at};

/// A field or a method, by the names that a class uses for it.
#[derive(Clone, Copy, Debug)]
pub struct MemberReference<'a> {
    pub class: &'a [u16],
    pub name: &'a [u16],
    pub descriptor: &'a [u16],
}

/// The member of a class with the name and the descriptor at an index.
fn member_of<'a>(pool: &'a [Const], class: &'a [u16], pair: u16) -> MemberReference<'a>
    ensures { reference_of result
        ≡ member_of (pool_of pool.now) class.now (const_at (pool_of pool.now) pair) }
{
    match pool.get(usize::from(pair)) {
        Some(Const::NameAndType(name, descriptor)) => MemberReference {
            class,
            name: text_at(pool, *name),
            descriptor: text_at(pool, *descriptor),
        },
        _ => MemberReference {
            class,
            name: &[],
            descriptor: &[],
        },
    }
}

/// The member reference at an index; where none is there, its names are empty.
pub fn member_at(pool: &[Const], index: u16) -> MemberReference<'_>
    ensures { reference_of result ≡ member_at (pool_of pool.now) index }
{
    match pool.get(usize::from(index)) {
        Some(
            Const::Fieldref(owner, pair)
            | Const::Methodref(owner, pair)
            | Const::InterfaceMethodref(owner, pair),
        ) => member_of(pool, class_name_at(pool, *owner), *pair),
        _ => MemberReference {
            class: &[],
            name: &[],
            descriptor: &[],
        },
    }
}
