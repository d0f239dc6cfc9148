//! What indices of a constant pool name (JVMS 4.4).

ghost use Rattle.std.specs.Prelude.{◌≡◌, ◌&&◌, ℕ, List, bytes_eq};
ghost use Rattle.run_model.specs.MainCode.{has_signature, is_member, is_out, is_println};
ghost use Rattle.jv_model.specs.ConstantPool.{const_at};
ghost use Rattle.code_model.specs.Names.{class_name_at, member_of, operand_at};
ghost use Rattle.jv_types.specs.ClassData.{pool_of};

use jv_types::{Const, List, is_text, text_at};

/// The name of the class at an index, or none where no Class entry is there.
fn class_name_at(pool: &List<Const>, index: u16) -> &[u16]
    ensures { result.now ≡ class_name_at (pool_of pool.now.items) index }
{
    match pool.as_slice().get(usize::from(index)) {
        Some(Const::Class(name)) => text_at(pool.as_slice(), *name),
        _ => &[],
    }
}

/// The name of a member at the index of a NameAndType entry, or none where no such entry is there.
fn name_at(pool: &List<Const>, index: u16) -> &[u16]
    ensures { (class : _) → result.now
        ≡ (member_of (pool_of pool.now.items) class (const_at (pool_of pool.now.items) index)).name }
{
    match pool.as_slice().get(usize::from(index)) {
        Some(Const::NameAndType(name, _)) => text_at(pool.as_slice(), *name),
        _ => &[],
    }
}

/// The descriptor of that member.
fn descriptor_at(pool: &List<Const>, index: u16) -> &[u16]
    ensures { (class : _) → result.now
        ≡ (member_of (pool_of pool.now.items) class (const_at (pool_of pool.now.items) index)).descriptor }
{
    match pool.as_slice().get(usize::from(index)) {
        Some(Const::NameAndType(_, descriptor)) => text_at(pool.as_slice(), *descriptor),
        _ => &[],
    }
}

/// Whether a NameAndType entry has that name and that descriptor.
fn has_signature(pool: &List<Const>, index: u16, name: &[u8], descriptor: &[u8]) -> bool
    ensures { (class : _) → result ≡ has_signature name.now descriptor.now
        (member_of (pool_of pool.now.items) class (const_at (pool_of pool.now.items) index)) }
{
    is_text(name_at(pool, index), name) && is_text(descriptor_at(pool, index), descriptor)
}

/// Whether an index names the member of that class, name and descriptor.
#[tactic(auto, unfolding(code_model::specs::Names::operand_at))]
fn names_member(
    pool: &List<Const>,
    index: u16,
    class: &[u8],
    name: &[u8],
    descriptor: &[u8],
) -> bool
    ensures { result ≡ is_member class.now name.now descriptor.now
        (operand_at (pool_of pool.now.items) index) }
{
    match pool.as_slice().get(usize::from(index)) {
        Some(
            Const::Fieldref(owner, pair)
            | Const::Methodref(owner, pair)
            | Const::InterfaceMethodref(owner, pair),
        ) => {
            is_text(class_name_at(pool, *owner), class)
                && has_signature(pool, *pair, name, descriptor)
        }
        _ => false,
    }
}

/// Whether an index names `java/lang/System.out`.
pub(crate) fn names_out(pool: &List<Const>, index: u16) -> bool
    ensures { result ≡ is_out (operand_at (pool_of pool.now.items) index) }
{
    names_member(
        pool,
        index,
        b"java/lang/System",
        b"out",
        b"Ljava/io/PrintStream;",
    )
}

/// Whether an index names `println` of an int.
pub(crate) fn names_println(pool: &List<Const>, index: u16) -> bool
    ensures { result ≡ is_println (operand_at (pool_of pool.now.items) index) }
{
    names_member(pool, index, b"java/io/PrintStream", b"println", b"(I)V")
}
