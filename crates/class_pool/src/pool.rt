//! What the indices of a constant pool name (JVMS 4.4).

ghost use Rattle.std.specs.Prelude.{◌≡◌};
ghost use Rattle.jv_model.specs.ConstantPool.{tag_of, const_at, names, names_one_of, is_named};
ghost use Rattle.jv_types.specs.ClassData.{pool_of};

use jv_types::{Const, List, is_text};

/// The tag of the entry at an index, or 0 where none is there.
fn tag_at(pool: &List<Const>, index: u16) -> u8
    ensures { result ≡ tag_of (const_at (pool_of pool.now.items) index) }
{
    match pool.as_slice().get(usize::from(index)) {
        Some(constant) => constant.tag(),
        None => 0,
    }
}

/// Whether the entry at an index has this tag.
pub fn names(pool: &List<Const>, tag: u8, index: u16) -> bool
    ensures { result ≡ names (pool_of pool.now.items) tag index }
{
    tag_at(pool, index) == tag
}

/// Whether it has one of these tags.
pub fn names_one_of(pool: &List<Const>, tags: &[u8], index: u16) -> bool
    ensures { result ≡ names_one_of (pool_of pool.now.items) tags.now index }
{
    let found = tag_at(pool, index);
    tags.iter().any(|tag| found == *tag)
}

/// Whether the entry at an index is this text, in ASCII.
pub fn is_named(pool: &List<Const>, text: &[u8], index: u16) -> bool
    ensures { result ≡ is_named (pool_of pool.now.items) text.now index }
{
    match pool.as_slice().get(usize::from(index)) {
        Some(Const::Utf8(units)) => is_text(units.as_slice(), text),
        _ => false,
    }
}
