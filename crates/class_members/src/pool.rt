//! What the indices of a constant pool name (JVMS 4.4).

ghost use Rattle.std.specs.Prelude.{◌≡◌};
ghost use Rattle.jv_model.specs.ConstantPool.{is_named};
ghost use Rattle.jv_types.specs.ClassData.{pool_of};

use jv_types::{Const, is_text};

/// Whether the entry at an index is this text, in ASCII.
pub fn is_named(pool: &[Const], text: &[u8], index: u16) -> bool
    ensures { result ≡ is_named (pool_of pool.now) text.now index }
{
    match pool.get(usize::from(index)) {
        Some(Const::Utf8(units)) => is_text(units.as_slice(), text),
        _ => false,
    }
}
