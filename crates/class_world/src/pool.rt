//! What the indices of a constant pool name (JVMS 4.4).

ghost use Rattle.std.specs.Prelude.{◌≡◌};
ghost use Rattle.code_model.specs.Names.{class_name_at};
ghost use Rattle.jv_types.specs.ClassData.{pool_of};

use jv_types::{Const, text_at};

/// The name in the Class entry at an index, or no text where no such entry is there.
pub fn class_name_at(pool: &[Const], index: u16) -> &[u16]
    ensures { result.now ≡ class_name_at (pool_of pool.now) index }
{
    match pool.get(usize::from(index)) {
        Some(Const::Class(name)) => text_at(pool, *name),
        _ => &[],
    }
}
