//! The name of a class.

ghost use Rattle.std.specs.Prelude.{◌≡◌};
ghost use Rattle.code_model.specs.Names.{class_name_at};
ghost use Rattle.jv_types.specs.ClassData.{class_data_of};

use jv_types::{ClassData, Const, text_at};

/// The name of a class (JVMS 4.1), or none where its indices name none.
pub(crate) fn class_name(file: &ClassData) -> &[u16]
    ensures { result.now
        ≡ class_name_at (class_data_of file.now).pool (class_data_of file.now).this_class }
{
    match file.pool.as_slice().get(usize::from(file.this_class)) {
        Some(Const::Class(name)) => text_at(file.pool.as_slice(), *name),
        _ => &[],
    }
}
