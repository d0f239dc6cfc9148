//! The names of classes (JVMS 4.4.1).

ghost use Rattle.std.specs.Prelude.{◌≡◌};
ghost use Rattle.link_model.specs.WorldOf.{name_of};
ghost use Rattle.jv_types.specs.Loaded.{loaded_of};

use class_world::class_name_at;
use jv_types::Loaded;

/// The name of a class.
pub fn name_of(class: &Loaded) -> &[u16]
    ensures { result.now ≡ name_of (loaded_of class.now) }
{
    class_name_at(class.file.pool.as_slice(), class.file.this_class)
}
