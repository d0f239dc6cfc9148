//! What the rules ask of a class of a world.

ghost use Rattle.std.specs.Prelude.{◌≡◌, ◌||◌, bytes_eq, codes};
ghost use Rattle.class_world.specs.World.{name_at};
ghost use Rattle.typing_model.specs.Assignable.{class_assignable as is_class_assignable, names_interface};
ghost use Rattle.type_rules.specs.Types.{IsKnown};

use class_world::{ClassInfo, Origin, World};
use jv_types::{ClassNo, Steps, is_text};
use std::sync::ledger::Ledger;

/// Access flag of an interface (JVMS table 4.1-A).
const ACC_INTERFACE: u16 = 0x0200;

/// Whether a class has a name, in ASCII.
pub fn has_name(world: &World, class: ClassNo, name: &[u8]) -> bool
    requires { IsKnown world.now class }
    ensures { result ≡ bytes_eq (name_at world.now class) name.now }
{
    is_text(world.class(class).name.as_slice(), name)
}

/// Whether a class is an interface.
pub fn is_interface(world: &World, class: ClassNo) -> bool
    requires { IsKnown world.now class }
    ensures { result ≡ names_interface world.now (name_at world.now class) }
{
    match &world.class(class).origin {
        Origin::Boot(class) => class.is_interface,
        Origin::Program(loaded) => loaded.file.flags & ACC_INTERFACE != 0,
    }
}

/// Whether objects of a class go where those of another are wanted: to a superclass, and to any
/// interface. Each class looked at is a step.
pub fn class_assignable<L: Ledger>(
    world: &World,
    from: ClassNo,
    to: ClassNo,
    steps: &mut Steps<L>,
) -> bool
    requires from { IsKnown world.now from }
    requires to { IsKnown world.now to }
    ensures { result
        ≡ is_class_assignable world.now (name_at world.now from) (name_at world.now to) }
{
    is_interface(world, to) || world.is_sub(from, to, steps)
}
