//! The method with which a program starts.

ghost use Rattle.std.specs.Prelude.{◌≡◌, option_map};
ghost use Rattle.link_model.specs.Link.{main_fault};
ghost use Rattle.jv_types.specs.Refusal.{cause_of};

use crate::members::own_method_flags;
use class_faults::{ACC_STATIC, has_flag};
use class_world::World;
use jv_types::{Cause, Text};

/// `main`
const MAIN: [u16; 4] = [0x6d, 0x61, 0x69, 0x6e];

/// `([Ljava/lang/String;)V`
const OF_ARGUMENTS: [u16; 22] = [
    0x28, 0x5b, 0x4c, 0x6a, 0x61, 0x76, 0x61, 0x2f, 0x6c, 0x61, 0x6e, 0x67, 0x2f, 0x53, 0x74, 0x72,
    0x69, 0x6e, 0x67, 0x3b, 0x29, 0x56,
];

/// What is wrong with the main class: it isn't there, or it doesn't itself declare a static
/// `main([Ljava/lang/String;)V`.
pub fn main_fault(world: &World, main: &Text) -> Option<Cause>
    ensures { option_map cause_of result ≡ main_fault world.now main.now.items }
{
    let Some(class) = world.find_class(main) else {
        return Some(Cause::NoMain);
    };
    match own_method_flags(world, class, &MAIN, &OF_ARGUMENTS) {
        Some(flags) if has_flag(flags, ACC_STATIC) => None,
        _ => Some(Cause::NoMain),
    }
}
