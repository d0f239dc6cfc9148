//! Classes of a world by their names, and their flags (JVMS table 4.1-B).

ghost use Rattle.std.specs.Prelude.{◌≡◌, ◌<◌, ℕ, List, Bool, Some, true, false, length, option_map, slice_get, MatchOption};
ghost use Rattle.world_model.specs.World.{Class, class_in, is_interface, is_user};
ghost use Rattle.link_model.specs.WorldOf as linking;
ghost use Rattle.link_model.specs.UseFaults.{is_class_where};
ghost use Rattle.jv_types.specs.Loaded.{loaded_of};
ghost use Rattle.class_world.specs.World.{names_of, class_of_origin};

use class_faults::{ACC_ABSTRACT, ACC_FINAL, ACC_INTERFACE, has_flag};
use class_world::{ClassInfo, Origin, World};
use jv_types::{ClassNo, Loaded};

/// The class of a name, where it's there.
pub fn class_in<'a>(world: &'a World, name: &[u16]) -> Option<&'a ClassInfo>
    ensures { option_map (λ info. class_of_origin (names_of world.now) info.now.origin) result
        ≡ class_in world.now name.now }
{
    let class = world.class_named(name)?;
    Some(world.class(class))
}

/// A class's flags, as far as a class that every program finds there has them.
pub fn class_flags(class: &ClassInfo) -> u16
    ensures { (names : List (List ℕ)) → result ≡ (class_of_origin names class.now.origin).flags }
{
    match &class.origin {
        Origin::Boot(boot) => {
            let interface = if boot.is_interface {
                ACC_INTERFACE + ACC_ABSTRACT
            } else {
                0
            };
            let last = if boot.is_final { ACC_FINAL } else { 0 };
            interface + last
        }
        Origin::Program(loaded) => loaded.file.flags,
    }
}

/// Whether a class is an interface.
pub fn is_interface(class: &ClassInfo) -> bool
    ensures { (names : List (List ℕ)) →
        result ≡ is_interface (class_of_origin names class.now.origin) }
{
    has_flag(class_flags(class), ACC_INTERFACE)
}

/// Whether a class of that name is there.
pub fn is_there(world: &World, name: &[u16]) -> bool
    ensures { result ≡ is_class_where world.now (λ class. true) name.now }
{
    class_in(world, name).is_some()
}

/// Whether an interface of that name is there.
pub fn names_interface(world: &World, name: &[u16]) -> bool
    ensures { result ≡ is_class_where world.now is_interface name.now }
{
    match class_in(world, name) {
        Some(class) => is_interface(class),
        None => false,
    }
}

/// A class of the program as it was read, by its number.
pub fn program_class(world: &World, class: u32) -> Option<&Loaded>
    requires { class < length world.now.classes }
    ensures { (c : Class) × (slice_get world.now.classes class ≡ Some c)
        × MatchOption result (is_user c ≡ false)
        (λ loaded. c ≡ linking.class_of (loaded_of loaded.now)) }
{
    match &world.class(ClassNo(class)).origin {
        Origin::Boot(_) => None,
        Origin::Program(loaded) => Some(loaded),
    }
}
