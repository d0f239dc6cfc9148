//! What is wrong with the classes of a program, test by test.

ghost use Rattle.std.specs.Prelude.{◌≡◌, map, option_map, IfOk};
ghost use Rattle.jv_types.specs.Loaded.{loaded_of};
ghost use Rattle.jv_types.specs.Refusal.{cause_of};
ghost use Rattle.class_linker.specs.Linking.{own_fault, use_fault_of};

use class_faults::{first_reserved, first_wrong_descriptor, first_wrong_method};
use class_infos::first_twice;
use class_world::World;
use jv_types::{Cause, Loaded, NoMemory, Text};
use std::alloc::Global;
use use_faults::{first_final_override, first_unresolved, main_fault};

/// What is wrong first with classes by themselves: a name that is kept, what stands twice, a
/// descriptor, or the kind of a method.
pub fn first_own_fault(alloc: Global, classes: &[Loaded]) -> Result<Option<Cause>, NoMemory>
    ensures { IfOk result (λ fault.
        option_map cause_of fault ≡ own_fault (map loaded_of classes.now)) }
{
    if let Some(cause) = first_reserved(alloc, classes)? {
        return Ok(Some(cause));
    }
    if let Some(cause) = first_twice(alloc, classes)? {
        return Ok(Some(cause));
    }
    if let Some(cause) = first_wrong_descriptor(alloc, classes)? {
        return Ok(Some(cause));
    }
    first_wrong_method(alloc, classes)
}

/// What is wrong first with the classes of a world: an entry that names nothing that fits its use,
/// what is final, or the main class last.
pub fn first_use_fault(alloc: Global, world: &World, main: &Text) -> Result<Option<Cause>, NoMemory>
    ensures { IfOk result (λ fault.
        option_map cause_of fault ≡ use_fault_of world.now main.now.items) }
{
    if let Some(cause) = first_unresolved(alloc, world)? {
        return Ok(Some(cause));
    }
    if let Some(cause) = first_final_override(alloc, world)? {
        return Ok(Some(cause));
    }
    Ok(main_fault(world, main))
}
