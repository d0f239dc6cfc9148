//! Classes that are above themselves (JVMS 4.1).

ghost use Rattle.std.specs.Prelude.{◌≡◌, ◌<◌, length, map, option_map, slice_get, IfOk};
ghost use Rattle.jv_model.specs.Partial.{first_of};
ghost use Rattle.link_model.specs.SupertypeFaults.{cycle_fault};
ghost use Rattle.world_model.specs.World.{user_classes};
ghost use Rattle.jv_types.specs.Refusal.{cause_of};
ghost use Rattle.class_world.specs.World.{AreInfos, world_of_infos, supertypes_of};
ghost use Rattle.class_infos.specs.Numbered.{fault_at};

use class_world::{ClassInfo, Origin, is_cyclic, supertypes};
use jv_types::{Cause, ClassNo, List, NoMemory};
use std::alloc::Global;

/// What is wrong with the types above a class, where it is one of the program's.
fn fault_at(
    alloc: Global,
    classes: &[ClassInfo],
    graph: &[List<u32>],
    class: ClassNo,
) -> Result<Option<Cause>, NoMemory>
    requires classes { AreInfos classes.now }
    requires graph { map (λ row. row.items) graph.now ≡ map supertypes_of classes.now }
    requires class { class.0 < length classes.now }
    ensures { IfOk result (λ fault. option_map cause_of fault
        ≡ fault_at (world_of_infos classes.now) class.0) }
{
    let info = &classes[class.0 as usize];
    match info.origin {
        Origin::Boot(_) => Ok(None),
        Origin::Program(_) => {
            if is_cyclic(alloc, classes, graph, class)? {
                let class = info.name.copy(alloc)?;
                return Ok(Some(Cause::Cycle { class }));
            }
            Ok(None)
        }
    }
}

/// The first of the program's classes that is reached from itself by one step upwards or more. It
/// fails only for want of memory.
pub fn first_cycle(alloc: Global, classes: &[ClassInfo]) -> Result<Option<Cause>, NoMemory>
    requires { AreInfos classes.now }
    ensures { IfOk result (λ fault. option_map cause_of fault
        ≡ first_of (cycle_fault (world_of_infos classes.now))
        (user_classes (world_of_infos classes.now))) }
{
    let graph = supertypes(alloc, classes)?;
    for number in 0..classes.len() {
        let Ok(number) = u32::try_from(number) else {
            return Err(NoMemory);
        };
        if let Some(fault) = fault_at(alloc, classes, graph.as_slice(), ClassNo(number))? {
            return Ok(Some(fault));
        }
    }
    Ok(None)
}
