//! Walks upwards from superclass to superclass.

ghost use Rattle.std.specs.Prelude.{◌≡◌, ◌<◌, IfOk, bytes_eq, length, map};
ghost use Rattle.std.specs.List.{IsDistinct};
ghost use Rattle.world_model.specs.Supertypes.{chain};
ghost use Rattle.class_world.specs.World.{names_of, name_at, numbers_of};
ghost use Rattle.world_tables.specs.Tables.{chains_of};

use class_world::World;
use jv_types::{ClassNo, List, NoMemory};
use std::alloc::Global;

/// The class, its superclass, and so on upwards.
fn chain(alloc: Global, world: &World, class: ClassNo) -> Result<List<ClassNo>, NoMemory>
    requires apart { IsDistinct bytes_eq (names_of world.now) }
    requires inside { class.0 < length world.now.classes }
    ensures { IfOk result (λ order. order.items
        ≡ numbers_of world.now (chain world.now (name_at world.now class))) }
{
    let mut order = List::new(alloc);
    let mut next = Some(class);
    // No chain is longer, were a class above itself.
    for _ in 0..world.classes() {
        let Some(class) = next else {
            return Ok(order);
        };
        order.push(class)?;
        next = world.class(class).superclass;
    }
    Ok(order)
}

/// For each class, by number, the class, its superclass, and so on upwards. It fails only for want
/// of memory.
pub fn chains(alloc: Global, world: &World) -> Result<List<List<ClassNo>>, NoMemory>
    requires { IsDistinct bytes_eq (names_of world.now) }
    ensures { IfOk result (λ rows. map (λ row. row.items) rows.items ≡ chains_of world.now) }
{
    let mut rows = List::new(alloc);
    for class in 0..world.classes() {
        rows.push(chain(alloc, world, ClassNo(class))?)?;
    }
    Ok(rows)
}
