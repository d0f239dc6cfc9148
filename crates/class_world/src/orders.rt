//! In which order the members of each class are looked for.

ghost use Rattle.std.specs.Prelude.{◌≡◌, map, IfOk};
ghost use Rattle.world_model.specs.Supertypes.{field_order as order_of_fields, method_order as order_of_methods};
ghost use Rattle.class_world.specs.World.{AreInfos, IsAcyclic, world_of_infos, orders_of};

use crate::class_info::ClassInfo;
use crate::hierarchy::{field_order, inherited_interfaces, method_order, supertypes};
use jv_types::{ClassNo, List, NoMemory};
use std::alloc::Global;

/// For each class the order in which its fields are looked for.
pub fn field_orders(alloc: Global, classes: &[ClassInfo]) -> Result<List<List<ClassNo>>, NoMemory>
    requires classes { AreInfos classes.now }
    requires acyclic { IsAcyclic (world_of_infos classes.now) }
    ensures { IfOk result (λ orders. map (λ order. order.items) orders.items
        ≡ orders_of (world_of_infos classes.now) (order_of_fields (world_of_infos classes.now))) }
{
    let graph = supertypes(alloc, classes)?;
    let mut orders = List::new(alloc);
    for number in 0..classes.len() {
        let Ok(number) = u32::try_from(number) else {
            return Err(NoMemory);
        };
        let order = field_order(alloc, classes, graph.as_slice(), ClassNo(number))?;
        orders.push(order)?;
    }
    Ok(orders)
}

/// For each class the order in which its methods are looked for.
pub fn method_orders(alloc: Global, classes: &[ClassInfo]) -> Result<List<List<ClassNo>>, NoMemory>
    requires classes { AreInfos classes.now }
    requires acyclic { IsAcyclic (world_of_infos classes.now) }
    ensures { IfOk result (λ orders. map (λ order. order.items) orders.items
        ≡ orders_of (world_of_infos classes.now) (order_of_methods (world_of_infos classes.now))) }
{
    let inherited = inherited_interfaces(alloc, classes)?;
    let mut orders = List::new(alloc);
    for number in 0..classes.len() {
        let Ok(number) = u32::try_from(number) else {
            return Err(NoMemory);
        };
        let order = method_order(alloc, classes, inherited.as_slice(), ClassNo(number))?;
        orders.push(order)?;
    }
    Ok(orders)
}
