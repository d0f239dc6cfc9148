//! The types above a class, by number (JVMS 4.1).

ghost use Rattle.std.specs.Prelude.{◌≡◌, ◌<◌, ◌++◌, Some, length, map, flat_map, IfOk, IsTrue, OnOk};
ghost use Rattle.std.specs.List.{list_any};
ghost use Rattle.link_model.specs.SupertypeFaults.{is_cyclic as is_above_itself};
ghost use Rattle.class_graph.specs.Graph.{are_inside, leads_to};
ghost use Rattle.class_world.specs.World.{AreInfos, supertypes_of, world_of_infos, name_at, numbers_of, IsAcyclic};
ghost use Rattle.class_world.specs.Hierarchy.{interfaces_of, interfaces_at, chain_from, AreInherited};
ghost use Rattle.world_model.specs.Supertypes.{field_order as order_of_fields, method_order as order_of_methods};
ghost use Rattle.jv_types.specs.declared.number.ClassNo.{ClassNo};

use crate::class_info::ClassInfo;
use class_graph::{each_once, preorder};
use jv_types::{ClassNo, List, NoMemory};
use std::alloc::Global;

/// The numbers of a class's interfaces in order, and then that of its superclass.
fn supertypes_of(alloc: Global, class: &ClassInfo) -> Result<List<u32>, NoMemory>
    ensures { IfOk result (λ row. row.items ≡ supertypes_of class.now) }
{
    let mut row = List::new(alloc);
    for interface in class.interfaces.as_slice() {
        row.push(interface.0)?;
    }
    if let Some(superclass) = class.superclass {
        row.push(superclass.0)?;
    }
    Ok(row)
}

/// For each class, by number, the numbers of its interfaces and then of its superclass.
pub fn supertypes(alloc: Global, classes: &[ClassInfo]) -> Result<List<List<u32>>, NoMemory>
    ensures { IfOk result (λ rows.
        map (λ row. row.items) rows.items ≡ map supertypes_of classes.now) }
{
    let mut rows = List::new(alloc);
    for class in classes {
        rows.push(supertypes_of(alloc, class)?)?;
    }
    Ok(rows)
}

/// Whether one of some nodes leads to a node.
fn one_leads_to(graph: &[List<u32>], nodes: &[u32], last: u32) -> bool
    requires { IsTrue (are_inside (length graph.now) nodes.now) }
    ensures { result ≡ list_any (leads_to (map (λ row. row.items) graph.now) last) nodes.now }
{
    for node in nodes {
        if graph[*node as usize].as_slice().contains(&last) {
            return true;
        }
    }
    false
}

/// Some numbers as those of classes.
fn numbered(alloc: Global, numbers: &[u32]) -> Result<List<ClassNo>, NoMemory>
    ensures { IfOk result (λ classes. map (λ (c : ClassNo). c.0) classes.items ≡ numbers.now) }
{
    let mut classes = List::new(alloc);
    for number in numbers {
        classes.push(ClassNo(*number))?;
    }
    Ok(classes)
}

/// Whether a class is reached from itself by one step upwards or more. The graph is that of the
/// classes' supertypes. It fails only for want of memory.
pub fn is_cyclic(
    alloc: Global,
    classes: &[ClassInfo],
    graph: &[List<u32>],
    class: ClassNo,
) -> Result<bool, NoMemory>
    requires classes { AreInfos classes.now }
    requires graph { map (λ row. row.items) graph.now ≡ map supertypes_of classes.now }
    requires class { class.0 < length classes.now }
    ensures { IfOk result (λ cyclic. cyclic
        ≡ is_above_itself (world_of_infos classes.now)
        (name_at (world_of_infos classes.now) class)) }
{
    let nodes = preorder(alloc, graph, class.0)?;
    Ok(one_leads_to(graph, nodes.as_slice(), class.0))
}

/// The class and the types above it, each once, in the order in which a field is looked for (JVMS
/// 5.4.3.2), where no class is above itself. Those that a class names and that aren't there are
/// left out. The graph is that of the classes' supertypes. It fails only for want of memory.
pub fn field_order(
    alloc: Global,
    classes: &[ClassInfo],
    graph: &[List<u32>],
    class: ClassNo,
) -> Result<List<ClassNo>, NoMemory>
    requires classes { AreInfos classes.now }
    requires graph { map (λ row. row.items) graph.now ≡ map supertypes_of classes.now }
    requires class { class.0 < length classes.now }
    ensures { IfOk result (λ order. IsAcyclic (world_of_infos classes.now) → order.items
        ≡ numbers_of (world_of_infos classes.now)
        (order_of_fields (world_of_infos classes.now)
        (name_at (world_of_infos classes.now) class))) }
{
    let nodes = preorder(alloc, graph, class.0)?;
    let order = numbered(alloc, nodes.as_slice())?;
    Ok(order)
}

/// The numbers of a class, of its superclass, and so on upwards.
fn chain_of(alloc: Global, classes: &[ClassInfo], class: ClassNo) -> Result<List<u32>, NoMemory>
    requires classes { AreInfos classes.now }
    requires class { class.0 < length classes.now }
    ensures { IfOk result (λ numbers. numbers.items
        ≡ chain_from (length classes.now) classes.now (Some class)) }
{
    let mut numbers = List::new(alloc);
    let mut next = Some(class);
    for _ in 0..classes.len() {
        let Some(class) = next else {
            return Ok(numbers);
        };
        numbers.push(class.0)?;
        next = classes[class.0 as usize].superclass;
    }
    Ok(numbers)
}

/// Adds the numbers of a class's own interfaces.
fn push_interfaces(row: &mut List<u32>, class: &ClassInfo) -> Result<(), NoMemory>
    ensures { OnOk result (row.new.items ≡ row.old.items ++ interfaces_of class.now) }
{
    for interface in class.interfaces.as_slice() {
        row.push(interface.0)?;
    }
    Ok(())
}

/// The numbers of the interfaces of some classes.
fn interfaces_of_all(
    alloc: Global,
    classes: &[ClassInfo],
    numbers: &[u32],
) -> Result<List<u32>, NoMemory>
    requires { IsTrue (are_inside (length classes.now) numbers.now) }
    ensures { IfOk result (λ row. row.items ≡ flat_map (interfaces_at classes.now) numbers.now) }
{
    let mut row = List::new(alloc);
    for number in numbers {
        push_interfaces(&mut row, &classes[*number as usize])?;
    }
    Ok(row)
}

/// For each class, by number, the numbers of its interfaces, of those of its superclass, and so on
/// upwards.
pub fn inherited_interfaces(
    alloc: Global,
    classes: &[ClassInfo],
) -> Result<List<List<u32>>, NoMemory>
    requires { AreInfos classes.now }
    ensures { IfOk result (λ rows. AreInherited classes.now (map (λ row. row.items) rows.items)) }
{
    let mut rows = List::new(alloc);
    for number in 0..classes.len() {
        let Ok(number) = u32::try_from(number) else {
            return Err(NoMemory);
        };
        let chain = chain_of(alloc, classes, ClassNo(number))?;
        rows.push(interfaces_of_all(alloc, classes, chain.as_slice())?)?;
    }
    Ok(rows)
}

/// The class and the types above it, each once, in the order in which a method is looked for (JVMS
/// 5.4.3.3), where no class is above itself. Those that a class names and that aren't there are
/// left out. The graph is that of `inherited_interfaces`. It fails only for want of memory.
pub fn method_order(
    alloc: Global,
    classes: &[ClassInfo],
    inherited: &[List<u32>],
    class: ClassNo,
) -> Result<List<ClassNo>, NoMemory>
    requires classes { AreInfos classes.now }
    requires inherited { AreInherited classes.now (map (λ row. row.items) inherited.now) }
    requires class { class.0 < length classes.now }
    ensures { IfOk result (λ order. IsAcyclic (world_of_infos classes.now) → order.items
        ≡ numbers_of (world_of_infos classes.now)
        (order_of_methods (world_of_infos classes.now)
        (name_at (world_of_infos classes.now) class))) }
{
    let mut numbers = chain_of(alloc, classes, class)?;
    let interfaces = preorder(alloc, inherited, class.0)?;
    numbers.append(interfaces.as_slice())?;
    let once = each_once(alloc, numbers.as_slice())?;
    let order = numbered(alloc, once.as_slice())?;
    Ok(order)
}
