//! A walk from a node on, each node before those to which it leads.

ghost use Rattle.std.specs.Prelude.{◌≡◌, ◌<◌, ◌++◌, [], length, map, IfOk, OnOk};
ghost use Rattle.class_graph.specs.Graph.{IsGraph, IsPreorder, once};

use indexmap::IndexSet;
use jv_types::{List, NoMemory, OperandStack};
use std::alloc::Global;

/// Puts nodes on a stack, the first one on top.
fn push_all(stack: &mut OperandStack<u32>, nodes: &[u32]) -> Result<(), NoMemory>
    ensures { OnOk result (stack.new ≡ nodes.now ++ stack.old) }
{
    let mut left = nodes.len();
    while left > 0 {
        left -= 1;
        stack.push(nodes[left])?;
    }
    Ok(())
}

/// The nodes that a node reaches, itself first, in the order in which a walk meets them that goes
/// from each node to its children in their order. Each row of the graph has the children of the
/// node with that number. It fails only for want of memory.
pub fn preorder(alloc: Global, graph: &[List<u32>], start: u32) -> Result<List<u32>, NoMemory>
    requires graph { IsGraph (map (λ children. children.items) graph.now) }
    requires start { start < length graph.now }
    ensures { IfOk result (λ nodes.
        IsPreorder (map (λ children. children.items) graph.now) start nodes.items) }
{
    let mut met = IndexSet::new(alloc);
    let mut stack = OperandStack::new(alloc);
    stack.push(start)?;
    while let Some(node) = stack.pop() {
        let (_, is_new) = met.insert_full(node)?;
        if is_new {
            push_all(&mut stack, graph[node as usize].as_slice())?;
        }
    }
    let nodes = List::from_slice(alloc, met.as_slice())?;
    Ok(nodes)
}

/// Some numbers, each where it first stands. It fails only for want of memory.
pub fn each_once(alloc: Global, numbers: &[u32]) -> Result<List<u32>, NoMemory>
    ensures { IfOk result (λ list. list.items ≡ once [] numbers.now) }
{
    let mut met = IndexSet::new(alloc);
    for number in numbers {
        let _ = met.insert(*number)?;
    }
    let list = List::from_slice(alloc, met.as_slice())?;
    Ok(list)
}
