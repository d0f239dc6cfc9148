//! The laws of reach order.

ghost use Rattle.run_laws.specs.Laws.{ReachOrderLists, ReachableLists};

/// Reach order lists exactly what can be reached, each once.
pub fn reach_order_lists()
    ensures { ReachOrderLists }
{}

/// So do the reachable objects of a state in which each of them is there.
pub fn reachable_lists()
    ensures { ReachableLists }
{}
