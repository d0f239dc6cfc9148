//! From what a search found to a table of its own.

ghost use Rattle.std.specs.Prelude.{◌≡◌, ◌-◌, ◌<◌, ◌≤◌, [], length, map, slice_get, slice_index, IfSome};
ghost use Rattle.std.specs.List.{All};
ghost use Rattle.row_heap.specs.Table.{table_words};
ghost use Rattle.row_heap.specs.Found.{IsFound};
ghost use Rattle.row_heap.specs.Forwards.{HasForwards, IsForwarded, copies, forwarded_root};

use crate::rows::Rows;
use crate::search::Search;
use heap_face::{Addr, Layouts, Roots};

/// Copies the found objects in their order to an empty table of the same size.
pub fn copy_found(from: &Rows, to: &mut Rows, layouts: &Layouts, search: &Search)
    requires found { IsFound from.now.objects search.now.order.items search.now.forwards.items }
    requires empty { to.old.objects ≡ [] }
    requires half { to.old.half ≡ from.now.half }
    requires words { table_words from.now.objects ≤ from.now.half }
    requires forwards { IsForwarded layouts.now from.now.objects search.now.order.items }
    ensures objects { to.new.objects ≡ copies layouts.now from.now.objects
        search.now.forwards.items search.now.order.items }
    ensures half { to.new.half ≡ to.old.half }
    ensures free { to.new.free ≡ to.old.free }
{
    for place in search.order.as_slice() {
        to.copy(from, *place, layouts, search.forwards.as_slice());
    }
}

/// Puts at each root the forward of its object.
pub fn forward_roots(roots: &mut Roots, forwards: &[u32])
    requires { All (λ root. (0 < root.0) × (root.0 - 1 < length forwards.now))
        roots.old.addrs.items }
    ensures roots { roots.new.addrs.items
        ≡ map (forwarded_root forwards.now) roots.old.addrs.items }
    ensures spare { roots.new.addrs.spare ≡ roots.old.addrs.spare }
{
    for at in 0..roots.addrs.len() {
        let root = roots.addrs.get(at).0;
        roots.addrs.set(at, Addr(forwards[(root - 1) as usize]));
    }
}
