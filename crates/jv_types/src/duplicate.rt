//! Copies of lists whose items own memory.

ghost use Rattle.std.specs.Prelude.{◌≡◌, map, IfOk};

use crate::list::List;
use crate::memory::NoMemory;
use std::alloc::Global;

/// What is copied in memory of its own.
pub trait Duplicate: Drop + Sized {
    /// The definitions' own values of this kind.
    ghost Meaning: { Type 0 };

    /// Which of them a value is.
    ghost meaning: { Self → Meaning };

    /// A value with the same meaning, unless there is no memory for it.
    fn copy(&self, alloc: Global) -> Result<Self, NoMemory>
        ensures { IfOk result (λ copy. meaning copy ≡ meaning self.now) };
}

/// A list of copies of the items, unless there is no memory for them.
pub fn copy_list<T: Duplicate>(alloc: Global, items: &List<T>) -> Result<List<T>, NoMemory>
    ensures { IfOk result (λ copies. map T.meaning copies.items ≡ map T.meaning items.now.items) }
{
    let mut copies = List::new(alloc);
    copies.reserve(items.len())?;
    for item in items.as_slice() {
        copies.push(item.copy(alloc)?)?;
    }
    Ok(copies)
}
