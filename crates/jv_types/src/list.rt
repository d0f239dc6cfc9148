//! A list with room that is reserved beforehand.

ghost use Rattle.std.specs.Prelude.{◌≡◌, ◌+◌, ◌-◌, ◌<◌, ◌≤◌, ◌++◌, ◌∷◌, [], ◌==◌, length, vec_len, take, reverse, slice_get, slice_set, IsOk, IfOk, OnOk, OnErr, Some};
ghost use Rattle.jv_types.specs.Sequence.{most_items};

use crate::memory::NoMemory;
use std::alloc::Global;
use std::marker::Model;

/// The most items that a list holds, so that each of them has an index of 32 bits.
pub const MOST_ITEMS: usize = 0xffff_ffff;

/// A list. Contracts see its items, and as `spare` how many more it takes without asking for
/// memory.
#[derive(Debug, Drop)]
pub struct List<T> {
    rows: Vec<T>,
}

impl<T> Model for List<T> {
    ghost use Rattle.std.specs.Prelude.{◌-◌, ◌≤◌, min, vec_len, vec_capacity};
    ghost use Rattle.jv_types.specs.Sequence.{Sequence, most_items};

    ghost Value = { Sequence T };

    ghost view = { λ it. record {
      items = it.rows.items;
      spare = min (vec_capacity it.rows) most_items - vec_len it.rows;
    } };

    ghost invariant = { λ it. vec_len it.rows ≤ most_items };
}

impl<T> List<T> {
    /// An empty list, which takes no memory.
    pub fn new(alloc: Global) -> List<T>
        ensures { result.items ≡ [] }
    {
        List {
            rows: Vec::new(alloc),
        }
    }

    /// The items of a `Vec`, in place. It takes no memory, and answers `NoMemory` only where the
    /// items are more than a list holds.
    pub fn from_vec(rows: Vec<T>) -> Result<List<T>, NoMemory>
    where
        T: Drop,
        ensures ok { IfOk result (λ list. list.items ≡ rows.items) }
        ensures succeeds { vec_len rows ≤ most_items → IsOk result }
    {
        if rows.len() > MOST_ITEMS {
            return Err(NoMemory);
        }
        Ok(List { rows })
    }

    /// The number of items.
    pub fn len(&self) -> u32
        ensures { result ≡ length self.now.items }
    {
        self.rows.len() as u32
    }

    /// Whether there are no items.
    pub fn is_empty(&self) -> bool
        ensures { result ≡ (length self.now.items == 0) }
    {
        self.rows.is_empty()
    }

    /// The items in order.
    pub fn as_slice(&self) -> &[T]
        ensures { result.now ≡ self.now.items }
    {
        self.rows.as_slice()
    }

    /// The item at an index.
    pub fn get(&self, at: u32) -> &T
        requires { at < length self.now.items }
        ensures { slice_get self.now.items at ≡ Some result.now }
    {
        &self.rows[at as usize]
    }

    /// Adds an item at the end. Where there is no memory, or no index for it, the items stay. In
    /// room that was reserved it can't fail.
    pub fn push(&mut self, item: T) -> Result<(), NoMemory>
    where
        T: Drop,
        ensures ok { OnOk result (self.new.items ≡ self.old.items ++ item ∷ []) }
        ensures err { OnErr result (self.new.items ≡ self.old.items) }
        ensures spare { self.old.spare ≤ self.new.spare + 1 }
        ensures succeeds { 0 < self.old.spare → IsOk result }
    {
        if self.rows.len() >= MOST_ITEMS {
            return Err(NoMemory);
        }
        self.rows.push(item)?;
        Ok(())
    }

    /// Makes room for so many more items, unless there is no memory for them or they would have no
    /// index. The items stay.
    pub fn reserve(&mut self, more: u32) -> Result<(), NoMemory>
        ensures items { self.new.items ≡ self.old.items }
        ensures ok { OnOk result (more ≤ self.new.spare) }
        ensures spare { self.old.spare ≤ self.new.spare }
        ensures succeeds { more ≤ self.old.spare → IsOk result }
    {
        if MOST_ITEMS - self.rows.len() < more as usize {
            return Err(NoMemory);
        }
        self.rows.reserve(more as usize)?;
        Ok(())
    }

    /// Adds an item at the end, in room that was reserved.
    pub fn add(&mut self, item: T)
    where
        T: Drop,
        requires { 0 < self.old.spare }
        ensures items { self.new.items ≡ self.old.items ++ item ∷ [] }
        ensures spare { self.new.spare + 1 ≡ self.old.spare }
    {
        // The contract of an insertion says, where that of a push doesn't, that the capacity stays.
        let end = self.rows.len();
        self.rows.insert(end, item).unwrap();
    }
}

impl<T: Drop> List<T> {
    /// Replaces the item at an index.
    pub fn set(&mut self, at: u32, item: T)
        requires { at < length self.old.items }
        ensures items { self.new.items ≡ slice_set self.old.items at item }
        ensures spare { self.new.spare ≡ self.old.spare }
    {
        self.rows[at as usize] = item;
    }

    /// Keeps the first `n` items, or all where they are no more than `n`. The others leave their
    /// room.
    pub fn cut(&mut self, n: u32)
        ensures items { self.new.items ≡ take n self.old.items }
        ensures spare { self.new.spare ≡ self.old.spare + (length self.old.items - n) }
    {
        self.rows.truncate(n as usize);
    }

    /// Puts the last item first and so on.
    pub fn reverse(&mut self)
        ensures items { self.new.items ≡ reverse self.old.items }
        ensures spare { self.new.spare ≡ self.old.spare }
    {
        self.rows.reverse();
    }
}

impl<T: Copy> List<T> {
    /// A list of these items, unless there is no memory for them or they are more than a list
    /// holds.
    pub fn from_slice(alloc: Global, items: &[T]) -> Result<List<T>, NoMemory>
        ensures { IfOk result (λ list. list.items ≡ items.now) }
    {
        let mut list = List::new(alloc);
        list.append(items)?;
        Ok(list)
    }

    /// Adds these items at the end. Where there is no memory, or no index for all of them, the
    /// items stay. In room that was reserved it can't fail.
    pub fn append(&mut self, items: &[T]) -> Result<(), NoMemory>
        ensures ok { OnOk result (self.new.items ≡ self.old.items ++ items.now) }
        ensures err { OnErr result (self.new.items ≡ self.old.items) }
        ensures spare { self.old.spare ≤ self.new.spare + length items.now }
        ensures succeeds { length items.now ≤ self.old.spare → IsOk result }
    {
        if MOST_ITEMS - self.rows.len() < items.len() {
            return Err(NoMemory);
        }
        self.rows.extend_from_slice(items)?;
        Ok(())
    }

    /// A list of equal items, unless there is no memory for them.
    pub fn copy(&self, alloc: Global) -> Result<List<T>, NoMemory>
        ensures { IfOk result (λ list. list.items ≡ self.now.items) }
    {
        List::from_slice(alloc, self.as_slice())
    }
}
