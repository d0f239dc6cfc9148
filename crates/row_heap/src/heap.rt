//! The plain heap.

ghost use Rattle.std.specs.Prelude.{◌≡◌, [], false, IfOk, IsTrue, is_some, length};
ghost use Rattle.heap_face.specs.Heap.{object_of, contents_of};
ghost use Rattle.heap_face.specs.Collection.{CanCollect};

use crate::checks::each_follows;
use crate::copying::{copy_found, forward_roots};
use crate::rows::Rows;
use crate::search::Search;
use heap_face::{Addr, Full, Layouts, ObjectHeap, Roots, Shape};
use jv_types::NoMemory;
use std::alloc::Global;
use std::marker::Model;
use std::mem;

/// Objects in the rows of a table. The object at a place lies at the address one above the place.
/// A collection copies what is reached to a second table, and then the two change their parts.
#[derive(Drop)]
pub struct RowHeap {
    present: Rows,
    /// What it has is left from an earlier collection.
    other: Rows,
    /// So is what was found.
    search: Search,
}

impl Model for RowHeap {
    ghost use Rattle.heap_face.specs.Heap.{HeapState};

    ghost Value = { HeapState };

    ghost use Rattle.row_heap.specs.Tables.{state_in, AreTables};

    ghost view = { state_in };

    ghost invariant = { AreTables };
}

impl RowHeap {
    /// A heap without objects. All memory that it ever needs is taken now.
    pub fn open(alloc: Global, half: u32) -> Result<RowHeap, NoMemory>
        ensures { IfOk result (λ heap. heap ≡ record {
          objects = [];
          half = half;
          free_serial = 0;
          is_draft_open = false;
        }) }
    {
        Ok(RowHeap {
            present: Rows::open(alloc, half)?,
            other: Rows::open(alloc, half)?,
            search: Search::open(alloc, half)?,
        })
    }

    /// The serial of the next object.
    pub fn free_serial(&self) -> u64
        ensures { result ≡ self.now.free_serial }
    {
        self.present.free()
    }

    /// Whether an object lies at an address.
    pub fn is_live(&self, a: Addr) -> bool
        ensures { result ≡ is_some (object_of self.now a) }
    {
        let objects = self.present.len();
        a.0 != 0 && a.0 - 1 < objects
    }

    /// How many words the contents of the object at an address have, or 0 where none lies there.
    pub fn contents_len(&self, a: Addr) -> u32
        ensures { result ≡ length (contents_of self.now a) }
    {
        if self.is_live(a) {
            let shape = self.present.shape(a.0 - 1);
            shape.words - shape.kind.header_words()
        } else {
            0
        }
    }

    /// Whether a collection can follow everything: the layouts have a cell for each field, all
    /// references are null or live, and the roots are live.
    pub fn can_collect(&self, layouts: &Layouts, roots: &Roots) -> bool
        ensures followed { IsTrue result → CanCollect layouts.now self.now roots.now.addrs.items }
        ensures settled { self.now.is_draft_open ≡ false }
    {
        let present = &self.present;
        for root in roots.addrs.as_slice() {
            if !self.is_live(*root) {
                return false;
            }
        }
        each_follows(present, layouts)
    }
}

impl ObjectHeap for RowHeap {
    ghost heap = { λ heap. heap };

    fn alloc(&mut self, shape: Shape) -> Result<Addr, Full> {
        let used = self.present.used();
        if shape.words > self.present.half() - used {
            return Err(Full {
                used,
                asked: shape.words,
            });
        }
        self.present.add(shape);
        Ok(Addr(self.present.len()))
    }

    fn shape(&self, a: Addr) -> Shape {
        self.present.shape(a.0 - 1)
    }

    fn serial(&self, a: Addr) -> u64 {
        self.present.serial(a.0 - 1)
    }

    fn lock(&self, a: Addr) -> u64 {
        self.present.lock(a.0 - 1)
    }

    fn set_lock(&mut self, a: Addr, w: u64) {
        self.present.set_lock(a.0 - 1, w);
    }

    fn get(&self, a: Addr, at: u32) -> u64 {
        self.present.contents(a.0 - 1)[at as usize]
    }

    fn put(&mut self, a: Addr, at: u32, w: u64) {
        self.present.put(a.0 - 1, at, w);
    }

    fn used(&self) -> u32 {
        self.present.used()
    }

    fn half(&self) -> u32 {
        self.present.half()
    }

    fn collect(&mut self, layouts: &Layouts, roots: &mut Roots) {
        self.other.restart(self.present.free());
        self.search.restart();
        self.search
            .run(&self.present, layouts, roots.addrs.as_slice());
        copy_found(&self.present, &mut self.other, layouts, &self.search);
        forward_roots(roots, self.search.forwards.as_slice());
        mem::swap(&mut self.present, &mut self.other);
    }
}
