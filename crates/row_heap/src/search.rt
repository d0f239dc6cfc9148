//! Which objects can be reached, in order.

ghost use Rattle.std.specs.Prelude.{◌≡◌, ◌+◌, ◌*◌, ◌^◌, ◌<◌, ◌≤◌, [], ◌++◌, Some, length, slice_get, slice_index, IfOk, IfSome, flat_map, option_to_list};
ghost use Rattle.machine_model.specs.Reach.{unseen};
ghost use Rattle.heap_face.specs.Collection.{CanCollect, referred, reached};
ghost use Rattle.row_heap.specs.Table.{table_words, AllWhole};
ghost use Rattle.row_heap.specs.Placing.{HasSerials, state_of};
ghost use Rattle.row_heap.specs.Found.{IsFound, capacity, order_with, forwards_with, serials_of, contents_in, CanVisit, CanFollow, found_by};

use crate::fill::add_copies;
use crate::rows::Rows;
use heap_face::{Addr, Layouts};
use jv_types::{List, NoMemory};
use std::alloc::Global;

/// The objects of a table that were found so far.
#[derive(Drop)]
pub struct Search {
    /// Their places, in the order in which they were found.
    pub order: List<u32>,
    /// For each object of the table one more than where its place stands in that order, or 0 where
    /// it wasn't found.
    pub forwards: List<u32>,
}

impl Search {
    /// Nothing found, and room for the objects of a table with this many words.
    pub fn open(alloc: Global, half: u32) -> Result<Search, NoMemory>
        ensures order { IfOk result (λ search. search.order.items ≡ []) }
        ensures forwards { IfOk result (λ search. search.forwards.items ≡ []) }
        ensures order_room { IfOk result (λ search. half < 3 * (capacity search.order + 1)) }
        ensures forwards_room { IfOk result (λ search. half < 3 * (capacity search.forwards + 1)) }
    {
        let mut order = List::new(alloc);
        order.reserve(half / 3)?;
        let mut forwards = List::new(alloc);
        forwards.reserve(half / 3)?;
        Ok(Search { order, forwards })
    }

    /// Forgets what was found. Its room stays.
    pub fn restart(&mut self)
        ensures order { self.new.order.items ≡ [] }
        ensures forwards { self.new.forwards.items ≡ [] }
        ensures order_room { capacity self.new.order ≡ capacity self.old.order }
        ensures forwards_room { capacity self.new.forwards ≡ capacity self.old.forwards }
    {
        self.order.cut(0);
        self.forwards.cut(0);
    }

    /// Finds the object at a place, if it wasn't found yet.
    fn visit(&mut self, place: u32)
        requires place { place < length self.old.forwards.items }
        requires room { slice_index self.old.forwards.items place ≡ 0 → 0 < self.old.order.spare }
        ensures order { self.new.order.items
            ≡ order_with self.old.order.items self.old.forwards.items place }
        ensures forwards { self.new.forwards.items
            ≡ forwards_with self.old.order.items self.old.forwards.items place }
        ensures order_room { capacity self.new.order ≡ capacity self.old.order }
        ensures forwards_room { capacity self.new.forwards ≡ capacity self.old.forwards }
    {
        if *self.forwards.get(place) == 0 {
            self.order.add(place);
            self.forwards.set(place, self.order.len());
        }
    }

    /// Finds what the object at a place refers to, each where it wasn't found yet.
    fn visit_object(&mut self, from: &Rows, layouts: &Layouts, place: u32)
        requires found { IsFound from.now.objects self.old.order.items self.old.forwards.items }
        requires serials { HasSerials from.now }
        requires whole { AllWhole from.now.objects }
        requires words { table_words from.now.objects ≤ from.now.half }
        requires room { from.now.half < 3 * (capacity self.old.order + 1) }
        requires small { length from.now.objects < 2 ^ 32 }
        requires place { place < length from.now.objects }
        requires live { IfSome (slice_get from.now.objects place)
            (CanVisit layouts.now from.now.objects) }
        ensures found { IsFound from.now.objects self.new.order.items self.new.forwards.items }
        ensures serials { serials_of from.now.objects self.new.order.items
            ≡ serials_of from.now.objects self.old.order.items
            ++ unseen (serials_of from.now.objects self.old.order.items)
            (flat_map (λ object. flat_map referred
            (contents_in layouts.now from.now.objects object))
            (option_to_list (slice_get from.now.objects place))) }
        ensures order_room { capacity self.new.order ≡ capacity self.old.order }
        ensures forwards_room { capacity self.new.forwards ≡ capacity self.old.forwards }
    {
        let shape = from.shape(place);
        let contents = from.contents(place);
        for (at, word) in contents.iter().enumerate() {
            if *word != 0 && layouts.refers_at(shape, at as u32) {
                self.visit((*word - 1) as u32);
            }
        }
    }

    /// Follows what the found objects refer to, from the first on, until nothing new is found.
    fn follow(&mut self, from: &Rows, layouts: &Layouts)
        requires found { IsFound from.now.objects self.old.order.items self.old.forwards.items }
        requires serials { HasSerials from.now }
        requires whole { AllWhole from.now.objects }
        requires words { table_words from.now.objects ≤ from.now.half }
        requires room { from.now.half < 3 * (capacity self.old.order + 1) }
        requires small { length from.now.objects < 2 ^ 32 }
        requires live { CanFollow layouts.now from.now.objects
            (found_by layouts.now from.now (serials_of from.now.objects self.old.order.items)) }
        ensures found { IsFound from.now.objects self.new.order.items self.new.forwards.items }
        ensures serials { serials_of from.now.objects self.new.order.items
            ≡ found_by layouts.now from.now (serials_of from.now.objects self.old.order.items) }
        ensures order_room { capacity self.new.order ≡ capacity self.old.order }
        ensures forwards_room { capacity self.new.forwards ≡ capacity self.old.forwards }
    {
        let mut done = 0;
        while done < self.order.len() {
            let place = *self.order.get(done);
            self.visit_object(from, layouts, place);
            done += 1;
        }
    }

    /// Finds the objects that can be reached from the roots, in reach order, where nothing was found
    /// before.
    pub fn run(&mut self, from: &Rows, layouts: &Layouts, roots: &[Addr])
        requires none { self.old.order.items ≡ [] }
        requires empty { self.old.forwards.items ≡ [] }
        requires order_room { from.now.half < 3 * (capacity self.old.order + 1) }
        requires forwards_room { from.now.half < 3 * (capacity self.old.forwards + 1) }
        requires serials { HasSerials from.now }
        requires live { CanCollect layouts.now (state_of from.now) roots.now }
        ensures found { IsFound from.now.objects self.new.order.items self.new.forwards.items }
        ensures serials { serials_of from.now.objects self.new.order.items
            ≡ reached layouts.now (state_of from.now) roots.now }
        ensures order_kept { capacity self.new.order ≡ capacity self.old.order }
        ensures forwards_kept { capacity self.new.forwards ≡ capacity self.old.forwards }
    {
        add_copies(&mut self.forwards, 0, from.len());
        for root in roots {
            self.visit(root.0 - 1);
        }
        self.follow(from, layouts);
    }
}
