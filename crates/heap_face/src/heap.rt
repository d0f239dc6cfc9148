//! A heap, by what it was asked for.

ghost use Rattle.std.specs.Prelude.{◌≡◌, ◌+◌, ◌-◌, ◌^◌, ◌<◌, ◌≤◌, ◌↔◌, ℕ, None, Some, false, length, map, slice_get, slice_set, IfOk, IfErr, OnErr, IsErr, IsSome, option_map};
ghost use Rattle.heap_face.specs.Heap.{HeapState, IsSound, header_words, object_of, contents_of, used_words, with_new, with_lock, with_word, serial_of};
ghost use Rattle.heap_face.specs.Collection.{CanCollect, collected, by_serial};

use crate::address::{Addr, Roots};
use crate::layout::Layouts;
use crate::shape::Shape;

/// There is no room: the used and the asked words are together above `half`.
#[derive(Clone, Copy, Debug, PartialEq, Eq)]
pub struct Full {
    /// The words of the objects that the heap holds.
    pub used: u32,
    /// The words of the object that was asked for.
    pub asked: u32,
}

/// Objects, each with a serial that it keeps, a lock word and its contents. An address is live while
/// an object lies there. All calls but `collect` take constant time, `alloc` apart from the zeros
/// that it writes; none takes memory.
pub trait ObjectHeap {
    /// The heap's objects and what stands beside them.
    ghost heap: { Self → HeapState };

    /// Makes an object of this shape with zero contents, a free lock and the free serial, which
    /// rises by one. It is refused exactly where there is no room; then nothing changes.
    fn alloc(&mut self, shape: Shape) -> Result<Addr, Full>
        requires header { header_words shape.kind ≤ shape.words }
        requires serials { (heap self.old).free_serial < 2 ^ 64 - 1 }
        ensures made { IfOk result (λ address.
            heap self.new ≡ with_new address shape (heap self.old)) }
        ensures fresh { IfOk result (λ address.
            (0 < address.0) × (object_of (heap self.old) address ≡ None)) }
        ensures room { IsErr result
            ↔ ((heap self.old).half < used_words (heap self.old) + shape.words) }
        ensures full { IfErr result (λ full. full
            ≡ record { used = used_words (heap self.old); asked = shape.words }) }
        ensures refused { OnErr result (heap self.new ≡ heap self.old) };

    /// The shape of the object at a live address.
    fn shape(&self, a: Addr) -> Shape
        requires { IsSome (object_of (heap self.now) a) }
        ensures { option_map (λ object. object.shape) (object_of (heap self.now) a) ≡ Some result };

    /// The serial of the object at a live address.
    fn serial(&self, a: Addr) -> u64
        requires { IsSome (object_of (heap self.now) a) }
        ensures { serial_of (heap self.now) a ≡ Some result };

    /// The lock word of the object at a live address. It is 0 where the object was just made.
    fn lock(&self, a: Addr) -> u64
        requires { IsSome (object_of (heap self.now) a) }
        ensures { option_map (λ object. object.lock) (object_of (heap self.now) a) ≡ Some result };

    /// Replaces the lock word of the object at a live address, and nothing else.
    fn set_lock(&mut self, a: Addr, w: u64)
        requires { IsSome (object_of (heap self.old) a) }
        ensures { heap self.new ≡ with_lock a w (heap self.old) };

    /// A word of the contents of the object at a live address, counted from its first field,
    /// element or unit.
    fn get(&self, a: Addr, at: u32) -> u64
        requires { at < length (contents_of (heap self.now) a) }
        ensures { slice_get (contents_of (heap self.now) a) at ≡ Some result };

    /// Replaces a word of the contents of the object at a live address, and nothing else.
    fn put(&mut self, a: Addr, at: u32, w: u64)
        requires { at < length (contents_of (heap self.old) a) }
        ensures { heap self.new ≡ with_word a at w (heap self.old) };

    /// The words of all objects that the heap holds. It tells beside that what holds of every heap.
    fn used(&self) -> u32
        ensures words { result ≡ used_words (heap self.now) }
        ensures sound { IsSound (heap self.now) };

    /// The most words that its objects may have together.
    fn half(&self) -> u32
        ensures { result ≡ (heap self.now).half };

    /// Keeps exactly the objects that can be reached from the roots, in reach order, and puts at
    /// each root where its object lies now. The layouts say which fields are references.
    fn collect(&mut self, layouts: &Layouts, roots: &mut Roots)
        requires settled { (heap self.old).is_draft_open ≡ false }
        requires followed { CanCollect layouts.now (heap self.old) roots.old.addrs.items }
        ensures kept { by_serial layouts.now (heap self.new)
            ≡ collected layouts.now (heap self.old) roots.old.addrs.items }
        ensures roots { map (serial_of (heap self.new)) roots.new.addrs.items
            ≡ map (serial_of (heap self.old)) roots.old.addrs.items }
        ensures spare { roots.new.addrs.spare ≡ roots.old.addrs.spare }
        ensures half { (heap self.new).half ≡ (heap self.old).half }
        ensures serials { (heap self.new).free_serial ≡ (heap self.old).free_serial }
        ensures settles { (heap self.new).is_draft_open ≡ false };
}
