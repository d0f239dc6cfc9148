//! Objects in a table of two lists: a row for each, and the words of their contents, those of one
//! object after those of the other.

ghost use Rattle.std.specs.Prelude.{◌≡◌, ◌+◌, ◌-◌, ◌^◌, ◌<◌, ◌≤◌, [], ◌∷◌, ◌++◌, Some, length, map, sum, slice_get, IfOk, IfSome, option_map};
ghost use Rattle.heap_face.specs.Heap.{header_words, zero_object};
ghost use Rattle.heap_face.specs.Collection.{refers_at};
ghost use Rattle.row_heap.specs.Forwards.{HasForwards, EachHasForward, forwarded, copies_at};
ghost use Rattle.row_heap.specs.Table.{table_words, words_at, IsWhole, AllWhole, changed_row, with_lock, with_word};

use crate::fill::add_copies;
use heap_face::{Layouts, Shape};
use jv_types::{List, NoMemory};
use std::alloc::Global;
use std::marker::Model;

/// What is kept of an object beside its contents.
#[derive(Clone, Copy, Debug)]
struct Row {
    serial: u64,
    shape: Shape,
    lock: u64,
    /// The place of its first word.
    start: u32,
}

/// Objects by their place, with room for so many words in all. Contracts see the objects.
#[derive(Drop)]
pub struct Rows {
    rows: List<Row>,
    words: List<u64>,
    used: u32,
    half: u32,
    /// The serial of the next object.
    free: u64,
}

impl Model for Rows {
    ghost use Rattle.row_heap.specs.Table.{Table};

    ghost Value = { Table };

    ghost use Rattle.row_heap.specs.RowsOf.{table_of, IsTable};

    ghost view = { table_of };

    ghost invariant = { IsTable };
}

impl Rows {
    /// No objects, and room for some with this many words, which is all taken now.
    pub fn open(alloc: Global, half: u32) -> Result<Rows, NoMemory>
        ensures { IfOk result (λ rows. rows ≡ record { objects = []; half = half; free = 0 }) }
    {
        let mut rows = List::new(alloc);
        rows.reserve(half / 3)?;
        let mut words = List::new(alloc);
        words.reserve(half)?;
        Ok(Rows {
            rows,
            words,
            used: 0,
            half,
            free: 0,
        })
    }

    /// The number of objects.
    pub fn len(&self) -> u32
        ensures length { result ≡ length self.now.objects }
        ensures whole { AllWhole self.now.objects }
        ensures room { table_words self.now.objects ≤ self.now.half }
    {
        self.rows.len()
    }

    /// The words of all objects, with their headers.
    pub fn used(&self) -> u32
        ensures words { result ≡ table_words self.now.objects }
        ensures room { result ≤ self.now.half }
        ensures whole { AllWhole self.now.objects }
    {
        self.used
    }

    /// The serial of the next object.
    pub fn free(&self) -> u64
        ensures { result ≡ self.now.free }
    {
        self.free
    }

    /// The most words that they may have.
    pub fn half(&self) -> u32
        ensures { result ≡ self.now.half }
    {
        self.half
    }

    /// The shape of the object at a place.
    pub fn shape(&self, place: u32) -> Shape
        requires { place < length self.now.objects }
        ensures shape { option_map (λ object. object.shape) (slice_get self.now.objects place)
            ≡ Some result }
        ensures whole { IfSome (slice_get self.now.objects place) IsWhole }
    {
        self.rows.get(place).shape
    }

    /// The serial of the object at a place.
    pub fn serial(&self, place: u32) -> u64
        requires { place < length self.now.objects }
        ensures { option_map (λ object. object.serial) (slice_get self.now.objects place) ≡ Some result }
    {
        self.rows.get(place).serial
    }

    /// The lock word of the object at a place.
    pub fn lock(&self, place: u32) -> u64
        requires { place < length self.now.objects }
        ensures { option_map (λ object. object.lock) (slice_get self.now.objects place) ≡ Some result }
    {
        self.rows.get(place).lock
    }

    /// The contents of the object at a place.
    pub fn contents(&self, place: u32) -> &[u64]
        requires { place < length self.now.objects }
        ensures { option_map (λ object. object.contents) (slice_get self.now.objects place)
            ≡ Some result.now }
    {
        let row = self.rows.get(place);
        let start = row.start as usize;
        let end = start + (row.shape.words - row.shape.kind.header_words()) as usize;
        &self.words.as_slice()[start..end]
    }

    /// Adds an object with zero contents and the next serial, for which there has to be room.
    pub fn add(&mut self, shape: Shape)
        requires header { header_words shape.kind ≤ shape.words }
        requires room { table_words self.old.objects + shape.words ≤ self.old.half }
        requires serials { self.old.free < 2 ^ 64 - 1 }
        ensures objects { self.new.objects
            ≡ self.old.objects ++ zero_object self.old.free shape ∷ [] }
        ensures half { self.new.half ≡ self.old.half }
        ensures free { self.new.free ≡ self.old.free + 1 }
    {
        let row = Row {
            serial: self.free,
            shape,
            lock: 0,
            start: self.words.len(),
        };
        add_copies(&mut self.words, 0, shape.words - shape.kind.header_words());
        self.rows.add(row);
        self.used += shape.words;
        self.free += 1;
    }

    /// Adds a copy of an object of another table, for which there has to be room. Each reference of
    /// the copy is the forward of the object that it leads to.
    pub fn copy(&mut self, from: &Rows, place: u32, layouts: &Layouts, forwards: &[u32])
        requires place { place < length from.now.objects }
        requires room { table_words self.old.objects + words_at from.now.objects place
            ≤ self.old.half }
        requires forwards { IfSome (slice_get from.now.objects place)
            (HasForwards layouts.now (length forwards.now)) }
        ensures objects { self.new.objects ≡ self.old.objects
            ++ copies_at layouts.now from.now.objects forwards.now place }
        ensures half { self.new.half ≡ self.old.half }
        ensures free { self.new.free ≡ self.old.free }
    {
        let row = Row {
            serial: from.serial(place),
            shape: from.shape(place),
            lock: from.lock(place),
            start: self.words.len(),
        };
        add_forwarded(
            &mut self.words,
            from.contents(place),
            layouts,
            row.shape,
            forwards,
        );
        self.rows.add(row);
        self.used += row.shape.words;
    }

    /// Replaces the lock word of the object at a place.
    pub fn set_lock(&mut self, place: u32, lock: u64)
        requires { place < length self.old.objects }
        ensures objects { self.new.objects ≡ changed_row (with_lock lock) self.old.objects place }
        ensures half { self.new.half ≡ self.old.half }
        ensures free { self.new.free ≡ self.old.free }
    {
        let row = Row {
            lock,
            ..*self.rows.get(place)
        };
        self.rows.set(place, row);
    }

    /// Replaces a word of the contents of the object at a place.
    pub fn put(&mut self, place: u32, at: u32, word: u64)
        requires place { place < length self.old.objects }
        requires at { IfSome (slice_get self.old.objects place) (λ object.
            at < length object.contents) }
        ensures objects { self.new.objects ≡ changed_row (with_word at word) self.old.objects place }
        ensures half { self.new.half ≡ self.old.half }
        ensures free { self.new.free ≡ self.old.free }
    {
        let start = self.rows.get(place).start;
        self.words.set(start + at, word);
    }

    /// Takes all objects away. Their room stays, and this is the serial of the next object.
    pub fn restart(&mut self, free: u64)
        ensures { self.new ≡ record { objects = []; half = self.old.half; free = free } }
    {
        self.rows.cut(0);
        self.words.cut(0);
        self.used = 0;
        self.free = free;
    }
}

/// Adds the words of an object of this shape, with forwards for its references, in room that was
/// reserved.
fn add_forwarded(
    words: &mut List<u64>,
    contents: &[u64],
    layouts: &Layouts,
    shape: Shape,
    forwards: &[u32],
)
    requires room { length contents.now ≤ words.old.spare }
    requires forwards { EachHasForward (refers_at layouts.now shape) (length forwards.now)
        contents.now }
    requires small { length contents.now < 2 ^ 32 }
    ensures items { words.new.items ≡ words.old.items
        ++ forwarded forwards.now (refers_at layouts.now shape) 0 contents.now }
    ensures spare { words.new.spare + length contents.now ≡ words.old.spare }
{
    for (at, word) in contents.iter().enumerate() {
        let mut word = *word;
        if word != 0 && layouts.refers_at(shape, at as u32) {
            word = u64::from(forwards[(word - 1) as usize]);
        }
        words.add(word);
    }
}
