//! Texts by number.

ghost use Rattle.std.specs.Prelude.{◌≡◌, [], Some, bytes_eq, length, position, slice_get, is_some, ◌==◌, IfOk, OnOk, OnErr};
ghost use Rattle.std.specs.List.{IsDistinct, list_any};
ghost use Rattle.class_names.specs.Distinct.{with_item};

use indexmap::IndexSet;
use jv_types::NoMemory;
use std::alloc::Global;
use std::marker::Model;

/// The most texts, so that each has a number of 32 bits.
const MOST_NAMES: usize = 0xffff_ffff;

/// Texts, each once. The number of a text is its place among them. Contracts see the list of them.
#[derive(Drop)]
pub struct Names {
    texts: IndexSet<Vec<u16>>,
}

impl Model for Names {
    ghost use Rattle.std.specs.Prelude.{ℕ, List, ◌≤◌, length, map, bytes_eq};
    ghost use Rattle.std.specs.List.{IsDistinct};
    ghost use Rattle.class_names.specs.Distinct.{most_numbers};

    ghost Value = { List (List ℕ) };

    ghost view = { λ it. map (λ text. text.items) it.texts.keys };

    ghost invariant = { λ it.
        IsDistinct (λ a b. bytes_eq a.items b.items) it.texts.keys
        × (length it.texts.keys ≤ most_numbers) };
}

impl Names {
    /// No texts, which take no memory.
    pub fn new(alloc: Global) -> Names
        ensures { result ≡ [] }
    {
        Names {
            texts: IndexSet::new(alloc),
        }
    }

    /// Equal texts with the same numbers, unless there is no memory for them.
    pub fn copy(&self, alloc: Global) -> Result<Names, NoMemory>
        ensures { IfOk result (λ copy. copy ≡ self.now) }
    {
        let mut copy = Names::new(alloc);
        for text in self.texts.as_slice() {
            copy.add(alloc, text.as_slice())?;
        }
        Ok(copy)
    }

    /// How many there are. No two are equal.
    pub fn len(&self) -> u32
        ensures len { result ≡ length self.now }
        ensures distinct { IsDistinct bytes_eq self.now }
    {
        self.texts.len() as u32
    }

    /// Whether there are none.
    pub fn is_empty(&self) -> bool
        ensures { result ≡ (length self.now == 0) }
    {
        self.texts.is_empty()
    }

    /// The number of a text, where it is one of them.
    pub fn number_of(&self, text: &[u16]) -> Option<u32>
        ensures number { result ≡ position (bytes_eq text.now) self.now }
        ensures found { is_some result ≡ list_any (bytes_eq text.now) self.now }
    {
        let number = self.texts.get_index_of(text)?;
        Some(number as u32)
    }

    /// The number of a text, which is added at the end where it wasn't one of them. Where there is
    /// no memory or no number for it, they stay.
    pub fn add(&mut self, alloc: Global, text: &[u16]) -> Result<u32, NoMemory>
        ensures ok { OnOk result (self.new ≡ with_item bytes_eq self.old text.now) }
        ensures number { IfOk result (λ n. slice_get self.new n ≡ Some text.now) }
        ensures err { OnErr result (self.new ≡ self.old) }
    {
        if let Some(number) = self.number_of(text) {
            return Ok(number);
        }
        if self.texts.len() >= MOST_NAMES {
            return Err(NoMemory);
        }
        let mut copy = Vec::new(alloc);
        copy.extend_from_slice(text)?;
        let (number, _) = self.texts.insert_full(copy)?;
        Ok(number as u32)
    }
}
