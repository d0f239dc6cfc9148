//! Numbers for the members of classes.

ghost use Rattle.std.specs.Prelude.{◌≡◌, ◌+◌, ◌<◌, ◌≤◌, ◌++◌, ◌∷◌, [], OnOk, OnErr, length, slice_index, sum};
ghost use Rattle.member_numbers.specs.Numbers.{number_of, NumbersAreApart};

use jv_types::{ClassNo, List, NoMemory};
use std::alloc::Global;
use std::marker::Model;

/// How many members each of some classes has. Contracts see these counts.
#[derive(Drop)]
pub struct MemberNumbers {
    counts: List<u32>,
    /// For each class the number of its first member.
    starts: List<u32>,
    total: u32,
}

impl Model for MemberNumbers {
    ghost use Rattle.std.specs.Prelude.{ℕ, List};
    ghost use Rattle.member_numbers.specs.Numbers.{HasStarts};

    ghost Value = { List ℕ };

    ghost view = { λ it. it.counts.items };

    ghost invariant = { λ it. HasStarts it.counts.items it.starts.items it.total };
}

/// No two members have one number.
pub fn numbers_are_apart()
    ensures { NumbersAreApart }
{}

impl MemberNumbers {
    /// No classes.
    pub fn new(alloc: Global) -> MemberNumbers
        ensures { result ≡ [] }
    {
        MemberNumbers {
            counts: List::new(alloc),
            starts: List::new(alloc),
            total: 0,
        }
    }

    /// Adds a class with so many members. It fails only for want of memory, or of numbers of 32
    /// bits, and then nothing changes.
    pub fn push(&mut self, count: u32) -> Result<(), NoMemory>
        ensures ok { OnOk result (self.new ≡ self.old ++ count ∷ []) }
        ensures err { OnErr result (self.new ≡ self.old) }
    {
        let Some(total) = self.total.checked_add(count) else {
            return Err(NoMemory);
        };
        self.counts.reserve(1)?;
        self.starts.reserve(1)?;
        self.counts.add(count);
        self.starts.add(self.total);
        self.total = total;
        Ok(())
    }

    /// How many members there are.
    pub fn total(&self) -> u32
        ensures { result ≡ sum self.now }
    {
        self.total
    }

    /// The number of a member, by its class and its index there.
    pub fn number(&self, class: ClassNo, index: u32) -> u32
        requires class { class.0 < length self.now }
        requires index { index < slice_index self.now class.0 }
        ensures number { result ≡ number_of self.now class.0 index }
        ensures inside { result < sum self.now }
    {
        let start = *self.starts.get(class.0);
        start + index
    }
}
