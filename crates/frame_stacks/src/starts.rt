//! The methods that a thread is still to start.

ghost use Rattle.std.specs.Prelude.{◌≡◌, ◌<◌, ◌≤◌, [], IfOk, length, drop, slice_get};
ghost use Rattle.frame_stacks.specs.Limits.{most_starts};

use jv_types::{List, MethodNo, NoMemory};
use std::alloc::Global;
use std::marker::Model;

/// The most methods that a thread has still to start: one for each class that a program may begin
/// with, and its `main`.
pub const MOST_STARTS: u32 = 1025;

/// Methods in the order in which they are started, in room for the most that there are. Contracts
/// see the list of those that are left.
#[derive(Debug, Drop)]
pub struct Starts {
    all: List<MethodNo>,
    /// How many of them were taken.
    taken: u32,
}

impl Model for Starts {
    ghost use Rattle.std.specs.Prelude.{◌+◌, ◌≤◌, List, drop, length};
    ghost use Rattle.jv_types.specs.declared.number.MethodNo.{MethodNo};
    ghost use Rattle.frame_stacks.specs.Limits.{most_starts};

    ghost Value = { List MethodNo };

    ghost view = { λ it. drop it.taken it.all.items };

    ghost invariant = { λ it.
        (length it.all.items ≤ most_starts)
        × (most_starts ≤ length it.all.items + it.all.spare) };
}

impl Starts {
    /// No methods. All memory that they ever need is taken now.
    pub fn new(alloc: Global) -> Result<Starts, NoMemory>
        ensures { IfOk result (λ starts. starts ≡ []) }
    {
        let mut all = List::new(alloc);
        all.reserve(MOST_STARTS)?;
        Ok(Starts { all, taken: 0 })
    }

    /// The first.
    pub fn next(&self) -> Option<MethodNo>
        ensures { result ≡ slice_get self.now 0 }
    {
        self.all.as_slice().get(self.taken as usize).copied()
    }

    /// Takes it away.
    pub fn take(&mut self)
        requires { 0 < length self.old }
        ensures { self.new ≡ drop 1 self.old }
    {
        self.taken += 1;
    }

    /// Replaces all.
    pub fn set(&mut self, starts: &[MethodNo])
        requires { length starts.now ≤ most_starts }
        ensures { self.new ≡ starts.now }
    {
        self.all.cut(0);
        self.taken = 0;
        self.all.append(starts).unwrap();
    }
}
