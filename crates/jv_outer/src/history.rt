//! A list that only clauses read.

ghost use Rattle.std.specs.Prelude.{◌≡◌, ℕ, List, [], ◌∷◌, ◌++◌};
ghost use Rattle.std.specs.Borrow.{ftrue};

use std::marker::{Model, PhantomData};

/// What a part was given so far, in order. It takes no memory, and its calls do nothing when they
/// run: it is there for clauses that speak of each call.
#[derive(Drop)]
pub struct History {
    marker: PhantomData<u8>,
    pub ghost items: { List (List ℕ) },
}

impl Model for History {
    ghost also_owns = { λ _. ftrue };
}

impl History {
    /// A history of nothing.
    pub fn new() -> History
        ensures { result.items ≡ [] }
    {
        History {
            marker: PhantomData,
        }
    }

    /// Notes one more.
    pub fn note(&mut self, _item: &[u8])
        ensures { self.new.items ≡ self.old.items ++ _item.now ∷ [] }
    {}
}
