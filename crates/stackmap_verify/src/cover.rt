//! Which handlers cover an instruction (JVMS 4.7.3), found while a pass goes along the code.

ghost use Rattle.std.specs.Prelude.{◌≡◌, ◌==◌, ◌&&◌, ℕ, Bool, false, ◌<◌, ◌≤◌, List, length, slice_get, filter, nat_lt, IfOk, OnOk, Some};
ghost use Rattle.std.specs.List.{list_any};
ghost use Rattle.std.specs.List.Sorted.{IsPermutation, IsNonDecreasingBy};
ghost use Rattle.jv_types.specs.declared.code.Handler.{Handler};
ghost use Rattle.stackmap_verify.specs.Cover.{covers_at, AreLeft, HasLeft, IsHere};

use jv_types::{Handler, NoMemory};
use std::alloc::Global;
use std::marker::Model;

/// The rows of an exception table, of which those that cover a place are active when a pass comes
/// to it. Contracts see the rows in some order.
#[derive(Drop)]
pub struct Cover {
    /// By the places at which they begin.
    rows: Vec<Handler>,
    /// How many of them a pass has come to.
    begun: usize,
    /// Those of them that didn't end before the last place.
    active: Vec<Handler>,
    /// Those of the active ones that weren't looked at yet.
    unseen: Vec<Handler>,
    /// The last place that a pass came to.
    place: u32,
}

impl Model for Cover {
    ghost use Rattle.std.specs.Prelude.{ℕ, List};
    ghost use Rattle.stackmap_verify.specs.Cover.{Rows, IsCover};

    ghost Value = { Rows };

    ghost view = { λ it. record {
      rows = it.rows.items;
      begun = it.begun;
      active = it.active.items;
      unseen = it.unseen.items;
      place = it.place;
    } };

    ghost invariant = { λ it. IsCover it.rows.items it.begun it.active.items it.place };
}

/// Rows by the places at which they begin.
fn by_begin(alloc: Global, handlers: &[Handler]) -> Result<Vec<Handler>, NoMemory>
    ensures permutation { IfOk result (λ rows. IsPermutation handlers.now rows.items) }
    ensures sorted { IfOk result (λ rows.
        IsNonDecreasingBy (λ (row : Handler). row.from) rows.items) }
{
    let mut rows = Vec::new(alloc);
    rows.extend_from_slice(handlers)?;
    rows.sort_unstable_by_key(|row| row.from);
    Ok(rows)
}

/// Begins again, where a pass goes back.
fn go_back(
    begun: &mut usize,
    active: &mut Vec<Handler>,
    unseen: &mut Vec<Handler>,
    place: u32,
    pc: u32,
)
    ensures within { begun.new ≤ begun.old }
    ensures active { (rows : List Handler) → (test : Handler → Bool)
        → AreLeft test rows begun.old active.old.items place
        → AreLeft test rows begun.new active.new.items pc }
    ensures unseen { (rows : List Handler) → (test : Handler → Bool)
        → AreLeft test rows begun.old unseen.old.items place
        → AreLeft test rows begun.new unseen.new.items pc }
{
    if pc < place {
        *begun = 0;
        active.clear();
        unseen.clear();
    }
}

/// Takes the rows that begin at a place or before it. Where there is no memory, some are taken.
fn take_begun(
    rows: &[Handler],
    begun: &mut usize,
    active: &mut Vec<Handler>,
    unseen: &mut Vec<Handler>,
    pc: u32,
) -> Result<(), NoMemory>
    requires { begun.old ≤ length rows.now }
    ensures within { begun.new ≤ length rows.now }
    ensures active { (test : Handler → Bool) → (place : ℕ)
        → AreLeft test rows.now begun.old active.old.items place
        → AreLeft test rows.now begun.new active.new.items place }
    ensures unseen { OnOk result ((test : Handler → Bool) → (place : ℕ)
        → AreLeft test rows.now begun.old unseen.old.items place
        → AreLeft test rows.now begun.new unseen.new.items place) }
    ensures later { OnOk result ((next : Handler) → slice_get rows.now begun.new ≡ Some next
        → pc < next.from) }
{
    while *begun < rows.len() && rows[*begun].from <= pc {
        unseen.push(rows[*begun])?;
        active.push(rows[*begun])?;
        *begun += 1;
    }
    Ok(())
}

/// Drops the rows that end at a place or before it.
fn drop_ended(active: &mut Vec<Handler>, pc: u32)
    ensures { active.new.items ≡ filter (λ (row : Handler). nat_lt pc row.to) active.old.items }
{
    active.retain(|row| pc < row.to);
}

impl Cover {
    /// Those rows, of which none is active, unless there is no memory for them.
    pub fn of(alloc: Global, handlers: &[Handler]) -> Result<Cover, NoMemory>
        ensures rows { IfOk result (λ cover. IsPermutation handlers.now cover.rows) }
        ensures left { IfOk result (λ cover. (test : Handler → Bool) → HasLeft test cover) }
    {
        Ok(Cover {
            rows: by_begin(alloc, handlers)?,
            begun: 0,
            active: Vec::new(alloc),
            unseen: Vec::new(alloc),
            place: 0,
        })
    }

    /// Comes to a place. From one to a later one each row is looked at as often as it covers a
    /// place that was come to, and twice more.
    pub fn come_to(&mut self, pc: u32) -> Result<(), NoMemory>
        ensures same { self.new.rows ≡ self.old.rows }
        ensures place { self.new.place ≡ pc }
        ensures here { OnOk result (IsHere self.new) }
        ensures active { (test : Handler → Bool)
            → AreLeft test self.new.rows self.new.begun self.new.active pc }
        ensures left { OnOk result ((test : Handler → Bool)
            → HasLeft test self.old → HasLeft test self.new) }
    {
        go_back(
            &mut self.begun,
            &mut self.active,
            &mut self.unseen,
            self.place,
            pc,
        );
        self.place = pc;
        take_begun(
            &self.rows,
            &mut self.begun,
            &mut self.active,
            &mut self.unseen,
            pc,
        )?;
        drop_ended(&mut self.active, pc);
        drop_ended(&mut self.unseen, pc);
        Ok(())
    }

    /// Whether no row is active.
    pub fn is_clear(&self) -> bool
        ensures { result ≡ (length self.now.active == 0) }
    {
        self.active.is_empty()
    }

    /// The active rows that weren't looked at yet.
    pub fn unseen(&self) -> &[Handler]
        ensures { result.now ≡ self.now.unseen }
    {
        self.unseen.as_slice()
    }

    /// No row was looked at.
    pub fn renew(&mut self) -> Result<(), NoMemory>
        ensures same { OnOk result (self.new ≡ record self.old { unseen = self.old.active }) }
        ensures rows { self.new.rows ≡ self.old.rows }
        ensures place { self.new.place ≡ self.old.place }
        ensures left { OnOk result ((test : Handler → Bool) → HasLeft test self.new) }
    {
        self.unseen.clear();
        self.unseen.extend_from_slice(&self.active)?;
        Ok(())
    }

    /// The rows that cover the last place were looked at.
    pub fn see(&mut self)
        ensures rows { self.new.rows ≡ self.old.rows }
        ensures left { (test : Handler → Bool)
            → list_any (λ row. covers_at self.old.place row && test row) self.old.unseen ≡ false
            → HasLeft test self.old → HasLeft test self.new }
    {
        let place = self.place;
        self.unseen
            .retain(|row| !(row.from <= place && place < row.to));
    }
}
