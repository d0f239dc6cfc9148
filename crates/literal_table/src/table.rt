//! Literals by number.

ghost use Rattle.std.specs.Prelude.{◌≡◌, ◌+◌, ◌<◌, ◌≤◌, ◌++◌, ◌∷◌, [], IfOk, IsSome, None, Some, bytes_eq, length, position, replicate, slice_get, slice_set};
ghost use Rattle.std.specs.List.{IsDistinct};

use class_names::Names;
use heap_face::Addr;
use jv_types::{List, NoMemory};
use std::alloc::Global;
use std::marker::Model;

/// Literals by number, and the strings that were interned for them. Contracts see the units of the
/// literals, where their strings lie, in which order these were interned, and for how many more
/// there is a place.
#[derive(Drop)]
pub struct LiteralTable {
    texts: Names,
    /// For each literal, by its number, where its string lies.
    addresses: List<Option<Addr>>,
    /// The numbers of those that have one, in order of interning.
    order: List<u32>,
}

impl Model for LiteralTable {
    ghost use Rattle.literal_table.specs.Literals.{Literals, IsKept};

    ghost Value = { Literals };

    ghost view = { λ it. record {
      texts = it.texts;
      addresses = it.addresses.items;
      order = it.order.items;
      left = it.order.spare;
    } };

    ghost invariant = { λ it. IsKept it.texts it.addresses.items it.order.items };
}

/// So many literals without a string.
fn no_addresses(alloc: Global, count: u32) -> Result<List<Option<Addr>>, NoMemory>
    ensures { IfOk result (λ addresses. addresses.items ≡ replicate count None) }
{
    let mut addresses = List::new(alloc);
    for _ in 0..count {
        addresses.push(None)?;
    }
    Ok(addresses)
}

impl LiteralTable {
    ghost use Rattle.literal_table.specs.Literals.{IsKept, address_at};

    /// A table of these literals, none of which has a string, with places for at least `room`
    /// strings and for one of each literal. All memory that it ever needs is taken now.
    pub fn open(alloc: Global, texts: Names, room: u32) -> Result<LiteralTable, NoMemory>
        ensures texts { IfOk result (λ table. table.texts ≡ texts) }
        ensures addresses { IfOk result (λ table.
            table.addresses ≡ replicate (length texts) None) }
        ensures order { IfOk result (λ table. table.order ≡ []) }
        ensures room { IfOk result (λ table. room ≤ table.left) }
        ensures each { IfOk result (λ table. length texts ≤ table.left) }
    {
        let literals = texts.len();
        let mut order = List::new(alloc);
        order.reserve(room.max(literals))?;
        let addresses = no_addresses(alloc, literals)?;
        Ok(LiteralTable {
            texts,
            addresses,
            order,
        })
    }

    /// The number of literals. No two have the same units, and those that have a string are the
    /// ones that were interned, each once.
    pub fn literals(&self) -> u32
        ensures count { result ≡ length self.now.texts }
        ensures apart { IsDistinct bytes_eq self.now.texts }
        ensures kept { IsKept self.now.texts self.now.addresses self.now.order }
    {
        self.texts.len()
    }

    /// The number of the literal with these units, where one has them.
    pub fn literal_of(&self, units: &[u16]) -> Option<u32>
        ensures { result ≡ position (bytes_eq units.now) self.now.texts }
    {
        self.texts.number_of(units)
    }

    /// Where the string of a literal lies, or none before it was interned.
    pub fn literal(&self, number: u32) -> Option<Addr>
        requires { number < length self.now.texts }
        ensures { result ≡ address_at self.now.addresses number }
    {
        *self.addresses.get(number)
    }

    /// Interns the string at this address for a literal that has none, in a place that is left.
    pub fn set_literal(&mut self, number: u32, address: Addr)
        requires inside { number < length self.old.texts }
        requires fresh { address_at self.old.addresses number ≡ None }
        requires left { 0 < self.old.left }
        ensures texts { self.new.texts ≡ self.old.texts }
        ensures addresses { self.new.addresses
            ≡ slice_set self.old.addresses number (Some address) }
        ensures order { self.new.order ≡ self.old.order ++ number ∷ [] }
        ensures left { self.new.left + 1 ≡ self.old.left }
    {
        self.addresses.set(number, Some(address));
        self.order.add(number);
    }

    /// The number of interned strings.
    pub fn strings(&self) -> u32
        ensures { result ≡ length self.now.order }
    {
        self.order.len()
    }

    /// The number of the literal for which the string at that place in order of interning stands.
    pub fn string(&self, at: u32) -> u32
        requires { at < length self.now.order }
        ensures { slice_get self.now.order at ≡ Some result }
    {
        *self.order.get(at)
    }

    /// Tells where the string of a literal that has one lies now, and changes nothing else.
    pub fn move_literal(&mut self, number: u32, address: Addr)
        requires inside { number < length self.old.texts }
        requires interned { IsSome (address_at self.old.addresses number) }
        ensures texts { self.new.texts ≡ self.old.texts }
        ensures addresses { self.new.addresses
            ≡ slice_set self.old.addresses number (Some address) }
        ensures order { self.new.order ≡ self.old.order }
        ensures left { self.new.left ≡ self.old.left }
    {
        self.addresses.set(number, Some(address));
    }
}
