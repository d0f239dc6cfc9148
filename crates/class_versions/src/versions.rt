//! The tables of the current world.

ghost use Rattle.std.specs.Prelude.{◌≡◌, ◌+◌, ◌<◌, ◌≤◌, ◌++◌, ◌∷◌, [], IfOk, IsSome, None, Some, bytes_eq, if◌then◌else◌, length, position, slice_get, slice_set};
ghost use Rattle.std.specs.List.{IsDistinct};
ghost use Rattle.class_world.specs.World.{HaveMembersOnce, names_of};
ghost use Rattle.static_fields.specs.Statics.{Place, value_at, same_place};
ghost use Rattle.code_marks.specs.Marks.{mark_at};
ghost use Rattle.literal_table.specs.Literals.{address_at};
ghost use Rattle.class_versions.specs.Slots.{method_of, slot_of};
ghost use Rattle.class_versions.specs.Versions.{AreVersions, IsStart, Keeps, selected_at};

use crate::parts::{Calls, Fields, Strings};
use class_world::{FieldPlace, World};
use code_marks::CodeMarks;
use code_store::CodeMark;
use heap_face::{Addr, Layouts};
use jv_types::{ClassNo, List, MethodNo, NoMemory};
use jv_values::Value;
use std::alloc::Global;
use std::marker::Model;

/// The layouts, slots, selection, code and static fields of a world, the lock words of its classes,
/// and the strings that were interned for its literals. `AreVersions` says that they are those of
/// a world; each call but `open` takes constant time and no memory.
#[derive(Drop)]
pub struct Versions {
    calls: Calls,
    fields: Fields,
    marks: CodeMarks,
    strings: Strings,
}

impl Model for Versions {
    ghost use Rattle.class_versions.specs.Versions.{VersionTables};

    ghost Value = { VersionTables };

    ghost view = { λ it. record {
      layouts = it.fields.layouts;
      slots = it.calls.slots;
      dispatch = it.calls.dispatch;
      marks = it.marks;
      statics = it.fields.statics;
      locks = it.strings.locks.items;
      literals = it.strings.literals;
    } };
}

impl Versions {
    /// The tables of a world as a program starts, with places for at least `room` interned strings
    /// and for one of each literal. A world that was linked has no name and no member twice
    /// (`class_dispatch::linked_worlds_are_apart`). It fails only for want of memory, or of numbers
    /// of 32 bits.
    pub fn open(alloc: Global, world: &World, room: u32) -> Result<Versions, NoMemory>
        requires apart { IsDistinct bytes_eq (names_of world.now) }
        requires once { HaveMembersOnce world.now }
        ensures are { IfOk result (λ versions. AreVersions world.now versions) }
        ensures start { IfOk result (λ versions. IsStart world.now versions) }
        ensures room { IfOk result (λ versions. room ≤ versions.literals.left) }
        ensures each { IfOk result (λ versions.
            length versions.literals.texts ≤ versions.literals.left) }
    {
        let calls = Calls::open(alloc, world)?;
        let fields = Fields::open(alloc, world)?;
        let marks = CodeMarks::open(alloc, world)?;
        let strings = Strings::open(alloc, world, room)?;
        Ok(Versions {
            calls,
            fields,
            marks,
            strings,
        })
    }

    /// What the fields of objects hold, by class.
    pub fn layouts(&self) -> &Layouts
        ensures { result.now ≡ self.now.layouts.layouts }
    {
        &self.fields.layouts.layouts
    }

    /// The fields of the objects of a class, in the order of its layout.
    pub fn layout(&self, class: ClassNo) -> &List<FieldPlace>
        requires { class.0 < length self.now.layouts.fields.items }
        ensures { slice_get self.now.layouts.fields.items class.0 ≡ Some result.now }
    {
        self.fields.layouts.fields.get(class.0)
    }

    /// The slot of a method, which stands for its class, its name and its descriptor.
    pub fn slot(&self, method: MethodNo) -> u32
        requires { IsSome (slot_of self.now.slots method) }
        ensures { slot_of self.now.slots method ≡ Some result }
    {
        self.calls.slots.slot(method)
    }

    /// The method of a slot.
    pub fn method(&self, slot: u32) -> MethodNo
        requires { IsSome (method_of self.now.slots slot) }
        ensures { method_of self.now.slots slot ≡ Some result }
    {
        self.calls.slots.method(slot)
    }

    /// The method that a call of the name and descriptor of a slot's method selects on an object of
    /// a class (invokevirtual and invokeinterface in JVMS 6.5): the first from the class upwards
    /// that is neither private nor static.
    pub fn select(&self, class: ClassNo, slot: u32) -> Option<MethodNo>
        requires class { class.0 < length self.now.dispatch }
        requires slot { IsSome (method_of self.now.slots slot) }
        ensures { result ≡ selected_at self.now class slot }
    {
        self.calls.select(class, slot)
    }

    /// The mark of the code of a method that has code.
    pub fn code(&self, method: MethodNo) -> CodeMark
        requires { IsSome (mark_at self.now.marks method) }
        ensures { mark_at self.now.marks method ≡ Some result }
    {
        self.marks.get(method)
    }

    /// The value of a static field.
    pub fn get_static(&self, place: FieldPlace) -> Value
        requires { IsSome (value_at self.now.statics place) }
        ensures { value_at self.now.statics place ≡ Some result }
    {
        self.fields.statics.get(place)
    }

    /// Puts a value into a static field, and changes nothing else.
    pub fn put_static(&mut self, place: FieldPlace, value: Value)
        requires { IsSome (value_at self.old.statics place) }
        ensures values { (other : Place) → value_at self.new.statics other
            ≡ (if same_place place other then Some value else value_at self.old.statics other) }
        ensures rest { self.new ≡ record self.old { statics = self.new.statics } }
        ensures keeps { Keeps self.old self.new }
    {
        self.fields.statics.put(place, value);
    }

    /// The lock word of a class, whose monitor its synchronized static methods enter.
    pub fn class_lock(&self, class: ClassNo) -> u64
        requires { class.0 < length self.now.locks }
        ensures { slice_get self.now.locks class.0 ≡ Some result }
    {
        *self.strings.locks.get(class.0)
    }

    /// Sets the lock word of a class, and changes nothing else.
    pub fn set_class_lock(&mut self, class: ClassNo, word: u64)
        requires { class.0 < length self.old.locks }
        ensures lock { self.new ≡ record self.old {
          locks = slice_set self.old.locks class.0 word;
        } }
        ensures keeps { Keeps self.old self.new }
    {
        self.strings.locks.set(class.0, word);
    }

    /// The number of the literal with these units, where one has them.
    pub fn literal_of(&self, units: &[u16]) -> Option<u32>
        ensures { result ≡ position (bytes_eq units.now) self.now.literals.texts }
    {
        self.strings.literals.literal_of(units)
    }

    /// Where the string of a literal lies, or none before it was interned.
    pub fn literal(&self, number: u32) -> Option<Addr>
        requires { number < length self.now.literals.texts }
        ensures { result ≡ address_at self.now.literals.addresses number }
    {
        self.strings.literals.literal(number)
    }

    /// Interns the string at this address for a literal that has none, in a place that is left, and
    /// changes nothing else.
    pub fn set_literal(&mut self, number: u32, address: Addr)
        requires inside { number < length self.old.literals.texts }
        requires fresh { address_at self.old.literals.addresses number ≡ None }
        requires left { 0 < self.old.literals.left }
        ensures literals { self.new ≡ record self.old {
          literals = record self.old.literals {
            addresses = slice_set self.old.literals.addresses number (Some address);
            order = self.old.literals.order ++ number ∷ [];
            left = self.new.literals.left;
          };
        } }
        ensures left { self.new.literals.left + 1 ≡ self.old.literals.left }
        ensures keeps { Keeps self.old self.new }
    {
        self.strings.literals.set_literal(number, address);
    }

    /// The number of interned strings.
    pub fn strings(&self) -> u32
        ensures { result ≡ length self.now.literals.order }
    {
        self.strings.literals.strings()
    }

    /// The number of the literal for which the string at that place in order of interning stands.
    pub fn string(&self, at: u32) -> u32
        requires { at < length self.now.literals.order }
        ensures { slice_get self.now.literals.order at ≡ Some result }
    {
        self.strings.literals.string(at)
    }

    /// Tells where the string of a literal that has one lies now, and changes nothing else.
    pub fn move_literal(&mut self, number: u32, address: Addr)
        requires inside { number < length self.old.literals.texts }
        requires interned { IsSome (address_at self.old.literals.addresses number) }
        ensures literals { self.new ≡ record self.old {
          literals = record self.old.literals {
            addresses = slice_set self.old.literals.addresses number (Some address);
          };
        } }
        ensures keeps { Keeps self.old self.new }
    {
        self.strings.literals.move_literal(number, address);
    }
}
