//! Static fields by place.

ghost use Rattle.std.specs.Prelude.{◌≡◌, ◌++◌, ◌∷◌, [], IfOk, IsSome, OnOk, Some, if◌then◌else◌, length, map, option_map};
ghost use Rattle.jv_values.specs.Values.{value_of};
ghost use Rattle.static_fields.specs.Statics.{Place, value_at, first_in, first_at, same_place};

use class_members::FieldRow;
use class_world::{FieldPlace, World};
use jv_types::{List, NoMemory};
use jv_values::Value;
use member_numbers::MemberNumbers;
use std::alloc::Global;
use std::marker::Model;
use world_tables::fields;

/// The static fields of some classes. Contracts see the value at each place. There is a place for
/// each field that a class declares, so that it's found without a scan; at those of fields that
/// aren't static nothing is put.
#[derive(Drop)]
pub struct StaticFields {
    numbers: MemberNumbers,
    values: List<Value>,
}

impl Model for StaticFields {
    ghost use Rattle.std.specs.Prelude.{◌≡◌, length, sum};
    ghost use Rattle.static_fields.specs.Statics.{Statics};

    ghost Value = { Statics };

    ghost view = { λ it. record { counts = it.numbers; values = it.values.items } };

    ghost invariant = { λ it. length it.values.items ≡ sum it.numbers };
}

/// Adds the fields of a class, each with its first value.
fn add_class(
    numbers: &mut MemberNumbers,
    values: &mut List<Value>,
    rows: &List<FieldRow>,
) -> Result<(), NoMemory>
    ensures numbers { OnOk result (numbers.new ≡ numbers.old ++ length rows.now.items ∷ []) }
    ensures values { OnOk result (values.new.items
        ≡ values.old.items ++ map (λ row. row.first) rows.now.items) }
{
    numbers.push(rows.len())?;
    for row in rows.as_slice() {
        values.push(row.first)?;
    }
    Ok(())
}

/// The fields of classes with these rows.
fn fields_of(alloc: Global, rows: &[List<FieldRow>]) -> Result<StaticFields, NoMemory>
    ensures { IfOk result (λ statics. (place : Place)
        → value_at statics place ≡ first_in rows.now place) }
{
    let mut numbers = MemberNumbers::new(alloc);
    let mut values = List::new(alloc);
    for row in rows {
        add_class(&mut numbers, &mut values, row)?;
    }
    Ok(StaticFields { numbers, values })
}

impl StaticFields {
    /// The fields of the classes of a world, each with its first value. It fails only for want of
    /// memory, or where there are more fields than numbers of 32 bits.
    pub fn open(alloc: Global, world: &World) -> Result<StaticFields, NoMemory>
        ensures { IfOk result (λ statics. (place : Place)
            → option_map value_of (value_at statics place) ≡ first_at world.now place) }
    {
        let rows = fields(alloc, world)?;
        let statics = fields_of(alloc, rows.as_slice())?;
        Ok(statics)
    }

    /// The value of a field.
    pub fn get(&self, place: FieldPlace) -> Value
        requires { IsSome (value_at self.now place) }
        ensures { value_at self.now place ≡ Some result }
    {
        let number = self.numbers.number(place.class, place.index);
        *self.values.get(number)
    }

    /// Puts a value into a field, and changes no other.
    pub fn put(&mut self, place: FieldPlace, value: Value)
        requires { IsSome (value_at self.old place) }
        ensures counts { self.new.counts ≡ self.old.counts }
        ensures values { (other : Place) → value_at self.new other
            ≡ (if same_place place other then Some value else value_at self.old other) }
    {
        let number = self.numbers.number(place.class, place.index);
        self.values.set(number, value);
    }
}
