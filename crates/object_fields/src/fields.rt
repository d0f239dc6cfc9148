//! The fields of an object, by their places.

ghost use Rattle.std.specs.Prelude.{◌≡◌, IsSomeAnd, Some};
ghost use Rattle.jv_values.specs.Values.{value_of};
ghost use Rattle.heap_objects.specs.Ids.{ids_of};
ghost use Rattle.heap_objects.specs.Words.{IsOfCell};
ghost use Rattle.object_fields.specs.Fields.{HasField, IsRead, IsWritten, cell_of_field};

use heap_face::{Addr, Cell, Layouts, ObjectHeap};
use heap_objects::{value_in, word_of};
use jv_values::Value;

/// What a field of an object holds.
fn field_cell<H: ObjectHeap>(heap: &H, layouts: &Layouts, object: Addr, place: u32) -> Cell
    requires { HasField layouts.now (H.heap heap.now) object place }
    ensures { cell_of_field layouts.now (H.heap heap.now) object place ≡ Some result }
{
    let class = heap.shape(object).class;
    *layouts.classes.get(class.0).get(place)
}

/// The value of a field of an object, by the field's place in the layout of the object's class.
pub fn read_field<H: ObjectHeap>(heap: &H, layouts: &Layouts, object: Addr, place: u32) -> Value
    requires { HasField layouts.now (H.heap heap.now) object place }
    ensures { IsRead layouts.now (H.heap heap.now) object place (value_of result) }
{
    let cell = field_cell(heap, layouts, object, place);
    value_in(cell, heap.get(object, place))
}

/// Puts a value into a field of an object, by the field's place in the layout of the object's class.
pub fn write_field<H: ObjectHeap>(
    heap: &mut H,
    layouts: &Layouts,
    object: Addr,
    place: u32,
    value: Value,
)
    requires there { HasField layouts.now (H.heap heap.old) object place }
    requires cell { IsSomeAnd (cell_of_field layouts.now (H.heap heap.old) object place)
        (λ cell. IsOfCell cell (value_of value)) }
    ensures written { IsWritten layouts.now (H.heap heap.old) (H.heap heap.new) object place
        (value_of value) }
    ensures ids { ids_of (H.heap heap.new) ≡ ids_of (H.heap heap.old) }
    ensures rest { H.heap heap.new
        ≡ record (H.heap heap.old) { objects = (H.heap heap.new).objects } }
{
    let cell = field_cell(heap, layouts, object, place);
    heap.put(object, place, word_of(cell, value));
}
