//! Whether a collection can follow what objects refer to.

ghost use Rattle.std.specs.Prelude.{◌≡◌, ◌<◌, IsTrue, IfSome, Some, length, option_map, slice_get};
ghost use Rattle.heap_face.specs.Collection.{cells_of};
ghost use Rattle.row_heap.specs.Found.{Follows, EachFollows};

use crate::rows::Rows;
use heap_face::{Kind, Layouts};
use jv_types::ClassNo;

/// Whether the object at a place has a cell for each field, and its references are null or live.
fn follows(rows: &Rows, layouts: &Layouts, place: u32) -> bool
    requires { place < length rows.now.objects }
    ensures { IsTrue result → IfSome (slice_get rows.now.objects place)
        (Follows layouts.now rows.now.objects) }
{
    let shape = rows.shape(place);
    let contents = rows.contents(place);
    let most = u64::from(rows.len());
    for (at, word) in contents.iter().enumerate() {
        if *word > most && layouts.refers_at(shape, at as u32) {
            return false;
        }
    }
    shape.kind != Kind::Object || has_cells(layouts, shape.class, contents.len())
}

/// Whether a class has so many cells.
fn has_cells(layouts: &Layouts, class: ClassNo, count: usize) -> bool
    ensures { IsTrue result → option_map (λ cells. length cells) (cells_of layouts.now class)
        ≡ Some count }
{
    class.0 < layouts.classes.len() && layouts.classes.get(class.0).as_slice().len() == count
}

/// Whether this holds of each object.
pub fn each_follows(rows: &Rows, layouts: &Layouts) -> bool
    ensures { IsTrue result → EachFollows layouts.now rows.now.objects }
{
    for place in 0..rows.len() {
        if !follows(rows, layouts, place) {
            return false;
        }
    }
    true
}
