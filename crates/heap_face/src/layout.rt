//! Which fields of objects are references.

ghost use Rattle.std.specs.Prelude.{◌≡◌};

use crate::shape::{Kind, Shape};
use jv_types::List;

/// What a field holds.
#[derive(Clone, Copy, Debug, PartialEq, Eq)]
pub enum Cell {
    Int,
    Long,
    Ref,
}

/// For each class, by its number, what its fields hold, in the order of its layout: the fields of
/// the superclass first.
#[derive(Debug, Drop)]
pub struct Layouts {
    pub classes: List<List<Cell>>,
}

impl Layouts {
    ghost use Rattle.heap_face.specs.Collection.{refers_at};

    /// Whether the word at this place of the contents of an object is a reference. Beyond the
    /// layouts it is none.
    pub fn refers_at(&self, shape: Shape, at: u32) -> bool
        ensures { result ≡ refers_at self.now shape at }
    {
        match shape.kind {
            Kind::Object => match self.classes.as_slice().get(shape.class.0 as usize) {
                Some(cells) => match cells.as_slice().get(at as usize) {
                    Some(cell) => *cell == Cell::Ref,
                    None => false,
                },
                None => false,
            },
            Kind::Refs => true,
            Kind::Ints | Kind::Text => false,
        }
    }
}
