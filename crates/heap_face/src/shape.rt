//! What an object is, apart from its contents.

ghost use Rattle.std.specs.Prelude.{◌≡◌};

use jv_types::ClassNo;

/// What an object's words past its header are.
#[derive(Clone, Copy, Debug, PartialEq, Eq)]
pub enum Kind {
    /// The fields of an object that is no array and no string, in the order of its layout.
    Object,
    /// The elements of an array of references, by index.
    Refs,
    /// The elements of an array of whole numbers or booleans, by index.
    Ints,
    /// The units of a string.
    Text,
}

impl Kind {
    ghost use Rattle.heap_face.specs.Heap.{header_words};

    /// How many words stand before the contents: the class, the shape and serial, and the lock, and
    /// before elements and units their number.
    pub fn header_words(self) -> u32
        ensures { result ≡ header_words self }
    {
        match self {
            Kind::Object => 3,
            Kind::Refs | Kind::Ints | Kind::Text => 4,
        }
    }
}

/// The class, the kind and the size of an object.
#[derive(Clone, Copy, Debug, PartialEq, Eq)]
pub struct Shape {
    pub class: ClassNo,
    pub kind: Kind,
    /// Its header with its contents: three words and a word for each field, or four words and a word
    /// for each element or unit.
    pub words: u32,
}
