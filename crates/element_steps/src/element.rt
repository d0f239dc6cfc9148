//! Where elements lie.

ghost use Rattle.std.specs.Prelude.{◌≡◌, length};
ghost use Rattle.jv_types.specs.Instruction.{element_kind_of, value_kind_of};
ghost use Rattle.machine_model.specs.ArraySteps.{kind_of_elements};
ghost use Rattle.heap_face.specs.Heap.{contents_of};
ghost use Rattle.heap_objects.specs.Words.{cell_of_kind};
ghost use Rattle.element_steps.specs.Arrays.{HasArray, IsArrayOrNull, IsFound};

use heap_face::{Addr, Cell, ObjectHeap};
use jv_types::{ElementKind, ValueKind};
use jv_values::Value;
use machine_throws::Throwable;

/// Where an element of an array lies.
#[derive(Clone, Copy, Debug, PartialEq, Eq)]
pub struct Element {
    pub array: Addr,
    pub index: u32,
}

/// The kind of value that elements of a kind are.
pub fn value_kind(kind: ElementKind) -> ValueKind
    ensures { value_kind_of result ≡ kind_of_elements (element_kind_of kind) }
{
    match kind {
        ElementKind::Long => ValueKind::Long,
        ElementKind::Reference => ValueKind::Reference,
        ElementKind::Int | ElementKind::Byte | ElementKind::Char | ElementKind::Short => {
            ValueKind::Int
        }
    }
}

/// What an element of a kind holds.
pub fn cell(kind: ElementKind) -> Cell
    ensures { result ≡ cell_of_kind (kind_of_elements (element_kind_of kind)) }
{
    match kind {
        ElementKind::Long => Cell::Long,
        ElementKind::Reference => Cell::Ref,
        ElementKind::Int | ElementKind::Byte | ElementKind::Char | ElementKind::Short => Cell::Int,
    }
}

/// How many elements the array at an address has.
pub fn element_count<H: ObjectHeap>(heap: &H, array: Addr) -> u32
    requires { HasArray (H.heap heap.now) array.0 }
    ensures { result ≡ length (contents_of (H.heap heap.now) array) }
{
    let shape = heap.shape(array);
    shape.words - shape.kind.header_words()
}

/// Where the element at an index of an array lies, or what is thrown: of null a
/// NullPointerException, and where the index isn't within the array's length an
/// ArrayIndexOutOfBoundsException.
pub fn find_element<H: ObjectHeap>(heap: &H, array: Value, index: i32) -> Result<Element, Throwable>
    requires { IsArrayOrNull (H.heap heap.now) array }
    ensures { IsFound (H.heap heap.now) array index result }
{
    let Value::Ref(address) = array else {
        return Err(Throwable::NullPointer);
    };
    let at = Addr(address as u32);
    let place = index.unsigned_abs();
    if index < 0 || place >= element_count(heap, at) {
        return Err(Throwable::ArrayIndexOutOfBounds);
    }
    Ok(Element {
        array: at,
        index: place,
    })
}
