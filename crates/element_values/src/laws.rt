//! Laws of elements of arrays.

ghost use Rattle.element_values.specs.Laws.{ElementsAreRead, ElementsAreWritten};

/// The array at an address is one of the definitions, with as many elements as it has words, and each
/// element is the value of its word.
pub fn elements_are_read()
    ensures { ElementsAreRead }
{}

/// Where a word of an array is replaced by one that names nothing or what is live, the heap is that of
/// the definitions in which the element at that index is the word's value. No address names another
/// object than before.
pub fn elements_are_written()
    ensures { ElementsAreWritten }
{}
