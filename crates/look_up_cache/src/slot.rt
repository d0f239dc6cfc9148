//! What stands for what a name leads to.

use class_world::FieldPlace;
use jv_types::ClassNo;

/// What stands for a class, a field, a method or a literal while a program runs.
#[derive(Clone, Copy, Debug, PartialEq, Eq)]
pub enum Slot {
    /// A field of objects, by its place among the fields of each object that has it.
    Field(u32),
    /// A static field.
    Static(FieldPlace),
    /// A method, by its slot.
    Method(u32),
    Class(ClassNo),
    /// A String, by the number of the literal.
    Literal(u32),
}
