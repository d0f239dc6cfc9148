//! Types by the names of their classes.

use jv_types::List;

/// A field type that is no array (JVMS table 4.3-A).
#[derive(Clone, Copy, Debug)]
pub enum ElementType<'a> {
    Byte,
    Char,
    Double,
    Float,
    Int,
    Long,
    Short,
    Boolean,
    /// A class or an interface, by its name.
    Class(&'a [u16]),
}

/// A field type (JVMS 4.3.2): an element type, or an array of so many dimensions of it.
#[derive(Clone, Copy, Debug)]
pub struct FieldType<'a> {
    /// 0 where it is no array.
    pub dimensions: u8,
    pub element: ElementType<'a>,
}

/// The types of a method's parameters, and that of its result, unless it has none (JVMS 4.3.3).
#[derive(Debug, Drop)]
pub struct MethodType<'a> {
    pub parameters: List<FieldType<'a>>,
    pub result: Option<FieldType<'a>>,
}
