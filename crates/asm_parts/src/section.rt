//! The sections of a text, outside methods.

/// What the lines outside methods come to, in this order.
#[derive(Clone, Copy, Debug)]
pub enum Section {
    Start = 0,
    Flags = 1,
    Interfaces = 2,
    Fields = 3,
    Methods = 4,
    Attributes = 5,
}
