//! Values.

/// A word of a frame (JVMS 2.6.1, 2.6.2). A long takes two, of which the second is `Half`.
#[derive(Clone, Copy, Debug, PartialEq, Eq)]
pub enum Value {
    /// A boolean, byte, char, short or int.
    Int(i32),
    Long(i64),
    /// What stands after a long.
    Half,
    Null,
    /// A reference to the object with this serial.
    Ref(u64),
}
