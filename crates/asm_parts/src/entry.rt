//! Entries of the constant pool.

use asm_lines::term::{MemberReference, ReferenceKind};

/// An entry, with names in the place of indices.
#[derive(Clone, Copy, Debug, PartialEq, Eq, Hash)]
pub enum Entry<'a> {
    Text(&'a str),
    Int(i32),
    Long(i64),
    Class(&'a str),
    String(&'a str),
    NameAndType(&'a str, &'a str),
    Member(ReferenceKind, MemberReference<'a>),
}
