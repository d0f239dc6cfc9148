//! Why a class file isn't read.

ghost use Rattle.std.specs.Prelude.{◌≡◌};
ghost use Rattle.class_reader.specs.declared.error.ClassError.TheVariants as errors;

use jv_types::{Cut, NoMemory, What};
use thiserror::Error;

/// Why the bytes are no class file that is read: the first thing that is wrong, from the front.
/// Places are bytes of the file, counted from 0, and indices are those of the constant pool.
#[derive(Clone, Copy, Debug, PartialEq, Eq, Error)]
pub enum ClassError {
    /// The item that begins at this byte isn't whole. An item is one number or one run of bytes
    /// (JVMS 4.1).
    #[error("the item at byte {at} isn't whole")]
    Truncated { at: u32 },
    /// It doesn't begin with the magic number of class files.
    #[error("no magic number of a class file")]
    Magic,
    /// It has this major version, which is not that of Java SE 7 or 8.
    #[error("the major version {major} is not that of Java SE 7 or 8")]
    Version { major: u32 },
    /// The entry at this index has no kind or names entries of wrong kinds (JVMS 4.4), or isn't of
    /// the kind that is needed where it's named.
    #[error("the entry {index} of the constant pool has no kind, or a wrong one")]
    Pool { index: u32 },
    /// The bytes of the entry at this index spell no text (JVMS 4.4.7).
    #[error("the entry {index} of the constant pool spells no text")]
    Utf8 { index: u32 },
    /// The attribute, or the method, at this byte breaks the rule on how often an attribute stands
    /// there, or on its length (JVMS 4.7).
    #[error("an attribute at byte {at} is missing, too many, or of a wrong length")]
    Attribute { at: u32 },
    /// The last attribute ends at this byte, and more follows.
    #[error("more follows behind the last attribute, from byte {at} on")]
    Extra { at: u32 },
    /// There are so many of what has a limit.
    #[error("{n} are too many ({what:?})")]
    Limit { what: What, n: u64 },
    /// There was no memory for what was read. It says nothing about the file.
    #[error("out of memory")]
    NoMemory,
}

impl From<Cut> for ClassError {
    ghost from_gives = { λ cut error. error ≡ errors.Truncated cut.at };

    fn from(cut: Cut) -> ClassError {
        ClassError::Truncated { at: cut.at }
    }
}

impl From<NoMemory> for ClassError {
    ghost from_gives = { λ _ error. error ≡ errors.NoMemory };

    fn from(_error: NoMemory) -> ClassError {
        ClassError::NoMemory
    }
}
