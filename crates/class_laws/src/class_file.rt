//! The laws of class files.

ghost use Rattle.class_laws.specs.Laws.{CountsFit, OneSpelling, ClassIsRead, RefusedIsUnspelled};

/// No limit is met exactly where each count of a class file has two bytes.
pub fn counts_fit()
    ensures { CountsFit }
{}

/// Bytes spell the data of one class file at the most: no two of them have the same bytes.
pub fn one_spelling()
    ensures { OneSpelling }
{}

/// What is read of bytes is what they spell, and what they spell is read where they are no more
/// than a class file may have.
pub fn class_is_read()
    ensures { ClassIsRead }
{}

/// Bytes that are refused, and are not too many, spell no class file's data.
pub fn refused_is_unspelled()
    ensures { RefusedIsUnspelled }
{}
