//! The laws of assembler texts.

ghost use Rattle.assembler_laws.specs.Laws.{AssembledIsInProfile, AssembledFits};

/// What a text assembles to is in the profile of class files of Java SE 8, where each length in it
/// is one that a class file can write.
pub fn assembled_is_in_profile()
    ensures { AssembledIsInProfile }
{}

/// A class file can write the lengths of what a text assembles to, where the text is no longer than
/// a file may be.
pub fn assembled_fits()
    ensures { AssembledFits }
{}
