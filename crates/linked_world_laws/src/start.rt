//! The laws of the start of a linked program (JVMS 5.2, 5.5).

ghost use Rattle.linked_world_laws.specs.Laws.{FirstMethodsCanBegin, StaticsStartDeclared};
ghost use Rattle.linked_world_laws.specs.Laws.{StringsAreForStrings};

/// Main and the initializers of the program's classes can be begun: they are static, have code, and
/// take nothing or the program's arguments.
pub fn first_methods_can_begin()
    ensures { FirstMethodsCanBegin }
{}

/// Static fields start with values of their descriptors.
pub fn statics_start_declared()
    ensures { StaticsStartDeclared }
{}

/// Only static fields for Strings start with strings.
pub fn strings_are_for_strings()
    ensures { StringsAreForStrings }
{}
