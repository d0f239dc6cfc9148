//! The laws of the code of a linked world (JVMS 5.4).

ghost use Rattle.linked_laws.specs.Laws.{CodesAreLinked, GroundIsThere};

/// All that the code of a method names is there: the classes of members and their types, those that
/// handlers catch and map frames name, the method's own class and types, and the class above it.
pub fn codes_are_linked()
    ensures { CodesAreLinked }
{}

/// The classes that typing looks at whatever code names are there: those of all objects, of strings
/// and of throwables.
pub fn ground_is_there()
    ensures { GroundIsThere }
{}
