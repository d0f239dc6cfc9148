//! The laws of the classes and the code of a linked world (JVMS 4.9.1, 5.4).

ghost use Rattle.linked_world_laws.specs.Laws.{WorldsAreOrderly, CodeStandsRight, FramesAreSmall};
ghost use Rattle.linked_world_laws.specs.Laws.{BootClassesAreThere, InstructionsUseWhatIsThere};

/// No class is above itself, each class above another is there, nothing is above java/lang/Object,
/// and above an interface are interfaces and that class.
pub fn worlds_are_orderly()
    ensures { WorldsAreOrderly }
{}

/// The instructions of a method stand one behind another, the first at 0, and branches and handlers
/// lead to instructions.
pub fn code_stands_right()
    ensures { CodeStandsRight }
{}

/// No method has more words for a frame than frames may have.
pub fn frames_are_small()
    ensures { FramesAreSmall }
{}

/// The machine's own classes are there, as it uses them.
pub fn boot_classes_are_there()
    ensures { BootClassesAreThere }
{}

/// Each instruction of a method uses what is there, and of the kind that it wants: fields have
/// places in the objects that may stand there, calls lead to methods that can be run, and `new`
/// makes objects of classes, where it names no array.
pub fn instructions_use_what_is_there()
    ensures { InstructionsUseWhatIsThere }
{}
