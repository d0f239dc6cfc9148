//! The law of the boot classes.

ghost use Rattle.boot_laws.specs.Laws.{BootClassesHold};

/// A world that stands on the boot table has the throwables, the strings and the stream that the machine makes.
pub fn boot_classes_hold()
    ensures { BootClassesHold }
{}
