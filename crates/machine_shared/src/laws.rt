//! Laws of static fields.

ghost use Rattle.machine_shared.specs.Laws.{StaticsAreRead, StaticsAreWritten};

/// What stands at the place of a static field is the value that the definitions find by its name.
pub fn statics_are_read()
    ensures { StaticsAreRead }
{}

/// Where a value is put at the place of a static field, that field has it, and no other changes.
pub fn statics_are_written()
    ensures { StaticsAreWritten }
{}
