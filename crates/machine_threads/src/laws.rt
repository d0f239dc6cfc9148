//! Laws of threads.

ghost use Rattle.machine_threads.specs.Laws.{DeedsAreAtInstructions, ThreadsGoOn};

/// Where the newest frame of a thread goes on with other operands, so does that of the definitions.
pub fn threads_go_on()
    ensures { ThreadsGoOn }
{}

/// What a thread comes to next is what the definitions say of the instruction where it stands.
pub fn deeds_are_at_instructions()
    ensures { DeedsAreAtInstructions }
{}
