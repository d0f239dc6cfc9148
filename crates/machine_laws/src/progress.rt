//! The laws of steps of verified code.

ghost use Rattle.machine_laws.specs.Laws.{DeedIsRight, StepIsRight, RunConforms, JournalConforms};
ghost use Rattle.machine_laws.specs.Laws.{CanGoOn, ReachedConforms};

/// What the next instruction of a live thread comes to isn't wrong, and the state that it leads to
/// conforms.
pub fn deed_is_right()
    ensures { DeedIsRight }
{}

/// A step of a live thread isn't wrong, and the machine that it leads to conforms.
pub fn step_is_right()
    ensures { StepIsRight }
{}

/// After a legal entry of steps the machine conforms, in the same world.
pub fn run_conforms()
    ensures { RunConforms }
{}

/// After a legal journal without attempts the machine conforms, in the same world.
pub fn journal_conforms()
    ensures { JournalConforms }
{}

/// Where a run has no end, some thread can make a step, or an attempt to update may be made.
pub fn can_go_on()
    ensures { CanGoOn }
{}

/// What can be reached in a state that conforms is there, and conforms.
pub fn reached_conforms()
    ensures { ReachedConforms }
{}
