//! The laws of what steps can reach.

ghost use Rattle.reach_laws.specs.Laws.{DeedReaches, StepReaches, RunReaches, JournalReaches};
ghost use Rattle.reach_laws.specs.Laws.{NothingComesBack, TypedReaches, ConformingLists};

/// What the next instruction of a thread leaves reaches what was in reach before, and the one
/// object that it makes.
pub fn deed_reaches()
    ensures { DeedReaches }
{}

/// So does a step of a thread, also one that throws.
pub fn step_reaches()
    ensures { StepReaches }
{}

/// A legal entry of steps reaches what was in reach before, and objects that it makes.
pub fn run_reaches()
    ensures { RunReaches }
{}

/// So does a legal journal without attempts.
pub fn journal_reaches()
    ensures { JournalReaches }
{}

/// An object that is out of reach stays so, through any legal journal without attempts.
pub fn nothing_comes_back()
    ensures { NothingComesBack }
{}

/// Where code runs that never gets stuck, what is in reach after such a journal was in reach
/// before, or is there now and wasn't before.
pub fn typed_reaches()
    ensures { TypedReaches }
{}

/// In a state that conforms reach order lists exactly what can be reached, each once.
pub fn conforming_lists()
    ensures { ConformingLists }
{}
