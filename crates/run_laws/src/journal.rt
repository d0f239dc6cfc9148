//! The laws of journals, and of the order in which threads take turns.

ghost use Rattle.run_laws.specs.Laws.{JournalFront, JournalsAreOne, WrittenAsOne};
ghost use Rattle.run_laws.specs.Laws.{OneInTurns, TurnsAreLegal, TurnsFront};

/// A front of a legal journal is legal, and the rest is legal after it.
pub fn journal_front()
    ensures { JournalFront }
{}

/// Two legal journals, one after the other, are one.
pub fn journals_are_one()
    ensures { JournalsAreOne }
{}

/// Two entries of one thread may be written as one, where nothing ends an entry at their seam.
pub fn written_as_one()
    ensures { WrittenAsOne }
{}

/// A program has one journal in turns of each length at the most.
pub fn one_in_turns()
    ensures { OneInTurns }
{}

/// A journal in turns is legal.
pub fn turns_are_legal()
    ensures { TurnsAreLegal }
{}

/// A front of a journal in turns is one.
pub fn turns_front()
    ensures { TurnsFront }
{}
