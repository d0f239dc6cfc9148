//! The laws of programs that were linked and verified.

ghost use Rattle.program_laws.specs.Laws.{VerifiedIsRunnable, VerifiedIsStartable};
ghost use Rattle.program_laws.specs.Laws.{VerifiedConforms, VerifiedGoesOn};

/// A world that was linked, and of which no method fails to be well typed, has all that the laws of
/// the machine ask.
pub fn verified_is_runnable()
    ensures { VerifiedIsRunnable }
{}

/// A program of such a world, with room for its first two objects, has all that the laws of the
/// start ask.
pub fn verified_is_startable()
    ensures { VerifiedIsStartable }
{}

/// After every legal list of entries of steps from the start the machine conforms, in the program's
/// world: no step was wrong.
pub fn verified_conforms()
    ensures { VerifiedConforms }
{}

/// Where the run has no end then, some thread can make a step, or an attempt to update may be made.
pub fn verified_goes_on()
    ensures { VerifiedGoesOn }
{}
