//! The laws of the start.

ghost use Rattle.start_laws.specs.Laws.{StartConforms, StartedConforms, StartedGoesOn};

/// The machine as a program starts conforms, in the program's world.
pub fn start_conforms()
    ensures { StartConforms }
{}

/// After a legal list of entries of steps from the start the machine conforms, in the program's world.
pub fn started_conforms()
    ensures { StartedConforms }
{}

/// Where the run has no end then, some thread can make a step, or an attempt to update may be made.
pub fn started_goes_on()
    ensures { StartedGoesOn }
{}
