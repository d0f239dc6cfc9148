//! The laws of entries of steps.

ghost use Rattle.run_laws.specs.Laws.{RunFront, RunsAreOne, RunIsParts, StepCounts, RunCounts};
ghost use Rattle.run_laws.specs.Laws.{StepKeeps, RunKeeps};

/// A front of a legal entry of steps is legal.
pub fn run_front()
    ensures { RunFront }
{}

/// Two entries of one thread, at whose seam nothing ends an entry, are one.
pub fn runs_are_one()
    ensures { RunsAreOne }
{}

/// An entry of steps is its parts.
pub fn run_is_parts()
    ensures { RunIsParts }
{}

/// A step counts as one, and changes neither the program nor what attempts noted.
pub fn step_counts()
    ensures { StepCounts }
{}

/// An entry of steps counts as so many.
pub fn run_counts()
    ensures { RunCounts }
{}

/// A step of one thread leaves the classes, every other thread, and what each object is.
pub fn step_keeps()
    ensures { StepKeeps }
{}

/// So does an entry of steps.
pub fn run_keeps()
    ensures { RunKeeps }
{}
