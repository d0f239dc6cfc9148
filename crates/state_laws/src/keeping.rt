//! The laws of what the machine keeps.

ghost use Rattle.state_laws.specs.Laws.{DeedIsKept, StepIsKept, RunIsKept};

/// What the next instruction of a thread comes to leaves a state that is well kept.
pub fn deed_is_kept()
    ensures { DeedIsKept }
{}

/// So does a step of a thread, also one that throws.
pub fn step_is_kept()
    ensures { StepIsKept }
{}

/// So does a legal entry of steps.
pub fn run_is_kept()
    ensures { RunIsKept }
{}
