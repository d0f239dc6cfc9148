//! What a local step leaves.

ghost use Rattle.local_runs.specs.Law.{StepKeepsMethod};

/// A local step neither reads nor changes the method and the held receiver of its frame.
pub fn step_keeps_method()
    ensures { StepKeepsMethod }
{}
