//! The law of local steps.

ghost use Rattle.frame_laws.specs.Laws.{LocalStepKeeps};

/// In a verified world a local step of a frame that conforms isn't wrong, and leads to one that
/// conforms.
pub fn local_step_keeps()
    ensures { LocalStepKeeps }
{}
