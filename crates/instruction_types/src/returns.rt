//! Returns (JVMS 4.10.1.9).

ghost use Rattle.std.specs.Prelude.{OnOk};
ghost use Rattle.world_model.specs.World.{World as ModelWorld};
ghost use Rattle.typing_model.specs.Environment.{Environment as ModelEnvironment};
ghost use Rattle.typing_model.specs.ReturnTypes.{value_returned, returned};
ghost use Rattle.jv_types.specs.Instruction.{value_kind_of};
ghost use Rattle.type_rules.specs.Frames.{frame_of, IsKnownFrame};
ghost use Rattle.instruction_types.specs.Environment.{IsEnvironment, IsReady};
ghost use Rattle.instruction_types.specs.Outcome.{Gives, IsTyped};

use crate::environment::{Environment, TypingError};
use crate::operands::{Wanted, is_of_kind, pop_all};
use class_world::World;
use jv_types::{Steps, ValueKind};
use std::sync::ledger::Ledger;
use type_rules::{TypeFrame, has_this};

/// `ireturn`, `lreturn` and `areturn`. Each class looked at is a step.
pub fn return_value<L: Ledger>(
    world: &World,
    here: &Environment,
    frame: &mut TypeFrame,
    kind: ValueKind,
    steps: &mut Steps<L>,
) -> Result<(), TypingError>
    requires here { IsReady world.now here.now }
    requires frame { IsKnownFrame world.now frame.old }
    ensures typed { IsTyped world.now here.now result
        (λ e. value_returned e (value_kind_of kind)) frame.old frame.new }
    ensures known { OnOk result (IsKnownFrame world.now frame.new) }
{
    let Some(wanted) = here.result else {
        return Err(TypingError::Misfit);
    };
    if !is_of_kind(kind, wanted) {
        return Err(TypingError::Misfit);
    }
    pop_all(world, here, frame, &[Wanted::To(wanted)], steps)
}

/// `return`, which leaves the frame as it is.
pub fn return_void(here: &Environment, frame: &TypeFrame) -> Result<(), TypingError>
    ensures { (world : ModelWorld) → (e : ModelEnvironment) → IsEnvironment world here.now e
        → Gives result (returned e (frame_of world frame.now)) (frame_of world frame.now) }
{
    let None = here.result else {
        return Err(TypingError::Misfit);
    };
    if !here.is_constructor {
        return Ok(());
    }
    if has_this(frame.locals()) {
        return Err(TypingError::Misfit);
    }
    Ok(())
}
