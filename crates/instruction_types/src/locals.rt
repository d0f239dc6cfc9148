//! Loads and stores, and `iinc` (JVMS 4.10.1.7, 4.10.1.9).

ghost use Rattle.std.specs.Prelude.{◌≡◌, option_map, OnOk};
ghost use Rattle.world_model.specs.World.{World as ModelWorld};
ghost use Rattle.typing_model.specs.LocalTypes.{loaded, stored, put as put_into, incremented};
ghost use Rattle.jv_types.specs.Instruction.{value_kind_of};
ghost use Rattle.type_rules.specs.Types.{type_of, IsKnownType};
ghost use Rattle.type_rules.specs.Frames.{types_of, frame_of, IsKnownFrame};
ghost use Rattle.instruction_types.specs.Outcome.{Gives, IsTyped};
ghost use Rattle.instruction_types.specs.Locals.{before_cut};

use crate::environment::{Environment, TypingError};
use crate::operands::{is_of_kind, push_all};
use jv_types::ValueKind;
use type_rules::{TypeFrame, VerificationType};

/// `iload`, `lload` and `aload`. Where the local isn't of the kind, the frame stays.
pub fn load(
    here: &Environment,
    frame: &mut TypeFrame,
    kind: ValueKind,
    local: u16,
) -> Result<(), TypingError>
    ensures typed { (world : ModelWorld) → IsTyped world here.now result
        (λ e. loaded e (value_kind_of kind) local) frame.old frame.new }
    ensures known { (world : ModelWorld) → IsKnownFrame world frame.old
        → OnOk result (IsKnownFrame world frame.new) }
{
    let Some(type_there) = frame.local(u32::from(local)) else {
        return Err(TypingError::Misfit);
    };
    if !is_of_kind(kind, type_there) {
        return Err(TypingError::Misfit);
    }
    push_all(here, frame, &[type_there])
}

/// Makes the local right before a place no Long any more, where it is one.
fn cut_before(frame: &mut TypeFrame, local: u32)
    ensures { frame.new
        ≡ record frame.old { locals = before_cut local frame.old.locals } }
{
    if local == 0 {
        return;
    }
    if let Some(VerificationType::Long) = frame.local(local - 1) {
        frame.set_local(local - 1, VerificationType::Top);
    }
}

/// Puts a type into a local; a Long takes the next one, too.
fn put(frame: &mut TypeFrame, local: u16, stored: VerificationType) -> Result<(), TypingError>
    ensures typed { (world : ModelWorld) → Gives result
        (option_map (λ locals. record { locals = locals; stack = types_of world frame.old.stack })
        (put_into local (type_of world stored) (types_of world frame.old.locals)))
        (frame_of world frame.new) }
    ensures known { (world : ModelWorld) → IsKnownFrame world frame.old
        → IsKnownType world stored → OnOk result (IsKnownFrame world frame.new) }
{
    let number = u32::from(local);
    let Some(_) = frame.local(number) else {
        return Err(TypingError::Misfit);
    };
    cut_before(frame, number);
    frame.set_local(number, stored);
    let VerificationType::Long = stored else {
        return Ok(());
    };
    let Some(_) = frame.local(number + 1) else {
        return Err(TypingError::Misfit);
    };
    frame.set_local(number + 1, VerificationType::Top);
    Ok(())
}

/// `istore`, `lstore` and `astore`.
pub fn store(frame: &mut TypeFrame, kind: ValueKind, local: u16) -> Result<(), TypingError>
    ensures typed { (world : ModelWorld) → Gives result
        (stored (value_kind_of kind) local (frame_of world frame.old)) (frame_of world frame.new) }
    ensures known { (world : ModelWorld) → IsKnownFrame world frame.old
        → OnOk result (IsKnownFrame world frame.new) }
{
    let Some(operand) = frame.operand(0) else {
        return Err(TypingError::Misfit);
    };
    if !is_of_kind(kind, operand) {
        return Err(TypingError::Misfit);
    }
    frame.drop_operands(1);
    put(frame, local, operand)
}

/// `iinc`, which changes no type.
pub fn increment(frame: &TypeFrame, local: u16) -> Result<(), TypingError>
    ensures { (world : ModelWorld) → Gives result (incremented local (frame_of world frame.now))
        (frame_of world frame.now) }
{
    let Some(type_there) = frame.local(u32::from(local)) else {
        return Err(TypingError::Misfit);
    };
    if !is_of_kind(ValueKind::Int, type_there) {
        return Err(TypingError::Misfit);
    }
    Ok(())
}
