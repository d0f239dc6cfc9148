//! Which frames go where which frames are wanted (JVMS 4.10.1.4).

ghost use Rattle.std.specs.Prelude.{◌≡◌, reverse};
ghost use Rattle.std.specs.List.{list_any};
ghost use Rattle.typing_model.specs.Assignable.{locals_assignable as are_locals_assignable, frame_assignable as is_frame_assignable};
ghost use Rattle.type_rules.specs.Types.{IsKnownType, type_of};
ghost use Rattle.type_rules.specs.Frames.{is_uninitialized_this, goes_in, all_go_in, types_of, frame_of, AreKnown, IsKnownFrame};

use crate::assignment::{assignable, operand_assignable};
use crate::frame::TypeFrame;
use crate::types::VerificationType;
use class_world::World;
use jv_types::Steps;
use std::sync::ledger::Ledger;

/// Where a type stands.
#[derive(Clone, Copy)]
pub enum Place {
    Local,
    Operand,
}

/// Whether a type at a place goes where another is wanted. Any goes where a local is Top.
#[tactic(auto, unfolding(typing_model::specs::Assignable::assignable))]
fn goes<L: Ledger>(
    world: &World,
    place: Place,
    from: &VerificationType,
    to: &VerificationType,
    steps: &mut Steps<L>,
) -> bool
    requires from { IsKnownType world.now from.now }
    requires to { IsKnownType world.now to.now }
    ensures { result
        ≡ goes_in place world.now (type_of world.now from.now) (type_of world.now to.now) }
{
    match place {
        Place::Local => matches!(to, VerificationType::Top) || assignable(world, *from, *to, steps),
        Place::Operand => operand_assignable(world, *from, *to, steps),
    }
}

/// Whether types go where others are wanted, place by place.
fn all_go<L: Ledger>(
    world: &World,
    place: Place,
    from: &[VerificationType],
    to: &[VerificationType],
    steps: &mut Steps<L>,
) -> bool
    requires from { AreKnown world.now from.now }
    requires to { AreKnown world.now to.now }
    ensures { result ≡ all_go_in place world.now from.now to.now }
{
    if from.len() != to.len() {
        return false;
    }
    for (number, type_from) in from.iter().enumerate() {
        if !goes(world, place, type_from, &to[number], steps) {
            return false;
        }
    }
    true
}

/// Whether one of some types is uninitialized `this`.
pub fn has_this(types: &[VerificationType]) -> bool
    ensures { result ≡ list_any is_uninitialized_this types.now }
{
    for type_there in types {
        if let VerificationType::This = type_there {
            return true;
        }
    }
    false
}

/// Whether locals go where others are wanted.
fn locals_assignable<L: Ledger>(
    world: &World,
    from: &[VerificationType],
    to: &[VerificationType],
    steps: &mut Steps<L>,
) -> bool
    requires from { AreKnown world.now from.now }
    requires to { AreKnown world.now to.now }
    ensures { result
        ≡ are_locals_assignable world.now (types_of world.now from.now) (types_of world.now to.now) }
{
    if !all_go(world, Place::Local, from, to, steps) {
        return false;
    }
    !has_this(from) || has_this(to)
}

/// Whether locals, with these operands from the bottom up, go where a frame is wanted. Each class
/// looked at is a step.
pub fn types_assignable<L: Ledger>(
    world: &World,
    locals: &[VerificationType],
    operands: &[VerificationType],
    to: &TypeFrame,
    steps: &mut Steps<L>,
) -> bool
    requires locals { AreKnown world.now locals.now }
    requires operands { AreKnown world.now operands.now }
    requires to { IsKnownFrame world.now to.now }
    ensures { result
        ≡ is_frame_assignable world.now
        (frame_of world.now (record { locals = locals.now; stack = reverse operands.now }))
        (frame_of world.now to.now) }
{
    locals_assignable(world, locals, to.locals(), steps)
        && all_go(world, Place::Operand, operands, to.operands(), steps)
}

/// Whether one frame goes where another is wanted: its locals and operands do, place by place, and
/// where a local of it is uninitialized `this` one of the other is. Each class looked at is a step.
pub fn frame_assignable<L: Ledger>(
    world: &World,
    from: &TypeFrame,
    to: &TypeFrame,
    steps: &mut Steps<L>,
) -> bool
    requires from { IsKnownFrame world.now from.now }
    requires to { IsKnownFrame world.now to.now }
    ensures { result
        ≡ is_frame_assignable world.now (frame_of world.now from.now) (frame_of world.now to.now) }
{
    types_assignable(world, from.locals(), from.operands(), to, steps)
}
