//! Instructions that take and put operands of fixed types.

ghost use Rattle.std.specs.Prelude.{◌≡◌, ◌∷◌, [], OnOk};
ghost use Rattle.world_model.specs.World.{World as ModelWorld};
ghost use Rattle.world_model.specs.BootNames.{java_throwable};
ghost use Rattle.typing_model.specs.VerificationType.{is_of_kind, class};
ghost use Rattle.typing_model.specs.NumberTypes.{converted as model_converted};
ghost use Rattle.typing_model.specs.Transition.{popped, pushed, changed, to};
ghost use Rattle.jv_types.specs.Instruction.{value_kind_of, conversion_of};
ghost use Rattle.type_rules.specs.Types.{type_of, IsKnownType};
ghost use Rattle.type_rules.specs.Frames.{IsKnownFrame};
ghost use Rattle.instruction_types.specs.Environment.{IsReady};
ghost use Rattle.instruction_types.specs.Outcome.{IsTyped};
ghost use Rattle.instruction_types.specs.Wanted.{test_of, IsKnownWanted};

use class_world::World;
use instruction_types::{Environment, TypingError, Wanted, change, pop_all, push_all};
use jv_types::{Conversion, Steps, ValueKind};
use std::sync::ledger::Ledger;
use type_rules::{TypeFrame, VerificationType};

/// Puts a type on top.
pub fn push(
    here: &Environment,
    frame: &mut TypeFrame,
    there: VerificationType,
) -> Result<(), TypingError>
    ensures typed { (world : ModelWorld) → IsTyped world here.now result
        (λ e. pushed e (type_of world there ∷ [])) frame.old frame.new }
    ensures known { (world : ModelWorld) → IsKnownFrame world frame.old
        → IsKnownType world there → OnOk result (IsKnownFrame world frame.new) }
{
    push_all(here, frame, &[there])
}

/// Takes an operand.
pub fn pop<L: Ledger>(
    world: &World,
    here: &Environment,
    frame: &mut TypeFrame,
    wanted: Wanted,
    steps: &mut Steps<L>,
) -> Result<(), TypingError>
    requires here { IsReady world.now here.now }
    requires frame { IsKnownFrame world.now frame.old }
    requires wanted { IsKnownWanted world.now wanted }
    ensures typed { IsTyped world.now here.now result
        (λ e. popped (test_of world.now e wanted ∷ [])) frame.old frame.new }
    ensures known { OnOk result (IsKnownFrame world.now frame.new) }
{
    pop_all(world, here, frame, &[wanted], steps)
}

/// Takes two operands of one kind.
pub fn pop_two<L: Ledger>(
    world: &World,
    here: &Environment,
    frame: &mut TypeFrame,
    kind: ValueKind,
    steps: &mut Steps<L>,
) -> Result<(), TypingError>
    requires here { IsReady world.now here.now }
    requires frame { IsKnownFrame world.now frame.old }
    ensures typed { IsTyped world.now here.now result
        (λ e. popped (is_of_kind (value_kind_of kind) ∷ is_of_kind (value_kind_of kind) ∷ []))
        frame.old frame.new }
    ensures known { OnOk result (IsKnownFrame world.now frame.new) }
{
    pop_all(
        world,
        here,
        frame,
        &[Wanted::Of(kind), Wanted::Of(kind)],
        steps,
    )
}

/// Takes an operand, and puts a type in its place.
pub fn change_one<L: Ledger>(
    world: &World,
    here: &Environment,
    frame: &mut TypeFrame,
    wanted: Wanted,
    there: VerificationType,
    steps: &mut Steps<L>,
) -> Result<(), TypingError>
    requires here { IsReady world.now here.now }
    requires frame { IsKnownFrame world.now frame.old }
    requires wanted { IsKnownWanted world.now wanted }
    requires there { IsKnownType world.now there }
    ensures typed { IsTyped world.now here.now result
        (λ e. changed e (test_of world.now e wanted ∷ []) (type_of world.now there ∷ []))
        frame.old frame.new }
    ensures known { OnOk result (IsKnownFrame world.now frame.new) }
{
    change(world, here, frame, &[wanted], &[there], steps)
}

/// Takes two operands, the first at the top, and puts a type in their place.
pub fn change_two<L: Ledger>(
    world: &World,
    here: &Environment,
    frame: &mut TypeFrame,
    kinds: (ValueKind, ValueKind),
    there: VerificationType,
    steps: &mut Steps<L>,
) -> Result<(), TypingError>
    requires here { IsReady world.now here.now }
    requires frame { IsKnownFrame world.now frame.old }
    requires there { IsKnownType world.now there }
    ensures typed { IsTyped world.now here.now result
        (λ e. changed e
        (is_of_kind (value_kind_of kinds.0) ∷ is_of_kind (value_kind_of kinds.1) ∷ [])
        (type_of world.now there ∷ [])) frame.old frame.new }
    ensures known { OnOk result (IsKnownFrame world.now frame.new) }
{
    let (first, second) = kinds;
    change(
        world,
        here,
        frame,
        &[Wanted::Of(first), Wanted::Of(second)],
        &[there],
        steps,
    )
}

/// `i2l`, `l2i`, `i2b`, `i2c` and `i2s`.
pub fn convert<L: Ledger>(
    world: &World,
    here: &Environment,
    frame: &mut TypeFrame,
    conversion: Conversion,
    steps: &mut Steps<L>,
) -> Result<(), TypingError>
    requires here { IsReady world.now here.now }
    requires frame { IsKnownFrame world.now frame.old }
    ensures typed { IsTyped world.now here.now result
        (λ e. model_converted e (conversion_of conversion)) frame.old frame.new }
    ensures known { OnOk result (IsKnownFrame world.now frame.new) }
{
    let int = Wanted::Of(ValueKind::Int);
    match conversion {
        Conversion::IntToLong => {
            change_one(world, here, frame, int, VerificationType::Long, steps)
        }
        Conversion::LongToInt => {
            let long = Wanted::Of(ValueKind::Long);
            change_one(world, here, frame, long, VerificationType::Int, steps)
        }
        Conversion::IntToByte | Conversion::IntToChar | Conversion::IntToShort => {
            change_one(world, here, frame, int, VerificationType::Int, steps)
        }
    }
}

/// `athrow`.
pub fn athrow<L: Ledger>(
    world: &World,
    here: &Environment,
    frame: &mut TypeFrame,
    steps: &mut Steps<L>,
) -> Result<(), TypingError>
    requires here { IsReady world.now here.now }
    requires frame { IsKnownFrame world.now frame.old }
    ensures typed { IsTyped world.now here.now result
        (λ e. popped (to e (class java_throwable) ∷ [])) frame.old frame.new }
    ensures known { OnOk result (IsKnownFrame world.now frame.new) }
{
    let throwable = VerificationType::Class(here.throwable);
    pop(world, here, frame, Wanted::To(throwable), steps)
}
