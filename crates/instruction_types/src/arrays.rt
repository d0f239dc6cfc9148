//! Array loads and stores (JVMS 4.10.1.9).

ghost use Rattle.std.specs.Prelude.{◌≡◌, OnOk};
ghost use Rattle.world_model.specs.World.{World as ModelWorld};
ghost use Rattle.typing_model.specs.Environment.{Environment as ModelEnvironment};
ghost use Rattle.typing_model.specs.ArrayTypes.{is_element, component_type, element_type, array_loaded, array_stored};
ghost use Rattle.jv_types.specs.Instruction.{element_kind_of};
ghost use Rattle.type_rules.specs.Types.{type_of, IsKnownType};
ghost use Rattle.type_rules.specs.Frames.{IsKnownFrame};
ghost use Rattle.instruction_types.specs.Environment.{IsReady};
ghost use Rattle.instruction_types.specs.Outcome.{IsTyped};
ghost use Rattle.instruction_types.specs.Wanted.{test_of, IsKnownWanted};

use crate::environment::{Environment, TypingError};
use crate::operands::{Wanted, change, pop_all};
use class_world::World;
use jv_types::{ElementKind, Steps, ValueKind};
use std::sync::ledger::Ledger;
use type_rules::{TypeFrame, VerificationType};

/// What a value has to be that goes into an array of a kind.
fn element_wanted(here: &Environment, kind: ElementKind) -> Wanted
    ensures same { (world : ModelWorld) → (e : ModelEnvironment) → IsReady world here.now
        → test_of world e result ≡ is_element e (element_kind_of kind) }
    ensures known { (world : ModelWorld) → IsReady world here.now → IsKnownWanted world result }
{
    match kind {
        ElementKind::Long => Wanted::Of(ValueKind::Long),
        ElementKind::Reference => Wanted::To(VerificationType::Class(here.object)),
        ElementKind::Int | ElementKind::Byte | ElementKind::Char | ElementKind::Short => {
            Wanted::Of(ValueKind::Int)
        }
    }
}

/// What is loaded from an array of references: null from null.
fn component(array: VerificationType) -> VerificationType
    ensures same { (world : ModelWorld) → type_of world result
        ≡ component_type (type_of world array) }
    ensures known { (world : ModelWorld) → IsKnownType world array → IsKnownType world result }
{
    match array {
        VerificationType::Array(component) => component.verification_type(),
        _ => array,
    }
}

/// What is loaded from an array of a kind.
fn element(kind: ElementKind, array: VerificationType) -> VerificationType
    ensures same { (world : ModelWorld) → type_of world result
        ≡ element_type (element_kind_of kind) (type_of world array) }
    ensures known { (world : ModelWorld) → IsKnownType world array → IsKnownType world result }
{
    match kind {
        ElementKind::Long => VerificationType::Long,
        ElementKind::Reference => component(array),
        ElementKind::Int | ElementKind::Byte | ElementKind::Char | ElementKind::Short => {
            VerificationType::Int
        }
    }
}

/// `iaload` to `saload`. Each class looked at is a step.
pub fn array_load<L: Ledger>(
    world: &World,
    here: &Environment,
    frame: &mut TypeFrame,
    kind: ElementKind,
    steps: &mut Steps<L>,
) -> Result<(), TypingError>
    requires here { IsReady world.now here.now }
    requires frame { IsKnownFrame world.now frame.old }
    ensures typed { IsTyped world.now here.now result
        (λ e. array_loaded e (element_kind_of kind)) frame.old frame.new }
    ensures known { OnOk result (IsKnownFrame world.now frame.new) }
{
    let Some(array) = frame.operand(1) else {
        return Err(TypingError::Misfit);
    };
    let wanted = [Wanted::Of(ValueKind::Int), Wanted::ArrayOf(kind)];
    change(world, here, frame, &wanted, &[element(kind, array)], steps)
}

/// `iastore` to `sastore`. Each class looked at is a step.
pub fn array_store<L: Ledger>(
    world: &World,
    here: &Environment,
    frame: &mut TypeFrame,
    kind: ElementKind,
    steps: &mut Steps<L>,
) -> Result<(), TypingError>
    requires here { IsReady world.now here.now }
    requires frame { IsKnownFrame world.now frame.old }
    ensures typed { IsTyped world.now here.now result
        (λ e. array_stored e (element_kind_of kind)) frame.old frame.new }
    ensures known { OnOk result (IsKnownFrame world.now frame.new) }
{
    let element = element_wanted(here, kind);
    let wanted = [element, Wanted::Of(ValueKind::Int), Wanted::ArrayOf(kind)];
    pop_all(world, here, frame, &wanted, steps)
}
