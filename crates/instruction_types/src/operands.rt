//! Operands that are taken off the stack of a frame, and types that are put on it.

ghost use Rattle.std.specs.Prelude.{◌≡◌, ◌∷◌, [], ◌++◌, nat_le, OnOk};
ghost use Rattle.std.specs.List.{sum_by};
ghost use Rattle.world_model.specs.World.{World as ModelWorld};
ghost use Rattle.typing_model.specs.Environment.{Environment as ModelEnvironment};
ghost use Rattle.typing_model.specs.Transition.{popped, pushed, changed as changed_by, to as to_model};
ghost use Rattle.typing_model.specs.ArrayTypes.{is_array_of as is_model_array_of};
ghost use Rattle.jv_types.specs.Instruction.{element_kind_of, value_kind_of};
ghost use Rattle.typing_model.specs.VerificationType.{is_of_kind as is_model_of_kind, words_of as total_words, class as class_type};
ghost use Rattle.class_world.specs.World.{name_at};
ghost use Rattle.type_rules.specs.Types.{type_of, IsKnown, IsKnownType};
ghost use Rattle.type_rules.specs.Frames.{types_of, words_of, AreKnown, IsKnownFrame};
ghost use Rattle.instruction_types.specs.Environment.{IsReady};
ghost use Rattle.instruction_types.specs.Outcome.{IsTyped};
ghost use Rattle.instruction_types.specs.Wanted.{component_of, test_of, tests_of, IsKnownWanted, AreKnownWanted};

use crate::environment::{Environment, TypingError};
use class_world::World;
use jv_types::{ClassNo, ElementKind, Steps, ValueKind};
use std::sync::ledger::Ledger;
use type_rules::{ElementType, FieldType, TypeFrame, VerificationType, operand_assignable};

/// What an operand has to be.
#[derive(Clone, Copy, Debug)]
pub enum Wanted {
    /// Of a kind; a reference is null, or an object, initialized or not.
    Of(ValueKind),
    /// An array of any kind, or null.
    AnyArray,
    /// What goes where that type is wanted.
    To(VerificationType),
    /// An array of that kind, or null.
    ArrayOf(ElementKind),
    /// What goes where either of those classes is wanted.
    Both(ClassNo, ClassNo),
    /// An object of that class; or, where that is allowed, uninitialized `this`.
    Owner(bool, ClassNo),
    /// Uninitialized `this` itself.
    This,
    /// What the `new` at that pc made.
    New(u32),
}

/// The components of an array of a kind.
fn component(here: &Environment, kind: ElementKind) -> FieldType
    ensures { result ≡ component_of here.now kind }
{
    let element = match kind {
        ElementKind::Int => ElementType::Int,
        ElementKind::Long => ElementType::Long,
        ElementKind::Reference => ElementType::Class(here.object),
        ElementKind::Byte => ElementType::Byte,
        ElementKind::Char => ElementType::Char,
        ElementKind::Short => ElementType::Short,
    };
    FieldType {
        dimensions: 0,
        element,
    }
}

/// The words of some types.
fn words(types: &[VerificationType]) -> u64
    ensures { result ≡ sum_by words_of types.now }
{
    let mut words = 0u64;
    for type_there in types {
        words += match type_there {
            VerificationType::Long => 2,
            _ => 1,
        };
    }
    words
}

/// Whether an operand is an array of a kind, or null.
fn is_array_of<L: Ledger>(
    world: &World,
    here: &Environment,
    kind: ElementKind,
    operand: VerificationType,
    steps: &mut Steps<L>,
) -> bool
    requires here { IsReady world.now here.now }
    requires operand { IsKnownType world.now operand }
    ensures { (e : ModelEnvironment) → e.world ≡ world.now
        → result ≡ is_model_array_of e (element_kind_of kind) (type_of world.now operand) }
{
    let array = VerificationType::Array(component(here, kind));
    if operand_assignable(world, operand, array, steps) {
        return true;
    }
    let booleans = VerificationType::Array(FieldType {
        dimensions: 0,
        element: ElementType::Boolean,
    });
    match kind {
        ElementKind::Byte => operand_assignable(world, operand, booleans, steps),
        _ => false,
    }
}

/// Whether a type is of a kind.
pub fn is_of_kind(kind: ValueKind, type_there: VerificationType) -> bool
    ensures { (world : ModelWorld) → result
        ≡ is_model_of_kind (value_kind_of kind) (type_of world type_there) }
{
    match kind {
        ValueKind::Int => matches!(type_there, VerificationType::Int),
        ValueKind::Long => matches!(type_there, VerificationType::Long),
        ValueKind::Reference => !matches!(
            type_there,
            VerificationType::Top | VerificationType::Int | VerificationType::Long
        ),
    }
}

/// Whether an operand goes where one of a class is wanted.
fn goes_to_class<L: Ledger>(
    world: &World,
    operand: VerificationType,
    class: ClassNo,
    steps: &mut Steps<L>,
) -> bool
    requires operand { IsKnownType world.now operand }
    requires class { IsKnown world.now class }
    ensures { (e : ModelEnvironment) → e.world ≡ world.now
        → result ≡ to_model e (class_type (name_at world.now class)) (type_of world.now operand) }
{
    operand_assignable(world, operand, VerificationType::Class(class), steps)
}

/// Whether an operand is as it has to be.
#[tactic(auto, unfolding(typing_model::specs::VerificationType::is_same))]
fn takes<L: Ledger>(
    world: &World,
    here: &Environment,
    wanted: Wanted,
    operand: VerificationType,
    steps: &mut Steps<L>,
) -> bool
    requires here { IsReady world.now here.now }
    requires wanted { IsKnownWanted world.now wanted }
    requires operand { IsKnownType world.now operand }
    ensures { (e : ModelEnvironment) → e.world ≡ world.now
        → result ≡ test_of world.now e wanted (type_of world.now operand) }
{
    match wanted {
        Wanted::Of(kind) => is_of_kind(kind, operand),
        Wanted::AnyArray => matches!(operand, VerificationType::Array(_) | VerificationType::Null),
        Wanted::To(wanted) => operand_assignable(world, operand, wanted, steps),
        Wanted::ArrayOf(kind) => is_array_of(world, here, kind, operand, steps),
        Wanted::Both(one, other) => {
            goes_to_class(world, operand, one, steps) && goes_to_class(world, operand, other, steps)
        }
        Wanted::Owner(takes_this, class) => match operand {
            VerificationType::This => takes_this,
            _ => goes_to_class(world, operand, class, steps),
        },
        Wanted::This => matches!(operand, VerificationType::This),
        Wanted::New(pc) => matches!(operand, VerificationType::New(made) if made == pc),
    }
}

/// Takes the topmost operand, where it is as it has to be.
fn pop<L: Ledger>(
    world: &World,
    here: &Environment,
    frame: &mut TypeFrame,
    wanted: Wanted,
    steps: &mut Steps<L>,
) -> Result<(), TypingError>
    requires here { IsReady world.now here.now }
    requires frame { IsKnownFrame world.now frame.old }
    requires wanted { IsKnownWanted world.now wanted }
    ensures typed { IsTyped world.now here.now result
        (λ e. popped (test_of world.now e wanted ∷ [])) frame.old frame.new }
    ensures known { OnOk result (IsKnownFrame world.now frame.new) }
{
    let Some(operand) = frame.operand(0) else {
        return Err(TypingError::Misfit);
    };
    if !takes(world, here, wanted, operand, steps) {
        return Err(TypingError::Misfit);
    }
    frame.drop_operands(1);
    Ok(())
}

/// Takes the topmost operands, where each is as it has to be, the first at the top. Each class
/// looked at is a step.
pub fn pop_all<L: Ledger>(
    world: &World,
    here: &Environment,
    frame: &mut TypeFrame,
    wanted: &[Wanted],
    steps: &mut Steps<L>,
) -> Result<(), TypingError>
    requires here { IsReady world.now here.now }
    requires frame { IsKnownFrame world.now frame.old }
    requires wanted { AreKnownWanted world.now wanted.now }
    ensures typed { IsTyped world.now here.now result
        (λ e. popped (tests_of world.now e wanted.now)) frame.old frame.new }
    ensures known { OnOk result (IsKnownFrame world.now frame.new) }
{
    for operand in wanted {
        pop(world, here, frame, *operand, steps)?;
    }
    Ok(())
}

/// Whether types find room on the stack of a frame, which has so many words at the most.
fn has_room(max_stack: u16, frame: &TypeFrame, types: &[VerificationType]) -> bool
    ensures { (world : ModelWorld) → result
        ≡ nat_le (total_words (types_of world types.now ++ types_of world frame.now.stack))
        max_stack }
{
    let most = u64::from(max_stack);
    let more = words(types);
    more <= most && words(frame.operands()) <= most - more
}

/// Puts types on top, the first at the top, where their words have room. Where they have none, the
/// frame stays.
pub fn push_all(
    here: &Environment,
    frame: &mut TypeFrame,
    types: &[VerificationType],
) -> Result<(), TypingError>
    ensures typed { (world : ModelWorld) → IsTyped world here.now result
        (λ e. pushed e (types_of world types.now)) frame.old frame.new }
    ensures known { (world : ModelWorld) → IsKnownFrame world frame.old
        → AreKnown world types.now → OnOk result (IsKnownFrame world frame.new) }
{
    if !has_room(here.max_stack, frame, types) {
        return Err(TypingError::Misfit);
    }
    for number in 0..types.len() {
        frame.push(types[types.len() - 1 - number])?;
    }
    Ok(())
}

/// Takes operands and puts types in their place. Each class looked at is a step.
pub fn change<L: Ledger>(
    world: &World,
    here: &Environment,
    frame: &mut TypeFrame,
    wanted: &[Wanted],
    types: &[VerificationType],
    steps: &mut Steps<L>,
) -> Result<(), TypingError>
    requires here { IsReady world.now here.now }
    requires frame { IsKnownFrame world.now frame.old }
    requires wanted { AreKnownWanted world.now wanted.now }
    requires types { AreKnown world.now types.now }
    ensures typed { IsTyped world.now here.now result
        (λ e. changed_by e (tests_of world.now e wanted.now) (types_of world.now types.now))
        frame.old frame.new }
    ensures known { OnOk result (IsKnownFrame world.now frame.new) }
{
    pop_all(world, here, frame, wanted, steps)?;
    push_all(here, frame, types)
}
