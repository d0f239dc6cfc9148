//! `new`, `newarray`, `anewarray`, `checkcast` and `instanceof` (JVMS 4.10.1.9).

ghost use Rattle.std.specs.Prelude.{◌≡◌, ◌∷◌, [], OnOk};
ghost use Rattle.std.specs.List.{list_any};
ghost use Rattle.world_model.specs.World.{World as ModelWorld};
ghost use Rattle.jv_model.specs.Operand.{is_array_name as is_model_array_name};
ghost use Rattle.jv_types.specs.Instruction.{primitive_type_of};
ghost use Rattle.code_model.specs.Names.{operand_at};
ghost use Rattle.typing_model.specs.VerificationType.{array, is_int};
ghost use Rattle.typing_model.specs.Transition.{changed};
ghost use Rattle.typing_model.specs.ObjectTypes.{primitive_type as model_primitive_type, object_made, array_made, cast_checked, instance_tested};
ghost use Rattle.jv_types.specs.ClassData.{pool_of};
ghost use Rattle.type_rules.specs.Types.{field_type_of, IsKnownElement};
ghost use Rattle.type_rules.specs.Frames.{IsKnownFrame};
ghost use Rattle.instruction_types.specs.Environment.{IsReady};
ghost use Rattle.instruction_types.specs.Outcome.{IsTyped};
ghost use Rattle.linked_laws.specs.Operands.{ClassIsLinked};
ghost use Rattle.member_types.specs.Objects.{IsNamedType};
ghost use Rattle.member_types.specs.Replacements.{is_uninitialized as is_model_uninitialized};

use crate::names::class_name;
use crate::replacements::{Uninitialized, is_uninitialized, replace_locals};
use class_world::World;
use instruction_types::{Environment, TypingError, Wanted, change, push_all};
use jv_types::{Const, PrimitiveType, Steps, ValueKind};
use numbered_types::field_type;
use std::sync::ledger::Ledger;
use type_rules::{ElementType, FieldType, TypeFrame, VerificationType};

const BRACKET: u16 = 0x5b;

/// Whether the name in a Class entry is the descriptor of an array type.
fn is_array_name(name: &[u16]) -> bool
    ensures { result ≡ is_model_array_name name.now }
{
    match name {
        [first, ..] => *first == BRACKET,
        [] => false,
    }
}

/// The type that an operand names, where it names one: an array where the name is the descriptor of
/// one.
fn named_type(world: &World, pool: &[Const], index: u16) -> Option<FieldType>
    requires { ClassIsLinked world.now (operand_at (pool_of pool.now) index) }
    ensures { IsNamedType world.now (operand_at (pool_of pool.now) index) result }
{
    let Some(name) = class_name(pool, index) else {
        return None;
    };
    if is_array_name(name) {
        return Some(field_type(world, name).unwrap());
    }
    let class = world.class_named(name).unwrap();
    Some(FieldType {
        dimensions: 0,
        element: ElementType::Class(class),
    })
}

/// Whether one of some types is what the `new` at that pc made.
fn has_new(types: &[VerificationType], pc: u32) -> bool
    ensures { result ≡ list_any (is_model_uninitialized (Uninitialized.New pc)) types.now }
{
    types.iter().any(|there| matches!(there, VerificationType::New(made) if *made == pc))
}

/// `new`.
pub fn new_object(
    world: &World,
    here: &Environment,
    pool: &[Const],
    frame: &mut TypeFrame,
    pc: u32,
    index: u16,
) -> Result<(), TypingError>
    requires frame { IsKnownFrame world.now frame.old }
    requires linked { ClassIsLinked world.now (operand_at (pool_of pool.now) index) }
    ensures typed { IsTyped world.now here.now result
        (λ e. object_made e pc (operand_at (pool_of pool.now) index)) frame.old frame.new }
    ensures known { OnOk result (IsKnownFrame world.now frame.new) }
{
    let Some(named) = named_type(world, pool, index) else {
        return Err(TypingError::Misfit);
    };
    if named.dimensions > 0 {
        return Err(TypingError::Misfit);
    }
    if has_new(frame.operands(), pc) {
        return Err(TypingError::Misfit);
    }
    replace_locals(frame, Uninitialized::New(pc), VerificationType::Top);
    push_all(here, frame, &[VerificationType::New(pc)])
}

/// The components of a `newarray`.
fn primitive_type(element: PrimitiveType) -> FieldType
    ensures known { (world : ModelWorld) → IsKnownElement world result.element }
    ensures same { (world : ModelWorld) → field_type_of world result
        ≡ model_primitive_type (primitive_type_of element) }
{
    let element = match element {
        PrimitiveType::Boolean => ElementType::Boolean,
        PrimitiveType::Char => ElementType::Char,
        PrimitiveType::Byte => ElementType::Byte,
        PrimitiveType::Short => ElementType::Short,
        PrimitiveType::Int => ElementType::Int,
        PrimitiveType::Long => ElementType::Long,
    };
    FieldType {
        dimensions: 0,
        element,
    }
}

/// `newarray`. Each class looked at is a step.
pub fn newarray<L: Ledger>(
    world: &World,
    here: &Environment,
    frame: &mut TypeFrame,
    element: PrimitiveType,
    steps: &mut Steps<L>,
) -> Result<(), TypingError>
    requires here { IsReady world.now here.now }
    requires frame { IsKnownFrame world.now frame.old }
    ensures typed { IsTyped world.now here.now result
        (λ e. changed e (is_int ∷ []) (array (model_primitive_type (primitive_type_of element)) ∷ []))
        frame.old frame.new }
    ensures known { OnOk result (IsKnownFrame world.now frame.new) }
{
    let made = VerificationType::Array(primitive_type(element));
    change(
        world,
        here,
        frame,
        &[Wanted::Of(ValueKind::Int)],
        &[made],
        steps,
    )
}

/// `anewarray`. Each class looked at is a step.
pub fn anewarray<L: Ledger>(
    world: &World,
    here: &Environment,
    pool: &[Const],
    frame: &mut TypeFrame,
    index: u16,
    steps: &mut Steps<L>,
) -> Result<(), TypingError>
    requires here { IsReady world.now here.now }
    requires frame { IsKnownFrame world.now frame.old }
    requires linked { ClassIsLinked world.now (operand_at (pool_of pool.now) index) }
    ensures typed { IsTyped world.now here.now result
        (λ e. array_made e (operand_at (pool_of pool.now) index)) frame.old frame.new }
    ensures known { OnOk result (IsKnownFrame world.now frame.new) }
{
    let Some(named) = named_type(world, pool, index) else {
        return Err(TypingError::Misfit);
    };
    let made = VerificationType::Array(named);
    change(
        world,
        here,
        frame,
        &[Wanted::Of(ValueKind::Int)],
        &[made],
        steps,
    )
}

/// `checkcast`. Each class looked at is a step.
pub fn checkcast<L: Ledger>(
    world: &World,
    here: &Environment,
    pool: &[Const],
    frame: &mut TypeFrame,
    index: u16,
    steps: &mut Steps<L>,
) -> Result<(), TypingError>
    requires here { IsReady world.now here.now }
    requires frame { IsKnownFrame world.now frame.old }
    requires linked { ClassIsLinked world.now (operand_at (pool_of pool.now) index) }
    ensures typed { IsTyped world.now here.now result
        (λ e. cast_checked e (operand_at (pool_of pool.now) index)) frame.old frame.new }
    ensures known { OnOk result (IsKnownFrame world.now frame.new) }
{
    let Some(named) = named_type(world, pool, index) else {
        return Err(TypingError::Misfit);
    };
    let object = Wanted::To(VerificationType::Class(here.object));
    change(
        world,
        here,
        frame,
        &[object],
        &[named.verification_type()],
        steps,
    )
}

/// `instanceof`. Each class looked at is a step.
pub fn instanceof<L: Ledger>(
    world: &World,
    here: &Environment,
    pool: &[Const],
    frame: &mut TypeFrame,
    index: u16,
    steps: &mut Steps<L>,
) -> Result<(), TypingError>
    requires here { IsReady world.now here.now }
    requires frame { IsKnownFrame world.now frame.old }
    ensures typed { IsTyped world.now here.now result
        (λ e. instance_tested e (operand_at (pool_of pool.now) index)) frame.old frame.new }
    ensures known { OnOk result (IsKnownFrame world.now frame.new) }
{
    let Some(_) = class_name(pool, index) else {
        return Err(TypingError::Misfit);
    };
    let object = Wanted::To(VerificationType::Class(here.object));
    change(
        world,
        here,
        frame,
        &[object],
        &[VerificationType::Int],
        steps,
    )
}
