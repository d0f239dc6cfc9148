//! Calls of constructors, and `invokespecial` (JVMS 4.10.1.9).

ghost use Rattle.std.specs.Prelude.{◌≡◌, ℕ, true, option_map, IfSome, OnOk};
ghost use Rattle.std.specs.List.{list_any};
ghost use Rattle.jv_model.specs.Code.{Placed};
ghost use Rattle.world_model.specs.World.{Class};
ghost use Rattle.code_model.specs.Names.{operand_at, named_placed};
ghost use Rattle.code_model.specs.MappedInstruction.{mapped_instruction};
ghost use Rattle.link_model.specs.UseFaults.{is_class_where};
ghost use Rattle.typing_model.specs.VerificationType.{this, new_at};
ghost use Rattle.typing_model.specs.Environment.{Environment as ModelEnvironment};
ghost use Rattle.typing_model.specs.CallTypes.{is_new_of as is_model_new_of, is_own_or_super as is_model_own_or_super, initialized as model_initialized};
ghost use Rattle.jv_types.specs.ClassData.{pool_of};
ghost use Rattle.jv_types.specs.Instruction.{instruction_of};
ghost use Rattle.type_rules.specs.Types.{type_of, IsKnownType};
ghost use Rattle.type_rules.specs.Frames.{IsKnownFrame};
ghost use Rattle.instruction_types.specs.Environment.{IsEnvironment, IsReady};
ghost use Rattle.instruction_types.specs.Outcome.{IsTyped};
ghost use Rattle.instruction_types.specs.Wanted.{tests_of, AreKnownWanted};
ghost use Rattle.member_types.specs.Names.{reference_of};
ghost use Rattle.linked_laws.specs.Operands.{IsLinkedMethod};
ghost use Rattle.member_types.specs.Replacements.{type_of_uninitialized};
ghost use Rattle.member_types.specs.Constructors.{makes as model_makes, HasCode, IsTypedIn, taken_and_replaced, constructor_called};

use crate::names::{MemberName, class_name, has_name};
use crate::replacements::{
    Uninitialized, replace_locals, replace_operands, uninitialized_type, wanted_uninitialized,
};
use crate::signatures::{operands_wanted, read_signature};
use class_world::World;
use instruction_types::{Environment, TypingError, Wanted, pop_all};
use jv_types::{Const, Instruction, Instructions, Steps};
use std::alloc::Global;
use std::sync::ledger::Ledger;
use type_rules::{TypeFrame, VerificationType};

/// The code of a method: its instructions over the pool of its class.
#[derive(Clone, Copy)]
pub struct Code<'a> {
    pub pool: &'a [Const],
    pub instructions: &'a Instructions,
}

/// Whether an instruction is a `new` of that class.
#[tactic(auto, unfolding(code_model::specs::Names::operand_at))]
fn is_new_of(pool: &[Const], instruction: &Instruction, class: &[u16]) -> bool
    ensures { result ≡ is_model_new_of class.now
        (mapped_instruction (operand_at (pool_of pool.now)) (instruction_of instruction.now)) }
{
    let Instruction::New(index) = instruction else {
        return false;
    };
    match class_name(pool, *index) {
        Some(made) => made == class,
        None => false,
    }
}

/// Whether at that pc a `new` of that class stands.
fn is_made_at(pool: &[Const], instructions: &Instructions, class: &[u16], pc: u32) -> bool
    ensures { result ≡ list_any (λ (placed : Placed ℕ). model_makes class.now pc
        (named_placed (pool_of pool.now) placed)) instructions.now }
{
    match instructions.number_at(pc) {
        Some(number) => is_new_of(pool, &instructions.get(number).instruction, class),
        None => false,
    }
}

/// Whether a name is that of the method's own class, or of its superclass.
fn is_own_or_super(world: &World, here: &Environment, class: &[u16]) -> bool
    requires { IsReady world.now here.now }
    ensures { (e : ModelEnvironment) → IsEnvironment world.now here.now e
        → result ≡ is_model_own_or_super e class.now }
{
    if has_name(world, here.class, class) {
        return true;
    }
    match here.superclass {
        Some(superclass) => has_name(world, superclass, class),
        None => false,
    }
}

/// What uninitialized `this` is after a call of a constructor of that class, where it may be called.
fn initialized_this(world: &World, here: &Environment, class: &[u16]) -> Option<VerificationType>
    requires here { IsReady world.now here.now }
    ensures same { (e : ModelEnvironment) → IsEnvironment world.now here.now e
        → option_map (type_of world.now) result ≡ model_initialized e class.now this }
    ensures known { IfSome result (IsKnownType world.now) }
{
    if is_own_or_super(world, here, class) {
        Some(VerificationType::Class(here.class))
    } else {
        None
    }
}

/// What the `new` at that pc made is after a call of a constructor of that class, where it may be
/// called.
fn initialized_new(world: &World, code: &Code, class: &[u16], pc: u32) -> Option<VerificationType>
    requires class { is_class_where world.now (λ (class : Class). true) class.now ≡ true }
    ensures same { (e : ModelEnvironment) → HasCode code.now e
        → option_map (type_of world.now) result ≡ model_initialized e class.now (new_at pc) }
    ensures known { IfSome result (IsKnownType world.now) }
{
    if is_made_at(code.pool, code.instructions, class, pc) {
        let made = world.class_named(class).unwrap();
        Some(VerificationType::Class(made))
    } else {
        None
    }
}

/// What the receiver of a constructor of that class is after the call, where it may be called.
fn initialized(
    world: &World,
    here: &Environment,
    code: &Code,
    class: &[u16],
    old: Uninitialized,
) -> Option<VerificationType>
    requires here { IsReady world.now here.now }
    requires class { is_class_where world.now (λ (class : Class). true) class.now ≡ true }
    ensures same { (e : ModelEnvironment) → IsEnvironment world.now here.now e → HasCode code.now e
        → option_map (type_of world.now) result
        ≡ model_initialized e class.now (type_of world.now (type_of_uninitialized old)) }
    ensures known { IfSome result (IsKnownType world.now) }
{
    match old {
        Uninitialized::This => initialized_this(world, here, class),
        Uninitialized::New(pc) => initialized_new(world, code, class, pc),
    }
}

/// Takes operands, and puts an object in the place of an uninitialized type.
fn initialize<L: Ledger>(
    world: &World,
    here: &Environment,
    frame: &mut TypeFrame,
    wanted: &[Wanted],
    old: Uninitialized,
    object: VerificationType,
    steps: &mut Steps<L>,
) -> Result<(), TypingError>
    requires here { IsReady world.now here.now }
    requires frame { IsKnownFrame world.now frame.old }
    requires wanted { AreKnownWanted world.now wanted.now }
    requires object { IsKnownType world.now object }
    ensures typed { IsTyped world.now here.now result
        (λ e. taken_and_replaced (tests_of world.now e wanted.now)
        (type_of world.now (type_of_uninitialized old)) (type_of world.now object))
        frame.old frame.new }
    ensures known { OnOk result (IsKnownFrame world.now frame.new) }
{
    pop_all(world, here, frame, wanted, steps)?;
    replace_locals(frame, old, object);
    replace_operands(frame, old, object);
    Ok(())
}

/// A call of a constructor. Each class looked at is a step.
pub fn call_constructor<L: Ledger>(
    alloc: Global,
    world: &World,
    here: &Environment,
    code: &Code,
    frame: &mut TypeFrame,
    method: &MemberName,
    steps: &mut Steps<L>,
) -> Result<(), TypingError>
    requires here { IsReady world.now here.now }
    requires frame { IsKnownFrame world.now frame.old }
    requires linked { IsLinkedMethod world.now (reference_of method.now) }
    ensures typed { IsTypedIn world.now here.now code.now result
        (λ e. constructor_called e (reference_of method.now)) frame.old frame.new }
    ensures known { OnOk result (IsKnownFrame world.now frame.new) }
{
    let signature = read_signature(alloc, world, method.descriptor)?;
    let Some(receiver) = frame.operand(signature.parameters.len()) else {
        return Err(TypingError::Misfit);
    };
    let Some(old) = uninitialized_type(receiver) else {
        return Err(TypingError::Misfit);
    };
    let Some(object) = initialized(world, here, code, method.class, old) else {
        return Err(TypingError::Misfit);
    };
    if signature.result.is_some() {
        return Err(TypingError::Misfit);
    }
    let receiver = Some(wanted_uninitialized(old));
    let wanted = operands_wanted(alloc, signature.parameters.as_slice(), receiver)?;
    initialize(world, here, frame, wanted.as_slice(), old, object, steps)
}
