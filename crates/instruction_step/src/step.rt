//! The typing of an instruction.

ghost use Rattle.std.specs.Prelude.{◌≡◌, OnOk};
ghost use Rattle.code_model.specs.Names.{operand_at};
ghost use Rattle.code_model.specs.MappedInstruction.{mapped_instruction};
ghost use Rattle.typing_model.specs.InstructionTypes.{type_step as model_type_step};
ghost use Rattle.jv_types.specs.ClassData.{pool_of};
ghost use Rattle.jv_types.specs.Instruction.{instruction_of};
ghost use Rattle.type_rules.specs.Frames.{IsKnownFrame};
ghost use Rattle.instruction_types.specs.Environment.{IsReady};
ghost use Rattle.member_types.specs.Constructors.{IsTypedIn};
ghost use Rattle.linked_laws.specs.Code.{InstructionIsLinked};

use crate::operands::{athrow, change_one, change_two, convert, pop, pop_two, push};
use class_world::World;
use instruction_types::{
    Environment, TypingError, Wanted, array_load, array_store, increment, load, return_value,
    return_void, stack_form, store,
};
use jv_types::{Insn, Instruction, Steps, ValueKind};
use member_types::calls::{invokespecial, invokestatic, invokevirtual};
use member_types::constants::{ldc, ldc2_w};
use member_types::constructors::Code;
use member_types::fields::{getfield, getstatic, putfield, putstatic};
use member_types::objects::{anewarray, checkcast, instanceof, new_object, newarray};
use std::alloc::Global;
use std::sync::ledger::Ledger;
use type_rules::{TypeFrame, VerificationType};

const INT: Wanted = Wanted::Of(ValueKind::Int);

const LONG: Wanted = Wanted::Of(ValueKind::Long);

const REFERENCE: Wanted = Wanted::Of(ValueKind::Reference);

const INTS: (ValueKind, ValueKind) = (ValueKind::Int, ValueKind::Int);

const LONGS: (ValueKind, ValueKind) = (ValueKind::Long, ValueKind::Long);
/// How far an int shifts, above the long.
const LONG_SHIFT: (ValueKind, ValueKind) = (ValueKind::Int, ValueKind::Long);

/// An instruction of that code. Each class looked at is a step.
#[tactic(auto, unfolding(typing_model::specs::InstructionTypes::type_step))]
pub fn type_step<L: Ledger>(
    alloc: Global,
    world: &World,
    here: &Environment,
    code: &Code,
    insn: &Insn,
    frame: &mut TypeFrame,
    steps: &mut Steps<L>,
) -> Result<(), TypingError>
    requires here { IsReady world.now here.now }
    requires frame { IsKnownFrame world.now frame.old }
    requires linked { InstructionIsLinked world.now (mapped_instruction
        (operand_at (pool_of code.now.pool.now)) (instruction_of insn.now.instruction)) }
    ensures typed { IsTypedIn world.now here.now code.now result
        (λ e. model_type_step e insn.now.pc (mapped_instruction
        (operand_at (pool_of code.now.pool.now)) (instruction_of insn.now.instruction)))
        frame.old frame.new }
    ensures known { OnOk result (IsKnownFrame world.now frame.new) }
{
    let int = VerificationType::Int;
    let long = VerificationType::Long;
    match &insn.instruction {
        Instruction::Nop | Instruction::Goto(_) => Ok(()),
        Instruction::AconstNull => push(here, frame, VerificationType::Null),
        Instruction::PushInt(_) => push(here, frame, int),
        Instruction::PushLong(_) => push(here, frame, long),
        Instruction::Ldc(index) => ldc(here, code.pool, frame, *index),
        Instruction::Ldc2W(index) => ldc2_w(here, code.pool, frame, *index),
        Instruction::Load(kind, local) => load(here, frame, *kind, *local),
        Instruction::Store(kind, local) => store(frame, *kind, *local),
        Instruction::ArrayLoad(kind) => array_load(world, here, frame, *kind, steps),
        Instruction::ArrayStore(kind) => array_store(world, here, frame, *kind, steps),
        Instruction::Stack(form) => stack_form(here, frame, *form),
        Instruction::IntArithmetic(_) | Instruction::IntShift(_) => {
            change_two(world, here, frame, INTS, int, steps)
        }
        Instruction::IntNegate => change_one(world, here, frame, INT, int, steps),
        Instruction::LongArithmetic(_) => change_two(world, here, frame, LONGS, long, steps),
        Instruction::LongShift(_) => change_two(world, here, frame, LONG_SHIFT, long, steps),
        Instruction::LongNegate => change_one(world, here, frame, LONG, long, steps),
        Instruction::Increment(local, _) => increment(frame, *local),
        Instruction::Convert(conversion) => convert(world, here, frame, *conversion, steps),
        Instruction::CompareLongs => change_two(world, here, frame, LONGS, int, steps),
        Instruction::IfZero(_, _)
        | Instruction::Tableswitch { .. }
        | Instruction::Lookupswitch { .. } => pop(world, here, frame, INT, steps),
        Instruction::IfInts(_, _) => pop_two(world, here, frame, ValueKind::Int, steps),
        Instruction::IfReferences(_, _) => {
            pop_two(world, here, frame, ValueKind::Reference, steps)
        }
        Instruction::IfNull(_, _) | Instruction::Monitorenter | Instruction::Monitorexit => {
            pop(world, here, frame, REFERENCE, steps)
        }
        Instruction::ReturnValue(kind) => return_value(world, here, frame, *kind, steps),
        Instruction::ReturnVoid => return_void(here, frame),
        Instruction::Getstatic(index) => getstatic(world, here, code.pool, frame, *index),
        Instruction::Putstatic(index) => putstatic(world, here, code.pool, frame, *index, steps),
        Instruction::Getfield(index) => getfield(world, here, code.pool, frame, *index, steps),
        Instruction::Putfield(index) => putfield(world, here, code.pool, frame, *index, steps),
        Instruction::Invokevirtual(index) | Instruction::Invokeinterface(index) => {
            invokevirtual(alloc, world, here, code.pool, frame, *index, steps)
        }
        Instruction::Invokespecial(index) => {
            invokespecial(alloc, world, here, code, frame, *index, steps)
        }
        Instruction::Invokestatic(index) => {
            invokestatic(alloc, world, here, code.pool, frame, *index, steps)
        }
        Instruction::New(index) => new_object(world, here, code.pool, frame, insn.pc, *index),
        Instruction::Newarray(element) => newarray(world, here, frame, *element, steps),
        Instruction::Anewarray(index) => anewarray(world, here, code.pool, frame, *index, steps),
        Instruction::Arraylength => change_one(world, here, frame, Wanted::AnyArray, int, steps),
        Instruction::Athrow => athrow(world, here, frame, steps),
        Instruction::Checkcast(index) => checkcast(world, here, code.pool, frame, *index, steps),
        Instruction::Instanceof(index) => instanceof(world, here, code.pool, frame, *index, steps),
    }
}
