//! A local step on the words of a frame.

ghost use Rattle.std.specs.Prelude.{◌≡◌, ◌≤◌, length, option_map, None, Some, IsSome, MatchOption, if◌then◌else◌};
ghost use Rattle.jv_types.specs.ClassData.{pool_of};
ghost use Rattle.jv_types.specs.Instruction.{instruction_of};
ghost use Rattle.jv_values.specs.Values.{value_of, values_of, operands_in};
ghost use Rattle.local_steps.specs.Families.{family_of as family_in, pushed as pushed_in, IsLoaded, stored as stored_in, operated as operated_in, branched as branched_in};
ghost use Rattle.local_steps.specs.Outcome.{Fits};
ghost use Rattle.local_steps.specs.Steps.{named_instruction, step_in, IsRight, reached_in};

use crate::branch::{pair_target, same_reference, table_target};
use crate::constant::{int_constant, long_constant};
use crate::family::{Family, family_of};
use crate::moves::{increment, rearrange};
use crate::operate::{
    compare_longs, compute_int, compute_long, convert, negate_int, negate_long, shift_int,
    shift_long,
};
use arithmetic::compares;
use jv_types::{Const, Insn, Instruction};
use jv_values::Value;
use jv_values::locals::set_local;
use jv_values::operands::{int_on_top, push, take, two_ints, two_words, word_on_top};

/// Where a frame is after a local step.
#[derive(Clone, Copy, Debug, PartialEq, Eq)]
pub struct Next {
    /// How many words the operands have.
    pub depth: usize,
    /// The pc to which it branched, if it did. Else it goes on at the next instruction.
    pub target: Option<u32>,
}

/// Makes operands of operands, and gives how many words they have then.
pub fn operate(instruction: &Instruction, stack: &mut [Value], depth: usize) -> usize
    requires family { family_in (instruction_of instruction.now) ≡ Family.Operate }
    requires inside { depth ≤ length stack.old }
    requires right { Fits (length stack.old)
        (operated_in (instruction_of instruction.now) (operands_in stack.old depth)) }
    ensures inside { result ≤ length stack.new }
    ensures operands { operated_in (instruction_of instruction.now) (operands_in stack.old depth)
        ≡ Some (operands_in stack.new result) }
{
    match instruction {
        Instruction::Stack(form) => rearrange(*form, stack, depth),
        Instruction::IntArithmetic(operation) => compute_int(*operation, stack, depth),
        Instruction::IntShift(shift) => shift_int(*shift, stack, depth),
        Instruction::IntNegate => negate_int(stack, depth),
        Instruction::LongArithmetic(operation) => compute_long(*operation, stack, depth),
        Instruction::LongShift(shift) => shift_long(*shift, stack, depth),
        Instruction::LongNegate => negate_long(stack, depth),
        Instruction::Convert(conversion) => convert(*conversion, stack, depth),
        Instruction::CompareLongs => compare_longs(stack, depth),
        _ => unreachable!(),
    }
}

/// The value that comes on top, where one does: a constant of the pool may be a string.
pub fn pushed(instruction: &Instruction, pool: &[Const], locals: &[Value]) -> Option<Value>
    requires family { family_in (instruction_of instruction.now) ≡ Family.Push }
    requires right { IsLoaded (instruction_of instruction.now) (values_of locals.now) }
    ensures { option_map value_of result
        ≡ pushed_in (named_instruction (pool_of pool.now) instruction.now) (values_of locals.now) }
{
    match instruction {
        Instruction::AconstNull => Some(Value::Null),
        Instruction::PushInt(value) => Some(Value::Int(*value)),
        Instruction::PushLong(value) => Some(Value::Long(*value)),
        Instruction::Ldc(index) => Some(Value::Int(int_constant(pool, *index)?)),
        Instruction::Ldc2W(index) => Some(Value::Long(long_constant(pool, *index)?)),
        Instruction::Load(_, local) => Some(locals[usize::from(*local)]),
        _ => unreachable!(),
    }
}

/// Changes a local variable, or none, and gives how many words of the operands are left.
pub fn store(
    instruction: &Instruction,
    locals: &mut [Value],
    stack: &[Value],
    depth: usize,
) -> usize
    requires family { family_in (instruction_of instruction.now) ≡ Family.Store }
    requires inside { depth ≤ length stack.now }
    requires right { IsSome (stored_in (instruction_of instruction.now)
        (values_of locals.old) (operands_in stack.now depth)) }
    ensures inside { result ≤ depth }
    ensures left { stored_in (instruction_of instruction.now)
        (values_of locals.old) (operands_in stack.now depth)
        ≡ Some (record {
          locals = values_of locals.new;
          operands = operands_in stack.now result;
        }) }
{
    match instruction {
        Instruction::Nop => depth,
        Instruction::Store(kind, local) => {
            let taken = take(*kind, stack, depth);
            set_local(locals, usize::from(*local), taken.value);
            taken.depth
        }
        Instruction::Increment(local, added) => {
            increment(usize::from(*local), *added, locals);
            depth
        }
        _ => unreachable!(),
    }
}

/// The branch to a target, where it is taken, with so many words of the operands left.
fn where_to(holds: bool, target: u32, depth: usize) -> Next
    ensures { result ≡ record { depth = depth; target = if holds then Some target else None } }
{
    Next {
        depth,
        target: if holds { Some(target) } else { None },
    }
}

/// Where a branch goes, and how many words of the operands are left.
pub fn branch(instruction: &Instruction, stack: &[Value], depth: usize) -> Next
    requires family { family_in (instruction_of instruction.now) ≡ Family.Branch }
    requires inside { depth ≤ length stack.now }
    requires right { IsSome (branched_in (instruction_of instruction.now)
        (operands_in stack.now depth)) }
    ensures inside { result.depth ≤ depth }
    ensures way { branched_in (instruction_of instruction.now) (operands_in stack.now depth)
        ≡ Some (record {
          target = result.target;
          rest = operands_in stack.now result.depth;
        }) }
{
    match instruction {
        Instruction::IfZero(comparison, target) => {
            let a = int_on_top(stack, depth);
            where_to(compares(*comparison, a, 0), *target, depth - 1)
        }
        Instruction::IfInts(comparison, target) => {
            let (a, b) = two_ints(stack, depth);
            where_to(compares(*comparison, a, b), *target, depth - 2)
        }
        Instruction::IfReferences(wanted, target) => {
            let (a, b) = two_words(stack, depth);
            where_to(same_reference(a, b) == *wanted, *target, depth - 2)
        }
        Instruction::IfNull(wanted, target) => {
            let a = word_on_top(stack, depth);
            where_to(
                same_reference(a, Value::Null) == *wanted,
                *target,
                depth - 1,
            )
        }
        Instruction::Goto(target) => where_to(true, *target, depth),
        Instruction::Tableswitch {
            otherwise,
            low,
            targets,
        } => {
            let key = int_on_top(stack, depth);
            where_to(
                true,
                table_target(*otherwise, *low, targets.as_slice(), key),
                depth - 1,
            )
        }
        Instruction::Lookupswitch { otherwise, pairs } => {
            let key = int_on_top(stack, depth);
            where_to(
                true,
                pair_target(*otherwise, pairs.as_slice(), key),
                depth - 1,
            )
        }
        _ => unreachable!(),
    }
}

/// Makes the local step of an instruction, with the pool of its class, on the words of a frame: the
/// locals, and the operands, of which there are so many. Where the instruction isn't local, nothing
/// changes and there is no answer.
pub fn local_step(
    insn: &Insn,
    pool: &[Const],
    locals: &mut [Value],
    stack: &mut [Value],
    depth: usize,
) -> Option<Next>
    requires inside { depth ≤ length stack.old }
    requires right { IsRight (step_in insn.now.pc insn.now.next
        (named_instruction (pool_of pool.now) insn.now.instruction) locals.old stack.old depth) }
    ensures inside { MatchOption result (Unit {0}) (λ next. next.depth ≤ length stack.new) }
    ensures reached { step_in insn.now.pc insn.now.next
        (named_instruction (pool_of pool.now) insn.now.instruction) locals.old stack.old depth
        ≡ reached_in insn.now.next locals.new stack.new result }
    ensures unchanged { result ≡ None
        → ((locals.new ≡ locals.old) × (stack.new ≡ stack.old)) }
{
    let instruction = &insn.instruction;
    match family_of(instruction) {
        Family::Push => {
            let value = pushed(instruction, pool, locals)?;
            Some(Next {
                depth: push(stack, depth, value),
                target: None,
            })
        }
        Family::Store => Some(Next {
            depth: store(instruction, locals, stack, depth),
            target: None,
        }),
        Family::Operate => Some(Next {
            depth: operate(instruction, stack, depth),
            target: None,
        }),
        Family::Branch => Some(branch(instruction, stack, depth)),
        Family::Shared => None,
    }
}
