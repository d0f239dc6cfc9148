//! The instructions that are run, among those of methods (JVMS 6.5).

ghost use Rattle.std.specs.Prelude.{◌≡◌, option_map, Some, map};
ghost use Rattle.run_model.specs.MainCode.{operation_of as model_operation, integer_of, instruction_of};
ghost use Rattle.jv_model.specs.ConstantPool.{const_at};
ghost use Rattle.code_model.specs.MappedInstruction.{mapped_instruction};
ghost use Rattle.code_model.specs.Names.{operand_at};
ghost use Rattle.jv_types.specs.ClassData.{pool_of};
ghost use Rattle.jv_types.specs.Instruction.{arithmetic_of, instruction_of as method_instruction_of};
ghost use Rattle.jv_types.specs.IntOperation.{operation_of};
ghost use Rattle.straight_line.specs.Programs.{instruction_found};

use crate::body::Instruction;
use crate::names::{names_out, names_println};
use jv_types::{
    Arithmetic, Const, Instruction as MethodInstruction, IntOperation, List, StackForm,
};

/// The arithmetic that needs no divisor.
fn operation_of(operation: Arithmetic) -> Option<IntOperation>
    ensures { option_map operation_of result ≡ model_operation (arithmetic_of operation) }
{
    match operation {
        Arithmetic::Add => Some(IntOperation::Add),
        Arithmetic::Subtract => Some(IntOperation::Subtract),
        Arithmetic::Multiply => Some(IntOperation::Multiply),
        Arithmetic::And => Some(IntOperation::Conjunction),
        Arithmetic::Or => Some(IntOperation::Disjunction),
        Arithmetic::Xor => Some(IntOperation::ExclusiveDisjunction),
        Arithmetic::Divide | Arithmetic::Remainder => None,
    }
}

/// What pushes the Integer at an index.
#[tactic(auto, unfolding(code_model::specs::Names::operand_at))]
fn integer_at(pool: &List<Const>, index: u16) -> Option<Instruction>
    ensures { instruction_found result
        ≡ integer_of (operand_at (pool_of pool.now.items) index) }
{
    match pool.as_slice().get(usize::from(index)) {
        Some(Const::Integer(value)) => Some(Instruction::Constant(*value)),
        _ => None,
    }
}

/// An instruction as it is run, where it is.
pub(crate) fn instruction_of(
    pool: &List<Const>,
    instruction: &MethodInstruction,
) -> Option<Instruction>
    ensures { instruction_found result ≡ instruction_of
        (mapped_instruction (operand_at (pool_of pool.now.items))
        (method_instruction_of instruction.now)) }
{
    match instruction {
        MethodInstruction::PushInt(value) => Some(Instruction::Constant(*value)),
        MethodInstruction::Ldc(index) => integer_at(pool, *index),
        MethodInstruction::IntArithmetic(operation) => match operation_of(*operation) {
            Some(operation) => Some(Instruction::Arithmetic(operation)),
            None => None,
        },
        MethodInstruction::IntNegate => Some(Instruction::Negate),
        MethodInstruction::Stack(StackForm::Pop) => Some(Instruction::Pop),
        MethodInstruction::Getstatic(index) if names_out(pool, *index) => Some(Instruction::GetOut),
        MethodInstruction::Invokevirtual(index) if names_println(pool, *index) => {
            Some(Instruction::PrintLine)
        }
        MethodInstruction::ReturnVoid => Some(Instruction::Return),
        _ => None,
    }
}
