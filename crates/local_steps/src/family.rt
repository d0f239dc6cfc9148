//! The families of instructions.

ghost use Rattle.std.specs.Prelude.{◌≡◌};
ghost use Rattle.jv_types.specs.Instruction.{instruction_of};
ghost use Rattle.local_steps.specs.Families.{family_of as family_in};

use crate::operate::is_division;
use jv_types::Instruction;

/// What a local step of an instruction does to the words of a frame.
#[derive(Clone, Copy, Debug, PartialEq, Eq)]
pub enum Family {
    /// A value comes on top: constants and loads. A constant that is no number isn't local.
    Push,
    /// A local variable changes or not, and operands go or not: `nop`, stores and `iinc`.
    Store,
    /// Operands are made of operands.
    Operate,
    /// Operands say where the code goes on.
    Branch,
    /// The instruction isn't local.
    Shared,
}

/// The family of an instruction.
pub fn family_of(instruction: &Instruction) -> Family
    ensures { result ≡ family_in (instruction_of instruction.now) }
{
    match instruction {
        Instruction::AconstNull
        | Instruction::PushInt(_)
        | Instruction::PushLong(_)
        | Instruction::Ldc(_)
        | Instruction::Ldc2W(_)
        | Instruction::Load(_, _) => Family::Push,
        Instruction::Nop | Instruction::Store(_, _) | Instruction::Increment(_, _) => Family::Store,
        Instruction::IntArithmetic(operation) | Instruction::LongArithmetic(operation) => {
            if is_division(*operation) {
                Family::Shared
            } else {
                Family::Operate
            }
        }
        Instruction::Stack(_)
        | Instruction::IntShift(_)
        | Instruction::IntNegate
        | Instruction::LongShift(_)
        | Instruction::LongNegate
        | Instruction::Convert(_)
        | Instruction::CompareLongs => Family::Operate,
        Instruction::IfZero(_, _)
        | Instruction::IfInts(_, _)
        | Instruction::IfReferences(_, _)
        | Instruction::IfNull(_, _)
        | Instruction::Goto(_)
        | Instruction::Tableswitch { .. }
        | Instruction::Lookupswitch { .. } => Family::Branch,
        _ => Family::Shared,
    }
}
