//! The instructions of a method (JVMS 6.5), in families.

use crate::duplicate::Duplicate;
use crate::list::List;
use crate::memory::NoMemory;
use std::alloc::Global;

/// The kinds of value that loads, stores and returns tell apart.
#[derive(Clone, Copy, Debug, PartialEq, Eq)]
pub enum ValueKind {
    Int,
    Long,
    Reference,
}

/// The kinds of array that array loads and stores tell apart.
#[derive(Clone, Copy, Debug, PartialEq, Eq)]
pub enum ElementKind {
    Int,
    Long,
    Reference,
    /// `baload` and `bastore` are of bytes and of booleans.
    Byte,
    Char,
    Short,
}

/// The element types of `newarray`.
#[derive(Clone, Copy, Debug, PartialEq, Eq)]
pub enum PrimitiveType {
    Boolean,
    Char,
    Byte,
    Short,
    Int,
    Long,
}

/// The instructions that only move operands.
#[derive(Clone, Copy, Debug, PartialEq, Eq)]
pub enum StackForm {
    /// `pop`.
    Pop,
    /// `pop2`.
    PopTwo,
    /// `dup`.
    Duplicate,
    /// `dup_x1`.
    DuplicateX1,
    /// `dup_x2`.
    DuplicateX2,
    /// `dup2`.
    DuplicateTwo,
    /// `dup2_x1`.
    DuplicateTwoX1,
    /// `dup2_x2`.
    DuplicateTwoX2,
    /// `swap`.
    Swap,
}

/// `iadd` to `irem`, `iand`, `ior`, `ixor`, and the long ones.
#[derive(Clone, Copy, Debug, PartialEq, Eq)]
pub enum Arithmetic {
    Add,
    Subtract,
    Multiply,
    Divide,
    Remainder,
    And,
    Or,
    Xor,
}

/// `ishl`, `ishr`, `iushr`, and the long ones.
#[derive(Clone, Copy, Debug, PartialEq, Eq)]
pub enum Shift {
    Left,
    Right,
    RightUnsigned,
}

/// `i2l`, `l2i`, `i2b`, `i2c` and `i2s`.
#[derive(Clone, Copy, Debug, PartialEq, Eq)]
pub enum Conversion {
    IntToLong,
    LongToInt,
    IntToByte,
    IntToChar,
    IntToShort,
}

/// What a branch asks of two ints, or of an int and zero.
#[derive(Clone, Copy, Debug, PartialEq, Eq)]
pub enum Comparison {
    Equal,
    NotEqual,
    Less,
    GreaterOrEqual,
    Greater,
    LessOrEqual,
}

/// A key of a `lookupswitch`, and the pc of its target.
#[derive(Clone, Copy, Debug, PartialEq, Eq)]
pub struct SwitchPair {
    pub key: i32,
    pub target: u32,
}

/// An instruction. Targets are pcs, and what an index is of is said where it isn't one of the
/// constant pool. Where two opcodes give one instruction (`iload_2` and `iload 2`), their lengths
/// differ.
#[derive(Debug, Drop)]
pub enum Instruction {
    Nop,
    AconstNull,
    /// `iconst_<i>`, `bipush`, `sipush`.
    PushInt(i32),
    /// `lconst_<l>`.
    PushLong(i64),
    /// `ldc`, `ldc_w`: an Integer or a String.
    Ldc(u16),
    /// `ldc2_w` of a Long.
    Ldc2W(u16),
    /// Of the local variable with that index.
    Load(ValueKind, u16),
    Store(ValueKind, u16),
    ArrayLoad(ElementKind),
    ArrayStore(ElementKind),
    Stack(StackForm),
    IntArithmetic(Arithmetic),
    IntShift(Shift),
    IntNegate,
    LongArithmetic(Arithmetic),
    LongShift(Shift),
    LongNegate,
    /// `iinc`: a local variable, and what is added to it.
    Increment(u16, i32),
    Convert(Conversion),
    /// `lcmp`.
    CompareLongs,
    /// `ifeq` to `ifle`.
    IfZero(Comparison, u32),
    /// `if_icmpeq` to `if_icmple`.
    IfInts(Comparison, u32),
    /// `if_acmpeq` (true), `if_acmpne`.
    IfReferences(bool, u32),
    /// `ifnull` (true), `ifnonnull`.
    IfNull(bool, u32),
    /// `goto`, `goto_w`.
    Goto(u32),
    /// A target for each key from the lowest on.
    Tableswitch {
        otherwise: u32,
        low: i32,
        targets: List<u32>,
    },
    /// The keys rise.
    Lookupswitch {
        otherwise: u32,
        pairs: List<SwitchPair>,
    },
    /// `ireturn`, `lreturn`, `areturn`.
    ReturnValue(ValueKind),
    /// `return`.
    ReturnVoid,
    Getstatic(u16),
    Putstatic(u16),
    Getfield(u16),
    Putfield(u16),
    Invokevirtual(u16),
    Invokespecial(u16),
    Invokestatic(u16),
    Invokeinterface(u16),
    New(u16),
    Newarray(PrimitiveType),
    Anewarray(u16),
    Arraylength,
    Athrow,
    Checkcast(u16),
    Instanceof(u16),
    Monitorenter,
    Monitorexit,
}

impl Duplicate for Instruction {
    ghost use Rattle.std.specs.Prelude.{ℕ};
    ghost use Rattle.jv_model.specs.Instruction.{Instruction as ModelInstruction};
    ghost use Rattle.jv_types.specs.Instruction.{instruction_of};

    ghost Meaning = { ModelInstruction ℕ };

    ghost meaning = { instruction_of };

    fn copy(&self, alloc: Global) -> Result<Instruction, NoMemory> {
        match self {
            Instruction::Nop => Ok(Instruction::Nop),
            Instruction::AconstNull => Ok(Instruction::AconstNull),
            Instruction::PushInt(value) => Ok(Instruction::PushInt(*value)),
            Instruction::PushLong(value) => Ok(Instruction::PushLong(*value)),
            Instruction::Ldc(index) => Ok(Instruction::Ldc(*index)),
            Instruction::Ldc2W(index) => Ok(Instruction::Ldc2W(*index)),
            Instruction::Load(kind, local) => Ok(Instruction::Load(*kind, *local)),
            Instruction::Store(kind, local) => Ok(Instruction::Store(*kind, *local)),
            Instruction::ArrayLoad(kind) => Ok(Instruction::ArrayLoad(*kind)),
            Instruction::ArrayStore(kind) => Ok(Instruction::ArrayStore(*kind)),
            Instruction::Stack(form) => Ok(Instruction::Stack(*form)),
            Instruction::IntArithmetic(operation) => Ok(Instruction::IntArithmetic(*operation)),
            Instruction::IntShift(shift) => Ok(Instruction::IntShift(*shift)),
            Instruction::IntNegate => Ok(Instruction::IntNegate),
            Instruction::LongArithmetic(operation) => Ok(Instruction::LongArithmetic(*operation)),
            Instruction::LongShift(shift) => Ok(Instruction::LongShift(*shift)),
            Instruction::LongNegate => Ok(Instruction::LongNegate),
            Instruction::Increment(local, added) => Ok(Instruction::Increment(*local, *added)),
            Instruction::Convert(conversion) => Ok(Instruction::Convert(*conversion)),
            Instruction::CompareLongs => Ok(Instruction::CompareLongs),
            Instruction::IfZero(comparison, target) => {
                Ok(Instruction::IfZero(*comparison, *target))
            }
            Instruction::IfInts(comparison, target) => {
                Ok(Instruction::IfInts(*comparison, *target))
            }
            Instruction::IfReferences(equal, target) => {
                Ok(Instruction::IfReferences(*equal, *target))
            }
            Instruction::IfNull(equal, target) => Ok(Instruction::IfNull(*equal, *target)),
            Instruction::Goto(target) => Ok(Instruction::Goto(*target)),
            Instruction::Tableswitch {
                otherwise,
                low,
                targets,
            } => Ok(Instruction::Tableswitch {
                otherwise: *otherwise,
                low: *low,
                targets: targets.copy(alloc)?,
            }),
            Instruction::Lookupswitch { otherwise, pairs } => Ok(Instruction::Lookupswitch {
                otherwise: *otherwise,
                pairs: pairs.copy(alloc)?,
            }),
            Instruction::ReturnValue(kind) => Ok(Instruction::ReturnValue(*kind)),
            Instruction::ReturnVoid => Ok(Instruction::ReturnVoid),
            Instruction::Getstatic(index) => Ok(Instruction::Getstatic(*index)),
            Instruction::Putstatic(index) => Ok(Instruction::Putstatic(*index)),
            Instruction::Getfield(index) => Ok(Instruction::Getfield(*index)),
            Instruction::Putfield(index) => Ok(Instruction::Putfield(*index)),
            Instruction::Invokevirtual(index) => Ok(Instruction::Invokevirtual(*index)),
            Instruction::Invokespecial(index) => Ok(Instruction::Invokespecial(*index)),
            Instruction::Invokestatic(index) => Ok(Instruction::Invokestatic(*index)),
            Instruction::Invokeinterface(index) => Ok(Instruction::Invokeinterface(*index)),
            Instruction::New(index) => Ok(Instruction::New(*index)),
            Instruction::Newarray(element) => Ok(Instruction::Newarray(*element)),
            Instruction::Anewarray(index) => Ok(Instruction::Anewarray(*index)),
            Instruction::Arraylength => Ok(Instruction::Arraylength),
            Instruction::Athrow => Ok(Instruction::Athrow),
            Instruction::Checkcast(index) => Ok(Instruction::Checkcast(*index)),
            Instruction::Instanceof(index) => Ok(Instruction::Instanceof(*index)),
            Instruction::Monitorenter => Ok(Instruction::Monitorenter),
            Instruction::Monitorexit => Ok(Instruction::Monitorexit),
        }
    }
}
