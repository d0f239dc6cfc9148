//! Why code isn't read.

ghost use Rattle.std.specs.Prelude.{◌≡◌};
ghost use Rattle.code_reader.specs.declared.error.CodeError.TheVariants as errors;
ghost use Rattle.code_reader.specs.declared.error.OperandError.TheVariants as operand_errors;
ghost use Rattle.code_reader.specs.declared.error.PartError.TheVariants as part_errors;

use jv_types::{Cut, NoMemory};
use thiserror::Error;

/// Why the code of a method isn't read: the first thing that is wrong. A pc is the place of an
/// instruction in the code.
#[derive(Clone, Copy, Debug, PartialEq, Eq, Error)]
pub enum CodeError {
    /// There is no such opcode.
    #[error("no opcode at pc {pc}")]
    Opcode { pc: u32 },
    /// An operand isn't allowed, or the end of the code cuts it.
    #[error("a wrong operand at pc {pc}")]
    Operand { pc: u32 },
    /// The branch leads to no instruction.
    #[error("the branch at pc {pc} leads to no instruction")]
    Target { pc: u32 },
    /// The row of the exception table names no part of the code, no instruction, or no class.
    #[error("the row {row} of the exception table is wrong")]
    Handler { row: u32 },
    /// The entry of the stack map is of no kind, or gives no frame of this method.
    #[error("the entry {index} of the stack map is wrong")]
    MapFrame { index: u32 },
    /// The instruction, or the constant that it names, is left out of what this machine runs.
    #[error("the instruction at pc {pc} is not supported")]
    Unsupported { pc: u32 },
    /// A frame of the method would have so many words.
    #[error("a frame of {words} words is too big")]
    FrameTooBig { words: u32 },
    /// The attribute's parts don't fill it, at this byte of its contents, or an attribute in it
    /// has no name or is one too many.
    #[error("the parts of the attribute don't fit at byte {at}")]
    Shape { at: u32 },
    /// There was no memory for what was read. It says nothing about the code.
    #[error("out of memory")]
    NoMemory,
}

impl From<NoMemory> for CodeError {
    ghost from_gives = { λ _ error. error ≡ errors.NoMemory };

    fn from(_error: NoMemory) -> CodeError {
        CodeError::NoMemory
    }
}

/// What is wrong with an instruction whose place is known.
#[derive(Clone, Copy)]
pub enum OperandError {
    /// The end of the code cuts the item that begins there.
    Cut { at: u32 },
    Opcode,
    Operand,
    Unsupported,
    NoMemory,
}

impl From<Cut> for OperandError {
    ghost from_gives = { λ cut error. error ≡ operand_errors.Cut cut.at };

    fn from(cut: Cut) -> OperandError {
        OperandError::Cut { at: cut.at }
    }
}

impl From<NoMemory> for OperandError {
    ghost from_gives = { λ _ error. error ≡ operand_errors.NoMemory };

    fn from(_error: NoMemory) -> OperandError {
        OperandError::NoMemory
    }
}

/// What is wrong with a part of a Code attribute.
#[derive(Clone, Copy)]
pub enum PartError {
    /// The end of the attribute, or of a part of it, cuts the item that begins there.
    Cut { at: u32 },
    /// A part ends at this byte, and more follows.
    Extra { at: u32 },
    /// The item that begins at this byte has a wrong number.
    Shape { at: u32 },
    /// The entry of the stack map is of no kind, or has a type that there isn't.
    MapFrame { index: u32 },
    NoMemory,
}

impl From<Cut> for PartError {
    ghost from_gives = { λ cut error. error ≡ part_errors.Cut cut.at };

    fn from(cut: Cut) -> PartError {
        PartError::Cut { at: cut.at }
    }
}

impl From<NoMemory> for PartError {
    ghost from_gives = { λ _ error. error ≡ part_errors.NoMemory };

    fn from(_error: NoMemory) -> PartError {
        PartError::NoMemory
    }
}
