//! The plain data that every layer speaks of: lists with reserved room, operand stacks, texts and
//! their lines, bytes that are read from the front, the arithmetic of ints, what class files say,
//! instructions and the code of methods, the entries of a journal, why input is refused, how a run
//! and a call end, and limits.
//!
//! It stands on `jv_model` and `straight_line_model`, and on `byteorder` for numbers of several
//! bytes. The contract above it is that the calls of `List` are those of a list, that `Input` gives
//! the items and the refusals that the definitions give, that texts are cut into lines and words as
//! they say, that `int_op` and `int_negate` compute what they say over whole numbers, that
//! `Instructions` finds the instruction at a pc, that only `tick` raises a count of `Steps`, that a
//! copy of class data, of code or of a class is equal to it, and that each type here is one of the
//! definitions' own: `entry_of`, `operation_of`, `class_data_of`, `instruction_of`, `body_of`,
//! `loaded_of`, `boot_classes_of`, `cause_of`, `line_kind_of`, `end_of` and `status_of` say which
//! value of the definitions a value is.
#![tactic(auto)]

pub mod boot;
pub mod class_data;
pub mod code;
mod duplicate;
pub mod end;
pub mod entry;
pub mod frames;
pub mod input;
pub mod instruction;
pub mod instructions;
pub mod int_operation;
pub mod limits;
pub mod lines;
pub mod list;
pub mod loaded;
pub mod memory;
pub mod number;
pub mod operand_stack;
pub mod refusal;
pub mod status;
pub mod steps;
pub mod tag;
pub mod text;

pub use boot::{BootClass, BootField, BootMethod};
pub use class_data::{Attr, ClassData, Const, Member, text_at};
pub use code::{CodeBody, Handler, MapFrame, MapType};
pub use end::End;
pub use entry::Entry;
pub use frames::{Frames, TypeRow};
pub use input::{Cut, Input};
pub use instruction::{
    Arithmetic, Comparison, Conversion, ElementKind, Instruction, PrimitiveType, Shift, StackForm,
    SwitchPair, ValueKind,
};
pub use instructions::{Insn, Instructions};
pub use int_operation::{IntOperation, int_negate, int_op};
pub use limits::{MOST_CODE_BYTES, MOST_FILE_BYTES, MOST_FRAME_WORDS, MOST_SLICE_STEPS};
pub use list::List;
pub use loaded::Loaded;
pub use memory::NoMemory;
pub use number::{ClassNo, MethodNo, Pc, ThreadNo};
pub use operand_stack::OperandStack;
pub use refusal::{Cause, LineKind, Rule, What};
pub use status::Status;
pub use steps::Steps;
pub use text::{Bytes, Text, is_text};

#[cfg(test)]
mod tests;
