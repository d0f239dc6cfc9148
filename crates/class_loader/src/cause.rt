//! The refusals that the errors of readers are; want of memory is none.

ghost use Rattle.std.specs.Prelude.{◌≡◌, option_map};
ghost use Rattle.jv_types.specs.Refusal.{cause_of};
ghost use Rattle.class_reader.specs.Gives.{class_refusal};
ghost use Rattle.code_reader.specs.Gives.{code_refusal};
ghost use Rattle.class_loader.specs.Placed.{asm_refusal};

use class_asm::AsmError;
use class_reader::ClassError;
use code_reader::CodeError;
use jv_types::Cause;

pub(crate) fn class_cause(error: ClassError) -> Option<Cause>
    ensures { option_map cause_of result ≡ class_refusal error }
{
    match error {
        ClassError::Truncated { at } => Some(Cause::Truncated { at }),
        ClassError::Magic => Some(Cause::Magic),
        ClassError::Version { major } => Some(Cause::Version { major }),
        ClassError::Pool { index } => Some(Cause::Pool { index }),
        ClassError::Utf8 { index } => Some(Cause::Utf8 { index }),
        ClassError::Attribute { at } => Some(Cause::Attribute { at }),
        ClassError::Extra { at } => Some(Cause::Extra { at }),
        ClassError::Limit { what, n } => Some(Cause::Limit { what, n }),
        ClassError::NoMemory => None,
    }
}

/// Of the method with that index.
pub(crate) fn code_cause(method: u32, error: CodeError) -> Option<Cause>
    ensures { option_map cause_of result ≡ code_refusal method error }
{
    match error {
        CodeError::Opcode { pc } => Some(Cause::Opcode { method, pc }),
        CodeError::Operand { pc } => Some(Cause::Operand { method, pc }),
        CodeError::Target { pc } => Some(Cause::Target { method, pc }),
        CodeError::Handler { row } => Some(Cause::Handler { method, row }),
        CodeError::MapFrame { index } => Some(Cause::MapFrame { method, index }),
        CodeError::Unsupported { pc } => Some(Cause::Unsupported { method, pc }),
        CodeError::FrameTooBig { words } => Some(Cause::FrameTooBig { method, words }),
        CodeError::Shape { at } => Some(Cause::Shape { method, at }),
        CodeError::NoMemory => None,
    }
}

pub(crate) fn asm_cause(error: AsmError) -> Option<Cause>
    ensures { option_map cause_of result ≡ asm_refusal error }
{
    match error {
        AsmError::Line(fault) => Some(Cause::AsmLine {
            line: fault.line,
            kind: fault.kind,
        }),
        AsmError::NoMemory => None,
    }
}
