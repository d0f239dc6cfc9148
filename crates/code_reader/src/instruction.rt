//! The instructions of a method, one behind another (JVMS 4.7.3, 6.5).

ghost use Rattle.std.specs.Prelude.{◌≡◌, true, ◌<◌, ◌≤◌, ◌^◌, IfOk, OnOk, option_map, length};
ghost use Rattle.jv_model.specs.Input.{number_at};
ghost use Rattle.code_model.specs.Opcodes.{format_of as format_of_opcode};
ghost use Rattle.code_model.specs.InstructionReading.{wide_operands_at, operands_at, instruction_at, instructions_of};
ghost use Rattle.jv_types.specs.ClassData.{class_data_of};
ghost use Rattle.jv_types.specs.Instruction.{instruction_of};
ghost use Rattle.jv_types.specs.Instructions.{placed_of, most_places};
ghost use Rattle.code_reader.specs.Behind.{IsBehind, IsPast};
ghost use Rattle.code_reader.specs.Format.{format_of};
ghost use Rattle.code_reader.specs.Gives.{GivesCode, GivesOperand, site_of, operand_refusal};
ghost use Rattle.code_reader.specs.Instruction.{wide_at, uncut_at, IsCodeError};
ghost use Rattle.code_reader.specs.Near.{are_near};

use crate::error::{CodeError, OperandError};
use crate::format::{EntryKind, Format, Indexed};
use crate::opcode::format_of;
use crate::operands::{
    Site, Width, plain, read_branch, read_constant, read_increment, read_indexed,
    read_interface_call, read_local, read_newarray, read_wide_branch,
};
use crate::switch::{read_lookup, read_table};
use jv_types::{ClassData, Input, Insn, Instruction, Instructions};
use std::alloc::Global;

/// What stands behind `wide`.
fn read_wide(site: Site, input: &mut Input) -> Result<Instruction, OperandError>
    ensures instruction { GivesOperand site.entry (λ its. (instruction_of its, input.new)) result
        (wide_at (site_of site.entry) input.old) }
    ensures on { OnOk result (IsBehind input.old input.new) }
{
    let opcode = input.u1()?;
    match format_of(opcode) {
        Some(Format::Local(its)) => Ok(read_local(Width::Two, its, input)?),
        Some(Format::LocalAndConstant) => Ok(read_increment(Width::Two, input)?),
        Some(Format::LeftOutLocal) => Err(OperandError::Unsupported),
        _ => Err(OperandError::Operand),
    }
}

/// What stands behind an opcode of a format.
fn read_operands(
    alloc: Global,
    site: Site,
    format: Option<Format>,
    input: &mut Input,
) -> Result<Instruction, OperandError>
    requires { site.pc < 2 ^ 31 }
    ensures instruction { GivesOperand site.entry (λ its. (instruction_of its, input.new)) result
        (operands_at (site_of site.entry) (option_map format_of format) input.old) }
    ensures on { OnOk result (IsBehind input.old input.new) }
{
    let Some(format) = format else {
        return Err(OperandError::Opcode);
    };
    match format {
        Format::Alone(its) => Ok(plain(its)),
        Format::ByteConstant => Ok(read_constant(Width::One, input)?),
        Format::ShortConstant => Ok(read_constant(Width::Two, input)?),
        Format::LoadableIndex => {
            read_indexed(site, EntryKind::Loadable, Width::One, Indexed::Ldc, input)
        }
        Format::WideLoadableIndex => {
            read_indexed(site, EntryKind::Loadable, Width::Two, Indexed::Ldc, input)
        }
        Format::Local(its) => Ok(read_local(Width::One, its, input)?),
        Format::LocalAndConstant => Ok(read_increment(Width::One, input)?),
        Format::Branch(its) => Ok(read_branch(site, its, input)?),
        Format::WideBranch(its) => Ok(read_wide_branch(site, its, input)?),
        Format::TableSwitch => read_table(alloc, site, input),
        Format::LookupSwitch => read_lookup(alloc, site, input),
        Format::PoolIndex(kind, its) => read_indexed(site, kind, Width::Two, its, input),
        Format::InterfaceCall => read_interface_call(alloc, site, input),
        Format::ElementType => read_newarray(site, input),
        Format::WideForm => read_wide(site, input),
        Format::LeftOut | Format::LeftOutLocal => Err(OperandError::Unsupported),
    }
}

/// The instruction at the front of the code, which stands at the site.
fn read_here(alloc: Global, site: Site, input: &mut Input) -> Result<Insn, OperandError>
    requires here { site.pc ≡ input.old.at }
    requires near { site.pc < 2 ^ 31 }
    ensures instruction { GivesOperand site.entry (λ insn. (placed_of insn, input.new)) result
        (uncut_at (site_of site.entry) input.old) }
    ensures past { OnOk result (IsPast input.old input.new) }
    ensures pc { IfOk result (λ insn. insn.pc ≡ input.old.at) }
    ensures next { IfOk result (λ insn. insn.next ≡ input.new.at) }
{
    let opcode = input.u1()?;
    let instruction = read_operands(alloc, site, format_of(opcode), input)?;
    Ok(Insn {
        pc: site.pc,
        next: input.at(),
        instruction,
    })
}

/// What is wrong with the instruction at that pc. An operand that the end of the code cuts is a
/// wrong one.
fn code_error(pc: u32, error: OperandError) -> CodeError
    ensures { IsCodeError pc error result }
{
    match error {
        OperandError::Cut { .. } | OperandError::Operand => CodeError::Operand { pc },
        OperandError::Opcode => CodeError::Opcode { pc },
        OperandError::Unsupported => CodeError::Unsupported { pc },
        OperandError::NoMemory => CodeError::NoMemory,
    }
}

/// Reads the instruction at the front of the code.
fn read_instruction(
    alloc: Global,
    class: &ClassData,
    method: u32,
    input: &mut Input,
) -> Result<Insn, CodeError>
    requires { input.old.at < 2 ^ 31 }
    ensures instruction { GivesCode method (λ insn. (placed_of insn, input.new)) result
        (instruction_at (class_data_of class.now) method input.old) }
    ensures past { OnOk result (IsPast input.old input.new) }
    ensures pc { IfOk result (λ insn. insn.pc ≡ input.old.at) }
    ensures next { IfOk result (λ insn. insn.next ≡ input.new.at) }
{
    let pc = input.at();
    let site = Site { class, method, pc };
    match read_here(alloc, site, input) {
        Ok(insn) => Ok(insn),
        Err(error) => Err(code_error(pc, error)),
    }
}

/// Reads the instructions of a method up to the end of its code.
pub fn read_instructions(
    alloc: Global,
    class: &ClassData,
    method: u32,
    code: &[u8],
) -> Result<Instructions, CodeError>
    requires { length code.now ≤ most_places }
    ensures read { GivesCode method (λ instructions. instructions) result
        (instructions_of (class_data_of class.now) method code.now) }
    ensures near { IfOk result (λ instructions. are_near instructions ≡ true) }
{
    let mut instructions = Instructions::new(alloc);
    let mut input = Input::whole_of(code);
    while !input.is_empty() {
        let insn = read_instruction(alloc, class, method, &mut input)?;
        instructions.push(insn)?;
    }
    Ok(instructions)
}
