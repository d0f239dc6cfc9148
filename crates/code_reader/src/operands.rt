//! What stands behind an opcode (JVMS 6.5): a function a family of formats.

ghost use Rattle.std.specs.Prelude.{◌≡◌, ◌<◌, ◌^◌, IfOk, OnOk, option_map};
ghost use Rattle.code_model.specs.Entries.{tags_of_kind, unsupported_tags};
ghost use Rattle.code_model.specs.Formats.{branch_to, primitive_of};
ghost use Rattle.code_model.specs.OperandReading.{signed_at, place_at, target_at, entry_at, is_argument_count, interface_call_at, constant_at, index_at, local_at, increment_at, branch_at, newarray_at};
ghost use Rattle.jv_model.specs.ConstantPool.{names_one_of};
ghost use Rattle.jv_model.specs.Input.{number_at};
ghost use Rattle.jv_types.specs.ClassData.{class_data_of, pool_of};
ghost use Rattle.jv_types.specs.Instruction.{instruction_of, primitive_type_of};
ghost use Rattle.jv_types.specs.Reading.{GivesItem};
ghost use Rattle.code_reader.specs.Format.{access_of, branch_of, kind_of, indexed_of, plain_of};
ghost use Rattle.code_reader.specs.Gives.{GivesOperand, site_of};
ghost use Rattle.code_reader.specs.Behind.{IsBehind};
ghost use Rattle.code_reader.specs.Width.{bytes_of};

use crate::error::OperandError;
use crate::format::{Branch, EntryKind, Indexed, LocalAccess, Plain};
use class_pool::{is_argument_count, names_one_of};
use jv_types::{ClassData, Cut, Input, Instruction, PrimitiveType, tag};
use std::alloc::Global;

/// Where an instruction stands: in a class file, in the method with that index, at that pc.
#[derive(Clone, Copy)]
pub struct Site<'a> {
    pub class: &'a ClassData,
    pub method: u32,
    pub pc: u32,
}

/// Of how many bytes a number is.
#[derive(Clone, Copy)]
pub enum Width {
    One,
    Two,
}

/// The next number.
fn read_number(width: Width, input: &mut Input) -> Result<u16, Cut>
    ensures number { GivesItem (λ number. (number, input.new)) result
        (number_at (bytes_of width) input.old) }
    ensures on { OnOk result (IsBehind input.old input.new) }
{
    match width {
        Width::One => Ok(u16::from(input.u1()?)),
        Width::Two => input.u2(),
    }
}

/// The next signed number.
fn read_signed(width: Width, input: &mut Input) -> Result<i32, Cut>
    ensures number { GivesItem (λ number. (number, input.new)) result
        (signed_at (bytes_of width) input.old) }
    ensures on { OnOk result (IsBehind input.old input.new) }
{
    match width {
        Width::One => Ok(i32::from(input.u1()?.cast_signed())),
        Width::Two => Ok(i32::from(input.u2()?.cast_signed())),
    }
}

/// The next signed number of four bytes.
pub fn read_s4(input: &mut Input) -> Result<i32, Cut>
    ensures number { GivesItem (λ number. (number, input.new)) result (signed_at 4 input.old) }
    ensures on { OnOk result (IsBehind input.old input.new) }
{
    Ok(input.u4()?.cast_signed())
}

/// The place at an offset. Places are counted in 32 bits, so that one before the code is behind it.
fn place_at(pc: u32, offset: i32) -> u32
    requires { pc < 2 ^ 31 }
    ensures { result ≡ place_at pc offset }
{
    pc.wrapping_add_signed(offset)
}

/// The target at the next offset of two bytes.
fn read_near_target(site: Site, input: &mut Input) -> Result<u32, Cut>
    requires { site.pc < 2 ^ 31 }
    ensures target { GivesItem (λ target. (target, input.new)) result
        (target_at (site_of site.entry) 2 input.old) }
    ensures on { OnOk result (IsBehind input.old input.new) }
{
    let offset = read_signed(Width::Two, input)?;
    Ok(place_at(site.pc, offset))
}

/// The target at the next offset of four bytes.
pub fn read_target(site: Site, input: &mut Input) -> Result<u32, Cut>
    requires { site.pc < 2 ^ 31 }
    ensures target { GivesItem (λ target. (target, input.new)) result
        (target_at (site_of site.entry) 4 input.old) }
    ensures on { OnOk result (IsBehind input.old input.new) }
{
    let offset = read_s4(input)?;
    Ok(place_at(site.pc, offset))
}

/// The tags of the entries of a kind.
fn tags_of_kind(major: u16, kind: EntryKind) -> &'static [u8]
    ensures { result.now ≡ tags_of_kind major (kind_of kind) }
{
    match kind {
        EntryKind::Loadable => &[tag::INTEGER, tag::STRING],
        EntryKind::Long => &[tag::LONG],
        EntryKind::Field => &[tag::FIELDREF],
        EntryKind::Method => &[tag::METHODREF],
        EntryKind::MethodOfAny if major >= 52 => &[tag::METHODREF, tag::INTERFACE_METHODREF],
        EntryKind::MethodOfAny => &[tag::METHODREF],
        EntryKind::MethodOfInterface => &[tag::INTERFACE_METHODREF],
        EntryKind::Class => &[tag::CLASS],
    }
}

/// The tags of the entries that this machine doesn't use where one of a kind is named. It pushes
/// no class.
fn unsupported_tags(kind: EntryKind) -> &'static [u8]
    ensures { result.now ≡ unsupported_tags (kind_of kind) }
{
    match kind {
        EntryKind::Loadable => &[
            tag::CLASS,
            tag::FLOAT,
            tag::DOUBLE,
            tag::METHOD_HANDLE,
            tag::METHOD_TYPE,
            tag::INVOKE_DYNAMIC,
        ],
        _ => &[
            tag::FLOAT,
            tag::DOUBLE,
            tag::METHOD_HANDLE,
            tag::METHOD_TYPE,
            tag::INVOKE_DYNAMIC,
        ],
    }
}

/// The next index, which has to name an entry of that kind. One that this machine doesn't use is
/// reported first.
#[tactic(auto, unfolding(code_model::specs::OperandReading::entry_at))]
fn read_entry(
    site: Site,
    kind: EntryKind,
    width: Width,
    input: &mut Input,
) -> Result<u16, OperandError>
    ensures index { GivesOperand site.entry (λ index. (index, input.new)) result
        (entry_at (site_of site.entry) (kind_of kind) (bytes_of width) input.old) }
    ensures on { OnOk result (IsBehind input.old input.new) }
{
    let index = read_number(width, input)?;
    if names_one_of(&site.class.pool, unsupported_tags(kind), index) {
        return Err(OperandError::Unsupported);
    }
    if !names_one_of(
        &site.class.pool,
        tags_of_kind(site.class.major, kind),
        index,
    ) {
        return Err(OperandError::Operand);
    }
    Ok(index)
}

/// The instruction with no operands.
pub fn plain(its: Plain) -> Instruction
    ensures { instruction_of result ≡ plain_of its }
{
    match its {
        Plain::Nop => Instruction::Nop,
        Plain::AconstNull => Instruction::AconstNull,
        Plain::PushInt(value) => Instruction::PushInt(value),
        Plain::PushLong(value) => Instruction::PushLong(value),
        Plain::Load(kind, local) => Instruction::Load(kind, local),
        Plain::Store(kind, local) => Instruction::Store(kind, local),
        Plain::ArrayLoad(kind) => Instruction::ArrayLoad(kind),
        Plain::ArrayStore(kind) => Instruction::ArrayStore(kind),
        Plain::Stack(form) => Instruction::Stack(form),
        Plain::IntArithmetic(operation) => Instruction::IntArithmetic(operation),
        Plain::IntShift(shift) => Instruction::IntShift(shift),
        Plain::IntNegate => Instruction::IntNegate,
        Plain::LongArithmetic(operation) => Instruction::LongArithmetic(operation),
        Plain::LongShift(shift) => Instruction::LongShift(shift),
        Plain::LongNegate => Instruction::LongNegate,
        Plain::Convert(conversion) => Instruction::Convert(conversion),
        Plain::CompareLongs => Instruction::CompareLongs,
        Plain::ReturnValue(kind) => Instruction::ReturnValue(kind),
        Plain::ReturnVoid => Instruction::ReturnVoid,
        Plain::Arraylength => Instruction::Arraylength,
        Plain::Athrow => Instruction::Athrow,
        Plain::Monitorenter => Instruction::Monitorenter,
        Plain::Monitorexit => Instruction::Monitorexit,
    }
}

/// The instruction with an index.
fn indexed(its: Indexed, index: u16) -> Instruction
    ensures { instruction_of result ≡ indexed_of its index }
{
    match its {
        Indexed::Ldc => Instruction::Ldc(index),
        Indexed::Ldc2W => Instruction::Ldc2W(index),
        Indexed::Getstatic => Instruction::Getstatic(index),
        Indexed::Putstatic => Instruction::Putstatic(index),
        Indexed::Getfield => Instruction::Getfield(index),
        Indexed::Putfield => Instruction::Putfield(index),
        Indexed::Invokevirtual => Instruction::Invokevirtual(index),
        Indexed::Invokespecial => Instruction::Invokespecial(index),
        Indexed::Invokestatic => Instruction::Invokestatic(index),
        Indexed::New => Instruction::New(index),
        Indexed::Anewarray => Instruction::Anewarray(index),
        Indexed::Checkcast => Instruction::Checkcast(index),
        Indexed::Instanceof => Instruction::Instanceof(index),
    }
}

/// The branch to a target.
fn branch_to(its: Branch, target: u32) -> Instruction
    ensures { instruction_of result ≡ branch_to (branch_of its) target }
{
    match its {
        Branch::OnZero(comparison) => Instruction::IfZero(comparison, target),
        Branch::OnInts(comparison) => Instruction::IfInts(comparison, target),
        Branch::OnReferences(equal) => Instruction::IfReferences(equal, target),
        Branch::OnNull(equal) => Instruction::IfNull(equal, target),
        Branch::Always => Instruction::Goto(target),
    }
}

/// The type of `newarray` that a number stands for, if it isn't that of floats or doubles.
#[tactic(auto, unfolding(code_model::specs::Formats::primitive_of))]
fn primitive_of(number: u8) -> Option<PrimitiveType>
    ensures { option_map primitive_type_of result ≡ primitive_of number }
{
    match number {
        4 => Some(PrimitiveType::Boolean),
        5 => Some(PrimitiveType::Char),
        8 => Some(PrimitiveType::Byte),
        9 => Some(PrimitiveType::Short),
        10 => Some(PrimitiveType::Int),
        11 => Some(PrimitiveType::Long),
        _ => None,
    }
}

/// `bipush`, `sipush`.
pub fn read_constant(width: Width, input: &mut Input) -> Result<Instruction, Cut>
    ensures instruction { GivesItem (λ its. (instruction_of its, input.new)) result
        (constant_at (bytes_of width) input.old) }
    ensures on { OnOk result (IsBehind input.old input.new) }
{
    Ok(Instruction::PushInt(read_signed(width, input)?))
}

/// An instruction with the index of an entry of that kind.
pub fn read_indexed(
    site: Site,
    kind: EntryKind,
    width: Width,
    its: Indexed,
    input: &mut Input,
) -> Result<Instruction, OperandError>
    ensures instruction { GivesOperand site.entry (λ its. (instruction_of its, input.new)) result
        (index_at (site_of site.entry) (kind_of kind) (bytes_of width) (indexed_of its) input.old) }
    ensures on { OnOk result (IsBehind input.old input.new) }
{
    let index = read_entry(site, kind, width, input)?;
    Ok(indexed(its, index))
}

/// A load or a store.
pub fn read_local(width: Width, its: LocalAccess, input: &mut Input) -> Result<Instruction, Cut>
    ensures instruction { GivesItem (λ its. (instruction_of its, input.new)) result
        (local_at (bytes_of width) (access_of its) input.old) }
    ensures on { OnOk result (IsBehind input.old input.new) }
{
    let index = read_number(width, input)?;
    match its {
        LocalAccess::Load(kind) => Ok(Instruction::Load(kind, index)),
        LocalAccess::Store(kind) => Ok(Instruction::Store(kind, index)),
    }
}

/// `iinc`.
pub fn read_increment(width: Width, input: &mut Input) -> Result<Instruction, Cut>
    ensures instruction { GivesItem (λ its. (instruction_of its, input.new)) result
        (increment_at (bytes_of width) input.old) }
    ensures on { OnOk result (IsBehind input.old input.new) }
{
    let index = read_number(width, input)?;
    let added = read_signed(width, input)?;
    Ok(Instruction::Increment(index, added))
}

/// An instruction with an offset of two bytes.
pub fn read_branch(site: Site, its: Branch, input: &mut Input) -> Result<Instruction, Cut>
    requires { site.pc < 2 ^ 31 }
    ensures instruction { GivesItem (λ its. (instruction_of its, input.new)) result
        (branch_at (site_of site.entry) 2 (branch_of its) input.old) }
    ensures on { OnOk result (IsBehind input.old input.new) }
{
    let target = read_near_target(site, input)?;
    Ok(branch_to(its, target))
}

/// An instruction with an offset of four bytes.
pub fn read_wide_branch(site: Site, its: Branch, input: &mut Input) -> Result<Instruction, Cut>
    requires { site.pc < 2 ^ 31 }
    ensures instruction { GivesItem (λ its. (instruction_of its, input.new)) result
        (branch_at (site_of site.entry) 4 (branch_of its) input.old) }
    ensures on { OnOk result (IsBehind input.old input.new) }
{
    let target = read_target(site, input)?;
    Ok(branch_to(its, target))
}

/// `invokeinterface`.
#[tactic(auto, unfolding(code_model::specs::OperandReading::interface_call_at))]
pub fn read_interface_call(
    alloc: Global,
    site: Site,
    input: &mut Input,
) -> Result<Instruction, OperandError>
    ensures instruction { GivesOperand site.entry (λ its. (instruction_of its, input.new)) result
        (interface_call_at (site_of site.entry) input.old) }
    ensures on { OnOk result (IsBehind input.old input.new) }
{
    let index = read_entry(site, EntryKind::MethodOfInterface, Width::Two, input)?;
    let count = input.u1()?;
    let last = input.u1()?;
    if is_argument_count(alloc, site.class, index, count)? && last == 0 {
        Ok(Instruction::Invokeinterface(index))
    } else {
        Err(OperandError::Operand)
    }
}

/// `newarray`.
pub fn read_newarray(site: Site, input: &mut Input) -> Result<Instruction, OperandError>
    ensures instruction { GivesOperand site.entry (λ its. (instruction_of its, input.new)) result
        (newarray_at (site_of site.entry) input.old) }
    ensures on { OnOk result (IsBehind input.old input.new) }
{
    let number = input.u1()?;
    match primitive_of(number) {
        Some(element) => Ok(Instruction::Newarray(element)),
        None => Err(OperandError::Unsupported),
    }
}
