//! The bytes of instructions (JVMS 6.5).

ghost use Rattle.std.specs.Prelude.{◌≡◌, ◌++◌, ◌∷◌, [], pos, ◌+ℤ◌, ◌-ℤ◌, IfOk, OnOk, unwrap_or, option_map};
ghost use Rattle.std.specs.List.{flat_map};
ghost use Rattle.jv_model.specs.ClassBytes.{u2};
ghost use Rattle.jv_model.specs.Utf16.{units_of_utf8};
ghost use Rattle.assembler_model.specs.CodeFaults.{target_in};
ghost use Rattle.assembler_model.specs.InstructionBytes.{argument_count, constant_bytes, count_bytes, distance, increment_bytes, local_bytes, operation_bytes, padding, s4};
ghost use Rattle.asm_lines.specs.Terms.{kind_of, operation_of, reference_of, rows_of};
ghost use Rattle.asm_lines.specs.Words.{texts};
ghost use Rattle.asm_parts.specs.Entries.{entry_of};
ghost use Rattle.asm_parts.specs.Pools.{entries_in, IsPool};
ghost use Rattle.asm_code.specs.Labels.{labels_in};
ghost use Rattle.asm_bytes.specs.Bytes.{row_bytes, rows_in, table_bytes};

use crate::bytes::{push_s1, push_s2, push_s4, push_u1, push_u2, push_u4};
use asm_code::labels::{Labels, target_of};
use asm_code::sizes::{is_byte, is_wide, padding};
use asm_lines::term::{MemberReference, Operation, ReferenceKind};
use asm_parts::entry::Entry;
use asm_parts::pool::index_of;
use asm_parts::pool_entries::Pool;
use asm_pool::needs::constant_entry;
use jv_types::text::units;
use jv_types::{Bytes, List, NoMemory};
use method_descriptors::parameter_words;
use std::alloc::Global;

/// From one pc to another.
fn distance(from: u32, to: u32) -> i64
    ensures { result ≡ distance from to }
{
    i64::from(to) - i64::from(from)
}

/// Adds an opcode with a local, behind `wide` where the local needs it.
fn push_local(bytes: &mut Bytes, opcode: u8, local: u16) -> Result<(), NoMemory>
    ensures { OnOk result (bytes.new.items ≡ bytes.old.items ++ local_bytes opcode local) }
{
    if is_wide(local) {
        bytes.append(&[0xc4, opcode])?;
        return push_u2(bytes, u32::from(local));
    }
    bytes.append(&[opcode, local as u8])
}

/// Adds `iinc`, behind `wide` where the local or the number needs it.
fn push_increment(bytes: &mut Bytes, local: u16, number: i16) -> Result<(), NoMemory>
    ensures { OnOk result (bytes.new.items ≡ bytes.old.items ++ increment_bytes local number) }
{
    if is_wide(local) || !is_byte(number) {
        bytes.append(&[0xc4, 0x84])?;
        push_u2(bytes, u32::from(local))?;
        return push_s2(bytes, i64::from(number));
    }
    bytes.append(&[0x84, local as u8])?;
    push_s1(bytes, number as i8)
}

/// Adds an opcode with the index of an entry.
fn push_index(bytes: &mut Bytes, opcode: u8, index: u32) -> Result<(), NoMemory>
    ensures { OnOk result (bytes.new.items ≡ bytes.old.items ++ opcode ∷ u2 index) }
{
    push_u1(bytes, opcode)?;
    push_u2(bytes, index)
}

/// Adds `ldc`, or `ldc_w` where the index needs it.
fn push_constant(bytes: &mut Bytes, index: u32) -> Result<(), NoMemory>
    ensures { OnOk result (bytes.new.items ≡ bytes.old.items ++ constant_bytes index) }
{
    if index > 0xff {
        return push_index(bytes, 0x13, index);
    }
    bytes.append(&[0x12, index as u8])
}

/// The count of invokeinterface: the words of the parameters and of the receiver; 0 where the
/// descriptor is ill formed, or one byte doesn't hold it.
fn argument_count(alloc: Global, descriptor: &str) -> Result<u8, NoMemory>
    ensures { IfOk result (λ count. count ≡ argument_count (units_of_utf8 descriptor.now)) }
{
    let units = units(alloc, descriptor)?;
    match parameter_words(alloc, units.as_slice())? {
        Some(words) => Ok(((words + 1) % 0x100) as u8),
        None => Ok(0),
    }
}

/// Adds what stands behind the index of `invokeinterface`.
fn push_count(
    alloc: Global,
    bytes: &mut Bytes,
    kind: ReferenceKind,
    reference: MemberReference<'_>,
) -> Result<(), NoMemory>
    ensures { OnOk result (bytes.new.items
        ≡ bytes.old.items ++ count_bytes (kind_of kind) (reference_of reference.entry)) }
{
    match kind {
        ReferenceKind::InterfaceMethod => {
            let count = argument_count(alloc, reference.descriptor)?;
            bytes.append(&[count, 0])
        }
        _ => Ok(()),
    }
}

/// Adds the distance of a label, of four bytes.
fn push_distance(
    bytes: &mut Bytes,
    labels: &Labels<'_>,
    pc: u32,
    label: &str,
) -> Result<(), NoMemory>
    ensures { OnOk result (bytes.new.items ≡ bytes.old.items
        ++ s4 (distance pc (target_in (labels_in labels.now.entries) label.now))) }
{
    push_s4(bytes, distance(pc, target_of(labels, label)))
}

/// Adds the distances of these labels.
fn push_distances(
    bytes: &mut Bytes,
    labels: &Labels<'_>,
    pc: u32,
    names: &[&str],
) -> Result<(), NoMemory>
    ensures { OnOk result (bytes.new.items ≡ bytes.old.items
        ++ flat_map (λ label. s4 (distance pc (target_in (labels_in labels.now.entries) label))) (texts names.now)) }
{
    for name in names {
        push_s4(bytes, distance(pc, target_of(labels, name)))?;
    }
    Ok(())
}

/// Adds a row of a lookupswitch: a key and a distance.
fn push_row(
    bytes: &mut Bytes,
    labels: &Labels<'_>,
    pc: u32,
    key: i32,
    label: &str,
) -> Result<(), NoMemory>
    ensures { OnOk result (bytes.new.items ≡ bytes.old.items
        ++ row_bytes (target_in (labels_in labels.now.entries)) pc (key, label.now)) }
{
    push_s4(bytes, i64::from(key))?;
    push_distance(bytes, labels, pc, label)
}

/// Adds rows of a lookupswitch.
fn push_rows(
    bytes: &mut Bytes,
    labels: &Labels<'_>,
    pc: u32,
    rows: &[(i32, &str)],
) -> Result<(), NoMemory>
    ensures { OnOk result (bytes.new.items ≡ bytes.old.items
        ++ flat_map (row_bytes (target_in (labels_in labels.now.entries)) pc) (rows_in rows.now)) }
{
    for (key, label) in rows {
        push_row(bytes, labels, pc, *key, label)?;
    }
    Ok(())
}

/// Adds the zeros behind the opcode of a switch at a pc, up to a multiple of four.
#[tactic(auto, using(crate::proofs::TargetLemmas::zeros))]
fn push_padding(bytes: &mut Bytes, pc: u32) -> Result<(), NoMemory>
    ensures { OnOk result (bytes.new.items ≡ bytes.old.items ++ padding pc) }
{
    let zeros = [0; 3];
    bytes.append(&zeros[..padding(pc) as usize])
}

/// Adds the opcode of a switch at a pc, the zeros behind it, and the distance of the default label.
fn push_switch(
    bytes: &mut Bytes,
    opcode: u8,
    labels: &Labels<'_>,
    pc: u32,
    default: &str,
) -> Result<(), NoMemory>
    ensures { OnOk result (bytes.new.items ≡ bytes.old.items
        ++ opcode ∷ padding pc ++ s4 (distance pc (target_in (labels_in labels.now.entries) default.now))) }
{
    bytes.append(&[opcode])?;
    push_padding(bytes, pc)?;
    push_distance(bytes, labels, pc, default)
}

/// The highest key of a tableswitch with so many labels.
fn highest_key(low: i32, labels: u32) -> i64
    ensures { result ≡ (low +ℤ pos labels) -ℤ pos 1 }
{
    i64::from(low) + i64::from(labels) - 1
}

/// Adds the lowest and the highest key of a tableswitch with so many labels.
fn push_keys(bytes: &mut Bytes, low: i32, labels: u32) -> Result<(), NoMemory>
    ensures { OnOk result (bytes.new.items ≡ bytes.old.items
        ++ s4 low ++ s4 ((low +ℤ pos labels) -ℤ pos 1)) }
{
    push_s4(bytes, i64::from(low))?;
    push_s4(bytes, highest_key(low, labels))
}

/// Adds a tableswitch at a pc, whose first label is that of this key.
fn push_table(
    bytes: &mut Bytes,
    labels: &Labels<'_>,
    pc: u32,
    low: i32,
    names: &List<&str>,
    default: &str,
) -> Result<(), NoMemory>
    ensures { OnOk result (bytes.new.items ≡ bytes.old.items
        ++ table_bytes (target_in (labels_in labels.now.entries)) pc low (texts names.now.items) default.now) }
{
    push_switch(bytes, 0xaa, labels, pc, default)?;
    push_keys(bytes, low, names.len())?;
    push_distances(bytes, labels, pc, names.as_slice())
}

/// Adds an instruction at a pc.
#[tactic(auto, unfolding(assembler_model::specs::InstructionBytes::operation_bytes))]
pub fn push_operation(
    alloc: Global,
    bytes: &mut Bytes,
    pool: &Pool<'_>,
    labels: &Labels<'_>,
    pc: u32,
    operation: &Operation<'_>,
) -> Result<(), NoMemory>
    requires { IsPool pool.now }
    ensures { OnOk result (bytes.new.items ≡ bytes.old.items ++ operation_bytes (entries_in pool.now)
        (target_in (labels_in labels.now.entries)) pc (operation_of operation.now)) }
{
    match operation {
        Operation::Plain(opcode) => push_u1(bytes, *opcode),
        Operation::Local(opcode, local) => push_local(bytes, *opcode, *local),
        Operation::Byte(opcode, number) => {
            push_u1(bytes, *opcode)?;
            push_s1(bytes, *number)
        }
        Operation::Short(opcode, number) => {
            push_u1(bytes, *opcode)?;
            push_s2(bytes, i64::from(*number))
        }
        Operation::Branch(opcode, label) => {
            push_u1(bytes, *opcode)?;
            push_s2(bytes, distance(pc, target_of(labels, label)))
        }
        Operation::WideBranch(opcode, label) => {
            push_u1(bytes, *opcode)?;
            push_distance(bytes, labels, pc, label)
        }
        Operation::Member(opcode, kind, reference) => {
            push_index(
                bytes,
                *opcode,
                index_of(pool, Entry::Member(*kind, *reference)),
            )?;
            push_count(alloc, bytes, *kind, *reference)
        }
        Operation::Class(opcode, name) => {
            push_index(bytes, *opcode, index_of(pool, Entry::Class(name)))
        }
        Operation::LoadConstant(constant) => {
            push_constant(bytes, index_of(pool, constant_entry(*constant)))
        }
        Operation::LoadLong(number) => {
            push_index(bytes, 0x14, index_of(pool, Entry::Long(*number)))
        }
        Operation::NewArray(kind) => bytes.append(&[0xbc, *kind]),
        Operation::Increment(local, number) => push_increment(bytes, *local, *number),
        Operation::TableSwitch {
            low,
            labels: names,
            default,
        } => push_table(bytes, labels, pc, *low, names, default),
        Operation::LookupSwitch { rows, default } => {
            push_switch(bytes, 0xab, labels, pc, default)?;
            push_u4(bytes, rows.len())?;
            push_rows(bytes, labels, pc, rows.as_slice())
        }
    }
}
