//! Which entries of the constant pool a text needs, in order.

ghost use Rattle.std.specs.Prelude.{◌≡◌, ◌++◌, [], ◌∷◌, IfOk, OnOk, Ok, codes};
ghost use Rattle.std.specs.List.{flat_map};
ghost use Rattle.jv_model.specs.Utf16.{units_of_utf8};
ghost use Rattle.assembler_model.specs.PoolEntries.{text_entry, class_entry};
ghost use Rattle.assembler_model.specs.PoolNeeds.{all_needs, caught_entries, constant_entry, frame_entries, line_entries, needs_at, needs_by, operation_entries, part_needs, type_entries, value_entries};
ghost use Rattle.asm_lines.specs.Terms.{constant_of, line_of, operation_of, type_of, value_of};
ghost use Rattle.asm_lines.specs.NumberedLines.{numbered_of, said_of};
ghost use Rattle.asm_parts.specs.Entries.{entry_of};
ghost use Rattle.asm_parts.specs.Parts.{part_of, parts_of};
ghost use Rattle.asm_pool.specs.Needs.{entries_by, entries_if_any, needs_of, numbered_lines, types_of};

use crate::need::{Need, Turn};
use asm_lines::numbered_line::NumberedLine;
use asm_lines::term::{AssemblerLine, ConstantText, FrameType, Operation};
use asm_parts::entry::Entry;
use asm_parts::part::Part;
use jv_types::{List, NoMemory};
use std::alloc::Global;

/// The entry of a constant.
pub fn constant_entry(constant: ConstantText<'_>) -> Entry<'_>
    ensures { entry_of result ≡ constant_entry (constant_of constant.entry) }
{
    match constant {
        ConstantText::Int(value) => Entry::Int(value),
        ConstantText::Long(value) => Entry::Long(value),
        ConstantText::String(text) => Entry::String(text),
    }
}

/// What an instruction names in the pool, if anything.
pub fn operation_entry<'a>(operation: &Operation<'a>) -> Option<Entry<'a>>
    ensures { entries_if_any result ≡ operation_entries (operation_of operation.now) }
{
    match operation {
        Operation::Member(_, kind, reference) => Some(Entry::Member(*kind, *reference)),
        Operation::Class(_, name) => Some(Entry::Class(name)),
        Operation::LoadConstant(constant) => Some(constant_entry(*constant)),
        Operation::LoadLong(value) => Some(Entry::Long(*value)),
        _ => None,
    }
}

/// Adds what a line needs.
fn push<'a>(needs: &mut List<Need<'a>>, line: u32, entry: Entry<'a>) -> Result<(), NoMemory>
    ensures { OnOk result (needs_of needs.new.items
        ≡ needs_of needs.old.items ++ needs_at line (entry_of entry.entry ∷ [])) }
{
    needs.push(Need { line, entry })
}

/// Adds what an instruction names.
fn push_operation<'a>(
    needs: &mut List<Need<'a>>,
    line: u32,
    operation: &Operation<'a>,
) -> Result<(), NoMemory>
    ensures { OnOk result (needs_of needs.new.items
        ≡ needs_of needs.old.items ++ needs_at line (operation_entries (operation_of operation.now))) }
{
    match operation_entry(operation) {
        Some(entry) => push(needs, line, entry),
        None => Ok(()),
    }
}

/// Adds what a field's constant value needs.
fn push_value<'a>(
    needs: &mut List<Need<'a>>,
    line: u32,
    value: Option<ConstantText<'a>>,
) -> Result<(), NoMemory>
    ensures { OnOk result (needs_of needs.new.items
        ≡ needs_of needs.old.items ++ needs_at line (value_entries (value_of value.entry))) }
{
    let Some(constant) = value else {
        return Ok(());
    };
    push(needs, line, Entry::Text("ConstantValue"))?;
    push(needs, line, constant_entry(constant))
}

/// Adds a name and a descriptor.
fn push_names<'a>(
    needs: &mut List<Need<'a>>,
    line: u32,
    name: &'a str,
    descriptor: &'a str,
) -> Result<(), NoMemory>
    ensures { OnOk result (needs_of needs.new.items ≡ needs_of needs.old.items
        ++ needs_at line (text_entry (units_of_utf8 name.now) ∷ text_entry (units_of_utf8 descriptor.now) ∷ [])) }
{
    push(needs, line, Entry::Text(name))?;
    push(needs, line, Entry::Text(descriptor))
}

/// Adds what a line needs where it stands, frames and handlers apart.
#[tactic(auto, using(crate::proofs::NeedLemmas::code_name))]
fn push_line<'a>(
    needs: &mut List<Need<'a>>,
    line: u32,
    said: &AssemblerLine<'a>,
) -> Result<(), NoMemory>
    ensures { OnOk result (needs_of needs.new.items
        ≡ needs_of needs.old.items ++ needs_at line (line_entries (Ok (line_of said.now)))) }
{
    match said {
        AssemblerLine::Implements(name) => push(needs, line, Entry::Class(name)),
        AssemblerLine::Field {
            name,
            descriptor,
            value,
            ..
        } => {
            push_names(needs, line, name, descriptor)?;
            push_value(needs, line, *value)
        }
        AssemblerLine::Method {
            name,
            descriptor,
            ..
        } => push_names(needs, line, name, descriptor),
        AssemblerLine::Stack { .. } => push(needs, line, Entry::Text("Code")),
        AssemblerLine::Operation(operation) => push_operation(needs, line, operation),
        AssemblerLine::Attribute { name, .. } => push(needs, line, Entry::Text(name)),
        _ => Ok(()),
    }
}

/// Adds what a handler needs.
fn push_caught<'a>(
    needs: &mut List<Need<'a>>,
    line: u32,
    said: &AssemblerLine<'a>,
) -> Result<(), NoMemory>
    ensures { OnOk result (needs_of needs.new.items
        ≡ needs_of needs.old.items ++ needs_at line (caught_entries (Ok (line_of said.now)))) }
{
    match said {
        AssemblerLine::Catch {
            caught: Some(name),
            ..
        } => push(needs, line, Entry::Class(name)),
        _ => Ok(()),
    }
}

/// Adds what the types of a frame need.
fn push_types<'a>(
    needs: &mut List<Need<'a>>,
    line: u32,
    types: &[FrameType<'a>],
) -> Result<(), NoMemory>
    ensures { OnOk result (needs_of needs.new.items
        ≡ needs_of needs.old.items ++ needs_at line (flat_map type_entries (types_of types.now))) }
{
    for kind in types {
        if let FrameType::Object(name) = kind {
            push(needs, line, Entry::Class(name))?;
        }
    }
    Ok(())
}

/// Adds what a frame needs.
fn push_frame<'a>(
    needs: &mut List<Need<'a>>,
    line: u32,
    said: &AssemblerLine<'a>,
) -> Result<(), NoMemory>
    ensures { OnOk result (needs_of needs.new.items
        ≡ needs_of needs.old.items ++ needs_at line (frame_entries (Ok (line_of said.now)))) }
{
    let AssemblerLine::Frame { locals, stack } = said else {
        return Ok(());
    };
    push(needs, line, Entry::Text("StackMapTable"))?;
    push_types(needs, line, locals.as_slice())?;
    push_types(needs, line, stack.as_slice())
}

/// Adds what a line needs in a turn.
fn push_turn<'a>(
    needs: &mut List<Need<'a>>,
    turn: Turn,
    line: &NumberedLine<'a>,
) -> Result<(), NoMemory>
    ensures { OnOk result (needs_of needs.new.items
        ≡ needs_of needs.old.items ++ needs_at line.now.number (entries_by turn (said_of line.now))) }
{
    let Ok(said) = &line.said else {
        return Ok(());
    };
    match turn {
        Turn::Lines => push_line(needs, line.number, said),
        Turn::Handlers => push_caught(needs, line.number, said),
        Turn::Frames => push_frame(needs, line.number, said),
    }
}

/// Adds what lines need in a turn.
fn push_lines<'a>(
    needs: &mut List<Need<'a>>,
    turn: Turn,
    lines: &[NumberedLine<'a>],
) -> Result<(), NoMemory>
    ensures { OnOk result (needs_of needs.new.items
        ≡ needs_of needs.old.items ++ needs_by (entries_by turn) (numbered_lines lines.now)) }
{
    for line in lines {
        push_turn(needs, turn, line)?;
    }
    Ok(())
}

/// Adds what a line outside methods needs, and the method that it begins: the method's code, then
/// its handlers, then its frames.
fn push_part<'a>(needs: &mut List<Need<'a>>, part: &Part<'a>) -> Result<(), NoMemory>
    ensures { OnOk result (needs_of needs.new.items
        ≡ needs_of needs.old.items ++ part_needs (part_of part.now)) }
{
    push_turn(needs, Turn::Lines, &part.line)?;
    push_lines(needs, Turn::Lines, part.block.as_slice())?;
    push_lines(needs, Turn::Handlers, part.block.as_slice())?;
    push_lines(needs, Turn::Frames, part.block.as_slice())
}

/// Adds what parts need, in order.
fn push_parts<'a>(needs: &mut List<Need<'a>>, parts: &[Part<'a>]) -> Result<(), NoMemory>
    ensures { OnOk result (needs_of needs.new.items
        ≡ needs_of needs.old.items ++ flat_map part_needs (parts_of parts.now)) }
{
    for part in parts {
        push_part(needs, part)?;
    }
    Ok(())
}

/// What a text with these parts needs, in order: its class and its superclass, which the first line
/// names, and what the lines behind it need.
pub fn all_needs<'a>(
    alloc: Global,
    this: &'a str,
    super_name: &'a str,
    parts: &[Part<'a>],
) -> Result<List<Need<'a>>, NoMemory>
    ensures { IfOk result (λ needs. needs_of needs.items
        ≡ all_needs (units_of_utf8 this.now) (units_of_utf8 super_name.now) (parts_of parts.now)) }
{
    let mut needs = List::new(alloc);
    push(&mut needs, 1, Entry::Class(this))?;
    push(&mut needs, 1, Entry::Class(super_name))?;
    push_parts(&mut needs, parts)?;
    Ok(needs)
}
