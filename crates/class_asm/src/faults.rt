//! What is wrong with the parts of a text.

ghost use Rattle.std.specs.Prelude.{◌≡◌, OnOk};
ghost use Rattle.std.specs.List.{flat_map};
ghost use Rattle.text_model.specs.LineFaults.{first_fault};
ghost use Rattle.assembler_model.specs.AssemblerOrder.{asks_code, begins_method, block_faults, part_faults};
ghost use Rattle.assembler_model.specs.AssembledClass.{begin_faults, faults_of_part, said_faults_of};
ghost use Rattle.asm_lines.specs.LineForms.{form_if_any};
ghost use Rattle.asm_lines.specs.NumberedLines.{numbered_of, said_of};
ghost use Rattle.asm_parts.specs.Faults.{either, told_by};
ghost use Rattle.asm_parts.specs.Parts.{lines_in, part_of, parts_of};
ghost use Rattle.asm_parts.specs.Pools.{entries_in, IsPool};

use crate::blocks::behind_first;
use crate::numbers::next_number;
use asm_code::faults::note_code;
use asm_code::lines::read_code;
use asm_lines::form::LineForm;
use asm_lines::numbered_line::NumberedLine;
use asm_lines::term::AssemblerLine;
use asm_parts::fault::{note, note_unless, note_where};
use asm_parts::first_fault::FirstFault;
use asm_parts::part::Part;
use asm_parts::pool_entries::Pool;
use jv_types::{LineKind, List, NoMemory};
use std::alloc::Global;

/// A native method has no code (JVMS 4.7.3).
const NATIVE: u16 = 0x0100;

/// An abstract method has no code (JVMS 4.7.3).
const ABSTRACT: u16 = 0x0400;

/// Whether the flags of a method's line ask for code.
fn asks_code(line: &NumberedLine<'_>) -> bool
    ensures { result ≡ asks_code (said_of line.now) }
{
    match &line.said {
        Ok(AssemblerLine::Method { flags, .. }) => flags & NATIVE == 0 && flags & ABSTRACT == 0,
        _ => false,
    }
}

/// Whether a line of this form may begin the block of a method, which has code or none.
fn begins_method(has_code: bool, form: Option<LineForm>) -> bool
    ensures { result ≡ begins_method has_code (form_if_any form) }
{
    match form {
        None => true,
        Some(LineForm::Stack) => has_code,
        Some(LineForm::End) => !has_code,
        Some(_) => false,
    }
}

/// Notes what is wrong with what a line says by itself.
fn note_said(line: &NumberedLine<'_>, first: &mut FirstFault)
    ensures { told_by first.new ≡ either (told_by first.old)
        (first_fault (said_faults_of (numbered_of line.now) (said_of line.now))) }
{
    if let Err(kind) = &line.said {
        note(first, line.number, *kind);
    }
}

/// Notes a method whose block doesn't begin as its flags ask.
fn note_block(part: &Part<'_>, first: &mut FirstFault) -> Result<(), NoMemory>
    ensures { OnOk result (told_by first.new ≡ either (told_by first.old)
        (first_fault (block_faults (part_of part.now) (lines_in part.now.block)))) }
{
    let has_code = asks_code(&part.line);
    // Where the block has no line, the one that ends the method stands directly behind the one that
    // begins it.
    let next = next_number(part.line.number)?;
    match part.block.as_slice() {
        [line, ..] => note_unless(
            first,
            begins_method(has_code, line.form),
            line.number,
            LineKind::Order,
        ),
        [] => note_where(first, has_code && part.is_closed, next, LineKind::Order),
    }
    Ok(())
}

/// Notes what is wrong with the first line of a method's block by itself.
fn note_begin(block: &List<NumberedLine<'_>>, first: &mut FirstFault)
    ensures { told_by first.new ≡ either (told_by first.old) (first_fault (begin_faults (lines_in block.now))) }
{
    if let [line, ..] = block.as_slice() {
        note_said(line, first);
    }
}

/// Notes what is wrong with a line outside methods by itself, and with the method that it begins. A
/// method without its end is told at the last line, which has this number.
fn note_part(
    alloc: Global,
    pool: &Pool<'_>,
    last: u32,
    part: &Part<'_>,
    first: &mut FirstFault,
) -> Result<(), NoMemory>
    requires { IsPool pool.now }
    ensures { OnOk result (told_by first.new ≡ either (told_by first.old)
        (first_fault (faults_of_part (entries_in pool.now) last (part_of part.now)))) }
{
    let code = read_code(alloc, pool, behind_first(&part.block))?;
    note_said(&part.line, first);
    note_block(part, first)?;
    note_unless(first, part.is_closed, last, LineKind::Open);
    note_begin(&part.block, first);
    note_code(alloc, &code, first)
}

/// Notes what is wrong with parts, each by itself.
pub fn note_parts(
    alloc: Global,
    pool: &Pool<'_>,
    last: u32,
    parts: &[Part<'_>],
    first: &mut FirstFault,
) -> Result<(), NoMemory>
    requires { IsPool pool.now }
    ensures { OnOk result (told_by first.new ≡ either (told_by first.old)
        (first_fault (flat_map (faults_of_part (entries_in pool.now) last) (parts_of parts.now)))) }
{
    for part in parts {
        note_part(alloc, pool, last, part, first)?;
    }
    Ok(())
}
