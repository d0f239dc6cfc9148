//! A text, cut into its parts.

ghost use Rattle.std.specs.Prelude.{◌≡◌, ◌+◌, ◌≤◌, ◌&&◌, if◌then◌else◌, Some, None, IfOk, length, bytes_eq, codes};
ghost use Rattle.jv_model.specs.Lines.{lines_of};
ghost use Rattle.jv_types.specs.Lines.{line_view};
ghost use Rattle.assembler_model.specs.AssemblerOrder.{parts_of as parts_read, method_end};
ghost use Rattle.asm_lines.specs.LineForms.{form_if_any};
ghost use Rattle.asm_parts.specs.Parts.{IsBlock, parts_of};

use crate::part::{Block, Part};
use asm_lines::form::LineForm;
use asm_lines::line::read_line;
use asm_lines::numbered_line::NumberedLine;
use jv_types::lines::{Line, split_line};
use jv_types::{List, NoMemory};
use std::alloc::Global;

/// The number behind this one, where 32 bits hold it.
fn next_number(number: u32) -> Result<u32, NoMemory>
    ensures { IfOk result (λ next. next ≡ number + 1) }
{
    match number.checked_add(1) {
        Some(next) => Ok(next),
        None => Err(NoMemory),
    }
}

/// Whether a line ends a method.
fn is_end(line: Line<'_>) -> bool
    ensures { result ≡ (line.entry.is_ended && bytes_eq line.entry.bytes.now (codes "end")) }
{
    line.is_ended && line.bytes == b"end".as_slice()
}

/// The lines of a method up to its `end`. The first has this number.
fn read_block(alloc: Global, number: u32, text: &[u8]) -> Result<Block<'_>, NoMemory>
    ensures block { IfOk result (λ block. IsBlock (Some (codes "end")) number (lines_of text.now) block) }
    ensures shorter { IfOk result (λ block. length block.left.now ≤ length text.now) }
{
    let mut lines = List::new(alloc);
    let mut next = number;
    let mut left = text;
    'lines: while !left.is_empty() {
        let (line, behind) = split_line(left);
        let after = next_number(next)?;
        if is_end(line) {
            return Ok(Block {
                lines,
                is_closed: true,
                next: after,
                left: behind,
            });
        }
        lines.push(read_line(alloc, next, line)?)?;
        next = after;
        left = behind;
    }
    Ok(Block {
        lines,
        is_closed: false,
        next,
        left,
    })
}

/// Whether a line of this form begins a method.
fn is_method(form: Option<LineForm>) -> bool
    ensures { method_end (form_if_any form) ≡ (if result then Some (codes "end") else None) }
{
    matches!(form, Some(LineForm::Method))
}

/// The block that a line of this form opens, of lines from this number on: none, where it begins no
/// method.
fn block_behind(
    alloc: Global,
    form: Option<LineForm>,
    number: u32,
    text: &[u8],
) -> Result<Block<'_>, NoMemory>
    ensures block { IfOk result (λ block. IsBlock (method_end (form_if_any form)) number (lines_of text.now) block) }
    ensures shorter { IfOk result (λ block. length block.left.now ≤ length text.now) }
{
    if is_method(form) {
        return read_block(alloc, number, text);
    }
    Ok(Block {
        lines: List::new(alloc),
        is_closed: true,
        next: number,
        left: text,
    })
}

/// The parts of a text behind its first line.
pub fn read_parts(alloc: Global, text: &[u8]) -> Result<List<Part<'_>>, NoMemory>
    ensures { IfOk result (λ parts. parts_of parts.items ≡ parts_read (lines_of text.now)) }
{
    let mut parts = List::new(alloc);
    let mut next = 2;
    let mut left = text;
    'parts: while !left.is_empty() {
        let (first, behind) = split_line(left);
        let line = read_line(alloc, next, first)?;
        let block = block_behind(alloc, line.form, next_number(next)?, behind)?;
        parts.push(Part {
            line,
            block: block.lines,
            is_closed: block.is_closed,
        })?;
        next = block.next;
        left = block.left;
    }
    Ok(parts)
}
