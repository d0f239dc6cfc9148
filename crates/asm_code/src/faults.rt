//! What is wrong with a method's code.

ghost use Rattle.std.specs.Prelude.{◌≡◌, OnOk, is_none, filter_map};
ghost use Rattle.std.specs.List.{flat_map, list_any};
ghost use Rattle.text_model.specs.LineFaults.{at_line, first_fault};
ghost use Rattle.assembler_model.specs.CodeFaults.{are_too_many, code_faults, frame_faults, frames_of, goes_too_far, is_above_u2, is_catch, is_far, label_in, labels_of, named_labels, number_of_catch, offset_delta, pc_in, too_many_of};
ghost use Rattle.asm_lines.specs.NumberedLines.{said_of};
ghost use Rattle.asm_lines.specs.Words.{texts};
ghost use Rattle.asm_parts.specs.Faults.{either, told_by};
ghost use Rattle.asm_code.specs.Labels.{labels_in, SameLabels};
ghost use Rattle.asm_code.specs.Places.{code_line_of, lines_of};
ghost use Rattle.asm_code.specs.Faults.{frame_numbers, is_frame_said, line_faults, no_pc};

use crate::code_line::{Code, CodeLine};
use crate::labels::{Labels, is_set, pc_of};
use crate::names::named_labels;
use asm_lines::numbered_line::NumberedLine;
use asm_lines::term::{AssemblerLine, Operation};
use asm_parts::fault::{note, note_where};
use asm_parts::first_fault::FirstFault;
use jv_types::{LineKind, NoMemory};
use std::alloc::Global;

/// The most that two bytes hold.
const MOST_U2: u32 = 0xffff;

/// Whether no line sets one of these labels.
fn are_missing(labels: &Labels<'_>, names: &[&str]) -> bool
    ensures { result ≡ list_any (λ label. is_none (label_in (labels_in labels.now.entries) label)) (texts names.now) }
{
    for name in names {
        if !is_set(labels, name) {
            return true;
        }
    }
    false
}

/// Whether two bytes don't hold a number, where it is known.
fn is_above_u2(number: Option<u32>) -> bool
    ensures { result ≡ is_above_u2 number }
{
    match number {
        Some(number) => number > MOST_U2,
        None => false,
    }
}

/// Whether one of these labels stands at a place that two bytes don't hold.
fn are_above_u2(labels: &Labels<'_>, names: &[&str]) -> bool
    ensures { result ≡ list_any (λ label. is_above_u2 (pc_in (labels_in labels.now.entries) label)) (texts names.now) }
{
    for name in names {
        if is_above_u2(pc_of(labels, name)) {
            return true;
        }
    }
    false
}

/// Whether two bytes don't hold the distance between two pcs, where both are known.
fn is_far(from: Option<u32>, to: Option<u32>) -> bool
    ensures { result ≡ is_far from to }
{
    match (from, to) {
        (Some(from), Some(to)) => {
            let distance = i64::from(to) - i64::from(from);
            distance < -0x8000 || 0x7fff < distance
        }
        _ => false,
    }
}

/// Whether a branch goes too far, or a handler or a frame names a place that two bytes don't hold.
/// These are the labels that the line names.
fn goes_too_far(labels: &Labels<'_>, here: &CodeLine<'_, '_>, names: &[&str]) -> bool
    requires { texts names.now ≡ named_labels (said_of here.now.line.now) }
    ensures { result ≡ goes_too_far (labels_in labels.now.entries) here.now.pc (said_of here.now.line.now) }
{
    match &here.line.said {
        Ok(AssemblerLine::Operation(Operation::Branch(_, label))) => {
            is_far(here.pc, pc_of(labels, label))
        }
        Ok(AssemblerLine::Operation(_)) => false,
        _ => are_above_u2(labels, names),
    }
}

/// Whether two bytes don't count the types of a list of a frame.
fn are_too_many(line: &NumberedLine<'_>) -> bool
    ensures { result ≡ are_too_many (said_of line.now) }
{
    match &line.said {
        Ok(AssemblerLine::Frame { locals, stack }) => {
            locals.len() > MOST_U2 || stack.len() > MOST_U2
        }
        _ => false,
    }
}

/// Notes what is wrong with a line by itself.
fn note_own(here: &CodeLine<'_, '_>, first: &mut FirstFault)
    ensures { told_by first.new ≡ either (told_by first.old)
        (first_fault (at_line here.now.line.now.number (code_line_of here.now).faults)) }
{
    note_where(
        first,
        here.is_out_of_order,
        here.line.number,
        LineKind::Order,
    );
    if let Some(kind) = here.fault {
        note(first, here.line.number, kind);
    }
}

/// Notes what is wrong with a line: by itself, and among these labels.
fn note_line(
    alloc: Global,
    labels: &Labels<'_>,
    here: &CodeLine<'_, '_>,
    first: &mut FirstFault,
) -> Result<(), NoMemory>
    ensures { OnOk result (told_by first.new ≡ either (told_by first.old)
        (first_fault (line_faults (labels_in labels.now.entries) (code_line_of here.now)))) }
{
    let names = named_labels(alloc, here.line)?;
    let is_missing = are_missing(labels, names.as_slice());
    let is_far = goes_too_far(labels, here, names.as_slice());
    let is_many = are_too_many(here.line);
    note_own(here, first);
    note_where(first, is_missing, here.line.number, LineKind::Label);
    note_where(first, is_far, here.line.number, LineKind::Range);
    note_where(first, is_many, here.line.number, LineKind::Many);
    Ok(())
}

/// Notes what is wrong with lines, each by itself and among these labels.
fn note_lines(
    alloc: Global,
    labels: &Labels<'_>,
    lines: &[CodeLine<'_, '_>],
    first: &mut FirstFault,
) -> Result<(), NoMemory>
    ensures { OnOk result (told_by first.new ≡ either (told_by first.old)
        (first_fault (flat_map (line_faults (labels_in labels.now.entries)) (lines_of lines.now)))) }
{
    for here in lines {
        note_line(alloc, labels, here, first)?;
    }
    Ok(())
}

/// How far a frame is from the one before (JVMS 4.7.4), where its pc is known.
pub fn offset_delta(before: Option<u32>, pc: Option<u32>) -> Option<u32>
    ensures { result ≡ offset_delta before pc }
{
    match (before, pc) {
        (Some(before), Some(pc)) => Some(pc.saturating_sub(before).saturating_sub(1)),
        (Some(_), None) => None,
        (None, pc) => pc,
    }
}

/// Whether a line is a frame without a fault of its own.
pub fn is_frame(line: &NumberedLine<'_>) -> bool
    ensures { result ≡ is_frame_said (said_of line.now) }
{
    matches!(&line.said, Ok(AssemblerLine::Frame { .. }))
}

/// Whether a line is a handler without a fault of its own.
pub fn is_catch(line: &NumberedLine<'_>) -> bool
    ensures { result ≡ is_catch (said_of line.now) }
{
    matches!(&line.said, Ok(AssemblerLine::Catch { .. }))
}

/// Notes the frames that are too far from the ones before them.
fn note_distances(lines: &[CodeLine<'_, '_>], first: &mut FirstFault)
    ensures { told_by first.new ≡ either (told_by first.old)
        (first_fault (frame_faults no_pc (frames_of (lines_of lines.now)))) }
{
    let mut before = None;
    for here in lines {
        if is_frame(here.line) {
            let is_far = is_above_u2(offset_delta(before, here.pc));
            note_where(first, is_far, here.line.number, LineKind::Range);
            before = here.pc;
        }
    }
}

/// Notes the frames that two bytes don't count.
fn note_frame_count(lines: &[CodeLine<'_, '_>], first: &mut FirstFault)
    ensures { told_by first.new ≡ either (told_by first.old)
        (first_fault (too_many_of (frame_numbers (lines_of lines.now)))) }
{
    let mut count = 0_u64;
    for here in lines {
        if is_frame(here.line) {
            note_where(
                first,
                count >= u64::from(MOST_U2),
                here.line.number,
                LineKind::Many,
            );
            count += 1;
        }
    }
}

/// Notes the handlers that two bytes don't count.
fn note_catch_count(lines: &[CodeLine<'_, '_>], first: &mut FirstFault)
    ensures { told_by first.new ≡ either (told_by first.old)
        (first_fault (too_many_of (filter_map number_of_catch (lines_of lines.now)))) }
{
    let mut count = 0_u64;
    for here in lines {
        if is_catch(here.line) {
            note_where(
                first,
                count >= u64::from(MOST_U2),
                here.line.number,
                LineKind::Many,
            );
            count += 1;
        }
    }
}

/// Notes all that is wrong with a method's code.
pub fn note_code(alloc: Global, code: &Code<'_, '_>, first: &mut FirstFault) -> Result<(), NoMemory>
    requires { SameLabels (labels_in code.now.labels.entries) (labels_of (lines_of code.now.lines.items)) }
    ensures { OnOk result (told_by first.new ≡ either (told_by first.old)
        (first_fault (code_faults (lines_of code.now.lines.items)))) }
{
    let lines = code.lines.as_slice();
    note_lines(alloc, &code.labels, lines, first)?;
    note_distances(lines, first);
    note_frame_count(lines, first);
    note_catch_count(lines, first);
    Ok(())
}
