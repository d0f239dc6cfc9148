//! The contents of a Code attribute (JVMS 4.7.3).

ghost use Rattle.std.specs.Prelude.{◌≡◌, ◌++◌, IfOk, OnOk, length, filter_map};
ghost use Rattle.std.specs.List.{flat_map};
ghost use Rattle.assembler_model.specs.CodeBytes.{caught_index, code_bytes, handler_bytes, line_bytes, run_bytes};
ghost use Rattle.assembler_model.specs.CodeFaults.{labels_of, number_of_catch, target_in};
ghost use Rattle.asm_lines.specs.NumberedLines.{said_of};
ghost use Rattle.asm_lines.specs.Terms.{name_of};
ghost use Rattle.asm_parts.specs.Pools.{entries_in, IsPool};
ghost use Rattle.asm_code.specs.Labels.{labels_in, SameLabels};
ghost use Rattle.asm_code.specs.Places.{code_line_of, lines_of};
ghost use Rattle.asm_bytes.specs.Bytes.{handler_row, name_if_any};

use crate::bytes::{push_u2, push_u4};
use crate::frames::push_maps;
use crate::instruction::push_operation;
use asm_code::code_line::{Code, CodeLine};
use asm_code::faults::is_catch;
use asm_code::labels::{Labels, target_of};
use asm_lines::term::AssemblerLine;
use asm_parts::entry::Entry;
use asm_parts::pool::index_of;
use asm_parts::pool_entries::Pool;
use jv_types::{Bytes, List, NoMemory};
use std::alloc::Global;

/// Adds the bytes of an instruction's line; another line has none.
fn push_line(
    alloc: Global,
    bytes: &mut Bytes,
    pool: &Pool<'_>,
    labels: &Labels<'_>,
    here: &CodeLine<'_, '_>,
) -> Result<(), NoMemory>
    requires { IsPool pool.now }
    ensures { OnOk result (bytes.new.items ≡ bytes.old.items ++ line_bytes (entries_in pool.now)
        (target_in (labels_in labels.now.entries)) here.now.pc (said_of here.now.line.now)) }
{
    match &here.line.said {
        Ok(AssemblerLine::Operation(operation)) => {
            push_operation(alloc, bytes, pool, labels, here.pc.unwrap_or(0), operation)
        }
        _ => Ok(()),
    }
}

/// Adds the instructions.
fn push_run(
    alloc: Global,
    bytes: &mut Bytes,
    pool: &Pool<'_>,
    labels: &Labels<'_>,
    lines: &[CodeLine<'_, '_>],
) -> Result<(), NoMemory>
    requires { IsPool pool.now }
    ensures { OnOk result (bytes.new.items ≡ bytes.old.items ++ run_bytes (entries_in pool.now)
        (target_in (labels_in labels.now.entries)) (lines_of lines.now)) }
{
    for here in lines {
        push_line(alloc, bytes, pool, labels, here)?;
    }
    Ok(())
}

/// The index of the class that a handler catches, 0 for any.
fn caught_index(pool: &Pool<'_>, caught: Option<&str>) -> u32
    requires { IsPool pool.now }
    ensures { result ≡ caught_index (entries_in pool.now) (name_if_any caught.entry) }
{
    match caught {
        Some(name) => index_of(pool, Entry::Class(name)),
        None => 0,
    }
}

/// Adds a row of the exception table; a line that is no handler has none.
fn push_handler(
    bytes: &mut Bytes,
    pool: &Pool<'_>,
    labels: &Labels<'_>,
    here: &CodeLine<'_, '_>,
) -> Result<(), NoMemory>
    requires { IsPool pool.now }
    ensures { OnOk result (bytes.new.items ≡ bytes.old.items ++ handler_bytes (entries_in pool.now)
        (target_in (labels_in labels.now.entries)) (said_of here.now.line.now)) }
{
    let Ok(
        AssemblerLine::Catch {
            from,
            to,
            target,
            caught,
        },
    ) = &here.line.said
    else {
        return Ok(());
    };
    push_u2(bytes, target_of(labels, from))?;
    push_u2(bytes, target_of(labels, to))?;
    push_u2(bytes, target_of(labels, target))?;
    push_u2(bytes, caught_index(pool, *caught))
}

/// Adds the exception table without its count.
fn push_handlers(
    bytes: &mut Bytes,
    pool: &Pool<'_>,
    labels: &Labels<'_>,
    lines: &[CodeLine<'_, '_>],
) -> Result<(), NoMemory>
    requires { IsPool pool.now }
    ensures { OnOk result (bytes.new.items ≡ bytes.old.items ++ flat_map (handler_row (entries_in pool.now)
        (target_in (labels_in labels.now.entries))) (lines_of lines.now)) }
{
    for here in lines {
        push_handler(bytes, pool, labels, here)?;
    }
    Ok(())
}

/// How many lines are handlers.
fn catch_count(lines: &List<CodeLine<'_, '_>>) -> u32
    ensures { result ≡ length (filter_map number_of_catch (lines_of lines.now.items)) }
{
    let mut count = 0;
    for at in 0..lines.len() {
        if is_catch(lines.get(at).line) {
            count += 1;
        }
    }
    count
}

/// The contents of the Code attribute of a method, with at most so many words of stack and of
/// locals.
#[tactic(auto, unfolding(assembler_model::specs::CodeBytes::code_bytes))]
pub fn code_bytes(
    alloc: Global,
    pool: &Pool<'_>,
    stack: u16,
    locals: u16,
    code: &Code<'_, '_>,
) -> Result<Bytes, NoMemory>
    requires pool { IsPool pool.now }
    requires labels { SameLabels (labels_in code.now.labels.entries) (labels_of (lines_of code.now.lines.items)) }
    ensures { IfOk result (λ bytes. bytes.items
        ≡ code_bytes (entries_in pool.now) stack locals (lines_of code.now.lines.items)) }
{
    let lines = code.lines.as_slice();
    let mut run = List::new(alloc);
    push_run(alloc, &mut run, pool, &code.labels, lines)?;
    let mut bytes = List::new(alloc);
    push_u2(&mut bytes, u32::from(stack))?;
    push_u2(&mut bytes, u32::from(locals))?;
    push_u4(&mut bytes, run.len())?;
    bytes.append(run.as_slice())?;
    push_u2(&mut bytes, catch_count(&code.lines))?;
    push_handlers(&mut bytes, pool, &code.labels, lines)?;
    push_maps(alloc, &mut bytes, pool, code)?;
    Ok(bytes)
}
