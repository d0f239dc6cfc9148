//! The labels that a line names.

ghost use Rattle.std.specs.Prelude.{◌≡◌, ◌++◌, ◌∷◌, [], Ok, IfOk, OnOk, filter_map, map};
ghost use Rattle.assembler_model.specs.AssemblerTerms.{operation};
ghost use Rattle.assembler_model.specs.CodeFaults.{named_labels, type_label};
ghost use Rattle.asm_lines.specs.Terms.{line_of, operation_of, rows_of, types_of};
ghost use Rattle.asm_lines.specs.NumberedLines.{said_of};
ghost use Rattle.asm_lines.specs.Words.{texts};
ghost use Rattle.asm_code.specs.Names.{row_labels, type_labels};

use asm_lines::numbered_line::NumberedLine;
use asm_lines::term::{AssemblerLine, FrameType, Operation};
use jv_types::NoMemory;
use smallvec::SmallVec;
use std::alloc::Global;

/// Labels. Most lines name few, which take no memory.
pub type Names<'a> = SmallVec<&'a str, 4>;

/// Adds these labels.
fn push_labels<'a>(names: &mut Names<'a>, labels: &[&'a str]) -> Result<(), NoMemory>
    ensures { OnOk result (texts names.new.items ≡ texts names.old.items ++ texts labels.now) }
{
    for label in labels {
        names.push(label)?;
    }
    Ok(())
}

/// Adds the labels of a lookupswitch's rows.
fn push_rows<'a>(names: &mut Names<'a>, rows: &[(i32, &'a str)]) -> Result<(), NoMemory>
    ensures { OnOk result (texts names.new.items ≡ texts names.old.items ++ row_labels rows.now) }
{
    for (_, label) in rows {
        names.push(label)?;
    }
    Ok(())
}

/// Adds the labels that types of a frame name.
fn push_types<'a>(names: &mut Names<'a>, types: &[FrameType<'a>]) -> Result<(), NoMemory>
    ensures { OnOk result (texts names.new.items ≡ texts names.old.items ++ type_labels types.now) }
{
    for kind in types {
        if let FrameType::New(label) = kind {
            names.push(label)?;
        }
    }
    Ok(())
}

/// Adds the labels that an instruction names.
fn push_operation<'a>(names: &mut Names<'a>, said: &Operation<'a>) -> Result<(), NoMemory>
    ensures { OnOk result (texts names.new.items
        ≡ texts names.old.items ++ named_labels (Ok (operation (operation_of said.now)))) }
{
    match said {
        Operation::Branch(_, label) | Operation::WideBranch(_, label) => {
            push_labels(names, &[label])
        }
        Operation::TableSwitch {
            labels,
            default,
            ..
        } => {
            push_labels(names, &[default])?;
            push_labels(names, labels.as_slice())
        }
        Operation::LookupSwitch { rows, default } => {
            push_labels(names, &[default])?;
            push_rows(names, rows.as_slice())
        }
        _ => Ok(()),
    }
}

/// Adds the labels that a line names.
fn push_line<'a>(names: &mut Names<'a>, said: &AssemblerLine<'a>) -> Result<(), NoMemory>
    ensures { OnOk result (texts names.new.items
        ≡ texts names.old.items ++ named_labels (Ok (line_of said.now))) }
{
    match said {
        AssemblerLine::Operation(operation) => push_operation(names, operation),
        AssemblerLine::Catch {
            from,
            to,
            target,
            ..
        } => push_labels(names, &[from, to, target]),
        AssemblerLine::Frame { locals, stack } => {
            push_types(names, locals.as_slice())?;
            push_types(names, stack.as_slice())
        }
        _ => Ok(()),
    }
}

/// The labels that a line names.
pub fn named_labels<'a>(alloc: Global, line: &NumberedLine<'a>) -> Result<Names<'a>, NoMemory>
    ensures { IfOk result (λ names. texts names.items ≡ named_labels (said_of line.now)) }
{
    let mut names = SmallVec::new(alloc);
    if let Ok(said) = &line.said {
        push_line(&mut names, said)?;
    }
    Ok(names)
}
