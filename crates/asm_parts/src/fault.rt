//! The first fault of a text.

ghost use Rattle.std.specs.Prelude.{◌≡◌, [], ◌∷◌, Some, None};
ghost use Rattle.jv_types.specs.Refusal.{line_kind_of};
ghost use Rattle.text_model.specs.LineFaults.{at_line, first_fault, is_before, rank, unless_true, where_true};
ghost use Rattle.asm_parts.specs.Faults.{either, told_by};

use crate::first_fault::{FirstFault, LineFault};
use jv_types::LineKind;

/// Which of two kinds is told of one line: the one of the lesser rank.
fn rank(kind: LineKind) -> u8
    ensures { result ≡ rank (line_kind_of kind) }
{
    match kind {
        LineKind::Text => 0,
        LineKind::Head => 1,
        LineKind::Word => 2,
        LineKind::Order => 3,
        LineKind::Count => 4,
        LineKind::Number => 5,
        LineKind::Label => 6,
        LineKind::Range => 7,
        LineKind::Many => 8,
        LineKind::Open => 9,
        LineKind::Main => 10,
        LineKind::Name => 11,
    }
}

/// Whether the first fault is told before the second.
fn is_before(first: LineFault, second: LineFault) -> bool
    ensures { result ≡ is_before (first.line, line_kind_of first.kind) (second.line, line_kind_of second.kind) }
{
    first.line < second.line || (first.line == second.line && rank(first.kind) < rank(second.kind))
}

/// No fault yet.
pub fn no_fault() -> FirstFault
    ensures { told_by result ≡ None }
{
    FirstFault { told: None }
}

/// Notes a fault of a line: it is told where none was before it.
pub fn note(first: &mut FirstFault, line: u32, kind: LineKind)
    ensures { told_by first.new ≡ either (told_by first.old) (Some (line, line_kind_of kind)) }
{
    let fault = LineFault { line, kind };
    match first.told {
        Some(told) => {
            if is_before(fault, told) {
                first.told = Some(fault);
            }
        }
        None => first.told = Some(fault),
    }
}

/// Notes a fault of a line where a test doesn't hold.
pub fn note_unless(first: &mut FirstFault, test: bool, line: u32, kind: LineKind)
    ensures { told_by first.new
        ≡ either (told_by first.old) (first_fault (at_line line (unless_true test (line_kind_of kind)))) }
{
    if test {
        return;
    }
    note(first, line, kind);
}

/// Notes a fault of a line where a test holds.
pub fn note_where(first: &mut FirstFault, test: bool, line: u32, kind: LineKind)
    ensures { told_by first.new
        ≡ either (told_by first.old) (first_fault (at_line line (where_true test (line_kind_of kind)))) }
{
    if test {
        note(first, line, kind);
    }
}
