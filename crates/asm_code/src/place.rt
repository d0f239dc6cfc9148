//! What is wrong with a line where it stands, and where the next one stands.

ghost use Rattle.std.specs.Prelude.{◌≡◌, ◌∷◌, not, ◌==◌, length, bytes_eq, OnOk};
ghost use Rattle.std.specs.List.{list_any};
ghost use Rattle.assembler_model.specs.AssemblerOrder.{goes_on};
ghost use Rattle.assembler_model.specs.PoolNeeds.{operation_entries};
ghost use Rattle.assembler_model.specs.AssemblerPool.{is_too_far};
ghost use Rattle.assembler_model.specs.CodeFaults.{label_of};
ghost use Rattle.assembler_model.specs.CodeLines.{code_line, is_frame, is_out_of_order, is_same_pc, place_after, place_behind, said_faults};
ghost use Rattle.jv_types.specs.Refusal.{line_kind_of};
ghost use Rattle.text_model.specs.LineFaults.{where_true};
ghost use Rattle.asm_lines.specs.Terms.{operation_of};
ghost use Rattle.asm_lines.specs.LineForms.{form_if_any};
ghost use Rattle.asm_lines.specs.NumberedLines.{numbered_of, said_of};
ghost use Rattle.asm_parts.specs.Pools.{entries_in, IsPool};
ghost use Rattle.asm_code.specs.Labels.{labels_in, with_label, with_label_if_any};
ghost use Rattle.asm_code.specs.Places.{code_line_of, kinds_if_any, place_of, place_unless, SamePlace};

use crate::code_line::{CodeLine, Place};
use crate::labels::{is_set, set};
use crate::sizes::pc_behind;
use asm_lines::form::LineForm;
use asm_lines::numbered_line::NumberedLine;
use asm_lines::term::{AssemblerLine, Operation};
use asm_parts::pool::is_too_far;
use asm_parts::pool_entries::Pool;
use asm_pool::needs::operation_entry;
use jv_types::{LineKind, NoMemory};

/// Whether a line of this form may stand behind a method's first line.
fn goes_on(form: Option<LineForm>) -> bool
    ensures { result ≡ goes_on (form_if_any form) }
{
    !matches!(
        form,
        Some(
            LineForm::Class
                | LineForm::Flags
                | LineForm::Implements
                | LineForm::Field
                | LineForm::Method
                | LineForm::Attribute
                | LineForm::Stack
        )
    )
}

/// Whether this is the form of a frame.
fn is_frame(form: Option<LineForm>) -> bool
    ensures { result ≡ is_frame (form_if_any form) }
{
    matches!(form, Some(LineForm::Frame))
}

/// Whether both pcs are known and equal.
fn is_same_pc(first: Option<u32>, second: Option<u32>) -> bool
    ensures { result ≡ is_same_pc first second }
{
    match (first, second) {
        (Some(first), Some(second)) => first == second,
        _ => false,
    }
}

/// Whether a line may not stand there: it never stands in code, or it is the second frame at one
/// pc.
fn is_out_of_order(place: &Place<'_>, line: &NumberedLine<'_>) -> bool
    ensures { result ≡ is_out_of_order (place_of place.now) (numbered_of line.now) }
{
    !goes_on(line.form) || (is_frame(line.form) && is_same_pc(place.framed, place.pc))
}

/// Whether an instruction names an entry of the pool with too great an index.
fn names_far(pool: &Pool<'_>, operation: &Operation<'_>) -> bool
    requires { IsPool pool.now }
    ensures { result ≡ list_any (is_too_far (entries_in pool.now)) (operation_entries (operation_of operation.now)) }
{
    match operation_entry(operation) {
        Some(entry) => is_too_far(pool, entry),
        None => false,
    }
}

/// Whether a line before sets a label.
fn is_known(place: &Place<'_>, label: &str) -> bool
    ensures { result ≡ list_any (bytes_eq label.now) (place_of place.now).labels }
{
    is_set(&place.labels, label)
}

/// This fault, where a test holds.
fn fault_where(test: bool, kind: LineKind) -> Option<LineKind>
    ensures { kinds_if_any result ≡ where_true test (line_kind_of kind) }
{
    if test { Some(kind) } else { None }
}

/// What is wrong with what a line says there: a label that is set twice, an index that is too far.
fn fault_of(pool: &Pool<'_>, place: &Place<'_>, line: &NumberedLine<'_>) -> Option<LineKind>
    requires { IsPool pool.now }
    ensures { kinds_if_any result ≡ said_faults (entries_in pool.now) (place_of place.now) (said_of line.now) }
{
    match &line.said {
        Err(kind) => Some(*kind),
        Ok(AssemblerLine::At(label)) => fault_where(is_known(place, label), LineKind::Label),
        Ok(AssemblerLine::Operation(operation)) => {
            fault_where(names_far(pool, operation), LineKind::Range)
        }
        Ok(_) => None,
    }
}

/// A line that stands there.
pub fn code_line<'t, 'a>(
    pool: &Pool<'_>,
    place: &Place<'_>,
    line: &'t NumberedLine<'a>,
) -> CodeLine<'t, 'a>
    requires { IsPool pool.now }
    ensures { code_line_of result ≡ code_line (entries_in pool.now) (place_of place.now) (numbered_of line.now) }
{
    CodeLine {
        line,
        pc: place.pc,
        is_out_of_order: is_out_of_order(place, line),
        fault: fault_of(pool, place, line),
    }
}

/// Whether anything is wrong with a line by itself.
fn is_faulty(here: &CodeLine<'_, '_>) -> bool
    ensures { result ≡ not (length (code_line_of here.now).faults == 0) }
{
    here.is_out_of_order || here.fault.is_some()
}

/// Sets a label at a place.
fn set_label<'a>(place: &mut Place<'a>, label: &'a str) -> Result<(), NoMemory>
    ensures place { OnOk result (SamePlace (place_of place.new)
        (record (place_of place.old) { labels = label.now ∷ (place_of place.old).labels })) }
    ensures labels { OnOk result (labels_in place.new.labels.entries
        ≡ with_label (labels_in place.old.labels.entries) (record { label = label.now; pc = place.old.pc })) }
{
    set(&mut place.labels, label, place.pc)
}

/// Goes behind a line that is not faulty.
fn go_behind<'a>(
    pool: &Pool<'_>,
    place: &mut Place<'a>,
    line: &NumberedLine<'a>,
) -> Result<(), NoMemory>
    requires { IsPool pool.now }
    ensures place { OnOk result (SamePlace (place_of place.new)
        (place_behind (entries_in pool.now) (place_of place.old) (said_of line.now))) }
    ensures labels { OnOk result (labels_in place.new.labels.entries
        ≡ with_label_if_any (labels_in place.old.labels.entries) (label_of place.old.pc (said_of line.now))) }
{
    match &line.said {
        Ok(AssemblerLine::At(label)) => set_label(place, label),
        Ok(AssemblerLine::Frame { .. }) => {
            place.framed = place.pc;
            Ok(())
        }
        Ok(AssemblerLine::Operation(operation)) => {
            place.pc = pc_behind(pool, operation, place.pc)?;
            Ok(())
        }
        _ => Ok(()),
    }
}

/// Makes the pc of a place unknown, where a test holds.
fn forget_pc(place: &mut Place<'_>, test: bool)
    ensures place { place_of place.new ≡ place_unless test (place_of place.old) }
    ensures labels { place.new.labels.entries ≡ place.old.labels.entries }
{
    if test {
        place.pc = None;
    }
}

/// Goes behind a line. A faulty one makes the pcs behind it unknown.
pub fn go_on<'a>(
    pool: &Pool<'_>,
    place: &mut Place<'a>,
    here: &CodeLine<'_, 'a>,
) -> Result<(), NoMemory>
    requires { IsPool pool.now }
    ensures place { OnOk result (SamePlace (place_of place.new)
        (place_after (entries_in pool.now) (place_of place.old) (code_line_of here.now))) }
    ensures labels { OnOk result (labels_in place.new.labels.entries
        ≡ with_label_if_any (labels_in place.old.labels.entries) (label_of place.old.pc (said_of here.now.line.now))) }
{
    go_behind(pool, place, here.line)?;
    forget_pc(place, is_faulty(here));
    Ok(())
}
