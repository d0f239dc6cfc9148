//! The order of the lines outside methods.

ghost use Rattle.std.specs.Prelude.{◌≡◌, option_map};
ghost use Rattle.text_model.specs.LineFaults.{first_fault};
ghost use Rattle.assembler_model.specs.AssemblerOrder.{outside_faults, place_of, reached_by, stands};
ghost use Rattle.asm_lines.specs.LineForms.{form_of, form_if_any};
ghost use Rattle.asm_parts.specs.Faults.{either, told_by};
ghost use Rattle.asm_parts.specs.Parts.{parts_of};
ghost use Rattle.asm_parts.specs.Sections.{section_of};

use crate::fault::note_unless;
use crate::first_fault::FirstFault;
use crate::part::Part;
use crate::section::Section;
use asm_lines::form::LineForm;
use jv_types::LineKind;

/// The section that a line of this form stands in.
fn section_of(form: LineForm) -> Option<Section>
    ensures { option_map section_of result ≡ place_of (form_of form) }
{
    match form {
        LineForm::Flags => Some(Section::Flags),
        LineForm::Implements => Some(Section::Interfaces),
        LineForm::Field => Some(Section::Fields),
        LineForm::Method => Some(Section::Methods),
        LineForm::Attribute => Some(Section::Attributes),
        _ => None,
    }
}

/// Whether a line of this form may stand behind lines that reached this section. A line whose first
/// word is unknown is told by that.
fn stands(reached: Section, form: Option<LineForm>) -> bool
    ensures { result ≡ stands (section_of reached) (form_if_any form) }
{
    let Some(form) = form else {
        return true;
    };
    match section_of(form) {
        Some(Section::Flags) => reached as u8 == 0,
        Some(section) => reached as u8 <= section as u8,
        None => false,
    }
}

/// The section that a line of this form leads to.
fn reached_by(reached: Section, form: Option<LineForm>) -> Section
    ensures { section_of result ≡ reached_by (section_of reached) (form_if_any form) }
{
    let Some(form) = form else {
        return reached;
    };
    match section_of(form) {
        Some(section) => section,
        None => reached,
    }
}

/// Notes the lines outside methods that stand out of order.
pub fn note_order(parts: &[Part<'_>], first: &mut FirstFault)
    ensures { told_by first.new ≡ either (told_by first.old) (first_fault (outside_faults 0 (parts_of parts.now))) }
{
    let mut reached = Section::Start;
    for part in parts {
        let in_order = stands(reached, part.line.form);
        note_unless(first, in_order, part.line.number, LineKind::Order);
        reached = reached_by(reached, part.line.form);
    }
}
