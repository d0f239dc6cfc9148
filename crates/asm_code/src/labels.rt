//! Labels by their words.

ghost use Rattle.std.specs.Prelude.{◌≡◌, Some, is_some, is_none, unwrap_or, option_map, OnOk};
ghost use Rattle.assembler_model.specs.CodeFaults.{label_in, pc_in, target_in};
ghost use Rattle.asm_code.specs.Labels.{labels_in, with_label};

use indexmap::IndexMap;
use jv_types::NoMemory;

/// The labels of a method's code, each with the pc of the first line that sets it, where that is
/// known.
pub type Labels<'a> = IndexMap<&'a str, Option<u32>>;

/// Whether a line sets a label.
pub fn is_set(labels: &Labels<'_>, label: &str) -> bool
    ensures { result ≡ is_some (label_in (labels_in labels.now.entries) label.now) }
{
    labels.contains_key(label)
}

/// Where a label stands, if that is known.
pub fn pc_of(labels: &Labels<'_>, label: &str) -> Option<u32>
    ensures { result ≡ pc_in (labels_in labels.now.entries) label.now }
{
    match labels.get(label) {
        Some(pc) => *pc,
        None => None,
    }
}

/// Where a label stands, in a text without a fault.
pub fn target_of(labels: &Labels<'_>, label: &str) -> u32
    ensures { result ≡ target_in (labels_in labels.now.entries) label.now }
{
    pc_of(labels, label).unwrap_or(0)
}

/// Sets a label at a pc. Where it is set, it stays where it is.
pub fn set<'a>(labels: &mut Labels<'a>, label: &'a str, pc: Option<u32>) -> Result<(), NoMemory>
    ensures { OnOk result (labels_in labels.new.entries
        ≡ with_label (labels_in labels.old.entries) (record { label = label.now; pc = pc })) }
{
    if labels.contains_key(label) {
        return Ok(());
    }
    labels.insert(label, pc)?;
    Ok(())
}
