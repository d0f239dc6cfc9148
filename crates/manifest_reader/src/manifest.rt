//! A manifest.

ghost use Rattle.std.specs.Prelude.{◌≡◌, ◌<◌, ◌+◌, ◌++◌, ◌^◌, MatchResult, OnOk, Some, length, option_map, option_to_list};
ghost use Rattle.jv_model.specs.Lines.{lines_of};
ghost use Rattle.manifest_model.specs.Manifest.{manifest_of};
ghost use Rattle.jv_types.specs.Lines.{line_view};
ghost use Rattle.jv_types.specs.Refusal.{line_kind_of};
ghost use Rattle.asm_parts.specs.Faults.{fault_of};
ghost use Rattle.text_model.specs.LineFaults.{Fault};
ghost use Rattle.manifest_reader.specs.Heads.{IsBehindHead, fault_told, head_fault, head_kind};
ghost use Rattle.manifest_reader.specs.Statements.{ReadsLines, TellsManifest};

use crate::error::ManifestError;
use crate::item::ManifestItem;
use crate::seen::nothing_seen;
use crate::statement::read_statement;
use crate::text::is_text;
use asm_parts::first_fault::LineFault;
use jv_types::lines::{Line, split_line};
use jv_types::{LineKind, List, NoMemory};
use std::alloc::Global;

/// What a manifest says.
#[derive(Debug, Drop)]
pub struct Manifest<'a> {
    /// The main class.
    pub main: &'a str,
    /// The items, numbered from 1 in the order of their lines.
    pub items: List<ManifestItem<'a>>,
}

/// Adds an item, where there is one.
fn add_item<'a>(
    items: &mut List<ManifestItem<'a>>,
    item: Option<ManifestItem<'a>>,
) -> Result<(), NoMemory>
    ensures { OnOk result (items.new.items ≡ items.old.items ++ option_to_list item.entry) }
{
    match item {
        Some(item) => items.push(item),
        None => Ok(()),
    }
}

/// What the lines behind the first say, or their first fault. A main class that no line names is
/// told at the last one.
fn read_lines(alloc: Global, text: &[u8]) -> Result<Manifest<'_>, ManifestError>
    requires { 1 + length text.now < 2 ^ 32 }
    ensures { ReadsLines (lines_of text.now) result }
{
    let mut seen = nothing_seen();
    let mut items = List::new(alloc);
    let mut last = 1;
    let mut left = text;
    'statements: while !left.is_empty() {
        let statement = read_statement(alloc, &seen, last, left)?;
        add_item(&mut items, statement.item)?;
        seen = statement.seen;
        last = statement.last;
        left = statement.left;
    }
    match seen.main {
        Some(main) => Ok(Manifest { main, items }),
        None => {
            let kind = LineKind::Main;
            Err(ManifestError::Line(LineFault { line: last, kind }))
        }
    }
}

/// What is wrong with the first line.
fn head_kind(head: Line<'_>) -> Option<LineKind>
    ensures { option_map line_kind_of result ≡ head_kind (line_view head.entry) }
{
    if !is_text(head) {
        return Some(LineKind::Text);
    }
    if head.bytes == b"jvolve 1".as_slice() {
        return None;
    }
    Some(LineKind::Head)
}

/// What stands behind the first line, or what is wrong with that line.
fn behind_head(text: &[u8]) -> Result<&[u8], LineFault>
    ensures { MatchResult result (λ behind. IsBehindHead text.now behind.now)
        (λ fault. head_fault (lines_of text.now) ≡ Some (fault_of fault)) }
{
    if text.is_empty() {
        let kind = LineKind::Head;
        return Err(LineFault { line: 1, kind });
    }
    let (head, behind) = split_line(text);
    match head_kind(head) {
        Some(kind) => Err(LineFault { line: 1, kind }),
        None => Ok(behind),
    }
}

/// What the text of a manifest says. It has less than 4 GiB.
///
/// The error is its first fault: one of the least line, and there of the least rank. No memory is
/// asked for before the first line is known to be right, and then only for items and for lines of
/// many words: names and the texts of blocks are lent from the text.
pub fn read_manifest(alloc: Global, text: &[u8]) -> Result<Manifest<'_>, ManifestError>
    requires { length text.now < 2 ^ 32 }
    ensures manifest { TellsManifest result (manifest_of text.now) }

    // What is wrong with the first line is told, however little memory there is.
    ensures early { (fault : Fault) → head_fault (lines_of text.now) ≡ Some fault
        → MatchResult result (λ _. ⊥) (λ error. fault_told error ≡ Some fault) }
{
    let behind = behind_head(text)?;
    read_lines(alloc, behind)
}
