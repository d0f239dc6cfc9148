//! Statements of a manifest: lines, each with the block that it opens.

ghost use Rattle.std.specs.Prelude.{◌≡◌, ◌+◌, ◌≤◌, ◌<◌, ◌^◌, ℕ, IfOk, Ok, length, option_map};
ghost use Rattle.jv_types.specs.Lines.{line_view};
ghost use Rattle.assembler_model.specs.Blocks.{Chunk, block_text};
ghost use Rattle.manifest_model.specs.Manifest.{block_end, item_of};
ghost use Rattle.manifest_reader.specs.Items.{item_of as view, line_of};
ghost use Rattle.manifest_reader.specs.Opened.{OpensBlock, error_at};
ghost use Rattle.manifest_reader.specs.Statements.{Admits, ReadsStatement};

use crate::block::{Block, cut_block};
use crate::class_line::{ClassLine, class_item};
use crate::error::ManifestError;
use crate::item::{ItemForm, ManifestItem, UpdateItem};
use crate::line::{ManifestLine, read_line};
use crate::seen::{Seen, seen_with};
use crate::text::text_of;
use asm_lines::error::ReadError;
use asm_parts::first_fault::LineFault;
use jv_types::LineKind;
use jv_types::lines::{Line, split_line};
use std::alloc::Global;

/// A line that isn't faulty behind the lines before it.
#[derive(Clone, Copy, Debug)]
pub(crate) struct Admitted<'a> {
    pub(crate) said: ManifestLine<'a>,
    /// What it and the lines before it have brought.
    pub(crate) seen: Seen<'a>,
}

/// A statement that isn't faulty behind the lines before it.
#[derive(Clone, Copy, Debug)]
pub(crate) struct Statement<'a> {
    /// What it and the lines before it have brought.
    pub(crate) seen: Seen<'a>,
    /// The item that it brings, if any.
    pub(crate) item: Option<ManifestItem<'a>>,
    /// The number of its last line.
    pub(crate) last: u32,
    /// What is left of the text behind that line.
    pub(crate) left: &'a [u8],
}

/// What a line says, where it isn't faulty behind the lines before it.
fn admit<'a>(alloc: Global, seen: Seen<'a>, line: Line<'a>) -> Result<Admitted<'a>, ReadError>
    ensures { Admits seen.entry (line_view line.entry) result }
{
    let Some(text) = text_of(line) else {
        return Err(ReadError::Line(LineKind::Text));
    };
    let said = read_line(alloc, text)?;
    match seen_with(seen, said) {
        Ok(seen) => Ok(Admitted { said, seen }),
        Err(kind) => Err(ReadError::Line(kind)),
    }
}

/// The line that ends the block that a line opens, if it opens any.
fn block_end(line: ManifestLine<'_>) -> Option<&'static str>
    ensures { option_map (λ end. end.now) result ≡ block_end (Ok (line_of line.entry)) }
{
    match line {
        ManifestLine::Class(ClassLine::InLines { .. }) => Some(".end"),
        ManifestLine::UpdateInLines { .. } => Some(".done"),
        _ => None,
    }
}

/// The block that the line with this number opens, at the front of the text behind it: none, where
/// it opens none.
fn block_behind<'a>(
    line: ManifestLine<'_>,
    number: u32,
    text: &'a [u8],
) -> Result<Block<'a>, LineFault>
    requires { number + length text.now < 2 ^ 32 }
    ensures block { OpensBlock (block_end (Ok (line_of line.entry))) number text.now result }
    ensures numbers { IfOk result (λ block.
        block.last + length block.left.now ≤ number + length text.now) }
    ensures shorter { IfOk result (λ block. length block.left.now ≤ length text.now) }
{
    match block_end(line) {
        Some(end) => cut_block(end, number, text),
        None => Ok(Block {
            text: &[],
            last: number,
            left: text,
        }),
    }
}

/// The item that the line with this number brings, with the text of its block.
fn item_of<'a>(number: u32, line: ManifestLine<'a>, block: &'a [u8]) -> Option<ManifestItem<'a>>
    ensures { (chunk : Chunk) → chunk.number ≡ number → block_text chunk.block ≡ block.now
        → option_map view result ≡ item_of chunk (Ok (line_of line.entry)) }
{
    match line {
        ManifestLine::Main(_) => None,
        ManifestLine::Class(said) => Some(ManifestItem::Class(class_item(number, said, block))),
        ManifestLine::UpdateInFile { file, when } => Some(ManifestItem::Update(UpdateItem {
            line: number,
            when,
            form: ItemForm::InFile(file),
        })),
        ManifestLine::UpdateInLines { when } => Some(ManifestItem::Update(UpdateItem {
            line: number,
            when,
            form: ItemForm::InLines(block),
        })),
    }
}

/// The error of a line with this number.
fn at_line(number: u32, error: ReadError) -> ManifestError
    ensures { result ≡ error_at number error }
{
    match error {
        ReadError::Line(kind) => ManifestError::Line(LineFault { line: number, kind }),
        ReadError::NoMemory => ManifestError::NoMemory,
    }
}

/// The first statement of a text that isn't empty, behind a line with this number. Where it is
/// faulty behind the lines before it, the error is the text's first fault.
pub(crate) fn read_statement<'a>(
    alloc: Global,
    seen: &Seen<'a>,
    last: u32,
    text: &'a [u8],
) -> Result<Statement<'a>, ManifestError>
    requires some { 0 < length text.now }
    requires numbers { last + length text.now < 2 ^ 32 }
    ensures statement { ReadsStatement seen.now last text.now result }
    ensures numbers { IfOk result (λ statement.
        statement.last + length statement.left.now ≤ last + length text.now) }
    ensures shorter { IfOk result (λ statement. length statement.left.now < length text.now) }
{
    let number = last + 1;
    let (line, behind) = split_line(text);
    let admitted = match admit(alloc, *seen, line) {
        Ok(admitted) => admitted,
        Err(error) => return Err(at_line(number, error)),
    };
    let block = block_behind(admitted.said, number, behind)?;
    Ok(Statement {
        seen: admitted.seen,
        item: item_of(number, admitted.said, block.text),
        last: block.last,
        left: block.left,
    })
}
