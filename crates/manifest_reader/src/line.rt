//! The lines of a manifest behind its first, each by itself.

ghost use Rattle.std.specs.Prelude.{◌≡◌};
ghost use Rattle.jv_model.specs.Lines.{words_of};
ghost use Rattle.manifest_model.specs.ManifestLines.{class_named, main_line, manifest_line_of, update_line, update_of, when_read};
ghost use Rattle.asm_lines.specs.Words.{texts};
ghost use Rattle.asm_lines.specs.Told.{told, Tells};
ghost use Rattle.manifest_reader.specs.Items.{class_line_of, line_of as view, when_of};

use crate::class_line::{ClassLine, read_asm_line, read_class_line};
use crate::item::When;
use crate::step::step_in;
use asm_lines::error::ReadError;
use asm_lines::words::{counted, is_one_of, says, word_at, words_of};
use jv_types::LineKind;
use std::alloc::Global;

/// What a line behind the first says.
#[derive(Clone, Copy, Debug)]
pub enum ManifestLine<'a> {
    /// `main C`
    Main(&'a str),
    /// `class C FILE`, `asm C`
    Class(ClassLine<'a>),
    /// `update FILE` with its time
    UpdateInFile { file: &'a str, when: When },
    /// `update here` with its time: the lines up to `.done`
    UpdateInLines { when: When },
}

/// `main C`.
fn read_main<'a>(words: &[&'a str]) -> Result<ManifestLine<'a>, LineKind>
    ensures { told view result ≡ main_line (texts words.now) }
{
    counted(words, 2)?;
    Ok(ManifestLine::Main(word_at(words, 1)))
}

/// An update's time, of the words that have the right form: `at N`, `on call`.
fn read_when(words: &[&str]) -> Result<When, LineKind>
    ensures { told when_of result ≡ when_read (texts words.now) }
{
    if says(word_at(words, 2), "on") {
        return Ok(When::OnCall);
    }
    Ok(When::AtStep(step_in(word_at(words, 3))?))
}

/// What an update line says with that time.
fn update_of<'a>(words: &[&'a str], when: When) -> ManifestLine<'a>
    ensures { view result ≡ update_of (texts words.now) (when_of when) }
{
    let file = word_at(words, 1);
    if says(file, "here") {
        ManifestLine::UpdateInLines { when }
    } else {
        ManifestLine::UpdateInFile { file, when }
    }
}

/// `update FILE at N`, `update FILE on call`, and `here` in place of the file.
fn read_update<'a>(words: &[&'a str]) -> Result<ManifestLine<'a>, LineKind>
    ensures { told view result ≡ update_line (texts words.now) }
{
    if !is_one_of(words, 2, &["at", "on"]) {
        return Err(LineKind::Word);
    }
    if says(word_at(words, 2), "on") && !is_one_of(words, 3, &["call"]) {
        return Err(LineKind::Word);
    }
    counted(words, 4)?;
    let when = read_when(words)?;
    Ok(update_of(words, when))
}

/// A line that names a class, among the lines of manifests.
fn class_named<'a>(read: Result<ClassLine<'a>, LineKind>) -> Result<ManifestLine<'a>, LineKind>
    ensures { told view result ≡ class_named (told class_line_of read.entry) }
{
    Ok(ManifestLine::Class(read?))
}

/// A line of these words. The other words that manifests have somewhere are out of order.
#[tactic(auto, unfolding(manifest_model::specs::ManifestLines::manifest_line_of))]
fn read_words<'a>(words: &[&'a str]) -> Result<ManifestLine<'a>, LineKind>
    ensures { told view result ≡ manifest_line_of (texts words.now) }
{
    let first = word_at(words, 0);
    if says(first, "main") {
        read_main(words)
    } else if says(first, "class") {
        class_named(read_class_line(words))
    } else if says(first, "asm") {
        class_named(read_asm_line(words))
    } else if says(first, "update") {
        read_update(words)
    } else if says(first, "jvolve") || says(first, ".end") || says(first, ".done") {
        Err(LineKind::Order)
    } else {
        Err(LineKind::Word)
    }
}

/// What a line says by itself, or the kind of its least fault.
pub fn read_line(alloc: Global, line: &str) -> Result<ManifestLine<'_>, ReadError>
    ensures { Tells view result (manifest_line_of (words_of line.now)) }
{
    let words = words_of(alloc, line)?;
    Ok(read_words(words.as_slice())?)
}
