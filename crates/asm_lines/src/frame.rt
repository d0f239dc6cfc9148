//! Frame lines.

ghost use Rattle.std.specs.Prelude.{◌≡◌, ◌==◌, IfOk, map, count_by};
ghost use Rattle.std.specs.List.{after_first, before_first};
ghost use Rattle.assembler_model.specs.AssemblerLines.{frame_read, frame_type, is_bar};
ghost use Rattle.asm_lines.specs.Words.{texts};
ghost use Rattle.asm_lines.specs.Told.{Tells};
ghost use Rattle.asm_lines.specs.Terms.{line_of as view, type_of, types_of};

use crate::error::ReadError;
use crate::term::{AssemblerLine, FrameType};
use crate::words::{are_whole, operands, says};
use jv_types::{LineKind, List, NoMemory};
use std::alloc::Global;

/// Whether a word is a bar.
fn is_bar(word: &str) -> bool
    ensures { result ≡ is_bar word.now }
{
    says(word, "|")
}

/// Whether just one of the words is a bar.
fn has_one_bar(words: &[&str]) -> bool
    ensures { result ≡ (count_by is_bar (texts words.now) == 1) }
{
    let mut bars = 0_usize;
    for word in words {
        if is_bar(word) {
            bars += 1;
        }
    }
    bars == 1
}

/// The words before the first bar, and those behind it.
fn split_at_bar<'w, 'a>(words: &'w [&'a str]) -> (&'w [&'a str], &'w [&'a str])
    ensures before { texts result.0.now ≡ before_first is_bar (texts words.now) }
    ensures behind { texts result.1.now ≡ after_first is_bar (texts words.now) }
{
    for (place, word) in words.iter().enumerate() {
        if is_bar(word) {
            return (&words[..place], &words[place + 1..]);
        }
    }
    (words, &[])
}

/// The type that a word of a frame says.
fn frame_type(word: &str) -> FrameType<'_>
    ensures { type_of result ≡ frame_type word.now }
{
    if says(word, "top") {
        FrameType::Top
    } else if says(word, "int") {
        FrameType::Int
    } else if says(word, "long") {
        FrameType::Long
    } else if says(word, "null") {
        FrameType::Null
    } else if says(word, "this") {
        FrameType::This
    } else if let Some(label) = word.strip_prefix("new:") {
        FrameType::New(label)
    } else {
        FrameType::Object(word)
    }
}

/// The types that words of a frame say.
fn frame_types<'a>(alloc: Global, words: &[&'a str]) -> Result<List<FrameType<'a>>, NoMemory>
    ensures { IfOk result (λ types. types_of types ≡ map frame_type (texts words.now)) }
{
    let mut types = List::new(alloc);
    for word in words {
        types.push(frame_type(word))?;
    }
    Ok(types)
}

/// `frame`, types, a bar, and types.
pub(crate) fn read_frame<'a>(
    alloc: Global,
    words: &[&'a str],
) -> Result<AssemblerLine<'a>, ReadError>
    ensures { Tells view result (frame_read (texts words.now)) }
{
    if !has_one_bar(words) {
        return Err(ReadError::Line(LineKind::Word));
    }
    if !are_whole(words) {
        return Err(ReadError::Line(LineKind::Count));
    }
    let (locals, _) = split_at_bar(operands(words));
    let (_, stack) = split_at_bar(words);
    Ok(AssemblerLine::Frame {
        locals: frame_types(alloc, locals)?,
        stack: frame_types(alloc, stack)?,
    })
}
