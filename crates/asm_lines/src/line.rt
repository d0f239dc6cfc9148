//! A line of an assembler text behind its first.

ghost use Rattle.std.specs.Prelude.{◌≡◌, ◌==◌, IfOk, MatchOption, option_map, position, false, true};
ghost use Rattle.jv_model.specs.Lines.{words_of};
ghost use Rattle.text_model.specs.LineFaults.{is_text};
ghost use Rattle.text_model.specs.Words.{word_at};
ghost use Rattle.jv_types.specs.Lines.{line_view};
ghost use Rattle.assembler_model.specs.AssemblerLines.{attribute_read, catch_read, caught, constant_of as constant_read, field_read, flags_read, has_field_count, method_read, numbered, read_form, read_words, stack_read, takes_constant, class_form, implements_form, end_form, at_form};
ghost use Rattle.asm_lines.specs.Words.{texts};
ghost use Rattle.asm_lines.specs.Told.{told, Tells};
ghost use Rattle.asm_lines.specs.Terms.{constant_of, line_of as view, name_of, value_of};
ghost use Rattle.asm_lines.specs.LineForms.{form_of as form_view, form_if_any};
ghost use Rattle.asm_lines.specs.NumberedLines.{numbered_of, numbered_text};

use crate::error::ReadError;
use crate::form::{LineForm, form_of};
use crate::frame::read_frame;
use crate::hexadecimal::hex_bytes;
use crate::numbered_line::NumberedLine;
use crate::numeral::{int_in, long_in, u2_in};
use crate::operation::read_operation;
use crate::term::{AssemblerLine, ConstantText};
use crate::words::{
    are_whole, are_words, counted, is_one_of, says, text_behind, word_at, words_of,
};
use jv_types::lines::Line;
use jv_types::{LineKind, NoMemory};
use std::alloc::Global;
use std::str;

/// A class line behind the first, which may not stand there.
#[tactic(auto, unfolding(assembler_model::specs::AssemblerLines::read_form))]
fn read_class_line<'a>(words: &[&'a str]) -> Result<AssemblerLine<'a>, LineKind>
    ensures { told view result ≡ read_form class_form (texts words.now) }
{
    if !is_one_of(words, 2, &["extends"]) {
        return Err(LineKind::Word);
    }
    Err(LineKind::Order)
}

/// `flags N`.
fn read_flags<'a>(words: &[&'a str]) -> Result<AssemblerLine<'a>, LineKind>
    ensures { told view result ≡ flags_read (texts words.now) }
{
    counted(words, 2)?;
    let flags = u2_in(word_at(words, 1))?;
    Ok(AssemblerLine::Flags(flags))
}

/// `implements NAME`.
#[tactic(auto, unfolding(assembler_model::specs::AssemblerLines::read_form))]
fn read_implements<'a>(words: &[&'a str]) -> Result<AssemblerLine<'a>, LineKind>
    ensures { told view result ≡ read_form implements_form (texts words.now) }
{
    counted(words, 2)?;
    Ok(AssemblerLine::Implements(word_at(words, 1)))
}

/// Whether a constant of a kind is one that a field with this descriptor takes (JVMS 4.7.2).
fn takes_constant(kind: &str, descriptor: &str) -> bool
    ensures { result ≡ takes_constant kind.now descriptor.now }
{
    if says(kind, "int") {
        is_one_of(&[descriptor], 0, &["Z", "B", "C", "S", "I"])
    } else if says(kind, "long") {
        says(descriptor, "J")
    } else {
        says(descriptor, "Ljava/lang/String;")
    }
}

/// Four words, and behind them none or `const`, its kind and a value. A text may have spaces and be
/// empty.
fn has_field_count(words: &[&str]) -> bool
    ensures { result ≡ has_field_count (texts words.now) }
{
    are_words(words, 4)
        || are_words(words, 7)
        || (words.len() >= 7 && says(word_at(words, 5), "string") && are_whole(&words[..6]))
}

/// The constant of a field line with so many words.
fn constant_of<'a>(line: &'a str, words: &[&'a str]) -> Result<Option<ConstantText<'a>>, LineKind>
    requires { texts words.now ≡ words_of line.now }
    ensures { told value_of result ≡ constant_read (texts words.now) }
{
    if words.len() == 4 {
        Ok(None)
    } else if says(word_at(words, 5), "int") {
        let value = int_in(word_at(words, 6))?;
        Ok(Some(ConstantText::Int(value)))
    } else if says(word_at(words, 5), "long") {
        let value = long_in(word_at(words, 6))?;
        Ok(Some(ConstantText::Long(value)))
    } else {
        Ok(Some(ConstantText::String(text_behind(line, 6))))
    }
}

/// `field FLAGS NAME DESC`, with a constant or without.
fn read_field<'a>(line: &'a str, words: &[&'a str]) -> Result<AssemblerLine<'a>, LineKind>
    requires { texts words.now ≡ words_of line.now }
    ensures { told view result ≡ field_read (texts words.now) }
{
    if !is_one_of(words, 4, &["const"]) || !is_one_of(words, 5, &["int", "string", "long"]) {
        return Err(LineKind::Word);
    }
    if words.len() >= 6 && !takes_constant(word_at(words, 5), word_at(words, 3)) {
        return Err(LineKind::Order);
    }
    if !has_field_count(words) {
        return Err(LineKind::Count);
    }
    let flags = u2_in(word_at(words, 1))?;
    let value = constant_of(line, words)?;
    Ok(AssemblerLine::Field {
        flags,
        name: word_at(words, 2),
        descriptor: word_at(words, 3),
        value,
    })
}

/// `method FLAGS NAME DESC`.
fn read_method<'a>(words: &[&'a str]) -> Result<AssemblerLine<'a>, LineKind>
    ensures { told view result ≡ method_read (texts words.now) }
{
    counted(words, 4)?;
    let flags = u2_in(word_at(words, 1))?;
    Ok(AssemblerLine::Method {
        flags,
        name: word_at(words, 2),
        descriptor: word_at(words, 3),
    })
}

/// `stack N locals N`.
fn read_stack<'a>(words: &[&'a str]) -> Result<AssemblerLine<'a>, LineKind>
    ensures { told view result ≡ stack_read (texts words.now) }
{
    if !is_one_of(words, 2, &["locals"]) {
        return Err(LineKind::Word);
    }
    counted(words, 4)?;
    let stack = u2_in(word_at(words, 1))?;
    let locals = u2_in(word_at(words, 3))?;
    Ok(AssemblerLine::Stack { stack, locals })
}

/// `end`, where it doesn't end a method.
#[tactic(auto, unfolding(assembler_model::specs::AssemblerLines::read_form))]
fn read_end<'a>(words: &[&'a str]) -> Result<AssemblerLine<'a>, LineKind>
    ensures { told view result ≡ read_form end_form (texts words.now) }
{
    counted(words, 1)?;
    Ok(AssemblerLine::End)
}

/// `at LABEL`.
#[tactic(auto, unfolding(assembler_model::specs::AssemblerLines::read_form))]
fn read_at<'a>(words: &[&'a str]) -> Result<AssemblerLine<'a>, LineKind>
    ensures { told view result ≡ read_form at_form (texts words.now) }
{
    counted(words, 2)?;
    Ok(AssemblerLine::At(word_at(words, 1)))
}

/// The class that a handler catches, if not any.
fn caught(word: &str) -> Option<&str>
    ensures { option_map name_of result ≡ caught word.now }
{
    if says(word, "any") { None } else { Some(word) }
}

/// `catch FROM TO TARGET NAME`.
fn read_catch<'a>(words: &[&'a str]) -> Result<AssemblerLine<'a>, LineKind>
    ensures { told view result ≡ catch_read (texts words.now) }
{
    counted(words, 5)?;
    Ok(AssemblerLine::Catch {
        from: word_at(words, 1),
        to: word_at(words, 2),
        target: word_at(words, 3),
        caught: caught(word_at(words, 4)),
    })
}

/// `attr NAME HEX`.
fn read_attribute<'a>(alloc: Global, words: &[&'a str]) -> Result<AssemblerLine<'a>, ReadError>
    ensures { Tells view result (attribute_read (texts words.now)) }
{
    if !are_words(words, 3) {
        return Err(ReadError::Line(LineKind::Count));
    }
    let Some(bytes) = hex_bytes(alloc, word_at(words, 2).as_bytes())? else {
        return Err(ReadError::Line(LineKind::Number));
    };
    Ok(AssemblerLine::Attribute {
        name: word_at(words, 1),
        bytes,
    })
}

/// A line by its form.
#[tactic(auto, unfolding(assembler_model::specs::AssemblerLines::read_form))]
fn read_form<'a>(
    alloc: Global,
    form: LineForm,
    line: &'a str,
    words: &[&'a str],
) -> Result<AssemblerLine<'a>, ReadError>
    requires { texts words.now ≡ words_of line.now }
    ensures { Tells view result (read_form (form_view form) (texts words.now)) }
{
    let said = match form {
        LineForm::Class => read_class_line(words),
        LineForm::Flags => read_flags(words),
        LineForm::Implements => read_implements(words),
        LineForm::Field => read_field(line, words),
        LineForm::Method => read_method(words),
        LineForm::Stack => read_stack(words),
        LineForm::End => read_end(words),
        LineForm::At => read_at(words),
        LineForm::Catch => read_catch(words),
        LineForm::Attribute => return read_attribute(alloc, words),
        LineForm::Frame => return read_frame(alloc, words),
        LineForm::Operation(opcode, form) => {
            let operation = read_operation(alloc, opcode, form, line, words)?;
            return Ok(AssemblerLine::Operation(operation));
        }
    };
    match said {
        Ok(said) => Ok(said),
        Err(kind) => Err(ReadError::Line(kind)),
    }
}

/// A line by its form, where its first word has one.
fn read_words<'a>(
    alloc: Global,
    form: Option<LineForm>,
    line: &'a str,
    words: &[&'a str],
) -> Result<AssemblerLine<'a>, ReadError>
    requires { texts words.now ≡ words_of line.now }
    ensures { Tells view result (read_words (form_if_any form) (texts words.now)) }
{
    match form {
        Some(form) => read_form(alloc, form, line, words),
        None => Err(ReadError::Line(LineKind::Word)),
    }
}

/// The text of a line, where it is UTF-8 and a line feed ends it.
fn text_of(line: Line<'_>) -> Option<&str>
    ensures { MatchOption result (is_text (line_view line.entry) ≡ false)
        (λ text. (is_text (line_view line.entry) ≡ true) × (text.now ≡ line.entry.bytes.now)) }
{
    if !line.is_ended {
        return None;
    }
    match str::from_utf8(line.bytes) {
        Ok(text) => Some(text),
        Err(_) => None,
    }
}

/// The place of the first space.
fn first_space(line: &[u8]) -> Option<usize>
    ensures { result ≡ position (λ byte. byte == 32) line.now }
{
    line.iter().position(|byte| *byte == b' ')
}

/// What stands before the first space.
fn first_bytes(line: &[u8]) -> &[u8]
    ensures { result.now ≡ word_at (words_of line.now) 0 }
{
    match first_space(line) {
        Some(end) => &line[..end],
        None => line,
    }
}

/// A line of text.
fn read_text(alloc: Global, number: u32, text: &str) -> Result<NumberedLine<'_>, NoMemory>
    ensures { IfOk result (λ line. numbered_of line ≡ numbered_text number text.now) }
{
    let words = words_of(alloc, text)?;
    let form = form_of(word_at(words.as_slice(), 0).as_bytes());
    let said = match read_words(alloc, form, text, words.as_slice()) {
        Ok(said) => Ok(said),
        Err(ReadError::Line(kind)) => Err(kind),
        Err(ReadError::NoMemory) => return Err(NoMemory),
    };
    Ok(NumberedLine { number, form, said })
}

/// A line of an assembler text behind its first, with its number: what it says, or the kind of its
/// least fault.
pub fn read_line(alloc: Global, number: u32, line: Line<'_>) -> Result<NumberedLine<'_>, NoMemory>
    ensures { IfOk result (λ read. numbered_of read ≡ numbered number (line_view line.entry)) }
{
    match text_of(line) {
        Some(text) => read_text(alloc, number, text),
        None => Ok(NumberedLine {
            number,
            form: form_of(first_bytes(line.bytes)),
            said: Err(LineKind::Text),
        }),
    }
}
