//! The first line of a text: `class NAME extends NAME`.

ghost use Rattle.std.specs.Prelude.{◌≡◌, ◌∷◌, [], ◌==◌, true, false, length, Some, MatchOption, MatchResult};
ghost use Rattle.jv_model.specs.Lines.{lines_of, words_of};
ghost use Rattle.jv_types.specs.Lines.{line_view};
ghost use Rattle.text_model.specs.LineFaults.{is_text};
ghost use Rattle.assembler_model.specs.AssembledClass.{is_head};
ghost use Rattle.asm_parts.specs.Faults.{fault_of};
ghost use Rattle.class_asm.specs.Assembles.{head_fault};
ghost use Rattle.class_asm.specs.Heads.{BeginsText, SaysNames};

use asm_parts::first_fault::LineFault;
use jv_types::LineKind;
use jv_types::lines::{Line, first_word, split_line};
use std::str;

/// What a class is called, and its superclass.
#[derive(Clone, Copy, Debug)]
pub struct Names<'a> {
    pub this: &'a str,
    pub super_class: &'a str,
}

/// What the first line of a text says, and the lines behind it.
#[derive(Clone, Copy, Debug)]
pub struct Head<'a> {
    pub names: Names<'a>,
    pub behind: &'a [u8],
}

/// The text of a line, where it is UTF-8 and a line feed ends it.
fn text_of(line: Line<'_>) -> Option<&str>
    ensures { MatchOption result (is_text (line_view line.entry) ≡ false)
        (λ text. (is_text (line_view line.entry) ≡ true) × (text.now ≡ line.entry.bytes.now)) }
{
    if !line.is_ended {
        return None;
    }
    match str::from_utf8(line.bytes) {
        Ok(text) => Some(text),
        Err(_) => None,
    }
}

/// The word of a text, where it has no other.
#[tactic(auto, using(crate::proofs::WordLemmas::more_words))]
fn only_word(text: &str) -> Option<&str>
    ensures { MatchOption result ((length (words_of text.now) == 1) ≡ false)
        (λ word. words_of text.now ≡ word.now ∷ []) }
{
    match first_word(text) {
        (word, None) => Some(word),
        (_, Some(_)) => None,
    }
}

/// The names in `class NAME extends NAME`, where a line is that.
fn names_of(head: &str) -> Option<Names<'_>>
    ensures { MatchOption result (is_head (words_of head.now) ≡ false) (SaysNames (words_of head.now)) }
{
    let (class, Some(behind)) = first_word(head) else {
        return None;
    };
    let (this, Some(behind)) = first_word(behind) else {
        return None;
    };
    let (extends, Some(behind)) = first_word(behind) else {
        return None;
    };
    let Some(super_class) = only_word(behind) else {
        return None;
    };
    if class != "class" || this.is_empty() || extends != "extends" || super_class.is_empty() {
        return None;
    }
    Some(Names { this, super_class })
}

/// What the first line of a text says, or what is wrong with it.
pub fn read_head(text: &[u8]) -> Result<Head<'_>, LineFault>
    ensures { MatchResult result (BeginsText text.now)
        (λ fault. head_fault (lines_of text.now) ≡ Some (fault_of fault)) }
{
    if text.is_empty() {
        let kind = LineKind::Head;
        return Err(LineFault { line: 1, kind });
    }
    let (line, behind) = split_line(text);
    let Some(head) = text_of(line) else {
        let kind = LineKind::Text;
        return Err(LineFault { line: 1, kind });
    };
    match names_of(head) {
        Some(names) => Ok(Head { names, behind }),
        None => {
            let kind = LineKind::Head;
            Err(LineFault { line: 1, kind })
        }
    }
}
