//! The words of a line.

ghost use Rattle.std.specs.Prelude.{◌≡◌, true, false, drop, IfOk, MatchResult, bytes_eq};
ghost use Rattle.std.specs.List.{list_any};
ghost use Rattle.jv_model.specs.Lines.{words_of};
ghost use Rattle.jv_types.specs.declared.refusal.LineKind.TheVariants as kinds;
ghost use Rattle.text_model.specs.Words.{are_words, is_one_of, text_behind, word_at};
ghost use Rattle.assembler_model.specs.OperationLines.{are_whole};
ghost use Rattle.asm_lines.specs.Words.{texts};

use jv_types::lines::first_word;
use jv_types::{LineKind, NoMemory};
use smallvec::SmallVec;
use std::alloc::Global;

/// The words of a line, in order. Most lines have few, which take no memory.
pub type Words<'a> = SmallVec<&'a str, 8>;

/// The words of a line: what stands before, between and behind its spaces.
pub fn words_of(alloc: Global, line: &str) -> Result<Words<'_>, NoMemory>
    ensures { IfOk result (λ words. texts words.items ≡ words_of line.now) }
{
    let mut words = SmallVec::new(alloc);
    let mut left = Some(line);
    while let Some(text) = left {
        let (word, behind) = first_word(text);
        words.push(word)?;
        left = behind;
    }
    Ok(words)
}

/// The word at a place, from 0. Where there is none, it is as an empty one.
pub fn word_at<'a>(words: &[&'a str], place: usize) -> &'a str
    ensures { result.now ≡ word_at (texts words.now) place }
{
    match words.get(place) {
        Some(word) => word,
        None => "",
    }
}

/// Whether no word is empty.
pub fn are_whole(words: &[&str]) -> bool
    ensures { result ≡ are_whole (texts words.now) }
{
    for word in words {
        if word.is_empty() {
            return false;
        }
    }
    true
}

/// Whether there are so many words, and none of them is empty.
pub fn are_words(words: &[&str], count: usize) -> bool
    ensures { result ≡ are_words count (texts words.now) }
{
    words.len() == count && are_whole(words)
}

/// Whether a word is this one.
pub fn says(word: &str, text: &str) -> bool
    ensures { result ≡ bytes_eq word.now text.now }
{
    word == text
}

/// Whether a word is one of these.
fn is_among(word: &str, choices: &[&str]) -> bool
    ensures { result ≡ list_any (bytes_eq word.now) (texts choices.now) }
{
    for choice in choices {
        if says(word, choice) {
            return true;
        }
    }
    false
}

/// Whether the word at a place, where there is one, is one of these.
pub fn is_one_of(words: &[&str], place: usize, choices: &[&str]) -> bool
    ensures { result ≡ is_one_of (texts words.now) place (texts choices.now) }
{
    match words.get(place) {
        Some(word) => is_among(word, choices),
        None => true,
    }
}

/// What stands in a line behind so many words, as it stands.
pub fn text_behind(line: &str, count: usize) -> &str
    ensures { result.now ≡ text_behind count (words_of line.now) }
{
    let mut left = line;
    for _place in 0..count {
        let (_, behind) = first_word(left);
        let Some(behind) = behind else {
            return "";
        };
        left = behind;
    }
    left
}

/// Asks that there are so many words, and none of them is empty.
pub fn counted(words: &[&str], count: usize) -> Result<(), LineKind>
    ensures { MatchResult result (λ done. are_words count (texts words.now) ≡ true)
        (λ kind. (are_words count (texts words.now) ≡ false) × (kind ≡ kinds.Count)) }
{
    if !are_words(words, count) {
        return Err(LineKind::Count);
    }
    Ok(())
}

/// All words but the first.
pub fn operands<'w, 'a>(words: &'w [&'a str]) -> &'w [&'a str]
    ensures { texts result.now ≡ drop 1 (texts words.now) }
{
    match words {
        [_, operands @ ..] => operands,
        [] => words,
    }
}
